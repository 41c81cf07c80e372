//! A git index: only its cache.
ghost use Rattle.std.specs.Prelude.{◌≡◌, ◌≢◌, ◌⊎◌, ◌↔◌, ◌≤◌, ◌<◌, ◌+◌, ℕ, List, length, true, false, Ok, Err, Some, None, IsTrue, IfOk, IfErr, option_map};
ghost use Rattle.hex.specs.Hex.{encode_lower};
ghost use Rattle.tame_names.specs.Counts.{HasCause, CountRose};
ghost use Rattle.tame_names.specs.KrateNames.{text_of};
ghost use Rattle.tame_names.specs.Names.{is_name, refusal, refusal_of};
ghost use Rattle.tame_names.specs.declared.errors.InvalidKrateName.{InvalidKrateName};
ghost use Rattle.tame_entry.specs.Entry.{entry, is_storable};
ghost use Rattle.tame_entry.specs.ServerMaps.{ServerMap};
ghost use Rattle.tame_entry.specs.Revision.{Commit};
ghost use Rattle.tame_cache.specs.CacheFiles.{HandsOut};
ghost use Rattle.tame_cache.specs.Disk.{EachMoment, may_leave, reads};
ghost use Rattle.tame_cache.specs.FailedCalls.{AddsFailedBut, FailedReading, FailedWriting};
ghost use Rattle.tame_cache.specs.Folders.{MakesOnly};
ghost use Rattle.tame_cache.specs.Gate.{IsOrderly, IsUnreadable, IsStored};
ghost use Rattle.tame_cache.specs.Kept.{IsKept, Keeps, cache_file_of};
ghost use Rattle.tame_sparse.specs.Git.{version_pairs};
ghost use Rattle.tame_sparse.specs.Git as spec;
ghost use Rattle.tame_sparse.specs.Urls.{is_sparse_url};

use std::alloc::Global;
use tame_cache::{CacheDisk, CacheFault, IndexCache, Kept};
use tame_entry::{CacheWrite, GitRevision, IndexEntry, Revision, Sha1Hex};
use tame_location::is_sparse_url;
use tame_names::{Error, FileLock, InvalidUrl, InvalidUrlError, IoKind, KrateName, Text};
use tame_records::IndexKrate;

/// A registry's git index: where its cache is, and its head, if that is known.
#[derive(Drop)]
pub struct GitIndex {
    pub(crate) cache: IndexCache,
    pub(crate) head: Option<Sha1Hex>,
}

impl GitIndex {
    /// The index at a url, with its cache in the folder of a path, and without a head.
    /// `InvalidUrl(SparseForGit)` if the url begins with `sparse+http`.
    pub fn at(alloc: Global, path: Text, url: &str) -> Result<GitIndex, Error>
        ensures ok { IfOk result (λ index. (is_sparse_url url.now ≡ false)
            × (index.cache.path ≡ path) × (index.cache.index ≡ url.now) × (index.head ≡ None)) }
        ensures refused { IfErr result (λ e. (e ≡ Error.NoMemory)
            ⊎ ((is_sparse_url url.now ≡ true) × (e ≡ Error.InvalidUrl (record {
              url = url.now;
              source = InvalidUrlError.SparseForGit;
            })))) }
    {
        let copy = Text::of(alloc, url)?;
        if is_sparse_url(url) {
            return Err(Error::InvalidUrl(InvalidUrl {
                url: copy,
                source: InvalidUrlError::SparseForGit,
            }));
        }
        Ok(GitIndex {
            cache: IndexCache::at_path(path, copy),
            head: None,
        })
    }

    /// Sets the commit of the head, by the bytes of its SHA-1, or that it is unknown.
    pub fn set_head_commit(&mut self, commit_id: Option<[u8; 20]>)
        ensures head { self.new.head ≡ option_map encode_lower commit_id }
        ensures cache { self.new.cache ≡ self.old.cache }
    {
        self.head = match commit_id {
            Some(id) => Some(Sha1Hex::from(id)),
            None => None,
        };
    }

    /// The commit of the head, as hex digits.
    pub fn head_commit(&self) -> Option<&Sha1Hex>
        ensures { option_map (λ id. id.now) result ≡ self.now.head }
    {
        match &self.head {
            Some(id) => Some(id),
            None => None,
        }
    }

    /// The cache of the index.
    pub fn cache(&self) -> &IndexCache
        ensures { result.now ≡ self.now.cache }
    {
        &self.cache
    }

    /// The file of the cache of a crate; nothing if there is none. `Io(Failed)` if the disk failed.
    pub fn cached_krate<'l, D: CacheDisk>(
        &self,
        alloc: Global,
        name: KrateName<'_>,
        lock: &'l FileLock,
        disk: &mut D,
    ) -> Result<Option<IndexEntry<'static, 'l>>, Error>
        ensures read { D.tells → (q : List ℕ)
            → cache_file_of self.now.cache.path (text_of name.entry) ≡ Some q
            → IfOk result (λ e. HandsOut self.now.cache.index e (reads (D.past disk.old q))) }
        ensures same { D.tells → (q : List ℕ) → D.past disk.new q ≡ D.past disk.old q }
        ensures folders { D.tells → D.folders disk.new ≡ D.folders disk.old }
        ensures calls { D.made disk.new ≤ D.made disk.old + 1 }
        ensures failed { (q : List ℕ)
            → cache_file_of self.now.cache.path (text_of name.entry) ≡ Some q
            → AddsFailedBut Error.NoMemory (FailedReading q) (D.failed disk.old)
            (D.failed disk.new) result }
        ensures cause { HasCause Error.NoMemory (D.faults disk.old) (D.faults disk.new) result }
        ensures only { IfErr result (λ e. (e ≡ Error.NoMemory) ⊎ (e ≡ Error.Io IoKind.Failed)) }
    {
        self.cache.cached_krate(alloc, name, lock, disk)
    }

    /// Stores the versions of a crate, at least one, under the id of a blob, or under that of the
    /// head; nothing is done if neither is known. `InvalidKrateName` if the first version's name is
    /// none, `Io(Failed)` if the disk failed.
    pub fn write_to_cache<D: CacheDisk>(
        &self,
        alloc: Global,
        krate: &IndexKrate,
        blob_id: Option<Sha1Hex>,
        lock: &FileLock,
        disk: &mut D,
    ) -> Result<Option<Kept>, Error>
        requires { 0 < length krate.now.versions }
        // nothing without an id, or with a first name that is none
        ensures none { (result ≡ Ok None) ↔ (spec.stored_id blob_id self.now.head ≡ None) }
        ensures nameless { (why : InvalidKrateName) → result ≡ Err (Error.InvalidKrateName why)
            → refusal_of (spec.first_name krate.now.versions) ≡ Some (refusal why) }
        ensures nameless_uncalled { (why : InvalidKrateName)
            → result ≡ Err (Error.InvalidKrateName why) → disk.new ≡ disk.old }
        ensures named { (kept : Kept) → result ≡ Ok (Some kept)
            → IsTrue (is_name (spec.first_name krate.now.versions)) }
        ensures failed_named { result ≡ Err (Error.Io IoKind.Failed)
            → IsTrue (is_name (spec.first_name krate.now.versions)) }
        ensures uncalled { (result ≡ Ok None)
            ⊎ ((result ≡ Ok (Some Kept.NotStored)) ⊎ (result ≡ Err Error.NoMemory))
            → disk.new ≡ disk.old }
        ensures only { IfErr result (λ e. (e ≡ Error.NoMemory)
            ⊎ ((e ≡ Error.Io IoKind.Failed)
            ⊎ ((why : InvalidKrateName) × (e ≡ Error.InvalidKrateName why)))) }

        // what is stored
        ensures stored { D.tells → (id : List ℕ) → spec.stored_id blob_id self.now.head ≡ Some id
            → (q : List ℕ) → cache_file_of self.now.cache.path (spec.first_name krate.now.versions)
            ≡ Some q
            → result ≡ Ok (Some Kept.Written)
            → IsStored (entry self.now.cache.index (Commit id) (version_pairs krate.now.versions))
            (D.past disk.new q) }
        ensures storable { (id : List ℕ) → spec.stored_id blob_id self.now.head ≡ Some id
            → IfOk result (λ kept. (kept ≡ Some Kept.Written)
            ↔ IsTrue (is_storable self.now.cache.index (Commit id)
            (version_pairs krate.now.versions))) }
        ensures any_moment { D.tells → (id : List ℕ)
            → spec.stored_id blob_id self.now.head ≡ Some id → (q : List ℕ)
            → cache_file_of self.now.cache.path (spec.first_name krate.now.versions) ≡ Some q
            → IsOrderly (D.past disk.old q)
            → EachMoment (D.past disk.old q) (D.past disk.new q)
            (λ file. may_leave (D.past disk.old q) file
            ⊎ (IsUnreadable file
            ⊎ (file ≡ Some (entry self.now.cache.index (Commit id)
            (version_pairs krate.now.versions))))) }
        ensures others { D.tells → (q : List ℕ)
            → cache_file_of self.now.cache.path (spec.first_name krate.now.versions) ≢ Some q
            → D.past disk.new q ≡ D.past disk.old q }
        ensures kept { D.tells → (m : ServerMap)
            → IsKept m self.now.cache.index self.now.cache.path (D.past disk.old)
            → Keeps m self.now.cache.index self.now.cache.path (D.past disk.old)
            (D.past disk.new) }
        ensures folders { D.tells → MakesOnly
            (λ q. cache_file_of self.now.cache.path (spec.first_name krate.now.versions) ≡ Some q)
            (D.folders disk.old) (D.folders disk.new) }
        ensures calls { D.made disk.new ≤ D.made disk.old + 13 }
        ensures later { D.faults disk.old ≤ D.faults disk.new }
        ensures rose { result ≡ Err (Error.Io IoKind.Failed)
            → CountRose (D.faults disk.old) (D.faults disk.new) }
        ensures failed { result ≡ Err (Error.Io IoKind.Failed) → (q : List ℕ)
            → cache_file_of self.now.cache.path (spec.first_name krate.now.versions) ≡ Some q
            → FailedWriting q (D.failed disk.old) (D.failed disk.new) }
        ensures unfailed { result ≢ Err (Error.Io IoKind.Failed) → (q : List ℕ)
            → cache_file_of self.now.cache.path (spec.first_name krate.now.versions) ≡ Some q
            → D.failed disk.new ≡ D.failed disk.old }
    {
        let Some(id) = self.stored_id(blob_id) else {
            return Ok(None);
        };
        let name = match KrateName::try_from(first_name(krate)) {
            Ok(name) => name,
            Err(why) => return Err(Error::InvalidKrateName(why)),
        };
        match self.cache.write_to_cache(
            alloc,
            name,
            CacheWrite::Krate(krate),
            &Revision::Git(GitRevision::Hex(id)),
            lock,
            disk,
        ) {
            Ok(kept) => Ok(Some(kept)),
            Err(CacheFault::Disk) => Err(Error::Io(IoKind::Failed)),
            Err(CacheFault::NoMemory) => Err(Error::NoMemory),
        }
    }

    /// The id of a blob, else that of the head.
    fn stored_id(&self, blob_id: Option<Sha1Hex>) -> Option<Sha1Hex>
        ensures { result ≡ spec.stored_id blob_id self.now.head }
    {
        match blob_id {
            Some(id) => Some(id),
            None => self.head,
        }
    }
}

/// The name of the first version.
fn first_name(krate: &IndexKrate) -> &str
    requires { 0 < length krate.now.versions }
    ensures { result.now ≡ spec.first_name krate.now.versions }
{
    krate.name()
}
