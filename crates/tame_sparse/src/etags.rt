//! The entity tags that were seen last.
ghost use Rattle.std.specs.Prelude.{◌≡◌, ◌≢◌, ◌⊎◌, ◌≤◌, ◌+◌, ◌++◌, ℕ, List, Ok, Err, Some, None, IfOk, IfErr, OnOk, OnErr, bytes_eq, option_map, true, if◌then◌else◌};
ghost use Rattle.tame_names.specs.Counts.{CountStayed, CountRose};
ghost use Rattle.tame_names.specs.KrateNames.{text_of};
ghost use Rattle.tame_names.specs.Names.{path};
ghost use Rattle.tame_entry.specs.ServerMaps.{ServerMap};
ghost use Rattle.tame_entry.specs.declared.revisions.OwnedRevision.TheVariants.{Etag};
ghost use Rattle.tame_cache.specs.CacheFiles.{HandsOut};
ghost use Rattle.tame_cache.specs.Disk.{reads};
ghost use Rattle.tame_cache.specs.Folders.{MakesOnly};
ghost use Rattle.tame_cache.specs.Kept.{IsKept, Keeps, cache_file_of};
ghost use Rattle.tame_sparse.specs.ResponseResults.{FailsFor, IsResponseResult, IsToStore, Stores, StoresUnlessFailed, StoresWhole, came, entry_of, storing_calls};
ghost use Rattle.tame_sparse.specs.Etags.{after_response, etag_at, with_etag};
ghost use Rattle.tame_sparse.specs.Etags as spec;
ghost use Rattle.tame_sparse.specs.Named.{NamesKept, NamesUnlessFailed, handed};
ghost use Rattle.tame_sparse.specs.Urls.{http_url};

use crate::network::Request;
use crate::responses::Response;
use crate::sparse::SparseIndex;
use std::alloc::Global;
use std::collections::BTreeMap;
use tame_cache::CacheDisk;
use tame_entry::{HttpRevision, IndexEntry};
use tame_names::{Error, FileLock, IoKind, KrateName, NoMemory, Text};

/// The entity tag that was seen last for each name, as it is written.
#[derive(Drop)]
pub struct EtagCache {
    etags: BTreeMap<String, Text>,
}

impl EtagCache {
    /// No tags.
    pub fn new(alloc: Global) -> EtagCache
        ensures { (n : List ℕ) → etag_at result n ≡ None }
    {
        EtagCache {
            etags: BTreeMap::new(alloc),
        }
    }

    /// The tag of a name.
    fn etag(&self, name: &str) -> Option<&str>
        ensures { option_map (λ etag. etag.now) result ≡ etag_at self.now name.now }
    {
        match self.etags.get(name) {
            Some(etag) => Some(etag.as_str()),
            None => None,
        }
    }

    /// Remembers the tag of a name, replacing the one before.
    fn remember(&mut self, alloc: Global, name: &str, etag: &str) -> Result<(), NoMemory>
        ensures remembered { OnOk result
            ((n : List ℕ) → etag_at self.new n
            ≡ with_etag name.now etag.now n (etag_at self.old n)) }
        ensures same { OnErr result ((n : List ℕ) → etag_at self.new n ≡ etag_at self.old n) }
    {
        let key = String::from_str(alloc, name)?;
        let text = Text::of(alloc, etag)?;
        match self.etags.insert(key, text) {
            Ok(_) => Ok(()),
            Err(_) => Err(NoMemory),
        }
    }

    /// Remembers the tag of a name, if there is one.
    fn see(&mut self, alloc: Global, name: &str, seen: Option<&str>) -> Result<(), NoMemory>
        ensures remembered { OnOk result
            ((n : List ℕ) → etag_at self.new n
            ≡ after_response name.now (option_map (λ etag. etag.now) seen.entry) n
            (etag_at self.old n)) }
        ensures same { OnErr result ((n : List ℕ) → etag_at self.new n ≡ etag_at self.old n) }
    {
        match seen {
            Some(etag) => self.remember(alloc, name, etag),
            None => Ok(()),
        }
    }

    /// The request of an index for a crate's file, with the tag that was seen last for the name
    /// handed in; refused as the request of the index is.
    pub fn make_remote_request<D: CacheDisk>(
        &self,
        alloc: Global,
        index: &SparseIndex,
        name: KrateName<'_>,
        lock: &FileLock,
        disk: &mut D,
    ) -> Result<Request, Error>
        ensures path { IfOk result (λ request. path (text_of name.entry) ≡ Some request.path) }
        ensures uri { IfOk result (λ request. request.uri
            ≡ http_url index.now.cache.index ++ request.path) }
        // what is named
        ensures kept_named { D.tells → etag_at self.now (text_of name.entry) ≡ None → (q : List ℕ)
            → cache_file_of index.now.cache.path (text_of name.entry) ≡ Some q
            → IfOk result (λ request. NamesKept index.now.cache.index (reads (D.past disk.old q))
            (D.faults disk.old) (D.faults disk.new) request.named) }
        ensures named_unless_failed { D.tells → etag_at self.now (text_of name.entry) ≡ None
            → (q : List ℕ) → cache_file_of index.now.cache.path (text_of name.entry) ≡ Some q
            → IfOk result (λ request. NamesUnlessFailed index.now.cache.index q
            (reads (D.past disk.old q)) (D.failed disk.old) (D.failed disk.new) request.named) }
        ensures unfailed { OnErr result ((q : List ℕ)
            → cache_file_of index.now.cache.path (text_of name.entry) ≡ Some q
            → D.failed disk.new ≡ D.failed disk.old) }
        ensures handed { (etag : List ℕ) → etag_at self.now (text_of name.entry) ≡ Some etag
            → IfOk result (λ request. handed (Etag etag) ≡ Ok request.named) }
        ensures refused { IfErr result
            (λ e. (e ≡ Error.NoMemory)
            ⊎ ((etag : List ℕ) × (etag_at self.now (text_of name.entry) ≡ Some etag)
            × (handed (Etag etag) ≡ Err e))) }
        // no file changes, and none is read if a tag was seen
        ensures same { D.tells → (q : List ℕ) → D.past disk.new q ≡ D.past disk.old q }
        ensures folders { D.tells → D.folders disk.new ≡ D.folders disk.old }
        ensures kept { D.tells → (m : ServerMap)
            → IsKept m index.now.cache.index index.now.cache.path (D.past disk.old)
            → Keeps m index.now.cache.index index.now.cache.path (D.past disk.old)
            (D.past disk.new) }
        ensures uncalled { (etag : List ℕ) → etag_at self.now (text_of name.entry) ≡ Some etag
            → disk.new ≡ disk.old }
        ensures calls { D.made disk.new ≤ D.made disk.old + 1 }
        ensures later { D.faults disk.old ≤ D.faults disk.new }
    {
        match self.etag(name.as_str()) {
            Some(etag) => {
                index.make_remote_request(alloc, name, Some(HttpRevision::Etag(etag)), lock, disk)
            }
            None => index.make_remote_request(alloc, name, None, lock, disk),
        }
    }

    /// Takes the answer for a crate as the index does, and remembers its tag, also if the answer is
    /// refused. If out of memory, nothing is remembered.
    pub fn parse_remote_response<'r, 'l, D: CacheDisk>(
        &mut self,
        alloc: Global,
        index: &SparseIndex,
        name: KrateName<'_>,
        response: Response<'r>,
        write_cache_entry: bool,
        lock: &'l FileLock,
        disk: &mut D,
    ) -> Result<Option<IndexEntry<'r, 'l>>, Error>
        // what is remembered
        ensures remembered { result ≢ Err Error.NoMemory → (n : List ℕ)
            → etag_at self.new n ≡ after_response (text_of name.entry)
            (spec.seen_etag response.entry.revision) n (etag_at self.old n) }
        ensures unremembered { result ≡ Err Error.NoMemory → (n : List ℕ)
            → etag_at self.new n ≡ etag_at self.old n }
        // by the status; at 304 what a read of the file gave
        ensures taken { (result ≡ Err Error.NoMemory) ⊎ IsResponseResult response.entry result }
        ensures read { D.tells → response.entry.status_code ≡ 304 → (q : List ℕ)
            → cache_file_of index.now.cache.path (text_of name.entry) ≡ Some q
            → IfOk result (λ e. HandsOut index.now.cache.index e (reads (D.past disk.old q))) }
        ensures rose { result ≡ Err (Error.Io IoKind.Failed)
            → (response.entry.status_code ≡ 304)
            × CountRose (D.faults disk.old) (D.faults disk.new) }
        // what is stored
        ensures stores { D.tells → Stores index.now.cache.index index.now.cache.path
            (text_of name.entry) (came response.entry) write_cache_entry (D.past disk.old)
            (D.past disk.new) }
        ensures stored { D.tells → CountStayed (D.faults disk.old) (D.faults disk.new)
            → write_cache_entry ≡ true → IsToStore index.now.cache.index (came response.entry)
            → OnOk result (StoresWhole index.now.cache.index index.now.cache.path
            (text_of name.entry) (came response.entry) (D.past disk.new)) }
        ensures stored_unless_failed { D.tells → write_cache_entry ≡ true
            → IsToStore index.now.cache.index (came response.entry) → (q : List ℕ)
            → cache_file_of index.now.cache.path (text_of name.entry) ≡ Some q
            → OnOk result (StoresUnlessFailed
            (entry_of index.now.cache.index (came response.entry)) q (D.past disk.new q)
            (D.failed disk.old) (D.failed disk.new)) }
        ensures failed { (q : List ℕ)
            → cache_file_of index.now.cache.path (text_of name.entry) ≡ Some q
            → (result ≡ Err Error.NoMemory)
            ⊎ FailsFor index.now.cache.index q (came response.entry) write_cache_entry
            (D.failed disk.old) (D.failed disk.new) result }
        ensures folders { D.tells → MakesOnly
            (λ q. cache_file_of index.now.cache.path (text_of name.entry) ≡ Some q)
            (D.folders disk.old) (D.folders disk.new) }
        ensures calls { D.made disk.new ≤ D.made disk.old
            + storing_calls index.now.cache.index (came response.entry) }
        ensures later { D.faults disk.old ≤ D.faults disk.new }
    {
        let seen = seen_etag(response.revision);
        match index.parse_remote_response(alloc, name, response, write_cache_entry, lock, disk) {
            Err(Error::NoMemory) => Err(Error::NoMemory),
            Err(error) => match self.see(alloc, name.as_str(), seen) {
                Ok(()) => Err(error),
                Err(_) => Err(Error::NoMemory),
            },
            Ok(entry) => match self.see(alloc, name.as_str(), seen) {
                Ok(()) => Ok(entry),
                Err(_) => Err(Error::NoMemory),
            },
        }
    }
}

/// The entity tag of a response.
fn seen_etag(revision: Option<HttpRevision<'_>>) -> Option<&str>
    ensures { option_map (λ etag. etag.now) result ≡ spec.seen_etag revision.entry }
{
    match revision {
        Some(HttpRevision::Etag(etag)) => Some(etag),
        Some(HttpRevision::LastModified(_)) => None,
        None => None,
    }
}
