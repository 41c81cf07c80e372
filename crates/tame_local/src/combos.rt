//! The caches of indices of every kind.
ghost use Rattle.std.specs.Prelude.{◌≡◌, ◌≢◌, ◌⊎◌, ◌≤◌, ◌+◌, ℕ, List, Err, Some, IfOk, IfErr, option_map};
ghost use Rattle.tame_names.specs.Counts.{CountRose};
ghost use Rattle.tame_names.specs.KrateNames.{text_of};
ghost use Rattle.tame_cache.specs.Disk.{reads};
ghost use Rattle.tame_cache.specs.FailedCalls.{AddsFailedBut, FailedReading};
ghost use Rattle.tame_local.specs.Combos as spec;
ghost use Rattle.tame_names.specs.declared.host.FileCall.TheVariants as FileCall;
ghost use Rattle.tame_location.specs.declared.locations.IndexLocation.{IndexLocation};
ghost use Rattle.tame_local.specs.Calls.{AddsFailed, HasFileCause, IsCallOn};
ghost use Rattle.tame_local.specs.Refusals.{IsNoFolderAt};
ghost use Rattle.tame_local.specs.Registries.{index_of};
ghost use Rattle.tame_local.specs.Combos.{AddsOpenCall, InCache, InIndex, IsCached, IsCombinedError, IsEntryCall, IsIndexed, IsOpenError, IsOpened, OfFolder, cached_file_of, file_of, kept_in, kind_of};

use crate::indexes::LocalIndex;
use crate::registries::LocalRegistry;
use std::alloc::Global;
use tame_cache::CacheDisk;
use tame_entry::IndexEntry;
use tame_location::{Ident, IndexLocation, IndexUrl};
use tame_names::{Error, FileLock, Files, IoKind, KrateName, NoMemory, Text};
use tame_sparse::{GitIndex, SparseIndex};

/// The cache of an index of any kind.
#[derive(Drop)]
pub enum ComboIndexCache {
    /// The cache of an index in a git repository.
    Git(GitIndex),
    /// The cache of a sparse index.
    Sparse(SparseIndex),
    /// An index in a folder, which needs no cache.
    Local(LocalIndex),
    /// The index of a local registry, which `new` never creates.
    LocalRegistry(LocalRegistry),
}

/// The path of a local registry.
fn local_path<'a>(url: &'a IndexUrl<'_>) -> Option<&'a Text>
    ensures { option_map (λ path. path.now) result ≡ spec.local_path url.now }
{
    match url {
        IndexUrl::Local(path) => Some(path),
        IndexUrl::CratesIoSparse | IndexUrl::CratesIoGit | IndexUrl::NonCratesIo(_) => None,
    }
}

/// The index in the folder of a path.
fn folder_index<F: Files>(
    alloc: Global,
    files: &mut F,
    path: &Text,
) -> Result<ComboIndexCache, Error>
    ensures opened { F.tells → (ident : ℕ → List ℕ → ℕ) (location : IndexLocation)
        → IsOpened ident location (F.host files.old) (OfFolder path.now) result }
    ensures only { IfErr result (IsNoFolderAt (index_of path.now)) }
    ensures cause { HasFileCause (F.faults files.old) (F.faults files.new) result }
    ensures failed { F.tells → AddsFailed (IsCallOn FileCall.Kind (index_of path.now))
        (F.failed files.old) (F.failed files.new) result }
    ensures same { F.tells → F.host files.new ≡ F.host files.old }
{
    let path = path.try_clone(alloc)?;
    let index = LocalIndex::open(alloc, files, path)?;
    Ok(ComboIndexCache::Local(index))
}

impl ComboIndexCache {
    /// The cache of the index at a location, by its url: in the folder of a local path, else of a
    /// sparse index or of one in a git repository. Errors are those of `LocalIndex::open`,
    /// `SparseIndex::new` and `GitIndex::new`.
    pub fn new<F: Files, I: Ident>(
        alloc: Global,
        files: &mut F,
        ident: &I,
        location: IndexLocation<'_>,
    ) -> Result<ComboIndexCache, Error>
        ensures opened { F.tells → IsOpened (I.number ident.now) location.entry
            (F.host files.old) (kind_of location.entry.url) result }
        ensures only { IfErr result
            (IsOpenError location.entry (kind_of location.entry.url)) }
        ensures home_rose { result ≡ Err (Error.Io IoKind.Failed)
            → CountRose (F.faults files.old) (F.faults files.new) }
        ensures folder_rose { (path : List ℕ) → result ≡ Err (Error.IoPath IoKind.Failed path)
            → CountRose (F.faults files.old) (F.faults files.new) }
        ensures later { F.faults files.old ≤ F.faults files.new }
        ensures failed { F.tells → AddsOpenCall (kind_of location.entry.url)
            (F.host files.old) (F.failed files.old) (F.failed files.new) result }
        ensures same { F.tells → F.host files.new ≡ F.host files.old }
    {
        if let Some(path) = local_path(&location.url) {
            return folder_index(alloc, files, path);
        }
        if location.url.is_sparse() {
            let index = SparseIndex::new(alloc, files, ident, location)?;
            Ok(ComboIndexCache::Sparse(index))
        } else {
            let index = GitIndex::new(alloc, files, ident, location)?;
            Ok(ComboIndexCache::Git(index))
        }
    }

    /// The entry of a crate, as the index of its kind gives it; nothing if there is none. For a
    /// cache only the disk is called, and for a local index only the files. A failed read is
    /// `Io(Failed)` for a cache, and `IoPath(Failed)` for a local index.
    pub fn cached_krate<'l, F: Files, D: CacheDisk>(
        &self,
        alloc: Global,
        files: &mut F,
        disk: &mut D,
        name: KrateName<'_>,
        lock: &'l FileLock,
    ) -> Result<Option<IndexEntry<'static, 'l>>, Error>
        ensures cached { D.tells → (q : List ℕ)
            → cached_file_of (kept_in self.now) (text_of name.entry) ≡ Some q
            → IfOk result (IsCached (kept_in self.now) (reads (D.past disk.old q))) }
        ensures indexed { F.tells → IfOk result (IsIndexed (kept_in self.now) (text_of name.entry)
            (F.host files.old)) }
        ensures only { IfErr result
            (IsCombinedError (kept_in self.now) (text_of name.entry)) }
        ensures disk_rose { result ≡ Err (Error.Io IoKind.Failed)
            → CountRose (D.faults disk.old) (D.faults disk.new) }
        ensures files_rose { (path : List ℕ) → result ≡ Err (Error.IoPath IoKind.Failed path)
            → CountRose (F.faults files.old) (F.faults files.new) }
        ensures calls { D.made disk.new ≤ D.made disk.old + 1 }
        ensures disk_later { D.faults disk.old ≤ D.faults disk.new }
        ensures files_later { F.faults files.old ≤ F.faults files.new }
        ensures failed { F.tells → AddsFailed
            (IsEntryCall (kept_in self.now) (text_of name.entry))
            (F.failed files.old) (F.failed files.new) result }
        ensures failed_disk { (q : List ℕ)
            → cached_file_of (kept_in self.now) (text_of name.entry) ≡ Some q
            → AddsFailedBut Error.NoMemory (FailedReading q) (D.failed disk.old)
            (D.failed disk.new) result }
        ensures disk_uncalled { (index : List ℕ) → kept_in self.now ≡ InIndex index
            → disk.new ≡ disk.old }
        ensures files_uncalled { (root url : List ℕ) → kept_in self.now ≡ InCache root url
            → files.new ≡ files.old }
        ensures disk_same { D.tells → (q : List ℕ) → D.past disk.new q ≡ D.past disk.old q }
        ensures disk_folders { D.tells → D.folders disk.new ≡ D.folders disk.old }
        ensures files_same { F.tells → F.host files.new ≡ F.host files.old }
    {
        match self {
            ComboIndexCache::Git(index) => index.cached_krate(alloc, name, lock, disk),
            ComboIndexCache::Sparse(index) => index.cached_krate(alloc, name, lock, disk),
            ComboIndexCache::Local(index) => index.krate(alloc, files, name, lock),
            ComboIndexCache::LocalRegistry(registry) => {
                registry.index().krate(alloc, files, name, lock)
            }
        }
    }

    /// The path of the file of a crate, in the cache or in the local index.
    pub fn cache_path(&self, alloc: Global, name: KrateName<'_>) -> Result<Text, NoMemory>
        ensures { IfOk result (λ path. file_of (kept_in self.now) (text_of name.entry)
            ≡ Some path) }
    {
        match self {
            ComboIndexCache::Git(index) => index.cache().cache_path(alloc, name),
            ComboIndexCache::Sparse(index) => index.cache().cache_path(alloc, name),
            ComboIndexCache::Local(index) => index.krate_path(alloc, name),
            ComboIndexCache::LocalRegistry(registry) => registry.index().krate_path(alloc, name),
        }
    }
}

impl From<SparseIndex> for ComboIndexCache {
    ghost use Rattle.tame_local.specs.declared.combos.ComboIndexCache.TheVariants.{Sparse as variant};

    ghost from_gives = { λ index combo. combo ≡ variant index };

    fn from(index: SparseIndex) -> ComboIndexCache {
        ComboIndexCache::Sparse(index)
    }
}

impl From<GitIndex> for ComboIndexCache {
    ghost use Rattle.tame_local.specs.declared.combos.ComboIndexCache.TheVariants.{Git as variant};

    ghost from_gives = { λ index combo. combo ≡ variant index };

    fn from(index: GitIndex) -> ComboIndexCache {
        ComboIndexCache::Git(index)
    }
}
