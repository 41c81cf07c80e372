//! A sparse index with its cache.
ghost use Rattle.std.specs.Prelude.{◌≡◌, ◌≢◌, ◌⊎◌, ◌≤◌, ◌+◌, ℕ, List, [], ◌∷◌, ◌++◌, true, false, drop, map, Ok, Err, Some, None, IsTrue, IfOk, IfErr, OnOk, OnErr};
ghost use Rattle.tame_names.specs.Counts.{HasCause, CountStayed, CountRose};
ghost use Rattle.tame_names.specs.KrateNames.{text_of};
ghost use Rattle.tame_names.specs.Names.{IsIndexPath, path};
ghost use Rattle.tame_location.specs.Calls.{read_call};
ghost use Rattle.tame_entry.specs.Entry.{entry, is_storable, pair_of};
ghost use Rattle.tame_entry.specs.ServerMaps.{ServerMap};
ghost use Rattle.tame_entry.specs.JsonLines.{lines_of};
ghost use Rattle.tame_entry.specs.Revision.{http_value, revision_value};
ghost use Rattle.tame_entry.specs.declared.revisions.HttpRevision.{HttpRevision};
ghost use Rattle.tame_cache.specs.CacheFiles.{HandsOut};
ghost use Rattle.tame_cache.specs.Disk.{EachMoment, may_leave, reads};
ghost use Rattle.tame_cache.specs.FailedCalls.{AddsFailedBut, FailedReading};
ghost use Rattle.tame_cache.specs.Folders.{MakesOnly};
ghost use Rattle.tame_cache.specs.Gate.{IsOrderly, IsUnreadable, IsStored};
ghost use Rattle.tame_cache.specs.Kept.{IsKept, IsWrittenFor, Keeps, cache_file_of};
ghost use Rattle.tame_cache.specs.LaidPieces.{piece_count};
ghost use Rattle.tame_sparse.specs.ResponseResults.{FailedAtMostWriting, FailsFor, IsBodyResult, IsResponseResult, IsToStore, Stores, StoresUnlessFailed, StoresWhole, came, entry_of, storing_calls};
ghost use Rattle.tame_sparse.specs.Named.{NamesKept, NamesUnlessFailed, handed};
ghost use Rattle.tame_sparse.specs.Urls.{IsConfigRead, config_file, http_url, is_sparse_url};
ghost use Rattle.tame_sparse.specs.Urls as spec;

use crate::configs::config_of;
use crate::naming::{named_entry, named_handed};
use crate::network::Request;
use crate::responses::Response;
use crate::urls::http_url;
use std::alloc::Global;
use tame_cache::{CacheDisk, IndexCache};
use tame_entry::{HttpRevision, IndexConfig, IndexEntry, OwnedRevision};
use tame_location::is_sparse_url;
use tame_names::{
    Error, FileFault, FileLock, Files, HttpError, InvalidUrl, InvalidUrlError, IoKind, KrateName,
    NoMemory, ReadAnswer, Text, join,
};

/// A registry's sparse index and its cache (Cargo Book, "Registry Index").
#[derive(Debug, Drop)]
pub struct SparseIndex {
    pub(crate) cache: IndexCache,
}

impl SparseIndex {
    /// The index at a url, with its cache in the folder of a path. `InvalidUrl(MissingSparse)` if
    /// the url doesn't begin with `sparse+http`.
    pub fn at(alloc: Global, path: Text, url: &str) -> Result<SparseIndex, Error>
        ensures ok { IfOk result (λ index. (is_sparse_url url.now ≡ true)
            × (index.cache.path ≡ path) × (index.cache.index ≡ url.now)) }
        ensures refused { IfErr result (λ e. (e ≡ Error.NoMemory)
            ⊎ ((is_sparse_url url.now ≡ false) × (e ≡ Error.InvalidUrl (record {
              url = url.now;
              source = InvalidUrlError.MissingSparse;
            })))) }
    {
        let copy = Text::of(alloc, url)?;
        if !is_sparse_url(url) {
            return Err(Error::InvalidUrl(InvalidUrl {
                url: copy,
                source: InvalidUrlError::MissingSparse,
            }));
        }
        Ok(SparseIndex {
            cache: IndexCache::at_path(path, copy),
        })
    }

    /// The configuration of the index, in the file `config.json` of its folder. `IoPath(NotFound)`
    /// if nothing is there, `IoPath(Failed)` if it can't be read, and `Json` of line 0 if it is no
    /// configuration.
    pub fn index_config<F: Files>(&self, alloc: Global, files: &mut F) -> Result<IndexConfig, Error>
        ensures read { IsConfigRead F.tells (config_file self.now.cache.path)
            ((F.host files.old).stands (config_file self.now.cache.path)) result }
        ensures failed { (p : List ℕ) → result ≡ Err (Error.IoPath IoKind.Failed p)
            → CountRose (F.faults files.old) (F.faults files.new) }
        ensures told { F.tells → (p : List ℕ) → result ≡ Err (Error.IoPath IoKind.Failed p)
            → F.failed files.new ≡ F.failed files.old ++ read_call p ∷ [] }
        ensures untold { F.tells
            → ((p : List ℕ) → result ≢ Err (Error.IoPath IoKind.Failed p))
            → F.failed files.new ≡ F.failed files.old }
        ensures later { F.faults files.old ≤ F.faults files.new }
        ensures same { F.tells → F.host files.new ≡ F.host files.old }
    {
        let path = join(alloc, self.cache.path(), "config.json")?;
        match files.read(alloc, path.as_str(), u64::MAX) {
            Ok(ReadAnswer::Whole(bytes)) => config_of(alloc, bytes.as_slice()),
            Ok(ReadAnswer::Absent) => Err(Error::IoPath(IoKind::NotFound, path)),
            Ok(ReadAnswer::Over(_)) => unreachable!(),
            Err(FileFault::Failed) => Err(Error::IoPath(IoKind::Failed, path)),
            Err(FileFault::NoMemory) => Err(Error::NoMemory),
        }
    }

    /// The url of a crate's file.
    pub fn crate_url(&self, alloc: Global, name: KrateName<'_>) -> Result<Text, NoMemory>
        ensures { IfOk result (λ url. spec.crate_url self.now.cache.index (text_of name.entry)
            ≡ Some url) }
    {
        let path = name.relative_path(alloc, None)?;
        self.file_url(alloc, path.as_str())
    }

    /// The url of the file of a path.
    fn file_url(&self, alloc: Global, path: &str) -> Result<Text, NoMemory>
        ensures { IfOk result (λ url. url ≡ http_url self.now.cache.index ++ path.now) }
    {
        let url = self.url();
        let text = format!(in alloc; "{url}{path}")?;
        Ok(Text::from_string(text))
    }

    /// The url of the index, without the prefix that marks it as sparse.
    pub fn url(&self) -> &str
        ensures { result.now ≡ http_url self.now.cache.index }
    {
        http_url(self.cache.index())
    }

    /// The cache of the index.
    pub fn cache(&self) -> &IndexCache
        ensures { result.now ≡ self.now.cache }
    {
        &self.cache
    }

    /// The file of the cache of a crate; nothing if there is none. `Io(Failed)` if the disk failed.
    pub fn cached_krate<'l, D: CacheDisk>(
        &self,
        alloc: Global,
        name: KrateName<'_>,
        lock: &'l FileLock,
        disk: &mut D,
    ) -> Result<Option<IndexEntry<'static, 'l>>, Error>
        ensures read { D.tells → (q : List ℕ)
            → cache_file_of self.now.cache.path (text_of name.entry) ≡ Some q
            → IfOk result (λ e. HandsOut self.now.cache.index e (reads (D.past disk.old q))) }
        ensures same { D.tells → (q : List ℕ) → D.past disk.new q ≡ D.past disk.old q }
        ensures folders { D.tells → D.folders disk.new ≡ D.folders disk.old }
        ensures calls { D.made disk.new ≤ D.made disk.old + 1 }
        ensures failed { (q : List ℕ)
            → cache_file_of self.now.cache.path (text_of name.entry) ≡ Some q
            → AddsFailedBut Error.NoMemory (FailedReading q) (D.failed disk.old)
            (D.failed disk.new) result }
        ensures cause { HasCause Error.NoMemory (D.faults disk.old) (D.faults disk.new) result }
        ensures only { IfErr result (λ e. (e ≡ Error.NoMemory) ⊎ (e ≡ Error.Io IoKind.Failed)) }
    {
        self.cache.cached_krate(alloc, name, lock, disk)
    }

    /// The request for a crate's file. A given revision is named if it isn't empty, and no file is
    /// read; without one the HTTP revision of the cache's entry is named, if the entry can be read
    /// and its revision can be named. `Http(InvalidHeaderValue)` if the given revision, trimmed of
    /// white space, has a byte that isn't tab or 32 to 126.
    pub fn make_remote_request<D: CacheDisk>(
        &self,
        alloc: Global,
        name: KrateName<'_>,
        revision: Option<HttpRevision<'_>>,
        lock: &FileLock,
        disk: &mut D,
    ) -> Result<Request, Error>
        ensures path { IfOk result (λ request. path (text_of name.entry) ≡ Some request.path) }
        ensures index_path { IfOk result (λ request. IsIndexPath request.path) }
        ensures uri { IfOk result (λ request. request.uri
            ≡ http_url self.now.cache.index ++ request.path) }
        // what is named
        ensures kept_named { D.tells → revision.entry ≡ None → (q : List ℕ)
            → cache_file_of self.now.cache.path (text_of name.entry) ≡ Some q
            → IfOk result (λ request. NamesKept self.now.cache.index (reads (D.past disk.old q))
            (D.faults disk.old) (D.faults disk.new) request.named) }
        ensures named_unless_failed { D.tells → revision.entry ≡ None → (q : List ℕ)
            → cache_file_of self.now.cache.path (text_of name.entry) ≡ Some q
            → IfOk result (λ request. NamesUnlessFailed self.now.cache.index q
            (reads (D.past disk.old q)) (D.failed disk.old) (D.failed disk.new) request.named) }
        ensures unfailed { OnErr result ((q : List ℕ)
            → cache_file_of self.now.cache.path (text_of name.entry) ≡ Some q
            → D.failed disk.new ≡ D.failed disk.old) }
        ensures handed { (r : HttpRevision) → revision.entry ≡ Some r
            → IfOk result (λ request. handed (http_value r) ≡ Ok request.named) }
        ensures refused { IfErr result
            (λ e. (e ≡ Error.NoMemory)
            ⊎ ((r : HttpRevision) × (revision.entry ≡ Some r) × (handed (http_value r) ≡ Err e))) }
        // no file changes, and none is read if a revision is given
        ensures same { D.tells → (q : List ℕ) → D.past disk.new q ≡ D.past disk.old q }
        ensures folders { D.tells → D.folders disk.new ≡ D.folders disk.old }
        ensures kept { D.tells → (m : ServerMap)
            → IsKept m self.now.cache.index self.now.cache.path (D.past disk.old)
            → Keeps m self.now.cache.index self.now.cache.path (D.past disk.old)
            (D.past disk.new) }
        ensures uncalled { (r : HttpRevision) → revision.entry ≡ Some r → disk.new ≡ disk.old }
        ensures calls { D.made disk.new ≤ D.made disk.old + 1 }
        ensures later { D.faults disk.old ≤ D.faults disk.new }
    {
        let path = name.relative_path(alloc, None)?;
        let uri = self.file_url(alloc, path.as_str())?;
        let named = self.named(alloc, name, revision, lock, disk)?;
        Ok(Request { uri, path, named })
    }

    /// What a request names.
    fn named<D: CacheDisk>(
        &self,
        alloc: Global,
        name: KrateName<'_>,
        revision: Option<HttpRevision<'_>>,
        lock: &FileLock,
        disk: &mut D,
    ) -> Result<Option<OwnedRevision>, Error>
        ensures kept_named { D.tells → revision.entry ≡ None → (q : List ℕ)
            → cache_file_of self.now.cache.path (text_of name.entry) ≡ Some q
            → IfOk result (NamesKept self.now.cache.index (reads (D.past disk.old q))
            (D.faults disk.old) (D.faults disk.new)) }
        ensures named_unless_failed { D.tells → revision.entry ≡ None → (q : List ℕ)
            → cache_file_of self.now.cache.path (text_of name.entry) ≡ Some q
            → IfOk result (NamesUnlessFailed self.now.cache.index q (reads (D.past disk.old q))
            (D.failed disk.old) (D.failed disk.new)) }
        ensures unfailed { OnErr result ((q : List ℕ)
            → cache_file_of self.now.cache.path (text_of name.entry) ≡ Some q
            → D.failed disk.new ≡ D.failed disk.old) }
        ensures handed { (r : HttpRevision) → revision.entry ≡ Some r
            → IfOk result (λ named. handed (http_value r) ≡ Ok named) }
        ensures refused { IfErr result
            (λ e. (e ≡ Error.NoMemory)
            ⊎ ((r : HttpRevision) × (revision.entry ≡ Some r) × (handed (http_value r) ≡ Err e))) }
        ensures same { D.tells → (q : List ℕ) → D.past disk.new q ≡ D.past disk.old q }
        ensures folders { D.tells → D.folders disk.new ≡ D.folders disk.old }
        ensures uncalled { (r : HttpRevision) → revision.entry ≡ Some r → disk.new ≡ disk.old }
        ensures calls { D.made disk.new ≤ D.made disk.old + 1 }
        ensures later { D.faults disk.old ≤ D.faults disk.new }
    {
        match revision {
            Some(revision) => named_handed(alloc, revision),
            None => self.named_kept(alloc, name, lock, disk),
        }
    }

    /// What may be named of the cache's entry; nothing if it can't be read.
    fn named_kept<D: CacheDisk>(
        &self,
        alloc: Global,
        name: KrateName<'_>,
        lock: &FileLock,
        disk: &mut D,
    ) -> Result<Option<OwnedRevision>, Error>
        ensures named { D.tells → (q : List ℕ)
            → cache_file_of self.now.cache.path (text_of name.entry) ≡ Some q
            → IfOk result (NamesKept self.now.cache.index (reads (D.past disk.old q))
            (D.faults disk.old) (D.faults disk.new)) }
        ensures named_unless_failed { D.tells → (q : List ℕ)
            → cache_file_of self.now.cache.path (text_of name.entry) ≡ Some q
            → IfOk result (NamesUnlessFailed self.now.cache.index q (reads (D.past disk.old q))
            (D.failed disk.old) (D.failed disk.new)) }
        ensures unfailed { OnErr result ((q : List ℕ)
            → cache_file_of self.now.cache.path (text_of name.entry) ≡ Some q
            → D.failed disk.new ≡ D.failed disk.old) }
        ensures memory { IfErr result (λ e. e ≡ Error.NoMemory) }
        ensures same { D.tells → (q : List ℕ) → D.past disk.new q ≡ D.past disk.old q }
        ensures folders { D.tells → D.folders disk.new ≡ D.folders disk.old }
        ensures calls { D.made disk.new ≤ D.made disk.old + 1 }
        ensures later { D.faults disk.old ≤ D.faults disk.new }
    {
        match self.cache.read_cache_file(alloc, name, lock, disk) {
            Ok(Some(entry)) => match named_entry(alloc, &entry) {
                Ok(named) => Ok(named),
                Err(_) => Err(Error::NoMemory),
            },
            Ok(None) => Ok(None),
            Err(Error::NoMemory) => Err(Error::NoMemory),
            Err(_) => Ok(None),
        }
    }

    /// Takes the answer for a crate. At 200 the lines of its body, which are stored under its
    /// revision if that is wanted; if the disk fails then, the answer stays the same. At 304 the
    /// file of the cache, `Io(Failed)` if it can't be read. At 404, 410 and 451 nothing.
    /// `InvalidJsonLines` if the body isn't valid, `Http(StatusCode)` at any other status.
    pub fn parse_remote_response<'r, 'l, D: CacheDisk>(
        &self,
        alloc: Global,
        name: KrateName<'_>,
        response: Response<'r>,
        write_cache_entry: bool,
        lock: &'l FileLock,
        disk: &mut D,
    ) -> Result<Option<IndexEntry<'r, 'l>>, Error>
        // by the status; at 304 what a read of the file gave
        ensures taken { IsResponseResult response.entry result }
        ensures read { D.tells → response.entry.status_code ≡ 304 → (q : List ℕ)
            → cache_file_of self.now.cache.path (text_of name.entry) ≡ Some q
            → IfOk result (λ e. HandsOut self.now.cache.index e (reads (D.past disk.old q))) }
        ensures rose { result ≡ Err (Error.Io IoKind.Failed)
            → (response.entry.status_code ≡ 304)
            × CountRose (D.faults disk.old) (D.faults disk.new) }
        // what is stored
        ensures stores { D.tells → Stores self.now.cache.index self.now.cache.path
            (text_of name.entry) (came response.entry) write_cache_entry (D.past disk.old)
            (D.past disk.new) }
        ensures stored { D.tells → CountStayed (D.faults disk.old) (D.faults disk.new)
            → write_cache_entry ≡ true → IsToStore self.now.cache.index (came response.entry)
            → OnOk result (StoresWhole self.now.cache.index self.now.cache.path
            (text_of name.entry) (came response.entry) (D.past disk.new)) }
        ensures stored_unless_failed { D.tells → write_cache_entry ≡ true
            → IsToStore self.now.cache.index (came response.entry) → (q : List ℕ)
            → cache_file_of self.now.cache.path (text_of name.entry) ≡ Some q
            → OnOk result (StoresUnlessFailed
            (entry_of self.now.cache.index (came response.entry)) q (D.past disk.new q)
            (D.failed disk.old) (D.failed disk.new)) }
        ensures failed { (q : List ℕ)
            → cache_file_of self.now.cache.path (text_of name.entry) ≡ Some q
            → FailsFor self.now.cache.index q (came response.entry) write_cache_entry
            (D.failed disk.old) (D.failed disk.new) result }
        // without a file and an entry no memory is needed
        ensures fed { response.entry.status_code ≢ 304 → write_cache_entry ≡ false
            → result ≢ Err Error.NoMemory }
        ensures folders { D.tells → MakesOnly
            (λ q. cache_file_of self.now.cache.path (text_of name.entry) ≡ Some q)
            (D.folders disk.old) (D.folders disk.new) }
        ensures calls { D.made disk.new ≤ D.made disk.old
            + storing_calls self.now.cache.index (came response.entry) }
        ensures later { D.faults disk.old ≤ D.faults disk.new }
    {
        match response.status_code {
            200 => self.take_body(alloc, name, response, write_cache_entry, lock, disk),
            304 => self.cache.cached_krate(alloc, name, lock, disk),
            404 | 410 | 451 => Ok(None),
            401 => Err(Error::Http(HttpError::StatusCode {
                code: 401,
                msg: "the request was not authorized",
            })),
            code => Err(Error::Http(HttpError::StatusCode {
                code,
                msg: "the status code is invalid for this protocol",
            })),
        }
    }
}
