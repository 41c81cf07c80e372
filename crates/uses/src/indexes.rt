//! With an index: names, lines, entries, the cache, requests, folders and local registries.
ghost use Rattle.std.specs.Prelude.{◌≡◌, ◌≢◌, ◌⊎◌, ◌++◌, ◌≤◌, ℕ, codes, List, true, None, Some, Ok, Err, IfOk, IfErr, OnOk, map, option_map};
ghost use Rattle.tame_names.specs.Counts.{CountStayed};
ghost use Rattle.tame_names.specs.KrateNames.{text_of};
ghost use Rattle.tame_names.specs.Names.{path, refusal, strict_refusal};
ghost use Rattle.tame_names.specs.declared.errors.CacheError.{CacheError};
ghost use Rattle.tame_names.specs.declared.errors.InvalidJsonLines.{InvalidJsonLines};
ghost use Rattle.tame_names.specs.declared.errors.InvalidKrateName.{InvalidKrateName};
ghost use Rattle.tame_records.specs.Krates.{records_of, unread};
ghost use Rattle.tame_records.specs.Lines.{lines};
ghost use Rattle.tame_records.specs.declared.versions.IndexVersion.{IndexVersion};
ghost use Rattle.tame_entry.specs.Config as spec;
ghost use Rattle.tame_entry.specs.Config.{config_of};
ghost use Rattle.tame_entry.specs.Entry.{entry, pairs};
ghost use Rattle.tame_entry.specs.Krates.{Item, iterated};
ghost use Rattle.tame_entry.specs.Lines.{invalid};
ghost use Rattle.tame_entry.specs.Revision.{Http};
ghost use Rattle.tame_entry.specs.VersionStatuses.{version_status};
ghost use Rattle.tame_entry.specs.declared.revisions.OwnedRevision.TheVariants.{Etag};
ghost use Rattle.tame_cache.specs.CacheFiles.{HandsOut};
ghost use Rattle.tame_cache.specs.Disk.{reads};
ghost use Rattle.tame_cache.specs.Kept.{cache_file_of};
ghost use Rattle.tame_sparse.specs.Exchanges.{crates_io_index};
ghost use Rattle.tame_sparse.specs.Honest.{SaysAbsent};
ghost use Rattle.tame_sparse.specs.Named.{NamesKept};
ghost use Rattle.tame_sparse.specs.ResponseResults.{IsToStore, Stores, StoresWhole, came};
ghost use Rattle.tame_sparse.specs.Urls.{http_url};
ghost use Rattle.tame_local.specs.Registries.{index_at, index_file};
ghost use Rattle.uses.specs.Newest.{AreVersionsAt, IsNewest, IsNewestIn, IsNewestOf};
ghost use Rattle.uses.specs.Refusals.{IsBodyRefusal, IsKeptRefusal, IsRefusedStatus, IsVersionsRefusal, folder_for};

use std::alloc::Global;
use tame_cache::{CacheDisk, IndexCache};
use tame_entry::{
    CacheWrite, HttpRevision, IndexConfig, IndexEntry, JsonLines, Revision, VersionStatus,
    read_item_version_flags, read_version_flags, status_among,
};
use tame_local::LocalIndex;
use tame_location::{Ident, IndexLocation, IndexUrl, parse_cargo_semver};
use tame_names::{Error, FileLock, Files, KrateName, NoMemory, Text};
use tame_records::{IndexKrate, LineFault};
use tame_sparse::{CRATES_IO_HTTP_INDEX, Request, Response, SparseIndex};

/// The path of a crate's file in an index, by a name that crates.io takes; `InvalidKrateName` with
/// the reason where it takes none of it.
pub fn path_in_index(alloc: Global, name: &str) -> Result<Text, Error>
    ensures ok { IfOk result (λ p. (path name.now ≡ Some p)
        × (strict_refusal (Some 64) name.now ≡ None)) }
    ensures refused { IfErr result (λ e. e ≢ Error.NoMemory → (why : InvalidKrateName)
        × (e ≡ Error.InvalidKrateName why)
        × (strict_refusal (Some 64) name.now ≡ Some (refusal why))) }
{
    let name = KrateName::crates_io(name)?;
    Ok(name.relative_path(alloc, None)?)
}

/// The newest of these versions that is neither yanked nor a pre-release; nothing where none is.
pub fn newest_of(alloc: Global, krate: &IndexKrate) -> Result<Option<Text>, NoMemory>
    ensures { IfOk result (λ text. IsNewest krate.now.versions text) }
{
    match krate.highest_normal_version(alloc)? {
        Some(newest) => Ok(Some(newest.version.try_clone(alloc)?)),
        None => Ok(None),
    }
}

/// The newest version that the lines of a crate have and that is neither yanked nor a pre-release;
/// nothing where there is none. `Json` tells the first line, from 0, that has no record, and
/// `NoCrateVersions` that there is no line.
pub fn newest(alloc: Global, body: &[u8]) -> Result<Option<Text>, Error>
    ensures ok { IfOk result (λ text. (versions : List IndexVersion)
        × (records_of (lines body.now) ≡ Some versions) × IsNewest versions text) }
    ensures refused { IfErr result (λ e. (e ≡ Error.NoMemory) ⊎ (unread body.now ≡ Some e)) }
{
    let krate = IndexKrate::from_slice(alloc, body)?;
    Ok(newest_of(alloc, &krate)?)
}

/// Where a version of a crate is downloaded from, by the `config.json` of its index; `Json` where
/// that is no configuration.
pub fn download_url(
    alloc: Global,
    config: &[u8],
    name: KrateName<'_>,
    version: &str,
) -> Result<Text, LineFault>
    ensures ok { IfOk result (λ url. option_map
        (λ config. spec.download_url (text_of name.entry) version.now config.dl)
        (config_of config.now) ≡ Some url) }
    ensures json { result ≡ Err LineFault.Json → config_of config.now ≡ None }
{
    let config = IndexConfig::from_slice(alloc, config)?;
    Ok(config.download_url(alloc, name, version)?)
}

/// The entry of the cache for the lines of a body that came with an entity tag, of the index at a
/// url; `InvalidJsonLines` where the body isn't valid.
pub fn entry_of_body(alloc: Global, body: &[u8], index: &str, tag: &str) -> Result<Vec<u8>, Error>
    ensures ok { IfOk result (λ file. file.items
        ≡ entry index.now (Http (Etag tag.now)) (pairs body.now)) }
    ensures valid { IfOk result (λ file. invalid body.now ≡ None) }
    ensures refused { IfErr result (λ e. e ≢ Error.NoMemory → (why : InvalidJsonLines)
        × (e ≡ Error.InvalidJsonLines why) × (invalid body.now ≡ Some why)) }
{
    let lines = JsonLines::validate(body)?;
    let revision = Revision::Http(HttpRevision::Etag(tag));
    Ok(CacheWrite::Remote(lines).entry(alloc, index, &revision)?)
}

/// What the lines of a body say of a version: its flag, that no line has it, or that some line has
/// no record. `InvalidJsonLines` where the body isn't valid.
pub fn status_in_body(alloc: Global, body: &[u8], version: &str) -> Result<VersionStatus, Error>
    ensures ok { IfOk result (λ status. status ≡ version_status (lines body.now) version.now) }
    ensures refused { IfErr result (λ e. e ≢ Error.NoMemory → (why : InvalidJsonLines)
        × (e ≡ Error.InvalidJsonLines why) × (invalid body.now ≡ Some why)) }
{
    let flags = read_version_flags(alloc, JsonLines::validate(body)?)?;
    Ok(status_among(&flags, version))
}

/// What an entry says of a version: its flag, that no line has it, or that some line has no
/// record. `Cache` with its cause where it is a file of the cache that can't be used.
pub fn status_in(
    alloc: Global,
    entry: &IndexEntry<'_, '_>,
    version: &str,
) -> Result<VersionStatus, Error>
    ensures ok { IfOk result (λ status. (items : List Item) × (iterated entry.now ≡ Ok items)
        × (status ≡ version_status (map (λ i. i.1) items) version.now)) }
    ensures refused { IfErr result (λ e. e ≢ Error.NoMemory → (why : CacheError)
        × (e ≡ Error.Cache why) × (iterated entry.now ≡ Err why)) }
{
    let flags = read_item_version_flags(alloc, entry.iter()?)?;
    Ok(status_among(&flags, version))
}

/// The newest version of a crate in the cache that is neither yanked nor a pre-release; nothing
/// where there is none, or no file of the crate. Errors are those of reading the file and of what
/// it holds.
pub fn newest_kept<D: CacheDisk>(
    alloc: Global,
    cache: &IndexCache,
    name: KrateName<'_>,
    disk: &mut D,
) -> Result<Option<Text>, Error>
    ensures ok { D.tells → (q : List ℕ)
        → cache_file_of cache.now.path (text_of name.entry) ≡ Some q
        → IfOk result (IsNewestIn cache.now.index (reads (D.past disk.old q))) }
    ensures refused { IfErr result (IsKeptRefusal (D.faults disk.old) (D.faults disk.new)
        (λ entry. D.tells → (q : List ℕ)
        → cache_file_of cache.now.path (text_of name.entry) ≡ Some q
        → HandsOut cache.now.index (Some entry) (reads (D.past disk.old q)))) }
    ensures same { D.tells → (q : List ℕ) → D.past disk.new q ≡ D.past disk.old q }
    ensures folders { D.tells → D.folders disk.new ≡ D.folders disk.old }
    ensures later { D.faults disk.old ≤ D.faults disk.new }
{
    let lock = FileLock::unlocked();
    match cache.read_cache_file(alloc, name, &lock, disk)? {
        Some(entry) => {
            let krate = entry.deserialize(alloc)?;
            Ok(newest_of(alloc, &krate)?)
        }
        None => Ok(None),
    }
}

/// The request for a crate's file of crates.io's sparse index, which names the revision that the
/// cache in the folder of a path keeps.
pub fn request_for<D: CacheDisk>(
    alloc: Global,
    folder: &str,
    name: KrateName<'_>,
    disk: &mut D,
) -> Result<Request, Error>
    ensures path { IfOk result (λ request. path (text_of name.entry) ≡ Some request.path) }
    ensures uri { IfOk result (λ request. request.uri
        ≡ http_url crates_io_index ++ request.path) }
    ensures named { D.tells → (q : List ℕ)
        → cache_file_of folder.now (text_of name.entry) ≡ Some q
        → IfOk result (λ request. NamesKept crates_io_index (reads (D.past disk.old q))
        (D.faults disk.old) (D.faults disk.new) request.named) }
    ensures memory { IfErr result (λ e. e ≡ Error.NoMemory) }
    ensures same { D.tells → (q : List ℕ) → D.past disk.new q ≡ D.past disk.old q }
    ensures later { D.faults disk.old ≤ D.faults disk.new }
{
    let index = SparseIndex::at(alloc, Text::of(alloc, folder)?, CRATES_IO_HTTP_INDEX)?;
    let lock = FileLock::unlocked();
    index.make_remote_request(alloc, name, None, &lock, disk)
}

/// The newest version by the answer to a request for a crate, as `newest_of`, and nothing where the
/// server has no such crate; the cache keeps what was sent. At 304 it is the newest that the cache
/// has. Errors are those of the answer and of its lines.
pub fn newest_sent<D: CacheDisk>(
    alloc: Global,
    index: &SparseIndex,
    name: KrateName<'_>,
    response: Response<'_>,
    disk: &mut D,
) -> Result<Option<Text>, Error>
    ensures sent { response.entry.status_code ≡ 200 → IfOk result
        (IsNewestOf response.entry.body.now) }
    ensures refused { response.entry.status_code ≡ 200 → IfErr result
        (IsBodyRefusal response.entry.body.now) }
    ensures absent { SaysAbsent response.entry.status_code → result ≡ Ok None }
    // at 304 by the file of the cache
    ensures kept { D.tells → response.entry.status_code ≡ 304 → (q : List ℕ)
        → cache_file_of index.now.cache.path (text_of name.entry) ≡ Some q
        → IfOk result (IsNewestIn index.now.cache.index (reads (D.past disk.old q))) }
    ensures kept_refused { response.entry.status_code ≡ 304
        → IfErr result (IsKeptRefusal (D.faults disk.old) (D.faults disk.new)
        (λ entry. D.tells → (q : List ℕ)
        → cache_file_of index.now.cache.path (text_of name.entry) ≡ Some q
        → HandsOut index.now.cache.index (Some entry) (reads (D.past disk.old q)))) }
    ensures unauthorized { response.entry.status_code ≡ 401
        → IsRefusedStatus 401 (codes "the request was not authorized") result }
    ensures other { ¬ (SaysAbsent response.entry.status_code) → response.entry.status_code ≢ 200
        → response.entry.status_code ≢ 304 → response.entry.status_code ≢ 401
        → IsRefusedStatus response.entry.status_code
        (codes "the status code is invalid for this protocol") result }
    ensures stores { D.tells → Stores index.now.cache.index index.now.cache.path
        (text_of name.entry) (came response.entry) true (D.past disk.old) (D.past disk.new) }
    ensures stored { D.tells → CountStayed (D.faults disk.old) (D.faults disk.new)
        → IsToStore index.now.cache.index (came response.entry)
        → OnOk result (StoresWhole index.now.cache.index index.now.cache.path
        (text_of name.entry) (came response.entry) (D.past disk.new)) }
    ensures later { D.faults disk.old ≤ D.faults disk.new }
{
    let lock = FileLock::unlocked();
    match index.parse_remote_response(alloc, name, response, true, &lock, disk)? {
        Some(entry) => {
            let krate = entry.deserialize(alloc)?;
            Ok(newest_of(alloc, &krate)?)
        }
        None => Ok(None),
    }
}

/// The folder below a root in which a version of cargo keeps the index of a url, and the url that
/// it keeps it for; the version is what `cargo -V` prints.
pub fn folder_below<F: Files, I: Ident>(
    alloc: Global,
    files: &mut F,
    url: &str,
    root: &str,
    cargo: &str,
    ident: &I,
) -> Result<(Text, Text), Error>
    ensures ok { IfOk result (λ parts.
        folder_for (I.number ident.now) url.now cargo.now (F.host files.old) root.now
        ≡ Ok parts) }
    ensures refused { IfErr result (λ e. e ≢ Error.NoMemory →
        folder_for (I.number ident.now) url.now cargo.now (F.host files.old) root.now
        ≡ Err e) }
    ensures same { files.new ≡ files.old }
{
    let root = Text::of(alloc, root)?;
    let mut location = IndexLocation::new(IndexUrl::from(url)).with_root(Some(root));
    location.cargo_version = Some(parse_cargo_semver(alloc, cargo)?);
    location.into_parts(alloc, files, ident)
}

/// The versions of a crate in the index of the local registry at a path; nothing where it has no
/// file. Errors are those of the index, of reading the file and of what it holds.
pub fn versions_in<F: Files>(
    alloc: Global,
    files: &mut F,
    registry: &str,
    name: KrateName<'_>,
) -> Result<Option<IndexKrate>, Error>
    ensures ok { F.tells → IfOk result (λ found. (index : List ℕ)
        × (index_at (F.host files.old) registry.now ≡ Ok index)
        × AreVersionsAt ((F.host files.old).stands (index_file index (text_of name.entry)))
        found) }
    ensures refused { IfErr result (IsVersionsRefusal F.tells (F.host files.old) registry.now
        (text_of name.entry) (F.faults files.old) (F.faults files.new)
        (F.failed files.old) (F.failed files.new)) }
    ensures same { F.tells → F.host files.new ≡ F.host files.old }
    ensures later { F.faults files.old ≤ F.faults files.new }
{
    let index = LocalIndex::open(alloc, files, Text::of(alloc, registry)?)?;
    let lock = FileLock::unlocked();
    match index.krate(alloc, files, name, &lock)? {
        Some(entry) => Ok(Some(entry.deserialize(alloc)?)),
        None => Ok(None),
    }
}
