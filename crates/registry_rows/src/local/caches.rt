//! The entries of crates, by the kinds of index.
use crate::local::steps::Stage;
use row_fixtures::{Row, RowFault, asked, disk_with, refused};
use std::alloc::Global;
use tame_cache::MemCacheDisk;
use tame_entry::IndexEntry;
use tame_local::{ComboIndexCache, LocalIndex, LocalRegistry};
use tame_location::{IndexLocation, IndexPath, IndexUrl, TableIdent};
use tame_names::{Error, FileLock, Files, Items, KrateName, MemFiles, Text};
use tame_sparse::{GitIndex, SparseIndex};

/// What was handed out.
fn handed(
    alloc: Global,
    entry: &Result<Option<IndexEntry<'_, '_>>, Error>,
) -> Result<String, RowFault> {
    let text = match entry {
        Ok(Some(IndexEntry::Local(_))) => "lines",
        Ok(Some(_)) => "an entry",
        Ok(None) => "nothing",
        Err(error) => return Err(refused(alloc, error)),
    };
    Ok(String::from_str(alloc, text)?)
}

/// The lines of a crate in an index.
fn lines_of<F: Files>(
    alloc: Global,
    index: &LocalIndex,
    files: &mut F,
    name: KrateName<'_>,
) -> Result<String, RowFault> {
    let lock = FileLock::unlocked();
    handed(alloc, &index.krate(alloc, files, name, &lock))
}

/// `krate PATH NAME`
pub fn krate(alloc: Global, stage: &mut Stage, mut row: Row<'_>) -> Result<String, RowFault> {
    let root = Text::of(alloc, row.word())?;
    let name = row.name(alloc)?;
    let index = asked(alloc, LocalIndex::open(alloc, &mut stage.files, root))?;
    lines_of(alloc, &index, &mut stage.files, name)
}

/// The kind of the cache of an index.
fn kind_of(cache: &ComboIndexCache) -> &'static str {
    match cache {
        ComboIndexCache::Git(_) => "git",
        ComboIndexCache::Sparse(_) => "sparse",
        ComboIndexCache::Local(_) | ComboIndexCache::LocalRegistry(_) => "local",
    }
}

/// Kind and path of a crate's file in the cache of an index.
fn place_line(
    alloc: Global,
    cache: &ComboIndexCache,
    row: &mut Row<'_>,
) -> Result<String, RowFault> {
    let path = cache.cache_path(alloc, row.name(alloc)?)?;
    Ok(format!(in alloc; "{} {path}", kind_of(cache))?)
}

/// The index of a word.
fn url_of<'a>(
    alloc: Global,
    files: &mut MemFiles,
    word: &'a str,
) -> Result<IndexUrl<'a>, RowFault> {
    if let Some(version) = word.strip_prefix("crates-io:") {
        let found = IndexUrl::crates_io(alloc, files, None, None, Some(version));
        return asked(alloc, found);
    }
    match word.strip_prefix("path:") {
        Some(path) => Ok(IndexUrl::Local(Text::of(alloc, path)?)),
        None => Ok(IndexUrl::from(word)),
    }
}

/// The location of the words `URL FOLDER`.
fn location_of<'a>(
    alloc: Global,
    files: &mut MemFiles,
    row: &mut Row<'a>,
) -> Result<IndexLocation<'a>, RowFault> {
    let url = url_of(alloc, files, row.word())?;
    let root = Text::of(alloc, row.word())?;
    Ok(IndexLocation {
        url,
        root: IndexPath::Exact(root),
        cargo_version: None,
    })
}

/// `located URL FOLDER NAME`
pub fn located(alloc: Global, stage: &mut Stage, mut row: Row<'_>) -> Result<String, RowFault> {
    let location = location_of(alloc, &mut stage.files, &mut row)?;
    let ident = TableIdent {
        known: Items::new(alloc),
    };
    let cache = ComboIndexCache::new(alloc, &mut stage.files, &ident, location);
    match asked(alloc, cache) {
        Ok(cache) => place_line(alloc, &cache, &mut row),
        Err(fault) => Err(fault),
    }
}

/// The cache of an index of a kind.
fn cache_of(alloc: Global, files: &mut MemFiles, kind: &str) -> Result<ComboIndexCache, RowFault> {
    match kind {
        "git" => {
            let index = GitIndex::at(alloc, Text::of(alloc, "")?, "https://example.org/");
            Ok(ComboIndexCache::from(asked(alloc, index)?))
        }
        "sparse" => {
            let index = SparseIndex::at(alloc, Text::of(alloc, "")?, "sparse+https://example.org/");
            Ok(ComboIndexCache::from(asked(alloc, index)?))
        }
        "local" => {
            let index = LocalIndex::open(alloc, files, Text::of(alloc, "v")?);
            Ok(ComboIndexCache::Local(asked(alloc, index)?))
        }
        _ => {
            let registry = LocalRegistry::open(alloc, files, Text::of(alloc, "v")?, false);
            Ok(ComboIndexCache::LocalRegistry(asked(alloc, registry)?))
        }
    }
}

/// The entry of a crate in the cache of an index.
fn entry_of(
    alloc: Global,
    files: &mut MemFiles,
    cache: &ComboIndexCache,
    name: KrateName<'_>,
    disk: &mut MemCacheDisk,
) -> Result<String, RowFault> {
    let lock = FileLock::unlocked();
    handed(alloc, &cache.cached_krate(alloc, files, disk, name, &lock))
}

/// Path and entry of a crate in the cache of an index.
fn entry_line(
    alloc: Global,
    files: &mut MemFiles,
    cache: &ComboIndexCache,
    name: KrateName<'_>,
    disk: &mut MemCacheDisk,
) -> Result<String, RowFault> {
    let path = cache.cache_path(alloc, name)?;
    let entry = entry_of(alloc, files, cache, name, disk)?;
    Ok(format!(in alloc; "{path}: {entry}")?)
}

/// `cached KIND NAME`: of the kinds `git` and `sparse` in the folder `c`, where the file of `a` is
/// there, and of `local` and `registry` at `v`.
pub fn cached(alloc: Global, stage: &mut Stage, mut row: Row<'_>) -> Result<String, RowFault> {
    let kind = row.word();
    let name = row.name(alloc)?;
    let cache = Box::new(alloc, cache_of(alloc, &mut stage.files, kind)?)?;
    match disk_with(alloc, b"x", Vec::new(alloc)) {
        Ok(mut disk) => entry_line(alloc, &mut stage.files, &cache, name, &mut disk),
        Err(fault) => Err(fault),
    }
}
