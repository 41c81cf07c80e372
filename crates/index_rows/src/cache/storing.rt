//! Entries stored on a disk in memory that fails and crashes.
use crate::cache::revisions::revision_of;
use row_fixtures::{
    FLAGGED_FILE, INDEX_URL, RevisionWord, Row, RowFault, body_of, crashed, disk_failing,
    disk_with, flagged_body, flagged_entry, refused, shown_word, stop, told,
};
use std::alloc::{AllocError, Global};
use tame_cache::{
    CacheDisk, CacheFault, IndexCache, Kept, MemCacheDisk, empty_is_kept, histories_keep,
    kept_for_more,
};
use tame_entry::{CacheWrite, HttpRevision, IndexEntry, JsonLines, Revision, ValidCacheEntry};
use tame_names::{FileLock, Text};

/// The cache of an index in the folder of the empty path.
fn root_cache(alloc: Global) -> Result<IndexCache, RowFault> {
    Ok(IndexCache::at_path(Text::of(alloc, "")?, Text::of(alloc, INDEX_URL)?))
}

/// Stores lines under a revision as the entry of the crate `a`.
fn store_lines(
    alloc: Global,
    cache: &IndexCache,
    disk: &mut MemCacheDisk,
    lines: JsonLines<'_>,
    revision: &Revision<'_>,
) -> Result<Result<Kept, CacheFault>, RowFault> {
    let name = Row::of("a").name(alloc)?;
    let lock = FileLock::unlocked();
    Ok(cache.write_to_cache(
        alloc,
        name,
        CacheWrite::Remote(lines),
        revision,
        &lock,
        disk,
    ))
}

/// What storing a body under a revision as the entry of the crate `a` answers.
fn stored(
    alloc: Global,
    disk: &mut MemCacheDisk,
    body: &[u8],
    revision: &Revision<'_>,
) -> Result<String, RowFault> {
    let Ok(lines) = JsonLines::validate(body) else {
        return Err(RowFault::Unread);
    };
    let cache = root_cache(alloc)?;
    match store_lines(alloc, &cache, disk, lines, revision)? {
        Ok(kept) => Ok(format!(in alloc; "{kept:?}")?),
        Err(fault) => Ok(format!(in alloc; "fault {fault:?}")?),
    }
}

/// Stores the line with this flag under an entity tag: `x` for the yanked one, else `y`.
fn write(alloc: Global, disk: &mut MemCacheDisk, yanked: bool) -> Result<String, RowFault> {
    let body = flagged_body(alloc, yanked)?;
    let revision = Revision::Http(HttpRevision::Etag(if yanked { "x" } else { "y" }));
    stored(alloc, disk, body.as_bytes(), &revision)
}

/// What a file of the crate `a` is.
fn found(alloc: Global, file: &[u8]) -> Result<&'static str, RowFault> {
    Ok(if ValidCacheEntry::read(file, INDEX_URL).is_err() {
        "refused"
    } else if file == flagged_entry(alloc, true)?.as_slice() {
        "the yanked entry"
    } else if file == flagged_entry(alloc, false)?.as_slice() {
        "the unyanked entry"
    } else {
        "another"
    })
}

/// What an index entry that was read is.
fn found_as(alloc: Global, entry: &Option<IndexEntry<'_, '_>>) -> Result<&'static str, RowFault> {
    match entry {
        Some(IndexEntry::Cache(file, _url)) => found(alloc, file.as_slice()),
        Some(_entry) => Ok("no file"),
        None => Ok("nothing"),
    }
}

/// What a read of the crate `a` finds.
fn found_in(
    alloc: Global,
    cache: &IndexCache,
    disk: &mut MemCacheDisk,
) -> Result<&'static str, RowFault> {
    let name = Row::of("a").name(alloc)?;
    let lock = FileLock::unlocked();
    match cache.read_cache_file(alloc, name, &lock, disk) {
        Ok(entry) => found_as(alloc, &entry),
        Err(error) => Err(refused(alloc, &error)),
    }
}

/// `look`: the same as a row's answer.
pub fn look(alloc: Global, disk: &mut MemCacheDisk) -> Result<String, RowFault> {
    let cache = root_cache(alloc)?;
    let found = found_in(alloc, &cache, disk)?;
    Ok(String::from_str(alloc, found)?)
}

/// Stores the line with this flag, and looks.
fn write_and_look(
    alloc: Global,
    disk: &mut MemCacheDisk,
    yanked: bool,
) -> Result<String, RowFault> {
    let done = write(alloc, disk, yanked)?;
    let found = told(alloc, look(alloc, disk))?;
    Ok(format!(in alloc; "{done}: {found}")?)
}

/// `first FAILING`: the first entry stored where these calls fail, and what a read finds then.
pub fn first(alloc: Global, mut words: Row<'_>) -> Result<String, RowFault> {
    let mut disk = disk_failing(alloc, words.numbers(alloc)?);
    write_and_look(alloc, &mut disk, false)
}

/// Stores the yanked line, then the other one, and looks.
fn write_both(alloc: Global, disk: &mut MemCacheDisk) -> Result<String, RowFault> {
    let first = write(alloc, disk, true)?;
    let then = write_and_look(alloc, disk, false)?;
    Ok(format!(in alloc; "{first}, {then}")?)
}

/// `second FAILING`: the same over a disk that keeps the yanked line.
pub fn second(alloc: Global, mut words: Row<'_>) -> Result<String, RowFault> {
    let mut disk = disk_failing(alloc, words.numbers(alloc)?);
    write_both(alloc, &mut disk)
}

/// What a write of a piece at a place that fails leaves of a file.
fn left_of(
    alloc: Global,
    disk: &mut MemCacheDisk,
    at: u64,
    piece: &[u8],
) -> Result<String, RowFault> {
    if disk.write_at(FLAGGED_FILE, at, piece).is_ok() {
        return Ok(String::from_str(alloc, "written")?);
    }
    match disk.read(alloc, FLAGGED_FILE) {
        Ok(Some(left)) => Ok(shown_word(alloc, left.as_slice())?),
        _ => Err(RowFault::Unread),
    }
}

/// The same where a failed write tears.
fn torn_line(
    alloc: Global,
    disk: &mut MemCacheDisk,
    at: u64,
    piece: &[u8],
) -> Result<String, RowFault> {
    disk.tear();
    left_of(alloc, disk, at, piece)
}

/// `torn FILE AT PIECE`: the same where a failed write tears.
pub fn torn(alloc: Global, mut words: Row<'_>) -> Result<String, RowFault> {
    let file = words.bytes(alloc)?;
    let at = words.number()?;
    let piece = words.bytes(alloc)?;
    let failing = Row::of("1").numbers(alloc)?;
    match disk_with(alloc, file.as_slice(), failing) {
        Ok(mut disk) => torn_line(alloc, &mut disk, at, piece.as_slice()),
        Err(fault) => Err(fault),
    }
}

/// Stores the yanked line, then the other one, stopped at this call.
fn stopped_write(alloc: Global, disk: &mut MemCacheDisk, at: u64) -> Result<String, RowFault> {
    let first = write(alloc, disk, true)?;
    stop(disk, at);
    let done = write(alloc, disk, false)?;
    Ok(format!(in alloc; "{first}, {done}")?)
}

/// What was done before, what a read finds, and what storing once more does.
fn look_and_write(
    alloc: Global,
    disk: &mut MemCacheDisk,
    before: &str,
) -> Result<String, RowFault> {
    let found = look(alloc, disk)?;
    let again = write_and_look(alloc, disk, false)?;
    Ok(format!(in alloc; "{before}: {found}; {again}")?)
}

/// The same once the disk has crashed.
fn crashed_line(
    alloc: Global,
    disk: MemCacheDisk,
    pick: u8,
    before: &str,
) -> Result<String, RowFault> {
    match crashed(alloc, disk, pick) {
        Ok(mut left) => look_and_write(alloc, &mut left, before),
        Err(fault) => Err(fault),
    }
}

/// `crashed STOP PICK`: the yanked line is stored, then the other one, stopped at this call, then
/// the disk crashes; what a read finds, and what storing once more does.
pub fn crashed_write(alloc: Global, mut words: Row<'_>) -> Result<String, RowFault> {
    let at = words.number()?;
    let pick = words.byte_or_none()?.unwrap_or(0);
    let mut disk = disk_failing(alloc, Vec::new(alloc));
    let before = stopped_write(alloc, &mut disk, at)?;
    crashed_line(alloc, disk, pick, before.as_str())
}

/// The entry of the yanked line with another first byte; no bytes without one.
fn foreign_bytes(alloc: Global, first: Option<u8>) -> Result<Vec<u8>, RowFault> {
    let Some(first) = first else {
        return Ok(Vec::new(alloc));
    };
    let mut bytes = flagged_entry(alloc, true)?;
    if let Some(place) = bytes.first_mut() {
        *place = first;
    }
    Ok(bytes)
}

/// What stands first in the file of the crate `a`.
fn seen(alloc: Global, disk: &mut MemCacheDisk) -> Result<String, AllocError> {
    match disk.peek(FLAGGED_FILE) {
        Ok(seen) => format!(in alloc; "{seen:?}"),
        Err(_) => String::from_str(alloc, "fault"),
    }
}

/// How many bytes the file of the crate `a` has, what stands first in it, and what storing this
/// line over it does.
fn written_over(
    alloc: Global,
    disk: &mut MemCacheDisk,
    len: usize,
    yanked: bool,
) -> Result<String, RowFault> {
    let seen = seen(alloc, disk)?;
    let then = write_and_look(alloc, disk, yanked)?;
    Ok(format!(in alloc;
        "{len} bytes, {seen}; {then}; {} faults",
        disk.disk_faults()
    )?)
}

/// `foreign (HH | -) (YANKED | UNYANKED)`: storing a line over a file with another first byte, or
/// without one.
pub fn foreign(alloc: Global, mut words: Row<'_>) -> Result<String, RowFault> {
    let bytes = foreign_bytes(alloc, words.byte_or_none()?)?;
    let yanked = words.is("YANKED", "UNYANKED")?;
    match disk_with(alloc, bytes.as_slice(), Vec::new(alloc)) {
        Ok(mut disk) => written_over(alloc, &mut disk, bytes.len(), yanked),
        Err(fault) => Err(fault),
    }
}

/// `store REVISION BODY`: what storing a body under a revision answers.
pub fn store(
    alloc: Global,
    disk: &mut MemCacheDisk,
    mut words: Row<'_>,
) -> Result<String, RowFault> {
    let revision = RevisionWord::of(alloc, words.word())?;
    let body = body_of(alloc, words.word())?;
    stored(
        alloc,
        disk,
        body.as_slice(),
        &revision_of(&revision, revision.http()),
    )
}

/// `path NAME`: the path of a crate's file; and the laws of kept disks.
pub fn path(alloc: Global, mut words: Row<'_>) -> Result<String, RowFault> {
    empty_is_kept();
    kept_for_more();
    histories_keep();
    let name = words.name(alloc)?;
    let path = root_cache(alloc)?.cache_path(alloc, name)?;
    Ok(String::from_str(alloc, path.as_str())?)
}
