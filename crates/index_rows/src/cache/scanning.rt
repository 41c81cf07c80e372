//! The version and the flag of a line, without a record.
use row_fixtures::{INDEX_URL, Row, RowFault, asked, shown_word};
use std::alloc::Global;
use tame_entry::{IndexEntry, IndexEntryVersion, LockedMmap};
use tame_names::{FileLock, Text};

fn scanned(alloc: Global, version: IndexEntryVersion<'_>) -> Result<String, RowFault> {
    let (found, flag) = asked(alloc, version.yanked(alloc))?;
    Ok(format!(in alloc; "{found} {flag}")?)
}

/// `scan LINE`: the version and the flag of a line, scanned from its end.
pub fn scan(alloc: Global, mut words: Row<'_>) -> Result<String, RowFault> {
    let line = words.bytes(alloc)?;
    scanned(alloc, IndexEntryVersion::of_line(line.as_slice()))
}

/// An entry of one version's text and line.
fn entry_bytes(alloc: Global, version: &[u8], line: &[u8]) -> Result<Vec<u8>, RowFault> {
    let mut bytes = b"\x04\x02\x00\x00\x00".as_slice().to_vec(alloc)?;
    bytes.extend_from_slice(INDEX_URL.as_bytes())?;
    bytes.extend_from_slice(b"\x00Unknown\x00")?;
    bytes.extend_from_slice(version)?;
    bytes.push(0)?;
    bytes.extend_from_slice(line)?;
    bytes.push(0)?;
    Ok(bytes)
}

/// The same of the first version of an index entry.
fn scanned_first(alloc: Global, entry: &IndexEntry<'_, '_>) -> Result<String, RowFault> {
    let Ok(mut items) = entry.iter() else {
        return Ok(String::from_str(alloc, "refused")?);
    };
    match items.next() {
        Some(first) => scanned(alloc, first),
        None => Ok(String::from_str(alloc, "no version")?),
    }
}

/// `scan-entry VERSION LINE`: the same of the first version of an entry of the cache.
pub fn scan_entry(alloc: Global, mut words: Row<'_>) -> Result<String, RowFault> {
    let version = words.bytes(alloc)?;
    let line = words.bytes(alloc)?;
    let bytes = entry_bytes(alloc, version.as_slice(), line.as_slice())?;
    let url = Text::of(alloc, INDEX_URL)?;
    let lock = FileLock::unlocked();
    let entry = IndexEntry::Cache(LockedMmap::of(bytes, &lock), url);
    scanned_first(alloc, &entry)
}

/// `raw LINE`: the version's text in a line, and whether the line is handed on whole.
pub fn raw(alloc: Global, mut words: Row<'_>) -> Result<String, RowFault> {
    let line = words.bytes(alloc)?;
    let (version, json) = IndexEntryVersion::of_line(line.as_slice()).raw();
    let is_whole = json == line.as_slice();
    let version = shown_word(alloc, version.as_bytes())?;
    Ok(format!(in alloc; "{version} {is_whole}")?)
}
