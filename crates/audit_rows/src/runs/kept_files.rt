//! What the cache keeps of the crate `a`, and what its next request names.
use row_fixtures::{FLAGGED_FILE, Row, RowFault, asked, flagged_entry, owned_text, shown};
use std::alloc::{AllocError, Global};
use tame_cache::{CacheDisk, MemCacheDisk, Peek};
use tame_entry::OwnedRevision;
use tame_names::FileLock;
use tame_sparse::{Request, SparseIndex};

/// What a file is: the entry of a line, or else its bytes.
fn kind_of(alloc: Global, bytes: &[u8]) -> Result<String, RowFault> {
    if bytes == flagged_entry(alloc, true)?.as_slice() {
        Ok(String::from_str(alloc, "YANKED under x")?)
    } else if bytes == flagged_entry(alloc, false)?.as_slice() {
        Ok(String::from_str(alloc, "UNYANKED under y")?)
    } else {
        Ok(shown(alloc, bytes)?)
    }
}

fn read(alloc: Global, disk: &mut MemCacheDisk) -> Result<Option<Vec<u8>>, RowFault> {
    match disk.read(alloc, FLAGGED_FILE) {
        Ok(found) => Ok(found),
        Err(_) => Err(RowFault::Unread),
    }
}

/// The first byte of the file of the crate `a`.
fn first_byte(alloc: Global, disk: &mut MemCacheDisk) -> Result<String, AllocError> {
    match disk.peek(FLAGGED_FILE) {
        Ok(Peek::Byte(first)) => format!(in alloc; "begins with {first}"),
        Ok(Peek::Empty) => String::from_str(alloc, "is empty"),
        Ok(Peek::Absent) => String::from_str(alloc, "is absent"),
        Err(_) => String::from_str(alloc, "fails"),
    }
}

/// The file of the crate `a`; nothing if there is none.
fn whole_file(alloc: Global, disk: &mut MemCacheDisk) -> Result<String, RowFault> {
    match read(alloc, disk)? {
        Some(bytes) => kind_of(alloc, bytes.as_slice()),
        None => Ok(String::new(alloc)),
    }
}

/// The file of the crate `a`; if it isn't an entry of a line, its length.
pub fn left_file(alloc: Global, disk: &mut MemCacheDisk) -> Result<String, RowFault> {
    let Some(bytes) = read(alloc, disk)? else {
        return Ok(String::from_str(alloc, "no file")?);
    };
    let kind = kind_of(alloc, bytes.as_slice())?;
    if kind.as_str().ends_with("under x") || kind.as_str().ends_with("under y") {
        return Ok(kind);
    }
    let first = first_byte(alloc, disk)?;
    Ok(format!(in alloc; "{} bytes, {first}", bytes.len())?)
}

/// `file`: the file of the crate `a`, and its first byte.
pub fn file(alloc: Global, disk: &mut MemCacheDisk) -> Result<String, RowFault> {
    let first = first_byte(alloc, disk)?;
    let kind = whole_file(alloc, disk)?;
    Ok(format!(in alloc; "{first}: {kind}")?)
}

/// What the next request for the crate `a` will name.
pub fn named_next(
    alloc: Global,
    index: &SparseIndex,
    disk: &mut MemCacheDisk,
) -> Result<Option<OwnedRevision>, RowFault> {
    let lock = FileLock::unlocked();
    let name = Row::of("a").name(alloc)?;
    let request = asked(
        alloc,
        index.make_remote_request(alloc, name, None, &lock, disk),
    )?;
    let Request { named, .. } = request;
    Ok(named)
}

/// `next`: the same as a row's answer.
pub fn next(
    alloc: Global,
    index: &SparseIndex,
    disk: &mut MemCacheDisk,
) -> Result<String, RowFault> {
    let named = named_next(alloc, index, disk)?;
    owned_text(alloc, &named)
}
