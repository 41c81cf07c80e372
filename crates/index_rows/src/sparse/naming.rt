//! What requests name.
use row_fixtures::{
    RevisionWord, Row, RowFault, asked, disk_failing, disk_with, entry_of, flagged_body,
    owned_text, told,
};
use std::alloc::Global;
use tame_cache::MemCacheDisk;
use tame_entry::{HttpRevision, Revision};
use tame_names::FileLock;
use tame_sparse::SparseIndex;

/// What the request for the crate `a` names, over a disk.
fn named_over(
    alloc: Global,
    index: &SparseIndex,
    revision: Option<HttpRevision<'_>>,
    disk: &mut MemCacheDisk,
) -> Result<String, RowFault> {
    let name = Row::of("a").name(alloc)?;
    let lock = FileLock::unlocked();
    match asked(
        alloc,
        index.make_remote_request(alloc, name, revision, &lock, disk),
    ) {
        Ok(request) => owned_text(alloc, &request.named),
        Err(fault) => Err(fault),
    }
}

/// `name`: what the request for the crate `a` names, of the file that is kept.
pub fn named(
    alloc: Global,
    index: &SparseIndex,
    disk: &mut MemCacheDisk,
) -> Result<String, RowFault> {
    named_over(alloc, index, None, disk)
}

/// What is named where the file of the crate has these bytes, and these calls on the disk fail.
fn named_on(
    alloc: Global,
    index: &SparseIndex,
    bytes: &[u8],
    failing: Vec<u64>,
) -> Result<String, RowFault> {
    match disk_with(alloc, bytes, failing) {
        Ok(mut disk) => named_over(alloc, index, None, &mut disk),
        Err(fault) => Err(fault),
    }
}

/// What is named of a revision that is handed in.
fn of_handed(
    alloc: Global,
    index: &SparseIndex,
    revision: HttpRevision<'_>,
) -> Result<String, RowFault> {
    let mut disk = disk_failing(alloc, Vec::new(alloc));
    named_over(alloc, index, Some(revision), &mut disk)
}

/// What is named where the file of the crate is the entry of a line under a revision.
fn of_entry(
    alloc: Global,
    index: &SparseIndex,
    revision: &Revision<'_>,
) -> Result<String, RowFault> {
    let entry = entry_of(alloc, flagged_body(alloc, true)?.as_bytes(), revision)?;
    named_on(alloc, index, entry.as_slice(), Vec::new(alloc))
}

/// `edge REVISION`: what is named of a revision that is handed in, and of the entry that is kept
/// under it.
pub fn edge(alloc: Global, index: &SparseIndex, mut words: Row<'_>) -> Result<String, RowFault> {
    let revision = RevisionWord::of(alloc, words.word())?;
    let Some(http) = revision.http() else {
        return Err(RowFault::Unread);
    };
    let handed = told(alloc, of_handed(alloc, index, http))?;
    let kept = told(alloc, of_entry(alloc, index, &revision.revision()))?;
    Ok(format!(in alloc; "handed {handed}; kept {kept}")?)
}

/// The bytes with another first byte, where one is given.
fn with_first(alloc: Global, bytes: &[u8], first: Option<u8>) -> Result<Vec<u8>, RowFault> {
    let mut changed = bytes.to_vec(alloc)?;
    if let (Some(place), Some(first)) = (changed.first_mut(), first) {
        *place = first;
    }
    Ok(changed)
}

/// `kept REVISION FIRST FAILING`: what is named where the file of the crate is an entry under a
/// revision, with another first byte or its own, and these calls on the disk fail.
pub fn kept(alloc: Global, index: &SparseIndex, mut words: Row<'_>) -> Result<String, RowFault> {
    let revision = RevisionWord::of(alloc, words.word())?;
    let body = flagged_body(alloc, true)?;
    let entry = entry_of(alloc, body.as_bytes(), &revision.revision())?;
    let entry = with_first(alloc, entry.as_slice(), words.byte_or_none()?)?;
    let mut disk = disk_with(alloc, entry.as_slice(), words.numbers(alloc)?)?;
    named_over(alloc, index, None, &mut disk)
}

/// `file BYTES`: what is named where the file of the crate has these bytes.
pub fn file(alloc: Global, index: &SparseIndex, mut words: Row<'_>) -> Result<String, RowFault> {
    let bytes = words.bytes(alloc)?;
    named_on(alloc, index, bytes.as_slice(), Vec::new(alloc))
}
