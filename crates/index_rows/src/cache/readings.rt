//! Index entries read as the versions of a crate, and line by line.
use crate::cache::revisions::revision_of;
use crate::cache::sources::{Source, written};
use row_fixtures::{INDEX_URL, RevisionWord, Row, RowFault, asked, body_of, shown, shown_word};
use std::alloc::{AllocError, Global};
use tame_entry::{
    IndexEntry, IndexEntryVersion, JsonLines, LockedMmap, Revision, ValidCacheEntry,
    entries_read_as_bodies, entries_read_back, read_version_flags, status_among,
};
use tame_names::{Error, FileLock, MemFiles};
use tame_records::{IndexKrate, IndexVersion};

fn push_version(out: &mut String, version: &IndexVersion) -> Result<(), AllocError> {
    let (number, yanked) = (version.version.as_str(), version.yanked);
    write!(out, " {number} {yanked}")
}

/// How many versions there are, and each with its flag.
fn versions(alloc: Global, krate: &IndexKrate) -> Result<String, RowFault> {
    let count = krate.versions.as_slice().len();
    let mut out = format!(in alloc; "{count}:")?;
    for version in krate.versions.as_slice() {
        push_version(&mut out, version)?;
    }
    Ok(out)
}

fn read_entry(alloc: Global, entry: &IndexEntry<'_, '_>) -> Result<String, RowFault> {
    match asked(alloc, entry.deserialize(alloc)) {
        Ok(krate) => versions(alloc, &krate),
        Err(fault) => Err(fault),
    }
}

/// `read SOURCE`: an index entry as versions with their flags.
pub fn read(alloc: Global, words: Row<'_>) -> Result<String, RowFault> {
    let source = Source::of(alloc, words)?;
    let lock = FileLock::unlocked();
    match source.entry(alloc, &lock) {
        Ok(entry) => read_entry(alloc, &entry),
        Err(fault) => Err(fault),
    }
}

/// A crate as versions with their flags, if it was found.
fn found_line(alloc: Global, found: Result<Option<IndexKrate>, Error>) -> Result<String, RowFault> {
    match asked(alloc, found) {
        Ok(Some(krate)) => versions(alloc, &krate),
        Ok(None) => Ok(String::from_str(alloc, "nothing")?),
        Err(fault) => Err(fault),
    }
}

fn read_under(
    alloc: Global,
    entry: &IndexEntry<'_, '_>,
    revision: &Revision<'_>,
) -> Result<String, RowFault> {
    found_line(alloc, entry.deserialize_with_revision(alloc, revision))
}

/// `under REVISION SOURCE`: the same where it is kept under the revision.
pub fn under(alloc: Global, mut words: Row<'_>) -> Result<String, RowFault> {
    let revision = RevisionWord::of(alloc, words.word())?;
    let source = Source::of(alloc, words)?;
    let lock = FileLock::unlocked();
    match source.entry(alloc, &lock) {
        Ok(entry) => read_under(alloc, &entry, &revision_of(&revision, revision.http())),
        Err(fault) => Err(fault),
    }
}

fn kept_line(
    alloc: Global,
    entry: &[u8],
    wanted: Option<&Revision<'_>>,
) -> Result<String, RowFault> {
    match ValidCacheEntry::read(entry, INDEX_URL) {
        Ok(entry) => found_line(alloc, entry.to_krate(alloc, wanted)),
        Err(error) => Ok(format!(in alloc; "{error:?}")?),
    }
}

/// `krate WANTED REVISION BODY`: an entry of the cache as versions with their flags, where its
/// revision is the wanted one; `-` wants none.
pub fn krate(alloc: Global, mut words: Row<'_>) -> Result<String, RowFault> {
    let wanted = RevisionWord::of(alloc, words.word())?;
    let entry = written(alloc, &mut words)?;
    match &wanted {
        RevisionWord::Absent => kept_line(alloc, entry.as_slice(), None),
        _ => {
            let revision = revision_of(&wanted, wanted.http());
            kept_line(alloc, entry.as_slice(), Some(&revision))
        }
    }
}

fn push_item(alloc: Global, out: &mut String, item: IndexEntryVersion<'_>) -> Result<(), RowFault> {
    let text = shown_word(alloc, item.raw().0.as_bytes())?;
    Ok(write!(out, " {text}")?)
}

fn items_line(alloc: Global, entry: &IndexEntry<'_, '_>) -> Result<String, RowFault> {
    let mut out = String::from_str(alloc, "items:")?;
    if let Ok(items) = entry.iter() {
        for item in items {
            push_item(alloc, &mut out, item)?;
        }
    } else {
        out.push_str(" refused")?;
    }
    Ok(out)
}

/// `items SOURCE`: the version's text of each item of an index entry.
pub fn items(alloc: Global, words: Row<'_>) -> Result<String, RowFault> {
    let source = Source::of(alloc, words)?;
    let lock = FileLock::unlocked();
    match source.entry(alloc, &lock) {
        Ok(entry) => items_line(alloc, &entry),
        Err(fault) => Err(fault),
    }
}

/// A record's version and flag.
fn record_line(alloc: Global, version: &IndexVersion) -> Result<String, RowFault> {
    Ok(format!(in alloc; "{} {}", version.version, version.yanked)?)
}

/// `line LINE`: a line as a record, or why it is none.
pub fn line(alloc: Global, mut words: Row<'_>) -> Result<String, RowFault> {
    let line = words.bytes(alloc)?;
    match asked(
        alloc,
        IndexEntryVersion::of_line(line.as_slice()).deserialize(alloc),
    ) {
        Ok(version) => record_line(alloc, &version),
        Err(fault) => Err(fault),
    }
}

/// `status VERSION BODY`: what the lines of a body say of a version.
pub fn status(alloc: Global, mut words: Row<'_>) -> Result<String, RowFault> {
    let version = words.word();
    let body = body_of(alloc, words.word())?;
    let Ok(lines) = JsonLines::validate(body.as_slice()) else {
        return Err(RowFault::Unread);
    };
    let flags = read_version_flags(alloc, lines)?;
    let status = status_among(&flags, version);
    Ok(format!(in alloc; "{status:?}")?)
}

/// `map PATH`: the bytes of a file.
pub fn map(alloc: Global, files: &mut MemFiles, mut words: Row<'_>) -> Result<String, RowFault> {
    let lock = FileLock::unlocked();
    let file = asked(alloc, LockedMmap::mmap(alloc, files, words.word(), &lock))?;
    Ok(shown(alloc, file.as_slice())?)
}

/// `laws`: entries read back as they were written, and as their bodies.
pub fn laws(alloc: Global) -> Result<String, RowFault> {
    entries_read_back();
    entries_read_as_bodies();
    Ok(String::from_str(alloc, "hold")?)
}
