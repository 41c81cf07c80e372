//! Entries as bytes.
use crate::cache::revisions::revision_of;
use crate::cache::sources::{Source, written};
use crate::fakes::fake_krate;
use row_fixtures::{INDEX_URL, RevisionWord, Row, RowFault, asked, body_of, entry_of, shown};
use std::alloc::{AllocError, Global};
use tame_entry::{CacheWrite, IndexEntry, JsonLines, Revision, ValidCacheEntry};
use tame_names::{FileLock, Items, MemSink};
use tame_records::IndexKrate;

/// How many bytes are written of lines under a revision; they are in the sink.
fn put(
    alloc: Global,
    lines: JsonLines<'_>,
    revision: &Revision<'_>,
    sink: &mut MemSink,
) -> Result<u64, RowFault> {
    asked(
        alloc,
        CacheWrite::Remote(lines).write_cache_entry(alloc, sink, INDEX_URL, revision),
    )
}

/// What an entry is read back as: whether its revision is this one, and how many bytes follow it.
fn read_back(alloc: Global, entry: &[u8], revision: &Revision<'_>) -> Result<String, AllocError> {
    match ValidCacheEntry::read(entry, INDEX_URL) {
        Ok(entry) => {
            let is_same = entry.revision == *revision;
            let more = entry.version_entries.len();
            format!(in alloc; "its revision: {is_same}; {more} behind it")
        }
        Err(error) => format!(in alloc; "{error:?}"),
    }
}

/// How many bytes are written of lines under a revision and foretold, which, and what they are
/// read as.
fn put_line(
    alloc: Global,
    lines: JsonLines<'_>,
    revision: &Revision<'_>,
    sink: &mut MemSink,
) -> Result<String, RowFault> {
    let count = put(alloc, lines, revision, sink)?;
    let told = CacheWrite::Remote(lines).entry_len(alloc, INDEX_URL, revision)?;
    let back = read_back(alloc, sink.bytes(), revision)?;
    let bytes = shown(alloc, sink.bytes())?;
    Ok(format!(in alloc; "{count} {told} [{bytes}] {back}")?)
}

/// The same in a sink of its own.
fn entry_line(
    alloc: Global,
    lines: JsonLines<'_>,
    revision: &Revision<'_>,
) -> Result<String, RowFault> {
    let mut sink = MemSink::new(alloc, Items::new(alloc));
    put_line(alloc, lines, revision, &mut sink)
}

/// `entry REVISION BODY`: the same of a body's lines.
pub fn entry(alloc: Global, mut words: Row<'_>) -> Result<String, RowFault> {
    let revision = RevisionWord::of(alloc, words.word())?;
    let body = body_of(alloc, words.word())?;
    match JsonLines::validate(body.as_slice()) {
        Ok(lines) => entry_line(alloc, lines, &revision_of(&revision, revision.http())),
        Err(_) => Err(RowFault::Unread),
    }
}

/// Whether bytes are read as an entry, or why they aren't.
fn verdict(alloc: Global, bytes: &[u8]) -> Result<String, AllocError> {
    match ValidCacheEntry::read(bytes, INDEX_URL) {
        Ok(_) => String::from_str(alloc, "read"),
        Err(error) => format!(in alloc; "{error:?}"),
    }
}

/// `valid BYTES`: whether bytes are read as an entry, or why they aren't.
pub fn valid(alloc: Global, mut words: Row<'_>) -> Result<String, RowFault> {
    let bytes = words.bytes(alloc)?;
    Ok(verdict(alloc, bytes.as_slice())?)
}

/// Texts, of which as many as are equal in a row are told with their number.
#[derive(Drop)]
struct Runs {
    told: String,
    last: String,
    count: u64,
}

impl Runs {
    fn new(alloc: Global) -> Runs {
        Runs {
            told: String::new(alloc),
            last: String::new(alloc),
            count: 0,
        }
    }

    fn end(&mut self) -> Result<(), AllocError> {
        if self.count > 0 {
            let (count, last) = (self.count, self.last.as_str());
            write!(self.told, " {count} {last}")?;
        }
        Ok(())
    }

    fn add(&mut self, text: String) -> Result<(), AllocError> {
        if self.last.as_str() != text.as_str() {
            self.end()?;
            self.last = text;
            self.count = 0;
        }
        self.count = self.count.saturating_add(1);
        Ok(())
    }
}

/// `cuts REVISION BODY`: an entry's length, and how many of its beginnings in a row, from the
/// shortest on, are read, or why they aren't.
pub fn cuts(alloc: Global, mut words: Row<'_>) -> Result<String, RowFault> {
    let entry = written(alloc, &mut words)?;
    let mut runs = Runs::new(alloc);
    for len in 0..entry.len() {
        runs.add(verdict(alloc, &entry[..len])?)?;
    }
    runs.end()?;
    let (len, told) = (entry.len(), runs.told.as_str());
    Ok(format!(in alloc; "{len} bytes:{told}")?)
}

/// `firsts REVISION BODY`: the same for each first byte, from 0 on.
pub fn firsts(alloc: Global, mut words: Row<'_>) -> Result<String, RowFault> {
    let mut entry = written(alloc, &mut words)?;
    let mut runs = Runs::new(alloc);
    for first in 0..=255u8 {
        if let Some(place) = entry.first_mut() {
            *place = first;
        }
        runs.add(verdict(alloc, entry.as_slice())?)?;
    }
    runs.end()?;
    let (len, told) = (entry.len(), runs.told.as_str());
    Ok(format!(in alloc; "{len} bytes:{told}")?)
}

fn versions_line(
    alloc: Global,
    krate: &IndexKrate,
    lines: &[u8],
    revision: &Revision<'_>,
) -> Result<String, RowFault> {
    let written = CacheWrite::from(krate);
    let told = written.entry_len(alloc, INDEX_URL, revision)?;
    let is_storable = written.is_storable(alloc, INDEX_URL, revision)?;
    let is_same = written.entry(alloc, INDEX_URL, revision)?.as_slice() == lines;
    Ok(format!(in alloc; "as the lines: {is_same}; {told} bytes; storable: {is_storable}")?)
}

/// `versions REVISION BODY`: the entry of the versions of a body, beside that of its lines.
pub fn of_versions(alloc: Global, mut words: Row<'_>) -> Result<String, RowFault> {
    let revision = RevisionWord::of(alloc, words.word())?;
    let body = body_of(alloc, words.word())?;
    let lines = entry_of(
        alloc,
        body.as_slice(),
        &revision_of(&revision, revision.http()),
    )?;
    match asked(alloc, IndexKrate::from_slice(alloc, body.as_slice())) {
        Ok(krate) => versions_line(
            alloc,
            &krate,
            lines.as_slice(),
            &revision_of(&revision, revision.http()),
        ),
        Err(fault) => Err(fault),
    }
}

fn storable_line(
    alloc: Global,
    krate: &IndexKrate,
    revision: &Revision<'_>,
) -> Result<String, RowFault> {
    let is_storable = CacheWrite::from(krate).is_storable(alloc, INDEX_URL, revision)?;
    Ok(format!(in alloc; "{is_storable}")?)
}

/// `storable REVISION NAME VERSION`: whether a crate of one version can be stored.
pub fn storable(alloc: Global, mut words: Row<'_>) -> Result<String, RowFault> {
    let revision = RevisionWord::of(alloc, words.word())?;
    let name = words.word();
    let version = words.text(alloc)?;
    match fake_krate(alloc, name, version.as_str()) {
        Ok(krate) => storable_line(alloc, &krate, &revision_of(&revision, revision.http())),
        Err(fault) => Err(fault),
    }
}

/// The revision of an index entry that comes from the cache.
fn cached_line(alloc: Global, entry: &IndexEntry<'_, '_>) -> Result<String, RowFault> {
    Ok(match entry.cached() {
        Ok(None) => String::from_str(alloc, "not of the cache")?,
        Ok(Some(entry)) => format!(in alloc; "under {:?}", entry.revision)?,
        Err(error) => format!(in alloc; "{error:?}")?,
    })
}

/// `cached SOURCE`: the revision of an index entry that comes from the cache.
pub fn cached(alloc: Global, words: Row<'_>) -> Result<String, RowFault> {
    let source = Source::of(alloc, words)?;
    let lock = FileLock::unlocked();
    match source.entry(alloc, &lock) {
        Ok(entry) => cached_line(alloc, &entry),
        Err(fault) => Err(fault),
    }
}
