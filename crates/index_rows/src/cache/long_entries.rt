//! Entries that are put in several pieces.
use crate::cache::revisions::revision_of;
use row_fixtures::{INDEX_URL, RevisionWord, Row, RowFault};
use std::alloc::{AllocError, Global};
use tame_entry::{CacheWrite, JsonLines, Revision};
use tame_names::{Items, MemSink};

/// A line with a member of this many letters, which no version has.
fn line_with(alloc: Global, letters: u64) -> Result<String, AllocError> {
    let mut line = String::from_str(alloc, r#"{"name":"a","vers":"0.1.0","yanked":false,"x":""#)?;
    for _ in 0..letters {
        line.push_str("x")?;
    }
    line.push_str(r#""}"#)?;
    Ok(line)
}

/// How many bytes of the entry are in a sink whose put of this number fails, if there is one.
fn held(
    alloc: Global,
    lines: JsonLines<'_>,
    revision: &Revision<'_>,
    failing: u64,
) -> Result<usize, RowFault> {
    let mut fails = Items::new(alloc);
    fails.add(failing)?;
    let mut sink = MemSink::new(alloc, fails);
    let _answer = CacheWrite::Remote(lines).write_cache_entry(
        alloc, &mut sink, INDEX_URL, revision,
    );
    Ok(sink.bytes().len())
}

fn held_each(
    alloc: Global,
    lines: JsonLines<'_>,
    revision: &Revision<'_>,
) -> Result<String, RowFault> {
    let len = CacheWrite::Remote(lines).entry_len(alloc, INDEX_URL, revision)?;
    let mut told = format!(in alloc; "{len} bytes:")?;
    for failing in 1..5 {
        let held = held(alloc, lines, revision, failing)?;
        write!(told, " {held}")?;
    }
    Ok(told)
}

/// `long REVISION LETTERS`: an entry's length, and how many of its bytes a sink holds whose first
/// put fails, whose second, third and fourth.
pub fn long(alloc: Global, mut words: Row<'_>) -> Result<String, RowFault> {
    let revision = RevisionWord::of(alloc, words.word())?;
    let line = line_with(alloc, words.number()?)?;
    match JsonLines::validate(line.as_bytes()) {
        Ok(lines) => held_each(alloc, lines, &revision_of(&revision, revision.http())),
        Err(_) => Err(RowFault::Unread),
    }
}
