//! Revisions as text.
use row_fixtures::{RevisionWord, Row, RowFault, shown};
use std::alloc::Global;
use tame_entry::{GitRevision, HttpRevision, Revision, Sha1Hex};
use tame_names::{Items, MemSink};

/// The revision that a word stands for, with that of HTTP beside it: where a revision is lent, the
/// prover needs that type named in the same function.
pub fn revision_of<'a>(word: &'a RevisionWord, http: Option<HttpRevision<'a>>) -> Revision<'a> {
    match http {
        Some(http) => Revision::Http(http),
        None => word.revision(),
    }
}

fn bytes_line(
    alloc: Global,
    revision: &Revision<'_>,
    count: u64,
    bytes: &[u8],
) -> Result<String, RowFault> {
    let text = shown(alloc, bytes)?;
    Ok(format!(in alloc; "{count} [{text}] [{revision:?}]")?)
}

fn written(alloc: Global, revision: &Revision<'_>) -> Result<String, RowFault> {
    let mut sink = MemSink::new(alloc, Items::new(alloc));
    let count = revision.write(&mut sink).unwrap_or(0);
    bytes_line(alloc, revision, count, sink.bytes())
}

/// `revision REVISION`: how many bytes are written of a revision, which, and how it is shown.
pub fn revision(alloc: Global, mut words: Row<'_>) -> Result<String, RowFault> {
    let revision = RevisionWord::of(alloc, words.word())?;
    written(alloc, &revision_of(&revision, revision.http()))
}

/// `equal REVISION REVISION`.
pub fn equal(alloc: Global, mut words: Row<'_>) -> Result<String, RowFault> {
    let one = RevisionWord::of(alloc, words.word())?;
    let other = RevisionWord::of(alloc, words.word())?;
    let is_equal = revision_of(&one, one.http()) == revision_of(&other, other.http());
    Ok(format!(in alloc; "{is_equal}")?)
}

/// `digits HH`: the digits of a commit of twenty equal bytes, and whether its bytes are the text's.
pub fn digits(alloc: Global, mut words: Row<'_>) -> Result<String, RowFault> {
    let Some(byte) = words.byte_or_none()? else {
        return Err(RowFault::Unread);
    };
    let digits = Sha1Hex::from([byte; 20]);
    let text = digits.as_str();
    let is_text = digits.as_bytes().as_slice() == text.as_bytes();
    Ok(format!(in alloc; "{text} {is_text}")?)
}

/// `parse TEXT`: the digits that a text is, or nothing.
pub fn parse(alloc: Global, mut words: Row<'_>) -> Result<String, RowFault> {
    let text = words.text(alloc)?;
    Ok(match Sha1Hex::parse(text.as_str()) {
        Some(digits) => String::from_str(alloc, digits.as_str())?,
        None => String::from_str(alloc, "nothing")?,
    })
}

/// `commit HH TEXT`: whether the commit of twenty equal bytes is that of the digits.
pub fn commit(alloc: Global, mut words: Row<'_>) -> Result<String, RowFault> {
    let Some(byte) = words.byte_or_none()? else {
        return Err(RowFault::Unread);
    };
    let text = words.text(alloc)?;
    let Some(digits) = Sha1Hex::parse(text.as_str()) else {
        return Err(RowFault::Unread);
    };
    let is_commit = GitRevision::Raw([byte; 20]) == GitRevision::Hex(digits);
    Ok(format!(in alloc; "{is_commit}")?)
}
