//! Pieces, bodies of lines, digests and requests.
use row_fixtures::{RevisionWord, Row, RowFault, owned_text, shown_word};
use std::alloc::{AllocError, Global};
use tame_entry::JsonLines;
use tame_names::{split, utf8_text};
use tame_records::Chksum;
use tame_sparse::{Request, crates_io_request};

fn push_piece(alloc: Global, out: &mut String, piece: &[u8]) -> Result<(), AllocError> {
    let piece = shown_word(alloc, piece)?;
    write!(out, " {piece}")
}

/// `pieces BYTES`: the pieces between commas.
pub fn pieces(alloc: Global, mut words: Row<'_>) -> Result<String, RowFault> {
    let bytes = words.bytes(alloc)?;
    let mut out = String::from_str(alloc, "pieces:")?;
    for piece in split(bytes.as_slice(), b',') {
        push_piece(alloc, &mut out, piece)?;
    }
    Ok(out)
}

/// `lines BYTES`: whether a body's lines are JSON objects by their first and last bytes.
pub fn lines(alloc: Global, mut words: Row<'_>) -> Result<String, RowFault> {
    let bytes = words.bytes(alloc)?;
    Ok(match JsonLines::validate(bytes.as_slice()) {
        Ok(_) => String::from_str(alloc, "valid")?,
        Err(refused) => format!(in alloc; "{refused:?}")?,
    })
}

/// `utf8 BYTES`: whether bytes are a text.
pub fn utf8(alloc: Global, mut words: Row<'_>) -> Result<String, RowFault> {
    let bytes = words.bytes(alloc)?;
    let is_text = utf8_text(bytes.as_slice()).is_some();
    Ok(format!(in alloc; "{is_text}")?)
}

/// `digest TEXT`: a digest, with its first and its last byte, whether it is shown so, and its debug
/// text; or why it is none.
pub fn digest(alloc: Global, mut words: Row<'_>) -> Result<String, RowFault> {
    let digest = match Chksum::parse(words.word()) {
        Ok(digest) => digest,
        Err(refused) => return Ok(format!(in alloc; "{refused:?}: {refused}")?),
    };
    let text = digest.to_text(alloc)?;
    let (first, last) = (digest.0[0], digest.0[31]);
    let is_shown = format!(in alloc; "{digest}")?.as_str() == text.as_str();
    Ok(format!(in alloc; "{text} {first} {last} {is_shown} [{digest:?}]")?)
}

/// `debug TEXT`: the debug text of a digest where lines may be broken.
pub fn debug(alloc: Global, mut words: Row<'_>) -> Result<String, RowFault> {
    match Chksum::parse(words.word()) {
        Ok(digest) => Ok(format!(in alloc; "{digest:#?}")?),
        Err(_) => Err(RowFault::Unread),
    }
}

/// `digests TEXT TEXT`: whether two digests are equal; the second one is parsed by `FromStr`.
pub fn digests(alloc: Global, mut words: Row<'_>) -> Result<String, RowFault> {
    let (Ok(one), Ok(other)) = (Chksum::parse(words.word()), words.word().parse::<Chksum>()) else {
        return Err(RowFault::Unread);
    };
    let is_equal = one == other;
    Ok(format!(in alloc; "{is_equal}")?)
}

/// The url of a request, and what is named.
fn request_line(alloc: Global, request: &Request) -> Result<String, RowFault> {
    let named = owned_text(alloc, &request.named)?;
    Ok(format!(in alloc; "{} {named}", request.uri)?)
}

/// `request PATH`: the url of the index file of a path, and what is named.
pub fn request(alloc: Global, mut words: Row<'_>) -> Result<String, RowFault> {
    match crates_io_request(alloc, words.word()) {
        Ok(request) => request_line(alloc, &request),
        Err(_) => Err(RowFault::NoMemory),
    }
}

/// `clone REVISION`: whether a revision's copy equals it.
pub fn clone(alloc: Global, mut words: Row<'_>) -> Result<String, RowFault> {
    let Some(revision) = RevisionWord::of(alloc, words.word())?.owned(alloc)? else {
        return Err(RowFault::Unread);
    };
    let is_equal = revision.try_clone(alloc)? == revision;
    Ok(format!(in alloc; "{is_equal}")?)
}
