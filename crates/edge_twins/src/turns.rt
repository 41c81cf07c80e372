//! What an audit does for a crate, for each wire and disk alike: a request that names what is kept,
//! an exchange, and what is kept of the answer.
use crate::standing::{push_bytes, said};
use std::alloc::Global;
use std::io;
use tame_cache::{CacheDisk, CacheFault, IndexCache, Kept};
use tame_entry::{CacheWrite, HttpRevision, IndexEntry, JsonLines, Revision};
use tame_names::{Error, FileLock, KrateName};
use tame_sparse::{Request, Response, SparseIndex, Wire, WireAnswer, WireFault};

/// The crate of a turn, and its index.
#[derive(Clone, Copy)]
pub struct Krate<'a> {
    pub index: &'a SparseIndex,
    pub name: KrateName<'a>,
}

/// Why a call on an index gave nothing.
#[derive(Clone, Copy, Debug, PartialEq, Eq)]
pub enum Refusal {
    Disk,
    Lines,
    Status,
    Memory,
    Other,
}

fn refusal_of(error: &Error) -> Refusal {
    match error {
        Error::Io(_) => Refusal::Disk,
        Error::InvalidJsonLines(_) => Refusal::Lines,
        Error::Http(_) => Refusal::Status,
        Error::NoMemory => Refusal::Memory,
        _ => Refusal::Other,
    }
}

/// A refusal as a text.
pub fn refused(alloc: Global, refusal: Refusal) -> io::Result<String> {
    Ok(format!(in alloc; "refused: {refusal:?}")?)
}

/// An entry that was handed out.
fn entry_text(alloc: Global, entry: &Option<IndexEntry<'_, '_>>) -> io::Result<String> {
    match entry {
        None => said(alloc, "nothing"),
        Some(IndexEntry::Cache(file, _)) => {
            let mut text = said(alloc, "kept ")?;
            push_bytes(alloc, &mut text, file.as_slice())?;
            Ok(text)
        }
        Some(_) => said(alloc, "sent"),
    }
}

fn response_of(answer: &WireAnswer) -> Response<'_> {
    let revision = match &answer.revision {
        Some(revision) => Some(revision.as_http()),
        None => None,
    };
    Response {
        status_code: answer.status,
        revision,
        body: answer.body.as_slice(),
    }
}

/// Takes an answer, and keeps what was sent.
fn taken<D: CacheDisk>(
    alloc: Global,
    krate: Krate<'_>,
    disk: &mut D,
    answer: &WireAnswer,
) -> io::Result<String> {
    let lock = FileLock::unlocked();
    let response = response_of(answer);
    let index = krate.index;
    match index.parse_remote_response(alloc, krate.name, response, true, &lock, disk) {
        Ok(entry) => entry_text(alloc, &entry),
        Err(error) => refused(alloc, refusal_of(&error)),
    }
}

/// What becomes of an exchange.
pub fn answered<D: CacheDisk>(
    alloc: Global,
    krate: Krate<'_>,
    disk: &mut D,
    answer: Result<WireAnswer, WireFault>,
) -> io::Result<String> {
    match answer {
        Ok(answer) => {
            let text = taken(alloc, krate, disk, &answer)?;
            Ok(format!(in alloc; "{}, {text}", answer.status)?)
        }
        Err(_) => said(alloc, "no answer"),
    }
}

/// The request for a crate, or what stands in its way.
pub fn requested<D: CacheDisk>(
    alloc: Global,
    krate: Krate<'_>,
    disk: &mut D,
) -> Result<Request, Refusal> {
    let lock = FileLock::unlocked();
    match krate
        .index
        .make_remote_request(alloc, krate.name, None, &lock, disk)
    {
        Ok(request) => Ok(request),
        Err(error) => Err(refusal_of(&error)),
    }
}

/// A turn of a crate, by a wire in memory.
pub fn audited<W: Wire, D: CacheDisk>(
    alloc: Global,
    krate: Krate<'_>,
    wire: &mut W,
    disk: &mut D,
) -> io::Result<String> {
    match requested(alloc, krate, disk) {
        Ok(request) => {
            let answer = wire.exchange(alloc, &request);
            answered(alloc, krate, disk, answer)
        }
        Err(refusal) => refused(alloc, refusal),
    }
}

/// What is kept of a crate.
pub fn fetched<D: CacheDisk>(alloc: Global, krate: Krate<'_>, disk: &mut D) -> io::Result<String> {
    let lock = FileLock::unlocked();
    match krate.index.cached_krate(alloc, krate.name, &lock, disk) {
        Ok(entry) => entry_text(alloc, &entry),
        Err(error) => refused(alloc, refusal_of(&error)),
    }
}

/// The revision of a number.
fn revision_of(number: u64) -> Revision<'static> {
    match number % 4 {
        0 => Revision::Http(HttpRevision::LastModified("Thu, 01 Jan 1970 00:00:00 GMT")),
        1 => Revision::Http(HttpRevision::Etag("\"x\"")),
        2 => Revision::Http(HttpRevision::Etag("W/\"y\"")),
        _ => Revision::Unknown,
    }
}

fn kept<D: CacheDisk>(
    alloc: Global,
    cache: &IndexCache,
    name: KrateName<'_>,
    disk: &mut D,
    lines: JsonLines<'_>,
    revision: &Revision<'_>,
) -> &'static str {
    let lock = FileLock::unlocked();
    let written = CacheWrite::Remote(lines);
    match cache.write_to_cache(alloc, name, written, revision, &lock, disk) {
        Ok(Kept::Written) => "written",
        Ok(Kept::NotStored) => "not stored",
        Err(CacheFault::Disk) => "fault",
        Err(CacheFault::NoMemory) => "no memory",
    }
}

/// Writes the entry of a body under the revision of a number.
pub fn stored<D: CacheDisk>(
    alloc: Global,
    krate: Krate<'_>,
    disk: &mut D,
    body: &[u8],
    number: u64,
) -> io::Result<String> {
    let revision = revision_of(number);
    match JsonLines::validate(body) {
        Ok(lines) => {
            let word = kept(
                alloc,
                krate.index.cache(),
                krate.name,
                disk,
                lines,
                &revision,
            );
            said(alloc, word)
        }
        Err(_) => said(alloc, "no lines"),
    }
}
