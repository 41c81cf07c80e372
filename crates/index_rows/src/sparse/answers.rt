//! What an index makes of answers, and what it stores of them.
use http::{HeaderValue, Response as HttpResponse};
use row_fixtures::{
    INDEX_URL, RevisionWord, Row, RowFault, body_of, disk_failing, refused, shown, shown_word, told,
};
use std::alloc::Global;
use tame_cache::MemCacheDisk;
use tame_entry::{HttpRevision, IndexEntry, Revision, ValidCacheEntry};
use tame_names::{FileLock, Items, MemSink};
use tame_sparse::{Response, SparseIndex};

/// Where an index entry comes from, if there is one.
fn kind_of(entry: &Option<IndexEntry<'_, '_>>) -> &'static str {
    match entry {
        None => "nothing",
        Some(IndexEntry::Remote(_lines)) => "lines",
        Some(_entry) => "file",
    }
}

/// What an answer for the crate `a` is taken as.
fn taken(
    alloc: Global,
    index: &SparseIndex,
    response: Response<'_>,
    write: bool,
    disk: &mut MemCacheDisk,
) -> Result<&'static str, RowFault> {
    let name = Row::of("a").name(alloc)?;
    let lock = FileLock::unlocked();
    match index.parse_remote_response(alloc, name, response, write, &lock, disk) {
        Ok(entry) => Ok(kind_of(&entry)),
        Err(error) => Err(refused(alloc, &error)),
    }
}

/// The text of a revision.
fn revision_text(alloc: Global, revision: &Revision<'_>) -> Result<String, RowFault> {
    let mut sink = MemSink::new(alloc, Items::new(alloc));
    match revision.write(&mut sink) {
        Ok(_) => Ok(shown(alloc, sink.bytes())?),
        Err(_) => Err(RowFault::NoMemory),
    }
}

/// What an entry is kept under.
fn kept_under(alloc: Global, entry: &[u8]) -> Result<String, RowFault> {
    match ValidCacheEntry::read(entry, INDEX_URL) {
        Ok(entry) => revision_text(alloc, &entry.revision),
        Err(_) => Ok(String::from_str(alloc, "refused")?),
    }
}

/// What an entry is kept under, if one is.
fn kept_line(alloc: Global, entry: &Option<IndexEntry<'_, '_>>) -> Result<String, RowFault> {
    match entry {
        Some(IndexEntry::Cache(file, _url)) => kept_under(alloc, file.as_slice()),
        _ => Ok(String::from_str(alloc, "nothing")?),
    }
}

/// What the entry of the crate `a` is kept under.
fn kept(alloc: Global, index: &SparseIndex, disk: &mut MemCacheDisk) -> Result<String, RowFault> {
    let name = Row::of("a").name(alloc)?;
    let lock = FileLock::unlocked();
    match index.cached_krate(alloc, name, &lock, disk) {
        Ok(entry) => kept_line(alloc, &entry),
        Err(error) => Err(refused(alloc, &error)),
    }
}

/// `give STATUS REVISION BODY (store | leave)`: what an answer for the crate `a` is taken as.
pub fn give(
    alloc: Global,
    index: &SparseIndex,
    disk: &mut MemCacheDisk,
    mut words: Row<'_>,
) -> Result<String, RowFault> {
    let status = words.status()?;
    let revision = RevisionWord::of(alloc, words.word())?;
    let body = body_of(alloc, words.word())?;
    let write = words.is("store", "leave")?;
    let response = Response {
        status_code: status,
        revision: revision.http(),
        body: body.as_slice(),
    };
    let taken = taken(alloc, index, response, write, disk)?;
    Ok(String::from_str(alloc, taken)?)
}

/// What an answer is taken as over a disk, and what is kept then.
fn taken_and_kept(
    alloc: Global,
    index: &SparseIndex,
    disk: &mut MemCacheDisk,
    words: Row<'_>,
) -> Result<String, RowFault> {
    let taken = told(alloc, give(alloc, index, disk, words))?;
    let kept = kept(alloc, index, disk)?;
    Ok(format!(in alloc; "{taken}; kept {kept}")?)
}

/// `take FAILING` and the words of `give`: the same over a new disk, and what is kept then.
pub fn take(alloc: Global, index: &SparseIndex, mut words: Row<'_>) -> Result<String, RowFault> {
    let failing = words.numbers(alloc)?;
    taken_and_kept(alloc, index, &mut disk_failing(alloc, failing), words)
}

fn header(alloc: Global, bytes: &[u8]) -> Result<HeaderValue, RowFault> {
    match HeaderValue::from_bytes(alloc, bytes) {
        Ok(value) => Ok(value),
        Err(_) => Err(RowFault::Unread),
    }
}

/// A response with these two header fields.
fn with_fields(
    alloc: Global,
    etag: HeaderValue,
    date: HeaderValue,
) -> Result<HttpResponse<Vec<u8>>, RowFault> {
    let mut response = HttpResponse::new(alloc, Vec::new(alloc));
    let headers = response.headers_mut();
    if headers.insert("etag", etag).is_err() || headers.insert("last-modified", date).is_err() {
        return Err(RowFault::NoMemory);
    }
    Ok(response)
}

/// The revision of a response.
fn sent_line(alloc: Global, response: &HttpResponse<Vec<u8>>) -> Result<String, RowFault> {
    let (kind, text) = match Response::of(response).revision {
        None => return Ok(String::from_str(alloc, "nothing")?),
        Some(HttpRevision::Etag(text)) => ("etag", text),
        Some(HttpRevision::LastModified(text)) => ("date", text),
    };
    let text = shown_word(alloc, text.as_bytes())?;
    Ok(format!(in alloc; "{kind} {text}")?)
}

/// `sent ETAG DATE`: the revision of a response with these header fields.
pub fn sent(alloc: Global, mut words: Row<'_>) -> Result<String, RowFault> {
    let etag = words.bytes(alloc)?;
    let date = words.bytes(alloc)?;
    let etag = header(alloc, etag.as_slice())?;
    let date = header(alloc, date.as_slice())?;
    match with_fields(alloc, etag, date) {
        Ok(response) => sent_line(alloc, &response),
        Err(fault) => Err(fault),
    }
}
