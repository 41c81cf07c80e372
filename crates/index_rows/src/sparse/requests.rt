//! Requests, their header fields, and the places of an index.
use http::{HeaderName, HeaderValue, Request as HttpRequest};
use row_fixtures::{
    RevisionWord, Row, RowFault, asked, crates_io_index, disk_failing, shown, shown_word,
};
use std::alloc::Global;
use tame_names::{FileLock, KrateName, MemFiles, Text};
use tame_sparse::{Request, SparseIndex, cases_share_places};

/// The request for a crate, of which nothing is kept.
fn request_of(
    alloc: Global,
    index: &SparseIndex,
    name: KrateName<'_>,
    revision: &RevisionWord,
) -> Result<Request, RowFault> {
    let lock = FileLock::unlocked();
    let mut disk = disk_failing(alloc, Vec::new(alloc));
    asked(
        alloc,
        index.make_remote_request(alloc, name, revision.http(), &lock, &mut disk),
    )
}

/// Adds a header field.
fn push_field(
    alloc: Global,
    out: &mut String,
    name: &HeaderName,
    value: &HeaderValue,
) -> Result<(), RowFault> {
    let value = shown_word(alloc, value.as_bytes())?;
    let name = name.as_str();
    Ok(write!(out, "; {name} {value}")?)
}

fn fields_line(alloc: Global, fields: &[(HeaderName, HeaderValue); 3]) -> Result<String, RowFault> {
    let mut out = String::new(alloc);
    for (name, value) in fields {
        push_field(alloc, &mut out, name, value)?;
    }
    Ok(out)
}

/// The header fields of a request.
fn fields_of(alloc: Global, request: &Request) -> Result<String, RowFault> {
    match asked(alloc, request.headers(alloc)) {
        Ok(fields) => fields_line(alloc, &fields),
        Err(fault) => Err(fault),
    }
}

/// The url, the path and the header fields of a request.
fn asked_line(alloc: Global, request: &Request) -> Result<String, RowFault> {
    let fields = fields_of(alloc, request)?;
    Ok(format!(in alloc; "{} {}{fields}", request.uri, request.path)?)
}

/// `ask NAME REVISION`: the url, the path and the header fields of a request.
pub fn ask(alloc: Global, index: &SparseIndex, mut words: Row<'_>) -> Result<String, RowFault> {
    let name = words.name(alloc)?;
    let revision = RevisionWord::of(alloc, words.word())?;
    match request_of(alloc, index, name, &revision) {
        Ok(request) => asked_line(alloc, &request),
        Err(fault) => Err(fault),
    }
}

/// The condition of a request as a value of HTTP.
fn condition_of(alloc: Global, carried: &HttpRequest<()>) -> Result<String, RowFault> {
    Ok(match carried.headers().get("if-none-match") {
        Some(value) => shown_word(alloc, value.as_bytes())?,
        None => String::from_str(alloc, "nothing")?,
    })
}

/// The method of a request as a value of HTTP, its path, how many fields it has, and its condition.
fn parts_of(alloc: Global, carried: &HttpRequest<()>) -> Result<String, RowFault> {
    let condition = condition_of(alloc, carried)?;
    let method = carried.method().as_str();
    let path = carried.uri().path();
    let count = carried.headers().len();
    Ok(format!(in alloc; "{method} {path}; {count} fields; if-none-match {condition}")?)
}

/// A request as a value of HTTP.
fn carried(alloc: Global, request: Request) -> Result<String, RowFault> {
    match asked(alloc, request.into_http(alloc)) {
        Ok(carried) => parts_of(alloc, &carried),
        Err(fault) => Err(fault),
    }
}

/// `carry NAME REVISION`: the request for a crate as a value of HTTP.
pub fn carry(alloc: Global, index: &SparseIndex, mut words: Row<'_>) -> Result<String, RowFault> {
    let name = words.name(alloc)?;
    let revision = RevisionWord::of(alloc, words.word())?;
    match request_of(alloc, index, name, &revision) {
        Ok(request) => carried(alloc, request),
        Err(fault) => Err(fault),
    }
}

/// `send URL`: a request for a url as a value of HTTP.
pub fn send(alloc: Global, mut words: Row<'_>) -> Result<String, RowFault> {
    let request = Request {
        uri: Text::of(alloc, words.word())?,
        path: Text::of(alloc, "1/a")?,
        named: None,
    };
    carried(alloc, request)
}

/// `place NAME`: the url of a crate's file, and the path of its cache file.
pub fn place(alloc: Global, index: &SparseIndex, mut words: Row<'_>) -> Result<String, RowFault> {
    let name = words.name(alloc)?;
    let url = index.crate_url(alloc, name)?;
    let path = index.cache().cache_path(alloc, name)?;
    Ok(format!(in alloc; "{url} {path}")?)
}

/// `sparse URL`: the url of the sparse index of a url.
pub fn sparse(alloc: Global, mut words: Row<'_>) -> Result<String, RowFault> {
    let path = Text::of(alloc, "")?;
    match asked(alloc, SparseIndex::at(alloc, path, words.word())) {
        Ok(index) => Ok(String::from_str(alloc, index.url())?),
        Err(fault) => Err(fault),
    }
}

/// Where the configuration of an index says that crates are.
fn config_line(
    alloc: Global,
    index: &SparseIndex,
    files: &mut MemFiles,
) -> Result<String, RowFault> {
    match asked(alloc, index.index_config(alloc, files)) {
        Ok(config) => Ok(shown(alloc, config.dl.as_str().as_bytes())?),
        Err(fault) => Err(fault),
    }
}

/// `config`: where the configuration of the index in the folder `index` says that crates are.
pub fn config(alloc: Global, files: &mut MemFiles) -> Result<String, RowFault> {
    match crates_io_index(alloc, "index") {
        Ok(index) => config_line(alloc, &index, files),
        Err(fault) => Err(fault),
    }
}

/// `laws`: the law that names which differ in case alone share a place.
pub fn laws(alloc: Global) -> Result<String, RowFault> {
    cases_share_places();
    Ok(String::from_str(alloc, "hold")?)
}
