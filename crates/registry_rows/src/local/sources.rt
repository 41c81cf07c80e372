//! Names of crate files, and digests of bytes.
use bytes::Bytes;
use row_fixtures::{Row, RowFault, asked, plain_bytes, refused};
use std::alloc::{AllocError, Global};
use tame_local::{ValidKrate, crate_file_components, validate_checksum};
use tame_names::{Items, MemSource};
use tame_records::{Chksum, IndexKrate, IndexVersion};

/// The digest of the bytes `abc`.
pub const ABC: &str = "ba7816bf8f01cfea414140de5dae2223b00361a396177a9cb410ff61f20015ad";

/// `parts FILE`
pub fn parts(alloc: Global, mut row: Row<'_>) -> Result<String, RowFault> {
    match crate_file_components(row.text(alloc)?.as_str()) {
        Some((name, version)) => Ok(format!(in alloc; "'{name}' '{version}'")?),
        None => Ok(String::from_str(alloc, "none")?),
    }
}

/// The digest that a word names, `ABC` that of the bytes `abc`.
fn digest_of(word: &str) -> Result<Chksum, RowFault> {
    match Chksum::parse(if word == "ABC" { ABC } else { word }) {
        Ok(digest) => Ok(digest),
        Err(_) => Err(RowFault::Unread),
    }
}

/// `sum N BYTES DIGEST FAILING`
pub fn sum(alloc: Global, mut row: Row<'_>) -> Result<String, RowFault> {
    let pieces = row.word();
    let bytes = Items::of(row.bytes(alloc)?);
    let digest = digest_of(row.word())?;
    let mut source = MemSource::new(bytes, Items::of(row.numbers(alloc)?));
    let answer = match pieces {
        "1" => validate_checksum::<1, MemSource>(&mut source, &digest),
        "8192" => validate_checksum::<8192, MemSource>(&mut source, &digest),
        _ => return Err(RowFault::Unread),
    };
    let left = source.left().len();
    Ok(format!(in alloc; "{answer:?}, {left} bytes left")?)
}

/// Adds the line of a version.
fn push_line(body: &mut String, name: &str, number: &str) -> Result<(), AllocError> {
    write!(
        body,
        "{{\"name\":\"{name}\",\"vers\":\"{number}\",\"deps\":[],\
        \"cksum\":\"{ABC}\",\"features\":{{}},\"yanked\":false}}\n"
    )
}

/// The lines of versions, each a word `NAME@VERSION`, with commas between them.
fn lines_of(alloc: Global, versions: &str) -> Result<String, RowFault> {
    let mut body = String::new(alloc);
    for version in versions.split(',') {
        let Some((name, number)) = version.split_once('@') else {
            return Err(RowFault::Unread);
        };
        push_line(&mut body, name, number)?;
    }
    Ok(body)
}

/// The versions of a crate, each a word `NAME@VERSION`, with commas between them; or its lines,
/// where a word begins as one.
pub fn krate_of(alloc: Global, versions: &str) -> Result<IndexKrate, RowFault> {
    let body = if versions.starts_with('{') {
        plain_bytes(alloc, versions)?
    } else {
        lines_of(alloc, versions)?.into_bytes()
    };
    asked(alloc, IndexKrate::from_slice(alloc, body.as_slice()))
}

/// Bytes that may be shared.
pub fn shared(alloc: Global, bytes: &[u8]) -> Result<Bytes, RowFault> {
    match Bytes::from_vec(Vec::from_slice(alloc, bytes)?) {
        Ok(bytes) => Ok(bytes),
        Err(_) => Err(RowFault::NoMemory),
    }
}

/// Whether bytes are those of the first version.
fn valid_line(alloc: Global, versions: &[IndexVersion], bytes: &[u8]) -> Result<String, RowFault> {
    let Some(first) = versions.first() else {
        return Err(RowFault::Unread);
    };
    let bytes = shared(alloc, bytes)?;
    match &ValidKrate::validate(alloc, bytes, first) {
        Ok(valid) => Ok(format!(in alloc; "{} bytes", valid.bytes().len())?),
        Err(error) => Err(refused(alloc, error)),
    }
}

/// `valid VERSIONS BYTES`
pub fn valid(alloc: Global, mut row: Row<'_>) -> Result<String, RowFault> {
    let versions = row.word();
    let bytes = row.bytes(alloc)?;
    match krate_of(alloc, versions) {
        Ok(krate) => valid_line(alloc, krate.versions.as_slice(), bytes.as_slice()),
        Err(fault) => Err(fault),
    }
}
