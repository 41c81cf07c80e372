//! Index lines of fixture crates, their cache entries, and lockfiles.
use crate::escapes::plain_bytes;
use crate::faults::RowFault;
use std::alloc::{AllocError, Global};
use tame_entry::{CacheWrite, HttpRevision, JsonLines, Revision};

/// The digest that fixture lines have.
pub const DIGEST: &str = "0000000000000000000000000000000000000000000000000000000000000000";

/// The url of the index whose entries fixtures are.
pub const INDEX_URL: &str = "sparse+https://index.crates.io/";

/// The index line of a version.
pub fn index_line(
    alloc: Global,
    name: &str,
    version: &str,
    yanked: bool,
) -> Result<String, AllocError> {
    format!(in alloc;
        "{{\"name\":\"{name}\",\"vers\":\"{version}\",\"deps\":[],\
        \"cksum\":\"{DIGEST}\",\"features\":{{}},\"yanked\":{yanked}}}"
    )
}

/// The line of version 0.1.0 of the crate `a` with a flag, and a newline.
pub fn flagged_body(alloc: Global, yanked: bool) -> Result<String, AllocError> {
    let mut body = index_line(alloc, "a", "0.1.0", yanked)?;
    body.push_str("\n")?;
    Ok(body)
}

/// The cache entry of a body under a revision, in the index at `INDEX_URL`. `Unread` where the
/// body's lines aren't objects.
pub fn entry_of(alloc: Global, body: &[u8], revision: &Revision<'_>) -> Result<Vec<u8>, RowFault> {
    match JsonLines::validate(body) {
        Ok(lines) => Ok(CacheWrite::Remote(lines).entry(alloc, INDEX_URL, revision)?),
        Err(_) => Err(RowFault::Unread),
    }
}

/// The cache entry of the line with a flag: of the yanked one under the tag `x`, else under `y`.
pub fn flagged_entry(alloc: Global, yanked: bool) -> Result<Vec<u8>, RowFault> {
    let body = flagged_body(alloc, yanked)?;
    let tag = if yanked { "x" } else { "y" };
    entry_of(
        alloc,
        body.as_bytes(),
        &Revision::Http(HttpRevision::Etag(tag)),
    )
}

/// Adds the index line of a version that is written `NAME@VERSION:FLAG`, where the flag is
/// `yanked` or `unyanked`; `{}` and the word of no bytes as they are.
fn push_version(alloc: Global, body: &mut String, version: &str) -> Result<(), RowFault> {
    if version.is_empty() || version == "{}" {
        return Ok(body.push_str(version)?);
    }
    let Some((name, rest)) = version.split_once('@') else {
        return Err(RowFault::Unread);
    };
    let line = match rest.split_once(':') {
        Some((number, "yanked")) => index_line(alloc, name, number, true)?,
        Some((number, "unyanked")) => index_line(alloc, name, number, false)?,
        _ => return Err(RowFault::Unread),
    };
    Ok(body.push_str(line.as_str())?)
}

/// The index lines of versions, each written `NAME@VERSION:FLAG`, with a newline for each comma.
fn versions_body(alloc: Global, versions: &str) -> Result<String, RowFault> {
    let mut body = String::new(alloc);
    let mut is_first = true;
    for version in versions.split(',') {
        if !is_first {
            body.push_str("\n")?;
        }
        is_first = false;
        push_version(alloc, &mut body, version)?;
    }
    Ok(body)
}

/// The body that a word names: `YANKED` and `UNYANKED` are the lines of version 0.1.0 of the crate
/// `a` with a newline, and `=NAME@VERSION:FLAG,..` the lines of versions, with a newline for each
/// comma; any other word is the bytes that it stands for.
pub fn body_of(alloc: Global, word: &str) -> Result<Vec<u8>, RowFault> {
    match word {
        "YANKED" => Ok(flagged_body(alloc, true)?.into_bytes()),
        "UNYANKED" => Ok(flagged_body(alloc, false)?.into_bytes()),
        _ => match word.strip_prefix('=') {
            Some(versions) => Ok(versions_body(alloc, versions)?.into_bytes()),
            None => plain_bytes(alloc, word),
        },
    }
}

/// Adds a package of the default registry to a lockfile.
fn push_package(text: &mut String, name: &str, version: &str) -> Result<(), AllocError> {
    write!(
        text,
        "\n[[package]]\nname = \"{name}\"\nversion = \"{version}\"\n\
        source = \"registry+https://github.com/rust-lang/crates.io-index\"\n"
    )
}

/// A lockfile of packages of the default registry, each a word `NAME@VERSION`; none of `-`.
pub fn lockfile_of(alloc: Global, packages: &str) -> Result<String, RowFault> {
    let mut text = String::from_str(alloc, "version = 4\n")?;
    if packages == "-" {
        return Ok(text);
    }
    for package in packages.split(' ') {
        match package.split_once('@') {
            Some((name, version)) => push_package(&mut text, name, version)?,
            None => return Err(RowFault::Unread),
        }
    }
    Ok(text)
}
