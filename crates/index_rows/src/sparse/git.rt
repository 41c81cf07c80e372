//! Git indices and what they store.
use crate::fakes::fake_krate;
use row_fixtures::{Row, RowFault, asked, refused, shown, shown_word};
use std::alloc::Global;
use tame_cache::MemCacheDisk;
use tame_entry::{GitRevision, HttpRevision, IndexEntry, Revision, Sha1Hex};
use tame_names::{FileLock, KrateName, Text};
use tame_records::IndexKrate;
use tame_sparse::GitIndex;

/// `head (HH | -)`: sets the head to a commit of twenty equal bytes, or to none; the head as
/// digits, and whether it equals its bytes, and an entity tag.
pub fn head(alloc: Global, git: &mut GitIndex, mut words: Row<'_>) -> Result<String, RowFault> {
    let commit = words.byte_or_none()?.map(|byte| [byte; 20]);
    git.set_head_commit(commit);
    let (Some(head), Some(commit)) = (git.head_commit(), commit) else {
        let absent = git.head_commit().is_none();
        return Ok(format!(in alloc; "no head: {absent}")?);
    };
    let raw = Revision::Git(GitRevision::Raw(commit));
    let is_raw = raw == Revision::Git(GitRevision::Hex(*head));
    let is_tag = raw == Revision::Http(HttpRevision::Etag("x"));
    let head = head.as_str();
    Ok(format!(in alloc; "{head}; its bytes: {is_raw}; a tag: {is_tag}")?)
}

/// What storing a crate answers.
fn stored(
    alloc: Global,
    git: &GitIndex,
    krate: &IndexKrate,
    blob: Option<Sha1Hex>,
    disk: &mut MemCacheDisk,
) -> Result<String, RowFault> {
    if krate.versions.as_slice().is_empty() {
        return Err(RowFault::Unread);
    }
    let lock = FileLock::unlocked();
    match asked(alloc, git.write_to_cache(alloc, krate, blob, &lock, disk)) {
        Ok(None) => Ok(String::from_str(alloc, "nothing")?),
        Ok(Some(kept)) => Ok(format!(in alloc; "{kept:?}")?),
        Err(fault) => Err(fault),
    }
}

/// `store NAME VERSION (HH | -)`: stores a crate of one version, under a blob of twenty equal
/// bytes or under the head.
pub fn store(
    alloc: Global,
    git: &GitIndex,
    disk: &mut MemCacheDisk,
    mut words: Row<'_>,
) -> Result<String, RowFault> {
    let name = words.text(alloc)?;
    let version = words.text(alloc)?;
    let blob = words.byte_or_none()?.map(|byte| Sha1Hex::from([byte; 20]));
    match fake_krate(alloc, name.as_str(), version.as_str()) {
        Ok(krate) => stored(alloc, git, &krate, blob, disk),
        Err(fault) => Err(fault),
    }
}

/// The bytes of an entry behind the url of the index, of 44 bytes, and the zero byte behind that,
/// up to the end of its version's text.
fn front_of(alloc: Global, entry: &[u8]) -> Result<String, RowFault> {
    match entry.get(50..96) {
        Some(bytes) => Ok(shown(alloc, bytes)?),
        None => Ok(String::from_str(alloc, "short")?),
    }
}

/// The same of what is kept.
fn front_line(alloc: Global, entry: &Option<IndexEntry<'_, '_>>) -> Result<String, RowFault> {
    match entry {
        Some(IndexEntry::Cache(file, _url)) => front_of(alloc, file.as_slice()),
        _ => Ok(String::from_str(alloc, "nothing")?),
    }
}

/// The same of the file of a crate.
fn kept_front(
    alloc: Global,
    git: &GitIndex,
    name: KrateName<'_>,
    disk: &mut MemCacheDisk,
) -> Result<String, RowFault> {
    let lock = FileLock::unlocked();
    match git.cached_krate(alloc, name, &lock, disk) {
        Ok(entry) => front_line(alloc, &entry),
        Err(error) => Err(refused(alloc, &error)),
    }
}

/// `front NAME`: the bytes of a crate's file behind the url of the index, up to the end of its
/// version's text, and the path of the cache.
pub fn front(
    alloc: Global,
    git: &GitIndex,
    disk: &mut MemCacheDisk,
    mut words: Row<'_>,
) -> Result<String, RowFault> {
    let path = shown_word(alloc, git.cache().path().as_bytes())?;
    let front = kept_front(alloc, git, words.name(alloc)?, disk)?;
    Ok(format!(in alloc; "{front}; in {path}")?)
}

/// `git-url URL`: the git index of a url.
pub fn of_url(alloc: Global, mut words: Row<'_>) -> Result<String, RowFault> {
    let path = Text::of(alloc, "")?;
    let _index = asked(alloc, GitIndex::at(alloc, path, words.word()))?;
    Ok(String::from_str(alloc, "an index")?)
}
