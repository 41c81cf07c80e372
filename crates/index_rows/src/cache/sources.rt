//! Index entries as words of a row.
use crate::cache::revisions::revision_of;
use row_fixtures::{INDEX_URL, RevisionWord, Row, RowFault, body_of, entry_of};
use std::alloc::Global;
use tame_entry::{IndexEntry, JsonLines, LockedMmap};
use tame_names::{FileLock, Text};

#[derive(Clone, Copy)]
enum Kind {
    Remote,
    Cache,
    Local,
}

/// Where an index entry comes from.
#[derive(Drop)]
pub struct Source {
    kind: Kind,
    bytes: Vec<u8>,
}

/// The entry of the words `REVISION BODY`.
pub fn written(alloc: Global, words: &mut Row<'_>) -> Result<Vec<u8>, RowFault> {
    let revision = RevisionWord::of(alloc, words.word())?;
    let body = body_of(alloc, words.word())?;
    entry_of(
        alloc,
        body.as_slice(),
        &revision_of(&revision, revision.http()),
    )
}

/// The entry of the words `REVISION BODY MORE`, with more bytes behind it.
fn grown(alloc: Global, words: &mut Row<'_>) -> Result<Vec<u8>, RowFault> {
    let mut bytes = written(alloc, words)?;
    bytes.extend_from_slice(words.bytes(alloc)?.as_slice())?;
    Ok(bytes)
}

impl Source {
    /// `remote BODY`, `local BODY`, `cache BYTES`, `kept REVISION BODY`, or
    /// `grown REVISION BODY MORE`.
    pub fn of(alloc: Global, mut words: Row<'_>) -> Result<Source, RowFault> {
        let (kind, bytes) = match words.word() {
            "remote" => (Kind::Remote, body_of(alloc, words.word())?),
            "local" => (Kind::Local, body_of(alloc, words.word())?),
            "cache" => (Kind::Cache, words.bytes(alloc)?),
            "kept" => (Kind::Cache, written(alloc, &mut words)?),
            "grown" => (Kind::Cache, grown(alloc, &mut words)?),
            _ => return Err(RowFault::Unread),
        };
        Ok(Source { kind, bytes })
    }

    /// The index entry.
    pub fn entry<'r, 'l>(
        &'r self,
        alloc: Global,
        lock: &'l FileLock,
    ) -> Result<IndexEntry<'r, 'l>, RowFault> {
        let bytes = self.bytes.as_slice();
        match self.kind {
            Kind::Remote => match JsonLines::validate(bytes) {
                Ok(lines) => Ok(IndexEntry::Remote(lines)),
                Err(_) => Err(RowFault::Unread),
            },
            Kind::Cache => Ok(IndexEntry::Cache(
                LockedMmap::of(bytes.to_vec(alloc)?, lock),
                Text::of(alloc, INDEX_URL)?,
            )),
            Kind::Local => Ok(IndexEntry::Local(LockedMmap::of(bytes.to_vec(alloc)?, lock))),
        }
    }
}
