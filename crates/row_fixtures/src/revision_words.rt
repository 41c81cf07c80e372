//! Revisions as words of a row.
use crate::escapes::{plain_text, shown};
use crate::faults::RowFault;
use std::alloc::Global;
use tame_entry::{GitRevision, HttpRevision, OwnedRevision, Revision, Sha1Hex};
use tame_names::Text;

/// A revision as it is written in a row: `etag:TEXT`, `date:TEXT`, `raw:HH` and `hex:HH` for a
/// commit of twenty equal bytes, `unknown`, and `-` for none.
#[derive(Drop)]
pub enum RevisionWord {
    /// The text of an entity tag.
    Etag(String),
    /// The text of a date.
    Date(String),
    /// The byte of a commit that is given by its bytes.
    Raw(u8),
    /// The byte of a commit that is given by its hex digits.
    Hex(u8),
    /// The unknown revision.
    Unknown,
    /// No revision.
    Absent,
}

fn commit_byte(word: &str) -> Result<u8, RowFault> {
    match u8::from_str_radix(word, 16) {
        Ok(byte) => Ok(byte),
        Err(_) => Err(RowFault::Unread),
    }
}

impl RevisionWord {
    /// The revision that a word stands for.
    pub fn of(alloc: Global, word: &str) -> Result<RevisionWord, RowFault> {
        let Some((kind, text)) = word.split_once(':') else {
            return match word {
                "-" => Ok(RevisionWord::Absent),
                "unknown" => Ok(RevisionWord::Unknown),
                _ => Err(RowFault::Unread),
            };
        };
        match kind {
            "etag" => Ok(RevisionWord::Etag(plain_text(alloc, text)?)),
            "date" => Ok(RevisionWord::Date(plain_text(alloc, text)?)),
            "raw" => Ok(RevisionWord::Raw(commit_byte(text)?)),
            "hex" => Ok(RevisionWord::Hex(commit_byte(text)?)),
            _ => Err(RowFault::Unread),
        }
    }

    /// The revision of HTTP; nothing where it is none.
    pub fn http(&self) -> Option<HttpRevision<'_>> {
        match self {
            RevisionWord::Etag(text) => Some(HttpRevision::Etag(text.as_str())),
            RevisionWord::Date(text) => Some(HttpRevision::LastModified(text.as_str())),
            _ => None,
        }
    }

    /// The revision; the unknown one where there is none.
    pub fn revision(&self) -> Revision<'_> {
        match self {
            RevisionWord::Etag(text) => Revision::Http(HttpRevision::Etag(text.as_str())),
            RevisionWord::Date(text) => Revision::Http(HttpRevision::LastModified(text.as_str())),
            RevisionWord::Raw(byte) => Revision::Git(GitRevision::Raw([*byte; 20])),
            RevisionWord::Hex(byte) => Revision::Git(GitRevision::Hex(Sha1Hex::from([*byte; 20]))),
            RevisionWord::Unknown | RevisionWord::Absent => Revision::Unknown,
        }
    }

    /// The revision of HTTP as a value of its own; nothing where it is none.
    pub fn owned(&self, alloc: Global) -> Result<Option<OwnedRevision>, RowFault> {
        match self {
            RevisionWord::Etag(text) => Ok(Some(OwnedRevision::Etag(Text::of(
                alloc,
                text.as_str(),
            )?))),
            RevisionWord::Date(text) => {
                Ok(Some(OwnedRevision::LastModified(Text::of(alloc, text.as_str())?)))
            }
            _ => Ok(None),
        }
    }
}

/// A revision of HTTP as it is written in a row.
pub fn owned_text(alloc: Global, revision: &Option<OwnedRevision>) -> Result<String, RowFault> {
    let (kind, text) = match revision {
        None => return Ok(String::from_str(alloc, "nothing")?),
        Some(OwnedRevision::Etag(text)) => ("etag", text),
        Some(OwnedRevision::LastModified(text)) => ("date", text),
    };
    let text = shown(alloc, text.as_str().as_bytes())?;
    Ok(format!(in alloc; "{kind}:{text}")?)
}
