//! The revisions that bodies are sent and kept under.
ghost use Rattle.std.specs.Prelude.{◌≡◌, ◌++◌, length, IfOk, OnOk};
ghost use Rattle.tame_names.specs.Output.{AddsPrefix, HasPutCause};
ghost use Rattle.tame_entry.specs.Entry as spec;
ghost use Rattle.tame_entry.specs.Revision.{IsFormed, commit_digits, entry_name, entry_value, equal_commits, equal_revisions, http_value, revision_value, stored_value, written_text};

use crate::raw::has_no_zero;
use crate::sha1::Sha1Hex;
use std::alloc::Global;
use std::fmt;
use tame_names::{NoMemory, Sink, SinkFault, Text, put_piece};

/// An HTTP revision of a body: its entity tag or its date (RFC 9110, sections 8.8.2 and 8.8.3).
#[derive(Debug, Drop, PartialEq, Eq)]
pub enum OwnedRevision {
    /// The entity tag, as it was sent.
    Etag(Text),
    /// The date of the last change, as it was sent.
    LastModified(Text),
}

/// An HTTP revision, borrowed.
#[derive(Clone, Copy, Debug)]
pub enum HttpRevision<'s> {
    /// The entity tag, as it was sent.
    Etag(&'s str),
    /// The date of the last change, as it was sent.
    LastModified(&'s str),
}

/// A commit of a git index: the bytes of its SHA-1, or their hex digits.
#[derive(Clone, Copy)]
pub enum GitRevision {
    /// The twenty bytes of the SHA-1.
    Raw([u8; 20]),
    /// The forty hex digits of the SHA-1.
    Hex(Sha1Hex),
}

/// What an entry of the cache was stored under.
#[derive(Clone, Copy)]
pub enum Revision<'s> {
    /// A revision that a server sent.
    Http(HttpRevision<'s>),
    /// A commit of a git index.
    Git(GitRevision),
    /// No revision is known.
    Unknown,
}

impl OwnedRevision {
    /// A copy of this revision.
    pub fn try_clone(&self, alloc: Global) -> Result<OwnedRevision, NoMemory>
        ensures { IfOk result (λ copy. copy ≡ self.now) }
    {
        match self {
            OwnedRevision::Etag(text) => Ok(OwnedRevision::Etag(text.try_clone(alloc)?)),
            OwnedRevision::LastModified(text) => {
                Ok(OwnedRevision::LastModified(text.try_clone(alloc)?))
            }
        }
    }

    /// This revision, borrowed.
    pub fn as_http(&self) -> HttpRevision<'_>
        ensures { http_value result ≡ self.now }
    {
        match self {
            OwnedRevision::Etag(text) => HttpRevision::Etag(text.as_str()),
            OwnedRevision::LastModified(text) => HttpRevision::LastModified(text.as_str()),
        }
    }
}

impl HttpRevision<'_> {
    /// A copy that owns its text.
    pub fn to_owned(&self, alloc: Global) -> Result<OwnedRevision, NoMemory>
        ensures { IfOk result (λ copy. copy ≡ http_value self.now) }
    {
        match self {
            HttpRevision::Etag(text) => Ok(OwnedRevision::Etag(Text::of(alloc, text)?)),
            HttpRevision::LastModified(text) => Ok(OwnedRevision::LastModified(Text::of(
                alloc, text,
            )?)),
        }
    }
}

impl GitRevision {
    /// The digits of the commit: those of its bytes in lower case, or those that were given.
    fn digits(&self) -> Sha1Hex
        ensures { result ≡ commit_digits self.now }
    {
        match self {
            GitRevision::Raw(bytes) => Sha1Hex::from(*bytes),
            GitRevision::Hex(digits) => *digits,
        }
    }
}

/// A revision with its text in an entry ready; the text of a commit is its digits.
#[derive(Clone, Copy)]
pub enum StoredRevision<'s> {
    /// An entity tag.
    Etag(&'s str),
    /// A date of the last change.
    LastModified(&'s str),
    /// The hex digits of a commit.
    Commit(Sha1Hex),
    /// No revision is known.
    Unknown,
}

impl StoredRevision<'_> {
    /// The name before its text in an entry, and what follows the name.
    pub(crate) fn parts(&self) -> (&'static str, &str)
        ensures name { result.0.now ≡ entry_name (stored_value self.now) }
        ensures value { result.1.now ≡ entry_value (stored_value self.now) }
        ensures formed { IsFormed (stored_value self.now) }
    {
        match self {
            StoredRevision::Etag(text) => ("etag: ", text),
            StoredRevision::LastModified(text) => ("last-modified: ", text),
            StoredRevision::Commit(digits) => ("", digits.as_str()),
            StoredRevision::Unknown => ("Unknown", ""),
        }
    }
}

/// Puts two pieces, the second after the first.
fn put_both<S: Sink>(sink: &mut S, first: &[u8], second: &[u8]) -> Result<u64, SinkFault>
    ensures put { S.tells → OnOk result
        (S.holds sink.new ≡ S.holds sink.old ++ first.now ++ second.now) }
    ensures part { S.tells → AddsPrefix (S.holds sink.old) (first.now ++ second.now)
        (S.holds sink.new) }
    ensures count { IfOk result (λ n. n ≡ length (first.now ++ second.now)) }
    ensures cause { HasPutCause (S.faults sink.old) (S.faults sink.new) result }
{
    put_piece(sink, first)?;
    put_piece(sink, second)?;
    Ok(first.len() as u64 + second.len() as u64)
}

fn both_without_zero(first: &[u8], second: &[u8]) -> bool
    ensures { result ≡ spec.has_no_zero (first.now ++ second.now) }
{
    has_no_zero(first) && has_no_zero(second)
}

impl<'s> Revision<'s> {
    /// This revision with its text ready. Needs no memory.
    pub fn stored(&self) -> StoredRevision<'s>
        ensures { stored_value result ≡ revision_value self.now }
    {
        match self {
            Revision::Http(HttpRevision::Etag(text)) => StoredRevision::Etag(text),
            Revision::Http(HttpRevision::LastModified(text)) => StoredRevision::LastModified(text),
            Revision::Git(commit) => StoredRevision::Commit(commit.digits()),
            Revision::Unknown => StoredRevision::Unknown,
        }
    }

    /// Writes the text of this revision in an entry, and returns the number of its bytes.
    pub fn write<S: Sink>(&self, sink: &mut S) -> Result<u64, SinkFault>
        ensures put { S.tells → OnOk result
            (S.holds sink.new ≡ S.holds sink.old ++ written_text self.now) }
        ensures part { S.tells → AddsPrefix (S.holds sink.old) (written_text self.now)
            (S.holds sink.new) }
        ensures count { IfOk result (λ n. n ≡ length (written_text self.now)) }
        ensures cause { HasPutCause (S.faults sink.old) (S.faults sink.new) result }
    {
        let stored = self.stored();
        let (name, value) = stored.parts();
        put_both(sink, name.as_bytes(), value.as_bytes())
    }

    /// Whether the text of this revision has no zero byte.
    pub fn has_no_zero(&self) -> bool
        ensures formed { IsFormed (revision_value self.now) }
        ensures tested { result ≡ spec.has_no_zero (written_text self.now) }
    {
        let stored = self.stored();
        let (name, value) = stored.parts();
        both_without_zero(name.as_bytes(), value.as_bytes())
    }
}

// ---- equal if their digits, or what they write, are equal

ghost use Rattle.std.proofs.Common.{rules};
ghost use Rattle.std.specs.Cmp.Rules.{comparing};

impl PartialEq for GitRevision {
    ghost eq = { equal_commits };

    ghost laws = { Prim.search (comparing, rules) };

    /// Whether the digits are equal; those of bytes are in lower case.
    fn eq(&self, other: &GitRevision) -> bool {
        let (one, two) = (self.digits(), other.digits());
        one.as_str() == two.as_str()
    }
}

impl Eq for GitRevision {
    ghost laws = { Prim.search (comparing, rules) };
}

impl PartialEq for Revision<'_> {
    ghost eq = { equal_revisions };

    ghost laws = { Prim.search (comparing, rules) };

    fn eq(&self, other: &Revision<'_>) -> bool {
        let (one, two) = (self.stored(), other.stored());
        let (name, value) = one.parts();
        let (other_name, other_value) = two.parts();
        name == other_name && value == other_value
    }
}

impl Eq for Revision<'_> {
    ghost laws = { Prim.search (comparing, rules) };
}

impl fmt::Debug for Revision<'_> {
    fn fmt<W: fmt::Write>(&self, f: &mut fmt::Formatter<W>) -> fmt::Result {
        let stored = self.stored();
        let (name, value) = stored.parts();
        f.write_str(name)?;
        match self {
            Revision::Http(_) => f.write_str(": ")?,
            _ => {}
        }
        f.write_str(value)
    }
}
