//! What a request names.
ghost use Rattle.std.specs.Prelude.{◌≡◌, ◌≢◌, Ok, Err, Some, IfOk, IfErr};
ghost use Rattle.http_header.specs.FieldValue.{is_visible_text};
ghost use Rattle.tame_entry.specs.Revision.{http_value, revision_text};
ghost use Rattle.tame_sparse.specs.Named.{handed};
ghost use Rattle.tame_sparse.specs.Named as spec;

use std::alloc::Global;
use tame_entry::{HttpRevision, IndexEntry, OwnedRevision, Revision};
use tame_names::{Error, HttpError, NoMemory};

/// Whether each byte of a text is tab or 32 to 126, as in a field's value (RFC 9110, section 5.5).
pub fn is_visible(text: &[u8]) -> bool
    ensures { result ≡ is_visible_text text.now }
{
    text.iter().all(|b| *b == b'\t' || (*b >= 32 && *b < 127))
}

/// A revision with its text trimmed of white space.
fn trimmed(revision: HttpRevision<'_>) -> HttpRevision<'_>
    ensures { http_value result ≡ spec.trimmed (http_value revision.entry) }
{
    match revision {
        HttpRevision::Etag(text) => HttpRevision::Etag(text.trim()),
        HttpRevision::LastModified(text) => HttpRevision::LastModified(text.trim()),
    }
}

fn text_of(revision: HttpRevision<'_>) -> &str
    ensures { result.now ≡ revision_text (http_value revision.entry) }
{
    match revision {
        HttpRevision::Etag(text) => text,
        HttpRevision::LastModified(text) => text,
    }
}

fn unless_empty(
    alloc: Global,
    revision: HttpRevision<'_>,
) -> Result<Option<OwnedRevision>, NoMemory>
    ensures { IfOk result (λ named. named ≡ spec.unless_empty (http_value revision.entry)) }
{
    if text_of(revision).is_empty() {
        return Ok(None);
    }
    Ok(Some(revision.to_owned(alloc)?))
}

/// What may be named of an HTTP revision.
fn named_http(alloc: Global, revision: HttpRevision<'_>) -> Result<Option<OwnedRevision>, NoMemory>
    ensures { IfOk result (λ named. named ≡ spec.named_http (http_value revision.entry)) }
{
    let revision = trimmed(revision);
    if !is_visible(text_of(revision).as_bytes()) {
        return Ok(None);
    }
    unless_empty(alloc, revision)
}

/// What may be named of what a read of the cache gave.
pub fn named_entry(
    alloc: Global,
    entry: &IndexEntry<'_, '_>,
) -> Result<Option<OwnedRevision>, NoMemory>
    ensures { IfOk result (λ named. named ≡ spec.named_entry entry.now) }
{
    match entry.cached() {
        Ok(Some(valid)) => match valid.revision {
            Revision::Http(revision) => named_http(alloc, revision),
            Revision::Git(_) | Revision::Unknown => Ok(None),
        },
        Ok(None) => Ok(None),
        Err(_) => Ok(None),
    }
}

/// What a given revision names. `Http(InvalidHeaderValue)` if its trimmed text has a byte that
/// isn't tab or 32 to 126.
pub fn named_handed(
    alloc: Global,
    revision: HttpRevision<'_>,
) -> Result<Option<OwnedRevision>, Error>
    ensures ok { IfOk result (λ named. handed (http_value revision.entry) ≡ Ok named) }
    ensures refused { IfErr result
        (λ e. e ≢ Error.NoMemory → handed (http_value revision.entry) ≡ Err e) }
{
    let revision = trimmed(revision);
    if !is_visible(text_of(revision).as_bytes()) {
        return Err(Error::Http(HttpError::InvalidHeaderValue));
    }
    Ok(unless_empty(alloc, revision)?)
}
