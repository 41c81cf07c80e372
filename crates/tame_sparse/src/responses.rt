//! Responses of a server.
ghost use Rattle.std.specs.Prelude.{◌≡◌, option_map};
ghost use Rattle.http.specs.Response.{body_of, head_of};
ghost use Rattle.http_header.specs.HeaderMap.{get};
ghost use Rattle.tame_entry.specs.Revision.{http_value, revision_value};
ghost use Rattle.tame_sparse.specs.ResponseResults as results_spec;
ghost use Rattle.tame_sparse.specs.Sent as spec;

use crate::naming::is_visible;
use http::{HeaderMap, HeaderName, HeaderValue};
use tame_entry::{HttpRevision, Revision};
use tame_names::utf8_text;

/// A response, borrowed.
#[derive(Drop)]
pub struct Response<'r> {
    /// The status code (RFC 9110, section 15).
    pub status_code: u16,
    /// The revision of the body, if the response names one.
    pub revision: Option<HttpRevision<'r>>,
    /// The bytes of the body.
    pub body: &'r [u8],
}

/// The text of the first field of a name, if each of its bytes is tab or 32 to 126.
fn visible_value<'r>(headers: &'r HeaderMap<HeaderValue>, name: HeaderName) -> Option<&'r str>
    ensures { option_map (λ text. text.now) result ≡ spec.visible_value (get headers.now name) }
{
    match headers.get(name) {
        None => None,
        Some(value) => match value.to_str() {
            Ok(text) => Some(text),
            Err(_) => None,
        },
    }
}

fn sent_revision(headers: &HeaderMap<HeaderValue>) -> Option<HttpRevision<'_>>
    ensures { option_map http_value result ≡ spec.sent_revision headers.now }
{
    if let Some(etag) = visible_value(headers, HeaderName::from_static("etag")) {
        return Some(HttpRevision::Etag(etag));
    }
    match visible_value(headers, HeaderName::from_static("last-modified")) {
        Some(date) => Some(HttpRevision::LastModified(date)),
        None => None,
    }
}

impl<'r> Response<'r> {
    /// What a response says: its status, its entity tag, else its date, and its body. A field with
    /// a byte that isn't tab or 32 to 126 is no revision.
    pub fn of(value: &'r http::Response<Vec<u8>>) -> Response<'r>
        ensures status { result.status_code ≡ (head_of value.now).status }
        ensures revision { option_map http_value result.revision
            ≡ spec.sent_revision (head_of value.now).headers }
        ensures body { result.body.now ≡ (body_of value.now).items }
    {
        Response {
            status_code: value.status().as_u16(),
            revision: sent_revision(value.headers()),
            body: value.body().as_slice(),
        }
    }
}

/// The revision under which a body is stored.
pub fn stored_under(revision: Option<HttpRevision<'_>>) -> Revision<'_>
    ensures { revision_value result
        ≡ results_spec.stored_under (option_map http_value revision.entry) }
{
    match revision {
        Some(revision) => Revision::Http(revision),
        None => Revision::Unknown,
    }
}
