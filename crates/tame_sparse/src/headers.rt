//! The header fields of a request.
ghost use Rattle.std.specs.Prelude.{◌≡◌, ◌≢◌, ◌⊎◌, ◌≤◌, ◌+◌, [], ◌∷◌, ◌++◌, true, false, codes, length, IfOk, IfErr, OnOk, Ok, Err};
ghost use Rattle.http.specs.Request.{head_of};
ghost use Rattle.http.specs.declared.version.TheConstants.Version.{HTTP_11};
ghost use Rattle.http_header.specs.FieldValue.{is_visible_text, plain_value};
ghost use Rattle.http_header.specs.HeaderMap.{append, append_all, value_count};
ghost use Rattle.http_uri.specs.Uri.{Spells, SpellsNone};
ghost use Rattle.tame_sparse.specs.Conditions.{fields};
ghost use Rattle.tame_sparse.specs.Conditions as spec;

use crate::naming::is_visible;
use crate::network::Request;
use http::header::{HeaderMapError, HeaderValueError};
use http::request::Parts;
use http::uri::UriError;
use http::{HeaderMap, HeaderName, HeaderValue, Method, Uri};
use std::alloc::Global;
use tame_entry::OwnedRevision;
use tame_names::{Error, HttpError, NoMemory};

fn condition_name(named: &Option<OwnedRevision>) -> HeaderName
    ensures { result ≡ spec.condition_name named.now }
{
    match named {
        Some(OwnedRevision::LastModified(_)) => HeaderName::from_static("if-modified-since"),
        Some(OwnedRevision::Etag(_)) => HeaderName::from_static("if-none-match"),
        None => HeaderName::from_static("if-none-match"),
    }
}

fn condition_text(named: &Option<OwnedRevision>) -> &str
    ensures { result.now ≡ spec.condition_text named.now }
{
    match named {
        Some(OwnedRevision::Etag(text)) => text.as_str().trim(),
        Some(OwnedRevision::LastModified(text)) => text.as_str().trim(),
        None => "",
    }
}

/// A field's value. `Http(InvalidHeaderValue)` if a byte isn't tab or 32 to 126.
fn visible_value(alloc: Global, text: &str) -> Result<HeaderValue, Error>
    ensures ok { IfOk result (λ value. (value ≡ plain_value text.now)
        × (is_visible_text text.now ≡ true)) }
    ensures refused { IfErr result
        (λ e. (e ≡ Error.NoMemory)
        ⊎ ((e ≡ Error.Http HttpError.InvalidHeaderValue) × (is_visible_text text.now ≡ false))) }
{
    if !is_visible(text.as_bytes()) {
        return Err(Error::Http(HttpError::InvalidHeaderValue));
    }
    match HeaderValue::from_str(alloc, text) {
        Ok(value) => Ok(value),
        Err(HeaderValueError::Invalid) => unreachable!(),
        Err(HeaderValueError::OutOfMemory) => Err(Error::NoMemory),
    }
}

/// Adds a field to one or two others, or to none.
fn add_field(
    fields: &mut HeaderMap<HeaderValue>,
    name: HeaderName,
    value: HeaderValue,
) -> Result<(), NoMemory>
    requires few { value_count fields.old ≤ 2 }
    requires fewer { length fields.old ≤ 2 }
    ensures added { OnOk result (fields.new ≡ append fields.old name value) }
    ensures count { OnOk result (value_count fields.new ≤ value_count fields.old + 1) }
    ensures names { OnOk result (length fields.new ≤ length fields.old + 1) }
{
    match fields.append(name, value) {
        Ok(_) => Ok(()),
        Err(HeaderMapError::MaxSizeReached) => unreachable!(),
        Err(HeaderMapError::OutOfMemory) => Err(NoMemory),
    }
}

/// The three fields of a request, with this value of the last one.
fn field_map(
    alloc: Global,
    named: &Option<OwnedRevision>,
    value: HeaderValue,
) -> Result<HeaderMap<HeaderValue>, NoMemory>
    requires { value ≡ plain_value (spec.condition_text named.now) }
    ensures { IfOk result (λ map. map ≡ append_all [] (fields named.now)) }
{
    let mut map = HeaderMap::new(alloc);
    let protocol = HeaderName::from_static("cargo-protocol");
    add_field(&mut map, protocol, HeaderValue::from_static("version=1"))?;
    let accept = HeaderName::from_static("accept");
    add_field(&mut map, accept, HeaderValue::from_static("text/plain"))?;
    add_field(&mut map, condition_name(named), value)?;
    Ok(map)
}

/// The target in a string (RFC 3986); `Http(Http)` if there is none.
fn target(alloc: Global, text: &str) -> Result<Uri, Error>
    ensures ok { IfOk result (Spells text.now) }
    ensures refused { IfErr result
        (λ e. (e ≡ Error.NoMemory) ⊎ ((e ≡ Error.Http HttpError.Http) × SpellsNone text.now)) }
{
    match Uri::from_str(alloc, text) {
        Ok(uri) => Ok(uri),
        Err(UriError::Invalid(_)) => Err(Error::Http(HttpError::Http)),
        Err(UriError::OutOfMemory) => Err(Error::NoMemory),
    }
}

impl Request {
    /// The three header fields: the protocol's version, that plain text is wanted, and the revision
    /// that need not be sent again, trimmed of white space, or the empty text if nothing is named.
    /// `Http(InvalidHeaderValue)` if a byte of that text isn't tab or 32 to 126.
    pub fn headers(&self, alloc: Global) -> Result<[(HeaderName, HeaderValue); 3], Error>
        ensures ok { IfOk result (λ hs. (hs ≡ fields self.now.named)
            × (is_visible_text (spec.condition_text self.now.named) ≡ true)) }
        ensures refused { IfErr result
            (λ e. (e ≡ Error.NoMemory)
            ⊎ ((e ≡ Error.Http HttpError.InvalidHeaderValue)
            × (is_visible_text (spec.condition_text self.now.named) ≡ false))) }
    {
        let value = visible_value(alloc, condition_text(&self.named))?;
        Ok([
            (
                HeaderName::from_static("cargo-protocol"),
                HeaderValue::from_static("version=1"),
            ),
            (
                HeaderName::from_static("accept"),
                HeaderValue::from_static("text/plain"),
            ),
            (condition_name(&self.named), value),
        ])
    }

    /// The request of `http`: a GET of the url by HTTP/1.1 with the three header fields.
    /// `Http(InvalidHeaderValue)` as `headers`, and then `Http(Http)` if the url is no target.
    pub fn into_http(self, alloc: Global) -> Result<http::Request<()>, Error>
        ensures method { IfOk result (λ request. (head_of request).method ≡ codes "GET") }
        ensures version { IfOk result (λ request. (head_of request).version ≡ HTTP_11) }
        ensures uri { IfOk result (λ request. Spells self.uri (head_of request).uri) }
        ensures headers { IfOk result (λ request. (head_of request).headers
            ≡ append_all [] (fields self.named)) }
        ensures visible { OnOk result (is_visible_text (spec.condition_text self.named) ≡ true) }
        ensures refused { IfErr result
            (λ e. (e ≡ Error.NoMemory)
            ⊎ (((e ≡ Error.Http HttpError.InvalidHeaderValue)
            × (is_visible_text (spec.condition_text self.named) ≡ false))
            ⊎ ((e ≡ Error.Http HttpError.Http)
            × (is_visible_text (spec.condition_text self.named) ≡ true) × SpellsNone self.uri))) }
    {
        let value = visible_value(alloc, condition_text(&self.named))?;
        let mut parts = Parts::new(alloc);
        parts.method = Method::GET;
        parts.uri = target(alloc, self.uri.as_str())?;
        parts.headers = field_map(alloc, &self.named, value)?;
        Ok(http::Request::from_parts(parts, ()))
    }
}
