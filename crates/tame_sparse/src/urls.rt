//! The addresses of indices.
ghost use Rattle.std.specs.Prelude.{◌≡◌, unwrap_or};
ghost use Rattle.tame_sparse.specs.Urls as spec;

use tame_entry::without_prefix;

/// A url without the prefix that marks it as one of a sparse index.
pub fn http_url(url: &str) -> &str
    ensures { result.now ≡ spec.http_url url.now }
{
    without_prefix(url, "sparse+").unwrap_or(url)
}
