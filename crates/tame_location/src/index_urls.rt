//! Urls of indices.
ghost use Rattle.std.specs.Prelude.{◌≡◌};
ghost use Rattle.tame_location.specs.IndexUrls.{url_text};
ghost use Rattle.tame_location.specs.IndexUrls as spec;

use crate::texts::begins_with;
use std::borrow::CowStr;
use tame_names::Text;

/// The sparse index of crates.io.
pub const CRATES_IO_HTTP_INDEX: &str = "sparse+https://index.crates.io/";

/// The index of crates.io in a git repository.
pub const CRATES_IO_INDEX: &str = "https://github.com/rust-lang/crates.io-index";

/// Whether a url is one of an index that uses the sparse protocol (Cargo Book, "Registry Index").
pub fn is_sparse_url(url: &str) -> bool
    ensures { result ≡ spec.is_sparse_url url.now }
{
    begins_with(url, "sparse+http")
}

/// The url of an index.
#[derive(Debug, Drop)]
pub enum IndexUrl<'u> {
    /// The sparse index of crates.io.
    CratesIoSparse,
    /// The index of crates.io in a git repository.
    CratesIoGit,
    /// Another index: sparse if its url begins with `sparse+http`, else in a git repository.
    NonCratesIo(CowStr<'u>),
    /// The path of a local registry.
    Local(Text),
}

impl<'u> IndexUrl<'u> {
    /// The url as text; for a local registry its path.
    pub fn as_str(&self) -> &str
        ensures { result.now ≡ url_text self.now }
    {
        match self {
            IndexUrl::CratesIoSparse => CRATES_IO_HTTP_INDEX,
            IndexUrl::CratesIoGit => CRATES_IO_INDEX,
            IndexUrl::NonCratesIo(url) => url.as_str(),
            IndexUrl::Local(path) => path.as_str(),
        }
    }

    /// Whether it uses the sparse protocol.
    pub fn is_sparse(&self) -> bool
        ensures { result ≡ spec.is_sparse self.now }
    {
        match self {
            IndexUrl::CratesIoSparse => true,
            IndexUrl::NonCratesIo(url) => is_sparse_url(url.as_str()),
            IndexUrl::CratesIoGit | IndexUrl::Local(_) => false,
        }
    }
}

impl<'u> Default for IndexUrl<'u> {
    ghost use Rattle.tame_location.specs.declared.index_urls.IndexUrl.TheVariants.{CratesIoSparse};

    ghost is_default = { λ url. url ≡ CratesIoSparse };

    fn default() -> IndexUrl<'u> {
        IndexUrl::CratesIoSparse
    }
}

impl<'u> From<&'u str> for IndexUrl<'u> {
    ghost use Rattle.std.specs.declared.borrow.CowStr.TheVariants.{Borrowed};
    ghost use Rattle.tame_location.specs.declared.index_urls.IndexUrl.TheVariants.{NonCratesIo};

    ghost from_gives = { λ text url. url ≡ NonCratesIo (Borrowed text) };

    fn from(text: &'u str) -> IndexUrl<'u> {
        IndexUrl::NonCratesIo(CowStr::Borrowed(text))
    }
}
