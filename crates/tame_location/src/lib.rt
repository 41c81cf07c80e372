//! Where cargo keeps its files: its home, the folders of indices, which index a registry has, and
//! the locks of files.
//!
//! Promises: a folder, a url and an index are what a url, the variables, the settings and the
//! current folder give, or the exact reason why they are unknown; a lock is held exactly if the
//! last step on it took it. Depends on the host `Files`, the paths and the errors of `tame_names`,
//! on `toml_tables`, and on `toml`, `semver` and `hex`.
//!
//! ```text
//! CARGO_HOME=/c            cargo_home          /c
//! neither is set           cargo_home          Error::Io, with IoKind::NoHome
//! https://github.com/A/b/  canonicalize_url    https://github.com/a/b
//! https://x.example/a      url_to_local_dir    x.example- and 16 digits
//! ```
//!
//! ```ignore
//! // crates/uses/src/indexes.rt: folder_below
//! let root = Text::of(alloc, root)?;
//! let mut location = IndexLocation::new(IndexUrl::from(url)).with_root(Some(root));
//! location.cargo_version = Some(parse_cargo_semver(alloc, cargo)?);
//! location.into_parts(alloc, files, ident)
//! ```
#![tactic(auto)]

mod configs;
mod examples;
mod folders;
mod homes;
mod idents;
mod index_urls;
mod locations;
mod lock_options;
mod locks;
mod lookups;
mod places;
mod registries;
mod settings;
mod sip_hash;
mod texts;
mod urls;
mod versions;
mod walks;

pub use examples::{folder_examples, sip_hash_examples, url_examples};
pub use folders::{UrlDir, get_index_details, url_to_local_dir};
pub use homes::cargo_home;
pub use idents::{Ident, KnownIdent, TableIdent};
pub use index_urls::{CRATES_IO_HTTP_INDEX, CRATES_IO_INDEX, IndexUrl, is_sparse_url};
pub use locations::{IndexLocation, IndexPath};
pub use lock_options::LockOptions;
pub use sip_hash::sip_hash_2_4;
pub use urls::{canonicalize_url, refused_url};
pub use versions::parse_cargo_semver;
