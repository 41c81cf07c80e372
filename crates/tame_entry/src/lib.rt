//! The lines of a crate in the index, what they say about a version, the revisions that they are
//! sent and kept under, and the entries of the cache as bytes.
//!
//! Promises: an entry is written exactly as its definition says. If the url of its index, its
//! revision and its lines have no zero byte, it is read back as these, only for that index. A file
//! that is no entry is refused, by the first rule that it breaks. The entry of lines is given in
//! pieces of 4,096 bytes, which need no memory.
//! Depends on the texts, names and sinks of `tame_names`, on the records of `tame_records`, and on
//! `serde_json`, `json`, `semver`, `hex` and `memchr`.
//!
//! ```ignore
//! // crates/uses/src/indexes.rt: entry_of_body
//! let lines = JsonLines::validate(body)?;
//! let revision = Revision::Http(HttpRevision::Etag(tag));
//! Ok(CacheWrite::Remote(lines).entry(alloc, index, &revision)?)
//! ```
#![tactic(auto)]

mod config;
mod entries;
mod entry_pieces;
mod index_entries;
mod iterating;
mod json_lines;
mod krates;
mod laws;
mod prefixes;
mod raw;
mod revisions;
mod scan;
mod sha1;
mod version_status;
mod writes;

pub use config::{IndexConfig, configs_compare, version_url};
pub use entries::{CURRENT_CACHE_VERSION, INDEX_V_MAX, ValidCacheEntry};
pub use entry_pieces::{EntryPieces, PIECE_LEN};
pub use index_entries::{IndexEntry, IndexEntryVersion, LockedMmap};
pub use iterating::IndexEntryIter;
pub use json_lines::JsonLines;
pub use laws::{
    entries_read_as_bodies, entries_read_back, last_record_decides, markers_are_replaced_in_place,
    other_entries_are_refused, readable_entries_are_joined, revisions_are_read_by_name,
    written_lines_are_scanned,
};
pub use prefixes::without_prefix;
pub use revisions::{GitRevision, HttpRevision, OwnedRevision, Revision, StoredRevision};
pub use sha1::{HexBytes, Sha1Hex};
pub use version_status::{
    VersionStatus, read_item_version_flags, read_version_flags, status_among,
};
pub use writes::CacheWrite;
