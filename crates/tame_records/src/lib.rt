//! Lines of a registry's index as records, digests, and the versions of a crate.
//!
//! Promises: a line reads exactly to its record, or has none; its version and flag are those of
//! the record, whichever way it is read; a body reads to the records of its lines; a version that
//! shares a part with another stays as it was; and the line that a version writes reads back to it.
//! Depends on the texts and names of `tame_names`, and on `serde_json`, `json`, `semver`, `hex`,
//! `itertools` and `thiserror`.
//!
//! ```ignore
//! // crates/uses/src/indexes.rt: newest_of
//! match krate.highest_normal_version(alloc)? {
//!     Some(newest) => Ok(Some(newest.version.try_clone(alloc)?)),
//!     None => Ok(None),
//! }
//! ```
#![tactic(auto)]

mod checksums;
mod dependencies;
mod features;
mod highest;
mod kept_parts;
mod keys;
mod krates;
mod laws;
mod line_faults;
mod lines;
mod members;
mod memory_errors;
mod part_orders;
mod quick_lists;
mod quick_texts;
mod quick_values;
mod quick_version_flags;
mod shared;
mod values;
mod version_flags;
mod versions;
mod writing;

pub use checksums::{Chksum, ChksumParseError, digests_are_digits, is_hex_text};
pub use dependencies::{DependencyKind, IndexDependency};
pub use features::FeatureIter;
pub use kept_parts::KeptParts;
pub use krates::IndexKrate;
pub use laws::optional_members_one_by_one;
pub use line_faults::LineFault;
pub use lines::trimmed;
pub use members::{FeatureMap, flag_or_false, text_or_null};
pub use memory_errors::is_memory;
pub use quick_version_flags::quick_version_flag;
pub use shared::Shared;
pub use values::read_value;
pub use version_flags::read_version_flag;
pub use versions::{IndexVersion, VersionFlag};
pub use writing::with_line;
