//! Local registries: an index in a folder, crate files next to it, and what builds and checks them.
//!
//! Promises: a registry is validated exactly if each of its crate files has the digest of its
//! record; a builder changes the files that it says, and no others; a refusal has its exact reason.
//! Depends on the files of `tame_names`, the records of `tame_records`, the entries of
//! `tame_entry`, the caches of `tame_sparse`, and on `sha2` and `bytes`.
//!
//! ```ignore
//! // crates/uses/src/indexes.rt: versions_in
//! let index = LocalIndex::open(alloc, files, Text::of(alloc, registry)?)?;
//! let lock = FileLock::unlocked();
//! match index.krate(alloc, files, name, &lock)? {
//!     Some(entry) => Ok(Some(entry.deserialize(alloc)?)),
//!     None => Ok(None),
//! }
//! ```
#![tactic(auto)]

mod builders;
mod combos;
mod crate_files;
mod digests;
mod faults;
mod file_digests;
mod indexes;
mod laws;
mod listings;
mod reading;
mod registries;
mod validating;

pub use builders::LocalRegistryBuilder;
pub use combos::ComboIndexCache;
pub use crate_files::crate_file_components;
pub use digests::{StreamFault, ValidKrate, validate_checksum};
pub use indexes::LocalIndex;
pub use laws::{crate_file_names_give_back, inserted_crates_stay_valid, registries_begin_empty};
pub use registries::LocalRegistry;
