//! The cache: entries on a disk, stored so that no failed write and no crash leaves a readable lie.
//!
//! Promises: if only bodies that the server held are written under HTTP revisions, a file that is
//! readable under one is the entry of such a body, after each call and each crash.
//! Depends on the paths and locks of `tame_names`, the entries of `tame_entry`, and a disk that its
//! caller supplies. `MemCacheDisk` is one in memory, which fails and crashes on demand.
//!
//! ```ignore
//! // crates/uses/src/indexes.rt: newest_kept
//! let lock = FileLock::unlocked();
//! match cache.read_cache_file(alloc, name, &lock, disk)? {
//!     Some(entry) => {
//!         let krate = entry.deserialize(alloc)?;
//!         Ok(newest_of(alloc, &krate)?)
//!     }
//!     None => Ok(None),
//! }
//! ```
#![tactic(auto)]

mod cache;
mod calls;
mod changes;
mod counting;
mod crashing;
mod disk;
mod gating;
mod laws;
mod laying;
mod memory_disk;
mod memory_writes;
mod settling;
mod storing;
mod writing;

pub use cache::{CacheFault, IndexCache, Kept};
pub use disk::{CacheDisk, DiskCall, DiskFault, DiskReadFault, FailedDiskCall, Peek};
pub use gating::{close, open_gate};
pub use laws::{
    empty_is_kept, histories_keep, kept_for_more, refused_is_kept, shared_folders_stay_kept,
};
pub use laying::{lay, lay_lines, lay_piece};
pub use memory_disk::MemCacheDisk;
pub use settling::settle;
