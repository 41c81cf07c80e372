//! The real outside: output, files, and a folder in place of a server. None tells its contents.
//!
//! Promises: each object meets its trait, with its counts of faults, and keeps to its limits;
//! nothing is said about what a real file or stream holds.
//! Depends on the traits of `tame_names`, `tame_cache` and `tame_sparse`, and on std's files.
//!
//! ```ignore
//! let mut files = StdFiles::new(rt);
//! let mut wire = MirrorWire::new(rt, "index-mirror");
//! let mut disk = FileCacheDisk::new(rt, "index-cache");
//! let mut out = StdSink::new(io::writer(rt));
//! ```
#![tactic(auto)]

mod below;
mod cache_disk;
mod cache_folder;
mod calls;
mod folders;
mod listings;
mod locking;
mod making;
mod mirror;
mod reading;
mod std_files;
mod std_sink;
mod surroundings;
mod waiting;

pub use cache_disk::FileCacheDisk;
pub use cache_folder::CACHE_LIMIT;
pub use folders::folder_named;
pub use locking::LockFiles;
pub use mirror::{MIRROR_LIMIT, MirrorWire};
pub use std_files::StdFiles;
pub use std_sink::StdSink;
