//! A registry's sparse index: what is asked of it, what it answers, and what the cache keeps of
//! that. A git index has only the cache.
//!
//! Promises: a request asks for the file of a crate at the url of the index, and names the revision
//! that the cache holds; an answer gives the lines that it sent, or at 304 those of the cache; over
//! an honest server a kept cache stays kept; an index of a location has its folder and its url.
//! Depends on `tame_names`, the locations of `tame_location`, `tame_records`, `tame_entry` and the
//! cache of `tame_cache`, the requests of `http`, and a wire that its caller brings, of which
//! `MemWire` is one in memory.
//!
//! ```ignore
//! // crates/uses/src/indexes.rt: newest_sent
//! let lock = FileLock::unlocked();
//! match index.parse_remote_response(alloc, name, response, true, &lock, disk)? {
//!     Some(entry) => {
//!         let krate = entry.deserialize(alloc)?;
//!         Ok(newest_of(alloc, &krate)?)
//!     }
//!     None => Ok(None),
//! }
//! ```
#![tactic(auto)]

mod configs;
mod etags;
mod git;
mod headers;
mod laws;
mod located;
mod memory_wire;
mod naming;
mod network;
mod responses;
mod serving;
mod sparse;
mod taking;
mod urls;

pub use etags::EtagCache;
pub use git::GitIndex;
pub use laws::{cases_share_places, served_exchanges_are_honest};
pub use memory_wire::{MemWire, Scripted};
pub use network::{
    Exchange, Representation, Request, Wire, WireAnswer, WireFault, crates_io_request,
};
pub use responses::Response;
pub use serving::{Held, ServeWire};
pub use sparse::SparseIndex;
pub use tame_location::{CRATES_IO_HTTP_INDEX, CRATES_IO_INDEX};
