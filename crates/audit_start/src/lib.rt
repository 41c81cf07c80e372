//! What the program does before its run: it finds its folders, takes the lock of the cache, and
//! says why it can't start.
//!
//! Promises: the folders are those that the variables name; the lock is the one that the arguments
//! call for, taken in its order, and nothing else of the host changes; each fault has its status
//! and its line. Laws: the lock suffices for what the run does with the cache, and runs under such
//! locks are a history.
//! Uses `audit_program` for what arguments ask for, and `tame_location` for locks. Files and
//! standard error are traits; arguments, standard streams and links are the system's.
//!
//! ```ignore
//! let start = begin(alloc, arguments, &mut files)?;
//! let lock = take_cache_lock(alloc, &start, is_plain, &mut files, &mut err)?;
//! ```
#![tactic(auto)]

mod faults;
mod folders;
mod laws;
mod locking;
mod needs;
mod starting;
mod system;

pub use faults::{FolderVariable, StartFault, refuse};
pub use laws::{locks_suffice, runs_at_once_are_a_history, runs_at_once_match_the_server};
pub use locking::take_cache_lock;
pub use starting::{Start, begin};
pub use system::{closed_streams, given_arguments, is_plain};
