//! What a run asks of its host before it audits: the settings, the lockfile's path, the
//! advisories, a baseline and the lockfile's text; for audits of binaries the settings and the
//! advisories.
//!
//! Promises: an answer or a refusal is that of the definition over what the host has; at most one
//! call failed, and it is one that may end a run in this way.
//! Depends on the host `Files` of `tame_names`, the home of `tame_location`, the readers of
//! `audit_lock`, `audit_advisory`, `audit_settings` and `known_findings`.
//!
//! ```ignore
//! let asked = ask(alloc, &command, None, &mut files, &mut runner)?; // or an AskFault
//! let lockfile = asked.text.as_str();                               // of the file at asked.place
//! ```
#![tactic(auto)]

mod advisories;
mod asking;
mod binaries;
mod databases;
mod faults;
mod homes;
mod known;
mod listings;
mod places;
mod runners;
mod settings;
mod texts;

pub use asking::{Asked, ask};
pub use binaries::{AskedForBinaries, ask_for_binaries};
pub use faults::AskFault;
pub use places::{LocateError, generate, locate_or_generate};
pub use runners::{MemRunner, NoRunner, Runner, StartFault, Started};
pub use texts::TEXT_LIMIT;
