//! A day's job with each crate that a caller from outside would take up: short functions that the
//! page on the libraries quotes.
//!
//! Promises: each answers exactly what its contract says, in the words of the crates that it calls.
//! Stands on the crates `tame_names` to `tame_local` (indexes.rt), and on `audit_lock`,
//! `audit_advisory`, `audit_settings`, `audit_core` and `audit_report` (audits.rt).
//!
//! ```ignore
//! let newest = newest(alloc, body)?;                // of the lines of a crate
//! let url = download_url(alloc, config, name, "1.0.0")?;
//! let count = vulnerability_count(alloc, &auditor, text, &mut wire, &mut disk)?;
//! ```
#![tactic(auto)]

mod audits;
mod indexes;

pub use audits::{
    exit_of_lockfile, is_hit, offline_settings, print_audit, put_trees, vulnerability_count,
};
pub use indexes::{
    download_url, entry_of_body, folder_below, newest, newest_kept, newest_of, newest_sent,
    path_in_index, request_for, status_in, status_in_body, versions_in,
};
