//! What a user reads of an audit: its report for a terminal, as JSON or as SARIF, the lines that
//! sum it up, and status lines.
//!
//! Promises: the bytes put are a function of the presenter, the report, the advisories and the
//! packages; a refusal leaves the presenter as it was; JSON and SARIF read back to what they say.
//! Depends on the sinks of `tame_names`, on `audit_lock`, `audit_advisory`, `report_parts` and
//! `audit_sarif`.
//!
//! ```text
//! Crate:     tiny-json
//! Version:   0.9.1
//! Title:     Deep input
//! ```
//!
//! ```ignore
//! // crates/uses/src/audits.rt: print_audit
//! let mut presenter = Presenter::new(alloc, config)?;
//! presenter.before_report(alloc, err, "Cargo.lock", &audited.lockfile)?;
//! presenter.print_report(
//!     alloc,
//!     out,
//!     err,
//!     &audited.report,
//!     database,
//!     &audited.lockfile,
//!     None,
//! )
//! ```
#![tactic(auto)]

mod affected;
mod binaries;
mod block_puts;
mod blocks;
mod documents;
mod findings;
mod laws;
mod listed;
mod objects;
mod pages;
mod presenters;
mod self_reports;
mod settings;
mod shown_trees;
mod status_lines;
mod summaries;
mod symbols;
mod tree_puts;

pub use binaries::Found;
pub use laws::{each_tree_stands_once, kept_paths_are_symbols_with_gaps};
pub use presenters::Presenter;
pub use status_lines::{
    binary_line_in, push_loaded, push_unchecked, push_updating, scanning_line_in,
};
pub use symbols::{Filtered, SymbolSet};
