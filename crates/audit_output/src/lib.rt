//! What a run prints: the output of the audits of a lockfile and of binaries, on standard output
//! (`out`) and standard error (`err`), and the lines of verdicts.
//!
//! Promises: `out` and `err` gain exactly the text that the definition gives for what is shown and
//! how; if a put failed, the first part of it.
//! Depends on the presenter of `audit_report` and the audits of `audit_core` and `audit_binaries`.
//!
//! ```ignore
//! print(alloc, verdicts, &sheet, &mut out, &mut err)?; // or a PrintFault
//! ```
#![tactic(auto)]

mod binary_lines;
mod binary_printing;
mod judged_lines;
mod lockfile_words;
mod outputs;
mod presenting;
mod printing;
mod putting;

pub use binary_printing::{BinarySheet, print_binaries};
pub use lockfile_words::{push_lockfile_words, push_numbered, push_package, push_two};
pub use printing::{AuditSheet, print};
pub use putting::{PrintFault, print_text, put_text};
