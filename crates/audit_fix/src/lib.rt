//! What `cargo audit fix` plans, starts and prints for the vulnerabilities of an audit, and the
//! status that it ends with; and errors as cargo-audit reports them.
//!
//! Promises: plan, lines and status are those of the definitions; each step is started once, in
//! order, and each failed start is counted.
//! Depends on the audits of `audit_core` and the trait `Runner` of `audit_asked`.
//!
//! ```ignore
//! let plan = FixPlan::of(alloc, &audited, &database, false)?;
//! let statuses = start_steps(alloc, &plan, &mut runner)?; // update --package old@0.1.4
//! let status = fix_status(&audited, &plan, false, failed_starts(statuses.as_slice()));
//! ```
#![tactic(auto)]

mod endings;
mod errors;
mod lines;
mod plans;
mod remedies;
mod steps;

pub use endings::fix_status;
pub use errors::{Error, ErrorKind, display_err_with_source};
pub use lines::fix_lines;
pub use plans::{FixPlan, FixStep};
pub use steps::{failed_starts, start_steps};
