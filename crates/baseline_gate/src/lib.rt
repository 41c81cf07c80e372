//! Audits against a baseline of known findings, so that a build fails only on new ones.
//!
//! Promises: the findings of an audit are its vulnerabilities and then its warnings, one each; its
//! baseline is the set of them; `unlisted` is exactly those that a baseline doesn't list, in the
//! report's order; the gate's status is 1 if and only if there is one.
//! Depends on the findings and baselines of `known_findings`, and the audits of `audit_core` with
//! their reports (`audit_advisory`) and lockfiles (`audit_lock`).
//!
//! ```ignore
//! let known = Baseline::read(alloc, text)?;
//! let new = known.unlisted(alloc, &audited, &database)?;
//! let lines = finding_lines(alloc, new.as_slice())?;    // ["yanked","","old","1.0.0",""]
//! let status = gate_status(new.as_slice());             // 1 if there is such a line
//! ```
#![tactic(auto)]

mod audits;
mod gates;
mod laws;
mod reports;

pub use audits::AuditBaseline;
pub use gates::gate_status;
pub use known_findings::{
    Baseline, BaselineFault, BaselineWriteFault, Finding, FindingKind, finding_lines,
};
pub use laws::{each_entry_is_one_finding, gates_fail_on_new_findings_alone};
