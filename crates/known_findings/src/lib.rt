//! Findings of audits as lines of text, and baselines, which are sets of them.
//!
//! Promises: a finding and its line give each other; a text reads to its baseline, or its first
//! line that is no finding is named; what a baseline writes is read as that baseline, and two
//! baselines are equal exactly if what they write is. Depends on the strings, lists and sinks of
//! `tame_names`, and on `serde_json` and `json`.
//!
//! ```ignore
//! let baseline = Baseline::read(alloc, text)?;
//! let known = baseline.has(alloc, &finding)?;
//! baseline.write(alloc, &mut out)?;    // ["notice","A-1","old","1.0.0",""]
//! ```
#![tactic(auto)]

mod baselines;
mod cuts;
mod findings;
mod laws;
mod listings;
mod reading;
mod searching;

pub use baselines::{Baseline, BaselineFault, BaselineWriteFault, finding_lines};
pub use findings::{Finding, FindingKind};
pub use laws::{
    baselines_are_sets, findings_are_arrays_of_five_texts, first_broken_line_is_named,
    lines_tell_findings, written_bytes_tell_baselines,
};
