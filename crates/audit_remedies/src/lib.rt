//! What is done with the audit of a lockfile: it is reported, updates are started, or a plan, a
//! gate by a baseline, a baseline or a local registry is made of it; and why a run fails, with the
//! line that reports it.
//!
//! Promises: what is made is exactly that of its definition, or nothing for a reason; `out` and
//! `err` gain exactly its output; the steps of `fix` are started in order, each once; a fault has
//! its cause and its line.
//! Uses the crates of plans, baselines, registries and `fix`, and no real host: files, runner, disk
//! and sinks are traits.
//!
//! ```ignore
//! let made = make(alloc, &Remedy::Plan, &None, &auditor, &audited, &mut files, &lock, &mut disk)?;
//! finish(alloc, false, &sheet, &made, &mut runner, &mut out, &mut err)? // 0 or 1
//! ```
#![tactic(auto)]

mod fault_lines;
mod faults;
mod finishes;
mod fix_runs;
mod makings;
mod remedies;

pub use fault_lines::fault_line;
pub use faults::RunFault;
pub use finishes::finish;
pub use makings::{Made, make};
pub use remedies::Remedy;
