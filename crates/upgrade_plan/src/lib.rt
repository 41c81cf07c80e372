//! For a vulnerable package, the least safe version, from what the cache keeps of its crate.
//!
//! Promises: the version is the lowest of the candidates, or there is none, or the reason why a
//! package has no records is given; nothing is asked, and no file changes. After an audit over an
//! honest server, the version follows from what the server held.
//! Depends on the index of a registry (`tame_names` to `tame_sparse`), the lockfiles of
//! `audit_lock`, the advisories of `audit_advisory`, the audits of `audit_core`, the words of
//! `report_parts`, and `semver`.
//!
//! ```ignore
//! let least = least_safe(alloc, &database, &settings, &package, &krate)?;
//! let items = plan(alloc, &audited, &database, &index, &lock, &mut disk)?;
//! let lines = plan_lines(alloc, packages, items.as_slice())?;    // "a" 1.0.0 to 1.2.1
//! let status = plan_status(items.as_slice());
//! ```
#![tactic(auto)]

mod candidates;
mod laws;
mod lines;
mod offers;
mod plans;
mod records;
mod safest;
mod vulnerable;

pub use laws::{
    files_have_the_records_of_bodies, plans_tell_what_the_server_held, records_say_what_lines_say,
    vulnerable_packages_are_hit,
};
pub use lines::{plan_lines, plan_status};
pub use plans::{PlanItem, PlanOutcome, plan};
pub use records::NoRecord;
pub use safest::least_safe;
