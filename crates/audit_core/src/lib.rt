//! The audit of a lockfile: its report, and which of its versions are yanked.
//!
//! Promises: report and exit are those of advisories, settings and verdicts; online the verdicts
//! are the table's over what the server held, with one exchange for each distinct path; a cache
//! that was kept stays kept.
//! Depends on the registry's index (`tame_names` to `tame_sparse`), and on the lockfiles,
//! advisories and settings of `audit_lock`, `audit_advisory` and `audit_settings`.
//!
//! ```ignore
//! // crates/uses/src/audits.rt: vulnerability_count
//! let lock = FileLock::unlocked();
//! let audited = auditor.audit_text(alloc, text, &lock, wire, disk)?;
//! Ok(audited.report.vulnerabilities.len())
//! ```
#![tactic(auto)]

mod answers;
mod asking;
mod auditing;
mod auditors;
mod checking;
mod judging;
mod laws;
mod opening;
mod planning;
mod recalling;
mod verdicts;

pub use asking::Turn;
pub use audit_settings::{
    AdvisoryConfig, AuditCommand, AuditConfig, Color, DatabaseConfig, FilterList, SettingsFault,
    TargetConfig, YankedConfig,
};
pub use auditing::{AuditError, Audited};
pub use auditors::Auditor;
pub use checking::{Checks, crates_io};
pub use laws::{
    asked_paths_are_the_distinct_paths, audit_histories_keep, audits_in_histories_match_the_server,
    cached_audits_agree, store_is_said_of_failed_reads,
};
pub use opening::{FileAuditError, LOCKFILE_LIMIT};
pub use verdicts::{Cause, Judged, Verdict};
