//! Security advisories: their texts, their versions, the packages they hit, and the report on
//! a lockfile.
//!
//! Promises: a text reads to its advisory, or to the first rule that it breaks; whether a version
//! meets a requirement follows from a table of bounds; a report is the filter over all pairs of a
//! package and an advisory, and the number of comparisons of names has a bound.
//! Depends on `tame_names`, `toml_tables`, the lockfiles of `audit_lock`, and `semver`.
//!
//! ```ignore
//! // crates/uses/src/audits.rt: is_hit
//! match read_version(alloc, package.version.as_str())? {
//!     Some(version) => Ok(database.hits_at(settings, package, &version)),
//!     None => Ok(false),
//! }
//! ```
#![tactic(auto)]

mod advisories;
mod affected;
mod bounds;
mod compatibility;
mod counting;
mod databases;
mod edges;
mod exits;
mod faults;
mod fences;
mod finding;
mod hitting;
mod intervals;
mod laws;
mod metadata;
mod outputs;
mod replaced;
mod reports;
mod requirements;
mod searching;
mod settings;
mod versions;

pub use advisories::Advisory;
pub use affected::{Function, FunctionPath};
pub use compatibility::compatible;
pub use counting::{Comparisons, name_order};
pub use databases::Database;
pub use exits::{denies_self, fails, is_denied, report_fails, self_fails};
pub use faults::{AdvisoryFault, AdvisoryRule};
pub use hitting::{hits, read_version};
pub use intervals::Interval;
pub use laws::{
    caret_keeps_the_first_number, deny_options_compare, exact_holds_one_precedence,
    releases_are_as_for_cargo, segments_give_the_path, version_is_stated,
};
pub use metadata::{Informational, Metadata};
pub use outputs::{DenyOption, OutputConfig, OutputFormat, UnknownWord, VERSION, WarningKind};
pub use reports::{Report, Vulnerability, Warning, advisory_at, listed_at};
pub use requirements::Requirement;
pub use settings::{Settings, Severity, kinds_copied, texts_copied};
pub use versions::{Versions, meets_any};
