//! The report of an audit as a SARIF log (SARIF 2.1.0).
//!
//! Promises: the log is a function of the report, the advisories, the packages and the path that
//! was audited; its text reads back to it. Depends on the sinks of `tame_names`, on `audit_lock`,
//! `audit_advisory` and `report_parts`.
#![tactic(auto)]

mod laws;
mod sarif_lines;
mod sarif_logs;
mod sarif_objects;
mod sarif_results;
mod sarif_rule_objects;
mod sarif_rules;
mod sarif_runs;
mod sarif_texts;
mod sarif_words;

pub use laws::printed_rules_are_those_of_results;
pub use sarif_lines::report_sarif_line;
pub use sarif_logs::{
    Level, MultiformatMessageString, Precision, Rule, Run, SarifLog, SarifResult,
};
