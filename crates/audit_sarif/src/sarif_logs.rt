//! A report as a SARIF log (SARIF 2.1.0).
ghost use Rattle.std.specs.Prelude.{◌≡◌, ◌≢◌, ◌≤◌, ◌↔◌, length, IfOk, IfErr, IsErrOf, IsFalse, OnOk};
ghost use Rattle.tame_names.specs.Counts.{CountRose};
ghost use Rattle.audit_advisory.specs.Reports.{IsPlaced};
ghost use Rattle.report_parts.specs.Outputs.{IsPut};
ghost use Rattle.report_parts.specs.Placing.{is_placed};
ghost use Rattle.audit_sarif.specs.Rules.{HasRulesOfResults};
ghost use Rattle.audit_sarif.specs.Sarif.{sarif_log};
ghost use Rattle.audit_sarif.specs.SarifObjects.{LogReadsBack, sarif_line};

use crate::sarif_objects::sarif_line;
use crate::sarif_runs::sarif_run;
use audit_advisory::{Database, Report};
use audit_lock::Lockfile;
use report_parts::{PrintError, is_placed, put_text};
use std::alloc::Global;
use tame_names::{Items, Sink, Text};

/// How much a result weighs.
#[derive(Clone, Copy, Debug, PartialEq, Eq)]
pub enum Level {
    /// A vulnerability.
    Error,
    /// What is warned of.
    Warning,
}

/// How sure a rule is.
#[derive(Clone, Copy, Debug, PartialEq, Eq)]
pub enum Precision {
    /// A rule of a kind of warning.
    High,
    /// An advisory's rule.
    VeryHigh,
}

/// A text, and the same in Markdown if it has such a form.
#[derive(Debug, Drop)]
pub struct MultiformatMessageString {
    /// The plain text.
    pub text: Text,
    /// The same in Markdown, if it has such a form.
    pub markdown: Option<Text>,
}

/// What results are measured against: an advisory, or a kind of warning.
#[derive(Debug, Drop)]
pub struct Rule {
    /// The advisory's id, or the word of the kind. It is the rule's name too.
    pub id: Text,
    /// The advisory's title, or what the kind of warning means.
    pub short_description: MultiformatMessageString,
    /// None for an empty description.
    pub full_description: Option<MultiformatMessageString>,
    /// The level of its results.
    pub level: Level,
    /// The page that says more, if the advisory states one.
    pub help: Option<MultiformatMessageString>,
    /// How sure its results are.
    pub precision: Precision,
    /// The score, 0.0 to 10.0, if the advisory states one.
    pub security_severity: Option<Text>,
}

/// A package that a rule reports.
#[derive(Debug, Drop)]
pub struct SarifResult {
    /// The id of the rule.
    pub rule_id: Text,
    /// What is reported of the package.
    pub message: Text,
    /// The level of this result.
    pub level: Level,
    /// The path that names the package: the lockfile, or a binary's path.
    pub uri: Text,
    /// The rule's id, the package's name and its version, with colons between.
    pub fingerprint: Text,
}

/// What one audit reports.
#[derive(Debug, Drop)]
pub struct Run {
    /// Of each id that a result names one rule, in the order of first use.
    pub rules: Items<Rule>,
    /// Vulnerabilities, then warnings.
    pub results: Items<SarifResult>,
}

/// A report as a log of one run.
#[derive(Debug, Drop)]
pub struct SarifLog {
    /// The run.
    pub run: Run,
}

impl SarifLog {
    /// The log of a report, whose results are located at a path. `Tree` comes exactly if a place
    /// in the report has no advisory or no package.
    pub fn from_report(
        alloc: Global,
        report: &Report,
        database: &Database,
        lockfile: &Lockfile,
        cargo_lock_path: &str,
    ) -> Result<SarifLog, PrintError>
        ensures tree { IsErrOf result PrintError.Tree
            ↔ IsFalse (is_placed (length database.now) (length lockfile.now) report.now) }
        // the report of this database on this lockfile never causes `Tree`
        ensures placed { IsPlaced report.now → report.now.advisory_count ≡ length database.now
            → report.now.dependency_count ≡ length lockfile.now
            → IfErr result (λ e. e ≢ PrintError.Tree) }
        ensures unput { IfErr result (λ e. e ≢ PrintError.Io) }
        ensures log { IfOk result (λ log. log
            ≡ sarif_log cargo_lock_path.now database.now lockfile.now report.now) }
        // the rules' ids are distinct, they are in the order of first use in the results, and
        // they are exactly the ids that results name
        ensures rules { IfOk result (λ log. HasRulesOfResults log.run) }
    {
        let advisories = database.advisories();
        let packages = lockfile.packages();
        if !is_placed(advisories.len(), packages.len(), report) {
            return Err(PrintError::Tree);
        }
        let run = sarif_run(alloc, cargo_lock_path, advisories, packages, report)?;
        Ok(SarifLog { run })
    }

    /// Puts the log as one line of JSON.
    pub fn write<O: Sink>(&self, alloc: Global, out: &mut O) -> Result<(), PrintError>
        ensures out { O.tells → IsPut (O.holds out.old) (sarif_line self.now)
            (O.holds out.new) result }
        ensures later { O.faults out.old ≤ O.faults out.new }
        ensures failed { IsErrOf result PrintError.Io
            → CountRose (O.faults out.old) (O.faults out.new) }
        ensures placed { IfErr result (λ e. e ≢ PrintError.Tree) }
        ensures unput { IsErrOf result PrintError.NoMemory → out.new ≡ out.old }
        // the line is read as the object that is meant
        ensures reads_back { OnOk result (LogReadsBack self.now) }
    {
        let line = sarif_line(alloc, self)?;
        put_text(out, line.as_slice())
    }
}
