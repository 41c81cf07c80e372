//! Audits and baselines.
ghost use Rattle.std.specs.Prelude.{◌≡◌, IfOk, List};
ghost use Rattle.baseline_gate.specs.Gates as spec;
ghost use Rattle.baseline_gate.specs.Reports.{audit_findings};
ghost use Rattle.known_findings.specs.Baselines.{listed};
ghost use Rattle.known_findings.specs.declared.findings.Finding.{Finding};

use crate::gates::unlisted_of;
use crate::reports::report_findings;
use audit_advisory::Database;
use audit_core::Audited;
use known_findings::{Baseline, Finding};
use std::alloc::Global;
use tame_names::{Items, NoMemory};

/// The findings of an audit: its vulnerabilities, then its warnings.
fn findings_of(
    alloc: Global,
    audited: &Audited,
    database: &Database,
) -> Result<Items<Finding>, NoMemory>
    ensures { IfOk result (λ found. found ≡ audit_findings database.now audited.now) }
{
    let packages = audited.lockfile.packages();
    report_findings(alloc, &audited.report, database.advisories(), packages)
}

/// Baselines of audits. The database that is given with an audit should be the one it used.
pub trait AuditBaseline {
    /// The findings that a baseline lists.
    ghost lists: { Self → List Finding };

    /// The findings of an audit, as a baseline.
    fn of(alloc: Global, audited: &Audited, database: &Database) -> Result<Self, NoMemory>
        ensures { IfOk result (λ b. lists b ≡ listed (audit_findings database.now audited.now)) };

    /// The findings of an audit that aren't listed, in the report's order; repeats are kept.
    fn unlisted(
        &self,
        alloc: Global,
        audited: &Audited,
        database: &Database,
    ) -> Result<Items<Finding>, NoMemory>
        ensures { IfOk result (λ found. found
            ≡ spec.unlisted (lists self.now) (audit_findings database.now audited.now)) };
}

impl AuditBaseline for Baseline {
    ghost lists = { λ b. b };

    fn of(alloc: Global, audited: &Audited, database: &Database) -> Result<Baseline, NoMemory> {
        Baseline::of_findings(alloc, findings_of(alloc, audited, database)?)
    }

    fn unlisted(
        &self,
        alloc: Global,
        audited: &Audited,
        database: &Database,
    ) -> Result<Items<Finding>, NoMemory> {
        unlisted_of(alloc, self, findings_of(alloc, audited, database)?)
    }
}
