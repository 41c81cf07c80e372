//! The line of a report as SARIF, made in memory before it is put anywhere.
ghost use Rattle.std.specs.Prelude.{◌≡◌, option_map, IfOk, OnOk};
ghost use Rattle.audit_sarif.specs.Sarif.{sarif_log};
ghost use Rattle.audit_sarif.specs.Sarif as spec;
ghost use Rattle.audit_sarif.specs.SarifObjects.{LogReadsBack, sarif_line};

use crate::sarif_logs::SarifLog;
use crate::sarif_objects::sarif_line;
use crate::sarif_runs::sarif_run;
use audit_advisory::{Database, Report};
use audit_lock::Lockfile;
use std::alloc::Global;
use tame_names::NoMemory;

/// The path of a binary, or else of a lockfile.
fn uri_of<'a>(path: Option<&'a str>) -> &'a str
    ensures { result.now ≡ spec.uri_of (option_map (λ p. p.now) path.entry) }
{
    match path {
        Some(path) => path,
        None => "Cargo.lock",
    }
}

/// The line of a report as SARIF.
pub fn report_sarif_line(
    alloc: Global,
    database: &Database,
    lockfile: &Lockfile,
    report: &Report,
    path: Option<&str>,
) -> Result<Vec<u8>, NoMemory>
    ensures line { IfOk result (λ line. line.items
        ≡ sarif_line (sarif_log (spec.uri_of (option_map (λ p. p.now) path.entry))
        database.now lockfile.now report.now)) }
    ensures reads_back { OnOk result (LogReadsBack
        (sarif_log (spec.uri_of (option_map (λ p. p.now) path.entry))
        database.now lockfile.now report.now)) }
{
    let (advisories, packages) = (database.advisories(), lockfile.packages());
    let run = sarif_run(alloc, uri_of(path), advisories, packages, report)?;
    Ok(sarif_line(alloc, &SarifLog { run })?)
}
