//! The run that a report makes.
ghost use Rattle.std.specs.Prelude.{◌≡◌, ◌++◌, ◌∷◌, [], IfOk, OnOk, option_copied, option_map};
ghost use Rattle.std.specs.List.{flat_map};
ghost use Rattle.audit_sarif.specs.Sarif.{advisory_rule, findings_of, hit_finding, hit_finding_at, run_of, warning_finding, warning_finding_at, warning_rule};
ghost use Rattle.audit_sarif.specs.Firsts.{is_text_of, with_new};
ghost use Rattle.audit_sarif.specs.SarifRuns.{Tells};

use crate::sarif_logs::{Level, Rule, Run};
use crate::sarif_results::{hit_result, warning_result};
use crate::sarif_rules::{advisory_rule, warning_id, warning_rule};
use audit_advisory::{
    Advisory, Report, Vulnerability, Warning, WarningKind, advisory_at, listed_at,
};
use audit_lock::{Package, package_at};
use std::alloc::Global;
use tame_names::{Items, NoMemory};

/// Whether one of these rules has this id.
fn is_ruled(id: &str, rules: &[Rule]) -> bool
    ensures { result ≡ is_text_of (λ r. r.id) id.now rules.now }
{
    rules.iter().any(|rule| id == rule.id.as_str())
}

/// Adds the rule of an advisory if no rule has its id.
fn add_advisory_rule(
    alloc: Global,
    rules: &mut Items<Rule>,
    level: Level,
    advisory: &Advisory,
) -> Result<(), NoMemory>
    ensures { OnOk result (rules.new
        ≡ with_new (λ r. r.id) rules.old (advisory_rule level advisory.now.metadata)) }
{
    if !is_ruled(advisory.metadata.id.as_str(), rules.as_slice()) {
        rules.add(advisory_rule(alloc, level, &advisory.metadata)?)?;
    }
    Ok(())
}

/// Adds the rule of a warning if no rule has its id.
fn add_warning_rule(
    alloc: Global,
    rules: &mut Items<Rule>,
    kind: WarningKind,
    advisory: Option<&Advisory>,
) -> Result<(), NoMemory>
    ensures { OnOk result (rules.new ≡ with_new (λ r. r.id) rules.old
        (warning_rule kind (option_map (λ a. a.now) advisory.entry))) }
{
    if !is_ruled(warning_id(kind, advisory), rules.as_slice()) {
        rules.add(warning_rule(alloc, kind, advisory)?)?;
    }
    Ok(())
}

fn add_hit(
    alloc: Global,
    run: &mut Run,
    uri: &str,
    locked: Option<&Package>,
    advisory: Option<&Advisory>,
) -> Result<(), NoMemory>
    ensures { OnOk result (Tells run.old run.new
        (hit_finding uri.now (option_copied locked.entry) (option_copied advisory.entry))) }
{
    match (locked, advisory) {
        (Some(locked), Some(advisory)) => {
            add_advisory_rule(alloc, &mut run.rules, Level::Error, advisory)?;
            run.results.add(hit_result(alloc, uri, locked, advisory)?)
        }
        _ => Ok(()),
    }
}

fn add_warning(
    alloc: Global,
    run: &mut Run,
    uri: &str,
    kind: WarningKind,
    locked: Option<&Package>,
    advisory: Option<&Advisory>,
) -> Result<(), NoMemory>
    ensures { OnOk result (Tells run.old run.new
        (warning_finding uri.now kind (option_copied locked.entry)
        (option_copied advisory.entry))) }
{
    match locked {
        None => Ok(()),
        Some(locked) => {
            add_warning_rule(alloc, &mut run.rules, kind, advisory)?;
            run.results
                .add(warning_result(alloc, uri, kind, locked, advisory)?)
        }
    }
}

fn add_hit_at(
    alloc: Global,
    run: &mut Run,
    uri: &str,
    advisories: &[Advisory],
    packages: &[Package],
    hit: Vulnerability,
) -> Result<(), NoMemory>
    ensures { OnOk result (Tells run.old run.new
        (hit_finding_at uri.now advisories.now packages.now hit)) }
{
    let locked = package_at(packages, hit.package);
    let advisory = listed_at(advisories, hit.advisory);
    add_hit(alloc, run, uri, locked, advisory)
}

fn add_warning_at(
    alloc: Global,
    run: &mut Run,
    uri: &str,
    advisories: &[Advisory],
    packages: &[Package],
    warning: Warning,
) -> Result<(), NoMemory>
    ensures { OnOk result (Tells run.old run.new
        (warning_finding_at uri.now advisories.now packages.now warning)) }
{
    let locked = package_at(packages, warning.package);
    let advisory = advisory_at(advisories, warning.advisory);
    add_warning(alloc, run, uri, warning.kind, locked, advisory)
}

fn add_hits(
    alloc: Global,
    run: &mut Run,
    uri: &str,
    advisories: &[Advisory],
    packages: &[Package],
    found: &[Vulnerability],
) -> Result<(), NoMemory>
    ensures { OnOk result (Tells run.old run.new
        (flat_map (hit_finding_at uri.now advisories.now packages.now) found.now)) }
{
    for hit in found {
        add_hit_at(alloc, run, uri, advisories, packages, *hit)?;
    }
    Ok(())
}

fn add_warnings(
    alloc: Global,
    run: &mut Run,
    uri: &str,
    advisories: &[Advisory],
    packages: &[Package],
    warnings: &[Warning],
) -> Result<(), NoMemory>
    ensures { OnOk result (Tells run.old run.new
        (flat_map (warning_finding_at uri.now advisories.now packages.now) warnings.now)) }
{
    for warning in warnings {
        add_warning_at(alloc, run, uri, advisories, packages, *warning)?;
    }
    Ok(())
}

/// The run of a report.
pub fn sarif_run(
    alloc: Global,
    uri: &str,
    advisories: &[Advisory],
    packages: &[Package],
    report: &Report,
) -> Result<Run, NoMemory>
    ensures { IfOk result (λ run. run
        ≡ run_of (findings_of uri.now advisories.now packages.now report.now)) }
{
    let mut run = Run {
        rules: Items::new(alloc),
        results: Items::new(alloc),
    };
    let found = report.vulnerabilities.as_slice();
    add_hits(alloc, &mut run, uri, advisories, packages, found)?;
    let warnings = report.warnings.as_slice();
    add_warnings(alloc, &mut run, uri, advisories, packages, warnings)?;
    Ok(run)
}
