//! The findings of a report.
ghost use Rattle.std.specs.Prelude.{◌≡◌, ◌++◌, IfOk, OnOk, option_copied};
ghost use Rattle.std.specs.List.{flat_map};
ghost use Rattle.baseline_gate.specs.Reports.{findings_of, hit_finding, hit_finding_at, source_of, warning_finding, warning_finding_at, warning_kind};
ghost use Rattle.baseline_gate.specs.Reports as spec;

use audit_advisory::{
    Advisory, Report, Vulnerability, Warning, WarningKind, advisory_at, listed_at,
};
use audit_lock::{Package, package_at};
use known_findings::{Finding, FindingKind};
use std::alloc::Global;
use tame_names::{Items, NoMemory, Text};

fn warning_kind(kind: WarningKind) -> FindingKind
    ensures { result ≡ warning_kind kind }
{
    match kind {
        WarningKind::Notice => FindingKind::Notice,
        WarningKind::Unmaintained => FindingKind::Unmaintained,
        WarningKind::Unsound => FindingKind::Unsound,
        WarningKind::Yanked => FindingKind::Yanked,
    }
}

/// The package's source; empty if it has none.
fn source_of(locked: &Package) -> &str
    ensures { result.now ≡ source_of locked.now }
{
    match &locked.source {
        None => "",
        Some(source) => source.as_str(),
    }
}

/// The advisory's id; empty if there is none.
fn id_of<'a>(advisory: Option<&'a Advisory>) -> &'a str
    ensures { result.now ≡ spec.id_of (option_copied advisory.entry) }
{
    match advisory {
        None => "",
        Some(advisory) => advisory.metadata.id.as_str(),
    }
}

fn finding(
    alloc: Global,
    kind: FindingKind,
    id: &str,
    locked: &Package,
) -> Result<Finding, NoMemory>
    ensures { IfOk result (λ f. f ≡ spec.finding kind id.now locked.now) }
{
    Ok(Finding {
        kind,
        id: Text::of(alloc, id)?,
        name: locked.name.try_clone(alloc)?,
        version: locked.version.try_clone(alloc)?,
        source: Text::of(alloc, source_of(locked))?,
    })
}

fn add_hit(
    alloc: Global,
    found: &mut Items<Finding>,
    locked: Option<&Package>,
    advisory: Option<&Advisory>,
) -> Result<(), NoMemory>
    ensures { OnOk result (found.new ≡ found.old
        ++ hit_finding (option_copied locked.entry) (option_copied advisory.entry)) }
{
    match (locked, advisory) {
        (Some(locked), Some(advisory)) => {
            let id = advisory.metadata.id.as_str();
            found.add(finding(alloc, FindingKind::Vulnerability, id, locked)?)
        }
        _ => Ok(()),
    }
}

fn add_warning(
    alloc: Global,
    found: &mut Items<Finding>,
    kind: WarningKind,
    locked: Option<&Package>,
    advisory: Option<&Advisory>,
) -> Result<(), NoMemory>
    ensures { OnOk result (found.new ≡ found.old
        ++ warning_finding kind (option_copied locked.entry) (option_copied advisory.entry)) }
{
    match locked {
        None => Ok(()),
        Some(locked) => found.add(finding(alloc, warning_kind(kind), id_of(advisory), locked)?),
    }
}

fn add_hit_at(
    alloc: Global,
    found: &mut Items<Finding>,
    advisories: &[Advisory],
    packages: &[Package],
    hit: Vulnerability,
) -> Result<(), NoMemory>
    ensures { OnOk result (found.new ≡ found.old
        ++ hit_finding_at advisories.now packages.now hit) }
{
    let locked = package_at(packages, hit.package);
    let advisory = listed_at(advisories, hit.advisory);
    add_hit(alloc, found, locked, advisory)
}

fn add_warning_at(
    alloc: Global,
    found: &mut Items<Finding>,
    advisories: &[Advisory],
    packages: &[Package],
    warning: Warning,
) -> Result<(), NoMemory>
    ensures { OnOk result (found.new ≡ found.old
        ++ warning_finding_at advisories.now packages.now warning) }
{
    let locked = package_at(packages, warning.package);
    let advisory = advisory_at(advisories, warning.advisory);
    add_warning(alloc, found, warning.kind, locked, advisory)
}

fn add_hits(
    alloc: Global,
    found: &mut Items<Finding>,
    advisories: &[Advisory],
    packages: &[Package],
    hits: &[Vulnerability],
) -> Result<(), NoMemory>
    ensures { OnOk result (found.new ≡ found.old
        ++ flat_map (hit_finding_at advisories.now packages.now) hits.now) }
{
    for hit in hits {
        add_hit_at(alloc, found, advisories, packages, *hit)?;
    }
    Ok(())
}

fn add_warnings(
    alloc: Global,
    found: &mut Items<Finding>,
    advisories: &[Advisory],
    packages: &[Package],
    warnings: &[Warning],
) -> Result<(), NoMemory>
    ensures { OnOk result (found.new ≡ found.old
        ++ flat_map (warning_finding_at advisories.now packages.now) warnings.now) }
{
    for warning in warnings {
        add_warning_at(alloc, found, advisories, packages, *warning)?;
    }
    Ok(())
}

/// The findings of a report: each vulnerability, then each warning, in the report's order.
pub fn report_findings(
    alloc: Global,
    report: &Report,
    advisories: &[Advisory],
    packages: &[Package],
) -> Result<Items<Finding>, NoMemory>
    ensures { IfOk result (λ found. found
        ≡ findings_of advisories.now packages.now report.now) }
{
    let mut found = Items::new(alloc);
    let hits = report.vulnerabilities.as_slice();
    add_hits(alloc, &mut found, advisories, packages, hits)?;
    let warnings = report.warnings.as_slice();
    add_warnings(alloc, &mut found, advisories, packages, warnings)?;
    Ok(found)
}
