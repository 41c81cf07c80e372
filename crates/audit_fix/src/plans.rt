//! What `fix` plans.
ghost use Rattle.std.specs.Prelude.{◌≡◌, IfOk, OnOk, filter_map, option_map};
ghost use Rattle.audit_core.specs.Auditors.{IsReportOf};
ghost use Rattle.audit_fix.specs.Plans.{LeavesNoneOut, each_once, fix_plan, unpatched_place, with_each, with_new};
ghost use Rattle.audit_core.specs.Auditors.{IsReportOf};
ghost use Rattle.audit_fix.specs.Plans as spec;

use crate::remedies::{patchable, unpatched_place};
use audit_advisory::{Advisory, Database, Vulnerability};
use audit_core::Audited;
use audit_lock::Package;
use std::alloc::Global;
use tame_names::{Items, NoMemory, Text};

/// A planned start of cargo that updates a package.
#[derive(Debug, Drop, PartialEq, Eq)]
pub struct FixStep {
    /// The place of the package in the lockfile.
    pub package: usize,
    /// The arguments for cargo.
    pub words: Items<Text>,
}

/// What is planned for the vulnerabilities of an audit.
#[derive(Debug, Drop, PartialEq, Eq)]
pub struct FixPlan {
    /// A step for each vulnerability whose advisory has a patched requirement, in their order.
    pub steps: Items<FixStep>,
    /// The places in the database of the advisories of the others, each once, where it is first.
    pub unpatchable: Items<usize>,
}

/// The arguments that update a package.
fn plain_words(alloc: Global, package: &Package) -> Result<Items<Text>, NoMemory>
    ensures { IfOk result (λ words. words ≡ spec.plain_words «package».now) }
{
    let mut words = Items::new(alloc);
    words.add(Text::of(alloc, "update")?)?;
    words.add(Text::of(alloc, "--package")?)?;
    let wanted = format!(in alloc; "{}@{}", package.name, package.version)?;
    words.add(Text::from_string(wanted))?;
    Ok(words)
}

/// The arguments of a step that updates a package.
fn update_words(alloc: Global, package: &Package, dry_run: bool) -> Result<Items<Text>, NoMemory>
    ensures { IfOk result (λ words. words ≡ spec.update_words dry_run «package».now) }
{
    let mut words = plain_words(alloc, package)?;
    if dry_run {
        words.add(Text::of(alloc, "--dry-run")?)?;
    }
    Ok(words)
}

/// The step of a vulnerability, if it has one.
fn step_of(
    alloc: Global,
    advisories: &[Advisory],
    packages: &[Package],
    vulnerability: Vulnerability,
    dry_run: bool,
) -> Result<Option<FixStep>, NoMemory>
    ensures { IfOk result (λ step. step
        ≡ spec.step_of dry_run advisories.now packages.now vulnerability) }
{
    match patchable(advisories, packages, vulnerability) {
        None => Ok(None),
        Some(package) => Ok(Some(FixStep {
            package: vulnerability.package,
            words: update_words(alloc, package, dry_run)?,
        })),
    }
}

/// The steps of these vulnerabilities.
fn steps_of(
    alloc: Global,
    advisories: &[Advisory],
    packages: &[Package],
    vulnerabilities: &[Vulnerability],
    dry_run: bool,
) -> Result<Items<FixStep>, NoMemory>
    ensures { IfOk result (λ steps. steps
        ≡ filter_map (spec.step_of dry_run advisories.now packages.now) vulnerabilities.now) }
{
    let mut steps = Items::new(alloc);
    for vulnerability in vulnerabilities {
        if let Some(step) = step_of(alloc, advisories, packages, *vulnerability, dry_run)? {
            steps.add(step)?;
        }
    }
    Ok(steps)
}

fn is_among(place: usize, places: &[usize]) -> bool
    ensures { result ≡ spec.is_among place places.now }
{
    places.iter().any(|p| *p == place)
}

/// Adds a place, unless it is there.
fn add_new(places: &mut Items<usize>, place: usize) -> Result<(), NoMemory>
    ensures { OnOk result (places.new ≡ with_new places.old place) }
{
    if is_among(place, places.as_slice()) {
        return Ok(());
    }
    places.add(place)
}

/// Adds a place, if there is one and it isn't there.
fn add_each(places: &mut Items<usize>, place: Option<usize>) -> Result<(), NoMemory>
    ensures { OnOk result (places.new ≡ with_each places.old place) }
{
    match place {
        None => Ok(()),
        Some(place) => add_new(places, place),
    }
}

/// The places of the advisories of these vulnerabilities for which nothing is patched, each once.
fn unpatchable_of(
    alloc: Global,
    advisories: &[Advisory],
    vulnerabilities: &[Vulnerability],
) -> Result<Items<usize>, NoMemory>
    ensures { IfOk result (λ places. places
        ≡ each_once (filter_map (unpatched_place advisories.now) vulnerabilities.now)) }
{
    let mut places = Items::new(alloc);
    for vulnerability in vulnerabilities {
        add_each(&mut places, unpatched_place(advisories, *vulnerability))?;
    }
    Ok(places)
}

impl FixPlan {
    /// The plan for the vulnerabilities of an audit of this database, in their order: if the
    /// advisory has a patched requirement, a step that updates the package, in a dry run with the
    /// further argument `--dry-run`; if nothing is patched, its advisory is unpatchable.
    pub fn of(
        alloc: Global,
        audited: &Audited,
        database: &Database,
        dry_run: bool,
    ) -> Result<FixPlan, NoMemory>
        ensures plan { IfOk result (λ plan. plan ≡ fix_plan dry_run database.now
            audited.now.lockfile audited.now.report.vulnerabilities) }

        // for an audit of this database, no vulnerability is left out
        ensures each { IsReportOf database.now audited.now → IfOk result (λ plan.
            LeavesNoneOut database.now audited.now.report.vulnerabilities plan) }
    {
        let advisories = database.advisories();
        let packages = audited.lockfile.packages();
        let vulnerabilities = audited.report.vulnerabilities.as_slice();
        Ok(FixPlan {
            steps: steps_of(alloc, advisories, packages, vulnerabilities, dry_run)?,
            unpatchable: unpatchable_of(alloc, advisories, vulnerabilities)?,
        })
    }
}
