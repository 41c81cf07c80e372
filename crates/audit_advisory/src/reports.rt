//! What an audit reports from its advisories.
ghost use Rattle.std.specs.Prelude.{◌≡◌, ℕ, ◌+◌, ◌*◌, ◌^◌, ◌<◌, ◌≤◌, ◌++◌, All, IfOk, OnOk, OnErr, length, map, option_copied, slice_get};
ghost use Rattle.audit_advisory.specs.Reports.{IsPlaced, report_of, with_yanked, yanked_at};
ghost use Rattle.audit_advisory.specs.Reports as spec;

use crate::advisories::Advisory;
use crate::counting::Comparisons;
use crate::databases::Database;
use crate::finding::find_all;
use crate::outputs::WarningKind;
use crate::settings::Settings;
use audit_lock::Lockfile;
use std::alloc::Global;
use tame_names::{Items, NoMemory};

/// A package and an advisory that hits it, by their places in the lockfile and in the database.
#[derive(Clone, Copy, Debug, PartialEq, Eq)]
pub struct Vulnerability {
    /// The place of the advisory in the database, from 0.
    pub advisory: usize,
    /// The place of the package in the lockfile, from 0.
    pub package: usize,
}

/// A warning about a package, by its place in the lockfile.
#[derive(Clone, Copy, Debug, PartialEq, Eq)]
pub struct Warning {
    /// What it is about.
    pub kind: WarningKind,
    /// The place of the package in the lockfile, from 0.
    pub package: usize,
    /// The place of the advisory in the database; none for a yanked package.
    pub advisory: Option<usize>,
}

/// What an audit found.
#[derive(Debug, Drop, PartialEq, Eq)]
pub struct Report {
    /// What was asked.
    pub settings: Settings,
    /// How many advisories the database has.
    pub advisory_count: usize,
    /// How many packages the lockfile has.
    pub dependency_count: usize,
    /// By package, then by advisory.
    pub vulnerabilities: Items<Vulnerability>,
    /// Notices, then unmaintained, unsound and yanked packages; each kind by package, then by
    /// advisory.
    pub warnings: Items<Warning>,
}

/// A warning for each of these packages that it is yanked.
fn yanked(alloc: Global, packages: &[usize]) -> Result<Items<Warning>, NoMemory>
    ensures { IfOk result (λ warnings. warnings ≡ map yanked_at packages.now) }
{
    let mut warnings = Items::new(alloc);
    for place in packages {
        warnings.add(Warning {
            kind: WarningKind::Yanked,
            package: *place,
            advisory: None,
        })?;
    }
    Ok(warnings)
}

impl Report {
    /// What the advisories of a database say about a lockfile's packages. Two binary searches find
    /// each package's advisories. Their comparisons are counted: if there are fewer than 2^d
    /// advisories, together at most twice the number of packages times d. The count stops at
    /// 2^64 - 1.
    pub fn generate(
        alloc: Global,
        database: &Database,
        lockfile: &Lockfile,
        settings: &Settings,
        count: &mut Comparisons,
    ) -> Result<Report, NoMemory>
        ensures report { IfOk result (λ report. report
            ≡ report_of settings.now database.now lockfile.now) }
        ensures placed { IfOk result (λ report. IsPlaced report) }
        ensures most { (d : ℕ) → length database.now < 2 ^ d
            → count.new.made ≤ count.old.made + 2 * length lockfile.now * d }
        ensures least { count.old.made ≤ count.new.made }
    {
        let packages = lockfile.packages();
        let found = find_all(alloc, database, packages, settings, count)?;
        let mut warnings = found.notices;
        warnings.extend(found.unmaintained.as_slice())?;
        warnings.extend(found.unsound.as_slice())?;
        Ok(Report {
            settings: settings.copied(alloc)?,
            advisory_count: database.advisories().len(),
            dependency_count: packages.len(),
            vulnerabilities: found.vulnerabilities,
            warnings,
        })
    }

    /// Adds a warning for each of these packages, by their places, that it is yanked; adds all of
    /// them, or none if out of memory.
    pub fn add_yanked(&mut self, alloc: Global, packages: &[usize]) -> Result<(), NoMemory>
        ensures ok { OnOk result (self.new ≡ with_yanked self.old packages.now) }
        ensures placed { IsPlaced self.old
            → All (λ place. place < self.old.dependency_count) packages.now
            → OnOk result (IsPlaced self.new) }
        ensures same { OnErr result (self.new ≡ self.old) }
    {
        let warnings = yanked(alloc, packages)?;
        self.warnings.extend(warnings.as_slice())?;
        Ok(())
    }
}

/// The advisory at a place, from 0.
pub fn listed_at(advisories: &[Advisory], place: usize) -> Option<&Advisory>
    ensures { option_copied result ≡ slice_get advisories.now place }
{
    advisories.get(place)
}

/// The advisory at a place, from 0, if one is named.
pub fn advisory_at(advisories: &[Advisory], place: Option<usize>) -> Option<&Advisory>
    ensures { option_copied result ≡ spec.advisory_at advisories.now place }
{
    match place {
        None => None,
        Some(place) => listed_at(advisories, place),
    }
}
