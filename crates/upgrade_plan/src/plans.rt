//! The plan for the vulnerable packages of an audit.
ghost use Rattle.std.specs.Prelude.{◌≡◌, ◌≤◌, ℕ, List, IfOk, map};
ghost use Rattle.std.specs.List.{AllByRecursion};
ghost use Rattle.tame_names.specs.Counts.{CountRose, CountRoseBy};
ghost use Rattle.tame_cache.specs.Disk.{reads};
ghost use Rattle.tame_cache.specs.Kept.{cache_file_of};
ghost use Rattle.audit_advisory.specs.Reports.{report_of, with_yanked};
ghost use Rattle.audit_core.specs.FailedTurns.{InSteps};
ghost use Rattle.upgrade_plan.specs.Plans.{IsOutcome, IsPlannedAt, IsPlanOf, ReadsOnly, ReadsOwn, hit_places, stores, vulnerable_places};

use crate::records::{NoRecord, Recorded, kept_records};
use crate::safest::least_safe;
use crate::vulnerable::vulnerable_flags;
use audit_advisory::{Database, Settings};
use audit_core::Audited;
use audit_lock::{Package, is_from_default};
use std::alloc::Global;
use tame_cache::CacheDisk;
use tame_names::{FileLock, Items, KrateName, NoMemory, Text};
use tame_sparse::SparseIndex;

/// What is planned for a package.
#[derive(Drop)]
pub enum PlanOutcome {
    /// The least safe version.
    To(Text),
    /// No version in the lines is safe.
    NoneSafe,
    /// There are no records to plan by.
    NoRecord(NoRecord),
}

/// The place of a package in the lockfile, and what is planned for it.
#[derive(Drop)]
pub struct PlanItem {
    /// The place of the package in the lockfile, from 0.
    pub package: usize,
    /// What is planned for it.
    pub outcome: PlanOutcome,
}

/// What is planned from the records of a package's crate.
fn outcome_by(
    alloc: Global,
    database: &Database,
    settings: &Settings,
    package: &Package,
    recorded: Recorded,
) -> Result<PlanOutcome, NoMemory>
    ensures { IfOk result (IsOutcome settings.now database.now «package».now recorded) }
{
    match recorded {
        Recorded::Missing(why) => Ok(PlanOutcome::NoRecord(why)),
        Recorded::Versions(krate) => {
            match least_safe(alloc, database, settings, package, &krate)? {
                Some(text) => Ok(PlanOutcome::To(text)),
                None => Ok(PlanOutcome::NoneSafe),
            }
        }
    }
}

/// What is planned for a package from the cache.
fn outcome_of<D: CacheDisk>(
    alloc: Global,
    database: &Database,
    settings: &Settings,
    package: &Package,
    index: &SparseIndex,
    lock: &FileLock,
    disk: &mut D,
) -> Result<PlanOutcome, NoMemory>
    ensures planned { IfOk result (IsPlanOf D.tells settings.now database.now
        index.now.cache (λ q. reads (D.past disk.old q)) «package».now) }
    ensures store { IfOk result (λ o. o ≡ PlanOutcome.NoRecord NoRecord.Store
        → CountRose (D.faults disk.old) (D.faults disk.new)) }
    ensures reads { IfOk result (ReadsOnly (cache_file_of index.now.cache.path «package».now.name)
        (D.failed disk.old) (D.failed disk.new)) }
    ensures later { D.faults disk.old ≤ D.faults disk.new }
    ensures same { D.tells → (q : List ℕ) → D.past disk.new q ≡ D.past disk.old q }
    ensures folders { D.tells → D.folders disk.new ≡ D.folders disk.old }
{
    if !is_from_default(&package.source) {
        return Ok(PlanOutcome::NoRecord(NoRecord::Source));
    }
    let Ok(name) = KrateName::try_from(package.name.as_str()) else {
        return Ok(PlanOutcome::NoRecord(NoRecord::Name));
    };
    let recorded = kept_records(alloc, index, lock, disk, name)?;
    outcome_by(alloc, database, settings, package, recorded)
}

/// What is planned for each package of an audit that has a vulnerability, in the lockfile's order,
/// from the cache of an index. The settings are those of the audit's report. Nothing is asked, and
/// no file changes. If the cache has nothing for a package, its item says why.
pub fn plan<D: CacheDisk>(
    alloc: Global,
    audited: &Audited,
    database: &Database,
    index: &SparseIndex,
    lock: &FileLock,
    disk: &mut D,
) -> Result<Items<PlanItem>, NoMemory>
    ensures packages { IfOk result (λ items. map (λ item. item.«package») items
        ≡ vulnerable_places audited.now.report.vulnerabilities audited.now.lockfile) }
    ensures planned { IfOk result (AllByRecursion (IsPlannedAt (IsPlanOf D.tells
        audited.now.report.settings database.now index.now.cache
        (λ q. reads (D.past disk.old q))) audited.now.lockfile)) }
    // if the report is that of the database, these are the packages that its advisories hit
    ensures hit { (yanked : List ℕ) → audited.now.report
        ≡ with_yanked (report_of audited.now.report.settings database.now audited.now.lockfile)
        yanked
        → IfOk result (λ items. map (λ item. item.«package») items
        ≡ hit_places audited.now.report.settings database.now audited.now.lockfile) }
    ensures stores { IfOk result
        (λ items. CountRoseBy (stores items) (D.faults disk.old) (D.faults disk.new)) }
    // the failed calls on the disk are the reads of the items' own files that couldn't be read,
    // in the order of the items
    ensures reads { IfOk result (λ items. InSteps
        (ReadsOwn index.now.cache audited.now.lockfile) (D.failed disk.old) items
        (D.failed disk.new)) }
    ensures later { D.faults disk.old ≤ D.faults disk.new }
    ensures same { D.tells → (q : List ℕ) → D.past disk.new q ≡ D.past disk.old q }
    ensures folders { D.tells → D.folders disk.new ≡ D.folders disk.old }
{
    let settings = &audited.report.settings;
    let packages = audited.lockfile.packages();
    let vulnerabilities = audited.report.vulnerabilities.as_slice();
    let flags = vulnerable_flags(alloc, vulnerabilities, packages.len())?;
    let mut items = Items::new(alloc);
    for (i, package) in packages.iter().enumerate() {
        if flags[i] {
            let outcome = outcome_of(alloc, database, settings, package, index, lock, disk)?;
            items.add(PlanItem {
                package: i,
                outcome,
            })?;
        }
    }
    Ok(items)
}
