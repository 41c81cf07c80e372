//! What is made of an audit before anything is printed.
ghost use Rattle.std.specs.Prelude.{◌≡◌, ◌≤◌, ℕ, List, [], unwrap_or, Ok, Err, IfOk, IfErr};
ghost use Rattle.tame_names.specs.Changes.{Creates};
ghost use Rattle.tame_names.specs.Counts.{CountRose};
ghost use Rattle.tame_sparse.specs.declared.network.Exchange.{Exchange};
ghost use Rattle.vendor_registry.specs.declared.faults.VendorFault.TheVariants as VendorFault;
ghost use Rattle.known_findings.specs.Baselines.{listed, written};
ghost use Rattle.baseline_gate.specs.Gates as gates_spec;
ghost use Rattle.baseline_gate.specs.Reports.{audit_findings};
ghost use Rattle.vendor_registry.specs.Failed.{AddsFailed};
ghost use Rattle.vendor_registry.specs.Vendoring.{IsVendorAnswer, vendoring};
ghost use Rattle.audit_remedies.specs.Calls.{AddsMakingCalls};
ghost use Rattle.audit_remedies.specs.Finishes.{end_of};
ghost use Rattle.audit_core.specs.FailedTurns.{InSteps};
ghost use Rattle.upgrade_plan.specs.Plans.{IsPlanBy, ReadsOwn, crates_io_cache};
ghost use Rattle.audit_remedies.specs.Makings.{IsMade, IsMakingFault, IsVendorEnd, crates_io_stock, making};
ghost use Rattle.audit_remedies.specs.Makings as spec;
ghost use Rattle.audit_remedies.specs.Moments.{moment};
ghost use Rattle.audit_remedies.specs.Remedies.{ReadsCache, WritesFiles};
ghost use Rattle.audit_remedies.specs.declared.remedies.Remedy.TheVariants as Remedy;

use crate::faults::RunFault;
use crate::remedies::Remedy;
use audit_core::{Audited, Auditor, crates_io};
use audit_words::VendorCommand;
use baseline_gate::AuditBaseline;
use known_findings::{Baseline, Finding};
use std::alloc::Global;
use tame_cache::CacheDisk;
use tame_names::{FileFault, FileLock, Files, Items, MemSink, NoMemory, Text};
use upgrade_plan::{PlanItem, plan};
use vendor_registry::{VendorFault, Vendored, vendor};

/// What was made of an audit.
#[derive(Drop)]
pub enum Made {
    /// Nothing: the audit itself is printed.
    Report,
    /// Nothing: the audit itself is printed, and updates are started; in a dry run cargo is asked
    /// to change nothing.
    Fix { dry_run: bool },
    /// A plan for the vulnerable packages.
    Planned(Items<PlanItem>),
    /// The findings that the baseline doesn't list.
    Unlisted(Items<Finding>),
    /// A file with the audit's baseline.
    Written,
    /// A local registry.
    Vendored(Vendored),
}

impl Made {
    /// The plan, if this is one.
    pub fn into_plan(self) -> Option<Items<PlanItem>>
        ensures { result ≡ spec.plan_in (Ok self) }
    {
        match self {
            Made::Planned(items) => Some(items),
            _ => None,
        }
    }
}

// ---- a plan

/// The plan for an audit by an auditor's advisories, by the cache of the index that audits ask.
fn plan_of<D: CacheDisk>(
    alloc: Global,
    auditor: &Auditor,
    audited: &Audited,
    lock: &FileLock,
    disk: &mut D,
) -> Result<Items<PlanItem>, NoMemory>
    ensures plan { IfOk result (IsPlanBy D.tells auditor.now.database audited.now
        (D.past disk.old) (D.faults disk.old) (D.faults disk.new)) }
    ensures reads { IfOk result (λ items. InSteps (ReadsOwn crates_io_cache audited.now.lockfile)
        (D.failed disk.old) items (D.failed disk.new)) }
    ensures later { D.faults disk.old ≤ D.faults disk.new }
    ensures same { D.tells → (q : List ℕ) → D.past disk.new q ≡ D.past disk.old q }
    ensures folders { D.tells → D.folders disk.new ≡ D.folders disk.old }
{
    let index = crates_io(alloc)?;
    plan(alloc, audited, auditor.database(), &index, lock, disk)
}

// ---- baselines

/// The findings of an audit that a baseline doesn't list; no baseline lists nothing.
fn unlisted(
    alloc: Global,
    auditor: &Auditor,
    audited: &Audited,
    known: &Option<Baseline>,
) -> Result<Items<Finding>, NoMemory>
    ensures { IfOk result (λ found. found ≡ gates_spec.unlisted (unwrap_or known.now [])
        (audit_findings auditor.now.database audited.now)) }
{
    match known {
        Some(baseline) => baseline.unlisted(alloc, audited, auditor.database()),
        None => {
            let nothing = Baseline::of_findings(alloc, Items::new(alloc))?;
            nothing.unlisted(alloc, audited, auditor.database())
        }
    }
}

/// Writes an audit's baseline to a file, which is created. `File` if that failed.
fn write_baseline<F: Files>(
    alloc: Global,
    auditor: &Auditor,
    audited: &Audited,
    path: &Text,
    files: &mut F,
) -> Result<(), RunFault>
    ensures made { F.tells → Creates path.now
        (written (listed (audit_findings auditor.now.database audited.now)))
        (F.host files.old) (F.host files.new) result }
    ensures failed { F.tells → AddsMakingCalls (Remedy.WriteBaseline path.now)
        (F.failed files.old) (F.failed files.new) (end_of result) }
    ensures only { IfErr result (IsMakingFault (Remedy.WriteBaseline path.now)) }
    ensures file { (told : List ℕ) → result ≡ Err (RunFault.File told)
        → CountRose (F.faults files.old) (F.faults files.new) }
    ensures later { F.faults files.old ≤ F.faults files.new }
{
    let told = path.try_clone(alloc)?;
    let baseline = Baseline::of(alloc, audited, auditor.database())?;
    let mut lines = MemSink::new(alloc, Items::new(alloc));
    if baseline.write(alloc, &mut lines).is_err() {
        return Err(RunFault::NoMemory);
    }
    match files.create(path.as_str(), lines.bytes()) {
        Ok(()) => Ok(()),
        Err(FileFault::Failed) => Err(RunFault::File { path: told }),
        Err(FileFault::NoMemory) => Err(RunFault::NoMemory),
    }
}

// ---- a registry

/// Makes a local registry of the packages of an audit, from the cache of the index that audits ask
/// and a folder of crate files.
fn registry_of<F: Files, D: CacheDisk>(
    alloc: Global,
    audited: &Audited,
    more: &VendorCommand,
    files: &mut F,
    lock: &FileLock,
    disk: &mut D,
) -> Result<Vendored, VendorFault>
    ensures answered { IsVendorAnswer (vendoring F.tells D.tells
        (crates_io_stock (D.past disk.old) (F.host files.old) more.now.crates)
        audited.now.lockfile more.now.to (F.host files.new)
        (D.faults disk.old) (D.faults disk.new)) result }
    ensures file { (path : List ℕ) → result ≡ Err (VendorFault.File path)
        → CountRose (F.faults files.old) (F.faults files.new) }
    ensures failed { F.tells → AddsFailed (F.failed files.old) (F.failed files.new) result }
    ensures disk_later { D.faults disk.old ≤ D.faults disk.new }
    ensures files_later { F.faults files.old ≤ F.faults files.new }
    ensures disk_same { D.tells → (q : List ℕ) → D.past disk.new q ≡ D.past disk.old q }
    ensures folders_same { D.tells → D.folders disk.new ≡ D.folders disk.old }
{
    let index = crates_io(alloc)?;
    let to = more.to.try_clone(alloc)?;
    vendor(
        alloc,
        audited,
        &index,
        more.crates.as_str(),
        to,
        files,
        lock,
        disk,
    )
}

/// The fault of a run for a refusal of a registry.
fn vendor_fault(reason: VendorFault) -> RunFault
    ensures { IsVendorEnd reason result }
{
    match reason {
        VendorFault::NoMemory => RunFault::NoMemory,
        other => RunFault::Vendor(other),
    }
}

// ---- what is to be made

/// Makes of an audit what must be made before anything is printed: a plan, the findings that a
/// baseline doesn't list, a baseline or a registry. `File` if a file can't be created, `Vendor` if
/// a registry is refused.
pub fn make<F: Files, D: CacheDisk>(
    alloc: Global,
    remedy: &Remedy,
    known: &Option<Baseline>,
    auditor: &Auditor,
    audited: &Audited,
    files: &mut F,
    lock: &FileLock,
    disk: &mut D,
) -> Result<Made, RunFault>
    ensures made { (exchanges : List Exchange) (wire_faults : ℕ) → IsMade remedy.now
        (making F.tells D.tells auditor.now.database known.now audited.now
        (moment exchanges (D.past disk.old) wire_faults (D.faults disk.old) (D.failed disk.old))
        (moment exchanges (D.past disk.new) wire_faults (D.faults disk.new) (D.failed disk.new))
        (F.host files.old) (F.host files.new)) result }
    ensures only { IfErr result (IsMakingFault remedy.now) }
    ensures failed { F.tells → AddsMakingCalls remedy.now
        (F.failed files.old) (F.failed files.new) (end_of result) }
    ensures file { (path : List ℕ) → result ≡ Err (RunFault.File path)
        → CountRose (F.faults files.old) (F.faults files.new) }
    ensures crate_file { (path : List ℕ)
        → result ≡ Err (RunFault.Vendor (VendorFault.File path))
        → CountRose (F.faults files.old) (F.faults files.new) }
    ensures store { (at : ℕ) → result ≡ Err (RunFault.Vendor (VendorFault.Store at))
        → CountRose (D.faults disk.old) (D.faults disk.new) }
    ensures files_later { F.faults files.old ≤ F.faults files.new }
    ensures disk_later { D.faults disk.old ≤ D.faults disk.new }
    ensures disk_same { D.tells → (q : List ℕ) → D.past disk.new q ≡ D.past disk.old q }
    ensures folders_same { D.tells → D.folders disk.new ≡ D.folders disk.old }
    ensures unread { (ReadsCache remedy.now → ⊥) → disk.new ≡ disk.old }
    ensures unwritten { F.tells → (WritesFiles remedy.now → ⊥)
        → F.host files.new ≡ F.host files.old }
{
    match remedy {
        Remedy::Report => Ok(Made::Report),
        Remedy::Fix { dry_run } => Ok(Made::Fix { dry_run: *dry_run }),
        Remedy::Plan => Ok(Made::Planned(plan_of(alloc, auditor, audited, lock, disk)?)),
        Remedy::Baseline(_) => Ok(Made::Unlisted(unlisted(alloc, auditor, audited, known)?)),
        Remedy::WriteBaseline(path) => {
            write_baseline(alloc, auditor, audited, path, files)?;
            Ok(Made::Written)
        }
        Remedy::Vendor(more) => match registry_of(alloc, audited, more, files, lock, disk) {
            Ok(vendored) => Ok(Made::Vendored(vendored)),
            Err(reason) => Err(vendor_fault(reason)),
        },
    }
}
