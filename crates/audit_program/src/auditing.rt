//! The audit of what was asked for.
ghost use Rattle.std.specs.Prelude.{◌≡◌, ◌≤◌, List, Ok, Err, IfOk, IfErr};
ghost use Rattle.audit_lock.specs.Locked.{locked};
ghost use Rattle.audit_lock.specs.declared.lockfiles.LockfileFault.{LockfileFault};
ghost use Rattle.audit_lock.specs.declared.resolving.Package.{Package};
ghost use Rattle.audit_core.specs.Auditors.{IsReportOf};
ghost use Rattle.audit_core.specs.Audits.{IsAuditOf};
ghost use Rattle.audit_core.specs.Checks.{asked_of};
ghost use Rattle.audit_core.specs.Turns.{StaysKept};
ghost use Rattle.audit_program.specs.Causes.{IsAuditFault};
ghost use Rattle.audit_core.specs.Leaves.{AsksOnly, CallsBy, holding};
ghost use Rattle.audit_remedies.specs.Moments.{moment};

use audit_core::{AuditError, Audited, Auditor};
use audit_remedies::RunFault;
use std::alloc::Global;
use tame_cache::CacheDisk;
use tame_names::FileLock;
use tame_sparse::Wire;

/// The audit of a lockfile's text.
pub fn audit<W: Wire, D: CacheDisk>(
    alloc: Global,
    auditor: &Auditor,
    text: &str,
    lock: &FileLock,
    wire: &mut W,
    disk: &mut D,
) -> Result<Audited, RunFault>
    ensures audited { IfOk result (IsAuditOf auditor.now W.tells D.tells
        (moment (W.exchanges wire.old) (D.past disk.old) (W.faults wire.old) (D.faults disk.old)
        (D.failed disk.old))
        (moment (W.exchanges wire.new) (D.past disk.new) (W.faults wire.new) (D.faults disk.new)
        (D.failed disk.new))
        text.now) }
    ensures report { IfOk result (IsReportOf auditor.now.database) }
    ensures later { IfOk result (λ _. D.faults disk.old ≤ D.faults disk.new) }
    ensures refused { (f : LockfileFault) → result ≡ Err (RunFault.Lockfile f)
        → locked text.now ≡ Err f }
    ensures only { IfErr result IsAuditFault }
    ensures uncalled { (f : LockfileFault) → locked text.now ≡ Err f → (wire.new ≡ wire.old)
        × (disk.new ≡ disk.old) }
    ensures kept { W.tells → D.tells → StaysKept (W.exchanges wire.old) (W.exchanges wire.new)
        (D.past disk.old) (D.past disk.new) }
    ensures asks { (packages : List Package) → locked text.now ≡ Ok packages
        → AsksOnly W.tells D.tells (asked_of auditor.now.checks packages)
        (holding (W.exchanges wire.old) (D.past disk.old) (D.folders disk.old))
        (holding (W.exchanges wire.new) (D.past disk.new) (D.folders disk.new)) }
    ensures calls { CallsBy auditor.now.checks D.tells (wire.new ≡ wire.old)
        (disk.new ≡ disk.old)
        (holding (W.exchanges wire.old) (D.past disk.old) (D.folders disk.old))
        (holding (W.exchanges wire.new) (D.past disk.new) (D.folders disk.new)) }
{
    match auditor.audit_text(alloc, text, lock, wire, disk) {
        Ok(audited) => Ok(audited),
        Err(AuditError::Lockfile(fault)) => Err(RunFault::Lockfile(fault)),
        Err(AuditError::Advisory { n, fault }) => Err(RunFault::Advisory { n, fault }),
        Err(AuditError::NoMemory) => Err(RunFault::NoMemory),
    }
}
