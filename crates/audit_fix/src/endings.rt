//! The status that `fix` ends with.
ghost use Rattle.std.specs.Prelude.{◌≡◌};
ghost use Rattle.audit_fix.specs.Endings as spec;

use crate::plans::FixPlan;
use audit_core::Audited;

/// The status that `fix` ends with, if this many of its steps couldn't be started: 0 without
/// vulnerabilities; else 2 if a start failed; else 1 in a dry run if an advisory has no patched
/// version; else 0.
pub fn fix_status(audited: &Audited, plan: &FixPlan, dry_run: bool, failed: u64) -> u8
    ensures { result
        ≡ spec.fix_status dry_run audited.now.report.vulnerabilities plan.now.unpatchable failed }
{
    if audited.report.vulnerabilities.as_slice().is_empty() {
        0
    } else if failed != 0 {
        2
    } else if dry_run && !plan.unpatchable.as_slice().is_empty() {
        1
    } else {
        0
    }
}
