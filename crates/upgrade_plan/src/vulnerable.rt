//! Which packages have a vulnerability.
ghost use Rattle.std.specs.Prelude.{IfOk};
ghost use Rattle.upgrade_plan.specs.Plans.{AreFlagsOf};

use audit_advisory::Vulnerability;
use std::alloc::Global;
use tame_names::NoMemory;

/// For each of this many packages, whether some vulnerability is of it, found in one pass.
pub fn vulnerable_flags(
    alloc: Global,
    vulnerabilities: &[Vulnerability],
    count: usize,
) -> Result<Vec<bool>, NoMemory>
    ensures { IfOk result (λ flags. AreFlagsOf vulnerabilities.now count flags.items) }
{
    let mut flags = vec![in alloc; false; count]?;
    for vulnerability in vulnerabilities {
        let place = vulnerability.package;
        if place < count {
            flags[place] = true;
        }
    }
    Ok(flags)
}
