//! Findings that a baseline doesn't list.
ghost use Rattle.std.specs.Prelude.{◌≡◌, IfOk};
ghost use Rattle.baseline_gate.specs.Gates as spec;

use known_findings::{Baseline, Finding};
use std::alloc::Global;
use tame_names::{Items, NoMemory};

/// The findings that aren't in the baseline, in their order; repeats are kept.
pub fn unlisted_of(
    alloc: Global,
    baseline: &Baseline,
    found: Items<Finding>,
) -> Result<Items<Finding>, NoMemory>
    ensures { IfOk result (λ fs. fs ≡ spec.unlisted baseline.now found) }
{
    let mut unlisted = Items::new(alloc);
    for finding in found.into_vec() {
        if !baseline.has(alloc, &finding)? {
            unlisted.add(finding)?;
        }
    }
    Ok(unlisted)
}

/// The status of a gate from the findings that aren't listed: 0 if there are none, else 1.
pub fn gate_status(unlisted: &[Finding]) -> u8
    ensures { result ≡ spec.gate_status unlisted.now }
{
    if unlisted.is_empty() { 0 } else { 1 }
}
