//! The starts of the steps of a plan.
ghost use Rattle.std.specs.Prelude.{◌≡◌, ◌<◌, ◌≤◌, ◌++◌, ◌∷◌, [], IfOk, OnErr, length};
ghost use Rattle.tame_names.specs.Counts.{CountRose, CountRoseBy};
ghost use Rattle.audit_fix.specs.Steps.{StartsEach, StartsPart, started};
ghost use Rattle.audit_fix.specs.Steps as spec;

use crate::plans::{FixPlan, FixStep};
use audit_asked::{Runner, StartFault};
use std::alloc::Global;
use tame_names::{Items, NoMemory};

/// Starts a step, and returns the status that it ends with; none if it couldn't be started.
fn start_step<R: Runner>(
    alloc: Global,
    step: &FixStep,
    runner: &mut R,
) -> Result<Option<i32>, NoMemory>
    ensures started { R.tells → IfOk result (λ status.
        R.starts runner.new ≡ R.starts runner.old ++ started (step.now, status) ∷ []) }
    ensures unstarted { R.tells → OnErr result (R.starts runner.new ≡ R.starts runner.old) }
    ensures later { R.faults runner.old ≤ R.faults runner.new }
    ensures rose { IfOk result (λ status.
        CountRoseBy (spec.failed_starts (status ∷ [])) (R.faults runner.old)
        (R.faults runner.new)) }
{
    match runner.start(alloc, &step.words) {
        Ok(status) => Ok(Some(status)),
        Err(StartFault::Failed) => Ok(None),
        Err(StartFault::NoMemory) => Err(NoMemory),
    }
}

/// Starts the steps of a plan one after the other, each once, also in a dry run, and returns the
/// status that each ended with; none if it couldn't be started. If out of memory, only the first
/// steps were started.
pub fn start_steps<R: Runner>(
    alloc: Global,
    plan: &FixPlan,
    runner: &mut R,
) -> Result<Items<Option<i32>>, NoMemory>
    ensures started { R.tells → IfOk result (λ statuses.
        StartsEach plan.now.steps statuses (R.starts runner.old) (R.starts runner.new)) }
    ensures part { R.tells
        → StartsPart plan.now.steps (R.starts runner.old) (R.starts runner.new) }
    ensures one_each { IfOk result (λ statuses. length statuses ≡ length plan.now.steps) }

    // each start that failed was counted
    ensures later { R.faults runner.old ≤ R.faults runner.new }
    ensures rose { IfOk result (λ statuses.
        CountRoseBy (spec.failed_starts statuses) (R.faults runner.old) (R.faults runner.new)) }
    ensures failed { IfOk result (λ statuses. 0 < spec.failed_starts statuses
        → CountRose (R.faults runner.old) (R.faults runner.new)) }
{
    let mut statuses = Items::new(alloc);
    for step in plan.steps.as_slice() {
        let status = start_step(alloc, step, runner)?;
        statuses.add(status)?;
    }
    Ok(statuses)
}

/// How many of these starts failed, from the statuses that they ended with.
pub fn failed_starts(statuses: &[Option<i32>]) -> u64
    ensures { result ≡ spec.failed_starts statuses.now }
{
    statuses.iter().filter(|status| status.is_none()).count() as u64
}
