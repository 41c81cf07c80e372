//! How a run ends.
ghost use Rattle.std.specs.Prelude.{◌≡◌, ◌≤◌, ◌⊎◌, ℕ, List, Some, None};
ghost use Rattle.audit_remedies.specs.FaultLines.{fault_line};
ghost use Rattle.audit_remedies.specs.Outputs.{IsEnded, IsLinePut, IsPutBy};
ghost use Rattle.audit_remedies.specs.Faults as spec;

use audit_binaries::BinariesAudit;
use audit_core::Audited;
use audit_generator::Generated;
use audit_remedies::{RunFault, fault_line};
use std::alloc::Global;
use tame_names::{Items, Sink, put_counted};
use upgrade_plan::PlanItem;

/// How a run ended.
#[derive(Drop)]
pub struct Outcome {
    /// The status that the process should end with: 2 for a fault, or 3 for out of memory; else
    /// that of the audit, of what was made of it, of `fix` or of the audits of binaries, and 0
    /// if the arguments ask only for text.
    pub status: u8,
    /// The audit of a lockfile, if one was made.
    pub audited: Option<Audited>,
    /// The audits of binaries, if they were made.
    pub binaries: Option<BinariesAudit>,
    /// The two audits of made packages, if they were made.
    pub generated: Option<Generated>,
    /// The plan that was made of the audit, if one was asked for.
    pub plan: Option<Items<PlanItem>>,
    /// Why the run failed; none if it didn't.
    pub fault: Option<RunFault>,
}

impl Outcome {
    /// Of this status, with nothing made and no fault.
    pub(crate) fn of_status(status: u8) -> Outcome
        ensures { result ≡ record {
          status = status;
          audited = None;
          binaries = None;
          generated = None;
          plan = None;
          fault = None;
        } }
    {
        Outcome {
            status,
            audited: None,
            binaries: None,
            generated: None,
            plan: None,
            fault: None,
        }
    }

    /// The same with the two audits of made packages.
    pub(crate) fn with_generated(self, generated: Generated) -> Outcome
        ensures { result ≡ record self { generated = Some generated } }
    {
        Outcome {
            generated: Some(generated),
            ..self
        }
    }

    /// The same with the audit of a lockfile, and the plan that was made of it.
    pub(crate) fn with_audit(self, audited: Audited, plan: Option<Items<PlanItem>>) -> Outcome
        ensures { result ≡ record {
          status = self.status;
          audited = Some audited;
          binaries = self.binaries;
          generated = self.generated;
          plan = plan;
          fault = self.fault;
        } }
    {
        Outcome {
            audited: Some(audited),
            plan,
            ..self
        }
    }
}

fn fault_status(fault: &RunFault) -> u8
    ensures { result ≡ spec.fault_status fault.now }
{
    match fault {
        RunFault::NoMemory => 3,
        _ => 2,
    }
}

/// Puts a line, whatever becomes of it.
fn try_put<E: Sink>(err: &mut E, line: &[u8])
    ensures line { E.tells → IsLinePut (E.holds err.old) line.now (E.holds err.new)
        (E.faults err.old) (E.faults err.new) }
    ensures later { E.faults err.old ≤ E.faults err.new }
{
    let _ = put_counted(err, line);
}

/// Prints the line of a fault; if no memory is left to make it, the fault is another one, and the
/// line of that is printed.
fn put_line<E: Sink>(alloc: Global, err: &mut E, place: &str, fault: RunFault) -> RunFault
    ensures fault { (result ≡ fault) ⊎ (result ≡ RunFault.NoMemory) }
    ensures line { E.tells → IsLinePut (E.holds err.old) (fault_line place.now result)
        (E.holds err.new) (E.faults err.old) (E.faults err.new) }
    ensures later { E.faults err.old ≤ E.faults err.new }
{
    match fault_line(alloc, place, &fault) {
        Ok(line) => {
            try_put(err, line.as_bytes());
            fault
        }
        Err(_) => {
            try_put(err, "error: out of memory\n".as_bytes());
            RunFault::NoMemory
        }
    }
}

/// The end of a run with a fault, whose line is printed; nothing else is left of it: its caller
/// adds what the run made until then. The path is the lockfile's, for a fault that reports it.
pub fn failed<E: Sink>(alloc: Global, err: &mut E, place: &str, fault: RunFault) -> Outcome
    ensures fault { (result.fault ≡ Some fault) ⊎ (result.fault ≡ Some RunFault.NoMemory) }
    ensures audited { result.audited ≡ None }
    ensures binaries { result.binaries ≡ None }
    ensures generated { result.generated ≡ None }
    ensures plan { result.plan ≡ None }
    ensures status { (f : RunFault) → result.fault ≡ Some f → result.status ≡ spec.fault_status f }
    // the line comes after what was printed before
    ensures ended { E.tells → (before text : List ℕ)
        → IsPutBy before text (Some fault) (E.holds err.old)
        → IsEnded place.now before text result.fault (E.holds err.new) (E.faults err.old)
        (E.faults err.new) }
    ensures put { (before text now : List ℕ) → IsPutBy before text (Some fault) now
        → IsPutBy before text result.fault now }
    ensures later { E.faults err.old ≤ E.faults err.new }
{
    let fault = put_line(alloc, err, place, fault);
    let status = fault_status(&fault);
    Outcome {
        fault: Some(fault),
        ..Outcome::of_status(status)
    }
}
