//! Runs of `generate`: two audits of made packages.
ghost use Rattle.std.specs.Prelude.{◌≡◌, ◌⊎◌, ◌≤◌, Err, Some, None, IsSome, IfSome};
ghost use Rattle.tame_names.specs.Counts.{CountRose};
ghost use Rattle.audit_generator.specs.Moments.{IsGenerated};
ghost use Rattle.audit_generator.specs.Summaries.{summary_for};
ghost use Rattle.report_parts.specs.Outputs.{IsPut};
ghost use Rattle.audit_program.specs.Outcomes.{PutsAlone};

use crate::outcomes::{Outcome, failed};
use audit_generator::{Generated, generate, summary_text};
use audit_output::{PrintFault, put_text};
use audit_remedies::RunFault;
use std::alloc::Global;
use tame_names::Sink;

/// Puts the lines that sum up two audits.
fn put_summary<O: Sink>(
    alloc: Global,
    n: u64,
    made: &Generated,
    out: &mut O,
) -> Result<(), PrintFault>
    requires { IsGenerated n made.now }
    ensures put { O.tells
        → IsPut (O.holds out.old) (summary_for n) (O.holds out.new) result }
    ensures later { O.faults out.old ≤ O.faults out.new }
    ensures failed { result ≡ Err PrintFault.Put → CountRose (O.faults out.old) (O.faults out.new) }
{
    match summary_text(alloc, n, made) {
        Ok(text) => put_text(out, text.as_str().as_bytes()),
        Err(_) => Err(PrintFault::NoMemory),
    }
}

/// Prints the lines that sum two audits up.
fn tell_generated<O: Sink, E: Sink>(
    alloc: Global,
    n: u64,
    made: &Generated,
    out: &mut O,
    err: &mut E,
) -> Outcome
    requires { IsGenerated n made.now }
    ensures alone { PutsAlone O.tells E.tells (summary_for n)
        (O.holds out.old) (O.holds out.new) (O.faults out.old) (O.faults out.new)
        (E.holds err.old) (E.holds err.new) (E.faults err.old) (E.faults err.new) result }
    ensures generated { result.generated ≡ None }
{
    match put_summary(alloc, n, made, out) {
        Ok(()) => Outcome::of_status(0),
        Err(fault) => failed(alloc, err, "", RunFault::from(fault)),
    }
}

/// Makes so many packages, audits them twice, and prints the lines that sum the audits up.
pub fn run_generated<O: Sink, E: Sink>(alloc: Global, n: u64, out: &mut O, err: &mut E) -> Outcome
    requires { n ≤ 5000 }
    ensures generated { IfSome result.generated (IsGenerated n) }
    ensures has_generated { (result.fault ≡ None) ⊎ (result.fault ≡ Some RunFault.Print)
        → IsSome result.generated }
    ensures alone { PutsAlone O.tells E.tells (summary_for n)
        (O.holds out.old) (O.holds out.new) (O.faults out.old) (O.faults out.new)
        (E.holds err.old) (E.holds err.new) (E.faults err.old) (E.faults err.new) result }
{
    match generate(alloc, n) {
        Ok(made) => tell_generated(alloc, n, &made, out, err).with_generated(made),
        Err(_) => failed(alloc, err, "", RunFault::NoMemory),
    }
}
