//! What is printed and started after an audit, once what was to be made of it was made.
ghost use Rattle.std.specs.Prelude.{◌≡◌, ◌≤◌, ◌⊎◌, ◌++◌, ℕ, List, Ok, Err, IfOk, IfErr, OnOk, string_bytes};
ghost use Rattle.tame_names.specs.Counts.{CountRose, CountRoseBy};
ghost use Rattle.known_findings.specs.Baselines.{written};
ghost use Rattle.audit_core.specs.Auditors.{IsReportOf};
ghost use Rattle.audit_output.specs.Outputs.{output_of, shown_on};
ghost use Rattle.report_parts.specs.Outputs.{IsPut};
ghost use Rattle.upgrade_plan.specs.Lines as lines_spec;
ghost use Rattle.audit_remedies.specs.Finishes.{IsFinishFault, IsFinished, end_of};
ghost use Rattle.audit_remedies.specs.Outputs.{IsPutBy, IsPutFirst, made_output, vendored_line};
ghost use Rattle.audit_remedies.specs.Statuses.{made_status};

use crate::faults::RunFault;
use crate::fix_runs::print_and_fix;
use crate::makings::Made;
use audit_asked::Runner;
use audit_output::{AuditSheet, PrintFault, print, put_text};
use baseline_gate::{finding_lines, gate_status};
use known_findings::Finding;
use report_parts::push_number;
use std::alloc::{AllocError, Global};
use tame_names::Sink;
use upgrade_plan::{PlanItem, plan_lines, plan_status};
use vendor_registry::Vendored;

/// Puts the lines of a plan.
fn put_plan<O: Sink>(
    alloc: Global,
    sheet: &AuditSheet<'_>,
    items: &[PlanItem],
    out: &mut O,
) -> Result<(), PrintFault>
    ensures put { O.tells → IsPut (O.holds out.old)
        (lines_spec.plan_lines sheet.now.audited.now.lockfile items.now) (O.holds out.new) result }
    ensures later { O.faults out.old ≤ O.faults out.new }
    ensures failed { result ≡ Err PrintFault.Put → CountRose (O.faults out.old) (O.faults out.new) }
{
    match plan_lines(alloc, sheet.audited.lockfile.packages(), items) {
        Ok(lines) => put_text(out, lines.as_bytes()),
        Err(_) => Err(PrintFault::NoMemory),
    }
}

/// Puts the lines of findings.
fn put_findings<O: Sink>(alloc: Global, found: &[Finding], out: &mut O) -> Result<(), PrintFault>
    ensures put { O.tells → IsPut (O.holds out.old) (written found.now) (O.holds out.new) result }
    ensures later { O.faults out.old ≤ O.faults out.new }
    ensures failed { result ≡ Err PrintFault.Put → CountRose (O.faults out.old) (O.faults out.new) }
{
    match finding_lines(alloc, found) {
        Ok(lines) => put_text(out, lines.as_bytes()),
        Err(_) => Err(PrintFault::NoMemory),
    }
}

/// The line that reports a registry.
fn registry_line(alloc: Global, made: &Vendored) -> Result<String, AllocError>
    ensures { IfOk result (λ line. string_bytes line ≡ vendored_line made.now) }
{
    let mut out = String::from_str(alloc, "vendored ")?;
    push_number(alloc, &mut out, made.packages as u64)?;
    out.push_str(" packages, ")?;
    push_number(alloc, &mut out, made.bytes)?;
    out.push_str(" bytes\n")?;
    Ok(out)
}

/// Prints the line that reports a registry.
fn put_registry<O: Sink>(alloc: Global, made: &Vendored, out: &mut O) -> Result<(), PrintFault>
    ensures put { O.tells → IsPut (O.holds out.old) (vendored_line made.now) (O.holds out.new)
        result }
    ensures later { O.faults out.old ≤ O.faults out.new }
    ensures failed { result ≡ Err PrintFault.Put → CountRose (O.faults out.old) (O.faults out.new) }
{
    match registry_line(alloc, made) {
        Ok(line) => put_text(out, line.as_bytes()),
        Err(_) => Err(PrintFault::NoMemory),
    }
}

/// Prints the output of an audit; under `fix`, then starts its steps and prints its lines. If
/// something was made of the audit, prints the output of that alone. Answers the status.
pub fn finish<R: Runner, O: Sink, E: Sink>(
    alloc: Global,
    verdicts: bool,
    sheet: &AuditSheet<'_>,
    made: &Made,
    runner: &mut R,
    out: &mut O,
    err: &mut E,
) -> Result<u8, RunFault>
    requires report { IsReportOf sheet.now.auditor.now.database sheet.now.audited.now }
    ensures out { O.tells → IsPutBy (O.holds out.old)
        (made_output (output_of verdicts (shown_on sheet.now)
        sheet.now.place.now sheet.now.audited.now) sheet.now.audited.now made.now).out
        (end_of result) (O.holds out.new) }
    ensures finished { IsFinished R.tells E.tells
        (record {
          verdicts = verdicts;
          it = made.now;
          advisories = sheet.now.auditor.now.database;
          audited = sheet.now.audited.now;
        })
        (R.starts runner.old) (R.starts runner.new)
        (made_output (output_of verdicts (shown_on sheet.now)
        sheet.now.place.now sheet.now.audited.now) sheet.now.audited.now made.now).err
        (E.holds err.old) (E.holds err.new) (end_of result) }
    ensures shown { (R.starts runner.new ≡ R.starts runner.old) ⊎ (O.tells → O.holds out.new
        ≡ O.holds out.old ++ (made_output (output_of verdicts
        (shown_on sheet.now) sheet.now.place.now sheet.now.audited.now) sheet.now.audited.now
        made.now).out) }
    ensures shown_err { (R.starts runner.new ≡ R.starts runner.old) ⊎ (E.tells
        → IsPutFirst (E.holds err.old) (made_output (output_of verdicts
        (shown_on sheet.now) sheet.now.place.now sheet.now.audited.now) sheet.now.audited.now
        made.now).err (E.holds err.new)) }
    ensures status { IfOk result (λ status. status ≡ made_status
        sheet.now.auditor.now.database sheet.now.audited.now made.now) }
    ensures out_later { O.faults out.old ≤ O.faults out.new }
    ensures err_later { E.faults err.old ≤ E.faults err.new }
    ensures starts_later { R.faults runner.old ≤ R.faults runner.new }
    ensures print_rose { result ≡ Err RunFault.Print
        → CountRose (O.faults out.old) (O.faults out.new)
        ⊎ CountRose (E.faults err.old) (E.faults err.new) }
    ensures start_rose { (failed : ℕ) → result ≡ Err (RunFault.Start failed)
        → CountRoseBy failed (R.faults runner.old) (R.faults runner.new) }
    ensures only { IfErr result IsFinishFault }
{
    match made {
        Made::Report => {
            print(alloc, verdicts, sheet, out, err)?;
            Ok(sheet.audited.exit)
        }
        Made::Fix { dry_run } => {
            print_and_fix(alloc, *dry_run, verdicts, sheet, runner, out, err)
        }
        Made::Planned(items) => {
            put_plan(alloc, sheet, items.as_slice(), out)?;
            Ok(plan_status(items.as_slice()))
        }
        Made::Unlisted(found) => {
            put_findings(alloc, found.as_slice(), out)?;
            Ok(gate_status(found.as_slice()))
        }
        Made::Written => Ok(0),
        Made::Vendored(vendored) => {
            put_registry(alloc, vendored, out)?;
            Ok(0)
        }
    }
}
