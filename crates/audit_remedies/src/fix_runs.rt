//! The output of an audit of a lockfile, and the steps and lines of `fix`.
ghost use Rattle.std.specs.Prelude.{◌≡◌, ◌≤◌, ◌⊎◌, ◌++◌, ℕ, [], Err, IfOk, IfErr, string_bytes};
ghost use Rattle.tame_names.specs.Counts.{CountRose, CountRoseBy};
ghost use Rattle.audit_core.specs.Auditors.{IsReportOf};
ghost use Rattle.audit_output.specs.Outputs.{output_of, shown_on};
ghost use Rattle.report_parts.specs.Outputs.{IsPut};
ghost use Rattle.audit_remedies.specs.Finishes.{IsFinishFault, IsFinished, end_of};
ghost use Rattle.audit_remedies.specs.Outputs.{IsPutBy, IsPutFirst, remedy_lines};
ghost use Rattle.audit_remedies.specs.Statuses.{fix_plan_of, made_status};
ghost use Rattle.audit_remedies.specs.Steps.{AreStarted};
ghost use Rattle.audit_remedies.specs.declared.makings.Made.TheVariants as Made;

use crate::faults::RunFault;
use audit_asked::Runner;
use audit_fix::{FixPlan, failed_starts, fix_lines, fix_status, start_steps};
use audit_output::{AuditSheet, PrintFault, print, put_text};
use std::alloc::Global;
use tame_names::Sink;

/// Prints the lines of `fix`, by the statuses that its steps ended with; none if the lines of
/// verdicts are printed.
fn put_lines<E: Sink>(
    alloc: Global,
    dry_run: bool,
    verdicts: bool,
    sheet: &AuditSheet<'_>,
    statuses: &[Option<i32>],
    err: &mut E,
) -> Result<(), PrintFault>
    ensures put { E.tells → IsPut (E.holds err.old)
        (remedy_lines verdicts (Made.Fix dry_run) sheet.now.auditor.now.database
        sheet.now.audited.now statuses.now) (E.holds err.new) result }
    ensures later { E.faults err.old ≤ E.faults err.new }
    ensures failed { result ≡ Err PrintFault.Put → CountRose (E.faults err.old) (E.faults err.new) }
{
    if verdicts {
        return Ok(());
    }
    let database = sheet.auditor.database();
    match fix_lines(alloc, sheet.audited, database, dry_run, statuses) {
        Ok(lines) => put_text(err, lines.as_bytes()),
        Err(_) => Err(PrintFault::NoMemory),
    }
}

/// The status of `fix`, by how many of its steps couldn't be started, which may be none.
fn fix_ended(
    sheet: &AuditSheet<'_>,
    plan: &FixPlan,
    dry_run: bool,
    failed: u64,
) -> Result<u8, RunFault>
    requires plan { plan.now ≡ fix_plan_of dry_run sheet.now.auditor.now.database
        sheet.now.audited.now }
    ensures status { IfOk result (λ status. status ≡ made_status
        sheet.now.auditor.now.database sheet.now.audited.now (Made.Fix dry_run)) }
    ensures ok { IfOk result (λ _. failed ≡ 0) }
    ensures failed { IfErr result (λ e. e ≡ RunFault.Start failed) }
    ensures some { IfErr result IsFinishFault }
{
    if failed > 0 {
        return Err(RunFault::Start { failed });
    }
    Ok(fix_status(sheet.audited, plan, dry_run, 0))
}

/// Plans what to do about the vulnerabilities of an audit, starts each step, and prints the lines
/// of `fix`. `Start` if steps couldn't be started.
fn fix<R: Runner, E: Sink>(
    alloc: Global,
    dry_run: bool,
    verdicts: bool,
    sheet: &AuditSheet<'_>,
    runner: &mut R,
    err: &mut E,
) -> Result<u8, RunFault>
    ensures fixed { IsFinished R.tells E.tells
        (record {
          verdicts = verdicts;
          it = Made.Fix dry_run;
          advisories = sheet.now.auditor.now.database;
          audited = sheet.now.audited.now;
        })
        (R.starts runner.old) (R.starts runner.new)
        [] (E.holds err.old) (E.holds err.new) (end_of result) }
    ensures status { IfOk result (λ status. status ≡ made_status
        sheet.now.auditor.now.database sheet.now.audited.now (Made.Fix dry_run)) }
    ensures later { E.faults err.old ≤ E.faults err.new }
    ensures starts_later { R.faults runner.old ≤ R.faults runner.new }
    ensures print_rose { result ≡ Err RunFault.Print
        → CountRose (E.faults err.old) (E.faults err.new) }
    ensures start_rose { (failed : ℕ) → result ≡ Err (RunFault.Start failed)
        → CountRoseBy failed (R.faults runner.old) (R.faults runner.new) }
    ensures only { IfErr result IsFinishFault }
{
    let plan = FixPlan::of(alloc, sheet.audited, sheet.auditor.database(), dry_run)?;
    let statuses = start_steps(alloc, &plan, runner)?;
    put_lines(alloc, dry_run, verdicts, sheet, statuses.as_slice(), err)?;
    fix_ended(sheet, &plan, dry_run, failed_starts(statuses.as_slice()))
}

/// Prints the output of an audit, and then starts the steps of `fix` and prints its lines. Answers
/// the status.
pub fn print_and_fix<R: Runner, O: Sink, E: Sink>(
    alloc: Global,
    dry_run: bool,
    verdicts: bool,
    sheet: &AuditSheet<'_>,
    runner: &mut R,
    out: &mut O,
    err: &mut E,
) -> Result<u8, RunFault>
    requires report { IsReportOf sheet.now.auditor.now.database sheet.now.audited.now }
    ensures out { O.tells → IsPutBy (O.holds out.old)
        (output_of verdicts (shown_on sheet.now) sheet.now.place.now
        sheet.now.audited.now).out (end_of result) (O.holds out.new) }
    ensures finished { IsFinished R.tells E.tells
        (record {
          verdicts = verdicts;
          it = Made.Fix dry_run;
          advisories = sheet.now.auditor.now.database;
          audited = sheet.now.audited.now;
        })
        (R.starts runner.old) (R.starts runner.new)
        (output_of verdicts (shown_on sheet.now) sheet.now.place.now
        sheet.now.audited.now).err (E.holds err.old) (E.holds err.new) (end_of result) }
    ensures shown { (R.starts runner.new ≡ R.starts runner.old) ⊎ (O.tells → O.holds out.new
        ≡ O.holds out.old ++ (output_of verdicts (shown_on sheet.now)
        sheet.now.place.now sheet.now.audited.now).out) }
    ensures shown_err { (R.starts runner.new ≡ R.starts runner.old) ⊎ (E.tells
        → IsPutFirst (E.holds err.old) (output_of verdicts (shown_on sheet.now)
        sheet.now.place.now sheet.now.audited.now).err (E.holds err.new)) }
    ensures status { IfOk result (λ status. status ≡ made_status
        sheet.now.auditor.now.database sheet.now.audited.now (Made.Fix dry_run)) }
    ensures out_later { O.faults out.old ≤ O.faults out.new }
    ensures err_later { E.faults err.old ≤ E.faults err.new }
    ensures starts_later { R.faults runner.old ≤ R.faults runner.new }
    ensures print_rose { result ≡ Err RunFault.Print
        → CountRose (O.faults out.old) (O.faults out.new)
        ⊎ CountRose (E.faults err.old) (E.faults err.new) }
    ensures start_rose { (failed : ℕ) → result ≡ Err (RunFault.Start failed)
        → CountRoseBy failed (R.faults runner.old) (R.faults runner.new) }
    ensures only { IfErr result IsFinishFault }
{
    print(alloc, verdicts, sheet, out, err)?;
    fix(alloc, dry_run, verdicts, sheet, runner, err)
}
