//! The output of the audit of a lockfile.
ghost use Rattle.std.specs.Prelude.{◌≡◌, ◌≤◌, ◌⊎◌, Err, IfOk, IfErr, string_bytes};
ghost use Rattle.tame_names.specs.Counts.{CountRose};
ghost use Rattle.audit_core.specs.Auditors.{IsReportOf};
ghost use Rattle.report_parts.specs.Outputs.{IsPut};
ghost use Rattle.audit_output.specs.Outputs.{output_of, report_output, shown_on};
ghost use Rattle.audit_output.specs.Outputs as spec;
ghost use Rattle.audit_output.specs.Printed.{verdict_lines};

use crate::judged_lines::verdict_lines;
use crate::outputs::{loaded_lines_in, push_unchecked_lines};
use crate::presenting::{new_presenter, print_report, print_self};
use crate::putting::{PrintFault, put_text};
use audit_advisory::OutputConfig;
use audit_core::{Audited, Auditor};
use audit_report::scanning_line_in;
use std::alloc::{AllocError, Global};
use tame_names::Sink;

/// What is printed for the audit of a lockfile, and how.
#[derive(Clone, Copy)]
pub struct AuditSheet<'a> {
    /// What is denied, and how the report is shown.
    pub config: &'a OutputConfig,
    /// The lockfile's path.
    pub place: &'a str,
    /// The path of the database.
    pub database: &'a str,
    /// What audited the lockfile.
    pub auditor: &'a Auditor,
    /// The audit that was made.
    pub audited: &'a Audited,
}

/// The status lines of an audit.
fn status_lines(alloc: Global, sheet: &AuditSheet<'_>) -> Result<String, AllocError>
    ensures { IfOk result (λ lines. string_bytes lines
        ≡ spec.status_lines (shown_on sheet.now) sheet.now.place.now sheet.now.audited.now) }
{
    let audited = sheet.audited;
    let packages = audited.lockfile.packages();
    let count = sheet.auditor.database().advisories().len();
    let checks = sheet.auditor.checks();
    let mut out = loaded_lines_in(alloc, sheet.config, count, sheet.database, checks)?;
    let scanning = scanning_line_in(alloc, sheet.config, sheet.place, packages.len())?;
    out.push_str(scanning.as_str())?;
    push_unchecked_lines(alloc, &mut out, packages, audited.verdicts.as_slice())?;
    Ok(out)
}

/// Puts the status lines.
fn print_status<E: Sink>(
    alloc: Global,
    sheet: &AuditSheet<'_>,
    err: &mut E,
) -> Result<(), PrintFault>
    ensures err { E.tells → IsPut (E.holds err.old)
        (spec.status_lines (shown_on sheet.now) sheet.now.place.now sheet.now.audited.now)
        (E.holds err.new) result }
    ensures later { E.faults err.old ≤ E.faults err.new }
    ensures failed { result ≡ Err PrintFault.Put → CountRose (E.faults err.old) (E.faults err.new) }
{
    match status_lines(alloc, sheet) {
        Ok(lines) => put_text(err, lines.as_bytes()),
        Err(_) => Err(PrintFault::NoMemory),
    }
}

/// Puts the status lines, the report with its summary, and what advisories on the auditor
/// itself say.
fn print_all<O: Sink, E: Sink>(
    alloc: Global,
    sheet: &AuditSheet<'_>,
    out: &mut O,
    err: &mut E,
) -> Result<(), PrintFault>
    requires report { IsReportOf sheet.now.auditor.now.database sheet.now.audited.now }
    ensures out { O.tells → IsPut (O.holds out.old)
        (report_output (shown_on sheet.now) sheet.now.place.now sheet.now.audited.now).out
        (O.holds out.new) result }
    ensures err { E.tells → IsPut (E.holds err.old)
        (report_output (shown_on sheet.now) sheet.now.place.now sheet.now.audited.now).err
        (E.holds err.new) result }
    ensures out_later { O.faults out.old ≤ O.faults out.new }
    ensures err_later { E.faults err.old ≤ E.faults err.new }
    ensures failed { result ≡ Err PrintFault.Put → CountRose (O.faults out.old) (O.faults out.new)
        ⊎ CountRose (E.faults err.old) (E.faults err.new) }
{
    print_status(alloc, sheet, err)?;
    let mut presenter = new_presenter(alloc, sheet.config)?;
    print_report(
        alloc,
        sheet.auditor,
        sheet.audited,
        None,
        &mut presenter,
        out,
        err,
    )?;
    print_self(alloc, sheet.auditor, &mut presenter, out, err)
}

/// Puts the lines of the verdicts alone.
pub fn print_verdicts<O: Sink>(
    alloc: Global,
    audited: &Audited,
    out: &mut O,
) -> Result<(), PrintFault>
    ensures out { O.tells → IsPut (O.holds out.old)
        (verdict_lines audited.now.lockfile audited.now.verdicts) (O.holds out.new) result }
    ensures later { O.faults out.old ≤ O.faults out.new }
    ensures failed { result ≡ Err PrintFault.Put → CountRose (O.faults out.old) (O.faults out.new) }
{
    match verdict_lines(
        alloc,
        audited.lockfile.packages(),
        audited.verdicts.as_slice(),
    ) {
        Ok(lines) => put_text(out, lines.as_bytes()),
        Err(_) => Err(PrintFault::NoMemory),
    }
}

/// Puts the output of an audit: the lines of the verdicts alone, or the full report.
pub fn print<O: Sink, E: Sink>(
    alloc: Global,
    verdicts: bool,
    sheet: &AuditSheet<'_>,
    out: &mut O,
    err: &mut E,
) -> Result<(), PrintFault>
    requires report { IsReportOf sheet.now.auditor.now.database sheet.now.audited.now }
    ensures out { O.tells → IsPut (O.holds out.old)
        (output_of verdicts (shown_on sheet.now) sheet.now.place.now sheet.now.audited.now).out
        (O.holds out.new) result }
    ensures err { E.tells → IsPut (E.holds err.old)
        (output_of verdicts (shown_on sheet.now) sheet.now.place.now sheet.now.audited.now).err
        (E.holds err.new) result }
    ensures out_later { O.faults out.old ≤ O.faults out.new }
    ensures err_later { E.faults err.old ≤ E.faults err.new }
    ensures failed { result ≡ Err PrintFault.Put → CountRose (O.faults out.old) (O.faults out.new)
        ⊎ CountRose (E.faults err.old) (E.faults err.new) }
{
    if verdicts {
        print_verdicts(alloc, sheet.audited, out)
    } else {
        print_all(alloc, sheet, out, err)
    }
}
