//! The output of the audits of binaries.
ghost use Rattle.std.specs.Prelude.{◌≡◌, ◌≤◌, ◌⊎◌, false, Err, IfErr, OnOk};
ghost use Rattle.tame_names.specs.Counts.{CountRose};
ghost use Rattle.report_parts.specs.Outputs.{IsPut};
ghost use Rattle.audit_output.specs.BinaryOutputs.{AreReportsOf, IsAnswerOf, answer_printed, answers_output, binaries_output, binaries_printed, binaries_shown_on, binary_printed, binary_report, binary_status_lines, binary_verdicts, refused_line, reports_output, with_trees};
ghost use Rattle.audit_output.specs.Outputs.{loaded_by, presenter_of};

use crate::binary_lines::{binary_status_lines, refused_line};
use crate::outputs::loaded_lines_in;
use crate::presenting::{new_presenter, print_report, print_self};
use crate::printing::print_verdicts;
use crate::putting::{PrintFault, put_text};
use audit_advisory::OutputConfig;
use audit_binaries::{BinaryAnswer, BinaryFault};
use audit_core::Auditor;
use audit_report::Presenter;
use std::alloc::Global;
use tame_names::{Sink, Text};

/// What is printed for the audits of binaries, and how.
#[derive(Clone, Copy)]
pub struct BinarySheet<'a> {
    /// What is denied, and how reports are shown.
    pub config: &'a OutputConfig,
    /// The path of the database.
    pub database: &'a str,
    /// What audited the binaries.
    pub auditor: &'a Auditor,
    /// The paths of the binaries.
    pub paths: &'a [Text],
    /// One answer for each path, in their order.
    pub answers: &'a [BinaryAnswer],
}

/// Puts the status lines before all audits.
fn print_loaded<E: Sink>(
    alloc: Global,
    sheet: &BinarySheet<'_>,
    err: &mut E,
) -> Result<(), PrintFault>
    ensures err { E.tells → IsPut (E.holds err.old) (loaded_by (binaries_shown_on sheet.now))
        (E.holds err.new) result }
    ensures later { E.faults err.old ≤ E.faults err.new }
    ensures failed { result ≡ Err PrintFault.Put → CountRose (E.faults err.old) (E.faults err.new) }
{
    let count = sheet.auditor.database().advisories().len();
    let checks = sheet.auditor.checks();
    match loaded_lines_in(alloc, sheet.config, count, sheet.database, checks) {
        Ok(lines) => put_text(err, lines.as_bytes()),
        Err(_) => Err(PrintFault::NoMemory),
    }
}

/// Puts the status lines of a binary.
fn print_status<E: Sink>(
    alloc: Global,
    config: &OutputConfig,
    path: &str,
    answer: &BinaryAnswer,
    err: &mut E,
) -> Result<(), PrintFault>
    ensures err { E.tells → IsPut (E.holds err.old)
        (binary_status_lines config.now path.now answer.now) (E.holds err.new) result }
    ensures later { E.faults err.old ≤ E.faults err.new }
    ensures failed { result ≡ Err PrintFault.Put → CountRose (E.faults err.old) (E.faults err.new) }
{
    match binary_status_lines(alloc, config, path, answer) {
        Ok(lines) => put_text(err, lines.as_bytes()),
        Err(_) => Err(PrintFault::NoMemory),
    }
}

/// Puts the line that says why there is no audit of a binary.
fn print_refused<E: Sink>(
    alloc: Global,
    path: &str,
    fault: BinaryFault,
    err: &mut E,
) -> Result<(), PrintFault>
    ensures err { E.tells → IsPut (E.holds err.old) (refused_line path.now fault)
        (E.holds err.new) result }
    ensures later { E.faults err.old ≤ E.faults err.new }
    ensures failed { result ≡ Err PrintFault.Put → CountRose (E.faults err.old) (E.faults err.new) }
{
    match refused_line(alloc, path, fault) {
        Ok(line) => put_text(err, line.as_bytes()),
        Err(_) => Err(PrintFault::NoMemory),
    }
}

/// Puts the verdicts on a binary, or why there are none.
fn print_binary_verdicts<O: Sink, E: Sink>(
    alloc: Global,
    path: &str,
    answer: &BinaryAnswer,
    out: &mut O,
    err: &mut E,
) -> Result<(), PrintFault>
    ensures out { O.tells → IsPut (O.holds out.old)
        (binary_verdicts path.now answer.now).out (O.holds out.new) result }
    ensures err { E.tells → IsPut (E.holds err.old)
        (binary_verdicts path.now answer.now).err (E.holds err.new) result }
    ensures out_later { O.faults out.old ≤ O.faults out.new }
    ensures err_later { E.faults err.old ≤ E.faults err.new }
    ensures failed { result ≡ Err PrintFault.Put → CountRose (O.faults out.old) (O.faults out.new)
        ⊎ CountRose (E.faults err.old) (E.faults err.new) }
{
    match answer {
        BinaryAnswer::Audited(_, audited) => print_verdicts(alloc, audited, out),
        BinaryAnswer::Refused(fault) => print_refused(alloc, path, *fault, err),
    }
}

/// Puts the report on a binary and its summary, or why there is none.
fn print_binary_report<O: Sink, E: Sink>(
    alloc: Global,
    auditor: &Auditor,
    path: &str,
    answer: &BinaryAnswer,
    presenter: &mut Presenter,
    out: &mut O,
    err: &mut E,
) -> Result<(), PrintFault>
    requires report { IsAnswerOf auditor.now.database answer.now }
    ensures out { O.tells → IsPut (O.holds out.old)
        (binary_report auditor.now.database presenter.old path.now answer.now).out
        (O.holds out.new) result }
    ensures err { E.tells → IsPut (E.holds err.old)
        (binary_report auditor.now.database presenter.old path.now answer.now).err
        (E.holds err.new) result }
    ensures out_later { O.faults out.old ≤ O.faults out.new }
    ensures err_later { E.faults err.old ≤ E.faults err.new }
    ensures failed { result ≡ Err PrintFault.Put → CountRose (O.faults out.old) (O.faults out.new)
        ⊎ CountRose (E.faults err.old) (E.faults err.new) }
    ensures shown { OnOk result (presenter.new ≡ with_trees presenter.old
        (binary_report auditor.now.database presenter.old path.now answer.now).trees) }
{
    match answer {
        BinaryAnswer::Audited(_, audited) => {
            print_report(alloc, auditor, audited, Some(path), presenter, out, err)
        }
        BinaryAnswer::Refused(fault) => print_refused(alloc, path, *fault, err),
    }
}

/// Puts the status lines of a binary, and the report or why there is none.
fn print_answer<O: Sink, E: Sink>(
    alloc: Global,
    sheet: &BinarySheet<'_>,
    path: &str,
    answer: &BinaryAnswer,
    presenter: &mut Presenter,
    out: &mut O,
    err: &mut E,
) -> Result<(), PrintFault>
    requires report { IsAnswerOf sheet.now.auditor.now.database answer.now }
    ensures out { O.tells → IsPut (O.holds out.old)
        (answer_printed (binaries_shown_on sheet.now) presenter.old path.now answer.now).out
        (O.holds out.new) result }
    ensures err { E.tells → IsPut (E.holds err.old)
        (answer_printed (binaries_shown_on sheet.now) presenter.old path.now answer.now).err
        (E.holds err.new) result }
    ensures out_later { O.faults out.old ≤ O.faults out.new }
    ensures err_later { E.faults err.old ≤ E.faults err.new }
    ensures failed { result ≡ Err PrintFault.Put → CountRose (O.faults out.old) (O.faults out.new)
        ⊎ CountRose (E.faults err.old) (E.faults err.new) }
    ensures shown { OnOk result (presenter.new ≡ with_trees presenter.old
        (answer_printed (binaries_shown_on sheet.now) presenter.old path.now answer.now).trees) }
{
    print_status(alloc, sheet.config, path, answer, err)?;
    print_binary_report(alloc, sheet.auditor, path, answer, presenter, out, err)
}

/// Puts what is printed for a binary: the verdicts, or the status lines and the report.
fn print_binary<O: Sink, E: Sink>(
    alloc: Global,
    verdicts: bool,
    sheet: &BinarySheet<'_>,
    path: &str,
    answer: &BinaryAnswer,
    presenter: &mut Presenter,
    out: &mut O,
    err: &mut E,
) -> Result<(), PrintFault>
    requires report { IsAnswerOf sheet.now.auditor.now.database answer.now }
    ensures out { O.tells → IsPut (O.holds out.old)
        (binary_printed verdicts (binaries_shown_on sheet.now) presenter.old path.now
        answer.now).out (O.holds out.new) result }
    ensures err { E.tells → IsPut (E.holds err.old)
        (binary_printed verdicts (binaries_shown_on sheet.now) presenter.old path.now
        answer.now).err (E.holds err.new) result }
    ensures out_later { O.faults out.old ≤ O.faults out.new }
    ensures err_later { E.faults err.old ≤ E.faults err.new }
    ensures failed { result ≡ Err PrintFault.Put → CountRose (O.faults out.old) (O.faults out.new)
        ⊎ CountRose (E.faults err.old) (E.faults err.new) }
    ensures shown { OnOk result (presenter.new ≡ with_trees presenter.old
        (binary_printed verdicts (binaries_shown_on sheet.now) presenter.old path.now
        answer.now).trees) }
{
    if verdicts {
        print_binary_verdicts(alloc, path, answer, out, err)
    } else {
        print_answer(alloc, sheet, path, answer, presenter, out, err)
    }
}

/// Puts what is printed for each binary, one after the other.
fn print_each<O: Sink, E: Sink>(
    alloc: Global,
    verdicts: bool,
    sheet: &BinarySheet<'_>,
    presenter: &mut Presenter,
    out: &mut O,
    err: &mut E,
) -> Result<(), PrintFault>
    requires reports { AreReportsOf sheet.now.auditor.now.database sheet.now.answers.now }
    ensures out { O.tells → IsPut (O.holds out.old)
        (binaries_printed verdicts (binaries_shown_on sheet.now) presenter.old
        sheet.now.paths.now sheet.now.answers.now).out (O.holds out.new) result }
    ensures err { E.tells → IsPut (E.holds err.old)
        (binaries_printed verdicts (binaries_shown_on sheet.now) presenter.old
        sheet.now.paths.now sheet.now.answers.now).err (E.holds err.new) result }
    ensures out_later { O.faults out.old ≤ O.faults out.new }
    ensures err_later { E.faults err.old ≤ E.faults err.new }
    ensures failed { result ≡ Err PrintFault.Put → CountRose (O.faults out.old) (O.faults out.new)
        ⊎ CountRose (E.faults err.old) (E.faults err.new) }
    ensures config { OnOk result (presenter.new.config ≡ presenter.old.config) }
{
    let mut answers = sheet.answers;
    for path in sheet.paths {
        let Some((answer, left)) = answers.split_first() else {
            return Ok(());
        };
        print_binary(
            alloc,
            verdicts,
            sheet,
            path.as_str(),
            answer,
            presenter,
            out,
            err,
        )?;
        answers = left;
    }
    Ok(())
}

/// Puts the status lines before all, what is printed for each binary, and what advisories on
/// the auditor itself say.
fn print_reports<O: Sink, E: Sink>(
    alloc: Global,
    sheet: &BinarySheet<'_>,
    presenter: &mut Presenter,
    out: &mut O,
    err: &mut E,
) -> Result<(), PrintFault>
    requires reports { AreReportsOf sheet.now.auditor.now.database sheet.now.answers.now }
    requires presenter { presenter.old ≡ presenter_of sheet.now.config.now }
    ensures out { O.tells → IsPut (O.holds out.old)
        (reports_output (binaries_shown_on sheet.now)
        (answers_output false (binaries_shown_on sheet.now) sheet.now.paths.now
        sheet.now.answers.now)).out (O.holds out.new) result }
    ensures err { E.tells → IsPut (E.holds err.old)
        (reports_output (binaries_shown_on sheet.now)
        (answers_output false (binaries_shown_on sheet.now) sheet.now.paths.now
        sheet.now.answers.now)).err (E.holds err.new) result }
    ensures out_later { O.faults out.old ≤ O.faults out.new }
    ensures err_later { E.faults err.old ≤ E.faults err.new }
    ensures failed { result ≡ Err PrintFault.Put → CountRose (O.faults out.old) (O.faults out.new)
        ⊎ CountRose (E.faults err.old) (E.faults err.new) }
{
    print_loaded(alloc, sheet, err)?;
    print_each(alloc, false, sheet, presenter, out, err)?;
    print_self(alloc, sheet.auditor, presenter, out, err)
}

/// Puts the output of the audits of binaries: the verdicts alone, or the full reports; and for
/// each binary without an audit, why there is none. One presenter prints all reports, so a tree
/// that was shown for one binary isn't shown again for another.
pub fn print_binaries<O: Sink, E: Sink>(
    alloc: Global,
    verdicts: bool,
    sheet: &BinarySheet<'_>,
    out: &mut O,
    err: &mut E,
) -> Result<(), PrintFault>
    requires reports { AreReportsOf sheet.now.auditor.now.database sheet.now.answers.now }
    ensures out { O.tells → IsPut (O.holds out.old)
        (binaries_output verdicts (binaries_shown_on sheet.now) sheet.now.paths.now
        sheet.now.answers.now).out (O.holds out.new) result }
    ensures err { E.tells → IsPut (E.holds err.old)
        (binaries_output verdicts (binaries_shown_on sheet.now) sheet.now.paths.now
        sheet.now.answers.now).err (E.holds err.new) result }
    ensures out_later { O.faults out.old ≤ O.faults out.new }
    ensures err_later { E.faults err.old ≤ E.faults err.new }
    ensures failed { result ≡ Err PrintFault.Put → CountRose (O.faults out.old) (O.faults out.new)
        ⊎ CountRose (E.faults err.old) (E.faults err.new) }
{
    let mut presenter = new_presenter(alloc, sheet.config)?;
    if verdicts {
        print_each(alloc, true, sheet, &mut presenter, out, err)
    } else {
        print_reports(alloc, sheet, &mut presenter, out, err)
    }
}
