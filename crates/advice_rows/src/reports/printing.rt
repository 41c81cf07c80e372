//! What is printed.
use crate::row_words::{found, place, places};
use crate::stage::{Laid, Stage};
use audit_report::{push_loaded, push_unchecked, push_updating};
use audit_sarif::SarifLog;
use report_parts::PrintError;
use row_fixtures::{Row, RowFault};
use std::alloc::{AllocError, Global};
use tame_names::{Items, MemSink, utf8_text};

/// Appends what an output gained, between its name and a mark.
fn push_gained(text: &mut String, name: &str, sink: &MemSink) -> Result<(), AllocError> {
    let gained = utf8_text(sink.bytes()).unwrap_or("no text");
    write!(text, "\n{name}:\n{gained}.")
}

/// An answer, and what an output of this name gained.
fn gained_by(
    alloc: Global,
    answer: Result<(), PrintError>,
    name: &str,
    sink: &MemSink,
) -> Result<String, RowFault> {
    let mut text = format!(in alloc; "{answer:?}")?;
    push_gained(&mut text, name, sink)?;
    Ok(text)
}

/// An answer, and what two outputs gained.
fn gained(
    alloc: Global,
    answer: Result<(), PrintError>,
    out: &MemSink,
    err: &MemSink,
) -> Result<String, RowFault> {
    let mut text = gained_by(alloc, answer, "out", out)?;
    push_gained(&mut text, "err", err)?;
    Ok(text)
}

/// An output whose writes with these numbers fail.
fn sink_of(alloc: Global, failing: Vec<u64>) -> MemSink {
    MemSink::new(alloc, Items::of(failing))
}

/// `print PATH OUT ERR`
pub fn print(alloc: Global, stage: &mut Stage, mut row: Row<'_>) -> Result<String, RowFault> {
    let path = row.text_or_none(alloc)?;
    let (outs, errs) = (row.numbers(alloc)?, row.numbers(alloc)?);
    let (Some(presenter), Some(laid)) = (&mut stage.presenter, &stage.laid) else {
        return Err(RowFault::Unread);
    };
    let mut out = sink_of(alloc, outs);
    let mut err = sink_of(alloc, errs);
    let path = match &path {
        Some(path) => Some(path.as_str()),
        None => None,
    };
    let (report, database, lockfile) = (&laid.report, &laid.database, &laid.lockfile);
    let answer = presenter.print_report(
        alloc, &mut out, &mut err, report, database, lockfile, path,
    );
    gained(alloc, answer, &out, &err)
}

/// The log of a report, written to an output.
fn put_log(alloc: Global, laid: &Laid, path: &str, out: &mut MemSink) -> Result<(), PrintError> {
    let log = SarifLog::from_report(alloc, &laid.report, &laid.database, &laid.lockfile, path)?;
    log.write(alloc, out)
}

/// `log PATH OUT`
pub fn log(alloc: Global, stage: &mut Stage, mut row: Row<'_>) -> Result<String, RowFault> {
    let path = row.text(alloc)?;
    let outs = row.numbers(alloc)?;
    let Some(laid) = &stage.laid else {
        return Err(RowFault::Unread);
    };
    let mut out = sink_of(alloc, outs);
    let answer = put_log(alloc, laid, path.as_str(), &mut out);
    gained_by(alloc, answer, "out", &out)
}

/// `self PLACES OUT ERR`
pub fn print_self(alloc: Global, stage: &mut Stage, mut row: Row<'_>) -> Result<String, RowFault> {
    let places = places(alloc, &mut row)?;
    let (outs, errs) = (row.numbers(alloc)?, row.numbers(alloc)?);
    let (Some(presenter), Some(laid)) = (&mut stage.presenter, &stage.laid) else {
        return Err(RowFault::Unread);
    };
    let mut out = sink_of(alloc, outs);
    let mut err = sink_of(alloc, errs);
    let answer = presenter.print_self_report(alloc, &mut out, &mut err, &laid.database, &places);
    gained(alloc, answer, &out, &err)
}

/// `scanning PATH ERR`
pub fn scanning(alloc: Global, stage: &mut Stage, mut row: Row<'_>) -> Result<String, RowFault> {
    let path = row.text(alloc)?;
    let errs = row.numbers(alloc)?;
    let (Some(presenter), Some(laid)) = (&mut stage.presenter, &stage.laid) else {
        return Err(RowFault::Unread);
    };
    let mut err = sink_of(alloc, errs);
    let answer = presenter.before_report(alloc, &mut err, path.as_str(), &laid.lockfile);
    gained_by(alloc, answer, "err", &err)
}

/// `binary FOUND N PATH ERR`
pub fn binary(alloc: Global, stage: &mut Stage, mut row: Row<'_>) -> Result<String, RowFault> {
    let found = found(&mut row)?;
    let count = place(&mut row)?;
    let path = row.text(alloc)?;
    let errs = row.numbers(alloc)?;
    let Some(presenter) = &mut stage.presenter else {
        return Err(RowFault::Unread);
    };
    let mut err = sink_of(alloc, errs);
    let answer = presenter.binary_scan_report(alloc, &mut err, found, count, path.as_str());
    gained_by(alloc, answer, "err", &err)
}

/// `exits PLACES`
pub fn exits(alloc: Global, stage: &mut Stage, mut row: Row<'_>) -> Result<String, RowFault> {
    let places = places(alloc, &mut row)?;
    let (Some(presenter), Some(laid)) = (&stage.presenter, &stage.laid) else {
        return Err(RowFault::Unread);
    };
    let by_report = presenter.should_exit_with_failure(&laid.report);
    let by_self = presenter.should_exit_with_failure_due_to_self(&places);
    Ok(format!(in alloc; "{by_report} {by_self}")?)
}

/// A line without its newline.
fn line_of(alloc: Global, text: &str) -> Result<String, RowFault> {
    match text.strip_suffix('\n') {
        Some(line) => Ok(String::from_str(alloc, line)?),
        None => Err(RowFault::Unread),
    }
}

/// `loaded N PATH`
pub fn loaded(alloc: Global, mut row: Row<'_>) -> Result<String, RowFault> {
    let mut out = String::new(alloc);
    let count = place(&mut row)?;
    push_loaded(alloc, &mut out, count, row.rest())?;
    line_of(alloc, out.as_str())
}

/// `updating`
pub fn updating(alloc: Global) -> Result<String, RowFault> {
    let mut out = String::new(alloc);
    push_updating(&mut out)?;
    line_of(alloc, out.as_str())
}

/// `unchecked NAME VERSION CAUSE`
pub fn unchecked(alloc: Global, mut row: Row<'_>) -> Result<String, RowFault> {
    let name = row.text(alloc)?;
    let version = row.text(alloc)?;
    let mut out = String::new(alloc);
    push_unchecked(alloc, &mut out, name.as_str(), version.as_str(), row.rest())?;
    line_of(alloc, out.as_str())
}
