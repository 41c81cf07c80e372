//! Runs, each as one line.
use crate::runs::running::Ran;
use audit_asked::Started;
use audit_binaries::{BinariesAudit, BinaryAnswer, Decoder};
use audit_core::{Audited, Judged, Turn};
use row_fixtures::{RowFault, owned_text, shown};
use std::alloc::{AllocError, Global};
use tame_cache::{CacheDisk, MemCacheDisk};
use tame_names::Text;
use tame_sparse::Exchange;

fn push_exchange(alloc: Global, out: &mut String, exchange: &Exchange) -> Result<(), RowFault> {
    let named = owned_text(alloc, &exchange.named)?;
    Ok(write!(out, " ({} {named})", exchange.path)?)
}

fn push_turn(out: &mut String, turn: &Turn) -> Result<(), AllocError> {
    let (wire, after) = (turn.wire_before, turn.wire_after);
    let (before, asked, last) = (turn.disk_before, turn.disk_asked, turn.disk_after);
    write!(out, " ({wire} {after} {before} {asked} {last})")
}

fn push_judged(out: &mut String, judged: &Judged) -> Result<(), AllocError> {
    let (package, verdict) = (judged.package, judged.verdict);
    write!(out, " ({package} {verdict:?})")
}

/// Adds what was asked, and what was named.
fn push_asked(alloc: Global, out: &mut String, ran: &Ran) -> Result<(), RowFault> {
    out.push_str("; asked")?;
    for exchange in ran.wire.exchanges() {
        push_exchange(alloc, out, exchange)?;
    }
    Ok(())
}

/// Adds the audit: its exit, how many vulnerabilities and warnings it has, its verdicts, and its
/// turns with their counts of faults.
fn push_audited(out: &mut String, audited: &Audited) -> Result<(), AllocError> {
    let exit = audited.exit;
    let (found, warned) = (
        audited.report.vulnerabilities.as_slice().len(),
        audited.report.warnings.as_slice().len(),
    );
    write!(
        out,
        "; audited {exit}, {found} found, {warned} warned of; verdicts"
    )?;
    for judged in audited.verdicts.as_slice() {
        push_judged(out, judged)?;
    }
    out.push_str("; turns")?;
    for turn in audited.turns.as_slice() {
        push_turn(out, turn)?;
    }
    Ok(())
}

/// Adds the fault, how many calls on the host's files failed, and how many programs were started.
fn push_fault(out: &mut String, ran: &Ran) -> Result<(), AllocError> {
    match &ran.outcome.fault {
        None => out.push_str("; no fault")?,
        Some(fault) => write!(out, "; {fault:?}")?,
    }
    let failed = ran.files.failed().len();
    let started = ran.runner.starts().len();
    write!(out, "; {failed} failed calls, {started} starts")
}

fn push_words(out: &mut String, words: &[Text]) -> Result<(), AllocError> {
    for word in words {
        write!(out, "{word} ")?;
    }
    Ok(())
}

/// Adds the arguments of a start, and the status that it ended with.
fn push_start(out: &mut String, started: &Started) -> Result<(), AllocError> {
    out.push_str(" (")?;
    push_words(out, started.words.as_slice())?;
    match started.status {
        Some(status) => write!(out, "ended {status})"),
        None => out.push_str("failed)"),
    }
}

/// Adds the starts, if there are any.
fn push_starts(out: &mut String, starts: &[Started]) -> Result<(), AllocError> {
    if starts.is_empty() {
        return Ok(());
    }
    out.push_str("; started")?;
    for started in starts {
        push_start(out, started)?;
    }
    Ok(())
}

/// Adds the answer for a binary: why there is no audit, or how many vulnerabilities, warnings and
/// verdicts it has.
fn push_answer(out: &mut String, answer: &BinaryAnswer) -> Result<(), AllocError> {
    match answer {
        BinaryAnswer::Audited(found, audited) => {
            let hits = audited.report.vulnerabilities.as_slice().len();
            let warned = audited.report.warnings.as_slice().len();
            let judged = audited.verdicts.as_slice().len();
            write!(
                out,
                " ({found:?} {hits} found, {warned} warned of, {judged} verdicts)"
            )
        }
        BinaryAnswer::Refused(fault) => write!(out, " ({fault:?})"),
    }
}

/// Adds the answers for binaries and what they come to.
fn push_binaries(out: &mut String, binaries: &BinariesAudit) -> Result<(), AllocError> {
    out.push_str("; binaries")?;
    for answer in binaries.answers.as_slice() {
        push_answer(out, answer)?;
    }
    let summary = &binaries.summary;
    let (found, errors) = (summary.vulnerabilities_found, summary.errors_encountered);
    write!(out, ", found {found}, errors {errors}")
}

/// Adds the audit, or that there is none.
fn push_audit(out: &mut String, ran: &Ran) -> Result<(), AllocError> {
    match &ran.outcome.audited {
        Some(audited) => push_audited(out, audited),
        None => out.push_str("; no audit"),
    }
}

/// Adds the answers for binaries and how many decodes failed, if binaries were audited.
fn push_decoded(out: &mut String, ran: &Ran) -> Result<(), AllocError> {
    let Some(binaries) = &ran.outcome.binaries else {
        return Ok(());
    };
    push_binaries(out, binaries)?;
    let failed = ran.decoder.decode_faults();
    write!(out, ", {failed} failed decodes")
}

/// Adds how many exchanges the audits of made packages had, if packages were made.
fn push_made(out: &mut String, ran: &Ran) -> Result<(), AllocError> {
    let Some(made) = &ran.outcome.generated else {
        return Ok(());
    };
    let asked = made.wire.exchanges().len();
    write!(out, "; made packages, {asked} exchanges")
}

/// A run as a line: its status, its output and errors, what was asked and named, the audit, the
/// fault, how many calls of the disk have failed, and, if there are any, the starts, the answers
/// for binaries, and how many exchanges the audits of made packages had.
fn told(alloc: Global, ran: &Ran, disk: &MemCacheDisk) -> Result<String, RowFault> {
    let status = ran.outcome.status;
    let printed = shown(alloc, ran.out.bytes())?;
    let errors = shown(alloc, ran.err.bytes())?;
    let mut out = format!(in alloc; "{status} [{printed}] [{errors}]")?;
    push_asked(alloc, &mut out, ran)?;
    push_audit(&mut out, ran)?;
    push_fault(&mut out, ran)?;
    let faults = disk.disk_faults();
    write!(out, "; {faults} faults of the disk")?;
    push_starts(&mut out, ran.runner.starts())?;
    push_decoded(&mut out, ran)?;
    push_made(&mut out, ran)?;
    Ok(out)
}

/// What a run printed, and how many exchanges there were.
fn told_short(alloc: Global, ran: &Ran) -> Result<String, RowFault> {
    let printed = shown(alloc, ran.out.bytes())?;
    let errors = ran.err.bytes().len();
    let asked = ran.wire.exchanges().len();
    let status = ran.outcome.status;
    Ok(format!(in alloc; "{status} [{printed}]; {errors} errors; {asked} asked")?)
}

/// What a run named, was answered and printed.
fn named_line(alloc: Global, ran: &Ran, answered: u16) -> Result<String, RowFault> {
    let Some(exchange) = ran.wire.exchanges().first() else {
        return Ok(String::from_str(alloc, "nothing asked")?);
    };
    let named = owned_text(alloc, &exchange.named)?;
    let printed = shown(alloc, ran.out.bytes())?;
    let exit = ran.outcome.status;
    Ok(format!(in alloc; "{named} {answered}: {exit} [{printed}]")?)
}

/// The n-th call on the host's files, which failed in a run, and the run's fault; or that no such
/// call was made.
fn failed_line(alloc: Global, ran: &Ran, n: u64) -> Result<String, RowFault> {
    let fault = &ran.outcome.fault;
    match ran.files.failed() {
        [call] => Ok(format!(in alloc; "{n} {call:?} {fault:?}; ")?),
        _ => Ok(format!(in alloc; "{n} {fault:?}")?),
    }
}

/// What is reported of a run.
#[derive(Clone, Copy)]
pub enum Telling {
    /// All of it.
    Whole,
    /// What it printed, and how many exchanges there were.
    Short,
    /// What its first request named, this status, which it was answered, and what it printed.
    Named(u16),
    /// The call on the host's files with this number, which failed, and the fault.
    Failing(u64),
}

/// A run as a line.
pub fn tell(
    alloc: Global,
    ran: &Ran,
    disk: &MemCacheDisk,
    telling: Telling,
) -> Result<String, RowFault> {
    match telling {
        Telling::Whole => told(alloc, ran, disk),
        Telling::Short => told_short(alloc, ran),
        Telling::Named(answered) => named_line(alloc, ran, answered),
        Telling::Failing(n) => failed_line(alloc, ran, n),
    }
}
