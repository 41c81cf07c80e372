//! Baselines of texts, and the audit against them.
use crate::baseline::stage::Stage;
use baseline_gate::{AuditBaseline, Baseline, BaselineFault, finding_lines, gate_status};
use row_fixtures::{Row, RowFault, shown_word};
use std::alloc::{AllocError, Global};
use tame_names::{Items, MemSink};

/// The baseline of the next word, or its fault as the answer.
fn baseline_of(
    alloc: Global,
    row: &mut Row<'_>,
) -> Result<Result<Baseline, BaselineFault>, RowFault> {
    let text = row.text(alloc)?;
    Ok(Baseline::read(alloc, text.as_str()))
}

/// The baseline of the next word, which has to be one.
fn known_baseline(alloc: Global, row: &mut Row<'_>) -> Result<Baseline, RowFault> {
    match baseline_of(alloc, row)? {
        Ok(baseline) => Ok(baseline),
        Err(_) => Err(RowFault::Unread),
    }
}

/// What a baseline writes.
fn shown_baseline(alloc: Global, baseline: &Baseline) -> Result<String, RowFault> {
    let mut sink = MemSink::new(alloc, Items::new(alloc));
    match baseline.write(alloc, &mut sink) {
        Ok(()) => Ok(shown_word(alloc, sink.bytes())?),
        Err(_) => Err(RowFault::NoMemory),
    }
}

/// How many findings a baseline has, and what it writes.
fn baseline_line(alloc: Global, baseline: &Baseline) -> Result<String, RowFault> {
    let text = shown_baseline(alloc, baseline)?;
    Ok(format!(in alloc; "{} {text}", baseline.findings().len())?)
}

/// `read TEXT`
pub fn read(alloc: Global, mut row: Row<'_>) -> Result<String, RowFault> {
    match baseline_of(alloc, &mut row)? {
        Ok(baseline) => baseline_line(alloc, &baseline),
        Err(fault) => Ok(format!(in alloc; "{fault:?}")?),
    }
}

/// What a baseline writes, where these puts fail.
fn written(alloc: Global, baseline: &Baseline, puts: Vec<u64>) -> Result<String, AllocError> {
    let mut sink = MemSink::new(alloc, Items::of(puts));
    let answer = baseline.write(alloc, &mut sink);
    let text = shown_word(alloc, sink.bytes())?;
    format!(in alloc; "{answer:?} {text}")
}

/// `write TEXT PUTS`
pub fn write(alloc: Global, mut row: Row<'_>) -> Result<String, RowFault> {
    let text = row.text(alloc)?;
    let puts = row.numbers(alloc)?;
    match Baseline::read(alloc, text.as_str()) {
        Ok(baseline) => Ok(written(alloc, &baseline, puts)?),
        Err(_) => Err(RowFault::Unread),
    }
}

/// Whether the baselines of the next two words are equal.
fn are_equal(alloc: Global, row: &mut Row<'_>) -> Result<bool, RowFault> {
    let first = known_baseline(alloc, row)?;
    match known_baseline(alloc, row) {
        Ok(second) => Ok(first == second),
        Err(fault) => Err(fault),
    }
}

/// `equal TEXT TEXT`
pub fn equal(alloc: Global, mut row: Row<'_>) -> Result<String, RowFault> {
    let equal = are_equal(alloc, &mut row)?;
    Ok(format!(in alloc; "{equal}")?)
}

/// The status of the audit's gate by a baseline, and what it prints.
fn gated(alloc: Global, stage: &Stage, baseline: &Baseline) -> Result<String, RowFault> {
    let laid = stage.laid()?;
    let found = baseline.unlisted(alloc, &laid.audited, &laid.database)?;
    let status = gate_status(found.as_slice());
    let lines = finding_lines(alloc, found.as_slice())?;
    let text = shown_word(alloc, lines.as_bytes())?;
    Ok(format!(in alloc; "{status} {text}")?)
}

/// What a baseline writes, and the status of the audit's gate by it.
fn own_line(alloc: Global, stage: &Stage, baseline: &Baseline) -> Result<String, RowFault> {
    let text = shown_baseline(alloc, baseline)?;
    let gated = gated(alloc, stage, baseline)?;
    Ok(format!(in alloc; "{text} {gated}")?)
}

/// `own`
pub fn own(alloc: Global, stage: &Stage) -> Result<String, RowFault> {
    let laid = stage.laid()?;
    match Baseline::of(alloc, &laid.audited, &laid.database) {
        Ok(baseline) => own_line(alloc, stage, &baseline),
        Err(_) => Err(RowFault::NoMemory),
    }
}

/// `gate TEXT`
pub fn gate(alloc: Global, stage: &Stage, mut row: Row<'_>) -> Result<String, RowFault> {
    match known_baseline(alloc, &mut row) {
        Ok(baseline) => gated(alloc, stage, &baseline),
        Err(fault) => Err(fault),
    }
}
