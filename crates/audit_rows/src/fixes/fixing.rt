//! Plans, their starts and what is reported of them.
use crate::fixes::stage::{Laid, Stage};
use audit_asked::{MemRunner, NoRunner, Runner, Started};
use audit_fix::{FixPlan, FixStep, failed_starts, fix_lines, fix_status, start_steps};
use row_fixtures::{Row, RowFault};
use std::alloc::{AllocError, Global};
use tame_names::{Items, Text};

/// Whether the next word asks for a dry run.
fn is_dry(row: &mut Row<'_>) -> Result<bool, RowFault> {
    row.is("dry", "real")
}

/// Appends words with a blank before each.
fn push_words(out: &mut String, words: &[Text]) -> Result<(), AllocError> {
    for word in words {
        write!(out, " {word}")?;
    }
    Ok(())
}

fn push_step(out: &mut String, step: &FixStep) -> Result<(), AllocError> {
    write!(out, "step {}:", step.package)?;
    push_words(out, step.words.as_slice())?;
    out.push_str("\n")
}

fn plan_of(alloc: Global, laid: &Laid, dry_run: bool) -> Result<FixPlan, RowFault> {
    Ok(FixPlan::of(alloc, &laid.audited, &laid.database, dry_run)?)
}

/// `plan RUN`
pub fn plan(alloc: Global, stage: &Stage, mut row: Row<'_>) -> Result<String, RowFault> {
    let plan = plan_of(alloc, stage.laid()?, is_dry(&mut row)?)?;
    let mut out = String::new(alloc);
    for step in plan.steps.as_slice() {
        push_step(&mut out, step)?;
    }
    let places = plan.unpatchable.as_slice();
    write!(&mut out, "unpatchable {places:?}")?;
    Ok(out)
}

/// What came of a start, as a word.
fn status_of(word: &str) -> Result<Option<i32>, RowFault> {
    match word {
        "-" => Ok(None),
        word => match word.parse::<i32>() {
            Ok(status) => Ok(Some(status)),
            Err(_) => Err(RowFault::Unread),
        },
    }
}

/// What comes of the starts, by the next word.
fn statuses_of(alloc: Global, row: &mut Row<'_>) -> Result<Items<Option<i32>>, RowFault> {
    let mut statuses = Items::new(alloc);
    let word = row.word();
    if word != "none" {
        for part in word.split(',') {
            statuses.add(status_of(part)?)?;
        }
    }
    Ok(statuses)
}

/// What `fix` does and reports, without the starts that are reported.
fn fixed<R: Runner>(
    alloc: Global,
    laid: &Laid,
    dry_run: bool,
    runner: &mut R,
) -> Result<String, RowFault> {
    let plan = plan_of(alloc, laid, dry_run)?;
    let before = runner.start_faults();
    let statuses = start_steps(alloc, &plan, runner)?;
    let ended = statuses.as_slice();
    let failed = failed_starts(ended);
    let status = fix_status(&laid.audited, &plan, dry_run, failed);
    let lines = fix_lines(alloc, &laid.audited, &laid.database, dry_run, ended)?;
    let now = runner.start_faults();
    Ok(format!(in alloc;
        "{ended:?} failed {failed}, counted {before} to {now}\n{lines}status {status}"
    )?)
}

/// Appends the starts, a line each.
fn push_starts(out: &mut String, starts: &[Started]) -> Result<(), AllocError> {
    for started in starts {
        out.push_str("start")?;
        push_words(out, started.words.as_slice())?;
        out.push_str("\n")?;
    }
    Ok(())
}

/// `fix RUN STATUSES`
pub fn fix(alloc: Global, stage: &Stage, mut row: Row<'_>) -> Result<String, RowFault> {
    let dry_run = is_dry(&mut row)?;
    let mut runner = MemRunner::new(alloc, statuses_of(alloc, &mut row)?);
    let told = fixed(alloc, stage.laid()?, dry_run, &mut runner)?;
    let mut out = String::new(alloc);
    push_starts(&mut out, runner.starts())?;
    out.push_str(told.as_str())?;
    Ok(out)
}

/// `unable RUN`
pub fn unable(alloc: Global, stage: &Stage, mut row: Row<'_>) -> Result<String, RowFault> {
    let dry_run = is_dry(&mut row)?;
    let mut runner = NoRunner::new();
    fixed(alloc, stage.laid()?, dry_run, &mut runner)
}
