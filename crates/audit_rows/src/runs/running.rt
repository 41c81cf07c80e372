//! Runs of the command over a host in memory.
use crate::runs::stage::Stage;
use crate::runs::telling::{Telling, tell};
use crate::scripts::scripted;
use audit_asked::MemRunner;
use audit_binaries::MemDecoder;
use audit_program::{Outcome, run};
use row_fixtures::{Row, RowFault, host_with};
use std::alloc::Global;
use std::mem;
use tame_cache::MemCacheDisk;
use tame_names::{FileLock, Items, MemFiles, MemSink};
use tame_sparse::MemWire;

/// A run that has ended, with what it left.
#[derive(Drop)]
pub struct Ran {
    pub outcome: Outcome,
    pub files: MemFiles,
    pub decoder: MemDecoder,
    pub runner: MemRunner,
    pub wire: MemWire,
    pub out: MemSink,
    pub err: MemSink,
}

/// The outside of a run.
#[derive(Drop)]
struct Outside {
    files: MemFiles,
    decoder: MemDecoder,
    runner: MemRunner,
    wire: MemWire,
    out: MemSink,
    err: MemSink,
}

/// The command over a host.
fn command(alloc: Global, words: &[String], outside: Outside, disk: &mut MemCacheDisk) -> Ran {
    let lock = FileLock::unlocked();
    let Outside {
        mut files,
        mut decoder,
        mut runner,
        mut wire,
        mut out,
        mut err,
    } = outside;
    let outcome = run(
        alloc,
        words,
        &mut files,
        &mut decoder,
        &mut runner,
        &lock,
        &mut wire,
        disk,
        &mut out,
        &mut err,
    );
    Ran {
        outcome,
        files,
        decoder,
        runner,
        wire,
        out,
        err,
    }
}

/// The files of the stage.
fn files_of(alloc: Global, stage: &Stage, calls: Vec<u64>) -> Result<MemFiles, RowFault> {
    let files = host_with(
        alloc,
        stage.laid.as_slice(),
        stage.variables.as_slice(),
        calls,
    )?;
    Ok(files.with_input(Items::copied(alloc, stage.input.as_slice())?))
}

/// The numbers of calls that are to fail, which are used up.
fn taken(alloc: Global, numbers: &mut Vec<u64>) -> Items<u64> {
    Items::of(mem::replace(numbers, Vec::new(alloc)))
}

/// What a run works on, of the stage: its answers, the ends of starts and the numbers of calls
/// that fail are used up.
fn outside_of(alloc: Global, stage: &mut Stage) -> Result<Outside, RowFault> {
    let calls = mem::replace(&mut stage.calls, Vec::new(alloc));
    let files = files_of(alloc, stage, calls)?;
    let statuses = mem::replace(&mut stage.statuses, Items::new(alloc));
    let script = mem::replace(&mut stage.script, Items::new(alloc));
    Ok(Outside {
        files,
        decoder: MemDecoder::new(taken(alloc, &mut stage.decodes)),
        runner: MemRunner::new(alloc, statuses),
        wire: MemWire::new(alloc, script),
        out: MemSink::new(alloc, taken(alloc, &mut stage.puts)),
        err: MemSink::new(alloc, taken(alloc, &mut stage.errors)),
    })
}

/// The command over the stage, and what is reported of it. The run's value lives here alone.
pub fn told_of(
    alloc: Global,
    stage: &mut Stage,
    words: &[String],
    telling: Telling,
) -> Result<String, RowFault> {
    let outside = outside_of(alloc, stage)?;
    let ran = command(alloc, words, outside, &mut stage.disk);
    let told = tell(alloc, &ran, &stage.disk, telling);
    let Ran { files, .. } = ran;
    stage.files = Some(files);
    told
}

/// The words between blanks.
pub fn words_of(alloc: Global, text: &str) -> Result<Vec<String>, RowFault> {
    let mut words = Vec::new(alloc);
    for word in text.split(' ') {
        if !word.is_empty() {
            words.push(String::from_str(alloc, word)?)?;
        }
    }
    Ok(words)
}

/// `words WORD ..`: a run with these arguments.
pub fn run_words(alloc: Global, stage: &mut Stage, words: Row<'_>) -> Result<String, RowFault> {
    let words = words_of(alloc, words.rest())?;
    told_of(alloc, stage, words.as_slice(), Telling::Whole)
}

/// A run with these arguments, in which the n-th call on the host's files fails: the call and the
/// run's fault, or that no such call was made.
fn failing_line(
    alloc: Global,
    stage: &mut Stage,
    words: &[String],
    n: u64,
) -> Result<String, RowFault> {
    let mut calls = Vec::new(alloc);
    calls.push(n)?;
    stage.calls = calls;
    told_of(alloc, stage, words, Telling::Failing(n))
}

/// `failing WORD ..`: runs with these arguments, of which each call on the host's files fails in
/// turn, until a run makes no such call.
pub fn run_failing(alloc: Global, stage: &mut Stage, words: Row<'_>) -> Result<String, RowFault> {
    let words = words_of(alloc, words.rest())?;
    let mut out = String::new(alloc);
    for n in 1..65 {
        let line = failing_line(alloc, stage, words.as_slice(), n)?;
        out.push_str(line.as_str())?;
        if !line.as_str().ends_with("; ") {
            return Ok(out);
        }
    }
    Ok(out)
}

/// An audit of `Cargo.lock`.
pub fn audited(alloc: Global, stage: &mut Stage, telling: Telling) -> Result<String, RowFault> {
    let words = words_of(alloc, "audit --verdicts -f Cargo.lock")?;
    told_of(alloc, stage, words.as_slice(), telling)
}

/// `run`: an audit of `Cargo.lock`.
pub fn run_audit(alloc: Global, stage: &mut Stage) -> Result<String, RowFault> {
    audited(alloc, stage, Telling::Whole)
}

/// `audit STATUS REVISION BODY`: an audit of version 0.1.0 of the crate `a` without a cache, if the
/// the server answers so; what is printed, and how many exchanges there were.
pub fn audit(alloc: Global, stage: &mut Stage, words: Row<'_>) -> Result<String, RowFault> {
    stage.lock_one(alloc)?;
    stage.script.add(scripted(alloc, words)?)?;
    audited(alloc, stage, Telling::Short)
}
