//! A run of the program.
ghost use Rattle.std.specs.Prelude.{◌≡◌, ◌++◌, map, codes, string_bytes, None};
ghost use Rattle.audit_program.specs.Jobs.{asking_of};
ghost use Rattle.audit_program.specs.Outcomes.{PutsAlone};
ghost use Rattle.audit_program.specs.Runs.{IsRun};
ghost use Rattle.audit_program.specs.Worlds.{telling, uncalled, world};

use crate::binary_runs::run_binaries;
use crate::generating::run_generated;
use crate::outcomes::{Outcome, failed};
use crate::task_runs::run_task;
use crate::tasks::{Job, read_job};
use audit_asked::Runner;
use audit_binaries::Decoder;
use audit_output::print_text;
use audit_remedies::RunFault;
use audit_words::{HELP_TEXT, VERSION_TEXT, WordsFault};
use std::alloc::Global;
use tame_cache::CacheDisk;
use tame_names::{FileLock, Files, Sink};
use tame_sparse::Wire;

/// Prints text without an audit.
fn run_text<O: Sink, E: Sink>(alloc: Global, text: &str, out: &mut O, err: &mut E) -> Outcome
    ensures alone { PutsAlone O.tells E.tells (text.now ++ codes "\n")
        (O.holds out.old) (O.holds out.new) (O.faults out.old) (O.faults out.new)
        (E.holds err.old) (E.holds err.new) (E.faults err.old) (E.faults err.new) result }
    ensures generated { result.generated ≡ None }
{
    match print_text(alloc, text, out) {
        Ok(()) => Outcome::of_status(0),
        Err(fault) => failed(alloc, err, "", RunFault::from(fault)),
    }
}

/// Runs the command: reads the arguments, asks the host for settings, advisories and a lockfile or
/// binaries, audits them, and prints the report or the verdicts; with a baseline it prints what is
/// new, or writes what was found to a new one; `fix` plans updates and starts them; `plan` prints
/// which version each vulnerable package may go to; `vendor` creates a local registry; `generate`
/// audits what it makes; help and the version are printed alone. A fault is reported by a line on
/// `err`.
pub fn run<F: Files, P: Decoder, R: Runner, W: Wire, D: CacheDisk, O: Sink, E: Sink>(
    alloc: Global,
    words: &[String],
    files: &mut F,
    decoder: &mut P,
    runner: &mut R,
    lock: &FileLock,
    wire: &mut W,
    disk: &mut D,
    out: &mut O,
    err: &mut E,
) -> Outcome
    // a run, by what the arguments ask for, from what is outside before it to what is after it
    ensures { IsRun
        (telling F.tells P.tells R.tells W.tells D.tells O.tells E.tells)
        (asking_of (map string_bytes words.now))
        (uncalled (files.new ≡ files.old) (decoder.new ≡ decoder.old) (runner.new ≡ runner.old)
        (wire.new ≡ wire.old) (disk.new ≡ disk.old))
        (world (W.exchanges wire.old) (W.faults wire.old) (D.past disk.old) (D.folders disk.old)
        (D.faults disk.old) (D.failed disk.old) (F.host files.old) (F.failed files.old)
        (F.faults files.old) (P.answers decoder.old) (P.faults decoder.old)
        (R.starts runner.old) (R.faults runner.old)
        (O.holds out.old) (O.faults out.old) (E.holds err.old) (E.faults err.old))
        (world (W.exchanges wire.new) (W.faults wire.new) (D.past disk.new) (D.folders disk.new)
        (D.faults disk.new) (D.failed disk.new) (F.host files.new) (F.failed files.new)
        (F.faults files.new) (P.answers decoder.new) (P.faults decoder.new)
        (R.starts runner.new) (R.faults runner.new)
        (O.holds out.new) (O.faults out.new) (E.holds err.new) (E.faults err.new))
        result }
{
    match read_job(alloc, words) {
        Ok(Job::Lockfile(task)) => {
            run_task(alloc, &task, files, runner, lock, wire, disk, out, err)
        }
        Ok(Job::Binaries(command, more)) => run_binaries(
            alloc, &command, &more, files, decoder, lock, wire, disk, out, err,
        ),
        Ok(Job::Help) => run_text(alloc, HELP_TEXT, out, err),
        Ok(Job::Version) => run_text(alloc, VERSION_TEXT, out, err),
        Ok(Job::Generate(count)) => run_generated(alloc, count, out, err),
        Err(WordsFault::Usage { place }) => { failed(alloc, err, "", RunFault::Usage { place }) }
        Err(WordsFault::NoMemory) => failed(alloc, err, "", RunFault::NoMemory),
    }
}
