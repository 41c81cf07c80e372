//! Runs of audits of lockfiles, whatever is done with the audit.
ghost use Rattle.std.specs.Prelude.{◌≡◌, ℕ, Ok};
ghost use Rattle.audit_binaries.specs.Decoding.{DecoderAnswers};
ghost use Rattle.audit_program.specs.Given.{IsTaskOf};
ghost use Rattle.audit_program.specs.Runs.{IsRun};
ghost use Rattle.audit_program.specs.Worlds.{telling, uncalled, world};
ghost use Rattle.audit_program.specs.declared.tasks.Job.TheVariants as Job;

use crate::auditing::audit;
use crate::outcomes::{Outcome, failed};
use crate::tasks::Task;
use audit_asked::{Asked, Runner, ask};
use audit_core::Auditor;
use audit_output::AuditSheet;
use audit_remedies::{RunFault, finish, make};
use std::alloc::Global;
use tame_cache::CacheDisk;
use tame_names::{FileLock, Files, Sink};
use tame_sparse::Wire;

/// Audits what was asked for, makes of the audit what is to be made, prints, and does what is to be
/// done about it.
fn run_given<F: Files, R: Runner, W: Wire, D: CacheDisk, O: Sink, E: Sink>(
    alloc: Global,
    task: &Task,
    given: Asked,
    files: &mut F,
    runner: &mut R,
    lock: &FileLock,
    wire: &mut W,
    disk: &mut D,
    out: &mut O,
    err: &mut E,
) -> Outcome
    // whatever a decoder answers, which isn't called
    ensures { (decodes : DecoderAnswers) (decode_faults : ℕ) → IsTaskOf
        (telling F.tells (Unit {0}) R.tells W.tells D.tells O.tells E.tells) task.now given
        (uncalled (files.new ≡ files.old) (Unit {0}) (runner.new ≡ runner.old)
        (wire.new ≡ wire.old) (disk.new ≡ disk.old))
        (world (W.exchanges wire.old) (W.faults wire.old) (D.past disk.old) (D.folders disk.old)
        (D.faults disk.old) (D.failed disk.old) (F.host files.old) (F.failed files.old)
        (F.faults files.old) decodes decode_faults (R.starts runner.old) (R.faults runner.old)
        (O.holds out.old) (O.faults out.old) (E.holds err.old) (E.faults err.old))
        (world (W.exchanges wire.new) (W.faults wire.new) (D.past disk.new) (D.folders disk.new)
        (D.faults disk.new) (D.failed disk.new) (F.host files.new) (F.failed files.new)
        (F.faults files.new) decodes decode_faults (R.starts runner.new) (R.faults runner.new)
        (O.holds out.new) (O.faults out.new) (E.holds err.new) (E.faults err.new))
        result }
{
    let Asked {
        config,
        place,
        database,
        advisories,
        baseline,
        text,
    } = given;
    let Ok(auditor) = Auditor::of(alloc, &config, advisories) else {
        return failed(alloc, err, task.place(), RunFault::NoMemory);
    };
    let audited = match audit(alloc, &auditor, text.as_str(), lock, wire, disk) {
        Ok(audited) => audited,
        Err(fault) => return failed(alloc, err, task.place(), fault),
    };
    let made = make(
        alloc,
        &task.remedy,
        &baseline,
        &auditor,
        &audited,
        files,
        lock,
        disk,
    );
    let made = match made {
        Ok(made) => made,
        Err(fault) => return failed(alloc, err, task.place(), fault).with_audit(audited, None),
    };
    let sheet = AuditSheet {
        config: &config.output,
        place: place.as_str(),
        database: database.as_str(),
        auditor: &auditor,
        audited: &audited,
    };
    match finish(
        alloc,
        task.command.verdicts,
        &sheet,
        &made,
        runner,
        out,
        err,
    ) {
        Ok(status) => Outcome::of_status(status).with_audit(audited, made.into_plan()),
        Err(fault) => failed(alloc, err, task.place(), fault).with_audit(audited, made.into_plan()),
    }
}

/// Asks for what an audit of a lockfile needs, audits, makes of the audit what is to be made,
/// prints, and does what is to be done.
pub fn run_task<F: Files, R: Runner, W: Wire, D: CacheDisk, O: Sink, E: Sink>(
    alloc: Global,
    task: &Task,
    files: &mut F,
    runner: &mut R,
    lock: &FileLock,
    wire: &mut W,
    disk: &mut D,
    out: &mut O,
    err: &mut E,
) -> Outcome
    // whatever a decoder answers, which isn't called
    ensures { (decodes : DecoderAnswers) (decode_faults : ℕ) → IsRun
        (telling F.tells (Unit {0}) R.tells W.tells D.tells O.tells E.tells)
        (Ok (Job.Lockfile task.now))
        (uncalled (files.new ≡ files.old) (Unit {0}) (runner.new ≡ runner.old)
        (wire.new ≡ wire.old) (disk.new ≡ disk.old))
        (world (W.exchanges wire.old) (W.faults wire.old) (D.past disk.old) (D.folders disk.old)
        (D.faults disk.old) (D.failed disk.old) (F.host files.old) (F.failed files.old)
        (F.faults files.old) decodes decode_faults (R.starts runner.old) (R.faults runner.old)
        (O.holds out.old) (O.faults out.old) (E.holds err.old) (E.faults err.old))
        (world (W.exchanges wire.new) (W.faults wire.new) (D.past disk.new) (D.folders disk.new)
        (D.faults disk.new) (D.failed disk.new) (F.host files.new) (F.failed files.new)
        (F.faults files.new) decodes decode_faults (R.starts runner.new) (R.faults runner.new)
        (O.holds out.new) (O.faults out.new) (E.holds err.new) (E.faults err.new))
        result }
{
    match ask(alloc, &task.command, task.baseline(), files, runner) {
        Ok(given) => run_given(
            alloc, task, given, files, runner, lock, wire, disk, out, err,
        ),
        Err(fault) => failed(alloc, err, task.place(), RunFault::from(fault)),
    }
}
