//! Runs of audits of binaries: `bin`.
ghost use Rattle.std.specs.Prelude.{◌≡◌, ℕ, List, Ok};
ghost use Rattle.audit_asked.specs.declared.runners.Started.{Started};
ghost use Rattle.audit_program.specs.Given.{AreBinariesOf};
ghost use Rattle.audit_program.specs.Runs.{IsRun};
ghost use Rattle.audit_program.specs.Worlds.{telling, uncalled, world};
ghost use Rattle.audit_program.specs.declared.tasks.Job.TheVariants as Job;

use crate::outcomes::{Outcome, failed};
use audit_asked::{AskedForBinaries, ask_for_binaries};
use audit_binaries::{BinaryLimits, Decoder, audit_binaries, summary_status};
use audit_core::Auditor;
use audit_output::{BinarySheet, print_binaries};
use audit_remedies::RunFault;
use audit_settings::AuditCommand;
use audit_words::BinCommand;
use std::alloc::Global;
use tame_cache::CacheDisk;
use tame_names::{FileLock, Files, Sink};
use tame_sparse::Wire;

/// Audits the binaries at the paths of the arguments, and prints the audits.
fn run_asked<F: Files, P: Decoder, W: Wire, D: CacheDisk, O: Sink, E: Sink>(
    alloc: Global,
    command: &AuditCommand,
    more: &BinCommand,
    given: AskedForBinaries,
    files: &mut F,
    decoder: &mut P,
    lock: &FileLock,
    wire: &mut W,
    disk: &mut D,
    out: &mut O,
    err: &mut E,
) -> Outcome
    // whatever was started, as nothing is
    ensures { (starts : List Started) (start_faults : ℕ) → AreBinariesOf
        (telling F.tells P.tells (Unit {0}) W.tells D.tells O.tells E.tells)
        command.now more.now given
        (uncalled (files.new ≡ files.old) (decoder.new ≡ decoder.old) (Unit {0})
        (wire.new ≡ wire.old) (disk.new ≡ disk.old))
        (world (W.exchanges wire.old) (W.faults wire.old) (D.past disk.old) (D.folders disk.old)
        (D.faults disk.old) (D.failed disk.old) (F.host files.old) (F.failed files.old)
        (F.faults files.old) (P.answers decoder.old) (P.faults decoder.old) starts start_faults
        (O.holds out.old) (O.faults out.old) (E.holds err.old) (E.faults err.old))
        (world (W.exchanges wire.new) (W.faults wire.new) (D.past disk.new) (D.folders disk.new)
        (D.faults disk.new) (D.failed disk.new) (F.host files.new) (F.failed files.new)
        (F.faults files.new) (P.answers decoder.new) (P.faults decoder.new) starts start_faults
        (O.holds out.new) (O.faults out.new) (E.holds err.new) (E.faults err.new))
        result }
{
    let AskedForBinaries {
        config,
        database,
        advisories,
    } = given;
    let Ok(auditor) = Auditor::of(alloc, &config, advisories) else {
        return failed(alloc, err, "", RunFault::NoMemory);
    };
    let limits = BinaryLimits::of(more.max_binary_size, more.audit_data_size_limit);
    let Ok(binaries) = audit_binaries(
        alloc,
        &auditor,
        &limits,
        &more.binary_paths,
        files,
        decoder,
        lock,
        wire,
        disk,
    ) else {
        return failed(alloc, err, "", RunFault::NoMemory);
    };
    let sheet = BinarySheet {
        config: &config.output,
        database: database.as_str(),
        auditor: &auditor,
        paths: more.binary_paths.as_slice(),
        answers: binaries.answers.as_slice(),
    };
    match print_binaries(alloc, command.verdicts, &sheet, out, err) {
        Ok(()) => {
            let status = summary_status(binaries.summary);
            Outcome {
                binaries: Some(binaries),
                ..Outcome::of_status(status)
            }
        }
        Err(fault) => Outcome {
            binaries: Some(binaries),
            ..failed(alloc, err, "", RunFault::from(fault))
        },
    }
}

/// Asks for what audits of binaries need, audits, and prints.
pub fn run_binaries<F: Files, P: Decoder, W: Wire, D: CacheDisk, O: Sink, E: Sink>(
    alloc: Global,
    command: &AuditCommand,
    more: &BinCommand,
    files: &mut F,
    decoder: &mut P,
    lock: &FileLock,
    wire: &mut W,
    disk: &mut D,
    out: &mut O,
    err: &mut E,
) -> Outcome
    // whatever was started, as nothing is
    ensures { (starts : List Started) (start_faults : ℕ) → IsRun
        (telling F.tells P.tells (Unit {0}) W.tells D.tells O.tells E.tells)
        (Ok (Job.Binaries command.now more.now))
        (uncalled (files.new ≡ files.old) (decoder.new ≡ decoder.old) (Unit {0})
        (wire.new ≡ wire.old) (disk.new ≡ disk.old))
        (world (W.exchanges wire.old) (W.faults wire.old) (D.past disk.old) (D.folders disk.old)
        (D.faults disk.old) (D.failed disk.old) (F.host files.old) (F.failed files.old)
        (F.faults files.old) (P.answers decoder.old) (P.faults decoder.old) starts start_faults
        (O.holds out.old) (O.faults out.old) (E.holds err.old) (E.faults err.old))
        (world (W.exchanges wire.new) (W.faults wire.new) (D.past disk.new) (D.folders disk.new)
        (D.faults disk.new) (D.failed disk.new) (F.host files.new) (F.failed files.new)
        (F.faults files.new) (P.answers decoder.new) (P.faults decoder.new) starts start_faults
        (O.holds out.new) (O.faults out.new) (E.holds err.new) (E.faults err.new))
        result }
{
    match ask_for_binaries(alloc, command, files) {
        Ok(given) => run_asked(
            alloc, command, more, given, files, decoder, lock, wire, disk, out, err,
        ),
        Err(fault) => failed(alloc, err, "", RunFault::from(fault)),
    }
}
