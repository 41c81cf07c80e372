//! A law on standard input: what follows from the contract of `run`.
ghost use Rattle.std.specs.Prelude.{◌≡◌, [], Ok, Some};
ghost use Rattle.tame_names.specs.Standing.{IsInput};
ghost use Rattle.audit_core.specs.declared.auditing.Audited.{Audited};
ghost use Rattle.audit_program.specs.Runs.{IsRun};
ghost use Rattle.audit_program.specs.Tasks.{task_place};
ghost use Rattle.audit_program.specs.Worlds.{World, telling, uncalled};
ghost use Rattle.audit_program.specs.declared.outcomes.Outcome.{Outcome};
ghost use Rattle.audit_program.specs.declared.tasks.Job.TheVariants as Job;
ghost use Rattle.audit_program.specs.declared.tasks.Task.{Task};
ghost use Rattle.audit_remedies.specs.Remedies.{MakesRegistry};

use audit_asked::Runner;
use audit_binaries::Decoder;
use tame_cache::CacheDisk;
use tame_names::{Files, Sink};
use tame_sparse::Wire;

/// If a run has the audit of a lockfile that it read from standard input, nothing is left of the
/// input, whatever was done with the audit. If a run creates a registry, the disk must be told too.
pub fn nothing_is_left_of_the_input<
    F: Files,
    P: Decoder,
    R: Runner,
    W: Wire,
    D: CacheDisk,
    O: Sink,
    E: Sink,
>()
    ensures { (files files_now : F) (decoder decoder_now : P) (runner runner_now : R)
        (wire wire_now : W) (disk disk_now : D) (task : Task) (before now : World)
        (outcome : Outcome) (audited : Audited)
        → IsRun (telling F.tells P.tells R.tells W.tells D.tells O.tells E.tells)
        (Ok (Job.Lockfile task))
        (uncalled (files_now ≡ files) (decoder_now ≡ decoder) (runner_now ≡ runner)
        (wire_now ≡ wire) (disk_now ≡ disk)) before now outcome
        → F.tells → outcome.audited ≡ Some audited → IsInput (task_place task)
        → (MakesRegistry task.remedy → D.tells) → now.host.input ≡ [] }
{}
