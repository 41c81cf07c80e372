//! Laws on runs: what follows from the contract of `run`.
ghost use Rattle.std.specs.Prelude.{◌≡◌, ◌++◌, ℕ, pos, List, [], Ok, Some};
ghost use Rattle.tame_entry.specs.ServerMaps.{ServerMap};
ghost use Rattle.tame_names.specs.Counts.{CountStayed};
ghost use Rattle.tame_cache.specs.Kept.{Disk, IsKept};
ghost use Rattle.tame_sparse.specs.Exchanges.{crates_io_index};
ghost use Rattle.tame_sparse.specs.Honest.{AreHonest};
ghost use Rattle.tame_sparse.specs.declared.network.Exchange.{Exchange};
ghost use Rattle.audit_lock.specs.declared.resolving.Package.{Package};
ghost use Rattle.audit_settings.specs.declared.configs.AuditConfig.{AuditConfig};
ghost use Rattle.audit_asked.specs.declared.asking.Asked.{Asked};
ghost use Rattle.audit_binaries.specs.Summaries.{AreHeld};
ghost use Rattle.audit_binaries.specs.declared.answers.BinariesAudit.{BinariesAudit};
ghost use Rattle.audit_core.specs.Checks.{asked_of, checks_of, judged_of};
ghost use Rattle.audit_core.specs.Remembered.{IsRememberedAt};
ghost use Rattle.audit_core.specs.Repeats.{AreKeptAnswers};
ghost use Rattle.audit_core.specs.Verdicts.{AreVerdicts, IsVerdictByHeldAt};
ghost use Rattle.audit_core.specs.declared.auditing.Audited.{Audited};
ghost use Rattle.audit_core.specs.declared.checking.Checks.TheVariants.{Off, Offline, Online};
ghost use Rattle.upgrade_plan.specs.HeldPlans.{ArePlannedByHeld};
ghost use Rattle.upgrade_plan.specs.declared.plans.PlanItem.{PlanItem};
ghost use Rattle.audit_program.specs.AgreeingRuns.{AgreeBehind, AllTell, AskAlike, BeginAlike, EndAlike, IsQuiet};
ghost use Rattle.audit_program.specs.Causes.{Accepts};
ghost use Rattle.audit_program.specs.Completes.{AllStayed, IsComplete, IsReady};
ghost use Rattle.audit_program.specs.HonestRuns.{AsksOnline, IsHonestRun};
ghost use Rattle.audit_program.specs.Jobs.{Asking, NeedsNoHost, asking_of};
ghost use Rattle.audit_program.specs.LaterRuns.{AreAlone, IsBetween};
ghost use Rattle.audit_program.specs.RunHistories.{AllRemember, AsksBinariesOffline, AsksBinariesOnline, AsksOffline, RunHistory, exchanges_in_runs};
ghost use Rattle.audit_program.specs.Runs.{IsRun};
ghost use Rattle.audit_program.specs.Tasks.{AsksWith, Settles, task_asked};
ghost use Rattle.audit_remedies.specs.Remedies.{ReadsCache};
ghost use Rattle.audit_program.specs.Worlds.{World, telling, uncalled};
ghost use Rattle.audit_program.specs.declared.outcomes.Outcome.{Outcome};
ghost use Rattle.audit_program.specs.declared.tasks.Job.TheVariants as Job;
ghost use Rattle.audit_program.specs.declared.tasks.Task.{Task};

use audit_asked::Runner;
use audit_binaries::Decoder;
use tame_cache::CacheDisk;
use tame_names::{Files, Sink};
use tame_sparse::Wire;

/// The headline, of a run. If the arguments ask for an audit with online checks, over a server that
/// was honest and on a disk that was kept for what it held, the audit that the run has judges each
/// package of the default registry by what the server held when asked.
pub fn runs_match_the_server<
    F: Files,
    P: Decoder,
    R: Runner,
    W: Wire,
    D: CacheDisk,
    O: Sink,
    E: Sink,
>()
    ensures { (files files_now : F) (decoder decoder_now : P) (runner runner_now : R)
        (wire wire_now : W) (disk disk_now : D) (words : List (List ℕ)) (before now : World)
        (outcome : Outcome) (audited : Audited) (added : List Exchange)
        → IsRun (telling F.tells P.tells R.tells W.tells D.tells O.tells E.tells)
        (asking_of words)
        (uncalled (files_now ≡ files) (decoder_now ≡ decoder) (runner_now ≡ runner)
        (wire_now ≡ wire) (disk_now ≡ disk)) before now outcome
        → outcome.audited ≡ Some audited
        → F.tells → AsksOnline (asking_of words) before.host → IsHonestRun
        (telling F.tells P.tells R.tells W.tells D.tells O.tells E.tells) before now added
        → AreVerdicts (IsVerdictByHeldAt added audited.turns) (judged_of Online audited.lockfile)
        audited.verdicts }
{}

/// The same of audits of binaries: of the exchanges of the run each audit has its own, in their
/// order, and judges each package of the default registry by what the server held when asked.
pub fn binaries_match_the_server<
    F: Files,
    P: Decoder,
    R: Runner,
    W: Wire,
    D: CacheDisk,
    O: Sink,
    E: Sink,
>()
    ensures { (files files_now : F) (decoder decoder_now : P) (runner runner_now : R)
        (wire wire_now : W) (disk disk_now : D) (words : List (List ℕ)) (before now : World)
        (outcome : Outcome) (b : BinariesAudit) (added : List Exchange)
        → IsRun (telling F.tells P.tells R.tells W.tells D.tells O.tells E.tells)
        (asking_of words)
        (uncalled (files_now ≡ files) (decoder_now ≡ decoder) (runner_now ≡ runner)
        (wire_now ≡ wire) (disk_now ≡ disk)) before now outcome
        → outcome.binaries ≡ Some b
        → F.tells → AsksBinariesOnline (asking_of words) before.host → IsHonestRun
        (telling F.tells P.tells R.tells W.tells D.tells O.tells E.tells) before now added
        → AreHeld Online added b.answers }
{}

/// In every history of runs of any commands, of crashes at any moment, and of changes by others of
/// anything but the cache, which begins without cache files, or with nothing pending and files that
/// are all refused, and whose exchanges are honest for a map of what a server held, the cache is
/// kept for that map after each step.
pub fn runs_in_histories_keep<
    F: Files,
    P: Decoder,
    R: Runner,
    W: Wire,
    D: CacheDisk,
    O: Sink,
    E: Sink,
>()
    ensures { (m : ServerMap) (began now : World) → W.tells → D.tells
        → RunHistory F P R W D
        (telling F.tells P.tells R.tells W.tells D.tells O.tells E.tells) m began now
        → IsKept m crates_io_index [] now.cache }
{}

/// The headline of a run in such a history, which asks nothing of the cache: if its exchanges are
/// honest for the same map, the audit of a lockfile judges each package by what the server held
/// when asked, and so do the audits of binaries.
pub fn runs_in_histories_match_the_server<
    F: Files,
    P: Decoder,
    R: Runner,
    W: Wire,
    D: CacheDisk,
    O: Sink,
    E: Sink,
>()
    ensures lockfiles { (files files_now : F) (decoder decoder_now : P) (runner runner_now : R)
        (wire wire_now : W) (disk disk_now : D) (words : List (List ℕ))
        (m : ServerMap) (began before now : World) (outcome : Outcome) (audited : Audited)
        (added : List Exchange) → F.tells → W.tells → D.tells
        → RunHistory F P R W D
        (telling F.tells P.tells R.tells W.tells D.tells O.tells E.tells) m began before
        → IsRun (telling F.tells P.tells R.tells W.tells D.tells O.tells E.tells)
        (asking_of words)
        (uncalled (files_now ≡ files) (decoder_now ≡ decoder) (runner_now ≡ runner)
        (wire_now ≡ wire) (disk_now ≡ disk)) before now outcome
        → outcome.audited ≡ Some audited → AsksOnline (asking_of words) before.host
        → now.exchanges ≡ before.exchanges ++ added → AreHonest m added
        → AreVerdicts (IsVerdictByHeldAt added audited.turns) (judged_of Online audited.lockfile)
        audited.verdicts }
    ensures binaries { (files files_now : F) (decoder decoder_now : P) (runner runner_now : R)
        (wire wire_now : W) (disk disk_now : D) (words : List (List ℕ))
        (m : ServerMap) (began before now : World) (outcome : Outcome) (b : BinariesAudit)
        (added : List Exchange) → F.tells → W.tells → D.tells
        → RunHistory F P R W D
        (telling F.tells P.tells R.tells W.tells D.tells O.tells E.tells) m began before
        → IsRun (telling F.tells P.tells R.tells W.tells D.tells O.tells E.tells)
        (asking_of words)
        (uncalled (files_now ≡ files) (decoder_now ≡ decoder) (runner_now ≡ runner)
        (wire_now ≡ wire) (disk_now ≡ disk)) before now outcome
        → outcome.binaries ≡ Some b → AsksBinariesOnline (asking_of words) before.host
        → now.exchanges ≡ before.exchanges ++ added → AreHonest m added
        → AreHeld Online added b.answers }
{}

/// What offline runs remember. In such a history the verdicts of an offline audit, of a lockfile or
/// of a binary, are the table's over bodies that the server held and sent in an exchange of the
/// history with the package's path; or the package is unchecked, since the cache has nothing of it
/// or couldn't be read.
pub fn offline_runs_in_histories_remember<
    F: Files,
    P: Decoder,
    R: Runner,
    W: Wire,
    D: CacheDisk,
    O: Sink,
    E: Sink,
>()
    ensures lockfiles { (files files_now : F) (decoder decoder_now : P) (runner runner_now : R)
        (wire wire_now : W) (disk disk_now : D) (words : List (List ℕ))
        (m : ServerMap) (began before now : World) (outcome : Outcome) (audited : Audited)
        (history : RunHistory F P R W D
        (telling F.tells P.tells R.tells W.tells D.tells O.tells E.tells) m began before)
        → F.tells → W.tells → D.tells
        → IsRun (telling F.tells P.tells R.tells W.tells D.tells O.tells E.tells)
        (asking_of words)
        (uncalled (files_now ≡ files) (decoder_now ≡ decoder) (runner_now ≡ runner)
        (wire_now ≡ wire) (disk_now ≡ disk)) before now outcome
        → outcome.audited ≡ Some audited → AsksOffline (asking_of words) before.host
        → AreVerdicts (IsRememberedAt (exchanges_in_runs F P R W D
        (telling F.tells P.tells R.tells W.tells D.tells O.tells E.tells) m began before history)
        audited.turns) (judged_of Offline audited.lockfile) audited.verdicts }
    ensures binaries { (files files_now : F) (decoder decoder_now : P) (runner runner_now : R)
        (wire wire_now : W) (disk disk_now : D) (words : List (List ℕ))
        (m : ServerMap) (began before now : World) (outcome : Outcome) (b : BinariesAudit)
        (history : RunHistory F P R W D
        (telling F.tells P.tells R.tells W.tells D.tells O.tells E.tells) m began before)
        → F.tells → W.tells → D.tells
        → IsRun (telling F.tells P.tells R.tells W.tells D.tells O.tells E.tells)
        (asking_of words)
        (uncalled (files_now ≡ files) (decoder_now ≡ decoder) (runner_now ≡ runner)
        (wire_now ≡ wire) (disk_now ≡ disk)) before now outcome
        → outcome.binaries ≡ Some b → AsksBinariesOffline (asking_of words) before.host
        → AllRemember Offline (exchanges_in_runs F P R W D
        (telling F.tells P.tells R.tells W.tells D.tells O.tells E.tells) m began before history)
        b.answers }
{}

/// The plan of a run says what the server held when the run asked it. If versions were checked
/// online over an honest server, on a disk that was kept for what it held, each item is by the
/// records of the lines of the body that was held in the exchange of its path, provided that no
/// call on the disk failed in the path's turn, and the answer was 304, or 200 with a plain body.
pub fn plans_of_runs_tell_what_the_server_held<
    F: Files,
    P: Decoder,
    R: Runner,
    W: Wire,
    D: CacheDisk,
    O: Sink,
    E: Sink,
>()
    ensures { (files files_now : F) (decoder decoder_now : P) (runner runner_now : R)
        (wire wire_now : W) (disk disk_now : D) (task : Task) (given : Asked)
        (before now : World) (outcome : Outcome) (items : List PlanItem) (audited : Audited)
        (added : List Exchange)
        → IsRun (telling F.tells P.tells R.tells W.tells D.tells O.tells E.tells)
        (Ok (Job.Lockfile task))
        (uncalled (files_now ≡ files) (decoder_now ≡ decoder) (runner_now ≡ runner)
        (wire_now ≡ wire) (disk_now ≡ disk)) before now outcome
        → outcome.audited ≡ Some audited → outcome.plan ≡ Some items
        → F.tells → task_asked task before.host (pos 0) ≡ Ok given
        → checks_of given.config ≡ Online → IsHonestRun
        (telling F.tells P.tells R.tells W.tells D.tells O.tells E.tells) before now added
        → ArePlannedByHeld given.advisories audited added items }
{}

/// The same in a history of runs, which asks nothing of the cache: the plan of a run whose
/// exchanges are honest for the map of the history says what the server held when the run asked it.
pub fn plans_of_runs_in_histories_tell_what_the_server_held<
    F: Files,
    P: Decoder,
    R: Runner,
    W: Wire,
    D: CacheDisk,
    O: Sink,
    E: Sink,
>()
    ensures { (files files_now : F) (decoder decoder_now : P) (runner runner_now : R)
        (wire wire_now : W) (disk disk_now : D) (task : Task) (given : Asked)
        (m : ServerMap) (began before now : World) (outcome : Outcome) (items : List PlanItem)
        (audited : Audited) (added : List Exchange) → F.tells → W.tells → D.tells
        → RunHistory F P R W D
        (telling F.tells P.tells R.tells W.tells D.tells O.tells E.tells) m began before
        → IsRun (telling F.tells P.tells R.tells W.tells D.tells O.tells E.tells)
        (Ok (Job.Lockfile task))
        (uncalled (files_now ≡ files) (decoder_now ≡ decoder) (runner_now ≡ runner)
        (wire_now ≡ wire) (disk_now ≡ disk)) before now outcome
        → outcome.audited ≡ Some audited → outcome.plan ≡ Some items
        → task_asked task before.host (pos 0) ≡ Ok given → checks_of given.config ≡ Online
        → now.exchanges ≡ before.exchanges ++ added → AreHonest m added
        → ArePlannedByHeld given.advisories audited added items }
{}

/// An offline run says what the last online run of its packages saw. If each answer of the
/// online run was not-modified or is stored, no call on the disk failed in either, and nothing was
/// pending of the packages' files before it, an offline audit of the same packages has the same
/// verdicts, whatever runs that left these files, and crashes of such runs, came between; for every
/// server and every disk.
pub fn offline_runs_say_what_online_runs_saw<
    F: Files,
    P: Decoder,
    R: Runner,
    W: Wire,
    D: CacheDisk,
    O: Sink,
    E: Sink,
>()
    ensures { (files files_now files_too files_now_too : F)
        (decoder decoder_now decoder_too decoder_now_too : P)
        (runner runner_now runner_too runner_now_too : R)
        (wire wire_now wire_too wire_now_too : W) (disk disk_now disk_too disk_now_too : D)
        (asking asking_too : Asking) (before now before_too now_too : World)
        (outcome outcome_too : Outcome) (audited again : Audited) (added : List Exchange)
        (began : Disk) → F.tells → W.tells → D.tells
        → IsRun (telling F.tells P.tells R.tells W.tells D.tells O.tells E.tells) asking
        (uncalled (files_now ≡ files) (decoder_now ≡ decoder) (runner_now ≡ runner)
        (wire_now ≡ wire) (disk_now ≡ disk)) before now outcome
        → IsRun (telling F.tells P.tells R.tells W.tells D.tells O.tells E.tells) asking_too
        (uncalled (files_now_too ≡ files_too) (decoder_now_too ≡ decoder_too)
        (runner_now_too ≡ runner_too) (wire_now_too ≡ wire_too) (disk_now_too ≡ disk_too))
        before_too now_too outcome_too
        → outcome.audited ≡ Some audited → outcome_too.audited ≡ Some again
        → AsksOnline asking before.host → AsksOffline asking_too before_too.host
        → now.exchanges ≡ before.exchanges ++ added → AreKeptAnswers added
        → CountStayed before.disk_faults now.disk_faults
        → CountStayed before_too.disk_faults now_too.disk_faults
        → AreAlone (asked_of Online audited.lockfile) before.cache
        → IsBetween (asked_of Online audited.lockfile) now.cache began before_too.cache
        → again.lockfile ≡ audited.lockfile → again.verdicts ≡ audited.verdicts }
{}

/// A run can't make up a fault. If the host gives all that is asked for, and no call on its files,
/// no start and no output failed, its only fault may be out of memory, or that a registry couldn't
/// be created.
pub fn runs_are_complete<F: Files, P: Decoder, R: Runner, W: Wire, D: CacheDisk, O: Sink, E: Sink>()
    ensures { (files files_now : F) (decoder decoder_now : P) (runner runner_now : R)
        (wire wire_now : W) (disk disk_now : D) (asking : Asking) (before now : World)
        (outcome : Outcome)
        → IsRun (telling F.tells P.tells R.tells W.tells D.tells O.tells E.tells) asking
        (uncalled (files_now ≡ files) (decoder_now ≡ decoder) (runner_now ≡ runner)
        (wire_now ≡ wire) (disk_now ≡ disk)) before now outcome
        → F.tells → IsReady asking before.host → AllStayed before now
        → IsComplete outcome.fault }
{}

/// Help, the version, made packages and arguments that break a rule need nothing but the outputs:
/// no other call is made.
pub fn texts_need_no_host<
    F: Files,
    P: Decoder,
    R: Runner,
    W: Wire,
    D: CacheDisk,
    O: Sink,
    E: Sink,
>()
    ensures { (files files_now : F) (decoder decoder_now : P) (runner runner_now : R)
        (wire wire_now : W) (disk disk_now : D) (asking : Asking) (before now : World)
        (outcome : Outcome)
        → IsRun (telling F.tells P.tells R.tells W.tells D.tells O.tells E.tells) asking
        (uncalled (files_now ≡ files) (decoder_now ≡ decoder) (runner_now ≡ runner)
        (wire_now ≡ wire) (disk_now ≡ disk)) before now outcome
        → NeedsNoHost asking
        → (files_now ≡ files) × (decoder_now ≡ decoder) × (runner_now ≡ runner)
        × (wire_now ≡ wire) × (disk_now ≡ disk) }
{}

/// If what the host has gives no lockfile, nothing is asked of the wire and the cache.
pub fn nothing_is_asked_without_a_lockfile<
    F: Files,
    P: Decoder,
    R: Runner,
    W: Wire,
    D: CacheDisk,
    O: Sink,
    E: Sink,
>()
    ensures { (files files_now : F) (decoder decoder_now : P) (runner runner_now : R)
        (wire wire_now : W) (disk disk_now : D) (task : Task) (before now : World)
        (outcome : Outcome)
        → IsRun (telling F.tells P.tells R.tells W.tells D.tells O.tells E.tells)
        (Ok (Job.Lockfile task))
        (uncalled (files_now ≡ files) (decoder_now ≡ decoder) (runner_now ≡ runner)
        (wire_now ≡ wire) (disk_now ≡ disk)) before now outcome
        → F.tells → ((given : Asked) (packages : List Package)
        → Accepts (Ok (Job.Lockfile task)) before.host given packages → ⊥)
        → (wire_now ≡ wire) × (disk_now ≡ disk) }
{}

/// If checks are off, neither wire nor disk is called, except for a plan and a registry, which read
/// the cache.
pub fn nothing_is_called_where_checks_are_off<
    F: Files,
    P: Decoder,
    R: Runner,
    W: Wire,
    D: CacheDisk,
    O: Sink,
    E: Sink,
>()
    ensures { (files files_now : F) (decoder decoder_now : P) (runner runner_now : R)
        (wire wire_now : W) (disk disk_now : D) (asking : Asking) (before now : World)
        (outcome : Outcome) (config : AuditConfig)
        → IsRun (telling F.tells P.tells R.tells W.tells D.tells O.tells E.tells) asking
        (uncalled (files_now ≡ files) (decoder_now ≡ decoder) (runner_now ≡ runner)
        (wire_now ≡ wire) (disk_now ≡ disk)) before now outcome
        → F.tells → Settles asking before.host config → checks_of config ≡ Off
        → (AsksWith ReadsCache asking → ⊥) → (wire_now ≡ wire) × (disk_now ≡ disk) }
{}

/// Two runs agree: the contract determines what a run does. The premises: the same arguments, equal
/// hosts; all that is outside is told; starts end alike; both servers were honest and answered
/// alike, or all answered the same over caches that read the same; no other call failed and memory
/// sufficed. Then they print the same on `out` and `err`, end with the same status and with faults
/// that are reported alike, start the same programs, and leave the same files. For a plan or a
/// registry over honest servers each answer must be 304 or 200 with a plain body, or both audits
/// leave caches that read the same.
pub fn runs_agree<F: Files, P: Decoder, R: Runner, W: Wire, D: CacheDisk, O: Sink, E: Sink>()
    ensures { (files files_now files_too files_now_too : F)
        (decoder decoder_now decoder_too decoder_now_too : P)
        (runner runner_now runner_too runner_now_too : R)
        (wire wire_now wire_too wire_now_too : W) (disk disk_now disk_too disk_now_too : D)
        (asking : Asking) (before now before_too now_too : World)
        (outcome outcome_too : Outcome)
        → AllTell (telling F.tells P.tells R.tells W.tells D.tells O.tells E.tells)
        → IsRun (telling F.tells P.tells R.tells W.tells D.tells O.tells E.tells) asking
        (uncalled (files_now ≡ files) (decoder_now ≡ decoder) (runner_now ≡ runner)
        (wire_now ≡ wire) (disk_now ≡ disk)) before now outcome
        → IsRun (telling F.tells P.tells R.tells W.tells D.tells O.tells E.tells) asking
        (uncalled (files_now_too ≡ files_too) (decoder_now_too ≡ decoder_too)
        (runner_now_too ≡ runner_too) (wire_now_too ≡ wire_too) (disk_now_too ≡ disk_too))
        before_too now_too outcome_too
        → IsQuiet before now outcome.fault → IsQuiet before_too now_too outcome_too.fault
        → BeginAlike before before_too → EndAlike now.starts now_too.starts
        → AskAlike asking (telling F.tells P.tells R.tells W.tells D.tells O.tells E.tells)
        (telling F.tells P.tells R.tells W.tells D.tells O.tells E.tells)
        before now before_too now_too → AgreeBehind now now_too outcome outcome_too }
{}
