//! Laws on the lock of the cache: what follows from the contract of `run`.
ghost use Rattle.std.specs.Prelude.{◌≡◌, ◌≢◌, ◌++◌, ℕ, List, Some};
ghost use Rattle.tame_entry.specs.ServerMaps.{ServerMap};
ghost use Rattle.tame_names.specs.declared.locks.LockState.TheVariants as LockState;
ghost use Rattle.tame_sparse.specs.Honest.{AreHonest};
ghost use Rattle.tame_sparse.specs.declared.network.Exchange.{Exchange};
ghost use Rattle.audit_core.specs.Checks.{judged_of};
ghost use Rattle.audit_core.specs.Verdicts.{AreVerdicts, IsVerdictByHeldAt};
ghost use Rattle.audit_core.specs.declared.auditing.Audited.{Audited};
ghost use Rattle.audit_core.specs.declared.checking.Checks.TheVariants.{Online};
ghost use Rattle.audit_program.specs.HonestRuns.{AsksOnline};
ghost use Rattle.audit_program.specs.Jobs.{Asking};
ghost use Rattle.audit_program.specs.RunHistories.{RunHistory};
ghost use Rattle.audit_program.specs.Runs.{IsRun};
ghost use Rattle.audit_program.specs.Worlds.{World, telling, uncalled};
ghost use Rattle.audit_program.specs.declared.outcomes.Outcome.{Outcome};
ghost use Rattle.audit_start.specs.LockHistories.{Holders, IsHolder, LockHistory};
ghost use Rattle.audit_start.specs.Needs.{lock_of};

use audit_asked::Runner;
use audit_binaries::Decoder;
use tame_cache::CacheDisk;
use tame_names::{Files, Sink};
use tame_sparse::Wire;

/// The lock suffices. A run that needs none by its arguments doesn't call the cache. One that needs
/// it for itself alone may change the cache; any other leaves every file of it as it was, a plan
/// and a registry too.
pub fn locks_suffice<F: Files, P: Decoder, R: Runner, W: Wire, D: CacheDisk, O: Sink, E: Sink>()
    ensures unlocked { (files files_now : F) (decoder decoder_now : P) (runner runner_now : R)
        (wire wire_now : W) (disk disk_now : D) (asking : Asking) (before now : World)
        (outcome : Outcome)
        → IsRun (telling F.tells P.tells R.tells W.tells D.tells O.tells E.tells) asking
        (uncalled (files_now ≡ files) (decoder_now ≡ decoder) (runner_now ≡ runner)
        (wire_now ≡ wire) (disk_now ≡ disk)) before now outcome
        → F.tells → lock_of asking ≡ LockState.Unlocked → disk_now ≡ disk }
    ensures shared { (files files_now : F) (decoder decoder_now : P) (runner runner_now : R)
        (wire wire_now : W) (disk disk_now : D) (asking : Asking) (before now : World)
        (outcome : Outcome)
        → IsRun (telling F.tells P.tells R.tells W.tells D.tells O.tells E.tells) asking
        (uncalled (files_now ≡ files) (decoder_now ≡ decoder) (runner_now ≡ runner)
        (wire_now ≡ wire) (disk_now ≡ disk)) before now outcome
        → before.cache ≡ D.past disk → now.cache ≡ D.past disk_now → F.tells → D.tells
        → lock_of asking ≢ LockState.Exclusive → (q : List ℕ) → now.cache q ≡ before.cache q }
{}

/// Runs at once are a history. Runs on one cache, each between the taking and the giving back of
/// its lock, under a lock that excludes, have left what a history of runs one after the other
/// leaves; and each that holds the lock took it at the end of such a history.
pub fn runs_at_once_are_a_history<
    F: Files,
    P: Decoder,
    R: Runner,
    W: Wire,
    D: CacheDisk,
    O: Sink,
    E: Sink,
>()
    ensures all { (m : ServerMap) (began now : World) (holders : Holders) → F.tells → D.tells
        → LockHistory F P R W D D.past
        (telling F.tells P.tells R.tells W.tells D.tells O.tells E.tells) m began now holders
        → RunHistory F P R W D
        (telling F.tells P.tells R.tells W.tells D.tells O.tells E.tells) m began now }
    ensures each { (m : ServerMap) (began now taken : World) (holders : Holders)
        → F.tells → D.tells
        → LockHistory F P R W D D.past
        (telling F.tells P.tells R.tells W.tells D.tells O.tells E.tells) m began now holders
        → IsHolder taken holders → RunHistory F P R W D
        (telling F.tells P.tells R.tells W.tells D.tells O.tells E.tells) m taken taken }
{}

/// The headline of each of them. A run that took the lock so, whose exchanges are honest for the
/// map of the others, and whose arguments ask for an audit with online checks, judges each package
/// of the default registry by what the server held when asked. It asks nothing of the cache.
pub fn runs_at_once_match_the_server<
    F: Files,
    P: Decoder,
    R: Runner,
    W: Wire,
    D: CacheDisk,
    O: Sink,
    E: Sink,
>()
    ensures { (files files_now : F) (decoder decoder_now : P) (runner runner_now : R)
        (wire wire_now : W) (disk disk_now : D) (m : ServerMap) (began now taken next : World)
        (holders : Holders) (asking : Asking) (outcome : Outcome) (audited : Audited)
        (added : List Exchange) → F.tells → W.tells → D.tells
        → LockHistory F P R W D D.past
        (telling F.tells P.tells R.tells W.tells D.tells O.tells E.tells) m began now holders
        → IsHolder taken holders
        → IsRun (telling F.tells P.tells R.tells W.tells D.tells O.tells E.tells) asking
        (uncalled (files_now ≡ files) (decoder_now ≡ decoder) (runner_now ≡ runner)
        (wire_now ≡ wire) (disk_now ≡ disk)) taken next outcome
        → outcome.audited ≡ Some audited → AsksOnline asking taken.host
        → next.exchanges ≡ taken.exchanges ++ added → AreHonest m added
        → AreVerdicts (IsVerdictByHeldAt added audited.turns) (judged_of Online audited.lockfile)
        audited.verdicts }
{}
