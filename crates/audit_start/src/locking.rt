//! The lock of the cache's folder: of runs that use one folder at once, one writes its cache, or
//! some read it.
ghost use Rattle.std.specs.Prelude.{◌≡◌, ◌≤◌, false, None, IfOk, IfErr, IsOk};
ghost use Rattle.std.specs.Cow.{cow_str_bytes};
ghost use Rattle.std.specs.Fn.{FnReturnsAt};
ghost use Rattle.tame_location.specs.Locks.{Holds, IsLockedAtOnce, Leaves, lock_moment};
ghost use Rattle.audit_remedies.specs.Outputs.{IsLinePut};
ghost use Rattle.audit_start.specs.Taking.{HoldsOrNone, IsTakenAs, IsTaking, IsTried, IsWaitedFor, LeavesAll, LeavesBut, shows, state_by, waiting_line};

use crate::faults::{StartFault, put_line};
use crate::starting::Start;
use std::alloc::Global;
use tame_location::LockOptions;
use tame_names::{Error, FileLock, Files, LockError, LockState, NoMemory, Sink};

/// The line while another run has the lock.
const WAITING_LINE: &str = "Blocking waiting for file lock on cache folder\n";

/// How the lock of the file at a path is to be taken.
fn options(path: &str, exclusive: bool) -> LockOptions<'_>
    ensures path { cow_str_bytes result.path ≡ path.now }
    ensures exclusive { result.exclusive ≡ exclusive }
    ensures fallback { result.fallback ≡ false }
{
    let shared = LockOptions::new(path);
    if exclusive {
        shared.exclusive(false)
    } else {
        shared
    }
}

/// The first try, which doesn't wait.
#[tactic(auto, using(crate::proofs::Taking::tried_as, crate::proofs::Taking::left_as))]
fn tried<F: Files>(
    alloc: Global,
    path: &str,
    exclusive: bool,
    files: &mut F,
) -> Result<Result<FileLock, LockError>, NoMemory>
    ensures steps { F.tells → IfOk result (λ held. IsLockedAtOnce exclusive false path.now
        (lock_moment (F.locks files.old) (F.host files.old)
        (F.faults files.old) (F.failed files.old))
        (lock_moment (F.locks files.new) (F.host files.new)
        (F.faults files.new) (F.failed files.new)) (state_by held)) }
    ensures left { F.tells → Leaves exclusive path.now (F.host files.old) (F.host files.new) }
    ensures holds { F.tells → IfOk result (λ held.
        Holds held (F.locks files.old) (F.locks files.new)) }
    ensures later { F.faults files.old ≤ F.faults files.new }
{
    match options(path, exclusive).try_lock(alloc, files) {
        Ok(lock) => Ok(Ok(lock)),
        Err(Error::Lock(fault)) => Ok(Err(fault.source)),
        Err(_) => Err(NoMemory),
    }
}

/// That the lock's turn is waited for, however long that takes.
fn without_limit(_path: &str) -> Option<u32>
    ensures { result ≡ None }
{
    None
}

/// The lock in its turn, or none if it can't be had.
#[tactic(auto, using(crate::proofs::Taking::left_as, crate::proofs::Taking::holds_none, crate::proofs::Taking::holds_one, crate::proofs::Taking::waited_held, crate::proofs::Taking::waited_refused))]
fn in_turn<F: Files>(
    alloc: Global,
    path: &str,
    exclusive: bool,
    files: &mut F,
) -> Result<FileLock, NoMemory>
    ensures steps { F.tells → IfOk result (λ lock. IsWaitedFor exclusive path.now
        (lock_moment (F.locks files.old) (F.host files.old)
        (F.faults files.old) (F.failed files.old))
        (lock_moment (F.locks files.new) (F.host files.new)
        (F.faults files.new) (F.failed files.new)) lock.state) }
    ensures left { F.tells → Leaves exclusive path.now (F.host files.old) (F.host files.new) }
    ensures holds { F.tells → IfOk result (λ lock.
        HoldsOrNone lock (F.locks files.old) (F.locks files.new)) }
    ensures later { F.faults files.old ≤ F.faults files.new }
{
    match options(path, exclusive).lock(alloc, files, without_limit) {
        Ok(lock) => Ok(lock),
        Err(Error::Lock(_)) => Ok(FileLock::unlocked()),
        Err(_) => Err(NoMemory),
    }
}

/// The lock of a file: at once, or in its turn, with a line until then.
#[tactic(auto, using(crate::proofs::Taking::held_after, crate::proofs::Taking::holds_none, crate::proofs::Taking::holds_one, crate::proofs::Taking::left_once, crate::proofs::Taking::left_twice, crate::proofs::Taking::try_held, crate::proofs::Taking::try_refused, crate::proofs::Taking::try_waited))]
fn take<F: Files, E: Sink>(
    alloc: Global,
    path: &str,
    exclusive: bool,
    files: &mut F,
    err: &mut E,
) -> Result<FileLock, NoMemory>
    ensures steps { F.tells → IfOk result (λ lock. IsTried
        (shows (err.new ≡ err.old) (E.tells → IsLinePut (E.holds err.old) waiting_line
        (E.holds err.new) (E.faults err.old) (E.faults err.new))) exclusive path.now
        (lock_moment (F.locks files.old) (F.host files.old)
        (F.faults files.old) (F.failed files.old))
        (lock_moment (F.locks files.new) (F.host files.new)
        (F.faults files.new) (F.failed files.new)) lock.state) }
    ensures left { F.tells → LeavesAll exclusive path.now
        (F.host files.old) (F.host files.new) }
    ensures holds { F.tells → IfOk result (λ lock.
        HoldsOrNone lock (F.locks files.old) (F.locks files.new)) }
    ensures later { F.faults files.old ≤ F.faults files.new }
    ensures err_later { E.faults err.old ≤ E.faults err.new }
{
    match tried(alloc, path, exclusive, files)? {
        Ok(held) => Ok(held),
        Err(LockError::Contested) => {
            put_line(err, WAITING_LINE.as_bytes());
            in_turn(alloc, path, exclusive, files)
        }
        Err(_) => Ok(FileLock::unlocked()),
    }
}

/// The same if a plain file or nothing is at the path, else no lock.
#[tactic(auto, using(crate::proofs::Taking::left_none, crate::proofs::Taking::holds_none, crate::proofs::Taking::take_other_of, crate::proofs::Taking::take_plain_of))]
fn take_plain<F: Files, E: Sink, G: Fn(&str) -> bool>(
    alloc: Global,
    path: &str,
    exclusive: bool,
    plain: G,
    files: &mut F,
    err: &mut E,
) -> Result<FileLock, StartFault>
    requires { G.IsAlwaysCallable plain }
    ensures steps { F.tells → IfOk result (λ lock. IsTaking (FnReturnsAt G.Fn plain path.now)
        (shows (err.new ≡ err.old) (E.tells → IsLinePut (E.holds err.old) waiting_line
        (E.holds err.new) (E.faults err.old) (E.faults err.new))) exclusive path.now
        (lock_moment (F.locks files.old) (F.host files.old)
        (F.faults files.old) (F.failed files.old))
        (lock_moment (F.locks files.new) (F.host files.new)
        (F.faults files.new) (F.failed files.new)) lock.state) }
    ensures left { F.tells → LeavesAll exclusive path.now
        (F.host files.old) (F.host files.new) }
    ensures holds { F.tells → IfOk result (λ lock.
        HoldsOrNone lock (F.locks files.old) (F.locks files.new)) }
    ensures only { IfErr result (λ e. e ≡ StartFault.NoMemory) }
    ensures later { F.faults files.old ≤ F.faults files.new }
    ensures err_later { E.faults err.old ≤ E.faults err.new }
{
    if plain(path) {
        Ok(take(alloc, path, exclusive, files, err)?)
    } else {
        Ok(FileLock::unlocked())
    }
}

/// Takes the lock of the cache's folder as the arguments call for it. While another run has it,
/// this waits, and a line on `err` says so. No lock is held if none is needed, or if none can be
/// had: in a folder that can't be written, on a file system without locks, or if a link, a folder
/// or another thing that is no plain file is at the path. Whether one is, `plain` says.
#[tactic(auto, using(crate::proofs::Taking::left_none, crate::proofs::Taking::holds_none))]
pub fn take_cache_lock<F: Files, E: Sink, G: Fn(&str) -> bool>(
    alloc: Global,
    start: &Start,
    plain: G,
    files: &mut F,
    err: &mut E,
) -> Result<FileLock, StartFault>
    requires { G.IsAlwaysCallable plain }
    ensures steps { F.tells → IfOk result (λ lock. IsTakenAs start.now.taken
        (FnReturnsAt G.Fn plain start.now.lock)
        (shows (err.new ≡ err.old) (E.tells → IsLinePut (E.holds err.old) waiting_line
        (E.holds err.new) (E.faults err.old) (E.faults err.new))) start.now.lock
        (lock_moment (F.locks files.old) (F.host files.old)
        (F.faults files.old) (F.failed files.old))
        (lock_moment (F.locks files.new) (F.host files.new)
        (F.faults files.new) (F.failed files.new)) lock.state) }
    ensures left { F.tells → LeavesBut start.now.taken start.now.lock
        (F.host files.old) (F.host files.new) }
    ensures holds { F.tells → IfOk result (λ lock.
        HoldsOrNone lock (F.locks files.old) (F.locks files.new)) }
    ensures unneeded { start.now.taken ≡ LockState.Unlocked
        → (files.new ≡ files.old) × (err.new ≡ err.old) × IsOk result }
    ensures only { IfErr result (λ e. e ≡ StartFault.NoMemory) }
    ensures later { F.faults files.old ≤ F.faults files.new }
    ensures err_later { E.faults err.old ≤ E.faults err.new }
{
    let path = start.lock.as_str();
    match start.taken {
        LockState::Unlocked => Ok(FileLock::unlocked()),
        LockState::Shared => take_plain(alloc, path, false, plain, files, err),
        LockState::Exclusive => take_plain(alloc, path, true, plain, files, err),
    }
}
