//! Locks of files, as cargo takes one on its package cache.
ghost use Rattle.std.specs.Prelude.{◌≡◌, ◌≤◌, ℕ, Ok, Err, Some, true, false, take as first, IfOk, IfErr, IsErr};
ghost use Rattle.tame_names.specs.Changes.{with_folders};
ghost use Rattle.tame_names.specs.Locks.{HasLockCause, MayMake, fault_of};
ghost use Rattle.tame_names.specs.Paths.{parent as parent_of};
ghost use Rattle.tame_location.specs.Locks.{AreTries, Follows, Gives, GivesAt, IsAgain, IsBelow, IsExclusive, IsMade, IsOpenRefusal, IsShared, IsTakeRefusal, IsTakenAt, IsTakenBy, IsTaking, IsTryRefusal, Leaves, Opens, Takes, Tells, TellsTaken, folder_ways, lock_moment};
ghost use Rattle.tame_location.specs.Locks as spec;

use tame_names::{
    FileFault, Files, LockError, LockOpenFault, LockState, LockTakeFault, NoMemory, OpenedLock,
    parent,
};

/// Why a lock isn't held.
#[derive(Clone, Copy)]
pub enum LockRefusal {
    /// What the steps on it answered.
    Lock(LockError),
    /// Out of memory.
    NoMemory,
}

impl From<NoMemory> for LockRefusal {
    ghost use Rattle.tame_location.specs.declared.locks.LockRefusal.TheVariants.{NoMemory as no_memory};

    ghost from_gives = { λ _ e. e ≡ no_memory };

    fn from(_: NoMemory) -> LockRefusal {
        LockRefusal::NoMemory
    }
}

/// The error of a refused opening.
fn refused_open(fault: LockOpenFault) -> LockError
    ensures { result ≡ spec.refused_open fault }
{
    match fault {
        LockOpenFault::Denied => LockError::Readonly,
        LockOpenFault::NotFound | LockOpenFault::Failed => LockError::Open,
    }
}

/// An opening of the file.
fn opening<F: Files>(
    files: &mut F,
    path: &str,
    exclusive: bool,
) -> Result<Result<OpenedLock, LockOpenFault>, NoMemory>
    ensures opens { F.tells → IfOk result (λ answer. Opens path.now exclusive (fault_of answer)
        (lock_moment (F.locks files.old) (F.host files.old)
        (F.faults files.old) (F.failed files.old))
        (lock_moment (F.locks files.new) (F.host files.new)
        (F.faults files.new) (F.failed files.new))) }
    ensures gives { F.tells → GivesAt result (F.locks files.old) (F.locks files.new) }
    ensures same { F.tells → IsErr result → F.host files.new ≡ F.host files.old }
    ensures shared { F.tells → exclusive ≡ false → F.host files.new ≡ F.host files.old }
    ensures later { F.faults files.old ≤ F.faults files.new }
{
    files.open_lock(path, exclusive)
}

/// A shared opening.
pub fn open_shared<F: Files>(
    files: &mut F,
    path: &str,
) -> Result<(OpenedLock, LockState), LockRefusal>
    ensures steps { F.tells → Tells (IsShared path.now
        (lock_moment (F.locks files.old) (F.host files.old)
        (F.faults files.old) (F.failed files.old))
        (lock_moment (F.locks files.new) (F.host files.new)
        (F.faults files.new) (F.failed files.new))) result }
    ensures same { F.tells → F.host files.new ≡ F.host files.old }
    ensures gives { F.tells → Gives result (F.locks files.old) (F.locks files.new) }
    ensures only { IfErr result IsOpenRefusal }
    ensures later { F.faults files.old ≤ F.faults files.new }
{
    match opening(files, path, false)? {
        Ok(opened) => Ok((opened, LockState::Shared)),
        Err(fault) => Err(LockRefusal::Lock(refused_open(fault))),
    }
}

/// What follows a refused exclusive opening, apart from its folder: a shared one if it was denied,
/// and if that may take its place.
fn fall_back<F: Files>(
    files: &mut F,
    path: &str,
    fallback: bool,
    fault: LockOpenFault,
) -> Result<(OpenedLock, LockState), LockRefusal>
    ensures steps { F.tells → Tells (Follows fallback path.now (Some fault)
        (lock_moment (F.locks files.old) (F.host files.old)
        (F.faults files.old) (F.failed files.old))
        (lock_moment (F.locks files.new) (F.host files.new)
        (F.faults files.new) (F.failed files.new))) result }
    ensures same { F.tells → F.host files.new ≡ F.host files.old }
    ensures gives { F.tells → Gives result (F.locks files.old) (F.locks files.new) }
    ensures only { IfErr result IsOpenRefusal }
    ensures later { F.faults files.old ≤ F.faults files.new }
{
    match fault {
        LockOpenFault::Denied => {
            if fallback {
                open_shared(files, path)
            } else {
                Err(LockRefusal::Lock(LockError::Readonly))
            }
        }
        LockOpenFault::NotFound | LockOpenFault::Failed => Err(LockRefusal::Lock(LockError::Open)),
    }
}

/// An exclusive opening once the folder is created.
fn open_again<F: Files>(
    files: &mut F,
    path: &str,
    fallback: bool,
) -> Result<(OpenedLock, LockState), LockRefusal>
    ensures steps { F.tells → Tells (IsAgain fallback path.now
        (lock_moment (F.locks files.old) (F.host files.old)
        (F.faults files.old) (F.failed files.old))
        (lock_moment (F.locks files.new) (F.host files.new)
        (F.faults files.new) (F.failed files.new))) result }
    ensures left { F.tells → MayMake true path.now (F.host files.old) (F.host files.new) }
    ensures gives { F.tells → Gives result (F.locks files.old) (F.locks files.new) }
    ensures only { IfErr result IsOpenRefusal }
    ensures later { F.faults files.old ≤ F.faults files.new }
{
    match opening(files, path, true)? {
        Ok(opened) => Ok((opened, LockState::Exclusive)),
        Err(fault) => fall_back(files, path, fallback, fault),
    }
}

/// Creates the folder above a path; whether it was created, or was there.
fn make_folder<F: Files>(files: &mut F, path: &str) -> Result<bool, NoMemory>
    ensures made { F.tells → IfOk result (λ made. IsMade made (parent_of path.now)
        (lock_moment (F.locks files.old) (F.host files.old)
        (F.faults files.old) (F.failed files.old))
        (lock_moment (F.locks files.new) (F.host files.new)
        (F.faults files.new) (F.failed files.new))) }
    ensures left { F.tells → (n : ℕ) × (F.host files.new
        ≡ with_folders (first n (folder_ways (parent_of path.now))) (F.host files.old)) }
    ensures locks { F.tells → F.locks files.new ≡ F.locks files.old }
    ensures later { F.faults files.old ≤ F.faults files.new }
{
    let Some(folder) = parent(path) else {
        return Ok(false);
    };
    if folder.is_empty() {
        return Ok(true);
    }
    match files.make_dirs(folder) {
        Ok(()) => Ok(true),
        Err(FileFault::Failed) => Ok(false),
        Err(FileFault::NoMemory) => Err(NoMemory),
    }
}

/// What follows an exclusive opening that found nothing.
fn open_below<F: Files>(
    files: &mut F,
    path: &str,
    fallback: bool,
) -> Result<(OpenedLock, LockState), LockRefusal>
    ensures steps { F.tells → Tells (IsBelow fallback path.now
        (lock_moment (F.locks files.old) (F.host files.old)
        (F.faults files.old) (F.failed files.old))
        (lock_moment (F.locks files.new) (F.host files.new)
        (F.faults files.new) (F.failed files.new))) result }
    ensures left { F.tells → Leaves true path.now (F.host files.old) (F.host files.new) }
    ensures gives { F.tells → Gives result (F.locks files.old) (F.locks files.new) }
    ensures only { IfErr result IsOpenRefusal }
    ensures later { F.faults files.old ≤ F.faults files.new }
{
    if make_folder(files, path)? {
        open_again(files, path, fallback)
    } else {
        Err(LockRefusal::Lock(LockError::CreateDir))
    }
}

/// An exclusive opening.
pub fn open_exclusive<F: Files>(
    files: &mut F,
    path: &str,
    fallback: bool,
) -> Result<(OpenedLock, LockState), LockRefusal>
    ensures steps { F.tells → Tells (IsExclusive fallback path.now
        (lock_moment (F.locks files.old) (F.host files.old)
        (F.faults files.old) (F.failed files.old))
        (lock_moment (F.locks files.new) (F.host files.new)
        (F.faults files.new) (F.failed files.new))) result }
    ensures left { F.tells → Leaves true path.now (F.host files.old) (F.host files.new) }
    ensures gives { F.tells → Gives result (F.locks files.old) (F.locks files.new) }
    ensures only { IfErr result IsOpenRefusal }
    ensures later { F.faults files.old ≤ F.faults files.new }
{
    match opening(files, path, true)? {
        Ok(opened) => Ok((opened, LockState::Exclusive)),
        Err(LockOpenFault::NotFound) => open_below(files, path, fallback),
        Err(LockOpenFault::Denied) => fall_back(files, path, fallback, LockOpenFault::Denied),
        Err(LockOpenFault::Failed) => Err(LockRefusal::Lock(LockError::Open)),
    }
}

// ---- taking

/// A taking of the lock.
pub fn taking<F: Files>(
    files: &mut F,
    path: &str,
    opened: &OpenedLock,
    exclusive: bool,
    block: bool,
) -> Result<Result<(), LockTakeFault>, NoMemory>
    ensures takes { F.tells → IfOk result (λ answer. Takes path.now exclusive block
        (fault_of answer)
        (lock_moment (F.locks files.old) (F.host files.old)
        (F.faults files.old) (F.failed files.old))
        (lock_moment (F.locks files.new) (F.host files.new)
        (F.faults files.new) (F.failed files.new))) }
    ensures taken { F.tells → IsTakenAt opened.now result
        (F.locks files.old) (F.locks files.new) }
    ensures cause { HasLockCause (result ≡ Ok (Err LockTakeFault.Failed))
        (F.faults files.old) (F.faults files.new) }
    ensures contested { result ≡ Ok (Err LockTakeFault.Contested) → block ≡ false }
    ensures same { F.tells → F.host files.new ≡ F.host files.old }
{
    files.take_lock(path, opened, exclusive, block)
}

/// The answer of a taking.
fn taken(answer: Result<(), LockTakeFault>) -> Result<(), LockError>
    ensures { result ≡ spec.by_taking (fault_of answer) }
{
    match answer {
        Ok(()) => Ok(()),
        Err(LockTakeFault::Contested) => Err(LockError::Contested),
        Err(LockTakeFault::NotSupported) => Err(LockError::NotSupported),
        Err(LockTakeFault::Failed) => Err(LockError::Lock),
    }
}

/// One taking, which may or may not wait for its turn.
pub fn take<F: Files>(
    files: &mut F,
    path: &str,
    opened: &OpenedLock,
    exclusive: bool,
    block: bool,
) -> Result<(), LockRefusal>
    ensures steps { F.tells → TellsTaken (IsTaking path.now exclusive block
        (lock_moment (F.locks files.old) (F.host files.old)
        (F.faults files.old) (F.failed files.old))
        (lock_moment (F.locks files.new) (F.host files.new)
        (F.faults files.new) (F.failed files.new))) result }
    ensures taken { F.tells → IsTakenBy opened.now result
        (F.locks files.old) (F.locks files.new) }
    ensures cause { HasLockCause (result ≡ Err (LockRefusal.Lock LockError.Lock))
        (F.faults files.old) (F.faults files.new) }
    ensures only { IfErr result (IsTakeRefusal block) }
    ensures same { F.tells → F.host files.new ≡ F.host files.old }
{
    match taken(taking(files, path, opened, exclusive, block)?) {
        Ok(()) => Ok(()),
        Err(error) => Err(LockRefusal::Lock(error)),
    }
}

/// This many tries, until one isn't contested.
pub fn take_tries<F: Files>(
    files: &mut F,
    path: &str,
    opened: &OpenedLock,
    exclusive: bool,
    times: u32,
) -> Result<(), LockRefusal>
    ensures steps { F.tells → TellsTaken (AreTries times path.now exclusive
        (lock_moment (F.locks files.old) (F.host files.old)
        (F.faults files.old) (F.failed files.old))
        (lock_moment (F.locks files.new) (F.host files.new)
        (F.faults files.new) (F.failed files.new))) result }
    ensures taken { F.tells → IsTakenBy opened.now result
        (F.locks files.old) (F.locks files.new) }
    ensures cause { HasLockCause (result ≡ Err (LockRefusal.Lock LockError.Lock))
        (F.faults files.old) (F.faults files.new) }
    ensures only { IfErr result IsTryRefusal }
    ensures same { F.tells → F.host files.new ≡ F.host files.old }
{
    for _number in 0..times {
        match taking(files, path, opened, exclusive, false)? {
            Ok(()) => return Ok(()),
            Err(LockTakeFault::Contested) => {}
            Err(LockTakeFault::NotSupported) => return Err(LockRefusal::Lock(
                LockError::NotSupported,
            )),
            Err(LockTakeFault::Failed) => return Err(LockRefusal::Lock(LockError::Lock)),
        }
    }
    Err(LockRefusal::Lock(LockError::TimedOut))
}
