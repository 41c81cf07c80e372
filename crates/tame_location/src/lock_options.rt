//! How to take the lock of a file.
ghost use Rattle.std.specs.Prelude.{◌≡◌, ◌≤◌, ℕ, Option, Ok, Err, IfOk, IfErr, IsSome, true, false, option_map};
ghost use Rattle.std.specs.Cow.{cow_str_bytes};
ghost use Rattle.std.specs.Fn.{FnReturnsAt};
ghost use Rattle.tame_names.specs.Locks.{HasLockCause};
ghost use Rattle.tame_location.specs.Folders.{IsRootError, Told};
ghost use Rattle.tame_location.specs.Calls.{AddsFailed, HasCallCause};
ghost use Rattle.tame_location.specs.Homes.{IsHomeCall, IsTold};
ghost use Rattle.tame_location.specs.Locks.{Gives, Holds, IsLockFault, IsLockedAtOnce, IsLockedError, IsLockedWaiting, IsOpenRefusal, IsOpening, IsRefusal, IsTakenBy, IsTryRefusal, IsWaiting, Leaves, Tells, TellsHeld, TellsLock, TellsTaken, lock_moment, package_lock};
ghost use Rattle.tame_location.specs.Locks as spec;

use crate::folders::root_of;
use crate::locks::{LockRefusal, open_exclusive, open_shared, take, take_tries, taking};
use crate::places::borrowed;
use std::alloc::Global;
use std::borrow::CowStr;
use tame_names::{
    Error, FileLock, FileLockError, Files, LockError, LockState, LockTakeFault, OpenedLock, Text,
    join,
};

/// The file whose lock to take, and how.
#[derive(Drop)]
pub struct LockOptions<'p> {
    path: CowStr<'p>,
    exclusive: bool,
    fallback: bool,
}

fn is_exclusive(state: LockState) -> bool
    ensures { result ≡ spec.is_exclusive state }
{
    match state {
        LockState::Exclusive => true,
        LockState::Shared | LockState::Unlocked => false,
    }
}

/// A taking that doesn't wait, and after a contested one what the callback says: one that waits for
/// its turn, or a number of tries.
fn take_waiting<F: Files, G: Fn(&str) -> Option<u32>>(
    files: &mut F,
    path: &str,
    opened: &OpenedLock,
    exclusive: bool,
    wait: G,
) -> Result<(), LockRefusal>
    requires { G.IsAlwaysCallable wait }
    ensures steps { F.tells → TellsTaken (IsWaiting (FnReturnsAt G.Fn wait path.now) path.now
        exclusive
        (lock_moment (F.locks files.old) (F.host files.old)
        (F.faults files.old) (F.failed files.old))
        (lock_moment (F.locks files.new) (F.host files.new)
        (F.faults files.new) (F.failed files.new))) result }
    ensures taken { F.tells → IsTakenBy opened.now result
        (F.locks files.old) (F.locks files.new) }
    ensures cause { HasLockCause (result ≡ Err (LockRefusal.Lock LockError.Lock))
        (F.faults files.old) (F.faults files.new) }
    ensures only { IfErr result IsTryRefusal }
    ensures same { F.tells → F.host files.new ≡ F.host files.old }
{
    match taking(files, path, opened, exclusive, false)? {
        Ok(()) => Ok(()),
        Err(LockTakeFault::Contested) => match wait(path) {
            None => take(files, path, opened, exclusive, true),
            Some(times) => take_tries(files, path, opened, exclusive, times),
        },
        Err(LockTakeFault::NotSupported) => Err(LockRefusal::Lock(LockError::NotSupported)),
        Err(LockTakeFault::Failed) => Err(LockRefusal::Lock(LockError::Lock)),
    }
}

/// The answer of a call: with the path of the file if its lock isn't held.
fn told(path: Text, held: Result<FileLock, LockRefusal>) -> Result<FileLock, Error>
    ensures { result ≡ spec.answer_of path held }
{
    match held {
        Ok(lock) => Ok(lock),
        Err(LockRefusal::Lock(source)) => Err(Error::Lock(FileLockError { path, source })),
        Err(LockRefusal::NoMemory) => Err(Error::NoMemory),
    }
}

impl<'p> LockOptions<'p> {
    /// A shared lock of the file at a path.
    pub fn new(path: &'p str) -> LockOptions<'p>
        ensures path { cow_str_bytes result.path ≡ path.now }
        ensures exclusive { result.exclusive ≡ false }
        ensures fallback { result.fallback ≡ false }
    {
        LockOptions {
            path: CowStr::Borrowed(path),
            exclusive: false,
            fallback: false,
        }
    }

    /// The lock that cargo takes on its package cache, exclusively: `.package-cache` in the given
    /// folder or in cargo's home. Errors are those of `cargo_home` if no folder is given.
    pub fn cargo_package_lock<F: Files>(
        alloc: Global,
        files: &mut F,
        root: Option<Text>,
    ) -> Result<LockOptions<'static>, Error>
        ensures ok { Told root F.tells → IfOk result (λ options.
            package_lock root (F.host files.old) ≡ Ok (cow_str_bytes options.path)) }
        ensures exclusive { IfOk result (λ options. options.exclusive ≡ true) }
        ensures fallback { IfOk result (λ options. options.fallback ≡ false) }
        ensures refused { Told root F.tells → IfErr result (λ e. IsTold e
            → package_lock root (F.host files.old) ≡ Err e) }
        ensures only { IfErr result (IsRootError root) }
        ensures cause { HasCallCause (F.faults files.old) (F.faults files.new) result }
        ensures failed { F.tells → AddsFailed (IsHomeCall (F.host files.old))
            (F.failed files.old) (F.failed files.new) result }
        ensures same { F.tells → F.host files.new ≡ F.host files.old }
        ensures given { IsSome root → files.new ≡ files.old }
    {
        let folder = root_of(alloc, files, borrowed(&root))?;
        let path = join(alloc, folder.as_str(), ".package-cache")?;
        Ok(LockOptions {
            path: CowStr::Owned(path.into_string()),
            exclusive: true,
            fallback: false,
        })
    }

    /// The same, shared.
    pub fn shared(self) -> LockOptions<'p>
        ensures { result ≡ record self.entry { exclusive = false } }
    {
        let mut options = self;
        options.exclusive = false;
        options
    }

    /// The same, exclusive; shared if that is denied, if it may be (`shared_fallback`).
    pub fn exclusive(self, shared_fallback: bool) -> LockOptions<'p>
        ensures { result ≡ record self.entry { exclusive = true; fallback = shared_fallback } }
    {
        let mut options = self;
        options.exclusive = true;
        options.fallback = shared_fallback;
        options
    }

    fn open<F: Files>(&self, files: &mut F) -> Result<(OpenedLock, LockState), LockRefusal>
        ensures steps { F.tells → Tells (IsOpening self.now.exclusive self.now.fallback
            (cow_str_bytes self.now.path)
            (lock_moment (F.locks files.old) (F.host files.old)
            (F.faults files.old) (F.failed files.old))
            (lock_moment (F.locks files.new) (F.host files.new)
            (F.faults files.new) (F.failed files.new))) result }
        ensures left { F.tells → Leaves self.now.exclusive (cow_str_bytes self.now.path)
            (F.host files.old) (F.host files.new) }
        ensures gives { F.tells → Gives result (F.locks files.old) (F.locks files.new) }
        ensures only { IfErr result IsOpenRefusal }
        ensures later { F.faults files.old ≤ F.faults files.new }
    {
        if self.exclusive {
            open_exclusive(files, self.path.as_str(), self.fallback)
        } else {
            open_shared(files, self.path.as_str())
        }
    }

    /// The lock, if it can be taken at once.
    fn held_at_once<F: Files>(&self, files: &mut F) -> Result<FileLock, LockRefusal>
        ensures steps { F.tells → TellsHeld (IsLockedAtOnce self.now.exclusive self.now.fallback
            (cow_str_bytes self.now.path)
            (lock_moment (F.locks files.old) (F.host files.old)
            (F.faults files.old) (F.failed files.old))
            (lock_moment (F.locks files.new) (F.host files.new)
            (F.faults files.new) (F.failed files.new))) result }
        ensures left { F.tells → Leaves self.now.exclusive (cow_str_bytes self.now.path)
            (F.host files.old) (F.host files.new) }
        ensures holds { F.tells → Holds result (F.locks files.old) (F.locks files.new) }
        ensures only { IfErr result (IsRefusal LockError.TimedOut) }
        ensures cause { HasLockCause (result ≡ Err (LockRefusal.Lock LockError.Lock))
            (F.faults files.old) (F.faults files.new) }
    {
        match self.open(files) {
            Ok((opened, state)) => {
                let exclusive = is_exclusive(state);
                match take(files, self.path.as_str(), &opened, exclusive, false) {
                    Ok(()) => Ok(FileLock::holding(opened, state)),
                    Err(refusal) => Err(refusal),
                }
            }
            Err(refusal) => Err(refusal),
        }
    }

    /// The lock; the callback says how long to wait.
    fn held_waiting<F: Files, G: Fn(&str) -> Option<u32>>(
        &self,
        files: &mut F,
        wait: G,
    ) -> Result<FileLock, LockRefusal>
        requires { G.IsAlwaysCallable wait }
        ensures steps { F.tells → TellsHeld (IsLockedWaiting
            (FnReturnsAt G.Fn wait (cow_str_bytes self.now.path)) self.now.exclusive
            self.now.fallback (cow_str_bytes self.now.path)
            (lock_moment (F.locks files.old) (F.host files.old)
            (F.faults files.old) (F.failed files.old))
            (lock_moment (F.locks files.new) (F.host files.new)
            (F.faults files.new) (F.failed files.new))) result }
        ensures left { F.tells → Leaves self.now.exclusive (cow_str_bytes self.now.path)
            (F.host files.old) (F.host files.new) }
        ensures holds { F.tells → Holds result (F.locks files.old) (F.locks files.new) }
        ensures only { IfErr result (IsRefusal LockError.Contested) }
        ensures cause { HasLockCause (result ≡ Err (LockRefusal.Lock LockError.Lock))
            (F.faults files.old) (F.faults files.new) }
    {
        match self.open(files) {
            Ok((opened, state)) => {
                let exclusive = is_exclusive(state);
                match take_waiting(files, self.path.as_str(), &opened, exclusive, wait) {
                    Ok(()) => Ok(FileLock::holding(opened, state)),
                    Err(refusal) => Err(refusal),
                }
            }
            Err(refusal) => Err(refusal),
        }
    }

    /// Takes the lock, if it can be taken at once. The file is opened to be read, or exclusively to
    /// be written; then it is created if it isn't there, and so are the folders above it.
    ///
    /// `Lock` with the path and: `Contested` if another holds it; `NotSupported` if the file system
    /// has no locks; `Readonly` if the opening was denied, `CreateDir` if a missing folder can't be
    /// created, `Open` at another refused opening, `Lock` at a failed taking.
    pub fn try_lock<F: Files>(&self, alloc: Global, files: &mut F) -> Result<FileLock, Error>
        ensures steps { F.tells → TellsLock (cow_str_bytes self.now.path)
            (IsLockedAtOnce self.now.exclusive self.now.fallback (cow_str_bytes self.now.path)
            (lock_moment (F.locks files.old) (F.host files.old)
            (F.faults files.old) (F.failed files.old))
            (lock_moment (F.locks files.new) (F.host files.new)
            (F.faults files.new) (F.failed files.new))) result }
        ensures left { F.tells → Leaves self.now.exclusive (cow_str_bytes self.now.path)
            (F.host files.old) (F.host files.new) }
        ensures holds { F.tells → Holds result (F.locks files.old) (F.locks files.new) }
        ensures only { IfErr result
            (IsLockedError (cow_str_bytes self.now.path) LockError.TimedOut) }
        ensures cause { HasLockCause (IsLockFault result)
            (F.faults files.old) (F.faults files.new) }
    {
        let path = Text::of(alloc, self.path.as_str())?;
        told(path, self.held_at_once(files))
    }

    /// Takes the lock; if another holds it, `wait` is called with the path. At nothing this waits
    /// for its turn; at a number it tries that often once more, and then is `TimedOut`. Other
    /// errors are those of `try_lock`, but `Contested` never comes.
    pub fn lock<F: Files, G: Fn(&str) -> Option<u32>>(
        &self,
        alloc: Global,
        files: &mut F,
        wait: G,
    ) -> Result<FileLock, Error>
        requires { G.IsAlwaysCallable wait }
        ensures steps { F.tells → TellsLock (cow_str_bytes self.now.path) (IsLockedWaiting
            (FnReturnsAt G.Fn wait (cow_str_bytes self.now.path)) self.now.exclusive
            self.now.fallback (cow_str_bytes self.now.path)
            (lock_moment (F.locks files.old) (F.host files.old)
            (F.faults files.old) (F.failed files.old))
            (lock_moment (F.locks files.new) (F.host files.new)
            (F.faults files.new) (F.failed files.new))) result }
        ensures left { F.tells → Leaves self.now.exclusive (cow_str_bytes self.now.path)
            (F.host files.old) (F.host files.new) }
        ensures holds { F.tells → Holds result (F.locks files.old) (F.locks files.new) }
        ensures only { IfErr result
            (IsLockedError (cow_str_bytes self.now.path) LockError.Contested) }
        ensures cause { HasLockCause (IsLockFault result)
            (F.faults files.old) (F.faults files.new) }
    {
        let path = Text::of(alloc, self.path.as_str())?;
        told(path, self.held_waiting(files, wait))
    }
}
