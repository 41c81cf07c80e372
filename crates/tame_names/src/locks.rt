//! Locks under which a cache is used.
use crate::host::OpenedLock;

/// How a lock is held.
#[derive(Clone, Copy, Debug, PartialEq, Eq)]
pub enum LockState {
    /// By one holder alone.
    Exclusive,
    /// Together with others that hold it so.
    Shared,
    /// Not at all.
    Unlocked,
}

/// Shows that a file's lock is held, or that none is. It doesn't keep others out by itself.
#[derive(Debug, Drop)]
pub struct FileLock {
    state: LockState,
    opened: OpenedLock,
}

impl FileLock {
    ghost use Rattle.std.specs.Prelude.{◌≡◌};

    /// No lock.
    pub const fn unlocked() -> FileLock
        ensures { result.state ≡ LockState.Unlocked }
    {
        FileLock {
            state: LockState::Unlocked,
            opened: OpenedLock { file: None },
        }
    }

    /// The lock of an opened file, held in this way; it is released when this is dropped.
    pub fn holding(opened: OpenedLock, state: LockState) -> FileLock
        ensures state { result.state ≡ state }
        ensures opened { result.opened ≡ opened }
    {
        FileLock { state, opened }
    }

    /// How it is held.
    pub fn state(&self) -> LockState
        ensures { result ≡ self.now.state }
    {
        self.state
    }
}
