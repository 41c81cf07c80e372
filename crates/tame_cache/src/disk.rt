//! A disk of cache files. Contracts see a file as the list of its changes, the newest first.
ghost use Rattle.std.specs.Prelude.{◌≡◌, ◌≢◌, ◌≤◌, ◌+◌, List, ℕ, [], ◌∷◌, ◌++◌, length, take, Some, IfOk, OnOk, option_map};
ghost use Rattle.tame_names.specs.Counts.{HasCause};
ghost use Rattle.tame_cache.specs.Faults.{HasDiskCause};
ghost use Rattle.tame_cache.specs.Disk.{File, Step, Synced, first_of, content, with_piece, reads, MayWrite, MayCut, MaySync};
ghost use Rattle.tame_cache.specs.Folders.{MakesOnly};

use std::alloc::Global;
use tame_names::Text;

/// What a look at a file's first byte finds.
#[derive(Clone, Copy, Debug, PartialEq, Eq)]
pub enum Peek {
    /// There is no file.
    Absent,
    /// The file has no bytes.
    Empty,
    /// The first byte of the file.
    Byte(u8),
}

/// A call on the disk failed, and the disk counted it.
#[derive(Clone, Copy, Debug, PartialEq, Eq)]
pub struct DiskFault;

/// Why a file wasn't read.
#[derive(Clone, Copy, Debug, PartialEq, Eq)]
pub enum DiskReadFault {
    /// The call failed, and the disk counted it.
    Failed,
    /// Out of memory.
    NoMemory,
}

/// A call on a disk, by name.
#[derive(Clone, Copy, Debug, PartialEq, Eq)]
pub enum DiskCall {
    Peek,
    Read,
    MakeDirs,
    WriteAt,
    Cut,
    Sync,
}

/// A call on a disk that failed.
#[derive(Debug, Drop, PartialEq, Eq)]
pub struct FailedDiskCall {
    /// Which call it was.
    pub call: DiskCall,
    /// The path that it was given.
    pub path: Text,
}

/// A disk of cache files, each named by a path.
///
/// Until a file is synced, a crash may undo a change of it or leave it half done; after a sync it
/// leaves what a read gives. A failed write or cut may have been half done.
pub trait CacheDisk {
    ghost use Rattle.tame_cache.specs.FailedCalls.{AddsFailed, AddsFailedBut, FailedAt, FailedDiskCalls, FailedReading};

    /// That it tells what is in its files.
    ghost tells: { Type 0 };

    /// The changes of the file at a path, the newest first.
    ghost past: { Self → List ℕ → List Step };

    /// The paths above which folders were created, the oldest first, if the disk tells.
    ghost folders: { Self → List (List ℕ) };

    /// The calls that have failed, the oldest first; none if they aren't all told.
    ghost failed: { Self → FailedDiskCalls };

    /// How often a call has failed.
    ghost faults: { Self → ℕ };

    /// How many calls there were, or fewer.
    ghost made: { Self → ℕ };

    /// How often a call has failed; the count stays at 2^64 - 1 once it is there.
    fn disk_faults(&self) -> u64
        ensures { result ≡ faults self.now };

    /// Looks at the first byte of a file.
    fn peek(&mut self, path: &str) -> Result<Peek, DiskFault>
        ensures first { tells → IfOk result
            (λ first. first ≡ first_of (reads (past self.old path.now))) }
        ensures same { tells → (q : List ℕ) → past self.new q ≡ past self.old q }
        ensures folders { tells → folders self.new ≡ folders self.old }
        ensures calls { made self.new ≤ made self.old + 1 }
        ensures failed { AddsFailed (FailedAt DiskCall.Peek path.now) (failed self.old)
            (failed self.new) result }
        ensures cause { HasDiskCause (faults self.old) (faults self.new) result };

    /// Reads a whole file; nothing if there is no file.
    fn read(&mut self, alloc: Global, path: &str) -> Result<Option<Vec<u8>>, DiskReadFault>
        ensures file { tells → IfOk result
            (λ file. option_map (λ bytes. bytes.items) file ≡ reads (past self.old path.now)) }
        ensures same { tells → (q : List ℕ) → past self.new q ≡ past self.old q }
        ensures folders { tells → folders self.new ≡ folders self.old }
        ensures calls { made self.new ≤ made self.old + 1 }
        ensures failed { AddsFailedBut DiskReadFault.NoMemory (FailedReading path.now)
            (failed self.old) (failed self.new) result }
        ensures cause { HasCause DiskReadFault.NoMemory (faults self.old)
            (faults self.new) result };

    /// Creates the folders above a path, and no others.
    fn make_dirs(&mut self, path: &str) -> Result<(), DiskFault>
        ensures same { tells → (q : List ℕ) → past self.new q ≡ past self.old q }
        ensures folders { tells → MakesOnly (λ q. q ≡ path.now) (folders self.old)
            (folders self.new) }
        ensures made { tells → OnOk result (folders self.new ≡ folders self.old ++ path.now ∷ []) }
        ensures calls { made self.new ≤ made self.old + 1 }
        ensures failed { AddsFailed (FailedAt DiskCall.MakeDirs path.now) (failed self.old)
            (failed self.new) result }
        ensures cause { HasDiskCause (faults self.old) (faults self.new) result };

    /// Writes a piece at a place, over what is there and past the end. An absent file counts as
    /// empty. Until a sync a crash may leave any bytes in this range.
    fn write_at(&mut self, path: &str, at: u64, piece: &[u8]) -> Result<(), DiskFault>
        ensures written { tells → OnOk result
            (at ≤ length (content (reads (past self.old path.now)))
            → reads (past self.new path.now)
            ≡ Some (with_piece (content (reads (past self.old path.now))) at piece.now)) }
        ensures step { tells → MayWrite at (length piece.now) (past self.old path.now)
            (past self.new path.now) }
        ensures others { tells → (q : List ℕ) → q ≢ path.now → past self.new q ≡ past self.old q }
        ensures folders { tells → folders self.new ≡ folders self.old }
        ensures calls { made self.new ≤ made self.old + 1 }
        ensures failed { AddsFailed (FailedAt DiskCall.WriteAt path.now) (failed self.old)
            (failed self.new) result }
        ensures cause { HasDiskCause (faults self.old) (faults self.new) result };

    /// Cuts a file to a length in bytes, if it is longer.
    fn cut(&mut self, path: &str, len: u64) -> Result<(), DiskFault>
        ensures cut { tells → OnOk result
            (reads (past self.new path.now)
            ≡ option_map (take len) (reads (past self.old path.now))) }
        ensures step { tells → MayCut len (past self.old path.now) (past self.new path.now) }
        ensures others { tells → (q : List ℕ) → q ≢ path.now → past self.new q ≡ past self.old q }
        ensures folders { tells → folders self.new ≡ folders self.old }
        ensures calls { made self.new ≤ made self.old + 1 }
        ensures failed { AddsFailed (FailedAt DiskCall.Cut path.now) (failed self.old)
            (failed self.new) result }
        ensures cause { HasDiskCause (faults self.old) (faults self.new) result };

    /// Brings a file onto the disk: a crash then leaves what a read gives.
    fn sync(&mut self, path: &str) -> Result<(), DiskFault>
        ensures synced { tells → OnOk result
            (past self.new path.now ≡ Synced (reads (past self.old path.now))
            ∷ past self.old path.now) }
        ensures step { tells → MaySync (past self.old path.now) (past self.new path.now) }
        ensures others { tells → (q : List ℕ) → q ≢ path.now → past self.new q ≡ past self.old q }
        ensures folders { tells → folders self.new ≡ folders self.old }
        ensures calls { made self.new ≤ made self.old + 1 }
        ensures failed { AddsFailed (FailedAt DiskCall.Sync path.now) (failed self.old)
            (failed self.new) result }
        ensures cause { HasDiskCause (faults self.old) (faults self.new) result };
}
