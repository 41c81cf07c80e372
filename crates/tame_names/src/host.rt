//! The host: its files, its input, its environment and its current folder.
ghost use Rattle.std.specs.Prelude.{◌≡◌, ◌≢◌, ℕ, List, [], Ok, Err, Some, None, true, false, IfOk, IfErr, OnOk, ⊤};
ghost use Rattle.tame_names.specs.Counts.{HasCause};

use crate::errors::NoMemory;
use crate::lists::Items;
use crate::texts::Text;
use std::alloc::Global;

/// Why a call on the host fails.
#[derive(Clone, Copy, Debug, PartialEq, Eq)]
pub enum FileFault {
    /// The host couldn't do it; the call was counted.
    Failed,
    /// Out of memory; the call isn't counted.
    NoMemory,
}

impl From<NoMemory> for FileFault {
    ghost use Rattle.tame_names.specs.declared.host.FileFault.TheVariants.{NoMemory as no_memory};

    ghost from_gives = { λ _ e. e ≡ no_memory };

    fn from(_: NoMemory) -> FileFault {
        FileFault::NoMemory
    }
}

/// What a read found.
#[derive(Drop)]
pub enum ReadAnswer {
    /// Nothing is at the path.
    Absent,
    /// The bytes of the file, no more than the limit.
    Whole(Vec<u8>),
    /// The file has this number of bytes, which is above the limit; if it grows meanwhile, this
    /// number or more.
    Over(u64),
}

/// An entry of a folder.
#[derive(Debug, Drop, PartialEq, Eq)]
pub struct Listed {
    /// Its name in the folder; none if it isn't UTF-8.
    pub name: Option<Text>,
    /// Whether it is a file.
    pub file: bool,
}

/// What is at a path, after links.
#[derive(Clone, Copy, Debug, PartialEq, Eq)]
pub enum PathKind {
    /// Nothing.
    Absent,
    File,
    Folder,
    /// Neither: a device, say.
    Other,
}

/// The value of a variable of the environment.
#[derive(Debug, Drop, PartialEq, Eq)]
pub enum EnvValue {
    /// It isn't set.
    Unset,
    /// It is set, and isn't UTF-8.
    NotUtf8,
    /// It is this string.
    Value(Text),
}

/// A call on the host, by name.
#[derive(Clone, Copy, Debug, PartialEq, Eq)]
pub enum FileCall {
    Read,
    ReadStdin,
    List,
    Kind,
    Env,
    CurrentDir,
    MakeDirs,
    Create,
    OpenLock,
    TakeLock,
}

/// A call that failed.
#[derive(Debug, Drop, PartialEq, Eq)]
pub struct FailedCall {
    /// Which call it was.
    pub call: FileCall,
    /// Its path, or the name of its variable; none for a call that has neither.
    pub path: Option<Text>,
}

/// A file that was opened to be locked; none on a host without files of the system. Its lock is
/// released when it is dropped.
#[derive(Debug, Drop)]
pub struct OpenedLock {
    /// The file of the system.
    pub file: Option<std::fs::File>,
}

/// Why a file wasn't opened to be locked.
#[derive(Clone, Copy, Debug, PartialEq, Eq)]
pub enum LockOpenFault {
    /// Nothing is there, or no folder to create it in.
    NotFound,
    /// There is no permission, or the file system is read-only.
    Denied,
    /// The host couldn't do it; the call was counted.
    Failed,
}

/// Why a lock wasn't taken.
#[derive(Clone, Copy, Debug, PartialEq, Eq)]
pub enum LockTakeFault {
    /// Another one holds it.
    Contested,
    /// The file system has no locks.
    NotSupported,
    /// The host couldn't do it; the call was counted.
    Failed,
}

/// A call on a lock, and why it was refused, if it was.
#[derive(Clone, Copy, Debug, PartialEq, Eq)]
pub enum LockCall {
    /// An opening.
    Open(Option<LockOpenFault>),
    /// A taking, which may or may not wait for its turn.
    Take(bool, Option<LockTakeFault>),
}

/// A step on a lock.
#[derive(Debug, Drop, PartialEq, Eq)]
pub struct LockStep {
    /// The path, as given to the call.
    pub path: Text,
    /// Whether the file was to be locked by one holder alone.
    pub exclusive: bool,
    /// The call, and why it was refused.
    pub call: LockCall,
}

/// The host. A path that ends with slashes is the same as the path without them, except `/` itself.
pub trait Files {
    ghost use Rattle.tame_names.specs.Changes.{AreFolders, Creates, MakesFolders, is_folder};
    ghost use Rattle.tame_names.specs.Locks.{HasLockCause, Locks, Makes, after_opening, after_taking, failed_opening, failed_taking};
    ghost use Rattle.tame_names.specs.Standing.{Host, IsAboveLimit, IsLeft, IsWithin, Reads, ReadsPart, StaysButInput, File, failed_calls, kind_of, listing};
    ghost use Rattle.tame_names.specs.Paths.{ways_to};
    ghost use Rattle.tame_names.specs.declared.host.FailedCall.{FailedCall};

    /// That it tells what it has and which calls have failed.
    ghost tells: { Type 0 };

    /// What it has, if it tells it.
    ghost host: { Self → Host };

    /// The calls that have failed, in order, if they are told.
    ghost failed: { Self → List FailedCall };

    /// What it was asked of locks, if that is told.
    ghost locks: { Self → Locks };

    /// How often a call has failed.
    ghost faults: { Self → ℕ };

    /// How often a call has failed; the count stays at 2^64 - 1 once it reaches it.
    fn file_faults(&self) -> u64
        ensures { result ≡ faults self.now };

    /// Reads the file at a path, if it has no more than `limit` bytes.
    fn read(&mut self, alloc: Global, path: &str, limit: u64) -> Result<ReadAnswer, FileFault>
        ensures cause { HasCause FileFault.NoMemory (faults self.old) (faults self.new) result }
        ensures above { IsAboveLimit limit result }
        ensures same { tells → host self.new ≡ host self.old }
        ensures answer { tells → Reads ((host self.old).stands path.now) limit result }
        ensures failed { tells → failed self.new
            ≡ failed_calls (failed self.old) FileCall.Read (Some path.now) result }
        ensures locks { tells → locks self.new ≡ locks self.old };

    /// Reads a part of the file at a path: at most `limit` bytes, from number `from` on; nothing if
    /// nothing is there.
    fn read_part(
        &mut self,
        alloc: Global,
        path: &str,
        from: u64,
        limit: u64,
    ) -> Result<Option<Vec<u8>>, FileFault>
        ensures cause { HasCause FileFault.NoMemory (faults self.old) (faults self.new) result }
        ensures within { IsWithin limit result }
        ensures same { tells → host self.new ≡ host self.old }
        ensures answer { tells → ReadsPart ((host self.old).stands path.now) from limit result }
        ensures failed { tells → failed self.new
            ≡ failed_calls (failed self.old) FileCall.Read (Some path.now) result }
        ensures locks { tells → locks self.new ≡ locks self.old };

    /// Reads standard input, if it has no more than `limit` bytes. It is never absent. Once it is
    /// read whole, it is empty.
    fn read_stdin(&mut self, alloc: Global, limit: u64) -> Result<ReadAnswer, FileFault>
        ensures cause { HasCause FileFault.NoMemory (faults self.old) (faults self.new) result }
        ensures above { IsAboveLimit limit result }
        ensures there { result ≢ Ok ReadAnswer.Absent }
        ensures same { tells → StaysButInput ⊤ (host self.old) (host self.new) }
        ensures answer { tells → Reads (File (host self.old).input) limit result }
        ensures left { tells → IsLeft result (host self.new).input }
        ensures failed { tells → failed self.new
            ≡ failed_calls (failed self.old) FileCall.ReadStdin None result }
        ensures locks { tells → locks self.new ≡ locks self.old };

    /// The entries of the folder at a path; nothing if no folder is there.
    fn list(&mut self, alloc: Global, path: &str) -> Result<Option<Items<Listed>>, FileFault>
        ensures cause { HasCause FileFault.NoMemory (faults self.old) (faults self.new) result }
        ensures same { tells → host self.new ≡ host self.old }
        ensures answer { tells → IfOk result (λ entries. entries
            ≡ listing ((host self.old).stands path.now)) }
        ensures failed { tells → failed self.new
            ≡ failed_calls (failed self.old) FileCall.List (Some path.now) result }
        ensures locks { tells → locks self.new ≡ locks self.old };

    /// What is at a path.
    fn kind(&mut self, path: &str) -> Result<PathKind, FileFault>
        ensures cause { HasCause FileFault.NoMemory (faults self.old) (faults self.new) result }
        ensures same { tells → host self.new ≡ host self.old }
        ensures answer { tells → IfOk result (λ kind. kind
            ≡ kind_of ((host self.old).stands path.now)) }
        ensures failed { tells → failed self.new
            ≡ failed_calls (failed self.old) FileCall.Kind (Some path.now) result }
        ensures locks { tells → locks self.new ≡ locks self.old };

    /// The value of a variable of the environment.
    fn env(&mut self, alloc: Global, name: &str) -> Result<EnvValue, FileFault>
        ensures cause { HasCause FileFault.NoMemory (faults self.old) (faults self.new) result }
        ensures same { tells → host self.new ≡ host self.old }
        ensures answer { tells → IfOk result (λ value. value
            ≡ (host self.old).environment name.now) }
        ensures failed { tells → failed self.new
            ≡ failed_calls (failed self.old) FileCall.Env (Some name.now) result }
        ensures locks { tells → locks self.new ≡ locks self.old };

    /// The path of the current folder.
    fn current_dir(&mut self, alloc: Global) -> Result<Text, FileFault>
        ensures cause { HasCause FileFault.NoMemory (faults self.old) (faults self.new) result }
        ensures same { tells → host self.new ≡ host self.old }
        ensures answer { tells → IfOk result (λ path. path ≡ (host self.old).current) }
        ensures failed { tells → failed self.new
            ≡ failed_calls (failed self.old) FileCall.CurrentDir None result }
        ensures locks { tells → locks self.new ≡ locks self.old };

    /// Creates the folder at a path and the missing ones on the way to it; a folder that was there
    /// gains the entry of one that is created in it, and no other path changes. It fails if
    /// something else is on the way. After a fault some of them may have been created.
    fn make_dirs(&mut self, path: &str) -> Result<(), FileFault>
        ensures cause { HasCause FileFault.NoMemory (faults self.old) (faults self.new) result }
        ensures made { tells → MakesFolders path.now (host self.old) (host self.new) result }
        ensures possible { tells
            → OnOk result (AreFolders (ways_to path.now) (host self.old).stands) }
        ensures there { tells → OnOk result
            (path.now ≢ [] → is_folder ((host self.new).stands path.now) ≡ true) }
        ensures failed { tells → failed self.new
            ≡ failed_calls (failed self.old) FileCall.MakeDirs (Some path.now) result }
        ensures locks { tells → locks self.new ≡ locks self.old };

    /// Creates the file at a path, which then has these bytes; the folder that it is in gains its
    /// entry, and no other path changes. It fails, and nothing changes, if something is there, or
    /// if the folder that it is in isn't there. After a fault the file may have a part of the
    /// bytes, from the front.
    fn create(&mut self, path: &str, bytes: &[u8]) -> Result<(), FileFault>
        ensures cause { HasCause FileFault.NoMemory (faults self.old) (faults self.new) result }
        ensures created { tells
            → Creates path.now bytes.now (host self.old) (host self.new) result }
        ensures failed { tells → failed self.new
            ≡ failed_calls (failed self.old) FileCall.Create (Some path.now) result }
        ensures locks { tells → locks self.new ≡ locks self.old };

    /// Opens the file at a path to be locked: to be read, or exclusively to be written, which may
    /// create an empty file if nothing is there. An error means out of memory, and nothing was
    /// done.
    fn open_lock(
        &mut self,
        path: &str,
        exclusive: bool,
    ) -> Result<Result<OpenedLock, LockOpenFault>, NoMemory>
        ensures cause { HasLockCause (result ≡ Ok (Err LockOpenFault.Failed))
            (faults self.old) (faults self.new) }
        ensures stayed { result ≢ Ok (Err LockOpenFault.Failed)
            → faults self.new ≡ faults self.old }
        ensures made { tells → Makes exclusive path.now result (host self.old) (host self.new) }
        ensures failed { tells → failed self.new
            ≡ failed_opening path.now result (failed self.old) }
        ensures locks { tells → locks self.new
            ≡ after_opening path.now exclusive result (locks self.old) };

    /// Takes the lock of an opened file, alone (`exclusive`) or with others. If another holds it,
    /// the call waits if it may (`block`), and else is contested. An error means out of memory, and
    /// nothing was done.
    fn take_lock(
        &mut self,
        path: &str,
        opened: &OpenedLock,
        exclusive: bool,
        block: bool,
    ) -> Result<Result<(), LockTakeFault>, NoMemory>
        ensures cause { HasLockCause (result ≡ Ok (Err LockTakeFault.Failed))
            (faults self.old) (faults self.new) }
        ensures stayed { result ≢ Ok (Err LockTakeFault.Failed)
            → faults self.new ≡ faults self.old }
        ensures contested { result ≡ Ok (Err LockTakeFault.Contested) → block ≡ false }
        ensures same { tells → host self.new ≡ host self.old }
        ensures failed { tells → failed self.new
            ≡ failed_taking path.now result (failed self.old) }
        ensures locks { tells → locks self.new
            ≡ after_taking path.now opened.now exclusive block result (locks self.old) };
}
