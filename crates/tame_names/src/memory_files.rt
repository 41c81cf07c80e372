//! A host in memory.
ghost use Rattle.std.specs.Prelude.{◌≡◌, ◌≢◌, ◌≤◌, [], ⊤, true, false, Ok, Some, None, Err, IfOk, IfErr, OnOk, OnErr, option_map};
ghost use Rattle.tame_names.specs.Changes.{AreFolders, Creates, MakesFolders, can_create, is_folder};
ghost use Rattle.tame_names.specs.Counts.{HasCause, CountRose, IsListed, next_call};
ghost use Rattle.tame_names.specs.Locks.{HasLockCause, Makes, after_opening, after_taking, failed_opening, failed_taking};
ghost use Rattle.tame_names.specs.MemoryLocks.{LockCounted, locks_after, opening_stated, taking_stated};
ghost use Rattle.tame_names.specs.MemoryFiles.{Counted, IsReadable, host_in, list_free, part_free, read_free, standing_in, value_free, value_in};
ghost use Rattle.tame_names.specs.Paths.{ways_to};
ghost use Rattle.tame_names.specs.Standing.{IsAboveLimit, IsLeft, IsWithin, Reads, ReadsPart, StaysButInput, File, failed_calls, kind_of, listing, with_fault};

use crate::errors::NoMemory;
use crate::host::{
    EnvValue, FailedCall, FileCall, FileFault, Files, Listed, LockCall, LockOpenFault,
    LockTakeFault, OpenedLock, PathKind, ReadAnswer,
};
use crate::lists::Items;
use crate::memory_changes::{add_folders, can_create, place, ways_to};
use crate::memory_locks::{LockAnswer, MemLocks, opening_fault, taking_fault};
use crate::memory_nodes::{
    MemFile, MemNode, copy_within, entries_at, is_readable, kind_at, part_at, read_at,
};
use crate::memory_variables::{MemVariable, value_of};
use crate::texts::Text;
use std::alloc::Global;

/// A host in memory. Of paths that differ only in slashes at their ends the first counts, and of
/// variables with one name too; a folder has the entries that were stated, and gains those of what
/// a call creates in it. The calls whose numbers are listed, counted from 1, fail. The n-th call on
/// a lock gives the n-th answer. It fails if it has none, or one of the other kind, or if its
/// answer is contested though it waits for its turn; and so does a taking of a file of the system.
/// No opening of a lock creates a file.
#[derive(Drop)]
pub struct MemFiles {
    pub(crate) alloc: Global,
    pub(crate) files: Items<MemFile>,
    pub(crate) input: Items<u8>,
    pub(crate) variables: Items<MemVariable>,
    pub(crate) current: Text,
    pub(crate) locks: MemLocks,
    pub(crate) fails: Items<u64>,
    pub(crate) failed: Items<FailedCall>,
    pub(crate) calls: u64,
    pub(crate) faults: u64,
}

impl MemFiles {
    /// The fault of a call on a path or a variable, which is counted unless it is out of memory.
    pub(crate) fn fail(&mut self, call: FileCall, path: Option<&str>) -> FileFault
        ensures files { self.new.files ≡ self.old.files }
        ensures input { self.new.input ≡ self.old.input }
        ensures variables { self.new.variables ≡ self.old.variables }
        ensures current { self.new.current ≡ self.old.current }
        ensures locks { self.new.locks ≡ self.old.locks }
        ensures calls { self.new.calls ≡ self.old.calls }
        ensures fails { self.new.fails ≡ self.old.fails }
        ensures failed { self.new.failed ≡ with_fault self.old.failed call
            (option_map (λ text. text.now) path.entry) result }
        ensures later { self.old.faults ≤ self.new.faults }
        ensures rose { result ≢ FileFault.NoMemory → CountRose self.old.faults self.new.faults }
        ensures counted { result ≡ FileFault.Failed → self.new.faults ≡ next_call self.old.faults }
        ensures uncounted { result ≢ FileFault.Failed → self.new.faults ≡ self.old.faults }
    {
        let Ok(path) = Text::of_option(self.alloc, path) else {
            return FileFault::NoMemory;
        };
        match self.failed.add(FailedCall { call, path }) {
            Ok(()) => {
                self.faults = self.faults.saturating_add(1);
                FileFault::Failed
            }
            Err(NoMemory) => FileFault::NoMemory,
        }
    }

    /// Counts a call on a path or a variable, which fails if its number is listed.
    pub(crate) fn begin(&mut self, call: FileCall, path: Option<&str>) -> Result<(), FileFault>
        ensures files { self.new.files ≡ self.old.files }
        ensures input { self.new.input ≡ self.old.input }
        ensures variables { self.new.variables ≡ self.old.variables }
        ensures current { self.new.current ≡ self.old.current }
        ensures locks { self.new.locks ≡ self.old.locks }
        ensures cause { HasCause FileFault.NoMemory self.old.faults self.new.faults result }
        ensures counted { Counted (Unit {0}) (Some tt) self.old self.new result }
        ensures failed { self.new.failed ≡ failed_calls self.old.failed call
            (option_map (λ text. text.now) path.entry) result }
    {
        self.calls = self.calls.saturating_add(1);
        if self.fails.as_slice().contains(&self.calls) {
            return Err(self.fail(call, path));
        }
        Ok(())
    }
}

impl Files for MemFiles {
    ghost tells = { ⊤ };

    ghost host = { λ m. host_in m };

    ghost failed = { λ m. m.failed };

    ghost locks = { λ m. locks_after m.locks.steps };

    ghost faults = { λ m. m.faults };

    fn file_faults(&self) -> u64 {
        self.faults
    }

    fn read(&mut self, alloc: Global, path: &str, limit: u64) -> Result<ReadAnswer, FileFault>
        ensures cause { HasCause FileFault.NoMemory self.old.faults self.new.faults result }
        ensures above { IsAboveLimit limit result }
        ensures same { host_in self.new ≡ host_in self.old }
        ensures answer { Reads (standing_in self.old.files path.now) limit result }
        ensures failed { self.new.failed
            ≡ failed_calls self.old.failed FileCall.Read (Some path.now) result }
        ensures locks { locks_after self.new.locks.steps ≡ locks_after self.old.locks.steps }
        ensures counted { Counted (IsReadable (standing_in self.old.files path.now))
            (read_free (standing_in self.old.files path.now) limit) self.old self.new result }
    {
        self.begin(FileCall::Read, Some(path))?;
        if is_readable(self.files.as_slice(), path) {
            read_at(alloc, self.files.as_slice(), path, limit)
        } else {
            Err(self.fail(FileCall::Read, Some(path)))
        }
    }

    fn read_part(
        &mut self,
        alloc: Global,
        path: &str,
        from: u64,
        limit: u64,
    ) -> Result<Option<Vec<u8>>, FileFault>
        ensures cause { HasCause FileFault.NoMemory self.old.faults self.new.faults result }
        ensures within { IsWithin limit result }
        ensures same { host_in self.new ≡ host_in self.old }
        ensures answer { ReadsPart (standing_in self.old.files path.now) from limit result }
        ensures failed { self.new.failed
            ≡ failed_calls self.old.failed FileCall.Read (Some path.now) result }
        ensures locks { locks_after self.new.locks.steps ≡ locks_after self.old.locks.steps }
        ensures counted { Counted (IsReadable (standing_in self.old.files path.now))
            (part_free (standing_in self.old.files path.now)) self.old self.new result }
    {
        self.begin(FileCall::Read, Some(path))?;
        if is_readable(self.files.as_slice(), path) {
            part_at(alloc, self.files.as_slice(), path, from, limit)
        } else {
            Err(self.fail(FileCall::Read, Some(path)))
        }
    }

    fn read_stdin(&mut self, alloc: Global, limit: u64) -> Result<ReadAnswer, FileFault>
        ensures cause { HasCause FileFault.NoMemory self.old.faults self.new.faults result }
        ensures above { IsAboveLimit limit result }
        ensures there { result ≢ Ok ReadAnswer.Absent }
        ensures same { StaysButInput ⊤ (host_in self.old) (host_in self.new) }
        ensures answer { Reads (File self.old.input) limit result }
        ensures left { IsLeft result self.new.input }
        ensures failed { self.new.failed
            ≡ failed_calls self.old.failed FileCall.ReadStdin None result }
        ensures locks { locks_after self.new.locks.steps ≡ locks_after self.old.locks.steps }
        ensures kept { OnErr result (self.new.input ≡ self.old.input) }
        ensures counted { Counted (Unit {0}) (read_free (File self.old.input) limit)
            self.old self.new result }
    {
        self.begin(FileCall::ReadStdin, None)?;
        let answer = copy_within(alloc, self.input.as_slice(), limit)?;
        self.input = Items::new(alloc);
        Ok(answer)
    }

    fn list(&mut self, alloc: Global, path: &str) -> Result<Option<Items<Listed>>, FileFault>
        ensures cause { HasCause FileFault.NoMemory self.old.faults self.new.faults result }
        ensures same { host_in self.new ≡ host_in self.old }
        ensures answer { IfOk result (λ entries. entries
            ≡ listing (standing_in self.old.files path.now)) }
        ensures failed { self.new.failed
            ≡ failed_calls self.old.failed FileCall.List (Some path.now) result }
        ensures locks { locks_after self.new.locks.steps ≡ locks_after self.old.locks.steps }
        ensures counted { Counted (Unit {0}) (list_free (standing_in self.old.files path.now))
            self.old self.new result }
    {
        self.begin(FileCall::List, Some(path))?;
        Ok(entries_at(alloc, self.files.as_slice(), path)?)
    }

    fn kind(&mut self, path: &str) -> Result<PathKind, FileFault>
        ensures cause { HasCause FileFault.NoMemory self.old.faults self.new.faults result }
        ensures same { host_in self.new ≡ host_in self.old }
        ensures answer { IfOk result (λ kind. kind
            ≡ kind_of (standing_in self.old.files path.now)) }
        ensures failed { self.new.failed
            ≡ failed_calls self.old.failed FileCall.Kind (Some path.now) result }
        ensures locks { locks_after self.new.locks.steps ≡ locks_after self.old.locks.steps }
        ensures counted { Counted (Unit {0}) (Some (kind_of (standing_in self.old.files path.now)))
            self.old self.new result }
    {
        self.begin(FileCall::Kind, Some(path))?;
        Ok(kind_at(self.files.as_slice(), path))
    }

    fn env(&mut self, alloc: Global, name: &str) -> Result<EnvValue, FileFault>
        ensures cause { HasCause FileFault.NoMemory self.old.faults self.new.faults result }
        ensures same { host_in self.new ≡ host_in self.old }
        ensures answer { IfOk result (λ value. value ≡ value_in self.old.variables name.now) }
        ensures failed { self.new.failed
            ≡ failed_calls self.old.failed FileCall.Env (Some name.now) result }
        ensures locks { locks_after self.new.locks.steps ≡ locks_after self.old.locks.steps }
        ensures counted { Counted (Unit {0}) (value_free (value_in self.old.variables name.now))
            self.old self.new result }
    {
        self.begin(FileCall::Env, Some(name))?;
        Ok(value_of(alloc, self.variables.as_slice(), name)?)
    }

    fn current_dir(&mut self, alloc: Global) -> Result<Text, FileFault>
        ensures cause { HasCause FileFault.NoMemory self.old.faults self.new.faults result }
        ensures same { host_in self.new ≡ host_in self.old }
        ensures answer { IfOk result (λ path. path ≡ self.old.current) }
        ensures failed { self.new.failed
            ≡ failed_calls self.old.failed FileCall.CurrentDir None result }
        ensures locks { locks_after self.new.locks.steps ≡ locks_after self.old.locks.steps }
        ensures counted { Counted (Unit {0}) None self.old self.new result }
    {
        self.begin(FileCall::CurrentDir, None)?;
        Ok(self.current.try_clone(alloc)?)
    }

    fn make_dirs(&mut self, path: &str) -> Result<(), FileFault>
        ensures cause { HasCause FileFault.NoMemory self.old.faults self.new.faults result }
        ensures made { MakesFolders path.now (host_in self.old) (host_in self.new) result }
        ensures possible { OnOk result
            (AreFolders (ways_to path.now) (standing_in self.old.files)) }
        ensures there { OnOk result
            (path.now ≢ [] → is_folder (standing_in self.new.files path.now) ≡ true) }
        ensures failed { self.new.failed
            ≡ failed_calls self.old.failed FileCall.MakeDirs (Some path.now) result }
        ensures locks { locks_after self.new.locks.steps ≡ locks_after self.old.locks.steps }
        ensures untorn { IsListed self.new.calls self.old.fails
            → host_in self.new ≡ host_in self.old }
        ensures counted { Counted (AreFolders (ways_to path.now) (standing_in self.old.files))
            None self.old self.new result }
    {
        self.begin(FileCall::MakeDirs, Some(path))?;
        let ways = ways_to(self.alloc, path)?;
        match add_folders(self.alloc, &mut self.files, ways.as_slice()) {
            Ok(true) => Ok(()),
            Ok(false) => Err(self.fail(FileCall::MakeDirs, Some(path))),
            Err(NoMemory) => Err(FileFault::NoMemory),
        }
    }

    fn create(&mut self, path: &str, bytes: &[u8]) -> Result<(), FileFault>
        ensures cause { HasCause FileFault.NoMemory self.old.faults self.new.faults result }
        ensures created { Creates path.now bytes.now (host_in self.old) (host_in self.new) result }
        ensures failed { self.new.failed
            ≡ failed_calls self.old.failed FileCall.Create (Some path.now) result }
        ensures locks { locks_after self.new.locks.steps ≡ locks_after self.old.locks.steps }
        ensures untorn { IsListed self.new.calls self.old.fails
            → host_in self.new ≡ host_in self.old }
        ensures counted { Counted (can_create path.now (standing_in self.old.files) ≡ true)
            None self.old self.new result }
    {
        self.begin(FileCall::Create, Some(path))?;
        if !can_create(self.files.as_slice(), path) {
            return Err(self.fail(FileCall::Create, Some(path)));
        }
        let file = MemNode::File(Items::copied(self.alloc, bytes)?);
        place(self.alloc, &mut self.files, path, file)?;
        Ok(())
    }

    fn open_lock(
        &mut self,
        path: &str,
        exclusive: bool,
    ) -> Result<Result<OpenedLock, LockOpenFault>, NoMemory>
        ensures cause { HasLockCause (result ≡ Ok (Err LockOpenFault.Failed))
            self.old.faults self.new.faults }
        ensures stayed { result ≢ Ok (Err LockOpenFault.Failed)
            → self.new.faults ≡ self.old.faults }
        ensures made { Makes exclusive path.now result (host_in self.old) (host_in self.new) }
        ensures failed { self.new.failed ≡ failed_opening path.now result self.old.failed }
        ensures locks { locks_after self.new.locks.steps
            ≡ after_opening path.now exclusive result (locks_after self.old.locks.steps) }
        ensures counted { LockCounted LockOpenFault.Failed LockAnswer.Open opening_stated
            self.old self.new result }
        ensures same { host_in self.new ≡ host_in self.old }
    {
        let fault = opening_fault(self.begin_lock());
        let step = LockCall::Open(fault);
        match fault {
            None => {
                self.add_step(path, exclusive, step)?;
                Ok(Ok(OpenedLock { file: None }))
            }
            Some(LockOpenFault::Failed) => {
                self.add_failed_step(path, exclusive, step, FileCall::OpenLock)?;
                Ok(Err(LockOpenFault::Failed))
            }
            Some(fault) => {
                self.add_step(path, exclusive, step)?;
                Ok(Err(fault))
            }
        }
    }

    fn take_lock(
        &mut self,
        path: &str,
        opened: &OpenedLock,
        exclusive: bool,
        block: bool,
    ) -> Result<Result<(), LockTakeFault>, NoMemory>
        ensures cause { HasLockCause (result ≡ Ok (Err LockTakeFault.Failed))
            self.old.faults self.new.faults }
        ensures stayed { result ≢ Ok (Err LockTakeFault.Failed)
            → self.new.faults ≡ self.old.faults }
        ensures contested { result ≡ Ok (Err LockTakeFault.Contested) → block ≡ false }
        ensures same { host_in self.new ≡ host_in self.old }
        ensures failed { self.new.failed ≡ failed_taking path.now result self.old.failed }
        ensures locks { locks_after self.new.locks.steps ≡ after_taking path.now opened.now
            exclusive block result (locks_after self.old.locks.steps) }
        ensures counted { LockCounted LockTakeFault.Failed LockAnswer.Take
            (taking_stated opened.now.file block) self.old self.new result }
    {
        let answer = self.begin_lock();
        let fault = match opened.file {
            None => taking_fault(answer, block),
            Some(_) => Some(LockTakeFault::Failed),
        };
        let step = LockCall::Take(block, fault);
        match fault {
            None => {
                self.add_step(path, exclusive, step)?;
                Ok(Ok(()))
            }
            Some(LockTakeFault::Failed) => {
                self.add_failed_step(path, exclusive, step, FileCall::TakeLock)?;
                Ok(Err(LockTakeFault::Failed))
            }
            Some(fault) => {
                self.add_step(path, exclusive, step)?;
                Ok(Err(fault))
            }
        }
    }
}
