//! The host, over std.
ghost use Rattle.std.specs.Prelude.{◌≡◌, ◌≢◌, ◌≤◌, [], false, Ok};
ghost use Rattle.audit_edges.specs.Untold.{untold};
ghost use Rattle.tame_names.specs.Counts.{CountRose};

use crate::listings::{kind_of, list_folder};
use crate::locking::{LockFiles, open_to_lock, take_opened};
use crate::making::{make_file, make_folders};
use crate::reading::{read_file, read_part, read_within};
use crate::surroundings::{current_folder, variable};
use std::alloc::Global;
use std::io::{ErrorKind, Input};
use std::rt::{self, Env};
use tame_names::{
    EnvValue, FileFault, Files, Items, Listed, LockOpenFault, LockTakeFault, NoMemory, OpenedLock,
    PathKind, ReadAnswer, Text,
};

/// The host's files and their locks, its standard input, its environment and its current folder.
/// They tell nothing of their contents.
#[derive(Drop)]
pub struct StdFiles<'a, R: rt::Files + AllocGlobal> {
    rt: &'a R,
    faults: u64,
}

impl<'a, R: rt::Files + AllocGlobal> StdFiles<'a, R> {
    /// What a runtime reaches.
    pub fn new(rt: &'a R) -> StdFiles<'a, R>
        ensures { result.faults ≡ 0 }
    {
        StdFiles { rt, faults: 0 }
    }

    /// The fault of a call that gave an error of this kind, which is counted unless out of memory.
    fn fault(&mut self, kind: ErrorKind) -> FileFault
        ensures later { self.old.faults ≤ self.new.faults }
        ensures rose { result ≢ FileFault.NoMemory → CountRose self.old.faults self.new.faults }
    {
        if kind == ErrorKind::OutOfMemory {
            return FileFault::NoMemory;
        }
        self.count();
        FileFault::Failed
    }

    /// Counts a call that failed.
    fn count(&mut self)
        ensures later { self.old.faults ≤ self.new.faults }
        ensures rose { CountRose self.old.faults self.new.faults }
    {
        self.faults = self.faults.saturating_add(1);
    }

    /// The fault of an opening that gave an error of this kind. It is counted unless it says that
    /// nothing is there, that it is denied, or out of memory.
    fn open_fault(&mut self, kind: ErrorKind) -> Result<LockOpenFault, NoMemory>
        ensures later { self.old.faults ≤ self.new.faults }
        ensures rose { result ≡ Ok LockOpenFault.Failed
            → CountRose self.old.faults self.new.faults }
        ensures stayed { result ≢ Ok LockOpenFault.Failed → self.new.faults ≡ self.old.faults }
    {
        match kind {
            ErrorKind::OutOfMemory => Err(NoMemory),
            ErrorKind::NotFound => Ok(LockOpenFault::NotFound),
            ErrorKind::PermissionDenied | ErrorKind::ReadOnlyFilesystem => {
                Ok(LockOpenFault::Denied)
            }
            _ => {
                self.count();
                Ok(LockOpenFault::Failed)
            }
        }
    }

    /// The fault of taking a lock that gave an error of this kind. It is counted unless it says
    /// that another one holds the lock (if it didn't wait), that there are no locks, or out of
    /// memory.
    fn take_fault(&mut self, kind: ErrorKind, block: bool) -> Result<LockTakeFault, NoMemory>
        ensures later { self.old.faults ≤ self.new.faults }
        ensures rose { result ≡ Ok LockTakeFault.Failed
            → CountRose self.old.faults self.new.faults }
        ensures stayed { result ≢ Ok LockTakeFault.Failed → self.new.faults ≡ self.old.faults }
        ensures contested { result ≡ Ok LockTakeFault.Contested → block ≡ false }
    {
        match kind {
            ErrorKind::OutOfMemory => Err(NoMemory),
            ErrorKind::WouldBlock if !block => Ok(LockTakeFault::Contested),
            ErrorKind::Unsupported => Ok(LockTakeFault::NotSupported),
            _ => {
                self.count();
                Ok(LockTakeFault::Failed)
            }
        }
    }
}

impl<'a, R: rt::Files + LockFiles + AllocGlobal + Env + Input> Files for StdFiles<'a, R> {
    ghost tells = { ⊥ };

    ghost host = { λ _. untold };

    ghost failed = { λ _. [] };

    ghost locks = { λ _. record { steps = []; opened = []; taken = [] } };

    ghost faults = { λ s. s.faults };

    fn file_faults(&self) -> u64 {
        self.faults
    }

    fn read(&mut self, alloc: Global, path: &str, limit: u64) -> Result<ReadAnswer, FileFault> {
        match read_file(self.rt, alloc, path, limit) {
            Ok(answer) => Ok(answer),
            Err(error) => Err(self.fault(error.kind())),
        }
    }

    fn read_part(
        &mut self,
        alloc: Global,
        path: &str,
        from: u64,
        limit: u64,
    ) -> Result<Option<Vec<u8>>, FileFault> {
        match read_part(self.rt, alloc, path, from, limit) {
            Ok(part) => Ok(part),
            Err(error) => Err(self.fault(error.kind())),
        }
    }

    fn read_stdin(&mut self, alloc: Global, limit: u64) -> Result<ReadAnswer, FileFault> {
        match read_within(alloc, &mut self.rt.reader(), 0, limit) {
            Ok(answer) => Ok(answer),
            Err(error) => Err(self.fault(error.kind())),
        }
    }

    fn list(&mut self, alloc: Global, path: &str) -> Result<Option<Items<Listed>>, FileFault> {
        match list_folder(self.rt, alloc, path) {
            Ok(entries) => Ok(entries),
            Err(error) => Err(self.fault(error.kind())),
        }
    }

    fn kind(&mut self, path: &str) -> Result<PathKind, FileFault> {
        match kind_of(self.rt, path) {
            Ok(kind) => Ok(kind),
            Err(error) => Err(self.fault(error.kind())),
        }
    }

    fn env(&mut self, _alloc: Global, name: &str) -> Result<EnvValue, FileFault> {
        match variable(self.rt, name) {
            Ok(value) => Ok(value),
            Err(error) => Err(self.fault(error.kind())),
        }
    }

    fn current_dir(&mut self, _alloc: Global) -> Result<Text, FileFault> {
        match current_folder(self.rt) {
            Ok(path) => Ok(path),
            Err(error) => Err(self.fault(error.kind())),
        }
    }

    fn make_dirs(&mut self, path: &str) -> Result<(), FileFault> {
        match make_folders(self.rt, path) {
            Ok(()) => Ok(()),
            Err(error) => Err(self.fault(error.kind())),
        }
    }

    fn create(&mut self, path: &str, bytes: &[u8]) -> Result<(), FileFault> {
        match make_file(self.rt, path, bytes) {
            Ok(()) => Ok(()),
            Err(error) => Err(self.fault(error.kind())),
        }
    }

    fn open_lock(
        &mut self,
        path: &str,
        exclusive: bool,
    ) -> Result<Result<OpenedLock, LockOpenFault>, NoMemory> {
        match open_to_lock(self.rt, path, exclusive) {
            Ok(file) => Ok(Ok(OpenedLock { file: Some(file) })),
            Err(error) => Ok(Err(self.open_fault(error.kind())?)),
        }
    }

    fn take_lock(
        &mut self,
        path: &str,
        opened: &OpenedLock,
        exclusive: bool,
        block: bool,
    ) -> Result<Result<(), LockTakeFault>, NoMemory> {
        match take_opened(self.rt, path, opened.file.as_ref(), exclusive, block) {
            Ok(()) => Ok(Ok(())),
            Err(error) => Ok(Err(self.take_fault(error.kind(), block)?)),
        }
    }
}
