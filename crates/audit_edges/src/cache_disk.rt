//! The cache on the host's disk.
ghost use Rattle.std.specs.Prelude.{◌≡◌, ◌≤◌, [], None};
ghost use Rattle.tame_names.specs.Counts.{CountRose};

use crate::cache_folder::CacheFolder;
use std::alloc::Global;
use std::io::ErrorKind;
use std::os::unix::fs::FileExt;
use std::rt;
use tame_cache::{CacheDisk, DiskFault, DiskReadFault, Peek};

/// The files of a folder as the disk of a cache. It tells nothing of their contents. Below the
/// folder no link is followed, and only plain files of at most 256 MiB are opened. After a sync
/// that failed nothing more is written.
#[derive(Drop)]
pub struct FileCacheDisk<'a, R: rt::Files + AllocGlobal> {
    files: CacheFolder<'a, R>,
    faults: u64,
}

impl<'a, R: rt::Files + AllocGlobal> FileCacheDisk<'a, R>
where
    R::File: FileExt,
{
    /// The disk of the files in a folder.
    pub fn new(rt: &'a R, folder: &'a str) -> FileCacheDisk<'a, R>
        ensures folder { result.files.root.folder.now ≡ folder.now }
        ensures faults { result.faults ≡ 0 }
    {
        FileCacheDisk {
            files: CacheFolder::new(rt, folder),
            faults: 0,
        }
    }

    fn fail(&mut self) -> DiskFault
        ensures rose { CountRose self.old.faults self.new.faults }
        ensures later { self.old.faults ≤ self.new.faults }
    {
        self.faults = self.faults.saturating_add(1);
        DiskFault
    }
}

impl<'a, R: rt::Files + AllocGlobal> CacheDisk for FileCacheDisk<'a, R>
where
    R::File: FileExt,
{
    ghost tells = { ⊥ };

    ghost past = { λ _ _. [] };

    ghost failed = { λ _. None };

    ghost faults = { λ disk. disk.faults };

    ghost folders = { λ _. [] };

    ghost made = { λ _. 0 };

    fn disk_faults(&self) -> u64 {
        self.faults
    }

    fn peek(&mut self, path: &str) -> Result<Peek, DiskFault> {
        match self.files.first_byte(path) {
            Ok(first) => Ok(first),
            Err(_) => Err(self.fail()),
        }
    }

    fn read(&mut self, alloc: Global, path: &str) -> Result<Option<Vec<u8>>, DiskReadFault> {
        match self.files.whole(alloc, path) {
            Ok(file) => Ok(file),
            Err(error) => {
                if error.kind() == ErrorKind::OutOfMemory {
                    return Err(DiskReadFault::NoMemory);
                }
                let _fault = self.fail();
                Err(DiskReadFault::Failed)
            }
        }
    }

    fn make_dirs(&mut self, path: &str) -> Result<(), DiskFault> {
        match self.files.make_folders(path) {
            Ok(()) => Ok(()),
            Err(_) => Err(self.fail()),
        }
    }

    fn write_at(&mut self, path: &str, at: u64, piece: &[u8]) -> Result<(), DiskFault> {
        match self.files.write(path, at, piece) {
            Ok(()) => Ok(()),
            Err(_) => Err(self.fail()),
        }
    }

    fn cut(&mut self, path: &str, len: u64) -> Result<(), DiskFault> {
        match self.files.cut(path, len) {
            Ok(()) => Ok(()),
            Err(_) => Err(self.fail()),
        }
    }

    fn sync(&mut self, path: &str) -> Result<(), DiskFault> {
        match self.files.sync(path) {
            Ok(()) => Ok(()),
            Err(_) => Err(self.fail()),
        }
    }
}
