//! What stays from one row to the next.
use row_fixtures::{Row, RowFault, asked, crates_io_index, disk_failing, files_with};
use std::alloc::Global;
use tame_cache::MemCacheDisk;
use tame_names::{Items, MemFiles, Text};
use tame_sparse::{CRATES_IO_INDEX, EtagCache, GitIndex, SparseIndex};

/// The objects that rows are asked of.
#[derive(Drop)]
pub struct Stage {
    pub index: SparseIndex,
    pub disk: MemCacheDisk,
    pub files: MemFiles,
    pub tags: EtagCache,
    pub git: GitIndex,
}

fn git_index(alloc: Global) -> Result<GitIndex, RowFault> {
    let path = Text::of(alloc, "")?;
    asked(alloc, GitIndex::at(alloc, path, CRATES_IO_INDEX))
}

impl Stage {
    /// The sparse index of crates.io, a disk and files with nothing on them, no tag remembered, and
    /// a git index without a head.
    pub fn new(alloc: Global) -> Result<Stage, RowFault> {
        let index = crates_io_index(alloc, "")?;
        let git = git_index(alloc)?;
        Ok(Stage {
            index,
            disk: disk_failing(alloc, Vec::new(alloc)),
            files: MemFiles::new(alloc, Items::new(alloc), Items::new(alloc)),
            tags: EtagCache::new(alloc),
            git,
        })
    }

    /// `disk FAILING`: a new disk.
    pub fn lay_disk(&mut self, alloc: Global, mut words: Row<'_>) -> Result<String, RowFault> {
        self.disk = disk_failing(alloc, words.numbers(alloc)?);
        Ok(String::from_str(alloc, "laid")?)
    }

    /// Another git index and another disk in the place of these.
    fn take_git(&mut self, git: GitIndex, disk: MemCacheDisk) {
        self.git = git;
        self.disk = disk;
    }

    /// `git FAILING`: a new git index, and a new disk.
    pub fn lay_git(&mut self, alloc: Global, mut words: Row<'_>) -> Result<String, RowFault> {
        let failing = words.numbers(alloc)?;
        let git = git_index(alloc)?;
        self.take_git(git, disk_failing(alloc, failing));
        Ok(String::from_str(alloc, "laid")?)
    }

    /// `files FAILING [PATH BYTES]`: new files.
    pub fn lay_files(&mut self, alloc: Global, mut words: Row<'_>) -> Result<String, RowFault> {
        let failing = words.numbers(alloc)?;
        let path = words.word();
        let bytes = words.bytes(alloc)?;
        let file = if path.is_empty() {
            None
        } else {
            Some((path, bytes.as_slice()))
        };
        self.files = files_with(alloc, file, failing)?;
        Ok(String::from_str(alloc, "laid")?)
    }
}
