//! What stays from one row to the next.
use row_fixtures::{Row, RowFault, disk_failing, files_with};
use std::alloc::Global;
use tame_cache::MemCacheDisk;
use tame_names::MemFiles;

/// The objects that rows are asked of.
#[derive(Drop)]
pub struct Stage {
    pub disk: MemCacheDisk,
    pub files: MemFiles,
}

impl Stage {
    /// A disk and files with nothing on them.
    pub fn new(alloc: Global) -> Result<Stage, RowFault> {
        Ok(Stage {
            disk: disk_failing(alloc, Vec::new(alloc)),
            files: files_with(alloc, None, Vec::new(alloc))?,
        })
    }

    /// `disk FAILING`: a new disk.
    pub fn lay_disk(&mut self, alloc: Global, mut words: Row<'_>) -> Result<String, RowFault> {
        self.disk = disk_failing(alloc, words.numbers(alloc)?);
        Ok(String::from_str(alloc, "-")?)
    }

    /// `files FAILING PATH BYTES`: new files, of which one stands.
    pub fn lay_files(&mut self, alloc: Global, mut words: Row<'_>) -> Result<String, RowFault> {
        let failing = words.numbers(alloc)?;
        let path = words.word();
        let bytes = words.bytes(alloc)?;
        self.files = files_with(alloc, Some((path, bytes.as_slice())), failing)?;
        Ok(String::from_str(alloc, "-")?)
    }
}
