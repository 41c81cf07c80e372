//! Pieces of a file that follow each other and go to the system together.
use std::alloc::Global;
use std::io;
use std::os::unix::fs::FileExt;

/// The most bytes that wait: 256 KiB.
const WAITING_LIMIT: usize = 262144;

/// Bytes that follow each other in a file and wait to be written.
#[derive(Drop)]
pub struct Waiting {
    bytes: Vec<u8>,
    at: u64,
}

impl Waiting {
    /// No bytes.
    pub fn new(alloc: Global) -> Waiting {
        Waiting {
            bytes: Vec::new(alloc),
            at: 0,
        }
    }

    /// Whether a piece begins where these bytes end, and they aren't too many with it.
    fn takes(&self, at: u64, piece: &[u8]) -> bool {
        let len = self.bytes.len();
        self.at.checked_add(len as u64) == Some(at)
            && len.saturating_add(piece.len()) <= WAITING_LIMIT
    }

    /// Adds a piece of the file. If it doesn't follow, what waits is written first.
    pub fn add<F: FileExt>(&mut self, file: &F, at: u64, piece: &[u8]) -> io::Result<()> {
        if !self.takes(at, piece) {
            self.write(file)?;
            self.at = at;
        }
        self.bytes.extend_from_slice(piece)?;
        Ok(())
    }

    /// Writes what waits. If that fails it still waits, and is written again from its beginning.
    pub fn write<F: FileExt>(&mut self, file: &F) -> io::Result<()> {
        if !self.bytes.is_empty() {
            file.write_all_at(self.bytes.as_slice(), self.at)?;
            self.bytes.clear();
        }
        Ok(())
    }
}
