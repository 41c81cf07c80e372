//! Files that are opened to be locked, and their locks. Std has locks only for its own files, so a
//! runtime itself defines how it opens such a file and takes its lock.
use crate::calls::{look_through, open_lock, take_lock};
use crate::reading::{is_absent, without_last_slashes};
use std::fs::{File, OpenOptions};
use std::io::{self, ErrorKind};
use std::rt::Files;

/// A runtime with files whose locks can be taken.
pub trait LockFiles {
    /// Opens the file at a path to be locked.
    fn open_lock(&self, how: &OpenOptions, place: &str) -> io::Result<File>;

    /// Takes the lock of the file that was opened at a path, alone (`exclusive`) or shared. Waits
    /// for its turn if it may (`block`), and else gives `WouldBlock` if another one holds the lock.
    /// If the file system has no locks it gives `Unsupported`.
    fn take_lock(&self, place: &str, file: &File, exclusive: bool, block: bool) -> io::Result<()>;
}

impl LockFiles for HostRuntime {
    fn open_lock(&self, how: &OpenOptions, place: &str) -> io::Result<File> {
        how.open(self, place)
    }

    fn take_lock(&self, _place: &str, file: &File, exclusive: bool, block: bool) -> io::Result<()> {
        match (exclusive, block) {
            (true, true) => file.lock(),
            (false, true) => file.lock_shared(),
            (true, false) => Ok(file.try_lock()?),
            (false, false) => Ok(file.try_lock_shared()?),
        }
    }
}

/// Opens the file at a path to be locked: to be read, or exclusively to be written too, which
/// creates it if nothing is there. What is there but isn't a file isn't opened, since that could
/// wait for ever. A path that ends with a slash means the path without it.
pub fn open_to_lock<R: Files + LockFiles>(rt: &R, path: &str, exclusive: bool) -> io::Result<File> {
    let path = without_last_slashes(path);
    match look_through(rt, path) {
        Ok(found) if !found.is_file() => return Err(io::Error::from(ErrorKind::InvalidInput)),
        Err(error) if !is_absent(error.kind()) => return Err(error),
        _ => {}
    }
    let mut how = OpenOptions::new();
    how.read(true);
    if exclusive {
        how.write(true);
        how.create(true);
    }
    open_lock(rt, &how, path)
}

/// Takes the lock of a file that was opened, if there is one.
pub fn take_opened<R: LockFiles>(
    rt: &R,
    path: &str,
    file: Option<&File>,
    exclusive: bool,
    block: bool,
) -> io::Result<()> {
    match file {
        Some(file) => take_lock(rt, without_last_slashes(path), file, exclusive, block),
        None => Err(io::Error::from(ErrorKind::InvalidInput)),
    }
}
