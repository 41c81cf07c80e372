//! Calls on the host. One that a signal interrupts is repeated.
use crate::locking::LockFiles;
use std::alloc::Global;
use std::env;
use std::fs::{self, File, Metadata, OpenFile, OpenOptions, ReadDir};
use std::io::{self, ErrorKind, Read, Seek, SeekFrom, Write};
use std::os::unix::fs::FileExt;
use std::path::PathBuf;
use std::rt::{Env, Files};

/// The result of a call that isn't interrupted.
macro_rules! again {
    ($call:expr) => {{
        for _ in 0..u64::MAX {
            match $call {
                Err(error) if error.kind() == ErrorKind::Interrupted => {}
                done => return done,
            }
        }
        Err(io::Error::from(ErrorKind::Interrupted))
    }};
}

/// What is at a path, without following a link there.
pub fn look<R: Files>(rt: &R, place: &str) -> io::Result<Metadata> {
    again!(fs::symlink_metadata(rt, place))
}

/// What is at a path, following links.
pub fn look_through<R: Files>(rt: &R, place: &str) -> io::Result<Metadata> {
    again!(fs::metadata(rt, place))
}

/// What is open.
pub fn look_at_opened<F: OpenFile>(file: &F) -> io::Result<Metadata> {
    again!(file.metadata())
}

/// Creates a folder at a path; an error if something is there.
pub fn make_folder<R: Files>(rt: &R, place: &str) -> io::Result<()> {
    again!(fs::create_dir(rt, place))
}

/// Opens the file at a path in this way.
pub fn open<R: Files>(rt: &R, how: &OpenOptions, place: &str) -> io::Result<R::File> {
    again!(how.open(rt, place))
}

/// A file, opened to be locked.
pub fn open_lock<R: LockFiles>(rt: &R, how: &OpenOptions, place: &str) -> io::Result<File> {
    again!(rt.open_lock(how, place))
}

/// Takes the lock of the file that was opened at a path.
pub fn take_lock<R: LockFiles>(
    rt: &R,
    place: &str,
    file: &File,
    exclusive: bool,
    block: bool,
) -> io::Result<()> {
    again!(rt.take_lock(place, file, exclusive, block))
}

/// The folder at a path, following a link there, opened to be listed.
pub fn open_folder<'a, R: Files + AllocGlobal>(
    rt: &'a R,
    place: &str,
) -> io::Result<ReadDir<&'a R, Global>> {
    again!(fs::read_dir(&rt, place))
}

/// The path of the current folder.
pub fn current_path<R: Env + AllocGlobal>(rt: &R) -> io::Result<PathBuf> {
    again!(env::current_dir(rt))
}

/// Reads once from a reader.
pub fn read_once<R: Read>(reader: &mut R, room: &mut [u8]) -> io::Result<usize> {
    again!(reader.read(room))
}

/// Goes to a place in a file.
pub fn seek<F: Seek>(file: &mut F, at: u64) -> io::Result<u64> {
    again!(file.seek(SeekFrom::Start(at)))
}

/// The first byte of a file; none if it has none.
pub fn first_byte<F: FileExt>(file: &F) -> io::Result<Option<u8>> {
    let mut room = [0u8; 1];
    for _ in 0..u64::MAX {
        match file.read_at(&mut room, 0) {
            Ok(0) => return Ok(None),
            Ok(_) => return Ok(Some(room[0])),
            Err(error) if error.kind() == ErrorKind::Interrupted => {}
            Err(error) => return Err(error),
        }
    }
    Err(io::Error::from(ErrorKind::Interrupted))
}

/// Makes a file this number of bytes long.
pub fn set_len<F: OpenFile>(file: &F, len: u64) -> io::Result<()> {
    again!(file.set_len(len))
}

/// Waits until the system has stored what a file holds.
pub fn sync<F: OpenFile>(file: &F) -> io::Result<()> {
    again!(file.sync_all())
}

/// Flushes a writer.
pub fn flush<W: Write>(writer: &mut W) -> io::Result<()> {
    again!(writer.flush())
}
