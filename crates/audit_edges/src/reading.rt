//! Files read within a limit.
ghost use Rattle.std.specs.Prelude.{◌≢◌, ◌≤◌, length, IfOk};
ghost use Rattle.audit_edges.specs.Reading.{IsAbove, IsNoMore};

use crate::calls::{look_through, open, read_once, seek};
use std::alloc::Global;
use std::fs::{Metadata, OpenOptions};
use std::io::{self, ErrorKind, Read};
use std::os::unix::fs::FileExt;
use std::rt::Files;
use tame_names::{NoMemory, ReadAnswer};

/// What was created, unless out of memory.
pub fn made<T>(made: Result<T, NoMemory>) -> io::Result<T> {
    match made {
        Ok(made) => Ok(made),
        Err(NoMemory) => Err(io::Error::from(ErrorKind::OutOfMemory)),
    }
}

/// Whether nothing can be at a path, by the error of a look at it: nothing is there, it is below a
/// file, or a name in it is longer than the system allows.
pub fn is_absent(kind: ErrorKind) -> bool {
    matches!(
        kind,
        ErrorKind::NotFound | ErrorKind::NotADirectory | ErrorKind::InvalidFilename
    )
}

/// How many bytes are asked for if it isn't known how many come.
const PIECE: usize = 8192;

/// How many bytes are cleared at once.
const STEP: usize = 2048;

/// Lengthens bytes by zeros until they have this length.
fn lengthen(bytes: &mut Vec<u8>, len: usize) -> io::Result<()> {
    for _ in 0..u64::MAX {
        if bytes.len() >= len {
            return Ok(());
        }
        let next = bytes.len().saturating_add(STEP).min(len);
        bytes.resize(next, 0)?;
    }
    Err(io::Error::from(ErrorKind::Other))
}

/// Reads once, after the bytes that are filled, and returns how many are filled then.
fn fill<R: Read>(reader: &mut R, bytes: &mut [u8], filled: usize) -> io::Result<usize> {
    match bytes.get_mut(filled..) {
        Some(room) => Ok(filled.saturating_add(read_once(reader, room)?)),
        None => Err(io::Error::from(ErrorKind::Other)),
    }
}

/// The bytes of a reader, of which `expected` should come, or that they are more than the limit.
/// The end is a read that gives nothing, or one that gives the last of the expected ones though it
/// asked for more.
pub fn read_within<R: Read>(
    alloc: Global,
    reader: &mut R,
    expected: u64,
    limit: u64,
) -> io::Result<ReadAnswer>
    ensures above { IfOk result (IsAbove limit) }
    ensures there { IfOk result (λ answer. answer ≢ ReadAnswer.Absent) }
{
    let mut room = match expected.min(limit) as usize {
        0 => PIECE,
        expected => expected.saturating_add(1),
    };
    let mut bytes = Vec::with_capacity(alloc, room)?;
    let mut filled = 0;
    for _ in 0..u64::MAX {
        lengthen(&mut bytes, room)?;
        let before = filled;
        filled = fill(reader, bytes.as_mut_slice(), filled)?;
        let len = filled as u64;
        if len > limit {
            return Ok(ReadAnswer::Over(len));
        }
        if filled == before || len == expected {
            bytes.truncate(filled);
            return Ok(ReadAnswer::Whole(bytes));
        }
        room = filled.saturating_add(PIECE);
    }
    Err(io::Error::from(ErrorKind::Other))
}

/// A file that is read from its beginning, whatever its own position is.
#[derive(Drop)]
pub struct FromStart<'a, F> {
    file: &'a F,
    at: u64,
}

impl<'a, F> FromStart<'a, F> {
    /// A reader of this file, at its beginning.
    pub fn new(file: &'a F) -> FromStart<'a, F> {
        FromStart { file, at: 0 }
    }
}

impl<'a, F: FileExt> Read for FromStart<'a, F> {
    fn read(&mut self, buf: &mut [u8]) -> io::Result<usize> {
        let count = self.file.read_at(buf, self.at)?;
        self.at = self.at.saturating_add(count as u64);
        Ok(count)
    }
}

/// The path without slashes at its end; one that has only slashes stays.
pub fn without_last_slashes(path: &str) -> &str {
    let rest = path.trim_end_matches('/');
    if rest.is_empty() { path } else { rest }
}

/// Looks at a path to be read, following links. What is there but isn't a file can't be read; it
/// must not be opened, since that could wait for ever.
fn readable<R: Files>(rt: &R, path: &str) -> io::Result<Option<Metadata>> {
    match look_through(rt, path) {
        Ok(found) if found.is_file() => Ok(Some(found)),
        Ok(_) => Err(io::Error::from(ErrorKind::InvalidInput)),
        Err(error) if is_absent(error.kind()) => Ok(None),
        Err(error) => Err(error),
    }
}

/// Reads until as many bytes have come, or no more come.
fn read_up_to<F: Read>(alloc: Global, reader: &mut F, limit: u64) -> io::Result<Vec<u8>>
    ensures { IfOk result (λ part. length part.items ≤ limit) }
{
    let room = limit as usize;
    let mut bytes = Vec::new(alloc);
    lengthen(&mut bytes, room)?;
    let mut filled = 0;
    for _ in 0..u64::MAX {
        let before = filled;
        filled = fill(reader, bytes.as_mut_slice(), filled)?;
        if filled == before || filled >= room {
            bytes.truncate(filled.min(room));
            return Ok(bytes);
        }
    }
    Err(io::Error::from(ErrorKind::Other))
}

/// A part of the file at a path, following links: no more bytes than the limit, from a place on;
/// none if the file ends before, however far that place is.
/// The path and what can't be read are as those of `read_file`.
pub fn read_part<R: Files + AllocGlobal>(
    rt: &R,
    alloc: Global,
    path: &str,
    from: u64,
    limit: u64,
) -> io::Result<Option<Vec<u8>>>
    ensures { IfOk result (IsNoMore limit) }
{
    let path = without_last_slashes(path);
    let Some(found) = readable(rt, path)? else {
        return Ok(None);
    };
    let rest = found.len().saturating_sub(from).min(limit);
    let mut how = OpenOptions::new();
    how.read(true);
    let mut file = open(rt, &how, path)?;
    if rest > 0 {
        seek(&mut file, from)?;
    }
    Ok(Some(read_up_to(alloc, &mut file, rest)?))
}

/// The file at a path, following links. What is there but isn't a file can't be read; it isn't
/// opened, since that could wait for ever. A path that ends with a slash means the path without it.
pub fn read_file<R: Files + AllocGlobal>(
    rt: &R,
    alloc: Global,
    path: &str,
    limit: u64,
) -> io::Result<ReadAnswer>
    ensures { IfOk result (IsAbove limit) }
{
    let path = without_last_slashes(path);
    let Some(found) = readable(rt, path)? else {
        return Ok(ReadAnswer::Absent);
    };
    let len = found.len();
    if len > limit {
        return Ok(ReadAnswer::Over(len));
    }
    let mut how = OpenOptions::new();
    how.read(true);
    let mut file = open(rt, &how, path)?;
    read_within(alloc, &mut file, len, limit)
}
