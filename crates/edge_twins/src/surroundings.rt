//! The host's input, environment, current folder and locks.
ghost use Rattle.std.specs.Prelude.{◌≤◌, length, IfSome};

use crate::host::Host;
use audit_edges::LockFiles;
use std::alloc::Allocator;
use std::env::FillError;
use std::fs::{File, OpenOptions};
use std::io::{self, BufRead, ErrorKind, Input, Lines, Read};
use std::rt::Env;

/// The input that is left, which is handed out once.
#[derive(Drop)]
pub struct HostInput {
    bytes: Vec<u8>,
    at: usize,
    most: usize,
    fails: Option<io::Error>,
}

/// Copies bytes to the start of a buffer, as many as have room there.
fn copied(bytes: &[u8], buf: &mut [u8]) -> usize
    ensures { result ≤ length buf.new }
{
    let count = bytes.len().min(buf.len());
    buf[..count].copy_from_slice(&bytes[..count]);
    count
}

/// Copies bytes to the start of a buffer that has room for them.
fn filled(bytes: &[u8], buf: &mut [u8]) -> Option<usize>
    ensures { IfSome result (λ count. count ≤ length buf.new) }
{
    if bytes.len() > buf.len() {
        return None;
    }
    Some(copied(bytes, buf))
}

impl Read for HostInput {
    fn read(&mut self, buf: &mut [u8]) -> io::Result<usize> {
        if let Some(error) = self.fails.take() {
            return Err(error);
        }
        let rest = self.bytes.as_slice().get(self.at..).unwrap_or(&[]);
        let most = rest.len().min(self.most);
        let count = copied(&rest[..most], buf);
        self.at = self.at.saturating_add(count);
        Ok(count)
    }
}

impl BufRead for HostInput {
    fn fill_buf(&mut self) -> io::Result<&[u8]> {
        Err(io::Error::from(ErrorKind::Unsupported))
    }

    fn consume(&mut self, _amount: usize) {}
}

impl<'a> Host<'a> {
    /// The input that is left, of which nothing is left then.
    fn input(&self) -> io::Result<Vec<u8>> {
        let _ = self.called("")?;
        let whole = self.plan.input.as_slice();
        let rest = whole.get(self.plan.read.get()..).unwrap_or(&[]);
        let bytes = rest.to_vec(self.rt.alloc())?;
        self.plan.read.set(whole.len());
        Ok(bytes)
    }
}

impl<'a> Input for Host<'a> {
    type Reader = HostInput;

    fn read_line<A: Allocator + Clone>(&self, _buf: &mut String<A>) -> io::Result<usize> {
        Err(io::Error::from(ErrorKind::Unsupported))
    }

    fn lines<A: Allocator>(&self, alloc: A) -> Lines<HostInput, A> {
        self.reader().lines(alloc)
    }

    fn reader(&self) -> HostInput {
        let (bytes, fails) = match self.input() {
            Ok(bytes) => (bytes, None),
            Err(error) => (Vec::new(self.rt.alloc()), Some(error)),
        };
        HostInput {
            bytes,
            at: 0,
            most: self.plan.most,
            fails,
        }
    }
}

/// The bytes of a variable; none where it isn't set.
pub fn variable_bytes(name: &str) -> Option<&'static [u8]> {
    match name {
        "SET" => Some("a value".as_bytes()),
        "EMPTY" => Some(&[]),
        "BYTES" => Some(&[b'a', 255]),
        "WIDE" => Some("é\n".as_bytes()),
        _ => None,
    }
}

/// The names of variables that are asked for.
pub const VARIABLES: [&str; 7] = ["SET", "EMPTY", "BYTES", "WIDE", "UNSET", "", "SET=a"];

impl<'a> Env for Host<'a> {
    fn arg(&self, i: usize, buf: &mut [u8]) -> Result<usize, FillError> {
        self.rt.arg(i, buf)
    }

    fn var(&self, name: &str, buf: &mut [u8]) -> Result<usize, FillError> {
        let Some(bytes) = variable_bytes(name) else {
            return Err(FillError::NotPresent);
        };
        match filled(bytes, buf) {
            Some(count) => Ok(count),
            None => Err(FillError::TooLong),
        }
    }

    fn var_at(&self, i: usize, buf: &mut [u8]) -> Result<usize, FillError> {
        self.rt.var_at(i, buf)
    }

    fn current_dir(&self, buf: &mut [u8]) -> io::Result<usize> {
        let _ = self.called("")?;
        match filled(self.plan.current.as_slice(), buf) {
            Some(count) => Ok(count),
            None => Err(io::Error::from(ErrorKind::InvalidFilename)),
        }
    }
}

impl<'a> LockFiles for Host<'a> {
    fn open_lock(&self, how: &OpenOptions, place: &str) -> io::Result<File> {
        let place = self.called(place)?;
        how.open(self.rt, place.as_str())
    }

    fn take_lock(&self, place: &str, file: &File, exclusive: bool, block: bool) -> io::Result<()> {
        let place = self.called(place)?;
        self.rt.take_lock(place.as_str(), file, exclusive, block)
    }
}
