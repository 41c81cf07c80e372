//! The recorded host's input, environment and current folder.
ghost use Rattle.std.specs.Prelude.{◌≤◌, length, IfSome};

use crate::host::Host;
use std::alloc::Allocator;
use std::env::FillError;
use std::fs::{self, File, OpenOptions};
use std::io::{self, BufRead, ErrorKind, Input, Lines, Read};
use std::rt::Env;

/// The input of the host: the bytes of a file, or the error of opening it. Whether its first read
/// fails was recorded as it was asked for. It isn't read by lines.
#[derive(Drop)]
pub struct HostInput {
    file: io::Result<File>,
    fails: Option<io::Error>,
}

impl Read for HostInput {
    fn read(&mut self, buf: &mut [u8]) -> io::Result<usize> {
        if let Some(error) = self.fails.take() {
            return Err(error);
        }
        match &mut self.file {
            Ok(file) => file.read(buf),
            Err(error) => Err(*error),
        }
    }
}

impl BufRead for HostInput {
    fn fill_buf(&mut self) -> io::Result<&[u8]> {
        Err(io::Error::from(ErrorKind::Unsupported))
    }

    fn consume(&mut self, _amount: usize) {}
}

impl<'a> Input for Host<'a> {
    type Reader = HostInput;

    fn read_line<A: Allocator + Clone>(&self, _buf: &mut String<A>) -> io::Result<usize> {
        Err(io::Error::from(ErrorKind::Unsupported))
    }

    fn lines<A: Allocator>(&self, alloc: A) -> Lines<HostInput, A> {
        self.reader().lines(alloc)
    }

    fn reader(&self) -> HostInput {
        let mut how = OpenOptions::new();
        how.read(true);
        HostInput {
            fails: self.call("read", "the input").err(),
            file: how.open(self.rt, "elsewhere/input"),
        }
    }
}

/// Copies bytes to the start of a buffer that has room for them.
fn fill(bytes: &[u8], buf: &mut [u8]) -> Option<usize>
    ensures { IfSome result (λ count. count ≤ length buf.new) }
{
    let mut places = buf.iter_mut();
    for byte in bytes {
        *places.next()? = *byte;
    }
    let count = bytes.len();
    if count > buf.len() {
        return None;
    }
    Some(count)
}

impl<'a> Env for Host<'a> {
    fn arg(&self, i: usize, buf: &mut [u8]) -> Result<usize, FillError> {
        self.rt.arg(i, buf)
    }

    fn var(&self, name: &str, buf: &mut [u8]) -> Result<usize, FillError> {
        let Ok(path) = format!(in self.rt.alloc(); "variables/{name}") else {
            return Err(FillError::NotPresent);
        };
        let Ok(bytes) = fs::read(self.rt, path.as_str()) else {
            return Err(FillError::NotPresent);
        };
        match fill(bytes.as_slice(), buf) {
            Some(count) => Ok(count),
            None => Err(FillError::TooLong),
        }
    }

    fn var_at(&self, i: usize, buf: &mut [u8]) -> Result<usize, FillError> {
        self.rt.var_at(i, buf)
    }

    fn current_dir(&self, buf: &mut [u8]) -> io::Result<usize> {
        self.call("ask for", "the current folder")?;
        match fs::read(self.rt, "elsewhere/current") {
            Ok(bytes) => match fill(bytes.as_slice(), buf) {
                Some(count) => Ok(count),
                None => Err(io::Error::from(ErrorKind::InvalidFilename)),
            },
            Err(_) => self.rt.current_dir(buf),
        }
    }
}
