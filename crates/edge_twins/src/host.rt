//! The host's files below a folder, whose calls may be made to fail or to be short.
use crate::turning::Turn;
use std::alloc::Global;
use std::cell::Cell;
use std::fs::{self, File, Metadata, OpenFile, OpenOptions};
use std::io::{self, ErrorKind, Read, Seek, SeekFrom, Write};
use std::os::unix::fs::FileExt;
use std::rt::Files;

/// Which calls on the system fail.
#[derive(Clone, Copy, PartialEq, Eq)]
pub enum Failing {
    None,
    /// The syncs alone.
    Syncs,
    All,
    /// All but the first.
    Later,
    /// The first is interrupted, and no other one fails.
    Interrupted,
}

/// What befalls the calls of a host, and what it has but for files.
#[derive(Drop)]
pub struct FailurePlan {
    pub failing: Cell<Failing>,
    /// How many calls were made since it was said which fail.
    pub calls: Cell<u64>,
    /// What changes before one of the calls that name a path.
    pub turn: Cell<Turn>,
    /// The most bytes that one call reads or writes.
    pub most: usize,
    /// That the system syncs what it is asked to; it takes long, and nothing shows it.
    pub syncs: bool,
    /// The input.
    pub input: Vec<u8>,
    /// How much of the input was handed out.
    pub read: Cell<usize>,
    /// The current folder.
    pub current: Vec<u8>,
}

impl FailurePlan {
    /// Counts a call, and fails where it is to fail.
    fn call(&self) -> io::Result<()> {
        let before = self.calls.get();
        self.calls.set(before.saturating_add(1));
        match self.failing.get() {
            Failing::All => Err(io::Error::from(ErrorKind::PermissionDenied)),
            Failing::Later if before > 0 => Err(io::Error::from(ErrorKind::PermissionDenied)),
            Failing::Interrupted if before == 0 => Err(io::Error::from(ErrorKind::Interrupted)),
            _ => Ok(()),
        }
    }

    fn sync_call(&self) -> io::Result<()> {
        match self.failing.get() {
            Failing::Syncs => Err(io::Error::from(ErrorKind::Other)),
            _ => self.call(),
        }
    }
}

/// The host's files. A path that doesn't begin with a slash, and isn't empty, is one below the
/// base. In the names that are listed `~` is the byte 255, so that some aren't UTF-8.
#[derive(Drop)]
pub struct Host<'a> {
    pub rt: &'a HostRuntime,
    pub base: &'a str,
    pub plan: &'a FailurePlan,
}

impl<'a> Host<'a> {
    /// Where a path leads.
    pub fn place(&self, path: &str) -> io::Result<String> {
        if path.is_empty() || path.starts_with('/') {
            return Ok(String::from_str(self.rt.alloc(), path)?);
        }
        Ok(format!(in self.rt.alloc(); "{}/{path}", self.base)?)
    }

    /// Begins a call whose calls on the system fail so.
    pub fn begin(&self, failing: Failing) {
        self.plan.calls.set(0);
        self.plan.failing.set(failing);
    }

    /// Where a path of a call leads, unless it fails.
    pub fn called(&self, path: &str) -> io::Result<String> {
        self.come_nearer()?;
        self.plan.call()?;
        self.place(path)
    }

    /// An opened file.
    pub fn opened(&self, file: File) -> HostFile<'a> {
        HostFile {
            file,
            plan: self.plan,
        }
    }
}

impl<'a> Alloc for Host<'a> {
    type A = Global;

    fn alloc(&self) -> Global {
        self.rt.alloc()
    }
}

/// An open file.
#[derive(Drop)]
pub struct HostFile<'a> {
    file: File,
    plan: &'a FailurePlan,
}

/// An open folder.
#[derive(Drop)]
pub struct HostFolder {
    names: <HostRuntime as Files>::Dir,
}

impl<'a> Files for Host<'a> {
    type File = HostFile<'a>;

    type Dir = HostFolder;

    fn open_file(&self, how: &OpenOptions, path: &str) -> io::Result<HostFile<'a>> {
        let place = self.called(path)?;
        Ok(self.opened(how.open(self.rt, place.as_str())?))
    }

    fn open_dir(&self, path: &str) -> io::Result<HostFolder> {
        let place = self.called(path)?;
        Ok(HostFolder {
            names: self.rt.open_dir(place.as_str())?,
        })
    }

    fn metadata(&self, path: &str) -> io::Result<Metadata> {
        let place = self.called(path)?;
        fs::metadata(self.rt, place.as_str())
    }

    fn symlink_metadata(&self, path: &str) -> io::Result<Metadata> {
        let place = self.called(path)?;
        fs::symlink_metadata(self.rt, place.as_str())
    }

    fn copy(&self, _from: &str, _to: &str) -> io::Result<u64> {
        Err(io::Error::from(ErrorKind::Unsupported))
    }

    fn rename(&self, _from: &str, _to: &str) -> io::Result<()> {
        Err(io::Error::from(ErrorKind::Unsupported))
    }

    fn remove_file(&self, _path: &str) -> io::Result<()> {
        Err(io::Error::from(ErrorKind::Unsupported))
    }

    fn create_dir(&self, path: &str) -> io::Result<()> {
        let place = self.called(path)?;
        fs::create_dir(self.rt, place.as_str())
    }

    fn remove_dir(&self, _path: &str) -> io::Result<()> {
        Err(io::Error::from(ErrorKind::Unsupported))
    }

    fn remove_dir_all<B: std::alloc::Allocator>(&self, _alloc: B, _path: &str) -> io::Result<()> {
        Err(io::Error::from(ErrorKind::Unsupported))
    }
}

impl<'a> Read for HostFile<'a> {
    fn read(&mut self, buf: &mut [u8]) -> io::Result<usize> {
        self.plan.call()?;
        let count = buf.len().min(self.plan.most);
        self.file.read(&mut buf[..count])
    }
}

impl Read for HostFolder {
    fn read(&mut self, buf: &mut [u8]) -> io::Result<usize> {
        let count = self.names.read(buf)?;
        for byte in buf.iter_mut() {
            if *byte == b'~' {
                *byte = 255;
            }
        }
        Ok(count)
    }
}

impl<'a> Write for HostFile<'a> {
    fn write(&mut self, buf: &[u8]) -> io::Result<usize> {
        self.plan.call()?;
        let count = buf.len().min(self.plan.most);
        self.file.write(&buf[..count])
    }

    fn flush(&mut self) -> io::Result<()> {
        self.plan.call()?;
        self.file.flush()
    }
}

impl<'a> Seek for HostFile<'a> {
    fn seek(&mut self, to: SeekFrom) -> io::Result<u64> {
        self.plan.call()?;
        self.file.seek(to)
    }
}

impl<'a> FileExt for HostFile<'a> {
    fn read_at(&self, buf: &mut [u8], offset: u64) -> io::Result<usize> {
        self.plan.call()?;
        let count = buf.len().min(self.plan.most);
        self.file.read_at(&mut buf[..count], offset)
    }

    fn write_at(&self, buf: &[u8], offset: u64) -> io::Result<usize> {
        self.plan.call()?;
        let count = buf.len().min(self.plan.most);
        self.file.write_at(&buf[..count], offset)
    }
}

impl<'a> OpenFile for HostFile<'a> {
    fn metadata(&self) -> io::Result<Metadata> {
        self.plan.call()?;
        self.file.metadata()
    }

    fn set_len(&self, size: u64) -> io::Result<()> {
        self.plan.call()?;
        self.file.set_len(size)
    }

    fn sync_all(&self) -> io::Result<()> {
        self.plan.sync_call()?;
        if self.plan.syncs {
            return self.file.sync_all();
        }
        Ok(())
    }

    fn sync_data(&self) -> io::Result<()> {
        self.plan.sync_call()
    }
}
