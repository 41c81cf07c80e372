//! The host's files behind a record: each call is counted, may be told, and may be made to fail.
use std::alloc::Global;
use std::cell::Cell;
use std::fs::{self, File, Metadata, OpenFile, OpenOptions};
use std::io::{self, ErrorKind, Read, Seek, SeekFrom, Write};
use std::os::unix::fs::FileExt;
use std::rt::Files;

/// What is counted, and what befalls the call that is meant.
#[derive(Drop)]
pub struct FailurePlan {
    /// The calls since the last command began.
    pub made: Cell<u64>,
    /// The number of the call that fails, from 1; 0 is none.
    pub fails_at: Cell<u64>,
    /// The error that it gives; an interrupt isn't told.
    pub kind: Cell<ErrorKind>,
    /// The number of the call before which the mirror becomes another one; 0 is none.
    pub turns_at: Cell<u64>,
    /// That each call is told.
    pub is_told: Cell<bool>,
}

impl FailurePlan {
    pub fn new() -> FailurePlan {
        FailurePlan {
            made: Cell::new(0),
            fails_at: Cell::new(0),
            kind: Cell::new(ErrorKind::PermissionDenied),
            turns_at: Cell::new(0),
            is_told: Cell::new(false),
        }
    }

    /// Begins a command, in which the call of this number fails.
    pub fn begin(&self, fails_at: u64) {
        self.made.set(0);
        self.fails_at.set(fails_at);
    }

    /// Whether the call of this number fails: the one that is meant, and, if it is interrupted, the
    /// next one too, which is the same call made again.
    fn befalls(&self, number: u64) -> bool {
        let meant = self.fails_at.get();
        let is_again = meant > 0 && number == meant.saturating_add(1);
        number == meant || is_again && self.kind.get() == ErrorKind::Interrupted
    }

    /// That the call that was to fail has been made.
    pub fn has_failed(&self) -> bool {
        self.fails_at.get() > 0 && self.fails_at.get() <= self.made.get()
    }
}

/// The host's files, recorded.
#[derive(Drop)]
pub struct Host<'a> {
    pub rt: &'a HostRuntime,
    pub plan: &'a FailurePlan,
}

impl<'a> Host<'a> {
    /// Counts a call, tells it, and fails where it is the one that is meant.
    pub fn call(&self, name: &str, path: &str) -> io::Result<()> {
        let number = self.plan.made.get().saturating_add(1);
        self.plan.made.set(number);
        if number == self.plan.turns_at.get() {
            self.turn()?;
        }
        let fails = self.plan.befalls(number);
        if self.plan.is_told.get() {
            println!(self.rt; "    {name} {path}")?;
        } else if fails && self.plan.kind.get() != ErrorKind::Interrupted {
            print!(self.rt; "    {number} {name} {path}: ")?;
        }
        if !fails {
            return Ok(());
        }
        Err(io::Error::from(self.plan.kind.get()))
    }

    /// A recorded file. That it is opened isn't counted.
    pub fn uncounted(&self, how: &OpenOptions, path: &str) -> io::Result<HostFile<'a>> {
        Ok(HostFile {
            file: how.open(self.rt, path)?,
            path: String::from_str(self.rt.alloc(), path)?,
            host: Host {
                rt: self.rt,
                plan: self.plan,
            },
        })
    }

    /// Puts the folder `next` into the place of the mirror, or where there is none the text of the
    /// file `elsewhere/now` into the file `mirror/1/a`.
    fn turn(&self) -> io::Result<()> {
        if !fs::exists(self.rt, "next")? {
            let now = fs::read(self.rt, "elsewhere/now")?;
            return fs::write(self.rt, "mirror/1/a", now.as_slice());
        }
        fs::rename(self.rt, "mirror", "past")?;
        fs::rename(self.rt, "next", "mirror")
    }
}

impl<'a> Alloc for Host<'a> {
    type A = Global;

    fn alloc(&self) -> Global {
        self.rt.alloc()
    }
}

/// An open file of the host, recorded.
#[derive(Drop)]
pub struct HostFile<'a> {
    file: File,
    path: String,
    host: Host<'a>,
}

/// An open folder of the host. Whether its first read fails was recorded as it was opened. In the
/// names that are read from it each `~` is the byte 255, so that some aren't UTF-8.
#[derive(Drop)]
pub struct HostFolder {
    names: <HostRuntime as Files>::Dir,
    fails: Option<io::Error>,
}

impl<'a> Files for Host<'a> {
    type File = HostFile<'a>;

    type Dir = HostFolder;

    fn open_file(&self, how: &OpenOptions, path: &str) -> io::Result<HostFile<'a>> {
        let name = if how.asks_create_new() {
            "make"
        } else if how.asks_write() {
            "open to write"
        } else {
            "open"
        };
        self.call(name, path)?;
        self.uncounted(how, path)
    }

    fn open_dir(&self, path: &str) -> io::Result<HostFolder> {
        self.call("list", path)?;
        Ok(HostFolder {
            names: self.rt.open_dir(path)?,
            fails: self.call("read the folder", path).err(),
        })
    }

    fn metadata(&self, path: &str) -> io::Result<Metadata> {
        self.call("look, following links, at", path)?;
        fs::metadata(self.rt, path)
    }

    fn symlink_metadata(&self, path: &str) -> io::Result<Metadata> {
        self.call("look at", path)?;
        fs::symlink_metadata(self.rt, path)
    }

    fn copy(&self, from: &str, to: &str) -> io::Result<u64> {
        self.call("copy", from)?;
        fs::copy(self.rt, from, to)
    }

    fn rename(&self, from: &str, to: &str) -> io::Result<()> {
        self.call("rename", from)?;
        fs::rename(self.rt, from, to)
    }

    fn remove_file(&self, path: &str) -> io::Result<()> {
        self.call("remove", path)?;
        fs::remove_file(self.rt, path)
    }

    fn create_dir(&self, path: &str) -> io::Result<()> {
        self.call("make folder", path)?;
        fs::create_dir(self.rt, path)
    }

    fn remove_dir(&self, path: &str) -> io::Result<()> {
        self.call("remove folder", path)?;
        fs::remove_dir(self.rt, path)
    }

    fn remove_dir_all<B: std::alloc::Allocator>(&self, alloc: B, path: &str) -> io::Result<()> {
        self.call("remove all", path)?;
        self.rt.remove_dir_all(alloc, path)
    }
}

impl<'a> Read for HostFile<'a> {
    fn read(&mut self, buf: &mut [u8]) -> io::Result<usize> {
        self.host.call("read", self.path.as_str())?;
        self.file.read(buf)
    }
}

impl Read for HostFolder {
    fn read(&mut self, buf: &mut [u8]) -> io::Result<usize> {
        if let Some(error) = self.fails.take() {
            return Err(error);
        }
        let count = self.names.read(buf)?;
        for byte in buf.iter_mut() {
            if *byte == b'~' {
                *byte = 255;
            }
        }
        Ok(count)
    }
}

impl<'a> Write for HostFile<'a> {
    fn write(&mut self, buf: &[u8]) -> io::Result<usize> {
        let len = buf.len();
        let name = format!(in self.host.rt.alloc(); "write {len} to")?;
        self.host.call(name.as_str(), self.path.as_str())?;
        self.file.write(buf)
    }

    fn flush(&mut self) -> io::Result<()> {
        self.host.call("flush", self.path.as_str())?;
        self.file.flush()
    }
}

impl<'a> Seek for HostFile<'a> {
    fn seek(&mut self, to: SeekFrom) -> io::Result<u64> {
        let name = match to {
            SeekFrom::Start(at) => format!(in self.host.rt.alloc(); "seek {at} in")?,
            _ => String::from_str(self.host.rt.alloc(), "seek elsewhere in")?,
        };
        self.host.call(name.as_str(), self.path.as_str())?;
        self.file.seek(to)
    }
}

impl<'a> FileExt for HostFile<'a> {
    fn read_at(&self, buf: &mut [u8], offset: u64) -> io::Result<usize> {
        let name = format!(in self.host.rt.alloc(); "read at {offset} of")?;
        self.host.call(name.as_str(), self.path.as_str())?;
        self.file.read_at(buf, offset)
    }

    fn write_at(&self, buf: &[u8], offset: u64) -> io::Result<usize> {
        let len = buf.len();
        let name = format!(in self.host.rt.alloc(); "write {len} at {offset} to")?;
        self.host.call(name.as_str(), self.path.as_str())?;
        self.file.write_at(buf, offset)
    }
}

impl<'a> OpenFile for HostFile<'a> {
    fn metadata(&self) -> io::Result<Metadata> {
        self.host.call("look at the open", self.path.as_str())?;
        self.file.metadata()
    }

    fn set_len(&self, size: u64) -> io::Result<()> {
        let name = format!(in self.host.rt.alloc(); "cut to {size}")?;
        self.host.call(name.as_str(), self.path.as_str())?;
        self.file.set_len(size)
    }

    fn sync_all(&self) -> io::Result<()> {
        self.host.call("sync", self.path.as_str())?;
        self.file.sync_all()
    }

    fn sync_data(&self) -> io::Result<()> {
        self.host.call("sync the data of", self.path.as_str())?;
        self.file.sync_data()
    }
}
