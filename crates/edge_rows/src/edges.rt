//! The edges of one run of a program over recorded files, and what they answer.
use crate::asked::{asked, really_asked};
use crate::host::Host;
use crate::texts::{meant, shown};
use audit_edges::{FileCacheDisk, MirrorWire, StdFiles, StdSink};
use std::fs::{self, OpenOptions};
use std::io::{self, ErrorKind};
use tame_cache::{CacheDisk, CacheFault, DiskReadFault, IndexCache, Kept, Peek};
use tame_entry::{CacheWrite, HttpRevision, IndexEntry, JsonLines, OwnedRevision, Revision};
use tame_names::{FileLock, KrateName, NoMemory, Sink, Text, put_piece};
use tame_sparse::{Request, Wire, WireAnswer, WireFault, crates_io_request};

/// The edges of one run.
#[derive(Drop)]
pub struct Edges<'a> {
    host: &'a Host<'a>,
    disk: FileCacheDisk<'a, Host<'a>>,
    wire: MirrorWire<'a, Host<'a>>,
    files: StdFiles<'a, Host<'a>>,
}

pub fn wrong(word: &str) -> io::Error {
    match word {
        "" => io::Error::from(ErrorKind::InvalidInput),
        _ => io::Error::from(ErrorKind::InvalidData),
    }
}

/// What was made, or that memory ran out.
fn made<T>(made: Result<T, NoMemory>) -> io::Result<T> {
    match made {
        Ok(made) => Ok(made),
        Err(NoMemory) => Err(io::Error::from(ErrorKind::OutOfMemory)),
    }
}

pub fn number(word: &str) -> io::Result<u64> {
    match word.parse::<u64>() {
        Ok(number) => Ok(number),
        Err(_) => Err(wrong(word)),
    }
}

/// The first word, and what follows.
pub fn first_word(line: &str) -> (&str, &str) {
    line.split_once(' ').unwrap_or((line, ""))
}

/// The url of the index whose entries are written and read.
const INDEX_URL: &str = "u";

/// The entry of a crate, as another disk over the same folder reads it.
fn entry(rt: &HostRuntime, name: &str) -> io::Result<String> {
    let alloc = rt.alloc();
    let Ok(krate) = KrateName::try_from(name) else {
        return Err(wrong(name));
    };
    let lock = FileLock::unlocked();
    let url = made(Text::of(alloc, INDEX_URL))?;
    let cache = IndexCache::at_path(made(Text::of(alloc, ""))?, url);
    let mut disk = FileCacheDisk::new(rt, "cache");
    let Ok(Some(IndexEntry::Cache(file, _url))) = cache.cached_krate(alloc, krate, &lock, &mut disk)
    else {
        return Ok(String::from_str(alloc, "none")?);
    };
    Ok(shown(alloc, file.as_slice())?)
}

impl<'a> Edges<'a> {
    pub fn new(host: &'a Host<'a>) -> Edges<'a> {
        Edges {
            host,
            disk: FileCacheDisk::new(host, "cache"),
            wire: MirrorWire::new(host, "mirror"),
            files: StdFiles::new(host),
        }
    }

    fn said(&self, word: &str) -> io::Result<String> {
        Ok(String::from_str(self.host.alloc(), word)?)
    }

    fn fault(&self, count: u64) -> io::Result<String> {
        Ok(format!(in self.host.alloc(); "fault {count}")?)
    }

    fn done(&self, is_done: bool) -> io::Result<String> {
        if is_done {
            return self.said("done");
        }
        self.fault(self.disk.disk_faults())
    }

    fn peek(&mut self, path: &str) -> io::Result<String> {
        match self.disk.peek(path) {
            Ok(Peek::Absent) => self.said("absent"),
            Ok(Peek::Empty) => self.said("empty"),
            Ok(Peek::Byte(byte)) => Ok(shown(self.host.alloc(), &[byte])?),
            Err(_) => self.done(false),
        }
    }

    fn read(&mut self, path: &str) -> io::Result<String> {
        match self.disk.read(self.host.alloc(), path) {
            Ok(None) => self.said("absent"),
            Ok(Some(bytes)) => Ok(shown(self.host.alloc(), bytes.as_slice())?),
            Err(DiskReadFault::Failed) => self.done(false),
            Err(DiskReadFault::NoMemory) => self.said("no memory"),
        }
    }

    fn write(&mut self, rest: &str) -> io::Result<String> {
        let (path, rest) = first_word(rest);
        let (at, text) = first_word(rest);
        let piece = meant(self.host.alloc(), text)?;
        let done = self.disk.write_at(path, number(at)?, piece.as_slice());
        self.done(done.is_ok())
    }

    /// Writes this many zero bytes.
    fn fill(&mut self, rest: &str) -> io::Result<String> {
        let (path, rest) = first_word(rest);
        let (at, count) = first_word(rest);
        let mut piece = Vec::new(self.host.alloc());
        piece.resize(number(count)? as usize, 0)?;
        let done = self.disk.write_at(path, number(at)?, piece.as_slice());
        self.done(done.is_ok())
    }

    fn cut(&mut self, rest: &str) -> io::Result<String> {
        let (path, len) = first_word(rest);
        let done = self.disk.cut(path, number(len)?);
        self.done(done.is_ok())
    }

    fn sync(&mut self, path: &str) -> io::Result<String> {
        let done = self.disk.sync(path);
        self.done(done.is_ok())
    }

    fn make_folders(&mut self, path: &str) -> io::Result<String> {
        let done = self.disk.make_dirs(path);
        self.done(done.is_ok())
    }

    /// Writes an entry of a body under an entity tag.
    fn store(&mut self, rest: &str) -> io::Result<String> {
        let (name, rest) = first_word(rest);
        let (tag, body) = first_word(rest);
        let alloc = self.host.alloc();
        let (Ok(krate), Ok(lines)) = (
            KrateName::try_from(name),
            JsonLines::validate(body.as_bytes()),
        ) else {
            return Err(wrong(rest));
        };
        let url = made(Text::of(alloc, INDEX_URL))?;
        let kept = IndexCache::at_path(made(Text::of(alloc, ""))?, url).write_to_cache(
            alloc,
            krate,
            CacheWrite::Remote(lines),
            &Revision::Http(HttpRevision::Etag(tag)),
            &FileLock::unlocked(),
            &mut self.disk,
        );
        match kept {
            Ok(Kept::Written) => self.said("written"),
            Ok(Kept::NotStored) => self.said("not stored"),
            Err(CacheFault::Disk) => self.done(false),
            Err(CacheFault::NoMemory) => self.said("no memory"),
        }
    }

    fn heard(&self, answer: &WireAnswer) -> io::Result<String> {
        let alloc = self.host.alloc();
        let tag = match &answer.revision {
            Some(OwnedRevision::Etag(tag)) => shown(alloc, tag.as_str().as_bytes())?,
            Some(OwnedRevision::LastModified(_)) => String::from_str(alloc, "a date")?,
            None => String::from_str(alloc, "without a tag")?,
        };
        let status = answer.status;
        let body = shown(alloc, answer.body.as_slice())?;
        Ok(format!(in alloc; "{status}, {tag}, '{body}'")?)
    }

    /// An exchange with the mirror, which may name an entity tag.
    fn ask(&mut self, rest: &str) -> io::Result<String> {
        let (path, rest) = first_word(rest);
        let (_, tag) = first_word(rest);
        let alloc = self.host.alloc();
        let request = made(crates_io_request(alloc, path))?;
        let named = if tag.is_empty() {
            None
        } else {
            Some(OwnedRevision::Etag(made(Text::of(alloc, tag))?))
        };
        let request = Request {
            uri: request.uri,
            path: request.path,
            named,
        };
        match self.wire.exchange(alloc, &request) {
            Ok(answer) => self.heard(&answer),
            Err(WireFault::NoMemory) => self.said("no memory"),
            Err(WireFault::Failed) => self.fault(self.wire.wire_faults()),
        }
    }

    /// Puts a text into the file `elsewhere/out`, opened to be written or to be read.
    fn put(&mut self, text: &str, is_open: bool) -> io::Result<String> {
        let mut how = OpenOptions::new();
        if is_open {
            how.write(true).create(true).truncate(true);
        } else {
            how.read(true);
        }
        let file = self.host.uncounted(&how, "elsewhere/out")?;
        let mut sink = StdSink::new(file);
        let piece = meant(self.host.alloc(), text)?;
        if put_piece(&mut sink, piece.as_slice()).is_ok() {
            return self.said("done");
        }
        self.fault(sink.sink_faults())
    }

    /// What a call on an edge answers.
    pub fn answer(&mut self, line: &str) -> io::Result<String> {
        let (word, rest) = first_word(line);
        match word {
            "peek" => self.peek(rest),
            "read" => self.read(rest),
            "folders" => self.make_folders(rest),
            "write" => self.write(rest),
            "fill" => self.fill(rest),
            "cut" => self.cut(rest),
            "sync" => self.sync(rest),
            "store" => self.store(rest),
            "entry" => entry(self.host.rt, rest),
            "ask" => self.ask(rest),
            "put" => self.put(rest, true),
            "put-closed" => self.put(rest, false),
            "real" => really_asked(self.host.rt, rest),
            _ => asked(&mut self.files, self.host.alloc(), line),
        }
    }
}

/// What stands at a place of the host.
pub fn standing(rt: &HostRuntime, place: &str) -> io::Result<String> {
    let alloc = rt.alloc();
    match fs::symlink_metadata(rt, place) {
        Ok(found) if found.is_dir() => Ok(String::from_str(alloc, "a folder")?),
        Ok(found) if found.is_file() => {
            let bytes = fs::read(rt, place)?;
            Ok(format!(in alloc; "'{}'", shown(alloc, bytes.as_slice())?)?)
        }
        Ok(_) => Ok(String::from_str(alloc, "a link")?),
        Err(error) if error.kind() == ErrorKind::NotFound => Ok(String::from_str(
            alloc, "nothing",
        )?),
        Err(error) => Err(error),
    }
}
