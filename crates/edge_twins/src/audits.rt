//! What an audit does with its mirror and its cache, in memory beside what it does really.
use crate::chance::contents;
use crate::disk_calls::whole_text;
use crate::host::{Failing, Host};
use crate::play::{Pair, World};
use crate::recording::Recorder;
use crate::serving::{Mirror, Server, TAGS, tag_bytes};
use crate::standing::{made, said};
use crate::steps::{Act, Step};
use crate::turns::{Krate, answered, audited, fetched, refused, requested, stored};
use crate::ways::below;
use audit_edges::{FileCacheDisk, MirrorWire};
use std::alloc::{AllocError, Global};
use std::io::ErrorKind;
use std::{fs, io};
use tame_cache::{CacheDisk, MemCacheDisk};
use tame_names::{KrateName, Text, parent};
use tame_sparse::{SparseIndex, Wire};

/// The names of crates, and their paths in the index.
pub const KRATES: [(&str, &str); 4] = [
    ("a", "1/a"),
    ("abc", "3/a/abc"),
    ("abcd", "ab/cd/abcd"),
    ("abce", "ab/ce/abce"),
];

/// The folder of the cache, below the base.
pub const CACHE: &str = "cache";

/// The index, with its cache in the folder of a path.
pub fn index_at(alloc: Global, path: &str) -> io::Result<SparseIndex> {
    let path = made(Text::of(alloc, path))?;
    match SparseIndex::at(alloc, path, "sparse+https://index.crates.io/") {
        Ok(index) => Ok(index),
        Err(_) => Err(io::Error::from(ErrorKind::InvalidInput)),
    }
}

/// The crate of a number.
pub fn krate_of<'a>(index: &'a SparseIndex, number: usize) -> io::Result<Krate<'a>> {
    let (name, _) = KRATES[number % 4];
    match KrateName::try_from(name) {
        Ok(name) => Ok(Krate { index, name }),
        Err(_) => Err(io::Error::from(ErrorKind::InvalidInput)),
    }
}

/// A body of some lines. That of every sixteenth number has a zero byte in it, and that of another
/// one has lines that are none.
pub fn body_of(alloc: Global, size: usize, fill: u64) -> Result<Vec<u8>, AllocError> {
    let mut body = Vec::new(alloc);
    for line in 0..fill % 3 + 1 {
        body.push(b'{')?;
        for (at, byte) in contents(alloc, size, fill / 3 + line)?.iter().enumerate() {
            let letter = b'a'.wrapping_add(*byte % 26);
            let byte = match fill / 3 % 16 {
                0 if at == 0 => 0,
                1 => *byte,
                _ => letter,
            };
            body.push(byte)?;
        }
        body.extend_from_slice("}\n".as_bytes())?;
    }
    Ok(body)
}

/// The disk of a cache on real files.
fn real_disk<'a>(host: &'a Host<'a>) -> Recorder<'a, FileCacheDisk<'a, Host<'a>>> {
    Recorder::new(host.rt.alloc(), FileCacheDisk::new(host, CACHE), None)
}

/// Both sides.
#[derive(Drop)]
pub struct Audits<'a> {
    pub mirror: Mirror<'a>,
    pub index: SparseIndex,
    pub memory: Recorder<'a, MemCacheDisk>,
    pub real: Recorder<'a, FileCacheDisk<'a, Host<'a>>>,
    pub wire: MirrorWire<'a, Host<'a>>,
}

/// Both sides of a mirror with these files, before the first step.
pub fn audits_of<'a>(
    host: &'a Host<'a>,
    folder: &'a str,
    paths: &'a [String],
    index: SparseIndex,
) -> Audits<'a> {
    let alloc = host.rt.alloc();
    let memory = MemCacheDisk::new(alloc, Vec::new(alloc));
    Audits {
        mirror: Mirror {
            host,
            folder,
            paths,
        },
        index,
        memory: Recorder::new(alloc, memory, None),
        real: real_disk(host),
        wire: MirrorWire::new(host, folder),
    }
}

/// The path of a crate's file in the cache.
pub fn cache_path(alloc: Global, krate: Krate<'_>) -> io::Result<Text> {
    made(krate.index.cache().cache_path(alloc, krate.name))
}

/// How many calls on the disk are let through in a step; in some all.
fn let_through(step: &Step) -> u64 {
    if step.other == 0 {
        step.amount % 16
    } else {
        u64::MAX
    }
}

/// A text, with the record of a disk behind it.
fn with_record<D: CacheDisk + Drop>(
    alloc: Global,
    text: &str,
    disk: &Recorder<'_, D>,
) -> io::Result<String> {
    Ok(format!(in alloc; "{text}; {}{} faults", disk.record()?, disk.disk_faults())?)
}

impl<'a> Audits<'a> {
    fn alloc(&self) -> Global {
        self.mirror.host.rt.alloc()
    }

    /// The turn of a crate in memory.
    fn turn_in_memory(&mut self, number: usize, fails: bool) -> io::Result<String> {
        let alloc = self.alloc();
        let krate = krate_of(&self.index, number)?;
        let (_, path) = KRATES[number % 4];
        match self.mirror.server(path, fails)? {
            Server::Serves(mut wire) => audited(alloc, krate, &mut wire, &mut self.memory),
            Server::Says(mut wire) => audited(alloc, krate, &mut wire, &mut self.memory),
        }
    }

    fn in_memory(&mut self, step: &Step) -> io::Result<String> {
        let alloc = self.alloc();
        self.memory
            .begin(if step.fails { 0 } else { let_through(step) });
        if step.act == Act::Audit {
            return self.turn_in_memory(step.place, step.fails);
        }
        let krate = krate_of(&self.index, step.place)?;
        let body = body_of(alloc, step.size, step.fill)?;
        match step.act {
            Act::Store => stored(alloc, krate, &mut self.memory, body.as_slice(), step.amount),
            _ => fetched(alloc, krate, &mut self.memory),
        }
    }

    /// The turn of a crate over the mirror.
    fn turn_really(&mut self, number: usize) -> io::Result<String> {
        let alloc = self.alloc();
        let krate = krate_of(&self.index, number)?;
        match requested(alloc, krate, &mut self.real) {
            Ok(request) => {
                let answer = self.wire.exchange(alloc, &request);
                answered(alloc, krate, &mut self.real, answer)
            }
            Err(refusal) => refused(alloc, refusal),
        }
    }

    fn really(&mut self, step: &Step) -> io::Result<String> {
        let alloc = self.alloc();
        self.real.begin(if step.fails {
            u64::MAX
        } else {
            let_through(step)
        });
        if step.act == Act::Audit {
            return self.turn_really(step.place);
        }
        let krate = krate_of(&self.index, step.place)?;
        let body = body_of(alloc, step.size, step.fill)?;
        match step.act {
            Act::Store => stored(alloc, krate, &mut self.real, body.as_slice(), step.amount),
            _ => fetched(alloc, krate, &mut self.real),
        }
    }

    fn ask(&mut self, step: &Step) -> io::Result<Pair> {
        let (host, alloc) = (self.mirror.host, self.alloc());
        let memory = self.in_memory(step)?;
        host.begin(if step.fails {
            Failing::All
        } else {
            step.interrupt()
        });
        let real = self.really(step);
        host.begin(Failing::None);
        Ok(Pair {
            memory: with_record(alloc, memory.as_str(), &self.memory)?,
            real: with_record(alloc, real?.as_str(), &self.real)?,
            known: false,
        })
    }

    /// Lays a crate's file in the mirror, its tag, or a file in the cache of either side.
    fn lay(&mut self, step: &Step) -> io::Result<()> {
        let (host, alloc) = (self.mirror.host, self.alloc());
        let (_, path) = KRATES[step.place % 4];
        match step.act {
            Act::LayFile => {
                let body = body_of(alloc, step.size, step.fill)?;
                lay_at(
                    host,
                    below(host, self.mirror.folder, path)?.as_str(),
                    body.as_slice(),
                )
            }
            Act::LayTag => {
                let (text, _) = TAGS[(step.fill / 32 % 13) as usize];
                let place = below(host, self.mirror.folder, path)?;
                let place = format!(in alloc; "{place}.etag")?;
                lay_at(host, place.as_str(), tag_bytes(alloc, text)?.as_slice())
            }
            _ => self.lay_entry(step),
        }
    }

    fn lay_entry(&mut self, step: &Step) -> io::Result<()> {
        let (host, alloc) = (self.mirror.host, self.alloc());
        let path = cache_path(alloc, krate_of(&self.index, step.place)?)?;
        let bytes = contents(alloc, step.size, step.fill)?;
        made(
            self.memory
                .disk
                .put_file(alloc, path.as_str(), bytes.as_slice()),
        )?;
        lay_at(
            host,
            below(host, CACHE, path.as_str())?.as_str(),
            bytes.as_slice(),
        )
    }

    fn open_anew(&mut self) {
        self.real = real_disk(self.mirror.host);
        self.memory.begin(u64::MAX);
        self.wire = MirrorWire::new(self.mirror.host, self.mirror.folder);
    }

    /// Adds what the disk in memory has at a place, and what std finds there.
    fn push_file(&mut self, pair: &mut Pair, path: &str) -> io::Result<()> {
        let (host, alloc) = (self.mirror.host, self.alloc());
        let file = self.memory.disk.read(alloc, path);
        pair.memory.push_str(whole_text(alloc, file)?.as_str())?;
        // what was written waits until its file is read, and std is to find it
        let _ = self.real.disk.peek(path);
        let file = match fs::read(host.rt, below(host, CACHE, path)?.as_str()) {
            Ok(bytes) => Ok(Some(bytes)),
            Err(_) => Ok(None),
        };
        pair.real.push_str(whole_text(alloc, file)?.as_str())?;
        Ok(())
    }
}

/// Lays a file and the folders above it.
fn lay_at(host: &Host, place: &str, bytes: &[u8]) -> io::Result<()> {
    if let Some(folder) = parent(place) {
        fs::create_dir_all(host.rt, folder)?;
    }
    fs::write(host.rt, place, bytes)
}

impl<'a> World for Audits<'a> {
    fn step(&mut self, step: &Step) -> io::Result<Pair> {
        match step.act {
            Act::Audit | Act::Fetch | Act::Store => return self.ask(step),
            Act::Again => self.open_anew(),
            _ => self.lay(step)?,
        }
        Ok(Pair::nothing(self.alloc()))
    }

    fn state(&mut self) -> io::Result<Pair> {
        let alloc = self.alloc();
        let mut pair = Pair::nothing(alloc);
        for number in 0..KRATES.len() {
            let path = cache_path(alloc, krate_of(&self.index, number)?)?;
            self.push_file(&mut pair, path.as_str())?;
        }
        Ok(pair)
    }
}

/// The paths of all crates in the index.
pub fn krate_paths(alloc: Global) -> io::Result<Vec<String>> {
    let mut paths = Vec::new(alloc);
    for (_, path) in KRATES {
        paths.push(said(alloc, path)?)?;
    }
    Ok(paths)
}
