//! The cache's disk in memory beside the real one.
use crate::chance::contents;
use crate::disk_calls::{DiskCall, asked, whole_text};
use crate::host::{Failing, Host};
use crate::play::{Pair, World};
use crate::standing::{made, said};
use crate::steps::{Act, Step};
use crate::ways::{Way, below, has_way_above, way_to};
use audit_edges::FileCacheDisk;
use std::alloc::{AllocError, Global};
use std::os::unix::fs::symlink;
use std::{fs, io};
use tame_cache::{CacheDisk, MemCacheDisk};

/// How many of the places are compared after each step.
pub const DISK_CHECKED: usize = 8;

/// The numbers of the calls in memory that are to fail: of each step one, and behind it one for
/// each place that is compared.
pub fn disk_failing(alloc: Global, steps: &[Step]) -> Result<Vec<u64>, AllocError> {
    let mut numbers = Vec::new(alloc);
    let mut next: u64 = 1;
    for step in steps {
        if may_fail(step) {
            numbers.push(next)?;
        }
        next = next.saturating_add(DISK_CHECKED as u64 + 1);
    }
    Ok(numbers)
}

/// Both disks.
#[derive(Drop)]
pub struct Disks<'a> {
    pub host: &'a Host<'a>,
    pub folder: &'a str,
    pub paths: &'a [String],
    pub memory: MemCacheDisk,
    pub real: FileCacheDisk<'a, Host<'a>>,
    /// Which of the places are folders. The disk in memory tells none.
    pub folders: [bool; 8],
    /// The number of the file whose sync failed.
    pub shut: Option<usize>,
    /// The folders of files that couldn't be made there. The real disk syncs them all the same.
    pub noted: Vec<String>,
}

impl<'a> Disks<'a> {
    /// Whether the real disk alone refuses a call.
    fn is_refused(&self, step: &Step, path: &str) -> io::Result<bool> {
        let found = way_to(self.host, self.folder, path)?;
        let is_shut = self.shut.is_some();
        Ok(match step.act {
            // the file whose sync failed isn't read
            Act::Peek | Act::Whole => found == Way::Refused || self.shut == Some(step.place),
            // a sync has failed, or the folders can't be made
            Act::MakeAbove => is_shut || !has_way_above(self.host, self.folder, path)?,
            // a sync has failed, or the file can't be made
            Act::Write => is_shut || matches!(found, Way::Refused | Way::Homeless),
            // a sync has failed, or there is no file, or a folder that is to be synced isn't there
            Act::Sync => is_shut || found != Way::File || self.lacks_noted()?,
            // a sync has failed, or there is no file
            _ => is_shut || found != Way::File,
        })
    }

    /// Whether a folder isn't there in which a file was to be made.
    fn lacks_noted(&self) -> io::Result<bool> {
        for folder in self.noted.as_slice() {
            let place = below(self.host, self.folder, folder.as_str())?;
            if fs::metadata(self.host.rt, place.as_str()).is_err() {
                return Ok(true);
            }
        }
        Ok(false)
    }

    /// Notes the folder of a file that can't be made.
    fn note_unmade(&mut self, path: &str) -> io::Result<()> {
        let above = match path.rsplit_once('/') {
            Some((above, _)) => above,
            None => "",
        };
        self.noted.push(said(self.host.rt.alloc(), above)?)?;
        Ok(())
    }

    /// Notes what a call leaves that the disk in memory doesn't tell.
    fn note(&mut self, step: &Step, path: &str, found: Way, known: bool) -> io::Result<()> {
        match step.act {
            Act::MakeAbove if !step.fails => self.note_folders(path, !known)?,
            Act::Sync if step.fails && found == Way::File && self.shut.is_none() => {
                self.shut = Some(step.place);
            }
            Act::Sync if !known => self.noted = Vec::new(self.host.rt.alloc()),
            Act::Write if found == Way::Homeless && self.shut.is_none() => {
                self.note_unmade(path)?;
            }
            _ => {}
        }
        Ok(())
    }

    /// Notes the folders that a call has made above a path: all, or those that std finds.
    fn note_folders(&mut self, path: &str, is_done: bool) -> io::Result<()> {
        for (folder, place) in self.folders.iter_mut().zip(self.paths.iter()) {
            let is_above = match path.strip_prefix(place.as_str()) {
                Some(rest) => rest.starts_with('/'),
                None => false,
            };
            if is_above && is_done {
                *folder = true;
            } else if is_above {
                *folder = is_folder(self.host, self.folder, place.as_str())?;
            }
        }
        Ok(())
    }

    /// What the disk in memory has at a place; past the end of a file that a write goes beyond,
    /// zeros come first.
    fn remember(&mut self, call: &DiskCall) -> io::Result<String> {
        let alloc = self.host.rt.alloc();
        if call.act != Act::Write || call.amount == 0 {
            return asked(&mut self.memory, alloc, call);
        }
        let place = below(self.host, self.folder, call.path)?;
        let len = match fs::metadata(self.host.rt, place.as_str()) {
            Ok(found) => found.len(),
            Err(_) => 0,
        };
        if call.amount <= len {
            return asked(&mut self.memory, alloc, call);
        }
        let gap = if call.bytes.is_empty() {
            0
        } else {
            call.amount - len
        };
        let mut bytes = vec![in alloc; 0u8; gap as usize]?;
        bytes.extend_from_slice(call.bytes)?;
        let call = DiskCall {
            act: Act::Write,
            path: call.path,
            amount: len,
            bytes: bytes.as_slice(),
        };
        asked(&mut self.memory, alloc, &call)
    }

    /// One call on the disk in memory, which changes nothing.
    fn pass_over(&mut self) -> io::Result<String> {
        let _ = self.memory.peek("");
        said(self.host.rt.alloc(), "fault, 1 counted")
    }

    fn ask(&mut self, step: &Step, call: &DiskCall) -> io::Result<Pair> {
        let known = self.is_refused(step, call.path)?;
        let memory = if known {
            self.pass_over()?
        } else {
            self.remember(call)?
        };
        let found = way_to(self.host, self.folder, call.path)?;
        self.host.begin(failing_of(step));
        let real = asked(&mut self.real, self.host.rt.alloc(), call);
        self.host.begin(Failing::None);
        let real = real?;
        if step.act == Act::Write {
            // what was written waits until its file is read, and std is to find it
            let _ = self.real.peek(call.path);
        }
        self.note(step, call.path, found, known)?;
        Ok(Pair {
            memory,
            real,
            known,
        })
    }

    /// Opens the real disk anew.
    fn open_anew(&mut self) {
        self.real = FileCacheDisk::new(self.host, self.folder);
        self.shut = None;
        self.noted = Vec::new(self.host.rt.alloc());
    }

    /// Lays what a step says on both, where it can be.
    fn lay(&mut self, step: &Step, path: &str, bytes: &[u8]) -> io::Result<Pair> {
        let rt = self.host.rt;
        let place = below(self.host, self.folder, path)?;
        let is_free = way_to(self.host, self.folder, path)? == Way::Free;
        if is_free && step.act == Act::LayFile {
            fs::write(rt, place.as_str(), bytes)?;
            made(self.memory.put_file(rt.alloc(), path, bytes))?;
        }
        if is_free && step.act == Act::LayFolder {
            fs::create_dir(rt, place.as_str())?;
            self.note_folder(step.place);
        }
        if is_free && step.act == Act::LayLink {
            let target = match step.fill % 3 {
                0 => "nothing",
                1 => "k",
                _ => "a",
            };
            symlink(rt, target, place.as_str())?;
        }
        Ok(Pair::nothing(rt.alloc()))
    }

    fn note_folder(&mut self, number: usize) {
        for (at, folder) in self.folders.iter_mut().enumerate() {
            if at == number {
                *folder = true;
            }
        }
    }

    /// What stands at the places, as the disk in memory tells it.
    fn told(&mut self) -> io::Result<String> {
        let alloc = self.host.rt.alloc();
        let mut text = String::new(alloc);
        for (path, is_folder) in self.paths.iter().zip(self.folders.iter()) {
            let file = self.memory.read(alloc, path.as_str());
            text.push_str(path.as_str())?;
            if *is_folder {
                text.push_str(" = a folder; ")?;
            } else {
                text.push_str(format!(in alloc; " = {}; ", whole_text(alloc, file)?)?.as_str())?;
            }
        }
        Ok(text)
    }

    /// What stands at the places, as std finds it.
    fn found(&self) -> io::Result<String> {
        let alloc = self.host.rt.alloc();
        let mut text = String::new(alloc);
        for path in self.paths.get(..DISK_CHECKED).unwrap_or(&[]) {
            let place = below(self.host, self.folder, path.as_str())?;
            text.push_str(path.as_str())?;
            if is_folder(self.host, self.folder, path.as_str())? {
                text.push_str(" = a folder; ")?;
                continue;
            }
            let file = match fs::read(self.host.rt, place.as_str()) {
                Ok(bytes) => Ok(Some(bytes)),
                Err(_) => Ok(None),
            };
            text.push_str(format!(in alloc; " = {}; ", whole_text(alloc, file)?)?.as_str())?;
        }
        Ok(text)
    }
}

/// Whether the calls of a step fail. A write may wait, and then makes none that could.
fn may_fail(step: &Step) -> bool {
    step.fails && step.act != Act::Write
}

fn failing_of(step: &Step) -> Failing {
    match step.act {
        _ if !may_fail(step) => step.interrupt(),
        Act::Sync => Failing::Syncs,
        _ => Failing::All,
    }
}

fn is_folder(host: &Host, folder: &str, path: &str) -> io::Result<bool> {
    let place = below(host, folder, path)?;
    match fs::symlink_metadata(host.rt, place.as_str()) {
        Ok(found) => Ok(found.is_dir()),
        Err(_) => Ok(false),
    }
}

impl<'a> World for Disks<'a> {
    fn step(&mut self, step: &Step) -> io::Result<Pair> {
        let alloc = self.host.rt.alloc();
        let path = match self.paths.get(step.place) {
            Some(path) => path.clone()?,
            None => String::new(alloc),
        };
        let bytes = contents(alloc, step.size, step.fill)?;
        match step.act {
            Act::Again => {
                self.open_anew();
                let _ = self.pass_over()?;
                Ok(Pair::nothing(alloc))
            }
            Act::LayFile | Act::LayFolder | Act::LayLink => {
                let _ = self.pass_over()?;
                self.lay(step, path.as_str(), bytes.as_slice())
            }
            _ => {
                let call = DiskCall {
                    act: step.act,
                    path: path.as_str(),
                    amount: step.amount,
                    bytes: bytes.as_slice(),
                };
                self.ask(step, &call)
            }
        }
    }

    fn state(&mut self) -> io::Result<Pair> {
        Ok(Pair {
            memory: self.told()?,
            real: self.found()?,
            known: false,
        })
    }
}

/// The places of a cache: in front those that are compared after each step.
pub fn disk_paths(alloc: Global) -> io::Result<Vec<String>> {
    let long = crate::places::long_name(alloc, 255)?;
    let longer = crate::places::long_name(alloc, 256)?;
    let mut paths = Vec::new(alloc);
    for path in ["k", "a/k", "a/b/k", "a/b", "a", "b"] {
        paths.push(said(alloc, path)?)?;
    }
    paths.push(format!(in alloc; "a/{long}")?)?;
    paths.push(format!(in alloc; "a/{longer}")?)?;
    for path in [
        "l", "l/k", "a//k", "./k", "../k", "", "/k", "k/", "a\0b", "a/./k", "b/../k",
    ] {
        paths.push(said(alloc, path)?)?;
    }
    paths.push(format!(in alloc; "{longer}/k")?)?;
    Ok(paths)
}
