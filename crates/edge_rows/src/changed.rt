//! What the calls on the edge of the host answer that make folders and files, or that lock files.
use crate::asked::{fault, said};
use crate::edges::{first_word, wrong};
use crate::host::Host;
use crate::texts::meant;
use audit_edges::{LockFiles, StdFiles};
use std::alloc::Global;
use std::fs::{File, OpenOptions};
use std::io;
use tame_names::{FileFault, Files, LockOpenFault, LockTakeFault, NoMemory, OpenedLock};

impl<'a> LockFiles for Host<'a> {
    fn open_lock(&self, how: &OpenOptions, place: &str) -> io::Result<File> {
        let name = if how.asks_write() {
            "open to lock exclusively"
        } else {
            "open to lock"
        };
        self.call(name, place)?;
        how.open(self.rt, place)
    }

    fn take_lock(&self, place: &str, file: &File, exclusive: bool, block: bool) -> io::Result<()> {
        let name = match (exclusive, block) {
            (true, true) => "wait for the lock, alone, of",
            (false, true) => "wait for the lock of",
            (true, false) => "try the lock, alone, of",
            (false, false) => "try the lock of",
        };
        self.call(name, place)?;
        self.rt.take_lock(place, file, exclusive, block)
    }
}

/// That a call is done, or its fault.
fn done(alloc: Global, answer: Result<(), FileFault>, faults: u64) -> io::Result<String> {
    match answer {
        Ok(()) => said(alloc, "done"),
        Err(error) => fault(alloc, error, faults),
    }
}

fn opened(alloc: Global, error: LockOpenFault, faults: u64) -> io::Result<String> {
    match error {
        LockOpenFault::NotFound => said(alloc, "not found"),
        LockOpenFault::Denied => said(alloc, "denied"),
        LockOpenFault::Failed => fault(alloc, FileFault::Failed, faults),
    }
}

fn taken(
    alloc: Global,
    answer: Result<Result<(), LockTakeFault>, NoMemory>,
    faults: u64,
) -> io::Result<String> {
    match answer {
        Ok(Ok(())) => said(alloc, "taken"),
        Ok(Err(LockTakeFault::Contested)) => said(alloc, "contested"),
        Ok(Err(LockTakeFault::NotSupported)) => said(alloc, "not supported"),
        Ok(Err(LockTakeFault::Failed)) => fault(alloc, FileFault::Failed, faults),
        Err(NoMemory) => fault(alloc, FileFault::NoMemory, faults),
    }
}

/// Whether a word asks for a lock for oneself alone.
fn is_exclusive(word: &str) -> io::Result<bool> {
    match word {
        "exclusive" => Ok(true),
        "shared" => Ok(false),
        _ => Err(wrong(word)),
    }
}

/// Opens a file and takes its lock, waiting for it or not.
fn lock<'a>(
    files: &mut StdFiles<'a, Host<'a>>,
    alloc: Global,
    line: &str,
    block: bool,
) -> io::Result<String> {
    let (how, path) = first_word(line);
    let exclusive = is_exclusive(how)?;
    match files.open_lock(path, exclusive) {
        Ok(Ok(lock)) => {
            let answer = files.take_lock(path, &lock, exclusive, block);
            taken(alloc, answer, files.file_faults())
        }
        Ok(Err(error)) => opened(alloc, error, files.file_faults()),
        Err(NoMemory) => fault(alloc, FileFault::NoMemory, files.file_faults()),
    }
}

/// The same while another one, which waited for it, holds the lock.
fn lock_beside<'a>(
    files: &mut StdFiles<'a, Host<'a>>,
    alloc: Global,
    line: &str,
) -> io::Result<String> {
    let (holder, rest) = first_word(line);
    let exclusive = is_exclusive(holder)?;
    let (_, path) = first_word(rest);
    let Ok(Ok(held)) = files.open_lock(path, exclusive) else {
        return said(alloc, "not held");
    };
    match files.take_lock(path, &held, exclusive, true) {
        Ok(Ok(())) => lock(files, alloc, rest, false),
        _ => said(alloc, "not held"),
    }
}

/// Takes the lock of a file that isn't one of the system.
fn lock_nothing<'a>(
    files: &mut StdFiles<'a, Host<'a>>,
    alloc: Global,
    path: &str,
) -> io::Result<String> {
    let answer = files.take_lock(path, &OpenedLock { file: None }, true, false);
    taken(alloc, answer, files.file_faults())
}

/// What a call answers that makes something, or that locks a file.
pub fn changed<'a>(
    files: &mut StdFiles<'a, Host<'a>>,
    alloc: Global,
    line: &str,
) -> io::Result<String> {
    let (word, rest) = first_word(line);
    match word {
        "dirs" => {
            let answer = files.make_dirs(rest);
            done(alloc, answer, files.file_faults())
        }
        "create" => {
            let (path, text) = first_word(rest);
            let bytes = meant(alloc, text)?;
            let answer = files.create(path, bytes.as_slice());
            done(alloc, answer, files.file_faults())
        }
        "lock" => lock(files, alloc, rest, true),
        "try-lock" => lock(files, alloc, rest, false),
        "try-lock-beside" => lock_beside(files, alloc, rest),
        "try-lock-nothing" => lock_nothing(files, alloc, rest),
        _ => Err(wrong(word)),
    }
}
