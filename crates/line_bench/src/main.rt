//! Reads the lines of an index file over and over in one of four ways, to be timed:
//! `line_bench read FILE`, `deserialize FILE`, `heads FILE` or `scan FILE`. Prints the number of
//! lines, and how many of them are yanked. `line_bench list FILE` prints a line for each: its
//! version and flag, and which reader says so. `reports ADVISORIES LOCKFILE N` and `trees LOCKFILE
//! [NAME]` are those of the module `audits`.
#![tactic(auto)]

mod answers;
mod audits;

use std::io::ErrorKind;
use std::process::ExitCode;
use std::{env, fs, io};
use tame_entry::{IndexEntryVersion, JsonLines};
use tame_names::{Error, split};
use tame_records::{IndexKrate, read_version_flag};

/// How many lines there are, and how many of them are yanked.
#[derive(Drop)]
struct Count {
    lines: u64,
    yanked: u64,
}

impl Count {
    fn add(&mut self, yanked: bool) {
        self.lines = self.lines.saturating_add(1);
        if yanked {
            self.yanked = self.yanked.saturating_add(1);
        }
    }
}

/// The whole file as the versions of a crate.
fn read(rt: &HostRuntime, bytes: &[u8]) -> Result<Count, Error> {
    let krate = IndexKrate::from_slice(rt.alloc(), bytes)?;
    let mut count = Count {
        lines: 0,
        yanked: 0,
    };
    for version in krate.versions.as_slice() {
        count.add(version.yanked);
    }
    Ok(count)
}

/// Each line as a record.
fn deserialize(rt: &HostRuntime, bytes: &[u8]) -> Result<Count, Error> {
    let mut count = Count {
        lines: 0,
        yanked: 0,
    };
    for line in JsonLines::validate(bytes)?.lines() {
        let version = IndexEntryVersion::of_line(line).deserialize(rt.alloc())?;
        count.add(version.yanked);
    }
    Ok(count)
}

/// Version and flag of each line.
fn version_flags(rt: &HostRuntime, bytes: &[u8]) -> Result<Count, Error> {
    let mut count = Count {
        lines: 0,
        yanked: 0,
    };
    for line in JsonLines::validate(bytes)?.lines() {
        match read_version_flag(rt.alloc(), line)? {
            Some(head) => count.add(head.yanked),
            None => return Err(Error::Json { line: count.lines }),
        }
    }
    Ok(count)
}

/// Each line by the scan.
fn scan(rt: &HostRuntime, bytes: &[u8]) -> Result<Count, Error> {
    let mut count = Count {
        lines: 0,
        yanked: 0,
    };
    for line in JsonLines::validate(bytes)?.lines() {
        let (_, yanked) = IndexEntryVersion::of_line(line).yanked(rt.alloc())?;
        count.add(yanked);
    }
    Ok(count)
}

fn counted(rt: &HostRuntime, way: &str, bytes: &[u8]) -> io::Result<Count> {
    let done = match way {
        "read" => read(rt, bytes),
        "deserialize" => deserialize(rt, bytes),
        "heads" => version_flags(rt, bytes),
        "scan" => scan(rt, bytes),
        _ => return Err(io::Error::from(ErrorKind::InvalidInput)),
    };
    match done {
        Ok(count) => Ok(count),
        Err(_) => Err(io::Error::from(ErrorKind::InvalidData)),
    }
}

/// Prints what the readers of heads say of each line.
fn list(rt: &HostRuntime, bytes: &[u8]) -> io::Result<()> {
    let alloc = rt.alloc();
    for line in split(bytes, b'\n') {
        let Ok(answer) = answers::read_answer(alloc, line) else {
            return Err(io::Error::from(ErrorKind::OutOfMemory));
        };
        rt.println(answer.shown(alloc)?)?;
    }
    Ok(())
}

/// Reads the lines of a file.
fn bench_lines(rt: &HostRuntime, way: &str, path: &str) -> io::Result<()> {
    let bytes = fs::read(rt, path)?;
    if way == "list" {
        return list(rt, bytes.as_slice());
    }
    let count = counted(rt, way, bytes.as_slice())?;
    let (lines, yanked) = (count.lines, count.yanked);
    println!(rt; "{lines} lines, {yanked} yanked")
}

fn bench(rt: &HostRuntime) -> io::Result<()> {
    let mut words = env::args(rt)?.skip(1);
    let (Some(way), Some(path)) = (words.next(), words.next()) else {
        return Err(io::Error::from(ErrorKind::InvalidInput));
    };
    match way.as_str() {
        "reports" => audits::count_reports(rt, path, words.next(), words.next()),
        "trees" => audits::count_trees(rt, path, words.next()),
        _ => bench_lines(rt, way.as_str(), path.as_str()),
    }
}

fn main(rt: HostRuntime) -> ExitCode {
    match bench(&rt) {
        Ok(()) => ExitCode::from(0),
        Err(_) => ExitCode::from(2),
    }
}
