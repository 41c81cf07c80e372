//! Random calls, each made on an object in memory and on its real twin. Answers, counts of faults
//! and what stands afterwards have to be the same.
//!
//! Words: the seed, how many sequences, the number of the first one, and the kind where it is one
//! alone (`hosts`, `disks`, `wires`, `outputs`, `audits`); without words 1, 4000, 0 and all kinds.
//! Each sequence begins in a folder of its own, below one that is made in the current
//! folder and removed at the end. Prints fixed calls on a disk that records them, and then what was
//! compared, with how many steps the two are known to differ in, so that the real one was asked
//! alone and had to refuse. At the first other difference it prints the number of the sequence, its
//! shortest part that still differs and both answers, and ends with status 1.
//!
//! `tell FOLDER` and the same numbers make calls of a cache in that folder, one below it for each
//! number, and tell each call before it is made and its answer behind it; nothing is compared.
//!
//! What stands before the first call, which paths there are and how they are written, where input
//! and current folder come from, how many bytes a call of the system takes and which calls fail
//! comes from the seed too. What is known to differ stands in `known`, and in `is_refused` of
//! `disks`.
#![tactic(auto)]

mod audits;
mod chance;
mod disk_calls;
mod disks;
mod host;
mod host_calls;
mod hosts;
mod known;
mod making;
mod notes;
mod places;
mod play;
mod playing;
mod recorded;
mod recording;
mod sequences;
mod serving;
mod sinks;
mod standing;
mod steps;
mod surroundings;
mod telling;
mod turning;
mod turns;
mod ways;
mod wires;

use crate::play::Count;
use crate::recorded::tell_recorded;
use crate::sequences::{
    Sequence, TWINS, Twins, first_difference, sequence_of, shortened, twins_named,
};
use crate::telling::tell_calls;
use std::io::ErrorKind;
use std::process::ExitCode;
use std::{env, fs, io};

/// The number of a word; another one where there is no word.
fn number(word: Option<String>, other: u64) -> u64 {
    match word {
        Some(word) => word.parse::<u64>().unwrap_or(other),
        None => other,
    }
}

/// Tells where the two differ, by the shortest part of the sequence.
fn tell(rt: &HostRuntime, base: &str, sequence: &Sequence) -> io::Result<()> {
    let short = shortened(rt, base, sequence)?;
    short.tell(rt, base)
}

fn count_of(counts: &mut [Count; 5], twins: Twins) -> Option<&mut Count> {
    for ((other, _), count) in TWINS.iter().zip(counts.iter_mut()) {
        if *other == twins {
            return Some(count);
        }
    }
    None
}

fn tell_counts(rt: &HostRuntime, counts: &[Count; 5]) -> io::Result<()> {
    for ((_, word), count) in TWINS.iter().zip(counts.iter()) {
        println!(rt;
            "{word}: {} sequences, {} steps, {} of them known to differ",
            count.sequences, count.steps, count.known
        )?;
    }
    println!(rt; "0 differences")
}

/// Which sequences are played.
#[derive(Clone, Copy)]
struct Numbers {
    seed: u64,
    count: u64,
    first: u64,
    only: Option<Twins>,
}

impl Numbers {
    /// As the words say, from one on.
    fn read(rt: &HostRuntime, from: usize) -> io::Result<Numbers> {
        let mut words = env::args(rt)?.skip(from);
        Ok(Numbers {
            seed: number(words.next(), 1),
            count: number(words.next(), 4000),
            first: number(words.next(), 0),
            only: match words.next() {
                Some(word) => twins_named(word.as_str()),
                None => None,
            },
        })
    }

    fn end(&self) -> u64 {
        self.first.saturating_add(self.count)
    }
}

/// Compares sequences. Whether none differs.
fn compare(rt: &HostRuntime, base: &str) -> io::Result<bool> {
    let numbers = Numbers::read(rt, 1)?;
    let mut counts = [Count::none(); 5];
    println!(rt; "{} sequences by the seed {}", numbers.count, numbers.seed)?;
    for number in numbers.first..numbers.end() {
        let sequence = sequence_of(rt.alloc(), numbers.seed, number, numbers.only)?;
        let Some(count) = count_of(&mut counts, sequence.twins) else {
            continue;
        };
        if first_difference(rt, base, &sequence, count)?.is_some() {
            println!(rt; "sequence {number} differs")?;
            tell(rt, base, &sequence)?;
            return Ok(false);
        }
    }
    tell_counts(rt, &counts)?;
    Ok(true)
}

/// Makes a new folder in the current one.
fn new_folder(rt: &HostRuntime) -> io::Result<String> {
    for number in 0..1000 {
        let folder = format!(in rt.alloc(); "twins-{number}")?;
        match fs::create_dir(rt, folder.as_str()) {
            Ok(()) => return Ok(folder),
            Err(error) if error.kind() == ErrorKind::AlreadyExists => {}
            Err(error) => return Err(error),
        }
    }
    Err(io::Error::from(ErrorKind::AlreadyExists))
}

fn compare_in(rt: &HostRuntime, folder: &str) -> io::Result<bool> {
    let base = format!(in rt.alloc(); "{folder}/base")?;
    compare(rt, base.as_str())
}

/// Tells the calls of sequences in a folder.
fn tell_all(rt: &HostRuntime, folder: &str) -> io::Result<bool> {
    let numbers = Numbers::read(rt, 3)?;
    for number in numbers.first..numbers.end() {
        let cache = format!(in rt.alloc(); "{folder}/{number}")?;
        println!(rt; "cache {cache}")?;
        tell_calls(rt, cache.as_str(), numbers.seed, number)?;
    }
    Ok(true)
}

fn run(rt: &HostRuntime) -> io::Result<bool> {
    let mut words = env::args(rt)?.skip(1);
    if let (Some(word), Some(folder)) = (words.next(), words.next()) {
        if word.as_str() == "tell" {
            return tell_all(rt, folder.as_str());
        }
    }
    tell_recorded(rt)?;
    let folder = new_folder(rt)?;
    let compared = compare_in(rt, folder.as_str());
    fs::remove_dir_all(rt, folder.as_str())?;
    compared
}

fn main(rt: HostRuntime) -> ExitCode {
    match run(&rt) {
        Ok(true) => ExitCode::from(0),
        Ok(false) => ExitCode::from(1),
        Err(error) => {
            let _ = println!(rt; "stopped: {error}");
            ExitCode::from(2)
        }
    }
}
