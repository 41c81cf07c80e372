//! Sequences by number, the first difference of one, and the shortest part of it that differs.
use crate::chance::Chance;
use crate::host::Host;
use crate::making::{audit_steps, disk_steps, host_steps, sink_steps, wire_steps};
use crate::play::{Count, Difference, without};
use crate::playing::{plan_of, played};
use crate::steps::{Step, step_line};
use std::alloc::{AllocError, Global};
use std::{fs, io};

/// Which two objects are compared.
#[derive(Clone, Copy, PartialEq, Eq)]
pub enum Twins {
    Hosts,
    Disks,
    Wires,
    Sinks,
    Audits,
}

/// All of them, with what is told of them, in the order of their counts.
pub const TWINS: [(Twins, &str); 5] = [
    (Twins::Hosts, "hosts: MemFiles and StdFiles"),
    (Twins::Disks, "disks: MemCacheDisk and FileCacheDisk"),
    (Twins::Wires, "wires: ServeWire and MemWire, and MirrorWire"),
    (Twins::Sinks, "outputs: MemSink and StdSink"),
    (
        Twins::Audits,
        "audits: an index over those in memory, and over a mirror and real files",
    ),
];

/// A sequence: what it compares, its steps, and the number that its surroundings come from.
#[derive(Drop)]
pub struct Sequence {
    pub twins: Twins,
    pub variant: u64,
    pub steps: Vec<Step>,
}

/// What the sequence of a number compares.
fn twins_of(number: u64) -> Twins {
    match number % 20 {
        0 | 2 | 4 | 6 | 8 => Twins::Hosts,
        10 | 12 | 14 | 16 | 18 => Twins::Disks,
        1 | 3 | 5 | 7 | 9 => Twins::Wires,
        11 => Twins::Sinks,
        _ => Twins::Audits,
    }
}

/// What a word names, as the text of it begins.
pub fn twins_named(word: &str) -> Option<Twins> {
    for (twins, text) in TWINS {
        if text.split_once(':').unwrap_or((text, "")).0 == word {
            return Some(twins);
        }
    }
    None
}

/// The sequence of a number, of those that a seed gives: of all kinds, or of one. Of all kinds two
/// numbers that follow each other have the same choices, and compare different things.
pub fn sequence_of(
    alloc: Global,
    seed: u64,
    number: u64,
    only: Option<Twins>,
) -> Result<Sequence, AllocError> {
    let (twins, place) = match only {
        Some(twins) => (twins, number),
        None => (twins_of(number), number / 2),
    };
    let mut chance = Chance::of(seed.wrapping_mul(1000003).wrapping_add(place));
    let variant = chance.number();
    let steps = match twins {
        Twins::Hosts => host_steps(alloc, &mut chance)?,
        Twins::Disks => disk_steps(alloc, &mut chance)?,
        Twins::Wires => wire_steps(alloc, &mut chance)?,
        Twins::Sinks => sink_steps(alloc, &mut chance)?,
        Twins::Audits => audit_steps(alloc, &mut chance)?,
    };
    Ok(Sequence {
        twins,
        variant,
        steps,
    })
}

/// The first difference of a sequence, if it has one, in a new folder.
pub fn first_difference(
    rt: &HostRuntime,
    base: &str,
    sequence: &Sequence,
    count: &mut Count,
) -> io::Result<Option<Difference>> {
    let plan = plan_of(rt.alloc(), sequence.variant)?;
    let host = Host {
        rt,
        base,
        plan: &plan,
    };
    fs::create_dir(rt, base)?;
    let difference = played(&host, sequence, count);
    fs::remove_dir_all(rt, base)?;
    difference
}

/// A sequence that still differs, and of which no step can be left out.
pub fn shortened(rt: &HostRuntime, base: &str, sequence: &Sequence) -> io::Result<Sequence> {
    let mut short = Sequence {
        twins: sequence.twins,
        variant: sequence.variant,
        steps: sequence.steps.clone()?,
    };
    let mut at = 0;
    for _ in 0..1000 {
        if at >= short.steps.len() {
            break;
        }
        let next = Sequence {
            twins: short.twins,
            variant: short.variant,
            steps: without(rt.alloc(), short.steps.as_slice(), at)?,
        };
        if first_difference(rt, base, &next, &mut Count::none())?.is_some() {
            short = next;
            at = 0;
        } else {
            at = at.saturating_add(1);
        }
    }
    Ok(short)
}

impl Sequence {
    /// Tells the steps, and what differs.
    pub fn tell(&self, rt: &HostRuntime, base: &str) -> io::Result<()> {
        println!(rt; "surroundings {}, steps:", self.variant)?;
        for step in self.steps.as_slice() {
            println!(rt; "  {}", step_line(rt.alloc(), step)?)?;
        }
        if let Some(found) = first_difference(rt, base, self, &mut Count::none())? {
            println!(rt; "behind step {}, counted from 0", found.at)?;
            println!(rt; "in memory: {}", found.pair.memory)?;
            println!(rt; "really: {}", found.pair.real)?;
        }
        Ok(())
    }
}
