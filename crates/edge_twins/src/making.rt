//! Random sequences.
use crate::chance::Chance;
use crate::places::LINK;
use crate::steps::{Act, Step};
use std::alloc::{AllocError, Global};

/// Limits, places in files, and lengths.
const AMOUNTS: [u64; 20] = [
    0,
    0,
    0,
    1,
    1,
    2,
    2,
    3,
    4,
    5,
    5,
    6,
    4095,
    4096,
    4097,
    8191,
    8192,
    8193,
    20000,
    18446744073709551615,
];

/// Numbers of bytes.
const SIZES: [u64; 40] = [
    0, 0, 0, 0, 0, 1, 1, 1, 1, 1, 1, 2, 2, 2, 2, 2, 3, 3, 3, 3, 3, 5, 5, 5, 5, 5, 5, 6, 6, 6, 1, 2,
    3, 5, 4095, 4096, 4097, 8191, 8192, 8193,
];

/// Which slashes stand at the end of a path, which link there is, or which tag.
const OTHERS: [u64; 12] = [0, 4, 8, 12, 16, 20, 0, 4, 8, 1, 2, 7];

/// A step of an act, over so many places.
fn step_of(chance: &mut Chance, act: Act, places: u64) -> Step {
    Step {
        act,
        place: chance.below(places) as usize,
        other: chance.among(&OTHERS),
        amount: chance.among(&AMOUNTS),
        size: chance.among(&SIZES) as usize,
        fill: chance.number(),
        fails: chance.below(14) == 0,
    }
}

fn act_among(chance: &mut Chance, acts: &[Act], other: Act) -> Act {
    let at = chance.below(acts.len() as u64) as usize;
    acts.get(at).copied().unwrap_or(other)
}

const LAYING: [Act; 6] = [
    Act::LayFile,
    Act::LayFolder,
    Act::LayFolder,
    Act::LayFile,
    Act::LayFolder,
    Act::LayLink,
];

const HOST_CALLS: [Act; 18] = [
    Act::Read,
    Act::Read,
    Act::ReadPart,
    Act::ReadPart,
    Act::List,
    Act::List,
    Act::Kind,
    Act::Kind,
    Act::MakeFolders,
    Act::MakeFolders,
    Act::MakeFolders,
    Act::Create,
    Act::Create,
    Act::Create,
    Act::Create,
    Act::ReadInput,
    Act::Variable,
    Act::Here,
];

/// A step that can be laid or asked for: the link has its place, a name that isn't UTF-8 is none
/// that a call can write, and the entries of the system's root aren't told.
fn fitted(step: Step) -> Step {
    let mut step = step;
    match (step.act, step.place) {
        (Act::LayLink, _) => {
            step.place = LINK;
            step.other = step.fill % 6;
        }
        (Act::Create | Act::MakeFolders, 9) => step.place = 1,
        (Act::List, 15 | 16) => step.act = Act::Kind,
        (Act::Variable, _) => step.other = step.fill % 7,
        _ => {}
    }
    step
}

/// The steps of a host.
pub fn host_steps(alloc: Global, chance: &mut Chance) -> Result<Vec<Step>, AllocError> {
    let mut steps = Vec::new(alloc);
    for _ in 0..chance.below(7) {
        let act = act_among(chance, &LAYING, Act::LayFile);
        steps.push(fitted(step_of(chance, act, 12)))?;
    }
    for _ in 0..chance.below(13).saturating_add(1) {
        let act = act_among(chance, &HOST_CALLS, Act::Kind);
        steps.push(fitted(step_of(chance, act, 19)))?;
    }
    Ok(steps)
}

/// So many steps of these acts, over so many places.
fn steps_among(
    alloc: Global,
    chance: &mut Chance,
    acts: &[Act],
    places: u64,
) -> Result<Vec<Step>, AllocError> {
    let mut steps = Vec::new(alloc);
    for _ in 0..chance.below(14).saturating_add(1) {
        let act = act_among(chance, acts, Act::Peek);
        steps.push(step_of(chance, act, places))?;
    }
    Ok(steps)
}

const DISK_CALLS: [Act; 20] = [
    Act::LayFile,
    Act::LayFolder,
    Act::LayLink,
    Act::Peek,
    Act::Peek,
    Act::Whole,
    Act::Whole,
    Act::MakeAbove,
    Act::MakeAbove,
    Act::MakeAbove,
    Act::Write,
    Act::Write,
    Act::Write,
    Act::Write,
    Act::Write,
    Act::Cut,
    Act::Cut,
    Act::Sync,
    Act::Sync,
    Act::Again,
];

/// The steps of a cache's disk. Most calls are for a few places, a link has its place, and what is
/// laid has one of those that are compared.
pub fn disk_steps(alloc: Global, chance: &mut Chance) -> Result<Vec<Step>, AllocError> {
    let mut steps = steps_among(alloc, chance, &DISK_CALLS, 20)?;
    for step in steps.iter_mut() {
        match step.act {
            Act::LayLink => step.place = 8,
            Act::LayFile | Act::LayFolder => step.place %= 6,
            _ if step.fill % 2 == 0 => step.place %= 3,
            _ => {}
        }
        if step.act == Act::Write {
            step.amount %= 20001;
        }
    }
    Ok(steps)
}

const WIRE_CALLS: [Act; 18] = [
    Act::LayFile,
    Act::LayFile,
    Act::LayTag,
    Act::LayTag,
    Act::LayTag,
    Act::LayFolder,
    Act::LayLink,
    Act::Remove,
    Act::Ask,
    Act::Ask,
    Act::Ask,
    Act::Ask,
    Act::Ask,
    Act::Ask,
    Act::AskTurned,
    Act::AskTurned,
    Act::AskTurned,
    Act::Again,
];

/// The steps of a wire. Most are for a few places, and a mirror changes at two of them.
pub fn wire_steps(alloc: Global, chance: &mut Chance) -> Result<Vec<Step>, AllocError> {
    let mut steps = steps_among(alloc, chance, &WIRE_CALLS, 21)?;
    for step in steps.iter_mut() {
        match step.act {
            Act::LayLink => step.place = 8,
            Act::LayFile | Act::LayTag | Act::LayFolder | Act::Remove => step.place %= 6,
            Act::AskTurned => step.place %= 2,
            _ if step.fill % 4 != 0 => step.place %= 3,
            _ => {}
        }
    }
    Ok(steps)
}

/// The steps of an output.
pub fn sink_steps(alloc: Global, chance: &mut Chance) -> Result<Vec<Step>, AllocError> {
    steps_among(alloc, chance, &[Act::Put], 1)
}

const AUDIT_CALLS: [Act; 16] = [
    Act::LayFile,
    Act::LayFile,
    Act::LayFile,
    Act::LayTag,
    Act::LayTag,
    Act::LayEntry,
    Act::Audit,
    Act::Audit,
    Act::Audit,
    Act::Audit,
    Act::Audit,
    Act::Audit,
    Act::Fetch,
    Act::Store,
    Act::Store,
    Act::Again,
];

/// The steps of an audit. Every second one is for one crate.
pub fn audit_steps(alloc: Global, chance: &mut Chance) -> Result<Vec<Step>, AllocError> {
    let mut steps = steps_among(alloc, chance, &AUDIT_CALLS, 4)?;
    for step in steps.iter_mut() {
        if step.fill % 2 == 0 {
            step.place = 0;
        }
    }
    Ok(steps)
}

const TOLD_CALLS: [Act; 10] = [
    Act::Store,
    Act::Store,
    Act::Store,
    Act::Store,
    Act::Store,
    Act::Write,
    Act::Write,
    Act::Cut,
    Act::Sync,
    Act::Again,
];

/// Calls that are told: first an entry is stored, and calls of their own are on its file.
pub fn told_steps(alloc: Global, chance: &mut Chance) -> Result<Vec<Step>, AllocError> {
    let mut steps = steps_among(alloc, chance, &TOLD_CALLS, 4)?;
    let mut is_first = true;
    for step in steps.iter_mut() {
        if is_first {
            step.act = Act::Store;
            step.fill = 9;
        }
        if is_first || step.act != Act::Store {
            step.place = 0;
        }
        match step.act {
            Act::Write => step.amount %= 2,
            Act::Cut => step.amount = step.amount % 50 + 1,
            _ => {}
        }
        is_first = false;
    }
    Ok(steps)
}
