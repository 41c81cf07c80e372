//! A sequence played on both objects, and the shortest part of it that still differs.
use crate::steps::Step;
use std::alloc::{AllocError, Global};
use std::io;

/// What the object in memory tells, and the real one.
#[derive(Drop)]
pub struct Pair {
    pub memory: String,
    pub real: String,
    /// That the two are known to differ here, so that the real one alone was asked.
    pub known: bool,
}

impl Pair {
    /// Nothing to be told.
    pub fn nothing(alloc: Global) -> Pair {
        Pair {
            memory: String::new(alloc),
            real: String::new(alloc),
            known: false,
        }
    }
}

/// Both objects of a kind, and what they stand on.
pub trait World {
    /// Does a step on both, and answers what they tell of it.
    fn step(&mut self, step: &Step) -> io::Result<Pair>;

    /// What stands where, as the object in memory tells it and as std finds it.
    fn state(&mut self) -> io::Result<Pair>;
}

/// How many sequences and steps were compared, and how many of these are known to differ.
#[derive(Clone, Copy)]
pub struct Count {
    pub sequences: u64,
    pub steps: u64,
    pub known: u64,
}

impl Count {
    /// Nothing yet.
    pub fn none() -> Count {
        Count {
            sequences: 0,
            steps: 0,
            known: 0,
        }
    }

    fn add(&mut self, pair: &Pair) {
        self.steps = self.steps.saturating_add(1);
        if pair.known {
            self.known = self.known.saturating_add(1);
        }
    }
}

/// Where the two differ: behind which step, and what each tells.
#[derive(Drop)]
pub struct Difference {
    pub at: usize,
    pub pair: Pair,
}

fn differ(pair: &Pair) -> bool {
    pair.memory.as_str() != pair.real.as_str()
}

/// Plays steps up to the first difference.
pub fn play<W: World>(
    world: &mut W,
    steps: &[Step],
    count: &mut Count,
) -> io::Result<Option<Difference>> {
    count.sequences = count.sequences.saturating_add(1);
    for (at, step) in steps.iter().enumerate() {
        let pair = world.step(step)?;
        count.add(&pair);
        if differ(&pair) {
            return Ok(Some(Difference { at, pair }));
        }
        let pair = world.state()?;
        if differ(&pair) {
            return Ok(Some(Difference { at, pair }));
        }
    }
    Ok(None)
}

/// Steps without the one of this number.
pub fn without(alloc: Global, steps: &[Step], number: usize) -> Result<Vec<Step>, AllocError> {
    let mut left = Vec::new(alloc);
    for (at, step) in steps.iter().enumerate() {
        if at != number {
            left.push(*step)?;
        }
    }
    Ok(left)
}
