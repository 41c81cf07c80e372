//! Choices by a generator that begins with a number, so that each run can be repeated.
use rand::rngs::SmallRng;
use rand::{Rng, RngExt, SeedableRng};
use std::alloc::{AllocError, Global};

/// A source of choices.
#[derive(Drop)]
pub struct Chance {
    rng: SmallRng,
}

impl Chance {
    /// The choices of a number.
    pub fn of(seed: u64) -> Chance {
        Chance {
            rng: SmallRng::seed_from_u64(seed),
        }
    }

    /// A number below this one; 0 where there is none.
    pub fn below(&mut self, end: u64) -> u64 {
        if end == 0 {
            return 0;
        }
        self.rng.random_range(0..end)
    }

    /// Any number.
    pub fn number(&mut self) -> u64 {
        self.rng.next_u64()
    }

    /// One of these numbers.
    pub fn among(&mut self, numbers: &[u64]) -> u64 {
        let at = self.below(numbers.len() as u64) as usize;
        numbers.get(at).copied().unwrap_or(0)
    }
}

/// The bytes of a number, as many as are asked for. Of every third number the first byte is 0, as
/// that of a closed file of the cache is.
pub fn contents(alloc: Global, size: usize, fill: u64) -> Result<Vec<u8>, AllocError> {
    let mut bytes = vec![in alloc; 0u8; size]?;
    let mut chance = Chance::of(fill);
    chance.rng.fill_bytes(bytes.as_mut_slice());
    if fill % 3 == 0 {
        for byte in bytes.iter_mut().take(1) {
            *byte = 0;
        }
    }
    Ok(bytes)
}
