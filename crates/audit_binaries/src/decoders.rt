//! The decoder, which turns the bytes of a binary into a lockfile's text.
ghost use Rattle.std.specs.Prelude.{◌≡◌, ◌<◌, ℕ, List, Result, Err};
ghost use Rattle.audit_binaries.specs.Decoding.{DecoderAnswers, Decodes, HasDecodeCause};

use std::alloc::Global;
use tame_names::{NoMemory, Text};

/// What a binary says about the packages that it was built from, as the text of a lockfile.
#[derive(Debug, Drop, PartialEq, Eq)]
pub enum Decoded {
    /// All of them.
    Complete(Text),
    /// Some of them.
    Incomplete(Text),
    /// It says nothing about them.
    Nothing,
}

/// Why a binary wasn't decoded.
#[derive(Clone, Copy, Debug, PartialEq, Eq)]
pub enum DecodeFault {
    /// It couldn't be; the call was counted.
    Failed,
    /// What it says has this number of bytes, which is above the limit.
    Over(u64),
    /// Out of memory.
    NoMemory,
}

impl From<NoMemory> for DecodeFault {
    ghost use Rattle.audit_binaries.specs.declared.decoders.DecodeFault.TheVariants.{NoMemory as no_memory};

    ghost from_gives = { λ _ e. e ≡ no_memory };

    fn from(_: NoMemory) -> DecodeFault {
        DecodeFault::NoMemory
    }
}

/// Decodes binaries: one answer for each bytes and limit, which no call changes.
pub trait Decoder {
    ghost use Rattle.audit_binaries.specs.Decoding.{DecoderAnswers, Decodes, HasDecodeCause};

    /// That it tells its answers.
    ghost tells: { Type 0 };

    /// Its answer for each bytes and limit, if it tells it.
    ghost answers: { Self → DecoderAnswers };

    /// How often a call has failed.
    ghost faults: { Self → ℕ };

    /// How often a call has failed; the count stays at 2^64 - 1 once it is there.
    fn decode_faults(&self) -> u64
        ensures { result ≡ faults self.now };

    /// What the bytes of a binary say, if this has no more than `limit` bytes.
    fn decode(&mut self, alloc: Global, bytes: &[u8], limit: u64) -> Result<Decoded, DecodeFault>
        ensures cause { HasDecodeCause (faults self.old) (faults self.new) result }
        ensures above { (n : ℕ) → result ≡ Err (DecodeFault.Over n) → limit < n }
        ensures answer { tells → Decodes (answers self.old bytes.now limit) result }
        ensures same { tells → (other : List ℕ) (bound : ℕ)
            → answers self.new other bound ≡ answers self.old other bound };
}
