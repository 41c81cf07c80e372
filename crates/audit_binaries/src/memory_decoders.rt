//! A decoder whose calls fail if a list says so.
ghost use Rattle.std.specs.Prelude.{◌≡◌, ◌≢◌, ◌<◌, ℕ, List, Ok, Err, ⊤, IsErr};
ghost use Rattle.tame_names.specs.Counts.{IsListed, next_call};
ghost use Rattle.audit_binaries.specs.Decoding.{Decodes, HasDecodeCause, plain_answer};

use crate::decoders::{DecodeFault, Decoded, Decoder};
use crate::plain_decoders::plain_answer;
use std::alloc::Global;
use tame_names::Items;

/// A decoder with the answers of `PlainDecoder`. The calls whose numbers are listed, counted
/// from 1, fail.
#[derive(Drop)]
pub struct MemDecoder {
    fails: Items<u64>,
    calls: u64,
    faults: u64,
}

impl MemDecoder {
    /// No call yet; those with these numbers are to fail.
    pub fn new(fails: Items<u64>) -> MemDecoder
        ensures fails { result.fails ≡ fails }
        ensures calls { result.calls ≡ 0 }
        ensures faults { result.faults ≡ 0 }
    {
        MemDecoder {
            fails,
            calls: 0,
            faults: 0,
        }
    }
}

impl Decoder for MemDecoder {
    ghost tells = { ⊤ };

    ghost answers = { λ _. plain_answer };

    ghost faults = { λ m. m.faults };

    fn decode_faults(&self) -> u64 {
        self.faults
    }

    fn decode(&mut self, alloc: Global, bytes: &[u8], limit: u64) -> Result<Decoded, DecodeFault>
        ensures cause { HasDecodeCause self.old.faults self.new.faults result }
        ensures above { (n : ℕ) → result ≡ Err (DecodeFault.Over n) → limit < n }
        ensures answer { Decodes (plain_answer bytes.now limit) result }
        ensures listed { self.new.fails ≡ self.old.fails }
        ensures calls { self.new.calls ≡ next_call self.old.calls }
        ensures fails { IsListed self.new.calls self.old.fails → result ≡ Err DecodeFault.Failed }
        ensures unlisted { ¬ (IsListed self.new.calls self.old.fails)
            → result ≢ Err DecodeFault.Failed }
        ensures counted { result ≡ Err DecodeFault.Failed
            → self.new.faults ≡ next_call self.old.faults }
        ensures uncounted { result ≢ Err DecodeFault.Failed → self.new.faults ≡ self.old.faults }
    {
        self.calls = self.calls.saturating_add(1);
        if self.fails.as_slice().contains(&self.calls) {
            self.faults = self.faults.saturating_add(1);
            return Err(DecodeFault::Failed);
        }
        plain_answer(alloc, bytes, limit)
    }
}
