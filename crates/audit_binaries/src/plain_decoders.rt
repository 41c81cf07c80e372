//! The decoder that needs nothing external: by the payload between two lines.
ghost use Rattle.std.specs.Prelude.{◌≡◌, ◌<◌, ◌≢◌, ◌⊎◌, ℕ, List, Ok, Err, ⊤, IfOk, IfErr};
ghost use Rattle.audit_binaries.specs.Decoding.{Decodes, HasDecodeCause};
ghost use Rattle.audit_binaries.specs.Decoding as spec;

use crate::decoders::{DecodeFault, Decoded, Decoder};
use crate::payloads::payload_of;
use std::alloc::Global;
use tame_names::{Text, utf8_text};

/// What bytes say by their payload, if this has no more than `limit` bytes.
pub(crate) fn plain_answer(alloc: Global, bytes: &[u8], limit: u64) -> Result<Decoded, DecodeFault>
    ensures answer { Decodes (spec.plain_answer bytes.now limit) result }
    ensures above { (n : ℕ) → result ≡ Err (DecodeFault.Over n) → limit < n }
    ensures no_fault { result ≢ Err DecodeFault.Failed }
{
    let Some(payload) = payload_of(bytes) else {
        return Ok(Decoded::Nothing);
    };
    let len = payload.len() as u64;
    if len > limit {
        return Err(DecodeFault::Over(len));
    }
    match utf8_text(payload) {
        Some(text) => Ok(Decoded::Complete(Text::of(alloc, text)?)),
        None => Ok(Decoded::Nothing),
    }
}

/// Decodes by the payload: the bytes between the first line `#cargo-lock begin` and the next line
/// `#cargo-lock end`, if they are UTF-8. It never fails.
#[derive(Clone, Copy, Debug, PartialEq, Eq)]
pub struct PlainDecoder;

impl Decoder for PlainDecoder {
    ghost tells = { ⊤ };

    ghost answers = { λ _. spec.plain_answer };

    ghost faults = { λ _. 0 };

    fn decode_faults(&self) -> u64 {
        0
    }

    fn decode(&mut self, alloc: Global, bytes: &[u8], limit: u64) -> Result<Decoded, DecodeFault>
        ensures cause { HasDecodeCause 0 0 result }
        ensures above { (n : ℕ) → result ≡ Err (DecodeFault.Over n) → limit < n }
        ensures answer { Decodes (spec.plain_answer bytes.now limit) result }
        ensures no_fault { result ≢ Err DecodeFault.Failed }
    {
        plain_answer(alloc, bytes, limit)
    }
}
