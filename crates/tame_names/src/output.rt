//! Where output goes.
ghost use Rattle.std.specs.Prelude.{◌≡◌, ◌<◌, ◌≤◌, ◌++◌, [], ℕ, List, length, OnOk, IfOk, IfErr, IsOk};
ghost use Rattle.tame_names.specs.Counts.{CountRose};
ghost use Rattle.tame_names.specs.Output.{AddsPrefix, HasPutCause, Puts};

use crate::errors::{Error, IoKind};

/// A put failed, and the sink counted it.
#[derive(Clone, Copy, Debug, PartialEq, Eq)]
pub struct SinkFault;

/// An output of bytes.
pub trait Sink {
    /// That it tells what it holds.
    ghost tells: { Type 0 };

    /// The bytes that it holds, if it tells them.
    ghost holds: { Self → List ℕ };

    /// How often a put has failed.
    ghost faults: { Self → ℕ };

    /// How often a put has failed; the count stays at 2^64 - 1 once it reaches it.
    fn sink_faults(&self) -> u64
        ensures { result ≡ faults self.now };

    /// Appends a piece that has bytes. After a fault a part from its front was appended.
    fn put(&mut self, piece: &[u8]) -> Result<(), SinkFault>
        requires bytes { 0 < length piece.now }
        ensures cause { HasPutCause (faults self.old) (faults self.new) result }
        ensures put { tells → Puts (holds self.old) piece.now (holds self.new) result };
}

/// Puts a piece. The sink isn't called if the piece has no bytes.
pub fn put_piece<S: Sink>(sink: &mut S, piece: &[u8]) -> Result<(), SinkFault>
    ensures cause { HasPutCause (S.faults sink.old) (S.faults sink.new) result }
    ensures put { S.tells → Puts (S.holds sink.old) piece.now (S.holds sink.new) result }
    ensures nothing { piece.now ≡ [] → IsOk result × (sink.new ≡ sink.old) }
{
    if piece.is_empty() {
        return Ok(());
    }
    sink.put(piece)
}

/// Puts a piece, and answers the number of its bytes. `Io(Failed)` if the sink failed, which then
/// holds a part of the piece. The sink isn't called if the piece has no bytes.
pub fn put_counted<S: Sink>(sink: &mut S, piece: &[u8]) -> Result<u64, Error>
    ensures put { S.tells → OnOk result (S.holds sink.new ≡ S.holds sink.old ++ piece.now) }
    ensures part { S.tells → AddsPrefix (S.holds sink.old) piece.now (S.holds sink.new) }
    ensures count { IfOk result (λ n. n ≡ length piece.now) }
    ensures later { S.faults sink.old ≤ S.faults sink.new }
    ensures failed { IfErr result (λ e. (e ≡ Error.Io IoKind.Failed)
        × CountRose (S.faults sink.old) (S.faults sink.new)) }
    ensures nothing { piece.now ≡ [] → IsOk result × (sink.new ≡ sink.old) }
{
    match put_piece(sink, piece) {
        Ok(()) => Ok(piece.len() as u64),
        Err(_) => Err(Error::Io(IoKind::Failed)),
    }
}
