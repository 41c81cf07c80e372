//! Output, over std.
ghost use Rattle.std.specs.Prelude.{◌≡◌, []};

use crate::calls::flush;
use std::io::{self, Write};
use tame_names::{Sink, SinkFault};

/// Writes a whole piece.
fn write_whole<W: Write>(writer: &mut W, piece: &[u8]) -> io::Result<()> {
    writer.write_all(piece)?;
    flush(writer)
}

/// An output over a writer. It tells nothing of what it holds.
#[derive(Drop)]
pub struct StdSink<W: Write + Drop> {
    writer: W,
    faults: u64,
}

impl<W: Write + Drop> StdSink<W> {
    /// An output over this writer.
    pub fn new(writer: W) -> StdSink<W>
        ensures writer { result.writer ≡ writer }
        ensures faults { result.faults ≡ 0 }
    {
        StdSink { writer, faults: 0 }
    }
}

impl<W: Write + Drop> Sink for StdSink<W> {
    ghost tells = { ⊥ };

    ghost holds = { λ _. [] };

    ghost faults = { λ s. s.faults };

    fn sink_faults(&self) -> u64 {
        self.faults
    }

    fn put(&mut self, piece: &[u8]) -> Result<(), SinkFault> {
        if write_whole(&mut self.writer, piece).is_ok() {
            return Ok(());
        }
        self.faults = self.faults.saturating_add(1);
        Err(SinkFault)
    }
}
