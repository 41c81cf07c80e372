//! A source in memory.
ghost use Rattle.std.specs.Prelude.{◌≡◌, ◌≤◌, ◌≢◌, ⊤, drop, length, min, IfOk, IsErr, OnOk, OnErr};
ghost use Rattle.tame_names.specs.Counts.{IsListed, next_call};
ghost use Rattle.tame_names.specs.Output.{HasPutCause};
ghost use Rattle.tame_names.specs.Sources.{Takes};

use crate::lists::Items;
use crate::sources::{Source, SourceFault};

/// Gives bytes, as many at a time as are asked for. The takes whose numbers are listed, counted
/// from 1, fail and take nothing.
#[derive(Drop)]
pub struct MemSource {
    bytes: Items<u8>,
    at: usize,
    fails: Items<u64>,
    calls: u64,
    faults: u64,
    ghost within: { at ≤ length bytes },
}

impl MemSource {
    /// These bytes; the takes of these numbers fail.
    pub fn new(bytes: Items<u8>, fails: Items<u64>) -> MemSource
        ensures left { drop result.at result.bytes ≡ bytes }
        ensures fails { result.fails ≡ fails }
        ensures calls { result.calls ≡ 0 }
        ensures faults { result.faults ≡ 0 }
    {
        MemSource {
            bytes,
            at: 0,
            fails,
            calls: 0,
            faults: 0,
        }
    }

    /// The bytes that are left.
    pub fn left(&self) -> &[u8]
        ensures { result.now ≡ drop self.now.at self.now.bytes }
    {
        &self.bytes.as_slice()[self.at..]
    }
}

impl Source for MemSource {
    ghost tells = { ⊤ };

    ghost left = { λ s. drop s.at s.bytes };

    ghost faults = { λ s. s.faults };

    fn source_faults(&self) -> u64 {
        self.faults
    }

    fn take(&mut self, buf: &mut [u8]) -> Result<usize, SourceFault>
        ensures cause { HasPutCause self.old.faults self.new.faults result }
        ensures within { IfOk result (λ n. n ≤ length buf.new) }
        ensures taken { Takes (drop self.old.at self.old.bytes) buf.new
            (drop self.new.at self.new.bytes) result }
        ensures most { IfOk result (λ n. n
            ≡ min (length (drop self.old.at self.old.bytes)) (length buf.new)) }
        // which takes fail: those whose numbers are listed
        ensures count { self.new.calls ≡ next_call self.old.calls }
        ensures listed { self.new.fails ≡ self.old.fails }
        ensures fails { IsErr result → IsListed self.new.calls self.old.fails }
        ensures listed_fails { IsListed self.new.calls self.old.fails → IsErr result }
        ensures counted { OnErr result (self.new.faults ≡ next_call self.old.faults) }
        ensures uncounted { OnOk result (self.new.faults ≡ self.old.faults) }
        ensures kept { OnErr result (self.new.at ≡ self.old.at) }
        ensures same { self.new.bytes ≡ self.old.bytes }
    {
        self.calls = self.calls.saturating_add(1);
        if self.fails.as_slice().contains(&self.calls) {
            self.faults = self.faults.saturating_add(1);
            return Err(SourceFault);
        }
        let left = &self.bytes.as_slice()[self.at..];
        let count = left.len().min(buf.len());
        buf[..count].copy_from_slice(&left[..count]);
        self.at += count;
        Ok(count)
    }
}
