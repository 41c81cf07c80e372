//! An output in memory.
ghost use Rattle.std.specs.Prelude.{◌≡◌, ◌<◌, ◌≤◌, ◌+◌, [], ⊤, length, IfOk, OnOk, OnErr, IsErr};
ghost use Rattle.std.specs.Vec.{vec_capacity, vec_len};
ghost use Rattle.tame_names.specs.Counts.{IsListed, next_call};
ghost use Rattle.tame_names.specs.Output.{HasPutCause, Puts};

use crate::errors::NoMemory;
use crate::lists::Items;
use crate::output::{Sink, SinkFault};
use std::alloc::Global;

/// Holds what was put. The puts whose numbers are listed, counted from 1, fail and append nothing.
#[derive(Drop)]
pub struct MemSink {
    bytes: Vec<u8>,
    fails: Items<u64>,
    calls: u64,
    faults: u64,
}

impl MemSink {
    /// An empty output whose puts of these numbers fail.
    pub fn new(alloc: Global, fails: Items<u64>) -> MemSink
        ensures bytes { result.bytes.items ≡ [] }
        ensures fails { result.fails ≡ fails }
        ensures calls { result.calls ≡ 0 }
        ensures faults { result.faults ≡ 0 }
    {
        MemSink {
            bytes: Vec::new(alloc),
            fails,
            calls: 0,
            faults: 0,
        }
    }

    /// The same with room for a number of bytes: a put within it fails only if it is listed.
    pub fn with_room(alloc: Global, fails: Items<u64>, room: usize) -> Result<MemSink, NoMemory>
        ensures bytes { IfOk result (λ sink. sink.bytes.items ≡ []) }
        ensures room { IfOk result (λ sink. vec_capacity sink.bytes ≡ room) }
        ensures fails { IfOk result (λ sink. sink.fails ≡ fails) }
        ensures calls { IfOk result (λ sink. sink.calls ≡ 0) }
        ensures faults { IfOk result (λ sink. sink.faults ≡ 0) }
    {
        Ok(MemSink {
            bytes: Vec::with_capacity(alloc, room)?,
            fails,
            calls: 0,
            faults: 0,
        })
    }

    /// The bytes that it holds.
    pub fn bytes(&self) -> &[u8]
        ensures { result.now ≡ self.now.bytes.items }
    {
        self.bytes.as_slice()
    }

    fn fail(&mut self) -> SinkFault
        ensures counted { self.new.faults ≡ next_call self.old.faults }
        ensures later { self.old.faults ≤ self.new.faults }
        ensures bytes { self.new.bytes ≡ self.old.bytes }
        ensures fails { self.new.fails ≡ self.old.fails }
        ensures calls { self.new.calls ≡ self.old.calls }
    {
        self.faults = self.faults.saturating_add(1);
        SinkFault
    }
}

impl Sink for MemSink {
    ghost tells = { ⊤ };

    ghost holds = { λ s. s.bytes.items };

    ghost faults = { λ s. s.faults };

    fn sink_faults(&self) -> u64 {
        self.faults
    }

    fn put(&mut self, piece: &[u8]) -> Result<(), SinkFault>
        ensures cause { HasPutCause self.old.faults self.new.faults result }
        ensures put { Puts self.old.bytes.items piece.now self.new.bytes.items result }
        // which puts fail: those whose numbers are listed
        ensures count { self.new.calls ≡ next_call self.old.calls }
        ensures listed { self.new.fails ≡ self.old.fails }
        ensures fails { IsListed self.new.calls self.old.fails → IsErr result }
        // any other fails only if it has no room and is out of memory
        ensures unlisted { ¬ (IsListed self.new.calls self.old.fails)
            → OnErr result (vec_capacity self.old.bytes
            < vec_len self.old.bytes + length piece.now) }
        ensures counted { OnErr result (self.new.faults ≡ next_call self.old.faults) }
        ensures uncounted { OnOk result (self.new.faults ≡ self.old.faults) }
        ensures kept { OnErr result (self.new.bytes.items ≡ self.old.bytes.items) }
        ensures room { vec_capacity self.old.bytes ≤ vec_capacity self.new.bytes }
    {
        self.calls = self.calls.saturating_add(1);
        if self.fails.as_slice().contains(&self.calls) {
            return Err(self.fail());
        }
        match self.bytes.extend_from_slice(piece) {
            Ok(()) => Ok(()),
            Err(_) => Err(self.fail()),
        }
    }
}
