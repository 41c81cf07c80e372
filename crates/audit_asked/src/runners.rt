//! Programs that are started.
ghost use Rattle.std.specs.Prelude.{◌≡◌, ◌≢◌, ℕ, List, [], Some, None, Ok, Err, IfOk, IsErr, ⊤, length, option_and_then};
ghost use Rattle.std.specs.List.{slice_get};
ghost use Rattle.tame_names.specs.Counts.{HasCause, next_call};
ghost use Rattle.audit_asked.specs.Starts.{with_start};

use audit_advisory::texts_copied;
use std::alloc::Global;
use tame_names::{Items, NoMemory, Text};

/// Why a program wasn't started.
#[derive(Clone, Copy, Debug, PartialEq, Eq)]
pub enum StartFault {
    /// It couldn't be started; the call was counted.
    Failed,
    /// Out of memory.
    NoMemory,
}

impl From<NoMemory> for StartFault {
    ghost use Rattle.audit_asked.specs.declared.runners.StartFault.TheVariants.{NoMemory as no_memory};

    ghost from_gives = { λ _ e. e ≡ no_memory };

    fn from(_: NoMemory) -> StartFault {
        StartFault::NoMemory
    }
}

/// A start that was asked for.
#[derive(Debug, Drop, PartialEq, Eq)]
pub struct Started {
    /// The arguments for cargo.
    pub words: Items<Text>,
    /// The status that it ended with; none if it couldn't be started.
    pub status: Option<i32>,
}

/// What starts cargo.
pub trait Runner {
    ghost use Rattle.audit_asked.specs.declared.runners.Started.{Started};

    /// That it tells which starts were made.
    ghost tells: { Type 0 };

    /// The starts so far, in order, if they are told.
    ghost starts: { Self → List Started };

    /// How often a start has failed.
    ghost faults: { Self → ℕ };

    /// How often a start has failed; the count stays at 2^64 - 1 once it is there.
    fn start_faults(&self) -> u64
        ensures { result ≡ faults self.now };

    /// Starts cargo with these arguments, and returns the status that it ends with.
    fn start(&mut self, alloc: Global, words: &Items<Text>) -> Result<i32, StartFault>
        ensures cause { HasCause StartFault.NoMemory (faults self.old) (faults self.new) result }
        ensures started { tells → starts self.new ≡ with_start (starts self.old) words.now result };
}

/// A runner in memory: the statuses of its starts, one after the other. A start without a status
/// fails, and so does one past the end of the list.
#[derive(Drop)]
pub struct MemRunner {
    statuses: Items<Option<i32>>,
    starts: Items<Started>,
    faults: u64,
}

impl MemRunner {
    /// A runner without starts; the coming ones end with these statuses.
    pub fn new(alloc: Global, statuses: Items<Option<i32>>) -> MemRunner
        ensures statuses { result.statuses ≡ statuses }
        ensures starts { result.starts ≡ [] }
        ensures faults { result.faults ≡ 0 }
    {
        MemRunner {
            statuses,
            starts: Items::new(alloc),
            faults: 0,
        }
    }

    /// The starts so far, in order.
    pub fn starts(&self) -> &[Started]
        ensures { result.now ≡ self.now.starts }
    {
        self.starts.as_slice()
    }

    /// The status of the next start.
    fn next_status(&self) -> Option<i32>
        ensures { result ≡ option_and_then (λ status. status)
            (slice_get self.now.statuses (length self.now.starts)) }
    {
        match self.statuses.as_slice().get(self.starts.as_slice().len()) {
            Some(status) => *status,
            None => None,
        }
    }
}

impl Runner for MemRunner {
    ghost tells = { ⊤ };

    ghost starts = { λ m. m.starts };

    ghost faults = { λ m. m.faults };

    fn start_faults(&self) -> u64 {
        self.faults
    }

    fn start(&mut self, alloc: Global, words: &Items<Text>) -> Result<i32, StartFault>
        ensures cause { HasCause StartFault.NoMemory self.old.faults self.new.faults result }
        ensures started { self.new.starts ≡ with_start self.old.starts words.now result }
        ensures listed { self.new.statuses ≡ self.old.statuses }
        ensures status { IfOk result (λ status.
            slice_get self.old.statuses (length self.old.starts) ≡ Some (Some status)) }
        ensures fails { slice_get self.old.statuses (length self.old.starts) ≡ None
            → IsErr result }
        ensures only { result ≡ Err StartFault.Failed → option_and_then (λ status. status)
            (slice_get self.old.statuses (length self.old.starts)) ≡ None }
        ensures counted { result ≡ Err StartFault.Failed
            → self.new.faults ≡ next_call self.old.faults }
        ensures uncounted { result ≢ Err StartFault.Failed → self.new.faults ≡ self.old.faults }
    {
        let status = self.next_status();
        let words = texts_copied(alloc, words.as_slice())?;
        self.starts.add(Started { words, status })?;
        match status {
            Some(status) => Ok(status),
            None => {
                self.faults = self.faults.saturating_add(1);
                Err(StartFault::Failed)
            }
        }
    }
}

/// A runner that can start nothing.
#[derive(Clone, Copy, Debug, PartialEq, Eq)]
pub struct NoRunner {
    faults: u64,
}

impl NoRunner {
    /// A runner that has counted no fault.
    pub fn new() -> NoRunner
        ensures { result.faults ≡ 0 }
    {
        NoRunner { faults: 0 }
    }
}

impl Runner for NoRunner {
    ghost tells = { ⊥ };

    ghost starts = { λ _. [] };

    ghost faults = { λ r. r.faults };

    fn start_faults(&self) -> u64 {
        self.faults
    }

    fn start(&mut self, _alloc: Global, _words: &Items<Text>) -> Result<i32, StartFault>
        ensures fails { result ≡ Err StartFault.Failed }
        ensures counted { self.new.faults ≡ next_call self.old.faults }
        ensures cause { HasCause StartFault.NoMemory self.old.faults self.new.faults result }
    {
        self.faults = self.faults.saturating_add(1);
        Err(StartFault::Failed)
    }
}
