//! Calls on the locks of a host in memory: what they answer, and their steps.
ghost use Rattle.std.specs.Prelude.{◌≡◌, ◌≢◌, ◌≤◌, ◌++◌, ◌∷◌, [], ℕ, false, Some, None, OnOk, OnErr};
ghost use Rattle.std.specs.List.{slice_get};
ghost use Rattle.tame_names.specs.Counts.{CountRose, IsListed, next_call};
ghost use Rattle.tame_names.specs.MemoryLocks.{opening_stated, taking_stated};

use crate::errors::NoMemory;
use crate::host::{FileCall, FileFault, LockCall, LockOpenFault, LockStep, LockTakeFault};
use crate::lists::Items;
use crate::memory_files::MemFiles;
use crate::texts::Text;
use std::alloc::Global;

/// The answer that a call on a lock in memory must give.
#[derive(Clone, Copy, Debug, PartialEq, Eq)]
pub enum LockAnswer {
    /// The answer of an opening: why it is refused, if it is.
    Open(Option<LockOpenFault>),
    /// The answer of a taking: why it is refused, if it is.
    Take(Option<LockTakeFault>),
}

/// The answers that calls on locks must give, how many such calls there were, and their steps.
#[derive(Drop)]
pub(crate) struct MemLocks {
    answers: Items<LockAnswer>,
    asked: usize,
    steps: Items<LockStep>,
}

impl MemLocks {
    /// No call yet, with these answers to give.
    pub(crate) fn new(alloc: Global, answers: Items<LockAnswer>) -> MemLocks
        ensures answers { result.answers ≡ answers }
        ensures asked { result.asked ≡ 0 }
        ensures steps { result.steps ≡ [] }
    {
        MemLocks {
            answers,
            asked: 0,
            steps: Items::new(alloc),
        }
    }

    /// The same with these answers.
    pub(crate) fn with_answers(self, answers: Items<LockAnswer>) -> MemLocks
        ensures { result ≡ record self { answers = answers } }
    {
        let mut locks = self;
        locks.answers = answers;
        locks
    }

    /// The steps, in order.
    pub(crate) fn steps(&self) -> &[LockStep]
        ensures { result.now ≡ self.now.steps }
    {
        self.steps.as_slice()
    }

    /// The answer of the next call.
    fn next_answer(&mut self) -> Option<LockAnswer>
        ensures answers { self.new.answers ≡ self.old.answers }
        ensures asked { self.new.asked ≡ next_call self.old.asked }
        ensures steps { self.new.steps ≡ self.old.steps }
        ensures answer { result ≡ slice_get self.old.answers self.old.asked }
    {
        let answer = self.answers.as_slice().get(self.asked).copied();
        self.asked = self.asked.saturating_add(1);
        answer
    }

    /// Adds a step.
    fn add(
        &mut self,
        alloc: Global,
        path: &str,
        exclusive: bool,
        call: LockCall,
    ) -> Result<(), NoMemory>
        ensures answers { self.new.answers ≡ self.old.answers }
        ensures asked { self.new.asked ≡ self.old.asked }
        ensures added { OnOk result (self.new.steps ≡ self.old.steps
            ++ record { path = path.now; exclusive = exclusive; call = call } ∷ []) }
        ensures same { OnErr result (self.new.steps ≡ self.old.steps) }
    {
        let path = Text::of(alloc, path)?;
        self.steps.add(LockStep {
            path,
            exclusive,
            call,
        })
    }
}

/// What an opening answers, given the answer stated for it.
pub(crate) fn opening_fault(answer: Option<LockAnswer>) -> Option<LockOpenFault>
    ensures given { result ≢ Some LockOpenFault.Failed → answer ≡ Some (LockAnswer.Open result) }
    ensures stated { result ≡ opening_stated answer }
{
    match answer {
        Some(LockAnswer::Open(fault)) => fault,
        _ => Some(LockOpenFault::Failed),
    }
}

/// What a taking answers, given the answer stated for it; one that waits for its turn is never
/// contested.
pub(crate) fn taking_fault(answer: Option<LockAnswer>, block: bool) -> Option<LockTakeFault>
    ensures given { result ≢ Some LockTakeFault.Failed → answer ≡ Some (LockAnswer.Take result) }
    ensures contested { result ≡ Some LockTakeFault.Contested → block ≡ false }
    ensures stated { result ≡ taking_stated {A = ℕ} None block answer }
{
    match answer {
        Some(LockAnswer::Take(Some(LockTakeFault::Contested))) if block => {
            Some(LockTakeFault::Failed)
        }
        Some(LockAnswer::Take(fault)) => fault,
        _ => Some(LockTakeFault::Failed),
    }
}

impl MemFiles {
    /// Counts a call on a lock, and gives the answer that was stated for it; none if its number is
    /// listed, or if no answer is left.
    pub(crate) fn begin_lock(&mut self) -> Option<LockAnswer>
        ensures same { self.new ≡ record self.old {
          calls = next_call self.old.calls;
          locks = record self.old.locks { asked = next_call self.old.locks.asked };
        } }
        ensures faults { self.new.faults ≡ self.old.faults }
        ensures listed { IsListed self.new.calls self.old.fails → result ≡ None }
        ensures answer { result ≢ None
            → result ≡ slice_get self.old.locks.answers self.old.locks.asked }
        ensures fed { ¬ (IsListed self.new.calls self.old.fails)
            → result ≡ slice_get self.old.locks.answers self.old.locks.asked }
    {
        let answer = self.locks.next_answer();
        self.calls = self.calls.saturating_add(1);
        if self.fails.as_slice().contains(&self.calls) {
            return None;
        }
        answer
    }

    /// Adds a step that doesn't fail.
    pub(crate) fn add_step(
        &mut self,
        path: &str,
        exclusive: bool,
        call: LockCall,
    ) -> Result<(), NoMemory>
        ensures added { OnOk result (self.new ≡ record self.old {
          locks = record self.old.locks {
            steps = self.old.locks.steps
                ++ record { path = path.now; exclusive = exclusive; call = call } ∷ [];
          };
        }) }
        ensures same { OnErr result (self.new ≡ self.old) }
    {
        self.locks.add(self.alloc, path, exclusive, call)
    }

    /// Adds a step that fails, and with it a failed call, which is counted; if out of memory,
    /// neither.
    pub(crate) fn add_failed_step(
        &mut self,
        path: &str,
        exclusive: bool,
        step: LockCall,
        call: FileCall,
    ) -> Result<(), NoMemory>
        ensures added { OnOk result (self.new ≡ record self.old {
          locks = record self.old.locks {
            steps = self.old.locks.steps
                ++ record { path = path.now; exclusive = exclusive; call = step } ∷ [];
          };
          failed = self.old.failed ++ record { call = call; path = Some path.now } ∷ [];
          faults = next_call self.old.faults;
        }) }
        ensures later { self.old.faults ≤ self.new.faults }
        ensures rose { OnOk result (CountRose self.old.faults self.new.faults) }
        ensures same { OnErr result (self.new ≡ self.old) }
    {
        let before = self.locks.steps.len();
        self.add_step(path, exclusive, step)?;
        match self.fail(call, Some(path)) {
            FileFault::Failed => Ok(()),
            FileFault::NoMemory => {
                self.locks.steps.cut(before);
                Err(NoMemory)
            }
        }
    }
}
