//! A host in memory as it is stated.
ghost use Rattle.std.specs.Prelude.{◌≡◌, []};

use crate::host::{FailedCall, LockStep};
use crate::lists::Items;
use crate::memory_files::MemFiles;
use crate::memory_locks::{LockAnswer, MemLocks};
use crate::memory_nodes::MemFile;
use crate::memory_variables::MemVariable;
use crate::texts::Text;
use std::alloc::Global;

impl MemFiles {
    /// These files, with an empty input, no variable, the empty path as current folder, and no
    /// answer for calls on locks; the calls of these numbers fail.
    pub fn new(alloc: Global, files: Items<MemFile>, fails: Items<u64>) -> MemFiles
        ensures files { result.files ≡ files }
        ensures input { result.input ≡ [] }
        ensures variables { result.variables ≡ [] }
        ensures current { result.current ≡ [] }
        ensures answers { result.locks.answers ≡ [] }
        ensures asked { result.locks.asked ≡ 0 }
        ensures steps { result.locks.steps ≡ [] }
        ensures fails { result.fails ≡ fails }
        ensures failed { result.failed ≡ [] }
        ensures calls { result.calls ≡ 0 }
        ensures faults { result.faults ≡ 0 }
    {
        MemFiles {
            alloc,
            files,
            input: Items::new(alloc),
            variables: Items::new(alloc),
            current: Text::from_string(String::new(alloc)),
            locks: MemLocks::new(alloc, Items::new(alloc)),
            fails,
            failed: Items::new(alloc),
            calls: 0,
            faults: 0,
        }
    }

    /// The same with this input.
    pub fn with_input(self, input: Items<u8>) -> MemFiles
        ensures { result ≡ record self { input = input } }
    {
        let mut files = self;
        files.input = input;
        files
    }

    /// The same with these variables.
    pub fn with_variables(self, variables: Items<MemVariable>) -> MemFiles
        ensures { result ≡ record self { variables = variables } }
    {
        let mut files = self;
        files.variables = variables;
        files
    }

    /// The same with this current folder.
    pub fn with_current(self, current: Text) -> MemFiles
        ensures { result ≡ record self { current = current } }
    {
        let mut files = self;
        files.current = current;
        files
    }

    /// The same with these answers to the calls on locks.
    pub fn with_locks(self, answers: Items<LockAnswer>) -> MemFiles
        ensures { result ≡ record self { locks = record self.locks { answers = answers } } }
    {
        let mut files = self;
        files.locks = files.locks.with_answers(answers);
        files
    }

    /// The steps on locks, in order.
    pub fn steps(&self) -> &[LockStep]
        ensures { result.now ≡ self.now.locks.steps }
    {
        self.locks.steps()
    }

    /// The calls that have failed, in order.
    pub fn failed(&self) -> &[FailedCall]
        ensures { result.now ≡ self.now.failed }
    {
        self.failed.as_slice()
    }
}
