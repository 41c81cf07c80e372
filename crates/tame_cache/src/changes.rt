//! All changes of a disk in memory, and the file of each path as a read gives it now.
ghost use Rattle.std.specs.Prelude.{◌≡◌, ◌++◌, ◌∷◌, ℕ, List, [], OnOk, OnErr, option_copied};
ghost use Rattle.tame_cache.specs.Calls.{file_of, past_of, with_change};
ghost use Rattle.tame_cache.specs.Disk.{reads};

use crate::calls::{Call, Change, copy_of};
use std::alloc::{AllocError, Global};
use std::collections::BTreeMap;
use std::marker::Model;

/// All changes of a disk in their order. Contracts see the list of them.
#[derive(Drop)]
pub struct Changes {
    calls: Vec<Call>,
    /// The file of each path that was changed, after its last change.
    files: BTreeMap<String, Option<Vec<u8>>>,
}

impl Model for Changes {
    ghost use Rattle.std.specs.Prelude.{List};
    ghost use Rattle.tame_cache.specs.Changes.{AreCurrent};
    ghost use Rattle.tame_cache.specs.declared.calls.Call.{Call};

    ghost Value = { List Call };

    ghost view = { λ r. r.calls.items };

    ghost invariant = { λ r. AreCurrent r.files r.calls.items };
}

impl Changes {
    /// A disk without changes.
    pub fn new(alloc: Global) -> Changes
        ensures { result ≡ [] }
    {
        Changes {
            calls: Vec::new(alloc),
            files: BTreeMap::new(alloc),
        }
    }

    /// The changes.
    pub fn as_slice(&self) -> &[Call]
        ensures { result.now ≡ self.now }
    {
        self.calls.as_slice()
    }

    /// What a read of a path gives.
    pub fn current(&self, path: &str) -> Option<&Vec<u8>>
        ensures { file_of (option_copied result) ≡ reads (past_of path.now [] self.now) }
    {
        match self.files.get(path) {
            Some(file) => file.as_ref(),
            None => None,
        }
    }

    /// Adds a change of the file at a path, which left this file.
    pub fn add(
        &mut self,
        alloc: Global,
        path: &str,
        change: Change,
        now: Option<Vec<u8>>,
    ) -> Result<(), AllocError>
        ensures noted { OnOk result ((q : List ℕ)
            → past_of q [] self.new ≡ with_change q (past_of q [] self.old) path.now change
            (file_of now)) }
        ensures same { OnErr result (self.new ≡ self.old) }
    {
        let file = copy_of(alloc, now.as_ref())?;
        let key = String::from_str(alloc, path)?;
        let call = Call {
            path: String::from_str(alloc, path)?,
            change,
            file: now,
        };
        self.calls.push(call)?;
        match self.files.insert(key, file) {
            Ok(_) => Ok(()),
            Err(_) => {
                self.calls.pop();
                Err(AllocError)
            }
        }
    }
}
