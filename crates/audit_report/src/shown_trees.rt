//! Trees that a presenter has shown.
ghost use Rattle.std.specs.Prelude.{◌≡◌, ◌++◌, ◌∷◌, [], IfOk, OnOk, OnErr, length, take};
ghost use Rattle.audit_report.specs.Shown.{is_tree_of, shown_with, tree_key};
ghost use Rattle.audit_report.specs.Shown as spec;

use audit_lock::Package;
use std::alloc::Global;
use std::marker::Model;
use tame_names::{NoMemory, Text};

/// A package whose tree was shown.
#[derive(Debug, Drop)]
pub struct ShownTree {
    name: Text,
    version: Text,
    source: Option<Text>,
}

impl ShownTree {
    fn of(alloc: Global, locked: &Package) -> Result<ShownTree, NoMemory>
        ensures { IfOk result (λ tree. tree ≡ tree_key locked.now) }
    {
        let source = match &locked.source {
            None => None,
            Some(source) => Some(source.try_clone(alloc)?),
        };
        Ok(ShownTree {
            name: locked.name.try_clone(alloc)?,
            version: locked.version.try_clone(alloc)?,
            source,
        })
    }

    fn is_of(&self, locked: &Package) -> bool
        ensures { result ≡ is_tree_of locked.now self.now }
    {
        self.name == locked.name && self.version == locked.version && self.source == locked.source
    }
}

/// The trees that were shown, in their order. Contracts see the list of them.
#[derive(Debug, Drop)]
pub struct Trees {
    shown: Vec<ShownTree>,
}

impl Model for Trees {
    ghost use Rattle.std.specs.Prelude.{List};
    ghost use Rattle.audit_report.specs.declared.shown_trees.ShownTree.{ShownTree};

    ghost Value = { List ShownTree };

    ghost view = { λ t. t.shown.items };
}

impl Trees {
    /// No tree.
    pub fn new(alloc: Global) -> Trees
        ensures { result ≡ [] }
    {
        Trees {
            shown: Vec::new(alloc),
        }
    }

    /// The trees, borrowed.
    pub fn as_slice(&self) -> &[ShownTree]
        ensures { result.now ≡ self.now }
    {
        self.shown.as_slice()
    }

    /// Adds the tree of a package.
    fn add(&mut self, alloc: Global, locked: &Package) -> Result<(), NoMemory>
        ensures { OnOk result (self.new ≡ self.old ++ tree_key locked.now ∷ []) }
    {
        self.shown.push(ShownTree::of(alloc, locked)?)?;
        Ok(())
    }

    /// Adds these trees: all of them, or none if out of memory.
    pub fn extend(&mut self, more: &mut Trees) -> Result<(), NoMemory>
        ensures ok { OnOk result (self.new ≡ self.old ++ more.old) }
        ensures same { OnErr result (self.new ≡ self.old) }
    {
        self.shown.append(&mut more.shown)?;
        Ok(())
    }

    /// How many there are.
    pub fn count(&self) -> usize
        ensures { result ≡ length self.now }
    {
        self.shown.len()
    }

    /// Drops all but the first `count` trees.
    pub fn keep(&mut self, count: usize)
        ensures { self.new ≡ take count self.old }
    {
        self.shown.truncate(count);
    }
}

fn was_shown(shown: &[ShownTree], locked: &Package) -> bool
    ensures { result ≡ spec.was_shown shown.now locked.now }
{
    shown.iter().any(|tree| tree.is_of(locked))
}

/// Whether a package's tree is due: trees are wanted, and it is neither among those known nor
/// among those added.
pub fn is_due(wanted: bool, known: &[ShownTree], added: &Trees, locked: &Package) -> bool
    ensures { result ≡ spec.is_due wanted (known.now ++ added.now) locked.now }
{
    wanted && !was_shown(known, locked) && !was_shown(added.as_slice(), locked)
}

/// Adds a package's tree if it is due.
pub fn add_due(
    alloc: Global,
    wanted: bool,
    known: &[ShownTree],
    added: &mut Trees,
    locked: &Package,
) -> Result<(), NoMemory>
    ensures { OnOk result (known.now ++ added.new
        ≡ shown_with wanted (known.now ++ added.old) locked.now) }
{
    if is_due(wanted, known, added, locked) {
        added.add(alloc, locked)?;
    }
    Ok(())
}
