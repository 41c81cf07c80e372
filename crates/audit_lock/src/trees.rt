//! The inverse dependency tree of a lockfile.
ghost use Rattle.std.specs.Prelude.{◌≡◌, ◌<◌, ◌≤◌, ◌++◌, List, ℕ, length, IfOk, OnOk, IsErrOf};
ghost use Rattle.tame_names.specs.Counts.{CountRose};
ghost use Rattle.tame_names.specs.Output.{AddsPrefix};
ghost use Rattle.audit_lock.specs.Shape.{IsTree};
ghost use Rattle.audit_lock.specs.Parents.{tree_of};
ghost use Rattle.audit_lock.specs.Rendering.{lines_of, rendering};

use crate::lockfiles::Lockfile;
use crate::parents::parents_of;
use crate::rendering::tree_text;
use std::alloc::Global;
use std::marker::Model;
use tame_names::{Items, NoMemory, Sink, put_piece};

/// Why a tree was not fully rendered.
#[derive(Clone, Copy, Debug, PartialEq, Eq)]
pub enum RenderFault {
    /// A `put` failed.
    Io,
    /// Out of memory.
    NoMemory,
}

/// The parents of each package of a lockfile: the packages that depend on it, each once, in
/// lockfile order. Contracts see the list of these lists, one for each package.
#[derive(Debug, Drop)]
pub struct Tree {
    parents: Items<Items<usize>>,
}

impl Model for Tree {
    ghost Value = { List (List ℕ) };

    ghost view = { λ t. t.parents };
}

impl Tree {
    /// The parents of each package, in lockfile order.
    pub fn of(alloc: Global, lockfile: &Lockfile) -> Result<Tree, NoMemory>
        ensures { IfOk result (λ tree. tree ≡ tree_of lockfile.now) }
    {
        Ok(Tree {
            parents: parents_of(alloc, lockfile.packages())?,
        })
    }

    /// Puts the tree of the package at a place: a line for it, and below it the packages that
    /// depend on it, each with those that depend on it in turn. If a package already has a line,
    /// it gets another, with nothing below. `Io` if the sink failed; it then holds the first part
    /// of the text. At `NoMemory` it wasn't called. The recursion is as deep as the tree.
    pub fn render<S: Sink>(
        &self,
        alloc: Global,
        lockfile: &Lockfile,
        node: usize,
        sink: &mut S,
    ) -> Result<(), RenderFault>
        requires made { self.now ≡ tree_of lockfile.now }
        requires node { node < length lockfile.now }
        ensures tree { IsTree lockfile.now node (lines_of lockfile.now node) }
        ensures put { S.tells → OnOk result
            (S.holds sink.new ≡ S.holds sink.old ++ rendering lockfile.now node) }
        ensures part { S.tells
            → AddsPrefix (S.holds sink.old) (rendering lockfile.now node) (S.holds sink.new) }
        ensures later { S.faults sink.old ≤ S.faults sink.new }
        ensures failed { IsErrOf result RenderFault.Io
            → CountRose (S.faults sink.old) (S.faults sink.new) }
        ensures unput { IsErrOf result RenderFault.NoMemory → sink.new ≡ sink.old }
    {
        let Ok(text) = tree_text(alloc, lockfile.packages(), self.parents.as_slice(), node) else {
            return Err(RenderFault::NoMemory);
        };
        match put_piece(sink, text.as_bytes()) {
            Ok(()) => Ok(()),
            Err(_) => Err(RenderFault::Io),
        }
    }
}
