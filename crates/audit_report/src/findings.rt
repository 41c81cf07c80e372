//! What the blocks of a report are made from, and what is passed from one to the next.

use crate::pages::Page;
use crate::shown_trees::{ShownTree, Trees};
use crate::symbols::SymbolSet;
use audit_advisory::Advisory;
use audit_lock::{Lockfile, Tree};

/// What the blocks of a report are made from.
#[derive(Clone, Copy)]
pub struct Findings<'a> {
    /// The advisories of the database; a report has places in them.
    pub advisories: &'a [Advisory],
    /// The lockfile of the packages in a report.
    pub lockfile: &'a Lockfile,
    /// The parents of each package of the lockfile.
    pub tree: &'a Tree,
    /// The symbols of a binary, if they are set.
    pub symbols: &'a Option<SymbolSet>,
    /// Whether trees are wanted.
    pub wanted: bool,
    /// The trees that were shown before.
    pub known: &'a [ShownTree],
}

/// What is passed from one block to the next.
#[derive(Drop)]
pub struct Sheet {
    /// The lines that aren't put yet.
    pub page: Page,
    /// The trees that were put and not shown before.
    pub added: Trees,
}
