//! The steps of a sequence.
use crate::host::Failing;
use std::alloc::{AllocError, Global};

/// What a step does.
#[derive(Clone, Copy, PartialEq, Eq)]
pub enum Act {
    // what stands before the first call
    LayFile,
    LayFolder,
    LayLink,
    // calls on a host
    Read,
    ReadPart,
    ReadInput,
    List,
    Kind,
    Variable,
    Here,
    MakeFolders,
    Create,
    // calls on the disk of a cache
    Peek,
    Whole,
    MakeAbove,
    Write,
    Cut,
    Sync,
    Again,
    // what becomes of a mirror
    LayTag,
    Remove,
    // exchanges, and exchanges while the mirror changes
    Ask,
    AskTurned,
    // an output
    Put,
    // the cache of an index
    LayEntry,
    Audit,
    Fetch,
    Store,
}

/// A step: what it does, and by which place, number, bytes and failure. Each act takes what it
/// needs.
#[derive(Clone, Copy)]
pub struct Step {
    pub act: Act,
    /// The number of its place.
    pub place: usize,
    /// The number of a variable, a link or slashes.
    pub other: u64,
    /// A limit, a place in a file or a length.
    pub amount: u64,
    /// How many bytes it has.
    pub size: usize,
    /// Which bytes these are.
    pub fill: u64,
    /// That its calls on the system fail.
    pub fails: bool,
}

impl Step {
    /// What befalls the calls on the system of a step that doesn't fail.
    pub fn interrupt(&self) -> Failing {
        if self.fill % 11 == 0 {
            Failing::Interrupted
        } else {
            Failing::None
        }
    }
}

fn act_word(act: Act) -> &'static str {
    match act {
        Act::LayFile => "lay a file",
        Act::LayFolder => "lay a folder",
        Act::LayLink => "lay a link",
        Act::Read => "read",
        Act::ReadPart => "read a part",
        Act::ReadInput => "read the input",
        Act::List => "list",
        Act::Kind => "kind",
        Act::Variable => "variable",
        Act::Here => "current folder",
        Act::MakeFolders => "make folders",
        Act::Create => "create",
        Act::Peek => "peek",
        Act::Whole => "read whole",
        Act::MakeAbove => "make the folders above",
        Act::Write => "write",
        Act::Cut => "cut",
        Act::Sync => "sync",
        Act::Again => "open anew",
        Act::LayTag => "lay a tag",
        Act::Remove => "remove",
        Act::Ask => "ask",
        Act::AskTurned => "ask while it changes",
        Act::Put => "put",
        Act::LayEntry => "lay an entry",
        Act::Audit => "audit",
        Act::Fetch => "read an entry",
        Act::Store => "write an entry",
    }
}

/// Whether a step is done before the first call.
pub fn is_laying(act: Act) -> bool {
    matches!(act, Act::LayFile | Act::LayFolder | Act::LayLink)
}

/// A step as a line.
pub fn step_line(alloc: Global, step: &Step) -> Result<String, AllocError> {
    let word = act_word(step.act);
    let fails = if step.fails { ", failing" } else { "" };
    format!(in alloc;
        "{word}: place {}, other {}, amount {}, {} bytes by {}{fails}",
        step.place, step.other, step.amount, step.size, step.fill
    )
}
