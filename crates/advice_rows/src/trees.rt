//! Rows of inverse dependency trees. As well as the steps of `Stage`:
//!
//! - `trees FAILING`: the tree of each package of the lockfile, in its order; in each the writes
//!   with these numbers fail.
use crate::stage::{Stage, without_newline};
use audit_lock::{Lockfile, LockfileFault, RenderFault, Tree};
use row_fixtures::{Row, RowFault};
use std::alloc::{AllocError, Global};
use tame_names::{Items, MemSink, Sink, utf8_text};

/// Whether a tree is rendered whole; if not, a write failed.
fn is_rendered<S: Sink>(
    alloc: Global,
    lockfile: &Lockfile,
    node: usize,
    sink: &mut S,
) -> Result<bool, RowFault> {
    let tree = Tree::of(alloc, lockfile)?;
    if node >= lockfile.packages().len() {
        return Ok(true);
    }
    match tree.render(alloc, lockfile, node, sink) {
        Ok(()) => Ok(true),
        Err(RenderFault::Io) => Ok(false),
        Err(RenderFault::NoMemory) => Err(RowFault::NoMemory),
    }
}

/// Adds what was rendered, or how many bytes of it if a write failed.
fn push_rendered(out: &mut String, is_whole: bool, bytes: &[u8]) -> Result<(), AllocError> {
    if is_whole {
        out.push_str(utf8_text(bytes).unwrap_or("no text\n"))
    } else {
        let count = bytes.len();
        write!(out, "a failed put, {count} bytes\n")
    }
}

/// Adds a tree that is written to an output.
fn push_put(
    alloc: Global,
    out: &mut String,
    lockfile: &Lockfile,
    node: usize,
    sink: &mut MemSink,
) -> Result<(), RowFault> {
    let is_whole = is_rendered(alloc, lockfile, node, sink)?;
    Ok(push_rendered(out, is_whole, sink.bytes())?)
}

/// Adds a tree, of which the writes with these numbers fail.
fn push_tree(
    alloc: Global,
    out: &mut String,
    lockfile: &Lockfile,
    node: usize,
    failing: &[u64],
) -> Result<(), RowFault> {
    let fails = Items::of(Vec::from_slice(alloc, failing)?);
    let mut sink = MemSink::new(alloc, fails);
    push_put(alloc, out, lockfile, node, &mut sink)
}

/// The tree of each package.
fn trees_of(alloc: Global, lockfile: &Lockfile, failing: &[u64]) -> Result<String, RowFault> {
    let mut out = String::new(alloc);
    for node in 0..lockfile.packages().len() {
        push_tree(alloc, &mut out, lockfile, node, failing)?;
    }
    Ok(without_newline(out))
}

/// `trees FAILING`
fn trees(alloc: Global, stage: &mut Stage, mut row: Row<'_>) -> Result<String, RowFault> {
    let failing = row.numbers(alloc)?;
    stage.texts.end(alloc)?;
    match Lockfile::read(alloc, stage.texts.lock()) {
        Ok(lockfile) => trees_of(alloc, &lockfile, failing.as_slice()),
        Err(LockfileFault::NoMemory) => Err(RowFault::NoMemory),
        Err(fault) => Ok(format!(in alloc; "{fault:?}")?),
    }
}

/// The answer of a row, which is nothing if the step answers nothing.
pub fn answer(alloc: Global, stage: &mut Stage, row: Row<'_>) -> Result<String, RowFault> {
    let mut words = row;
    match words.word() {
        "trees" => trees(alloc, stage, words),
        _ => stage.answer(alloc, row),
    }
}
