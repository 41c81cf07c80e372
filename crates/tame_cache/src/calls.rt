//! The changes of a disk in memory, in their order, and what a read gives after them.
ghost use Rattle.std.specs.Prelude.{◌≡◌, ◌≤◌, ◌++◌, ℕ, List, [], length, take, IfOk, OnOk, OnErr, option_map, option_copied};
ghost use Rattle.tame_cache.specs.Calls.{file_of, past_of};
ghost use Rattle.tame_cache.specs.Disk.{content, reads, with_piece};

use std::alloc::{AllocError, Global};

/// A change of a file: a write of this many bytes at a place, a cut to a length, or a sync.
#[derive(Clone, Copy, Debug, PartialEq, Eq)]
pub enum Change {
    /// The place in the file, and the number of bytes that are written from there on.
    Write(u64, u64),
    /// The length in bytes that is left.
    Cut(u64),
    /// What was written will last.
    Sync,
}

/// A change of the file of a path, and what a read gives after it.
#[derive(Drop)]
pub struct Call {
    /// The path of the file.
    pub path: String,
    /// What was done to it.
    pub change: Change,
    /// The bytes that a read gives afterwards; none if there is no file.
    pub file: Option<Vec<u8>>,
}

/// What a read of a path gives.
pub fn current<'a>(calls: &'a [Call], path: &str) -> Option<&'a Vec<u8>>
    ensures { file_of (option_copied result) ≡ reads (past_of path.now [] calls.now) }
{
    let mut found = None;
    for call in calls {
        if call.path.as_str() == path {
            found = call.file.as_ref();
        }
    }
    found
}

/// The bytes of a file; none if there is no file.
pub fn content_of<'a>(file: Option<&'a Vec<u8>>) -> &'a [u8]
    ensures { result.now ≡ content (file_of (option_copied file.entry)) }
{
    match file {
        None => &[],
        Some(bytes) => bytes.as_slice(),
    }
}

/// Bytes with a piece written over them at a place, which isn't past their end.
pub fn with_bytes(alloc: Global, old: &[u8], at: usize, piece: &[u8]) -> Result<Vec<u8>, AllocError>
    requires { at ≤ length old.now }
    ensures { IfOk result (λ bytes. bytes.items ≡ with_piece old.now at piece.now) }
{
    let mut bytes = old[..at].to_vec(alloc)?;
    bytes.extend_from_slice(piece)?;
    if piece.len() < old.len() - at {
        bytes.extend_from_slice(&old[at + piece.len()..])?;
    }
    Ok(bytes)
}

/// A copy of a file, if there is one.
pub fn copy_of(alloc: Global, file: Option<&Vec<u8>>) -> Result<Option<Vec<u8>>, AllocError>
    ensures { IfOk result (λ now. file_of now ≡ file_of (option_copied file.entry)) }
{
    match file {
        None => Ok(None),
        Some(bytes) => Ok(Some(bytes.to_vec(alloc)?)),
    }
}

/// A copy of the first bytes of a file, as many as it has up to this length.
pub fn front_of(
    alloc: Global,
    file: Option<&Vec<u8>>,
    len: u64,
) -> Result<Option<Vec<u8>>, AllocError>
    ensures { IfOk result (λ now. file_of now
        ≡ option_map (take len) (file_of (option_copied file.entry))) }
{
    match file {
        None => Ok(None),
        Some(bytes) if len < bytes.len() as u64 => Ok(Some(bytes[..len as usize].to_vec(alloc)?)),
        Some(bytes) => Ok(Some(bytes.to_vec(alloc)?)),
    }
}
