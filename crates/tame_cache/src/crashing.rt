//! What a crash leaves of a disk in memory, by a pick.
ghost use Rattle.std.specs.Prelude.{◌≡◌, ◌<◌, ◌≤◌, ◌+◌, ◌-◌, ◌^◌, [], ◌∷◌, ℕ, List, option_copied, IfOk};
ghost use Rattle.tame_cache.specs.Disk.{File, Step};
ghost use Rattle.tame_cache.specs.Calls.{file_of, past_of, step_of};
ghost use Rattle.tame_cache.specs.MemoryDisk as spec;

use crate::calls::{Call, Change, copy_of, current, front_of, with_bytes};
use crate::memory_disk::MemCacheDisk;
use std::alloc::{AllocError, Global};
use tame_names::NoMemory;

/// The file as after its last sync, one change later.
fn after_lost<'a>(found: Option<&'a Vec<u8>>, call: &'a Call) -> Option<&'a Vec<u8>>
    ensures { (past : List Step) → file_of (option_copied found.entry) ≡ spec.lost past
        → file_of (option_copied result)
        ≡ spec.lost (step_of call.now.change (file_of call.now.file) ∷ past) }
{
    match call.change {
        Change::Sync => call.file.as_ref(),
        Change::Write(_, _) => found,
        Change::Cut(_) => found,
    }
}

/// The file as after its last sync.
fn lost<'a>(calls: &'a [Call], path: &str) -> Option<&'a Vec<u8>>
    ensures { file_of (option_copied result) ≡ spec.lost (past_of path.now [] calls.now) }
{
    let mut found = None;
    for call in calls {
        if call.path.as_str() == path {
            found = after_lost(found, call);
        }
    }
    found
}

/// A file with a range of fours.
fn with_fours(
    alloc: Global,
    file: Option<Vec<u8>>,
    at: u64,
    len: u64,
) -> Result<Option<Vec<u8>>, AllocError>
    ensures { IfOk result (λ next. file_of next ≡ spec.with_fours at len (file_of file)) }
{
    let fours = vec![in alloc; 4u8; len as usize]?;
    match file {
        None if at == 0 => Ok(Some(fours)),
        Some(bytes) if at <= bytes.len() as u64 => {
            Ok(Some(with_bytes(alloc, &bytes, at as usize, &fours)?))
        }
        same => Ok(same),
    }
}

/// A file after one more change, with fours in place of what is written.
fn after_spoiled(
    alloc: Global,
    file: Option<Vec<u8>>,
    call: &Call,
) -> Result<Option<Vec<u8>>, AllocError>
    ensures { IfOk result (λ next. (past : List Step) → file_of file ≡ spec.spoiled past
        → file_of next ≡ spec.spoiled (step_of call.now.change (file_of call.now.file) ∷ past)) }
{
    match call.change {
        Change::Sync => copy_of(alloc, call.file.as_ref()),
        Change::Write(at, len) => with_fours(alloc, file, at, len),
        Change::Cut(len) => front_of(alloc, file.as_ref(), len),
    }
}

/// The file with fours in place of what was written since its last sync.
fn spoiled(alloc: Global, calls: &[Call], path: &str) -> Result<Option<Vec<u8>>, AllocError>
    ensures { IfOk result (λ file. file_of file ≡ spec.spoiled (past_of path.now [] calls.now)) }
{
    let mut file = None;
    for call in calls {
        if call.path.as_str() == path {
            file = after_spoiled(alloc, file, call)?;
        }
    }
    Ok(file)
}

/// The number of changes that aren't synced, after one more change.
fn next_pending(count: usize, change: Change) -> usize
    requires { count < 2 ^ 64 - 1 }
    ensures next { (past : List Step) (now : File) → count ≡ spec.pending past
        → result ≡ spec.pending (step_of change now ∷ past) }
    ensures bound { result ≤ count + 1 }
{
    match change {
        Change::Sync => 0,
        Change::Write(_, _) => count + 1,
        Change::Cut(_) => count + 1,
    }
}

/// How many changes of a file aren't synced.
fn pending(calls: &[Call], path: &str) -> usize
    ensures { result ≡ spec.pending (past_of path.now [] calls.now) }
{
    let mut count = 0;
    for call in calls {
        if call.path.as_str() == path {
            count = next_pending(count, call.change);
        }
    }
    count
}

/// The file with the first half of the changes that aren't synced.
fn half<'a>(calls: &'a [Call], path: &str) -> Option<&'a Vec<u8>>
    ensures { file_of (option_copied result) ≡ spec.half (past_of path.now [] calls.now) }
{
    let pending = pending(calls, path);
    let mut left = pending - pending / 2;
    let mut end = calls.len();
    while left > 0 && end > 0 {
        end -= 1;
        if calls[end].path.as_str() == path {
            left -= 1;
        }
    }
    current(&calls[..end], path)
}

/// The file that a pick leaves.
fn picked(
    alloc: Global,
    calls: &[Call],
    path: &str,
    pick: u8,
) -> Result<Option<Vec<u8>>, AllocError>
    ensures { IfOk result (λ file. file_of file
        ≡ spec.picked pick (past_of path.now [] calls.now)) }
{
    match pick {
        0 => copy_of(alloc, lost(calls, path)),
        1 => copy_of(alloc, current(calls, path)),
        2 => spoiled(alloc, calls, path),
        _ => copy_of(alloc, half(calls, path)),
    }
}

impl MemCacheDisk {
    ghost use Rattle.tame_cache.specs.MemoryDisk.{IsCrashed, IsFresh};
    ghost use Rattle.tame_cache.specs.MemoryDisk as spec;

    /// The disk after a crash, with nothing pending and no call that is to fail. The pick decides
    /// each file: 0 as after its last sync, 1 as a read gives, 2 with fours in place of what was
    /// written since its last sync, else with the first half of the changes since then.
    pub fn after_crash(self, alloc: Global, pick: u8) -> Result<MemCacheDisk, NoMemory>
        ensures crashed { IfOk result (λ disk. (q : List ℕ) → IsCrashed pick q self disk) }
        ensures fresh { IfOk result (λ disk. IsFresh disk) }
    {
        let mut next = MemCacheDisk::new(alloc, Vec::new(alloc));
        for call in self.changes.as_slice() {
            let path = call.path.as_str();
            let file = picked(alloc, self.changes.as_slice(), path, pick)?;
            next.changes.add(alloc, path, Change::Sync, file)?;
        }
        Ok(next)
    }
}
