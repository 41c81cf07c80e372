//! The first step of a write: what a read gives is brought onto the disk.
ghost use Rattle.std.specs.Prelude.{◌≡◌, ◌≢◌, ◌≤◌, ◌+◌, ◌++◌, ◌∷◌, [], List, ℕ, IfOk, OnOk, None};
ghost use Rattle.tame_cache.specs.Disk.{reads, may_leave, EachMoment};
ghost use Rattle.tame_cache.specs.Folders.{MakesOnly};
ghost use Rattle.tame_cache.specs.FailedCalls.{AddsFailed, FailedWriting};
ghost use Rattle.tame_cache.specs.Faults.{HasDiskCause};
ghost use Rattle.tame_cache.specs.Gate.{IsSettled};

use crate::disk::{CacheDisk, DiskFault, Peek};

/// Brings the file of a path onto the disk and returns its first byte. If there is no file it
/// creates the folders above it. At most four calls on the disk.
pub fn settle<D: CacheDisk>(disk: &mut D, path: &str) -> Result<Peek, DiskFault>
    ensures settled { D.tells → IfOk result (λ seen. IsSettled seen (D.past disk.new path.now)) }
    // it changes no file
    ensures seen { D.tells → reads (D.past disk.new path.now) ≡ reads (D.past disk.old path.now) }
    ensures any_moment { D.tells → EachMoment (D.past disk.old path.now) (D.past disk.new path.now)
        (may_leave (D.past disk.old path.now)) }
    ensures others { D.tells → (q : List ℕ) → q ≢ path.now → D.past disk.new q ≡ D.past disk.old q }
    // if no file is there, the folders above it are created, and no others
    ensures made { D.tells → OnOk result (reads (D.past disk.old path.now) ≡ None
        → D.folders disk.new ≡ D.folders disk.old ++ path.now ∷ []) }
    ensures folders { D.tells → MakesOnly (λ q. q ≡ path.now) (D.folders disk.old)
        (D.folders disk.new) }
    ensures calls { D.made disk.new ≤ D.made disk.old + 4 }
    ensures failed { AddsFailed (FailedWriting path.now) (D.failed disk.old) (D.failed disk.new)
        result }
    ensures cause { HasDiskCause (D.faults disk.old) (D.faults disk.new) result }
{
    if disk.peek(path)? == Peek::Absent {
        disk.make_dirs(path)?;
        return Ok(Peek::Absent);
    }
    disk.sync(path)?;
    disk.peek(path)
}
