//! What the program starts with.
ghost use Rattle.std.specs.Prelude.{◌≡◌, ◌≤◌, Ok, Err, IfOk, IfErr, map, string_bytes};
ghost use Rattle.tame_names.specs.Counts.{CountRose};
ghost use Rattle.audit_program.specs.Jobs.{asking_of};
ghost use Rattle.audit_start.specs.Starts.{AddsVariable, IsStartFault, IsTold, lock_file, start_of};
ghost use Rattle.audit_start.specs.Needs.{lock_of};

use crate::faults::{FolderVariable, StartFault};
use crate::folders::folder;
use crate::needs::needed_lock;
use std::alloc::Global;
use tame_names::{Files, LockState, Text, join};

/// The file of the cache's folder whose lock is taken.
const LOCK_NAME: &str = ".audit-lock";

/// What the program starts with.
#[derive(Debug, Drop)]
pub struct Start {
    /// The folder of the mirror.
    pub mirror: Text,
    /// The folder of the cache.
    pub cache: Text,
    /// The path of the file whose lock is taken.
    pub lock: Text,
    /// How its lock is taken.
    pub taken: LockState,
}

/// What the program starts with, by its arguments and the variables of the host. `NotUtf8` and
/// `Unread` are of the first variable that is so, `CARGO_AUDIT_MIRROR` before `CARGO_AUDIT_INDEX`.
pub fn begin<F: Files>(
    alloc: Global,
    arguments: &[String],
    files: &mut F,
) -> Result<Start, StartFault>
    ensures ok { F.tells → IfOk result (λ start.
        start_of (map string_bytes arguments.now) (F.host files.old) ≡ Ok start) }
    ensures lock { IfOk result (λ start. start.lock ≡ lock_file start.cache) }
    ensures taken { IfOk result (λ start.
        start.taken ≡ lock_of (asking_of (map string_bytes arguments.now))) }
    ensures refused { F.tells → IfErr result (λ e. IsTold e
        → start_of (map string_bytes arguments.now) (F.host files.old) ≡ Err e) }
    ensures only { IfErr result IsStartFault }
    ensures later { F.faults files.old ≤ F.faults files.new }
    ensures rose { (v : FolderVariable) → result ≡ Err (StartFault.Unread v)
        → CountRose (F.faults files.old) (F.faults files.new) }
    ensures failed { F.tells → AddsVariable (F.failed files.old) (F.failed files.new) result }
    ensures same { F.tells → F.host files.new ≡ F.host files.old }
    ensures locks { F.tells → F.locks files.new ≡ F.locks files.old }
{
    let mirror = folder(alloc, files, FolderVariable::Mirror)?;
    let cache = folder(alloc, files, FolderVariable::Cache)?;
    let lock = join(alloc, cache.as_str(), LOCK_NAME)?;
    let taken = needed_lock(alloc, arguments)?;
    Ok(Start {
        mirror,
        cache,
        lock,
        taken,
    })
}
