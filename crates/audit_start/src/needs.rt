//! The lock that a run needs, by its arguments.
ghost use Rattle.std.specs.Prelude.{◌≡◌, Ok, IfOk, map, string_bytes};
ghost use Rattle.audit_program.specs.Jobs.{asking_of, job_of};
ghost use Rattle.audit_start.specs.Needs.{at_least_shared, lock_of};
ghost use Rattle.audit_start.specs.Needs as spec;

use audit_core::AuditCommand;
use audit_program::{Command, WordsFault, read_words};
use std::alloc::Global;
use tame_names::{LockState, NoMemory};

/// Of an audit with these options.
fn audit_lock(options: &AuditCommand) -> LockState
    ensures { result ≡ spec.audit_lock options.now }
{
    if options.no_yanked {
        LockState::Unlocked
    } else if options.no_fetch {
        LockState::Shared
    } else {
        LockState::Exclusive
    }
}

/// The same if the cache is read after the audit too.
fn reading_lock(options: &AuditCommand) -> LockState
    ensures { result ≡ at_least_shared (spec.audit_lock options.now) }
{
    match audit_lock(options) {
        LockState::Unlocked | LockState::Shared => LockState::Shared,
        LockState::Exclusive => LockState::Exclusive,
    }
}

/// Of a command.
fn command_lock(command: &Command) -> LockState
    ensures { result ≡ lock_of (Ok (job_of command.now)) }
{
    match command {
        Command::Audit(options) => audit_lock(options),
        Command::Baseline(options, _path) => audit_lock(options),
        Command::WriteBaseline(options, _path) => audit_lock(options),
        Command::Fix(options, _more) => audit_lock(options),
        Command::Bin(options, _more) => audit_lock(options),
        Command::Plan(options) => reading_lock(options),
        Command::Vendor(options, _more) => reading_lock(options),
        Command::Help => LockState::Unlocked,
        Command::Version => LockState::Unlocked,
        Command::Generate(_) => LockState::Unlocked,
    }
}

/// How the lock of the cache is to be taken: for itself by a run that may write the cache, with
/// others by one that only reads it. A run that does neither takes none.
pub fn needed_lock(alloc: Global, arguments: &[String]) -> Result<LockState, NoMemory>
    ensures { IfOk result (λ needed.
        needed ≡ lock_of (asking_of (map string_bytes arguments.now))) }
{
    match read_words(alloc, arguments) {
        Ok(command) => Ok(command_lock(&command)),
        Err(WordsFault::Usage { place: _ }) => Ok(LockState::Unlocked),
        Err(WordsFault::NoMemory) => Err(NoMemory),
    }
}
