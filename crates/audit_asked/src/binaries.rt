//! What audits of binaries ask of the host.
ghost use Rattle.std.specs.Prelude.{◌≡◌, Ok, Err, IfOk, IfErr, IsTrue};
ghost use Rattle.audit_asked.specs.Calls.{AddsFailed, HasFileCause};
ghost use Rattle.audit_asked.specs.ForBinaries.{IsAdvisedCall, IsForBinariesCall, asked_for_binaries};
ghost use Rattle.audit_asked.specs.ForBinaries as spec;
ghost use Rattle.audit_asked.specs.Refusals.{Gives, IsReadFault, is_told, refused};

use crate::advisories::advisories;
use crate::databases::{database, database_path};
use crate::faults::AskFault;
use crate::settings::settled;
use audit_advisory::Advisory;
use audit_settings::{AuditCommand, AuditConfig};
use std::alloc::Global;
use tame_names::{Files, Items, Text};

/// What audits of binaries asked of the host.
#[derive(Debug, Drop)]
pub struct AskedForBinaries {
    /// The settings with the command's options applied.
    pub config: AuditConfig,
    /// The path of the database; `advisory-db` if cargo's home isn't known.
    pub database: Text,
    /// The advisories, in the byte order of their folders and files.
    pub advisories: Items<Advisory>,
}

/// Asks the host for the advisories, with these settings.
fn advised<F: Files>(
    alloc: Global,
    files: &mut F,
    config: AuditConfig,
) -> Result<AskedForBinaries, AskFault>
    ensures ok { F.tells → IfOk result (λ asked.
        spec.advised (F.host files.old) config ≡ Ok asked) }
    ensures refused { F.tells → IfErr result (λ e. IsTrue (is_told e)
        → spec.advised (F.host files.old) config ≡ Err (refused e)) }
    ensures only { IfErr result IsReadFault }
    ensures cause { HasFileCause (F.faults files.old) (F.faults files.new) result }
    ensures failed { F.tells → AddsFailed (IsAdvisedCall (F.host files.old) config)
        (F.failed files.old) (F.failed files.new) result }
    ensures same { F.tells → F.host files.new ≡ F.host files.old }
{
    let database = database(alloc, files, &config.database.path)?;
    let advisories = advisories(alloc, files, &database)?;
    let database = database_path(alloc, database)?;
    Ok(AskedForBinaries {
        config,
        database,
        advisories,
    })
}

/// Asks the host for the settings, and for the advisories one after the other. The first refusal
/// ends it. No lockfile is asked for.
pub fn ask_for_binaries<F: Files>(
    alloc: Global,
    command: &AuditCommand,
    files: &mut F,
) -> Result<AskedForBinaries, AskFault>
    // what was asked, or the first refusal
    ensures gives { F.tells → Gives (asked_for_binaries command.now (F.host files.old)) result }
    ensures only { IfErr result IsReadFault }

    // which call failed
    ensures cause { HasFileCause (F.faults files.old) (F.faults files.new) result }
    ensures failed { F.tells → AddsFailed (IsForBinariesCall command.now (F.host files.old))
        (F.failed files.old) (F.failed files.new) result }
    ensures same { F.tells → F.host files.new ≡ F.host files.old }
{
    let config = settled(alloc, command, files)?;
    advised(alloc, files, config)
}
