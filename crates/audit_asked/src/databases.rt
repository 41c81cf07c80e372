//! Where the advisories are.
ghost use Rattle.std.specs.Prelude.{◌≡◌, Ok, Err, Some, None, IfOk, IfErr, IsTrue};
ghost use Rattle.tame_names.specs.declared.host.FileCall.TheVariants as FileCall;
ghost use Rattle.audit_asked.specs.Calls.{AddsFailed, AsksHome, HasFileCause, IsCallOn, IsDatabaseCall};
ghost use Rattle.audit_asked.specs.Databases.{database_asked, database_at};
ghost use Rattle.audit_asked.specs.Databases as spec;
ghost use Rattle.audit_asked.specs.Refusals.{IsReadFault, is_told, refused};

use crate::faults::AskFault;
use crate::homes::known_home;
use std::alloc::Global;
use tame_names::{FileFault, Files, NoMemory, PathKind, Text, join, plain_path};

/// The folder of advisories in cargo's home, and the path that is reported if there is none.
const DATABASE_NAME: &str = "advisory-db";

/// A database that was named, which must be there.
fn named_database<F: Files>(
    alloc: Global,
    files: &mut F,
    path: &str,
) -> Result<Option<Text>, AskFault>
    ensures ok { F.tells → IfOk result (λ database.
        database_at path.now (F.host files.old) ≡ Ok database) }
    ensures refused { F.tells → IfErr result (λ e. IsTrue (is_told e)
        → database_at path.now (F.host files.old) ≡ Err (refused e)) }
    ensures only { IfErr result IsReadFault }
    ensures cause { HasFileCause (F.faults files.old) (F.faults files.new) result }
    ensures failed { F.tells → AddsFailed (IsCallOn FileCall.Kind path.now)
        (F.failed files.old) (F.failed files.new) result }
    ensures same { F.tells → F.host files.new ≡ F.host files.old }
{
    let copy = Text::of(alloc, path)?;
    match files.kind(path) {
        Ok(PathKind::Absent) => Err(AskFault::Missing { path: copy }),
        Ok(_) => Ok(Some(copy)),
        Err(FileFault::Failed) => Err(AskFault::File { path: copy }),
        Err(FileFault::NoMemory) => Err(AskFault::NoMemory),
    }
}

/// The database in cargo's home.
fn home_database<F: Files>(alloc: Global, files: &mut F) -> Result<Option<Text>, AskFault>
    ensures ok { F.tells → IfOk result (λ database.
        database_asked None (F.host files.old) ≡ Ok database) }
    ensures refused { F.tells → IfErr result (λ e. IsTrue (is_told e)
        → database_asked None (F.host files.old) ≡ Err (refused e)) }
    ensures only { IfErr result IsReadFault }
    ensures cause { HasFileCause (F.faults files.old) (F.faults files.new) result }
    ensures failed { F.tells → AddsFailed (AsksHome (F.host files.old))
        (F.failed files.old) (F.failed files.new) result }
    ensures same { F.tells → F.host files.new ≡ F.host files.old }
{
    match known_home(alloc, files)? {
        None => Ok(None),
        Some(home) => Ok(Some(join(alloc, home.as_str(), DATABASE_NAME)?)),
    }
}

/// The database: the one that was named, which must be there; else the one in cargo's home, if
/// that is known.
pub(crate) fn database<F: Files>(
    alloc: Global,
    files: &mut F,
    named: &Option<Text>,
) -> Result<Option<Text>, AskFault>
    ensures ok { F.tells → IfOk result (λ database.
        database_asked named.now (F.host files.old) ≡ Ok database) }
    ensures refused { F.tells → IfErr result (λ e. IsTrue (is_told e)
        → database_asked named.now (F.host files.old) ≡ Err (refused e)) }
    ensures only { IfErr result IsReadFault }
    ensures cause { HasFileCause (F.faults files.old) (F.faults files.new) result }
    ensures failed { F.tells → AddsFailed (IsDatabaseCall (F.host files.old) named.now)
        (F.failed files.old) (F.failed files.new) result }
    ensures same { F.tells → F.host files.new ≡ F.host files.old }
{
    match named {
        Some(path) => named_database(alloc, files, plain_path(path.as_str())),
        None => home_database(alloc, files),
    }
}

/// The path that is reported for a database.
pub(crate) fn database_path(alloc: Global, database: Option<Text>) -> Result<Text, NoMemory>
    ensures { IfOk result (λ path. path ≡ spec.database_path database) }
{
    match database {
        Some(path) => Ok(path),
        None => Text::of(alloc, DATABASE_NAME),
    }
}
