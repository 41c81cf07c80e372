//! The advisories of a database, in byte order.
ghost use Rattle.std.specs.Prelude.{◌≡◌, ◌++◌, Ok, Err, IfOk, IfErr, OnOk, IsTrue, map};
ghost use Rattle.tame_names.specs.declared.host.FileCall.TheVariants as FileCall;
ghost use Rattle.tame_names.specs.Paths.{join};
ghost use Rattle.audit_asked.specs.Advisories.{advisories_asked, advisories_from, paths_below};
ghost use Rattle.audit_asked.specs.Advisories as spec;
ghost use Rattle.audit_asked.specs.Asked.{IsAdvisoriesCall};
ghost use Rattle.audit_asked.specs.Calls.{AddsFailed, HasFileCause, IsCallOn, IsListingBelow, IsListingCall, IsReadingCall};
ghost use Rattle.audit_asked.specs.Refusals.{IsReadFault, IsCallFault, is_told, refused};

use crate::faults::AskFault;
use crate::listings::{Wanted, names_at};
use crate::texts::file_text;
use audit_advisory::{Advisory, AdvisoryFault};
use std::alloc::Global;
use std::collections::BTreeSet;
use tame_names::{Files, Items, NoMemory, Text, join};

/// Adds the paths of these names below a folder.
fn add_below(
    alloc: Global,
    folder: &str,
    names: &BTreeSet<Text>,
    paths: &mut Items<Text>,
) -> Result<(), NoMemory>
    ensures { OnOk result (paths.new ≡ paths.old ++ map (join folder.now) names.now.keys) }
{
    for name in names.iter() {
        paths.add(join(alloc, folder, name.as_str())?)?;
    }
    Ok(())
}

/// Adds the paths of the advisories in a folder.
fn add_paths<F: Files>(
    alloc: Global,
    files: &mut F,
    folder: &str,
    paths: &mut Items<Text>,
) -> Result<(), AskFault>
    ensures ok { F.tells → OnOk result (paths.new
        ≡ paths.old ++ paths_below (F.host files.old) folder.now) }
    ensures only { IfErr result IsCallFault }
    ensures cause { HasFileCause (F.faults files.old) (F.faults files.new) result }
    ensures failed { F.tells → AddsFailed (IsCallOn FileCall.List folder.now)
        (F.failed files.old) (F.failed files.new) result }
    ensures same { F.tells → F.host files.new ≡ F.host files.old }
{
    let names = names_at(alloc, files, Wanted::Advisories, folder)?;
    Ok(add_below(alloc, folder, &names, paths)?)
}

/// The paths of the advisories in the folders of these names.
fn paths_in<F: Files>(
    alloc: Global,
    files: &mut F,
    folder: &str,
    names: &BTreeSet<Text>,
) -> Result<Items<Text>, AskFault>
    ensures ok { F.tells → IfOk result (λ paths.
        paths ≡ spec.paths_in (F.host files.old) folder.now names.now.keys) }
    ensures only { IfErr result IsCallFault }
    ensures cause { HasFileCause (F.faults files.old) (F.faults files.new) result }
    ensures failed { F.tells → AddsFailed (IsListingBelow folder.now names.now.keys)
        (F.failed files.old) (F.failed files.new) result }
    ensures same { F.tells → F.host files.new ≡ F.host files.old }
{
    let mut paths = Items::new(alloc);
    for name in names.iter() {
        let below = join(alloc, folder, name.as_str())?;
        add_paths(alloc, files, below.as_str(), &mut paths)?;
    }
    Ok(paths)
}

/// The paths of the advisories of a database.
fn database_paths<F: Files>(
    alloc: Global,
    files: &mut F,
    database: &str,
) -> Result<Items<Text>, AskFault>
    ensures ok { F.tells → IfOk result (λ paths.
        paths ≡ spec.database_paths (F.host files.old) database.now) }
    ensures only { IfErr result IsCallFault }
    ensures cause { HasFileCause (F.faults files.old) (F.faults files.new) result }
    ensures failed { F.tells → AddsFailed (IsListingCall (F.host files.old) database.now)
        (F.failed files.old) (F.failed files.new) result }
    ensures same { F.tells → F.host files.new ≡ F.host files.old }
{
    let crates = join(alloc, database, "crates")?;
    let names = names_at(alloc, files, Wanted::Folders, crates.as_str())?;
    paths_in(alloc, files, crates.as_str(), &names)
}

/// The advisory at a path, with this number.
fn advisory_at<F: Files>(
    alloc: Global,
    files: &mut F,
    n: usize,
    path: &str,
) -> Result<Advisory, AskFault>
    ensures ok { F.tells → IfOk result (λ read.
        spec.advisory_at (F.host files.old) n path.now ≡ Ok read) }
    ensures refused { F.tells → IfErr result (λ e. IsTrue (is_told e)
        → spec.advisory_at (F.host files.old) n path.now ≡ Err (refused e)) }
    ensures only { IfErr result IsReadFault }
    ensures cause { HasFileCause (F.faults files.old) (F.faults files.new) result }
    ensures failed { F.tells → AddsFailed (IsCallOn FileCall.Read path.now)
        (F.failed files.old) (F.failed files.new) result }
    ensures same { F.tells → F.host files.new ≡ F.host files.old }
{
    let text = file_text(alloc, files, path)?;
    match Advisory::read(alloc, text.as_str()) {
        Ok(advisory) => Ok(advisory),
        Err(AdvisoryFault::NoMemory) => Err(AskFault::NoMemory),
        Err(fault) => Err(AskFault::Advisory { n, fault }),
    }
}

/// The advisories at these paths, each read fully before the next.
fn advisories_at<F: Files>(
    alloc: Global,
    files: &mut F,
    paths: &[Text],
) -> Result<Items<Advisory>, AskFault>
    ensures ok { F.tells → IfOk result (λ advisories.
        advisories_from (F.host files.old) 0 paths.now ≡ Ok advisories) }
    ensures refused { F.tells → IfErr result (λ e. IsTrue (is_told e)
        → advisories_from (F.host files.old) 0 paths.now ≡ Err (refused e)) }
    ensures only { IfErr result IsReadFault }
    ensures cause { HasFileCause (F.faults files.old) (F.faults files.new) result }
    ensures failed { F.tells → AddsFailed (IsReadingCall (F.host files.old) paths.now)
        (F.failed files.old) (F.failed files.new) result }
    ensures same { F.tells → F.host files.new ≡ F.host files.old }
{
    let mut advisories = Items::new(alloc);
    for (n, path) in paths.iter().enumerate() {
        let advisory = advisory_at(alloc, files, n, path.as_str())?;
        advisories.add(advisory)?;
    }
    Ok(advisories)
}

/// The advisories of a database; none if there is no database.
pub(crate) fn advisories<F: Files>(
    alloc: Global,
    files: &mut F,
    database: &Option<Text>,
) -> Result<Items<Advisory>, AskFault>
    ensures ok { F.tells → IfOk result (λ advisories.
        advisories_asked (F.host files.old) database.now ≡ Ok advisories) }
    ensures refused { F.tells → IfErr result (λ e. IsTrue (is_told e)
        → advisories_asked (F.host files.old) database.now ≡ Err (refused e)) }
    ensures only { IfErr result IsReadFault }
    ensures cause { HasFileCause (F.faults files.old) (F.faults files.new) result }
    ensures failed { F.tells → AddsFailed (IsAdvisoriesCall (F.host files.old) database.now)
        (F.failed files.old) (F.failed files.new) result }
    ensures same { F.tells → F.host files.new ≡ F.host files.old }
{
    match database {
        None => Ok(Items::new(alloc)),
        Some(database) => {
            let paths = database_paths(alloc, files, database.as_str())?;
            advisories_at(alloc, files, paths.as_slice())
        }
    }
}
