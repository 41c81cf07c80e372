//! The crate files of a registry, by the entries of its folder.
ghost use Rattle.std.specs.Prelude.{◌≡◌, [], Ok, Err, Some, IfOk, IfErr, IsTrue, option_map};
ghost use Rattle.tame_local.specs.Calls.{AddsFailed, HasFileCause, IsListingCall};
ghost use Rattle.tame_local.specs.Refusals.{IsFolderError, and_then, is_told, refused};
ghost use Rattle.tame_local.specs.Registries.{crate_file_names, folder_at};
ghost use Rattle.tame_local.specs.Registries as spec;

use crate::crate_files::crate_file_components;
use crate::faults::failed;
use std::alloc::Global;
use std::collections::BTreeSet;
use tame_names::{Error, Files, IoKind, Items, Listed, NoMemory, PathKind, Text, parent};

/// The folder of the crate files of an index: the one above it, or the index if there is none.
pub(crate) fn crates_folder(index: &str) -> &str
    ensures { result.now ≡ spec.crates_folder index.now }
{
    match parent(index) {
        Some(folder) => folder,
        None => index,
    }
}

/// The name of an entry that is a file with the name of a crate file.
fn crate_file_name(entry: &Listed) -> Option<&Text>
    ensures { option_map (λ name. name.now) result ≡ spec.crate_file_name entry.now }
{
    let name = entry.name.as_ref()?;
    if entry.file && crate_file_components(name.as_str()).is_some() {
        Some(name)
    } else {
        None
    }
}

/// The names of crate files among entries, in byte order.
fn names_of(alloc: Global, entries: &[Listed]) -> Result<BTreeSet<Text>, NoMemory>
    ensures { IfOk result (λ names. names.keys ≡ crate_file_names [] entries.now) }
{
    let mut names = BTreeSet::new(alloc);
    for entry in entries {
        if let Some(name) = crate_file_name(entry) {
            let _new = names.insert(name.try_clone(alloc)?)?;
        }
    }
    Ok(names)
}

/// The entries of the folder at a path. `IoPath` if none is there: `NotFound` if nothing is, else
/// `NotADirectory`.
fn entries_at<F: Files>(alloc: Global, files: &mut F, path: &str) -> Result<Items<Listed>, Error>
    ensures ok { F.tells → IfOk result (λ entries.
        folder_at path.now ((F.host files.old).stands path.now) ≡ Ok entries) }
    ensures refused { F.tells → IfErr result (λ e. IsTrue (is_told e)
        → folder_at path.now ((F.host files.old).stands path.now) ≡ Err (refused e)) }
    ensures only { IfErr result IsFolderError }
    ensures cause { HasFileCause (F.faults files.old) (F.faults files.new) result }
    ensures failed { F.tells → AddsFailed (IsListingCall (F.host files.old) path.now)
        (F.failed files.old) (F.failed files.new) result }
    ensures same { F.tells → F.host files.new ≡ F.host files.old }
{
    let copy = Text::of(alloc, path)?;
    match files.list(alloc, path) {
        Ok(Some(entries)) => return Ok(entries),
        Ok(None) => {}
        Err(fault) => return Err(failed(fault, copy)),
    }
    match files.kind(path) {
        Ok(PathKind::Absent) => Err(Error::IoPath(IoKind::NotFound, copy)),
        Ok(PathKind::File | PathKind::Folder | PathKind::Other) => {
            Err(Error::IoPath(IoKind::NotADirectory, copy))
        }
        Err(fault) => Err(failed(fault, copy)),
    }
}

/// The names of the crate files in the folder at a path, in byte order.
pub(crate) fn names_at<F: Files>(
    alloc: Global,
    files: &mut F,
    path: &str,
) -> Result<BTreeSet<Text>, Error>
    ensures ok { F.tells → IfOk result (λ names.
        and_then (λ entries. Ok (crate_file_names [] entries))
        (folder_at path.now ((F.host files.old).stands path.now)) ≡ Ok names.keys) }
    ensures refused { F.tells → IfErr result (λ e. IsTrue (is_told e)
        → folder_at path.now ((F.host files.old).stands path.now) ≡ Err (refused e)) }
    ensures only { IfErr result IsFolderError }
    ensures cause { HasFileCause (F.faults files.old) (F.faults files.new) result }
    ensures failed { F.tells → AddsFailed (IsListingCall (F.host files.old) path.now)
        (F.failed files.old) (F.failed files.new) result }
    ensures same { F.tells → F.host files.new ≡ F.host files.old }
{
    let entries = entries_at(alloc, files, path)?;
    Ok(names_of(alloc, entries.as_slice())?)
}
