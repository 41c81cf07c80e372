//! Checking crate files against their index.
ghost use Rattle.std.specs.Prelude.{◌≡◌, Ok, Err, IfOk, IfErr, OnOk, IsTrue};
ghost use Rattle.tame_names.specs.KrateNames.{text_of};
ghost use Rattle.tame_local.specs.Calls.{AddsFailed, HasFileCause, IsFileCall, IsFilesCall, IsPartsCall};
ghost use Rattle.tame_local.specs.Refusals.{IsRegistryError, is_told, refused};
ghost use Rattle.tame_local.specs.Registries.{AreRead, file_checked, files_checked, located_checked};

use crate::crate_files::crate_file_components;
use crate::digests::other_digest;
use crate::faults::no_version;
use crate::file_digests::digest_at;
use crate::indexes::LocalIndex;
use crate::reading::ReadFiles;
use std::alloc::Global;
use std::collections::BTreeSet;
use tame_names::{Error, Files, KrateName, Text, join};

/// Checks the file of a name and a version against the index.
#[tactic(auto, using(crate::proofs::FileDigests::checked_by))]
fn check_parts<F: Files>(
    alloc: Global,
    files: &mut F,
    index: &LocalIndex,
    read: &mut ReadFiles,
    path: &str,
    name: KrateName<'_>,
    version: &str,
) -> Result<(), Error>
    ensures ok { F.tells → AreRead (F.host files.old) read.old.krates → OnOk result
        (located_checked (F.host files.old) index.now.path path.now
        (text_of name.entry, version.now) ≡ Ok tt) }
    ensures refused { F.tells → AreRead (F.host files.old) read.old.krates
        → IfErr result (λ e. IsTrue (is_told e)
        → located_checked (F.host files.old) index.now.path path.now
        (text_of name.entry, version.now) ≡ Err (refused e)) }
    ensures kept { F.tells → AreRead (F.host files.old) read.old.krates
        → AreRead (F.host files.old) read.new.krates }
    ensures only { IfErr result IsRegistryError }
    ensures cause { HasFileCause (F.faults files.old) (F.faults files.new) result }
    ensures failed { F.tells → AreRead (F.host files.old) read.old.krates → AddsFailed
        (IsPartsCall (F.host files.old) index.now.path path.now
        (text_of name.entry, version.now))
        (F.failed files.old) (F.failed files.new) result }
    ensures same { F.tells → F.host files.new ≡ F.host files.old }
{
    let index_file = index.krate_path(alloc, name)?;
    let Some(sum) = read.sum_at(alloc, files, index_file.as_str(), version)? else {
        return Err(no_version(alloc, name.as_str(), version));
    };
    let digest = digest_at(alloc, files, path)?;
    if digest == sum.0 {
        Ok(())
    } else {
        Err(other_digest(alloc, name.as_str(), version))
    }
}

/// Checks a crate file in a folder against the index.
fn check_file<F: Files>(
    alloc: Global,
    files: &mut F,
    index: &LocalIndex,
    read: &mut ReadFiles,
    folder: &str,
    file: &str,
) -> Result<(), Error>
    ensures ok { F.tells → AreRead (F.host files.old) read.old.krates → OnOk result
        (file_checked (F.host files.old) index.now.path folder.now file.now ≡ Ok tt) }
    ensures refused { F.tells → AreRead (F.host files.old) read.old.krates
        → IfErr result (λ e. IsTrue (is_told e)
        → file_checked (F.host files.old) index.now.path folder.now file.now ≡ Err (refused e)) }
    ensures kept { F.tells → AreRead (F.host files.old) read.old.krates
        → AreRead (F.host files.old) read.new.krates }
    ensures only { IfErr result IsRegistryError }
    ensures cause { HasFileCause (F.faults files.old) (F.faults files.new) result }
    ensures failed { F.tells → AreRead (F.host files.old) read.old.krates → AddsFailed
        (IsFileCall (F.host files.old) index.now.path folder.now file.now)
        (F.failed files.old) (F.failed files.new) result }
    ensures same { F.tells → F.host files.new ≡ F.host files.old }
{
    let Some((name, version)) = crate_file_components(file) else {
        return Ok(());
    };
    let name = match KrateName::try_from(name) {
        Ok(name) => name,
        Err(why) => return Err(Error::InvalidKrateName(why)),
    };
    let path = join(alloc, folder, file)?;
    check_parts(alloc, files, index, read, path.as_str(), name, version)
}

/// Checks crate files in a folder against the index, one after another.
pub(crate) fn check_files<F: Files>(
    alloc: Global,
    files: &mut F,
    index: &LocalIndex,
    folder: &str,
    names: &BTreeSet<Text>,
) -> Result<(), Error>
    ensures ok { F.tells → OnOk result
        (files_checked (F.host files.old) index.now.path folder.now names.now.keys ≡ Ok tt) }
    ensures refused { F.tells → IfErr result (λ e. IsTrue (is_told e)
        → files_checked (F.host files.old) index.now.path folder.now names.now.keys
        ≡ Err (refused e)) }
    ensures only { IfErr result IsRegistryError }
    ensures cause { HasFileCause (F.faults files.old) (F.faults files.new) result }
    ensures failed { F.tells → AddsFailed
        (IsFilesCall (F.host files.old) index.now.path folder.now names.now.keys)
        (F.failed files.old) (F.failed files.new) result }
    ensures same { F.tells → F.host files.new ≡ F.host files.old }
{
    let mut read = ReadFiles::new(alloc);
    for name in names.iter() {
        check_file(alloc, files, index, &mut read, folder, name.as_str())?;
    }
    Ok(())
}
