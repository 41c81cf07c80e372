//! Local registries.
ghost use Rattle.std.specs.Prelude.{◌≡◌, Ok, Err, IfOk, IfErr, OnOk, IsTrue};
ghost use Rattle.tame_local.specs.Calls.{AddsFailed, HasFileCause, IsRegistryCall, IsValidateCall};
ghost use Rattle.tame_local.specs.Refusals.{IsRegistryError, is_told, refused};
ghost use Rattle.tame_local.specs.Registries.{registry_at, validated};

use crate::faults::failed;
use crate::indexes::LocalIndex;
use crate::listings::{crates_folder, names_at};
use crate::validating::check_files;
use std::alloc::Global;
use tame_names::{Error, Files, IoKind, PathKind, Text, join};

/// A local registry: an index, and next to it the files of its crates.
#[derive(Debug, Drop)]
pub struct LocalRegistry {
    index: LocalIndex,
}

impl LocalRegistry {
    /// The registry at a path, which has its index in the folder `index`; it is validated if that
    /// is wanted, and else nothing in it is looked at.
    ///
    /// `IoPath` of that folder: `NotFound` if nothing is there, `NotADirectory` if something else
    /// is, `Failed` if it can't be looked at. If it is validated, also the errors of `validate` of
    /// this index: then each `IoPath` may also be of an index file, of a crate file, or of the path
    /// itself, which is their folder.
    pub fn open<F: Files>(
        alloc: Global,
        files: &mut F,
        path: Text,
        validate: bool,
    ) -> Result<LocalRegistry, Error>
        ensures ok { F.tells → IfOk result (λ registry.
            registry_at (F.host files.old) path validate ≡ Ok registry.index.path) }
        ensures refused { F.tells → IfErr result (λ e. IsTrue (is_told e)
            → registry_at (F.host files.old) path validate ≡ Err (refused e)) }
        ensures only { IfErr result IsRegistryError }
        ensures cause { HasFileCause (F.faults files.old) (F.faults files.new) result }
        ensures failed { F.tells → AddsFailed (IsRegistryCall (F.host files.old) path validate)
            (F.failed files.old) (F.failed files.new) result }
        ensures same { F.tells → F.host files.new ≡ F.host files.old }
    {
        let below = join(alloc, path.as_str(), "index")?;
        match files.kind(below.as_str()) {
            Ok(PathKind::Folder) => {
                let index = LocalIndex::at(below);
                if validate {
                    LocalRegistry::validate(alloc, files, &index)?;
                }
                Ok(LocalRegistry { index })
            }
            Ok(PathKind::Absent) => Err(Error::IoPath(IoKind::NotFound, below)),
            Ok(PathKind::File | PathKind::Other) => {
                Err(Error::IoPath(IoKind::NotADirectory, below))
            }
            Err(fault) => Err(failed(fault, below)),
        }
    }

    /// The index of the registry.
    pub fn index(&self) -> &LocalIndex
        ensures { result.now ≡ self.now.index }
    {
        &self.index
    }

    /// Checks that each crate file next to an index has the digest of the first record of its
    /// version, in the byte order of their names.
    ///
    /// The first reason why not: `InvalidKrateName`, `IoPath` of the index file, `Json` or
    /// `NoCrateVersions` of its lines, `Local(MissingVersion)`, `IoPath` of the crate file,
    /// `Local(ChecksumMismatch)`. For a file, `IoPath` is `NotFound` if nothing is there, and
    /// `Failed` if it can't be read. Before all of them `IoPath` of the folder of the crate files,
    /// which is the one above the index: `NotFound` if nothing is there, `NotADirectory` if
    /// something else is, `Failed` if it can't be listed or looked at.
    pub fn validate<F: Files>(alloc: Global, files: &mut F, index: &LocalIndex) -> Result<(), Error>
        ensures ok { F.tells → OnOk result (validated (F.host files.old) index.now.path ≡ Ok tt) }
        ensures refused { F.tells → IfErr result (λ e. IsTrue (is_told e)
            → validated (F.host files.old) index.now.path ≡ Err (refused e)) }
        ensures only { IfErr result IsRegistryError }
        ensures cause { HasFileCause (F.faults files.old) (F.faults files.new) result }
        ensures failed { F.tells → AddsFailed (IsValidateCall (F.host files.old) index.now.path)
            (F.failed files.old) (F.failed files.new) result }
        ensures same { F.tells → F.host files.new ≡ F.host files.old }
    {
        let folder = crates_folder(index.path());
        let names = names_at(alloc, files, folder)?;
        check_files(alloc, files, index, folder, &names)
    }
}
