//! Building local registries.
ghost use Rattle.std.specs.Prelude.{◌≡◌, ◌⊎◌, ◌<◌, ◌+◌, ◌-◌, ◌^◌, [], ◌∷◌, length, unwrap_or, min, Ok, Err, IfOk, IfErr, OnOk, IsTrue};
ghost use Rattle.tame_names.specs.Changes.{AreFolders};
ghost use Rattle.tame_names.specs.KrateNames.{text_of};
ghost use Rattle.tame_names.specs.Paths as paths_spec;
ghost use Rattle.tame_names.specs.declared.host.FileCall.TheVariants as FileCall;
ghost use Rattle.tame_records.specs.Written.{json_lines};
ghost use Rattle.tame_sparse.specs.Git.{first_name};
ghost use Rattle.tame_local.specs.Builders.{Changes, ChangesAll, IsCreateError, IsInsertError, absent_at, crates_made, created, free_at, inserted, insertable, size_of};
ghost use Rattle.tame_local.specs.Builders as spec;
ghost use Rattle.tame_local.specs.Calls.{AddsFailed, HasFileCause, IsCallOn, IsCreateCall, IsFolderCall, IsFreeCall, IsCreatesCall, IsInsertCall, IsRegistryCall, IsWriteCall};
ghost use Rattle.tame_local.specs.CrateFiles.{crate_file};
ghost use Rattle.tame_local.specs.Refusals.{IsFailedError, IsRegistryError, is_told, refused};
ghost use Rattle.tame_local.specs.Registries.{index_file, index_of, registry_at};

use crate::digests::ValidKrate;
use crate::faults::failed;
use crate::registries::LocalRegistry;
use std::alloc::Global;
use tame_names::{
    Error, Files, IoKind, Items, KrateName, MemSink, NoMemory, PathKind, Text, join, parent,
};
use tame_records::IndexKrate;

/// Builds a local registry in a folder. After a refusal the files written so far stay, and it can
/// continue.
#[derive(Debug, Drop)]
pub struct LocalRegistryBuilder {
    path: Text,
}

/// Checks that nothing is at a path, or an empty folder.
fn check_free<F: Files>(alloc: Global, files: &mut F, path: &str) -> Result<(), Error>
    ensures ok { F.tells → OnOk result
        (free_at path.now ((F.host files.old).stands path.now) ≡ Ok tt) }
    ensures refused { F.tells → IfErr result (λ e. IsTrue (is_told e)
        → free_at path.now ((F.host files.old).stands path.now) ≡ Err (refused e)) }
    ensures only { IfErr result IsCreateError }
    ensures cause { HasFileCause (F.faults files.old) (F.faults files.new) result }
    ensures failed { F.tells → AddsFailed (IsFreeCall (F.host files.old) path.now)
        (F.failed files.old) (F.failed files.new) result }
    ensures same { F.tells → F.host files.new ≡ F.host files.old }
{
    let copy = Text::of(alloc, path)?;
    match files.kind(path) {
        Ok(PathKind::Absent) => return Ok(()),
        Ok(PathKind::Folder) => {}
        Ok(PathKind::File | PathKind::Other) => {
            return Err(Error::IoPath(IoKind::NotADirectory, copy));
        }
        Err(fault) => return Err(failed(fault, copy)),
    }
    match files.list(alloc, path) {
        Ok(Some(entries)) => {
            if entries.is_empty() {
                Ok(())
            } else {
                let count = entries.len() as u64;
                Err(Error::IoPath(IoKind::AlreadyExists(count), copy))
            }
        }
        Ok(None) => Err(Error::IoPath(IoKind::NotADirectory, copy)),
        Err(fault) => Err(failed(fault, copy)),
    }
}

/// Creates a folder, and those on the way to it; an error has the path for which it is created.
fn make_folder<F: Files>(
    alloc: Global,
    files: &mut F,
    folder: &str,
    wanted: &str,
) -> Result<(), Error>
    requires { (folder.now ≡ wanted.now)
        ⊎ (folder.now ≡ unwrap_or (paths_spec.parent wanted.now) []) }
    ensures made { F.tells → Changes (spec.Makes folder.now) (F.host files.old)
        (F.host files.new) result }
    ensures possible { F.tells → OnOk result
        (AreFolders (paths_spec.ways_to folder.now) (F.host files.old).stands) }
    ensures only { IfErr result IsFailedError }
    ensures cause { HasFileCause (F.faults files.old) (F.faults files.new) result }
    ensures failed { F.tells → AddsFailed (IsFolderCall folder.now wanted.now)
        (F.failed files.old) (F.failed files.new) result }
{
    let copy = Text::of(alloc, wanted)?;
    match files.make_dirs(folder) {
        Ok(()) => Ok(()),
        Err(fault) => Err(failed(fault, copy)),
    }
}

/// Creates a file.
fn make_file<F: Files>(alloc: Global, files: &mut F, path: &str, bytes: &[u8]) -> Result<(), Error>
    ensures made { F.tells → Changes (spec.Creates path.now bytes.now) (F.host files.old)
        (F.host files.new) result }
    ensures only { IfErr result IsFailedError }
    ensures cause { HasFileCause (F.faults files.old) (F.faults files.new) result }
    ensures failed { F.tells → AddsFailed (IsCallOn FileCall.Create path.now)
        (F.failed files.old) (F.failed files.new) result }
{
    let copy = Text::of(alloc, path)?;
    match files.create(path, bytes) {
        Ok(()) => Ok(()),
        Err(fault) => Err(failed(fault, copy)),
    }
}

/// Checks that nothing is at the index file of a crate.
fn check_absent<F: Files>(alloc: Global, files: &mut F, path: &str) -> Result<(), Error>
    ensures ok { F.tells → OnOk result
        (absent_at path.now ((F.host files.old).stands path.now) ≡ Ok tt) }
    ensures refused { F.tells → IfErr result (λ e. IsTrue (is_told e)
        → absent_at path.now ((F.host files.old).stands path.now) ≡ Err (refused e)) }
    ensures only { IfErr result IsInsertError }
    ensures cause { HasFileCause (F.faults files.old) (F.faults files.new) result }
    ensures failed { F.tells → AddsFailed (IsCallOn FileCall.Kind path.now)
        (F.failed files.old) (F.failed files.new) result }
    ensures same { F.tells → F.host files.new ≡ F.host files.old }
{
    let copy = Text::of(alloc, path)?;
    match files.kind(path) {
        Ok(PathKind::Absent) => Ok(()),
        Ok(PathKind::File | PathKind::Folder | PathKind::Other) => {
            Err(Error::IoPath(IoKind::AlreadyExists(1), copy))
        }
        Err(fault) => Err(failed(fault, copy)),
    }
}

/// The name of the first version.
fn name_of(krate: &IndexKrate) -> &str
    requires { 0 < length krate.now.versions }
    ensures { result.now ≡ first_name krate.now.versions }
{
    krate.name()
}

/// The lines of the versions of a crate.
fn lines_of(alloc: Global, krate: &IndexKrate) -> Result<MemSink, NoMemory>
    ensures { IfOk result (λ sink. sink.bytes.items ≡ json_lines krate.now.versions) }
{
    let mut sink = MemSink::new(alloc, Items::new(alloc));
    match krate.write_json_lines(alloc, &mut sink) {
        Ok(_) => Ok(sink),
        Err(_) => Err(NoMemory),
    }
}

/// The path of the file of a version in a registry.
fn crate_path(alloc: Global, registry: &str, name: &str, version: &str) -> Result<Text, NoMemory>
    ensures { IfOk result (λ path. path
        ≡ paths_spec.join registry.now (crate_file name.now version.now)) }
{
    let mut file = String::from_str(alloc, name)?;
    file.push('-')?;
    file.push_str(version)?;
    file.push_str(".crate")?;
    join(alloc, registry, file.as_str())
}

/// Creates the file of a version in a registry, and answers its number of bytes.
fn make_crate_file<F: Files>(
    alloc: Global,
    files: &mut F,
    registry: &str,
    krate: &ValidKrate<'_>,
) -> Result<u64, Error>
    ensures made { F.tells → Changes (spec.crate_made registry.now krate.now)
        (F.host files.old) (F.host files.new) result }
    ensures count { IfOk result (λ n. n ≡ length krate.now.buff) }
    ensures only { IfErr result IsFailedError }
    ensures cause { HasFileCause (F.faults files.old) (F.faults files.new) result }
    ensures failed { F.tells → AddsFailed
        (IsCreatesCall (spec.crate_made registry.now krate.now ∷ []))
        (F.failed files.old) (F.failed files.new) result }
{
    let bytes = krate.bytes();
    let version = krate.version();
    let path = crate_path(
        alloc,
        registry,
        version.name.as_str(),
        version.version.as_str(),
    )?;
    make_file(alloc, files, path.as_str(), bytes)?;
    Ok(bytes.len() as u64)
}

/// Creates the files of versions in a registry, one after another, and answers `front` plus their
/// number of bytes.
fn make_crate_files<F: Files>(
    alloc: Global,
    files: &mut F,
    registry: &str,
    krates: &[ValidKrate<'_>],
    front: u64,
) -> Result<u64, Error>
    ensures made { F.tells → ChangesAll (crates_made registry.now krates.now)
        (F.host files.old) (F.host files.new) result }
    ensures count { IfOk result (λ n. n
        ≡ min (front + size_of (crates_made registry.now krates.now)) (2 ^ 64 - 1)) }
    ensures only { IfErr result IsFailedError }
    ensures cause { HasFileCause (F.faults files.old) (F.faults files.new) result }
    ensures failed { F.tells → AddsFailed
        (IsCreatesCall (crates_made registry.now krates.now))
        (F.failed files.old) (F.failed files.new) result }
{
    let mut written = front;
    for krate in krates {
        match make_crate_file(alloc, files, registry, krate) {
            Ok(count) => written = written.saturating_add(count),
            Err(error) => return Err(error),
        }
    }
    Ok(written)
}

impl LocalRegistryBuilder {
    /// A builder of a registry in a folder, which must be empty or absent; its folder `index` is
    /// created. `IoPath`: `AlreadyExists` with the number of entries if there are any,
    /// `NotADirectory` if something else is there, `Failed` if the files failed.
    pub fn create<F: Files>(
        alloc: Global,
        files: &mut F,
        path: Text,
    ) -> Result<LocalRegistryBuilder, Error>
        ensures path { IfOk result (λ builder. builder.path ≡ path) }
        ensures free { F.tells → OnOk result
            (free_at path ((F.host files.old).stands path) ≡ Ok tt) }
        ensures refused { F.tells → IfErr result (λ e. IsTrue (is_told e)
            → free_at path ((F.host files.old).stands path) ≡ Err (refused e)) }
        ensures made { F.tells → Changes (created path) (F.host files.old)
            (F.host files.new) result }
        ensures possible { F.tells → OnOk result
            (AreFolders (paths_spec.ways_to (index_of path)) (F.host files.old).stands) }
        ensures unmade { F.tells → IfErr result (λ e. IsTrue (is_told e)
            → F.host files.new ≡ F.host files.old) }
        ensures only { IfErr result IsCreateError }
        ensures cause { HasFileCause (F.faults files.old) (F.faults files.new) result }
        ensures failed { F.tells → AddsFailed (IsCreateCall (F.host files.old) path)
            (F.failed files.old) (F.failed files.new) result }
    {
        check_free(alloc, files, path.as_str())?;
        let index = join(alloc, path.as_str(), "index")?;
        make_folder(alloc, files, index.as_str(), index.as_str())?;
        Ok(LocalRegistryBuilder { path })
    }

    /// The folder of the registry.
    pub fn path(&self) -> &str
        ensures { result.now ≡ self.now.path }
    {
        self.path.as_str()
    }

    /// Adds a crate: its index file with the lines of its versions, at least one, and then the
    /// crate files, in their order. Answers the number of bytes written, at most 2^64 - 1.
    ///
    /// `InvalidKrateName` if the first version's name is none; `IoPath` of the index file:
    /// `AlreadyExists(1)` if something is there; `IoPath(Failed)` if the files failed.
    pub fn insert<F: Files>(
        &self,
        alloc: Global,
        files: &mut F,
        krate: &IndexKrate,
        krates: &[ValidKrate<'_>],
    ) -> Result<u64, Error>
        requires { 0 < length krate.now.versions }
        ensures insertable { F.tells → OnOk result (insertable self.now.path
            (first_name krate.now.versions) (F.host files.old) ≡ Ok tt) }
        ensures refused { F.tells → IfErr result (λ e. IsTrue (is_told e)
            → insertable self.now.path (first_name krate.now.versions) (F.host files.old)
            ≡ Err (refused e)) }
        ensures made { F.tells → ChangesAll (inserted self.now.path (first_name krate.now.versions)
            krate.now.versions krates.now) (F.host files.old) (F.host files.new) result }
        ensures unmade { F.tells → IfErr result (λ e. IsTrue (is_told e)
            → F.host files.new ≡ F.host files.old) }
        ensures count { IfOk result (λ n. n ≡ min (size_of (inserted self.now.path
            (first_name krate.now.versions) krate.now.versions krates.now)) (2 ^ 64 - 1)) }
        ensures only { IfErr result IsInsertError }
        ensures cause { HasFileCause (F.faults files.old) (F.faults files.new) result }
        ensures failed { F.tells → AddsFailed
            (IsInsertCall (F.host files.old) self.now.path krate.now.versions krates.now)
            (F.failed files.old) (F.failed files.new) result }
    {
        let name = match KrateName::try_from(name_of(krate)) {
            Ok(name) => name,
            Err(why) => return Err(Error::InvalidKrateName(why)),
        };
        let file = self.index_file(alloc, name)?;
        check_absent(alloc, files, file.as_str())?;
        let lines = lines_of(alloc, krate)?;
        self.write(alloc, files, file.as_str(), lines.bytes(), krates)
    }

    /// The path of the index file of a crate.
    fn index_file(&self, alloc: Global, name: KrateName<'_>) -> Result<Text, NoMemory>
        ensures { IfOk result (λ file. file
            ≡ index_file (index_of self.now.path) (text_of name.entry)) }
    {
        let index = join(alloc, self.path.as_str(), "index")?;
        let relative = name.relative_path(alloc, None)?;
        join(alloc, index.as_str(), relative.as_str())
    }

    /// Writes an index file and crate files, and answers their number of bytes.
    fn write<F: Files>(
        &self,
        alloc: Global,
        files: &mut F,
        file: &str,
        lines: &[u8],
        krates: &[ValidKrate<'_>],
    ) -> Result<u64, Error>
        ensures made { F.tells → ChangesAll
            (spec.written self.now.path file.now lines.now krates.now)
            (F.host files.old) (F.host files.new) result }
        ensures count { IfOk result (λ n. n ≡ min (size_of (spec.written self.now.path file.now
            lines.now krates.now)) (2 ^ 64 - 1)) }
        ensures only { IfErr result IsFailedError }
        ensures cause { HasFileCause (F.faults files.old) (F.faults files.new) result }
        ensures failed { F.tells → AddsFailed (IsWriteCall file.now
            (spec.written self.now.path file.now lines.now krates.now))
            (F.failed files.old) (F.failed files.new) result }
    {
        let folder = parent(file).unwrap_or("");
        make_folder(alloc, files, folder, file)?;
        make_file(alloc, files, file, lines)?;
        make_crate_files(alloc, files, self.path.as_str(), krates, lines.len() as u64)
    }

    /// Opens the registry, and validates it if that is wanted, as `LocalRegistry::open`; the files
    /// stay.
    pub fn finalize<F: Files>(
        self,
        alloc: Global,
        files: &mut F,
        validate: bool,
    ) -> Result<LocalRegistry, Error>
        ensures ok { F.tells → IfOk result (λ registry.
            registry_at (F.host files.old) self.path validate ≡ Ok registry.index.path) }
        ensures refused { F.tells → IfErr result (λ e. IsTrue (is_told e)
            → registry_at (F.host files.old) self.path validate ≡ Err (refused e)) }
        ensures only { IfErr result IsRegistryError }
        ensures cause { HasFileCause (F.faults files.old) (F.faults files.new) result }
        ensures failed { F.tells → AddsFailed (IsRegistryCall (F.host files.old) self.path validate)
            (F.failed files.old) (F.failed files.new) result }
        ensures same { F.tells → F.host files.new ≡ F.host files.old }
    {
        LocalRegistry::open(alloc, files, self.path, validate)
    }
}
