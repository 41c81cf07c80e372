//! Reading files, index files only once.
ghost use Rattle.std.specs.Prelude.{◌≡◌, ◌⊎◌, ℕ, List, Ok, Err, Some, None, IfOk, IfErr, OnOk, IsSome, IsTrue, option_map};
ghost use Rattle.std.specs.BTreeMap.{get_by_text};
ghost use Rattle.tame_names.specs.Standing.{Host};
ghost use Rattle.tame_names.specs.declared.host.FileCall.TheVariants as FileCall;
ghost use Rattle.tame_local.specs.Calls.{AddsFailed, HasFileCause, IsCallOn};
ghost use Rattle.tame_local.specs.Refusals.{IsReadError, IsRegistryError, and_then, is_told, refused};
ghost use Rattle.tame_local.specs.Registries.{AreRead, record_with, records_at, sum_in};
ghost use Rattle.tame_local.specs.Registries as spec;

use crate::faults::failed;
use std::alloc::Global;
use std::collections::BTreeMap;
use tame_names::{Error, Files, IoKind, NoMemory, ReadAnswer, Text};
use tame_records::{Chksum, IndexKrate, IndexVersion};

/// The bytes of the file at a path. `IoPath`: `NotFound` if nothing is there, `Failed` if it can't
/// be read.
fn bytes_at<F: Files>(alloc: Global, files: &mut F, path: &str) -> Result<Vec<u8>, Error>
    ensures ok { F.tells → IfOk result (λ bytes.
        spec.bytes_at path.now ((F.host files.old).stands path.now) ≡ Ok bytes.items) }
    ensures refused { F.tells → IfErr result (λ e. IsTrue (is_told e)
        → spec.bytes_at path.now ((F.host files.old).stands path.now) ≡ Err (refused e)) }
    ensures only { IfErr result IsReadError }
    ensures cause { HasFileCause (F.faults files.old) (F.faults files.new) result }
    ensures failed { F.tells → AddsFailed (IsCallOn FileCall.Read path.now)
        (F.failed files.old) (F.failed files.new) result }
    ensures same { F.tells → F.host files.new ≡ F.host files.old }
{
    let copy = Text::of(alloc, path)?;
    match files.read(alloc, path, u64::MAX) {
        Ok(ReadAnswer::Whole(bytes)) => Ok(bytes),
        Ok(ReadAnswer::Absent) => Err(Error::IoPath(IoKind::NotFound, copy)),
        Ok(ReadAnswer::Over(_)) => unreachable!(),
        Err(fault) => Err(failed(fault, copy)),
    }
}

/// The records of the lines of an index file.
fn records_in(alloc: Global, body: &[u8]) -> Result<IndexKrate, Error>
    ensures ok { IfOk result (λ krate. spec.records_in body.now ≡ Ok krate.versions) }
    ensures refused { IfErr result (λ e. IsTrue (is_told e)
        → spec.records_in body.now ≡ Err (refused e)) }
    ensures only { IfErr result (λ e. (e ≡ Error.NoMemory)
        ⊎ (IsTrue (is_told e) × IsRegistryError e)) }
{
    IndexKrate::from_slice(alloc, body)
}

/// The first record of a version.
fn record_with<'k>(krate: &'k IndexKrate, version: &str) -> Option<&'k IndexVersion>
    ensures { option_map (λ v. v.now) result
        ≡ record_with version.now krate.now.versions }
{
    krate
        .versions
        .as_slice()
        .iter()
        .find(|record| record.version.as_str() == version)
}

/// The checksum of the first record of a version.
fn sum_in(krate: &IndexKrate, version: &str) -> Option<Chksum>
    ensures { result ≡ sum_in version.now krate.now.versions }
{
    match record_with(krate, version) {
        Some(record) => Some(Chksum(record.checksum.0)),
        None => None,
    }
}

/// The records of the lines of the index file at a path.
fn records_at<F: Files>(alloc: Global, files: &mut F, path: &str) -> Result<IndexKrate, Error>
    ensures ok { F.tells → IfOk result (λ krate.
        records_at (F.host files.old) path.now ≡ Ok krate.versions) }
    ensures refused { F.tells → IfErr result (λ e. IsTrue (is_told e)
        → records_at (F.host files.old) path.now ≡ Err (refused e)) }
    ensures only { IfErr result IsRegistryError }
    ensures cause { HasFileCause (F.faults files.old) (F.faults files.new) result }
    ensures failed { F.tells → AddsFailed (IsCallOn FileCall.Read path.now)
        (F.failed files.old) (F.failed files.new) result }
    ensures same { F.tells → F.host files.new ≡ F.host files.old }
{
    let body = bytes_at(alloc, files, path)?;
    records_in(alloc, body.as_slice())
}

/// The records of index files that were read, by their paths.
#[derive(Drop)]
pub(crate) struct ReadFiles {
    krates: BTreeMap<String, IndexKrate>,
}

impl ReadFiles {
    /// None yet.
    pub(crate) fn new(alloc: Global) -> ReadFiles
        ensures { (path : List ℕ) → get_by_text result.krates path ≡ None }
    {
        ReadFiles {
            krates: BTreeMap::new(alloc),
        }
    }

    /// Keeps the records of the index file at a path.
    fn keep(&mut self, alloc: Global, path: &str, krate: IndexKrate) -> Result<(), NoMemory>
        ensures kept { (host : Host) → AreRead host self.old.krates
            → records_at host path.now ≡ Ok krate.versions → AreRead host self.new.krates }
        ensures there { OnOk result (IsSome (get_by_text self.new.krates path.now)) }
    {
        let key = String::from_str(alloc, path)?;
        match self.krates.insert(key, krate) {
            Ok(_) => Ok(()),
            Err(_) => Err(NoMemory),
        }
    }

    /// The checksum of the first record of a version in the index file at a path. The file is read
    /// unless it was before.
    pub(crate) fn sum_at<F: Files>(
        &mut self,
        alloc: Global,
        files: &mut F,
        path: &str,
        version: &str,
    ) -> Result<Option<Chksum>, Error>
        ensures ok { F.tells → AreRead (F.host files.old) self.old.krates → IfOk result (λ sum.
            and_then (λ records. Ok (sum_in version.now records))
            (records_at (F.host files.old) path.now) ≡ Ok sum) }
        ensures refused { F.tells → AreRead (F.host files.old) self.old.krates
            → IfErr result (λ e. IsTrue (is_told e)
            → records_at (F.host files.old) path.now ≡ Err (refused e)) }
        ensures kept { F.tells → AreRead (F.host files.old) self.old.krates
            → AreRead (F.host files.old) self.new.krates }
        ensures once { IsSome (get_by_text self.old.krates path.now) → files.new ≡ files.old }
        ensures there { OnOk result (IsSome (get_by_text self.new.krates path.now)) }
        ensures only { IfErr result IsRegistryError }
        ensures cause { HasFileCause (F.faults files.old) (F.faults files.new) result }
        ensures failed { F.tells → AddsFailed (IsCallOn FileCall.Read path.now)
            (F.failed files.old) (F.failed files.new) result }
        ensures same { F.tells → F.host files.new ≡ F.host files.old }
    {
        if let Some(krate) = self.krates.get(path) {
            return Ok(sum_in(krate, version));
        }
        let krate = records_at(alloc, files, path)?;
        let sum = sum_in(&krate, version);
        self.keep(alloc, path, krate)?;
        Ok(sum)
    }
}
