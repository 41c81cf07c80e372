//! The versions of a crate.
ghost use Rattle.std.specs.Prelude.{◌≡◌, ◌≢◌, ◌⊎◌, ◌<◌, ◌≤◌, ◌-◌, ◌++◌, ◌∷◌, [], ℕ, List, length, slice_get, option_map, Some, None, Ok, Err, IfOk, IfErr};
ghost use Rattle.tame_names.specs.Counts.{CountRose};
ghost use Rattle.tame_names.specs.Pieces.{pieces};
ghost use Rattle.tame_names.specs.declared.host.FileCall.TheVariants as FileCall;
ghost use Rattle.tame_records.specs.Krates.{IsRead, IsReadAt, first_unread, unread};
ghost use Rattle.tame_records.specs.Krates as spec;
ghost use Rattle.tame_records.specs.Lines.{lines, trimmed};
ghost use Rattle.tame_records.specs.declared.versions.IndexVersion.{IndexVersion};

use crate::kept_parts::KeptParts;
use crate::line_faults::LineFault;
use crate::lines::trimmed;
use crate::versions::IndexVersion;
use std::alloc::Global;
use tame_names::{Error, FileFault, Files, IoKind, Items, ReadAnswer, split};

/// The versions of a crate, in the order in which they were published.
#[derive(Debug, Drop, PartialEq, Eq)]
pub struct IndexKrate {
    /// The versions, the one published first at the start.
    pub versions: Items<IndexVersion>,
}

/// The records of the lines of a text; they share their equal parts.
fn records_of(alloc: Global, text: &[u8]) -> Result<Items<IndexVersion>, Error>
    ensures ok { IfOk result (λ vs. (spec.records_of (pieces 10 text.now) ≡ Some vs)
        × (first_unread (pieces 10 text.now) ≡ None)) }
    ensures refused { IfErr result
        (λ e. (e ≡ Error.NoMemory)
        ⊎ (option_map (λ n. Error.Json n) (first_unread (pieces 10 text.now)) ≡ Some e)) }
{
    let mut versions = Items::new(alloc);
    let mut kept = KeptParts::new(alloc);
    for line in split(text, b'\n') {
        match IndexVersion::read_line(alloc, line) {
            Ok(mut version) => {
                kept.share(&mut version)?;
                versions.add(version)?;
            }
            Err(LineFault::Json) => {
                let line = versions.len() as u64;
                return Err(Error::Json { line });
            }
            Err(LineFault::NoMemory) => return Err(Error::NoMemory),
        }
    }
    Ok(versions)
}

impl IndexKrate {
    /// The versions in the index file at a path; `Io(NotFound)` if nothing is there,
    /// `Io(Failed)` if it can't be read, else as `from_slice`.
    pub fn new<F: Files>(alloc: Global, files: &mut F, path: &str) -> Result<IndexKrate, Error>
        ensures read { F.tells → IsReadAt ((F.host files.old).stands path.now) result }
        ensures failed { result ≡ Err (Error.Io IoKind.Failed)
            → CountRose (F.faults files.old) (F.faults files.new) }
        ensures told { F.tells → result ≡ Err (Error.Io IoKind.Failed) → F.failed files.new
            ≡ F.failed files.old
            ++ record { call = FileCall.Read; path = Some path.now } ∷ [] }
        ensures untold { F.tells → result ≢ Err (Error.Io IoKind.Failed)
            → F.failed files.new ≡ F.failed files.old }
        ensures later { F.faults files.old ≤ F.faults files.new }
        ensures same { F.tells → F.host files.new ≡ F.host files.old }
    {
        match files.read(alloc, path, u64::MAX) {
            Ok(ReadAnswer::Whole(bytes)) => IndexKrate::from_slice(alloc, bytes.as_slice()),
            Ok(ReadAnswer::Absent) => Err(Error::Io(IoKind::NotFound)),
            Ok(ReadAnswer::Over(_)) => unreachable!(),
            Err(FileFault::Failed) => Err(Error::Io(IoKind::Failed)),
            Err(FileFault::NoMemory) => Err(Error::NoMemory),
        }
    }

    /// The versions in the lines of a body, without the newlines at its end. A body without a
    /// line is `NoCrateVersions`; else `Json` names the first line that has no record.
    pub fn from_slice(alloc: Global, bytes: &[u8]) -> Result<IndexKrate, Error>
        ensures { IsRead bytes.now result }
    {
        let text = trimmed(bytes);
        if text.is_empty() {
            return Err(Error::NoCrateVersions);
        }
        let versions = records_of(alloc, text)?;
        Ok(IndexKrate { versions })
    }

    /// The name of the first version. There must be one.
    pub fn name(&self) -> &str
        requires { 0 < length self.now.versions }
        ensures { (first : IndexVersion) → slice_get self.now.versions 0 ≡ Some first
            → result.now ≡ first.name }
    {
        self.earliest_version().name.as_str()
    }

    /// The first version. There must be one.
    pub fn earliest_version(&self) -> &IndexVersion
        requires { 0 < length self.now.versions }
        ensures { slice_get self.now.versions 0 ≡ Some result.now }
    {
        &self.versions.as_slice()[0]
    }

    /// The last version. There must be one.
    pub fn most_recent_version(&self) -> &IndexVersion
        requires { 0 < length self.now.versions }
        ensures { slice_get self.now.versions (length self.now.versions - 1) ≡ Some result.now }
    {
        let versions = self.versions.as_slice();
        &versions[versions.len() - 1]
    }
}
