//! What an audit keeps of a line: its version and its flag.
ghost use Rattle.std.specs.Prelude.{◌≡◌, IfOk, option_map};
ghost use Rattle.tame_records.specs.Record.{version_flag, record_of};

use crate::line_faults::LineFault;
use crate::quick_version_flags::quick_version_flag;
use crate::versions::{IndexVersion, VersionFlag};
use std::alloc::Global;
use tame_names::{NoMemory, Text};

/// Version and flag by the record itself, whatever the form of the line.
fn record_version_flag(alloc: Global, line: &[u8]) -> Result<Option<VersionFlag>, NoMemory>
    ensures { IfOk result (λ head. head ≡ option_map version_flag (record_of line.now)) }
{
    match IndexVersion::read_line(alloc, line) {
        Ok(version) => Ok(Some(version.into_version_flag())),
        Err(LineFault::Json) => Ok(None),
        Err(LineFault::NoMemory) => Err(NoMemory),
    }
}

/// Version and flag of the record that a line of the index is, or nothing if it is none.
///
/// A line in the form that indices write is read in one pass, and only its version is copied. Any
/// other line is read as a record.
pub fn read_version_flag(alloc: Global, line: &[u8]) -> Result<Option<VersionFlag>, NoMemory>
    ensures { IfOk result (λ head. head ≡ option_map version_flag (record_of line.now)) }
{
    match quick_version_flag(line) {
        Some((version, yanked)) => Ok(Some(VersionFlag {
            version: Text::of(alloc, version)?,
            yanked,
        })),
        None => record_version_flag(alloc, line),
    }
}
