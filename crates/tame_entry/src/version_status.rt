//! What the lines of a crate say about a version.
ghost use Rattle.std.specs.Prelude.{◌≡◌, IfOk, map};
ghost use Rattle.tame_entry.specs.JsonLines.{lines_of};
ghost use Rattle.tame_entry.specs.VersionStatuses.{version_flags};
ghost use Rattle.tame_entry.specs.VersionStatuses as spec;

use crate::iterating::IndexEntryIter;
use crate::json_lines::JsonLines;
use std::alloc::Global;
use tame_names::{Items, NoMemory};
use tame_records::{VersionFlag, read_version_flag};

/// What lines say about a version.
#[derive(Clone, Copy, Debug, PartialEq, Eq)]
pub enum VersionStatus {
    /// Some line has no record.
    Unread,
    /// No record has the version.
    NoVersion,
    /// The yanked flag of the last record that has the version.
    Flag(bool),
}

/// Version and flag of each line; nothing if some line has no record.
pub fn read_version_flags(
    alloc: Global,
    lines: JsonLines<'_>,
) -> Result<Option<Items<VersionFlag>>, NoMemory>
    ensures { IfOk result (λ flags. flags ≡ version_flags (lines_of lines.entry)) }
{
    let mut flags = Items::new(alloc);
    for line in lines.lines() {
        match read_version_flag(alloc, line)? {
            Some(flag) => flags.add(flag)?,
            None => return Ok(None),
        }
    }
    Ok(Some(flags))
}

/// Version and flag of each item's line; nothing if some line has no record.
pub fn read_item_version_flags(
    alloc: Global,
    items: IndexEntryIter<'_>,
) -> Result<Option<Items<VersionFlag>>, NoMemory>
    ensures { IfOk result (λ flags. flags ≡ version_flags (map (λ i. i.1) items.entry)) }
{
    let mut flags = Items::new(alloc);
    for item in items {
        match read_version_flag(alloc, item.json)? {
            Some(flag) => flags.add(flag)?,
            None => return Ok(None),
        }
    }
    Ok(Some(flags))
}

/// The flag of the last of these that has the version.
fn last_flag(flags: &[VersionFlag], version: &str) -> Option<bool>
    ensures { result ≡ spec.last_flag flags.now version.now }
{
    let mut found = None;
    for flag in flags {
        if flag.version.as_str() == version {
            found = Some(flag.yanked);
        }
    }
    found
}

/// What lines with these versions and flags say about a version.
pub fn status_among(flags: &Option<Items<VersionFlag>>, version: &str) -> VersionStatus
    ensures { result ≡ spec.status_among flags.now version.now }
{
    match flags {
        None => VersionStatus::Unread,
        Some(flags) => match last_flag(flags.as_slice(), version) {
            None => VersionStatus::NoVersion,
            Some(flag) => VersionStatus::Flag(flag),
        },
    }
}
