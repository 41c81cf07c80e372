//! The names in folders, in byte order.
ghost use Rattle.std.specs.Prelude.{◌≡◌, [], Ok, Err, IfOk, IfErr, option_map};
ghost use Rattle.tame_names.specs.declared.host.FileCall.TheVariants as FileCall;
ghost use Rattle.audit_asked.specs.Advisories.{names_with};
ghost use Rattle.audit_asked.specs.Advisories as spec;
ghost use Rattle.audit_asked.specs.Calls.{AddsFailed, HasFileCause, IsCallOn};
ghost use Rattle.audit_asked.specs.Refusals.{IsCallFault};

use crate::faults::AskFault;
use std::alloc::Global;
use std::collections::BTreeSet;
use tame_names::{FileFault, Files, Listed, NoMemory, Text};

/// The entries of a folder that are wanted.
#[derive(Clone, Copy, Debug, PartialEq, Eq)]
pub(crate) enum Wanted {
    /// Those that are no files.
    Folders,
    /// The files that end with `.md`.
    Advisories,
}

fn is_advisory_name(name: &str) -> bool
    ensures { result ≡ spec.is_advisory_name name.now }
{
    name.as_bytes().ends_with(b".md")
}

/// The name of an entry, if it is wanted and UTF-8.
fn wanted_name(wanted: Wanted, entry: &Listed) -> Option<&Text>
    ensures { option_map (λ name. name.now) result ≡ spec.wanted_name wanted entry.now }
{
    let name = entry.name.as_ref()?;
    let is_wanted = match wanted {
        Wanted::Folders => !entry.file,
        Wanted::Advisories => entry.file && is_advisory_name(name.as_str()),
    };
    if is_wanted { Some(name) } else { None }
}

/// The names of the entries that are wanted, in byte order.
fn names_of(alloc: Global, wanted: Wanted, entries: &[Listed]) -> Result<BTreeSet<Text>, NoMemory>
    ensures { IfOk result (λ names. names.keys ≡ names_with wanted [] entries.now) }
{
    let mut names = BTreeSet::new(alloc);
    for entry in entries {
        if let Some(name) = wanted_name(wanted, entry) {
            let _new = names.insert(name.try_clone(alloc)?)?;
        }
    }
    Ok(names)
}

/// The wanted names in the folder at a path, in byte order; none if no folder is there.
pub(crate) fn names_at<F: Files>(
    alloc: Global,
    files: &mut F,
    wanted: Wanted,
    path: &str,
) -> Result<BTreeSet<Text>, AskFault>
    ensures ok { F.tells → IfOk result (λ names.
        names.keys ≡ spec.names_at wanted (F.host files.old) path.now) }
    ensures only { IfErr result IsCallFault }
    ensures cause { HasFileCause (F.faults files.old) (F.faults files.new) result }
    ensures failed { F.tells → AddsFailed (IsCallOn FileCall.List path.now)
        (F.failed files.old) (F.failed files.new) result }
    ensures same { F.tells → F.host files.new ≡ F.host files.old }
{
    let copy = Text::of(alloc, path)?;
    match files.list(alloc, path) {
        Ok(None) => Ok(BTreeSet::new(alloc)),
        Ok(Some(entries)) => Ok(names_of(alloc, wanted, entries.as_slice())?),
        Err(FileFault::Failed) => Err(AskFault::File { path: copy }),
        Err(FileFault::NoMemory) => Err(AskFault::NoMemory),
    }
}
