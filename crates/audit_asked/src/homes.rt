//! The folder of cargo's home, if it is known.
ghost use Rattle.std.specs.Prelude.{◌≡◌, Ok, Err, IfOk, IfErr};
ghost use Rattle.audit_asked.specs.Calls.{AddsFailed, AsksHome, HasFileCause};
ghost use Rattle.audit_asked.specs.Settings as spec;
ghost use Rattle.audit_asked.specs.Refusals.{IsCallFault};

use crate::faults::AskFault;
use std::alloc::Global;
use tame_location::cargo_home;
use tame_names::{Error, Files, IoKind, Text, plain_path};

/// The folder of cargo's home, without slashes at its end; nothing if a variable isn't UTF-8 or
/// none names it.
pub(crate) fn known_home<F: Files>(alloc: Global, files: &mut F) -> Result<Option<Text>, AskFault>
    ensures ok { F.tells → IfOk result (λ home. home ≡ spec.known_home (F.host files.old)) }
    ensures only { IfErr result IsCallFault }
    ensures cause { HasFileCause (F.faults files.old) (F.faults files.new) result }
    ensures failed { F.tells → AddsFailed (AsksHome (F.host files.old))
        (F.failed files.old) (F.failed files.new) result }
    ensures same { F.tells → F.host files.new ≡ F.host files.old }
{
    let path = Text::of(alloc, "cargo home")?;
    match cargo_home(alloc, files) {
        Ok(home) => Ok(Some(Text::of(alloc, plain_path(home.as_str()))?)),
        Err(Error::Io(IoKind::Failed)) => Err(AskFault::File { path }),
        Err(Error::NoMemory) => Err(AskFault::NoMemory),
        Err(_) => Ok(None),
    }
}
