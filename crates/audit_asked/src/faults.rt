//! Why the host doesn't give what is asked.
ghost use Rattle.std.specs.Prelude.{◌≡◌};

use audit_advisory::AdvisoryFault;
use audit_settings::SettingsFault;
use tame_names::{NoMemory, Text};

/// Why a host doesn't give what is asked. No reason that a fault holds is `NoMemory`.
#[derive(Debug, Drop)]
pub enum AskFault {
    /// The settings file is refused, for this reason.
    Settings(SettingsFault),
    /// Nothing is at the path.
    Missing { path: Text },
    /// The file isn't UTF-8.
    NotUtf8 { path: Text },
    /// The file has this number of bytes, which is too many.
    TooLarge { path: Text, len: u64 },
    /// A call on the path failed; it is `cargo home` if the folder of cargo's home was asked for.
    File { path: Text },
    /// The advisory with this number, counted from 0, is refused, for this reason.
    Advisory { n: usize, fault: AdvisoryFault },
    /// This line of the baseline, counted from 0, is no finding.
    Baseline { line: u64 },
    /// The start to generate a lockfile ended with this status, which isn't 0.
    Generate { status: i32 },
    /// The program to generate a lockfile couldn't be started.
    Start,
    /// Out of memory.
    NoMemory,
}

impl From<NoMemory> for AskFault {
    ghost use Rattle.audit_asked.specs.declared.faults.AskFault.TheVariants.{NoMemory as no_memory};

    ghost from_gives = { λ _ e. e ≡ no_memory };

    fn from(_: NoMemory) -> AskFault {
        AskFault::NoMemory
    }
}
