//! Why a run ends without its output.
ghost use Rattle.std.specs.Prelude.{◌≡◌};
ghost use Rattle.audit_remedies.specs.Faults.{by_ask, by_print};

use audit_advisory::AdvisoryFault;
use audit_asked::AskFault;
use audit_lock::LockfileFault;
use audit_output::PrintFault;
use audit_settings::SettingsFault;
use tame_names::{NoMemory, Text};
use vendor_registry::VendorFault;

/// Why a run ended without its output. The reason that a fault holds is never `NoMemory`.
#[derive(Debug, Drop)]
pub enum RunFault {
    /// The argument at this position, counted from 0, is wrong or missing.
    Usage { place: usize },
    /// The file of settings is refused, for this reason.
    Settings(SettingsFault),
    /// Nothing is at the path.
    Missing { path: Text },
    /// The file isn't UTF-8.
    NotUtf8 { path: Text },
    /// The file has this number of bytes, which is too many.
    TooLarge { path: Text, len: u64 },
    /// A call on the path failed; `cargo home` if the folder of cargo's home was asked for.
    File { path: Text },
    /// The text is no lockfile, for this reason.
    Lockfile(LockfileFault),
    /// The advisory with this number, counted from 0, is refused, for this reason.
    Advisory { n: usize, fault: AdvisoryFault },
    /// This line of the baseline, counted from 0, is no finding.
    Baseline { line: u64 },
    /// No registry of the audit's packages was created, or it wasn't finished, for this reason.
    Vendor(VendorFault),
    /// The output failed.
    Print,
    /// The start that should generate a lockfile ended with this status, which isn't 0.
    Generate { status: i32 },
    /// This number of programs couldn't be started.
    Start { failed: u64 },
    /// Out of memory.
    NoMemory,
}

impl From<NoMemory> for RunFault {
    ghost use Rattle.audit_remedies.specs.declared.faults.RunFault.TheVariants.{NoMemory as no_memory};

    ghost from_gives = { λ _ e. e ≡ no_memory };

    fn from(_: NoMemory) -> RunFault {
        RunFault::NoMemory
    }
}

impl From<PrintFault> for RunFault {
    ghost from_gives = { λ reason e. e ≡ by_print reason };

    fn from(reason: PrintFault) -> RunFault {
        match reason {
            PrintFault::Put => RunFault::Print,
            PrintFault::NoMemory => RunFault::NoMemory,
        }
    }
}

impl From<AskFault> for RunFault {
    ghost from_gives = { λ reason e. e ≡ by_ask reason };

    fn from(reason: AskFault) -> RunFault {
        match reason {
            AskFault::Settings(reason) => RunFault::Settings(reason),
            AskFault::Missing { path } => RunFault::Missing { path },
            AskFault::NotUtf8 { path } => RunFault::NotUtf8 { path },
            AskFault::TooLarge { path, len } => RunFault::TooLarge { path, len },
            AskFault::File { path } => RunFault::File { path },
            AskFault::Advisory { n, fault } => RunFault::Advisory { n, fault },
            AskFault::Baseline { line } => RunFault::Baseline { line },
            AskFault::Generate { status } => RunFault::Generate { status },
            AskFault::Start => RunFault::Start { failed: 1 },
            AskFault::NoMemory => RunFault::NoMemory,
        }
    }
}
