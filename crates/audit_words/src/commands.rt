//! What the arguments of the command say.
ghost use Rattle.std.specs.Prelude.{◌≡◌, option_map};

use audit_settings::AuditCommand;
use tame_names::{Items, Text};

/// The options of `fix`.
#[derive(Debug, Drop, PartialEq, Eq)]
pub struct FixCommand {
    /// The lockfile, if one is named after `fix`.
    pub file: Option<Text>,
    /// Nothing is to be changed.
    pub dry_run: bool,
}

impl FixCommand {
    /// The lockfile that is named after `fix`.
    pub fn cargo_lock_path(&self) -> Option<&str>
        ensures { option_map (λ path. path.now) result ≡ self.now.file }
    {
        match &self.file {
            None => None,
            Some(path) => Some(path.as_str()),
        }
    }
}

/// The options and the paths of `bin`.
#[derive(Debug, Drop, PartialEq, Eq)]
pub struct BinCommand {
    /// How many bytes a file may have, 0 for any number; if none is given, the default applies.
    pub max_binary_size: Option<u64>,
    /// How many bytes its lockfile may have; if none is given, the default applies.
    pub audit_data_size_limit: Option<u64>,
    /// The programs, one at least, in their order.
    pub binary_paths: Items<Text>,
}

/// The folders of `vendor`.
#[derive(Debug, Drop, PartialEq, Eq)]
pub struct VendorCommand {
    /// The folder of the crate files, without slashes at its end but for `/` itself.
    pub crates: Text,
    /// The folder of the registry to create, likewise.
    pub to: Text,
}

/// What is to be done.
#[derive(Debug, Drop, PartialEq, Eq)]
pub enum Command {
    /// Print the help text.
    Help,
    /// Print the version.
    Version,
    /// Audit a lockfile.
    Audit(AuditCommand),
    /// Audit a lockfile and update what is vulnerable.
    Fix(AuditCommand, FixCommand),
    /// Audit programs.
    Bin(AuditCommand, BinCommand),
    /// Audit a lockfile and report which version each vulnerable package may go to.
    Plan(AuditCommand),
    /// Audit a lockfile and report what the baseline at this path doesn't have.
    Baseline(AuditCommand, Text),
    /// Audit a lockfile and write what was found as the baseline at this path.
    WriteBaseline(AuditCommand, Text),
    /// Audit a lockfile and create a local registry of its packages.
    Vendor(AuditCommand, VendorCommand),
    /// Make a world of so many packages, 1 to 5,000, and audit it twice.
    Generate(u64),
}

/// Why the arguments are no command.
#[derive(Clone, Copy, Debug, PartialEq, Eq)]
pub enum WordsFault {
    /// The position of the first word that breaks a rule, from 0. A missing value has the position
    /// of its option, a missing `audit` or path the number of words.
    Usage { place: usize },
    /// Out of memory.
    NoMemory,
}
