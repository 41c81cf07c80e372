//! What is done with the audit of a lockfile.

use audit_words::VendorCommand;
use tame_names::Text;

/// What is done with an audit.
#[derive(Debug, Drop)]
pub enum Remedy {
    /// What was found is reported.
    Report,
    /// Updates are planned and started as well; in a dry run cargo is asked to change nothing.
    Fix { dry_run: bool },
    /// The version that each vulnerable package may go to is printed instead of a report.
    Plan,
    /// What the baseline in the file at this path doesn't list is printed instead of a report.
    Baseline(Text),
    /// What was found is written as a baseline to a file at this path.
    WriteBaseline(Text),
    /// A local registry of the packages is created.
    Vendor(VendorCommand),
}
