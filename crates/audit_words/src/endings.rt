//! The command, when the words end.
ghost use Rattle.std.specs.Prelude.{◌≡◌};
ghost use Rattle.audit_words.specs.Reading as spec;

use crate::commands::{Command, VendorCommand};
use crate::drafts::{Draft, Stop};
use crate::options::Phase;
use crate::values::is_makeable;
use audit_settings::AuditCommand;
use tame_names::Text;

/// `audit` alone, or with its baseline.
fn audit_command(
    audit: AuditCommand,
    baseline: Option<Text>,
    write_baseline: Option<Text>,
) -> Command
    ensures { result ≡ spec.audit_command baseline write_baseline audit }
{
    match (baseline, write_baseline) {
        (Some(path), _) => Command::Baseline(audit, path),
        (None, Some(path)) => Command::WriteBaseline(audit, path),
        (None, None) => Command::Audit(audit),
    }
}

/// `vendor` with its folders, if both are given.
fn vendor_command(
    audit: AuditCommand,
    crates: Option<Text>,
    to: Option<Text>,
) -> Result<Command, Stop>
    ensures { result ≡ spec.vendor_command crates to audit }
{
    match (crates, to) {
        (Some(crates), Some(to)) => Ok(Command::Vendor(audit, VendorCommand { crates, to })),
        _ => Err(Stop::Wrong),
    }
}

impl Draft {
    /// The command, when the words end.
    pub fn finish(self) -> Result<Command, Stop>
        ensures { result ≡ spec.finish self }
    {
        if self.awaited.is_some() {
            return Err(Stop::Missing);
        }
        match self.phase {
            Phase::Before | Phase::Generate => Err(Stop::Wrong),
            Phase::Generated(count) => {
                if is_makeable(count) {
                    Ok(Command::Generate(count))
                } else {
                    Err(Stop::Wrong)
                }
            }
            Phase::Audit => Ok(audit_command(self.audit, self.baseline, self.write_baseline)),
            Phase::Fix => Ok(Command::Fix(self.audit, self.fix)),
            Phase::Plan => Ok(Command::Plan(self.audit)),
            Phase::Vendor => vendor_command(self.audit, self.vendor_crates, self.vendor_to),
            Phase::Bin | Phase::Paths => {
                if self.bin.binary_paths.as_slice().is_empty() {
                    Err(Stop::Wrong)
                } else {
                    Ok(Command::Bin(self.audit, self.bin))
                }
            }
        }
    }
}
