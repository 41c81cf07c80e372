//! Answers for binaries.
use audit_core::Audited;
use audit_lock::LockfileFault;
use tame_names::Items;

/// How much a binary says about the packages that it was built from.
#[derive(Clone, Copy, Debug, PartialEq, Eq)]
pub enum PackagesFound {
    /// It names all of them.
    Complete,
    /// It names some of them.
    Incomplete,
}

/// Why there is no audit of a binary.
#[derive(Clone, Copy, Debug, PartialEq, Eq)]
pub enum BinaryFault {
    /// Nothing is there.
    Missing,
    /// It couldn't be read.
    File,
    /// It has this number of bytes, which is above the limit.
    TooLarge(u64),
    /// It couldn't be decoded.
    Decode,
    /// What it says has this number of bytes, which is above the limit.
    PayloadOver(u64),
    /// It says nothing about the packages that it was built from.
    NoInformation,
    /// What it says is no lockfile, for this reason, which is never `NoMemory`.
    Lockfile(LockfileFault),
}

/// The answer for a binary.
#[derive(Drop)]
pub enum BinaryAnswer {
    /// The audit of what it says.
    Audited(PackagesFound, Audited),
    /// Why there is none.
    Refused(BinaryFault),
}

/// The summary of the answers for binaries.
#[derive(Clone, Copy, Debug, PartialEq, Eq)]
pub struct MultiFileReportSummary {
    /// A binary that was audited has a vulnerability, or a warning that is denied.
    pub vulnerabilities_found: bool,
    /// A binary was refused, or an advisory on the auditor itself is denied.
    pub errors_encountered: bool,
}

impl Default for MultiFileReportSummary {
    ghost use Rattle.std.specs.Prelude.{◌≡◌, false};

    ghost is_default = { λ summary. (summary.vulnerabilities_found ≡ false)
        × (summary.errors_encountered ≡ false) };

    fn default() -> MultiFileReportSummary {
        MultiFileReportSummary {
            vulnerabilities_found: false,
            errors_encountered: false,
        }
    }
}

/// The audits of binaries.
#[derive(Drop)]
pub struct BinariesAudit {
    /// One answer for each path, in their order.
    pub answers: Items<BinaryAnswer>,
    /// The sums over all answers.
    pub summary: MultiFileReportSummary,
}
