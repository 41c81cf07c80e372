//! When an audit fails.
ghost use Rattle.std.specs.Prelude.{◌≡◌};
ghost use Rattle.audit_advisory.specs.Exits as spec;

use crate::outputs::{DenyOption, WarningKind};
use crate::reports::{Report, Warning};

/// Whether an option denies warnings of a kind.
fn denies(option: DenyOption, kind: WarningKind) -> bool
    ensures { result ≡ spec.denies kind option }
{
    option
        .get_warning_kind()
        .iter()
        .any(|denied| *denied == kind)
}

/// Whether some option denies warnings of a kind.
pub fn is_denied(deny: &[DenyOption], kind: WarningKind) -> bool
    ensures { result ≡ spec.is_denied deny.now kind }
{
    for option in deny {
        if denies(*option, kind) {
            return true;
        }
    }
    false
}

fn has_denied(warnings: &[Warning], deny: &[DenyOption]) -> bool
    ensures { result ≡ spec.has_denied warnings.now deny.now }
{
    for warning in warnings {
        if is_denied(deny, warning.kind) {
            return true;
        }
    }
    false
}

/// Whether advisories on the auditor itself are denied.
pub fn denies_self(deny: &[DenyOption]) -> bool
    ensures { result ≡ spec.denies_self deny.now }
{
    for option in deny {
        if matches!(option, DenyOption::Warnings) {
            return true;
        }
    }
    false
}

/// Whether an audit fails because of its report: it has a vulnerability, or a warning of a kind
/// that some option denies.
pub fn report_fails(report: &Report, deny: &[DenyOption]) -> bool
    ensures { result ≡ spec.report_fails report.now deny.now }
{
    !report.vulnerabilities.as_slice().is_empty() || has_denied(report.warnings.as_slice(), deny)
}

/// Whether an audit fails because of advisories on the auditor itself, which `warnings` denies.
pub fn self_fails(deny: &[DenyOption], self_advisories: &[usize]) -> bool
    ensures { result ≡ spec.self_fails deny.now self_advisories.now }
{
    !self_advisories.is_empty() && denies_self(deny)
}

/// Whether an audit fails, because of its report or of advisories on the auditor itself.
pub fn fails(report: &Report, deny: &[DenyOption], self_advisories: &[usize]) -> bool
    ensures { result ≡ spec.fails report.now deny.now self_advisories.now }
{
    report_fails(report, deny) || self_fails(deny, self_advisories)
}
