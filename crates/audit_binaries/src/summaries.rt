//! The summary of the answers for binaries.
ghost use Rattle.std.specs.Prelude.{◌≡◌};
ghost use Rattle.std.specs.List.{list_any};
ghost use Rattle.audit_binaries.specs.Summaries.{is_refused};
ghost use Rattle.audit_binaries.specs.Summaries as spec;

use crate::answers::{BinaryAnswer, MultiFileReportSummary};
use audit_advisory::{DenyOption, report_fails, self_fails};

/// Whether an audit of a binary fails by its report.
fn is_found(deny: &[DenyOption], answer: &BinaryAnswer) -> bool
    ensures { result ≡ spec.is_found deny.now answer.now }
{
    match answer {
        BinaryAnswer::Audited(_, audited) => report_fails(&audited.report, deny),
        BinaryAnswer::Refused(_) => false,
    }
}

fn has_found(deny: &[DenyOption], answers: &[BinaryAnswer]) -> bool
    ensures { result ≡ list_any (spec.is_found deny.now) answers.now }
{
    for answer in answers {
        if is_found(deny, answer) {
            return true;
        }
    }
    false
}

fn has_refused(answers: &[BinaryAnswer]) -> bool
    ensures { result ≡ list_any is_refused answers.now }
{
    for answer in answers {
        if matches!(answer, BinaryAnswer::Refused(_)) {
            return true;
        }
    }
    false
}

/// The summary of these answers, by what is denied and the places of the advisories on the auditor
/// itself.
pub(crate) fn summary_of(
    deny: &[DenyOption],
    self_advisories: &[usize],
    answers: &[BinaryAnswer],
) -> MultiFileReportSummary
    ensures { result ≡ spec.summary_of deny.now self_advisories.now answers.now }
{
    MultiFileReportSummary {
        vulnerabilities_found: has_found(deny, answers),
        errors_encountered: has_refused(answers) || self_fails(deny, self_advisories),
    }
}

/// The exit status of a summary: 1 if vulnerabilities were found, else 2 if errors were, else 0.
pub fn summary_status(summary: MultiFileReportSummary) -> u8
    ensures { result ≡ spec.summary_status summary }
{
    if summary.vulnerabilities_found {
        1
    } else if summary.errors_encountered {
        2
    } else {
        0
    }
}
