//! The words for what is reported.
ghost use Rattle.std.specs.Prelude.{◌≡◌, option_map};
ghost use Rattle.report_parts.specs.Words as spec;

use audit_advisory::{Informational, Severity, WarningKind};

/// The word for a severity.
#[tactic(auto, unfolding(crate::specs::Words::severity_word))]
pub fn severity_word(severity: Severity) -> &'static str
    ensures { result.now ≡ spec.severity_word severity }
{
    match severity {
        Severity::None => "none",
        Severity::Low => "low",
        Severity::Medium => "medium",
        Severity::High => "high",
        Severity::Critical => "critical",
    }
}

/// The word for a kind of warning.
#[tactic(auto, unfolding(crate::specs::Words::kind_word))]
pub fn kind_word(kind: WarningKind) -> &'static str
    ensures { result.now ≡ spec.kind_word kind }
{
    match kind {
        WarningKind::Notice => "notice",
        WarningKind::Unmaintained => "unmaintained",
        WarningKind::Unsound => "unsound",
        WarningKind::Yanked => "yanked",
    }
}

/// The word for what an advisory informs about.
pub fn informational_word(informational: &Informational) -> &str
    ensures { result.now ≡ spec.informational_word informational.now }
{
    match informational {
        Informational::Notice => "notice",
        Informational::Unmaintained => "unmaintained",
        Informational::Unsound => "unsound",
        Informational::Other(text) => text.as_str(),
    }
}

/// The word for a severity that may be absent.
pub fn stated_severity(severity: Option<Severity>) -> Option<&'static str>
    ensures { option_map (λ w. w.now) result ≡ option_map spec.severity_word severity }
{
    match severity {
        None => None,
        Some(severity) => Some(severity_word(severity)),
    }
}

/// The word for what an advisory informs about, if it does.
pub fn stated_informational(informational: &Option<Informational>) -> Option<&str>
    ensures { option_map (λ w. w.now) result
        ≡ option_map spec.informational_word informational.now }
{
    match informational {
        None => None,
        Some(informational) => Some(informational_word(informational)),
    }
}
