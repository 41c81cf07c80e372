//! The words of the SARIF form.
ghost use Rattle.std.specs.Prelude.{◌≡◌, option_map};
ghost use Rattle.audit_sarif.specs.SarifObjects as spec;
ghost use Rattle.audit_sarif.specs.SarifTexts as sarif_texts_spec;

use crate::sarif_logs::{Level, Precision};
use audit_advisory::WarningKind;

/// The word of a level.
#[tactic(auto, unfolding(crate::specs::SarifObjects::level_word))]
pub fn level_word(level: Level) -> &'static str
    ensures { result.now ≡ spec.level_word level }
{
    match level {
        Level::Error => "error",
        Level::Warning => "warning",
    }
}

/// The word of what a rule of a level is of.
#[tactic(auto, unfolding(crate::specs::SarifObjects::tag_word))]
pub fn tag_word(level: Level) -> &'static str
    ensures { result.now ≡ spec.tag_word level }
{
    match level {
        Level::Error => "vulnerability",
        Level::Warning => "warning",
    }
}

/// The word of a precision.
#[tactic(auto, unfolding(crate::specs::SarifObjects::precision_word))]
pub fn precision_word(precision: Precision) -> &'static str
    ensures { result.now ≡ spec.precision_word precision }
{
    match precision {
        Precision::High => "high",
        Precision::VeryHigh => "very-high",
    }
}

/// The word by which a rule of a level is a problem, if it is none of security.
#[tactic(auto, unfolding(crate::specs::SarifObjects::problem_severity))]
pub fn problem_severity(level: Level) -> Option<&'static str>
    ensures { option_map (λ w. w.now) result ≡ spec.problem_severity level }
{
    match level {
        Level::Error => None,
        Level::Warning => Some("warning"),
    }
}

/// What a kind of warning says if no advisory does.
#[tactic(auto, unfolding(crate::specs::SarifTexts::kind_text))]
pub fn kind_text(kind: WarningKind) -> &'static str
    ensures { result.now ≡ sarif_texts_spec.kind_text kind }
{
    match kind {
        WarningKind::Notice => "Unknown warning type",
        WarningKind::Unmaintained => {
            "Package is unmaintained and may have unaddressed security vulnerabilities"
        }
        WarningKind::Unsound => {
            "Package has known soundness issues that may lead to memory safety problems"
        }
        WarningKind::Yanked => "Package version has been yanked from the registry",
    }
}
