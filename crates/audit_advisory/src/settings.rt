//! What an audit asks of advisories.
ghost use Rattle.std.specs.Prelude.{◌≡◌, IfOk};
ghost use Rattle.audit_advisory.specs.Hits.{severity_of};
ghost use Rattle.audit_advisory.specs.Hits as spec;

use crate::metadata::Informational;
use std::alloc::Global;
use tame_names::{Items, NoMemory, Text};

/// How severe a vulnerability is (CVSS 3.1, section 5).
#[derive(Clone, Copy, Debug, PartialEq, Eq)]
pub enum Severity {
    /// A score of 0.
    None,
    /// A score of 0.1 to 3.9.
    Low,
    /// A score of 4.0 to 6.9.
    Medium,
    /// A score of 7.0 to 8.9.
    High,
    /// A score of 9.0 to 10.0.
    Critical,
}

/// What an audit asks of advisories.
#[derive(Debug, Drop, PartialEq, Eq)]
pub struct Settings {
    /// The ids of advisories that are left out.
    pub ignore: Items<Text>,
    /// Advisories of a lower severity are left out.
    pub severity: Option<Severity>,
    /// The architectures that count; all, if the list is empty.
    pub target_arch: Items<Text>,
    /// The systems that count; all, if the list is empty.
    pub target_os: Items<Text>,
    /// The kinds of informational advisory to warn about.
    pub informational_warnings: Items<Informational>,
}

impl Severity {
    /// The severity of a score in tenths.
    pub fn of(tenths: u8) -> Severity
        ensures { result ≡ severity_of tenths }
    {
        if tenths == 0 {
            Severity::None
        } else if tenths <= 39 {
            Severity::Low
        } else if tenths <= 69 {
            Severity::Medium
        } else if tenths <= 89 {
            Severity::High
        } else {
            Severity::Critical
        }
    }

    fn severity_level(self) -> u8
        ensures { result ≡ spec.severity_level self }
    {
        match self {
            Severity::None => 0,
            Severity::Low => 1,
            Severity::Medium => 2,
            Severity::High => 3,
            Severity::Critical => 4,
        }
    }
}

/// Whether a score isn't below a threshold, if both are stated.
pub fn is_severe(tenths: Option<u8>, threshold: Option<Severity>) -> bool
    ensures { result ≡ spec.is_severe tenths threshold }
{
    match (tenths, threshold) {
        (Some(tenths), Some(threshold)) => threshold.severity_level()
            <= Severity::of(tenths).severity_level(),
        _ => true,
    }
}

/// Copies of strings.
pub fn texts_copied(alloc: Global, texts: &[Text]) -> Result<Items<Text>, NoMemory>
    ensures { IfOk result (λ copies. copies ≡ texts.now) }
{
    let mut copies = Items::new(alloc);
    for text in texts {
        copies.add(text.try_clone(alloc)?)?;
    }
    Ok(copies)
}

/// Copies of kinds.
pub fn kinds_copied(
    alloc: Global,
    kinds: &[Informational],
) -> Result<Items<Informational>, NoMemory>
    ensures { IfOk result (λ copies. copies ≡ kinds.now) }
{
    let mut copies = Items::new(alloc);
    for kind in kinds {
        copies.add(kind.copied(alloc)?)?;
    }
    Ok(copies)
}

impl Settings {
    /// A copy of these settings.
    pub fn copied(&self, alloc: Global) -> Result<Settings, NoMemory>
        ensures { IfOk result (λ copy. copy ≡ self.now) }
    {
        Ok(Settings {
            ignore: texts_copied(alloc, self.ignore.as_slice())?,
            severity: self.severity,
            target_arch: texts_copied(alloc, self.target_arch.as_slice())?,
            target_os: texts_copied(alloc, self.target_os.as_slice())?,
            informational_warnings: kinds_copied(alloc, self.informational_warnings.as_slice())?,
        })
    }
}
