//! The versions that an advisory names as safe.
ghost use Rattle.std.specs.Prelude.{◌≡◌, ◌≢◌, IfOk, IfErr, Ok, Err};
ghost use Rattle.audit_advisory.specs.Points.{point_of};
ghost use Rattle.audit_advisory.specs.Requirements as spec;
ghost use Rattle.audit_advisory.specs.Versions.{versions_of};
ghost use Rattle.audit_advisory.specs.Versions as versions_spec;

use crate::faults::{AdvisoryFault, AdvisoryRule};
use crate::requirements::Requirement;
use semver::Version;
use std::alloc::Global;
use tame_names::{Items, NoMemory, Text};

/// The patched versions and those that were never affected; all others are vulnerable.
#[derive(Debug, Drop, PartialEq, Eq)]
pub struct Versions {
    patched: Items<Requirement>,
    unaffected: Items<Requirement>,
}

/// The requirement that each string is, if each is one.
pub fn requirements_of(
    alloc: Global,
    texts: &[Text],
) -> Result<Option<Items<Requirement>>, NoMemory>
    ensures { IfOk result (λ rs. rs ≡ spec.requirements_of texts.now) }
{
    let mut requirements = Items::new(alloc);
    for text in texts {
        let Some(requirement) = Requirement::read(alloc, text.as_str())? else {
            return Ok(None);
        };
        requirements.add(requirement)?;
    }
    Ok(Some(requirements))
}

/// Whether a version meets one of these requirements.
pub fn meets_any(requirements: &[Requirement], version: &Version) -> bool
    ensures { result ≡ spec.meets_any requirements.now (point_of version.now) }
{
    for requirement in requirements {
        if requirement.holds(version) {
            return true;
        }
    }
    false
}

impl Versions {
    /// The requirements of two lists of strings; each string must be one.
    pub fn new(
        alloc: Global,
        patched: &Items<Text>,
        unaffected: &Items<Text>,
    ) -> Result<Versions, AdvisoryFault>
        ensures ok { IfOk result (λ vs. versions_of patched.now unaffected.now ≡ Ok vs) }
        ensures refused { IfErr result (λ e. e ≢ AdvisoryFault.NoMemory
            → versions_of patched.now unaffected.now ≡ Err e) }
    {
        let Some(patched) = requirements_of(alloc, patched.as_slice())? else {
            return Err(AdvisoryFault::Rule(AdvisoryRule::Versions));
        };
        let Some(unaffected) = requirements_of(alloc, unaffected.as_slice())? else {
            return Err(AdvisoryFault::Rule(AdvisoryRule::Versions));
        };
        Ok(Versions {
            patched,
            unaffected,
        })
    }

    /// Whether a version is neither patched nor unaffected.
    pub fn is_vulnerable(&self, version: &Version) -> bool
        ensures { result ≡ versions_spec.is_vulnerable self.now (point_of version.now) }
    {
        !meets_any(self.patched.as_slice(), version)
            && !meets_any(self.unaffected.as_slice(), version)
    }

    /// The requirements that patched versions meet.
    pub fn patched(&self) -> &[Requirement]
        ensures { result.now ≡ self.now.patched }
    {
        self.patched.as_slice()
    }

    /// The requirements that versions meet that were never vulnerable.
    pub fn unaffected(&self) -> &[Requirement]
        ensures { result.now ≡ self.now.unaffected }
    {
        self.unaffected.as_slice()
    }
}
