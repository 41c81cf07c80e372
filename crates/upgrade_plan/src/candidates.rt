//! The versions that may replace a package's own.
ghost use Rattle.std.specs.Prelude.{◌≡◌, Some, None, Ok, IfOk, if◌then◌else◌};
ghost use Rattle.semver.specs.Identifiers.{parts_of};
ghost use Rattle.semver.specs.Parse.{version_parts};
ghost use Rattle.audit_advisory.specs.Points.{point_of};
ghost use Rattle.upgrade_plan.specs.Candidates.{is_candidate, is_unhit};
ghost use Rattle.upgrade_plan.specs.Candidates as spec;
ghost use Rattle.upgrade_plan.specs.Least as least_spec;

use crate::offers::Offers;
use audit_advisory::{Database, Settings, compatible, read_version};
use audit_lock::Package;
use semver::Version;
use std::alloc::Global;
use std::cmp::Ordering;
use std::marker::Model;
use tame_names::{NoMemory, Text};

/// A string that is a version. Contracts see the string.
#[derive(Drop)]
pub struct Candidate {
    text: Text,
    version: Version,
}

impl Model for Candidate {
    ghost use Rattle.std.specs.Prelude.{◌≡◌, List, ℕ, Ok};
    ghost use Rattle.semver.specs.Identifiers.{parts_of};
    ghost use Rattle.semver.specs.Parse.{version_parts};

    ghost Value = { List ℕ };

    ghost view = { λ c. c.text };

    ghost invariant = { λ c. version_parts c.text ≡ Ok (parts_of c.version) };
}

/// Whether a version without pre-release is above a locked one, and compatible with it.
fn is_upgrade(locked: &Version, version: &Version) -> bool
    ensures { result ≡ spec.is_upgrade (point_of locked.now) (point_of version.now) }
{
    version.pre.is_empty()
        && version.cmp_precedence(locked) == Ordering::Greater
        && compatible(locked, version)
}

/// Whether no advisory counts as a vulnerability of a package with this version instead of its
/// own.
fn is_unhit(
    database: &Database,
    settings: &Settings,
    package: &Package,
    text: &str,
    version: &Version,
) -> bool
    requires { version_parts text.now ≡ Ok (parts_of version.now) }
    ensures { result ≡ spec.is_unhit settings.now database.now «package».now text.now }
{
    !database.hits_at(settings, package, version)
}

impl Candidate {
    /// The candidate that the version of a line is, by what the lines say; `locked` is the
    /// package's own version.
    pub fn read(
        alloc: Global,
        database: &Database,
        settings: &Settings,
        package: &Package,
        locked: &Version,
        offers: &Offers<'_>,
        text: &str,
    ) -> Result<Option<Candidate>, NoMemory>
        requires { version_parts «package».now.version ≡ Ok (parts_of locked.now) }
        ensures { IfOk result (λ c. c ≡ if is_candidate settings.now database.now «package».now
            offers.now text.now then Some text.now else None) }
    {
        let Some(version) = read_version(alloc, text)? else {
            return Ok(None);
        };
        if is_upgrade(locked, &version)
            && is_unhit(database, settings, package, text, &version)
            && offers.is_offered(text)
        {
            let text = Text::of(alloc, text)?;
            Ok(Some(Candidate { text, version }))
        } else {
            Ok(None)
        }
    }

    /// Whether it is lower than another, in the precedence of SemVer 2.0.0, section 11.
    pub fn is_lower(&self, than: &Candidate) -> bool
        ensures { result ≡ least_spec.is_lower self.now than.now }
    {
        self.version.cmp_precedence(&than.version) == Ordering::Less
    }

    /// The version as written.
    pub fn into_text(self) -> Text
        ensures { result ≡ self }
    {
        self.text
    }
}
