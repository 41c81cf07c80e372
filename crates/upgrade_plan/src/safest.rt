//! The least safe version.
ghost use Rattle.std.specs.Prelude.{◌≡◌, IfOk};
ghost use Rattle.upgrade_plan.specs.Least.{IsLeastSafe};
ghost use Rattle.upgrade_plan.specs.Least as spec;

use crate::candidates::Candidate;
use crate::offers::Offers;
use audit_advisory::{Database, Settings, read_version};
use audit_lock::Package;
use std::alloc::Global;
use tame_names::{NoMemory, Text};
use tame_records::IndexKrate;

/// The lower of what was found so far and a further candidate; the earlier if they are equally low.
fn lower_of(least: Option<Candidate>, found: Option<Candidate>) -> Option<Candidate>
    ensures { result ≡ spec.lower_of least found }
{
    match (least, found) {
        (Some(least), Some(found)) => {
            if found.is_lower(&least) {
                Some(found)
            } else {
                Some(least)
            }
        }
        (None, found) => found,
        (least, None) => least,
    }
}

/// The lowest version in the lines of a crate that is safe for a package: without pre-release, not
/// yanked by what the lines say, above the package's own and compatible with it, and no advisory of
/// the database counts as a vulnerability of it. Of several of equal precedence it is the first.
/// None if there is no such version, or if the package's own isn't SemVer. The lines are gone
/// through once, with a look-up among their versions for each.
pub fn least_safe(
    alloc: Global,
    database: &Database,
    settings: &Settings,
    package: &Package,
    krate: &IndexKrate,
) -> Result<Option<Text>, NoMemory>
    ensures { IfOk result (λ least. IsLeastSafe settings.now database.now «package».now
        krate.now.versions least) }
{
    let Some(locked) = read_version(alloc, package.version.as_str())? else {
        return Ok(None);
    };
    let versions = krate.versions.as_slice();
    let offers = Offers::of(alloc, versions)?;
    let mut least = None;
    for version in versions {
        let text = version.version.as_str();
        let found = Candidate::read(alloc, database, settings, package, &locked, &offers, text)?;
        least = lower_of(least, found);
    }
    match least {
        None => Ok(None),
        Some(candidate) => Ok(Some(candidate.into_text())),
    }
}
