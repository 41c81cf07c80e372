//! What can be done about a vulnerability.
ghost use Rattle.std.specs.Prelude.{◌≡◌, option_map};
ghost use Rattle.audit_fix.specs.Plans as spec;

use audit_advisory::{Advisory, Vulnerability};
use audit_lock::Package;

/// Whether an advisory has a patched requirement.
fn is_patched(advisory: &Advisory) -> bool
    ensures { result ≡ spec.is_patched advisory.now }
{
    !advisory.versions.patched().is_empty()
}

/// The package that can be updated: that of the vulnerability, if its advisory is patched.
pub fn patchable<'a>(
    advisories: &[Advisory],
    packages: &'a [Package],
    vulnerability: Vulnerability,
) -> Option<&'a Package>
    ensures { option_map (λ p. p.now) result
        ≡ spec.patchable advisories.now packages.now vulnerability }
{
    match advisories.get(vulnerability.advisory) {
        None => None,
        Some(advisory) => {
            if is_patched(advisory) {
                packages.get(vulnerability.package)
            } else {
                None
            }
        }
    }
}

/// The advisory of a vulnerability, if nothing is patched.
pub fn unpatched<'a>(
    advisories: &'a [Advisory],
    vulnerability: Vulnerability,
) -> Option<&'a Advisory>
    ensures { option_map (λ a. a.now) result ≡ spec.unpatched advisories.now vulnerability }
{
    match advisories.get(vulnerability.advisory) {
        None => None,
        Some(advisory) => {
            if is_patched(advisory) {
                None
            } else {
                Some(advisory)
            }
        }
    }
}

/// The place of that advisory.
pub fn unpatched_place(advisories: &[Advisory], vulnerability: Vulnerability) -> Option<usize>
    ensures { result ≡ spec.unpatched_place advisories.now vulnerability }
{
    match unpatched(advisories, vulnerability) {
        None => None,
        Some(_) => Some(vulnerability.advisory),
    }
}
