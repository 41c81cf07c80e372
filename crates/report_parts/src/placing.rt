//! The places in a report and in a list.
ghost use Rattle.std.specs.Prelude.{◌≡◌};
ghost use Rattle.std.specs.List.{list_all};
ghost use Rattle.report_parts.specs.Placing as spec;

use audit_advisory::{Report, Vulnerability, Warning};

fn is_place(count: usize, place: Option<usize>) -> bool
    ensures { result ≡ spec.is_place count place }
{
    match place {
        None => true,
        Some(place) => place < count,
    }
}

fn is_placed_vulnerability(advisories: usize, packages: usize, found: &Vulnerability) -> bool
    ensures { result ≡ spec.is_placed_vulnerability advisories packages found.now }
{
    found.advisory < advisories && found.package < packages
}

fn is_placed_warning(advisories: usize, packages: usize, warning: &Warning) -> bool
    ensures { result ≡ spec.is_placed_warning advisories packages warning.now }
{
    is_place(advisories, warning.advisory) && warning.package < packages
}

fn are_vulnerabilities(advisories: usize, packages: usize, found: &[Vulnerability]) -> bool
    ensures { result ≡ list_all (spec.is_placed_vulnerability advisories packages) found.now }
{
    found.iter().all(|found| is_placed_vulnerability(advisories, packages, found))
}

fn are_warnings(advisories: usize, packages: usize, warnings: &[Warning]) -> bool
    ensures { result ≡ list_all (spec.is_placed_warning advisories packages) warnings.now }
{
    warnings
        .iter()
        .all(|warning| is_placed_warning(advisories, packages, warning))
}

/// Whether each place in a report has an advisory or a package.
pub fn is_placed(advisories: usize, packages: usize, report: &Report) -> bool
    ensures { result ≡ spec.is_placed advisories packages report.now }
{
    are_vulnerabilities(advisories, packages, report.vulnerabilities.as_slice())
        && are_warnings(advisories, packages, report.warnings.as_slice())
}

/// Whether each of these places has an advisory.
pub fn are_placed(advisories: usize, places: &[usize]) -> bool
    ensures { result ≡ spec.are_placed advisories places.now }
{
    places.iter().all(|place| *place < advisories)
}
