//! The lines that `fix` prints on standard error.
ghost use Rattle.std.specs.Prelude.{◌≡◌, ◌++◌, IfOk, OnOk, string_bytes};
ghost use Rattle.audit_fix.specs.Lines.{advisory_line, dry_run_line, failed_line, line_of, lines_of, step_line, unpatched_line, unpatched_title};
ghost use Rattle.audit_fix.specs.Lines as spec;

use crate::remedies::{patchable, unpatched};
use audit_advisory::{Advisory, Database, Vulnerability};
use audit_core::Audited;
use audit_lock::Package;
use std::alloc::{AllocError, Global};

#[tactic(auto, unfolding(crate::specs::Lines::dry_run_line))]
fn push_dry_run(out: &mut String) -> Result<(), AllocError>
    ensures { OnOk result (string_bytes out.new ≡ string_bytes out.old ++ dry_run_line) }
{
    out.push_str("warning: Performing a dry run, the fixes will not be applied\n")
}

#[tactic(auto, unfolding(crate::specs::Lines::unpatched_title))]
fn push_unpatched_title(out: &mut String) -> Result<(), AllocError>
    ensures { OnOk result (string_bytes out.new ≡ string_bytes out.old ++ unpatched_title) }
{
    out.push_str("warning: No patched versions available for ")
}

#[tactic(auto, unfolding(crate::specs::Lines::unpatched_line))]
fn push_unpatched(out: &mut String, id: &str, name: &str) -> Result<(), AllocError>
    ensures { OnOk result (string_bytes out.new
        ≡ string_bytes out.old ++ unpatched_line id.now name.now) }
{
    push_unpatched_title(out)?;
    out.push_str(id)?;
    out.push_str(" in crate ")?;
    out.push_str(name)?;
    out.push_str("\n")
}

#[tactic(auto, unfolding(crate::specs::Lines::failed_line))]
fn push_failed(out: &mut String, name: &str) -> Result<(), AllocError>
    ensures { OnOk result (string_bytes out.new
        ≡ string_bytes out.old ++ failed_line name.now) }
{
    out.push_str("warning: Failed to run `cargo update` for package ")?;
    out.push_str(name)?;
    out.push_str("\n")
}

/// Whether the next step couldn't be started.
fn is_failed(statuses: &[Option<i32>]) -> bool
    ensures { result ≡ spec.is_failed statuses.now }
{
    match statuses.first() {
        Some(None) => true,
        _ => false,
    }
}

/// What is left after the next status.
fn behind_one(statuses: &[Option<i32>]) -> &[Option<i32>]
    ensures { result.now ≡ spec.behind_one statuses.now }
{
    match statuses.split_first() {
        Some((_, left)) => left,
        None => statuses,
    }
}

/// The statuses that are left after a vulnerability: its step takes one, if it has a step.
fn behind<'a>(
    advisories: &[Advisory],
    packages: &[Package],
    vulnerability: Vulnerability,
    statuses: &'a [Option<i32>],
) -> &'a [Option<i32>]
    ensures { result.now
        ≡ spec.behind advisories.now packages.now vulnerability statuses.now }
{
    match patchable(advisories, packages, vulnerability) {
        Some(_) => behind_one(statuses),
        None => statuses,
    }
}

/// Appends the line of a step, if it couldn't be started.
fn push_step(
    out: &mut String,
    statuses: &[Option<i32>],
    package: &Package,
) -> Result<(), AllocError>
    ensures { OnOk result (string_bytes out.new
        ≡ string_bytes out.old ++ step_line statuses.now «package».now) }
{
    if is_failed(statuses) {
        push_failed(out, package.name.as_str())
    } else {
        Ok(())
    }
}

/// Appends the line of an advisory for which nothing is patched.
fn push_advisory(
    out: &mut String,
    packages: &[Package],
    place: usize,
    advisory: &Advisory,
) -> Result<(), AllocError>
    ensures { OnOk result (string_bytes out.new
        ≡ string_bytes out.old ++ advisory_line packages.now place advisory.now) }
{
    match packages.get(place) {
        Some(package) => {
            push_unpatched(out, advisory.metadata.id.as_str(), package.name.as_str())
        }
        None => Ok(()),
    }
}

/// Appends the line of a vulnerability, if it has one.
fn push_line(
    out: &mut String,
    advisories: &[Advisory],
    packages: &[Package],
    vulnerability: Vulnerability,
    statuses: &[Option<i32>],
) -> Result<(), AllocError>
    ensures { OnOk result (string_bytes out.new ≡ string_bytes out.old
        ++ line_of advisories.now packages.now vulnerability statuses.now) }
{
    if let Some(package) = patchable(advisories, packages, vulnerability) {
        return push_step(out, statuses, package);
    }
    match unpatched(advisories, vulnerability) {
        Some(advisory) => push_advisory(out, packages, vulnerability.package, advisory),
        None => Ok(()),
    }
}

/// Appends the line of each vulnerability that has one.
fn push_lines(
    out: &mut String,
    advisories: &[Advisory],
    packages: &[Package],
    vulnerabilities: &[Vulnerability],
    statuses: &[Option<i32>],
) -> Result<(), AllocError>
    ensures { OnOk result (string_bytes out.new ≡ string_bytes out.old
        ++ lines_of advisories.now packages.now vulnerabilities.now statuses.now) }
{
    let mut left = statuses;
    for vulnerability in vulnerabilities {
        push_line(out, advisories, packages, *vulnerability, left)?;
        left = behind(advisories, packages, *vulnerability, left);
    }
    Ok(())
}

/// The lines that `fix` prints on standard error for the vulnerabilities of an audit of this
/// database. The steps of its plan ended with these statuses, none for a step that couldn't be
/// started. In a dry run a line says so first; then, vulnerability by vulnerability, lines say that
/// nothing is patched, or that the start failed. Nothing without vulnerabilities.
pub fn fix_lines(
    alloc: Global,
    audited: &Audited,
    database: &Database,
    dry_run: bool,
    statuses: &[Option<i32>],
) -> Result<String, AllocError>
    ensures { IfOk result (λ text. string_bytes text ≡ spec.fix_lines dry_run database.now
        audited.now.lockfile audited.now.report.vulnerabilities statuses.now) }
{
    let mut out = String::new(alloc);
    let vulnerabilities = audited.report.vulnerabilities.as_slice();
    if vulnerabilities.is_empty() {
        return Ok(out);
    }
    if dry_run {
        push_dry_run(&mut out)?;
    }
    let advisories = database.advisories();
    let packages = audited.lockfile.packages();
    push_lines(&mut out, advisories, packages, vulnerabilities, statuses)?;
    Ok(out)
}
