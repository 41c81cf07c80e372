//! Status lines.
ghost use Rattle.std.specs.Prelude.{◌≡◌, ◌++◌, decimal, IfOk, OnOk, string_bytes};
ghost use Rattle.audit_report.specs.StatusLines.{loaded_line, unchecked_line, unchecked_title, updating_line};
ghost use Rattle.audit_report.specs.StatusLines as spec;

use crate::binaries::Found;
use audit_advisory::OutputConfig;
use report_parts::{push_number, push_quoted};
use std::alloc::{AllocError, Global};

/// Appends the line that says how many advisories the database at a path has.
#[tactic(auto, unfolding(crate::specs::StatusLines::loaded_line))]
pub fn push_loaded(
    alloc: Global,
    out: &mut String,
    count: usize,
    path: &str,
) -> Result<(), AllocError>
    ensures { OnOk result (string_bytes out.new
        ≡ string_bytes out.old ++ loaded_line count path.now) }
{
    out.push_str("Loaded ")?;
    push_number(alloc, out, count as u64)?;
    out.push_str(" security advisories (from ")?;
    out.push_str(path)?;
    out.push_str(")\n")
}

/// Appends the line that says that the index is asked.
#[tactic(auto, unfolding(crate::specs::StatusLines::updating_line))]
pub fn push_updating(out: &mut String) -> Result<(), AllocError>
    ensures { OnOk result (string_bytes out.new ≡ string_bytes out.old ++ updating_line) }
{
    out.push_str("Updating crates.io index\n")
}

/// The line that says how many packages the lockfile at a path has.
#[tactic(auto, unfolding(crate::specs::StatusLines::scanning_line))]
fn scanning_line(alloc: Global, path: &str, count: usize) -> Result<String, AllocError>
    ensures { IfOk result (λ text. string_bytes text ≡ spec.scanning_line path.now count) }
{
    let mut out = String::from_str(alloc, "Scanning ")?;
    out.push_str(path)?;
    out.push_str(" for vulnerabilities (")?;
    push_number(alloc, &mut out, count as u64)?;
    out.push_str(" crate dependencies)\n")?;
    Ok(out)
}

/// That line, unless status lines are left out.
pub fn scanning_line_in(
    alloc: Global,
    config: &OutputConfig,
    path: &str,
    count: usize,
) -> Result<String, AllocError>
    ensures { IfOk result (λ text. string_bytes text
        ≡ spec.scanning_line_in config.now path.now count) }
{
    if config.is_quiet() {
        Ok(String::new(alloc))
    } else {
        scanning_line(alloc, path, count)
    }
}

#[tactic(auto, unfolding(crate::specs::StatusLines::complete_line))]
fn complete_line(alloc: Global, count: usize, path: &str) -> Result<String, AllocError>
    ensures { IfOk result (λ text. string_bytes text ≡ spec.complete_line count path.now) }
{
    let mut out = String::from_str(alloc, "Found 'cargo auditable' data in ")?;
    out.push_str(path)?;
    out.push_str(" (")?;
    push_number(alloc, &mut out, count as u64)?;
    out.push_str(" dependencies)\n")?;
    Ok(out)
}

#[tactic(auto, unfolding(crate::specs::StatusLines::incomplete_line))]
fn incomplete_line(alloc: Global, count: usize, path: &str) -> Result<String, AllocError>
    ensures { IfOk result (λ text. string_bytes text ≡ spec.incomplete_line count path.now) }
{
    let mut out = String::from_str(alloc, "warning: ")?;
    out.push_str(path)?;
    out.push_str(" was not built with 'cargo auditable', the report will be incomplete (")?;
    push_number(alloc, &mut out, count as u64)?;
    out.push_str(" dependencies recovered)\n")?;
    Ok(out)
}

#[tactic(auto, unfolding(crate::specs::StatusLines::nothing_line))]
fn nothing_line(alloc: Global, path: &str) -> Result<String, AllocError>
    ensures { IfOk result (λ text. string_bytes text ≡ spec.nothing_line path.now) }
{
    let mut out = String::from_str(alloc, "error: No dependency information found in ")?;
    out.push_str(path)?;
    out.push_str("! Is it a Rust program built with cargo?\n")?;
    Ok(out)
}

/// The line that says what the binary at a path reports of its packages, and how many of them it
/// names.
fn binary_line(alloc: Global, found: Found, count: usize, path: &str) -> Result<String, AllocError>
    ensures { IfOk result (λ text. string_bytes text ≡ spec.binary_line found count path.now) }
{
    match found {
        Found::Complete => complete_line(alloc, count, path),
        Found::Incomplete => incomplete_line(alloc, count, path),
        Found::Nothing => nothing_line(alloc, path),
    }
}

/// That line, unless status lines are left out.
pub fn binary_line_in(
    alloc: Global,
    config: &OutputConfig,
    found: Found,
    count: usize,
    path: &str,
) -> Result<String, AllocError>
    ensures { IfOk result (λ text. string_bytes text
        ≡ spec.binary_line_in config.now found count path.now) }
{
    if !config.is_quiet() {
        return binary_line(alloc, found, count, path);
    }
    Ok(String::new(alloc))
}

#[tactic(auto, unfolding(crate::specs::StatusLines::unchecked_title))]
fn push_unchecked_title(out: &mut String) -> Result<(), AllocError>
    ensures { OnOk result (string_bytes out.new ≡ string_bytes out.old ++ unchecked_title) }
{
    out.push_str("error: couldn't check if the package is yanked: ")
}

/// Appends the line of a package for which it isn't known whether it is yanked, and why.
#[tactic(auto, unfolding(crate::specs::StatusLines::unchecked_line))]
pub fn push_unchecked(
    alloc: Global,
    out: &mut String,
    name: &str,
    version: &str,
    cause: &str,
) -> Result<(), AllocError>
    ensures { OnOk result (string_bytes out.new
        ≡ string_bytes out.old ++ unchecked_line name.now version.now cause.now) }
{
    push_unchecked_title(out)?;
    push_quoted(alloc, out, name)?;
    out.push_str(" ")?;
    out.push_str(version)?;
    out.push_str(": ")?;
    out.push_str(cause)?;
    out.push_str("\n")
}
