//! The status lines of an audit.
ghost use Rattle.std.specs.Prelude.{◌≡◌, ◌++◌, slice_get, string_bytes, IfOk, OnOk};
ghost use Rattle.audit_output.specs.Outputs.{loaded_lines, unchecked_at, unchecked_lines};
ghost use Rattle.audit_output.specs.Outputs as spec;
ghost use Rattle.audit_output.specs.Printed.{cause_word};

use crate::judged_lines::push_cause;
use audit_advisory::OutputConfig;
use audit_core::{Cause, Checks, Judged, Verdict};
use audit_lock::{Package, package_at};
use audit_report::{push_loaded, push_unchecked, push_updating};
use std::alloc::{AllocError, Global};

fn push_loaded_lines(
    alloc: Global,
    out: &mut String,
    count: usize,
    database: &str,
    checks: Checks,
) -> Result<(), AllocError>
    ensures { OnOk result (string_bytes out.new
        ≡ string_bytes out.old ++ loaded_lines count database.now checks) }
{
    push_loaded(alloc, out, count, database)?;
    match checks {
        Checks::Online => push_updating(out),
        Checks::Offline | Checks::Off => Ok(()),
    }
}

/// How many advisories there are, and that the index is asked, unless status lines are left out.
pub fn loaded_lines_in(
    alloc: Global,
    config: &OutputConfig,
    count: usize,
    database: &str,
    checks: Checks,
) -> Result<String, AllocError>
    ensures { IfOk result (λ lines. string_bytes lines
        ≡ spec.loaded_lines_in config.now count database.now checks) }
{
    let mut out = String::new(alloc);
    if !config.is_quiet() {
        push_loaded_lines(alloc, &mut out, count, database, checks)?;
    }
    Ok(out)
}

/// The word for a cause.
fn cause_text(alloc: Global, cause: Cause) -> Result<String, AllocError>
    ensures { IfOk result (λ text. string_bytes text ≡ cause_word cause) }
{
    let mut out = String::new(alloc);
    push_cause(alloc, &mut out, cause)?;
    Ok(out)
}

fn push_unchecked_at(
    alloc: Global,
    out: &mut String,
    packages: &[Package],
    judged: &Judged,
) -> Result<(), AllocError>
    ensures { OnOk result (string_bytes out.new ≡ string_bytes out.old
        ++ unchecked_at (slice_get packages.now judged.now.«package») judged.now.verdict) }
{
    match (package_at(packages, judged.package), judged.verdict) {
        (Some(locked), Verdict::Unchecked(cause)) => {
            let cause = cause_text(alloc, cause)?;
            push_unchecked(
                alloc,
                out,
                locked.name.as_str(),
                locked.version.as_str(),
                cause.as_str(),
            )
        }
        _ => Ok(()),
    }
}

/// Adds a line for each package for which it isn't known whether it is yanked.
pub fn push_unchecked_lines(
    alloc: Global,
    out: &mut String,
    packages: &[Package],
    verdicts: &[Judged],
) -> Result<(), AllocError>
    ensures { OnOk result (string_bytes out.new
        ≡ string_bytes out.old ++ unchecked_lines packages.now verdicts.now) }
{
    for judged in verdicts {
        push_unchecked_at(alloc, out, packages, judged)?;
    }
    Ok(())
}
