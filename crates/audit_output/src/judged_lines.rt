//! The lines of verdicts.
ghost use Rattle.std.specs.Prelude.{◌≡◌, ◌++◌, IfOk, OnOk, string_bytes, slice_get};
ghost use Rattle.audit_output.specs.Printed.{cause_word, line_at, verdict_line, verdict_word};
ghost use Rattle.audit_output.specs.Printed as spec;

use audit_core::{Cause, Judged, Verdict};
use audit_lock::{Package, package_at};
use report_parts::push_quoted;
use std::alloc::{AllocError, Global};

/// Adds the word for a cause at the end of a text; an error means out of memory.
pub fn push_cause(alloc: Global, out: &mut String, cause: Cause) -> Result<(), AllocError>
    ensures { OnOk result (string_bytes out.new ≡ string_bytes out.old ++ cause_word cause) }
{
    match cause {
        Cause::Name => out.push_str("name"),
        Cause::Status(status) => {
            let text = format!(in alloc; "status {status}")?;
            out.push_str(text.as_str())
        }
        Cause::JsonLines => out.push_str("json-lines"),
        Cause::Record => out.push_str("record"),
        Cause::Absent => out.push_str("absent"),
        Cause::NoVersion => out.push_str("no-version"),
        Cause::Wire => out.push_str("wire"),
        Cause::Store => out.push_str("store"),
    }
}

fn push_verdict(alloc: Global, out: &mut String, verdict: Verdict) -> Result<(), AllocError>
    ensures { OnOk result (string_bytes out.new ≡ string_bytes out.old ++ verdict_word verdict) }
{
    match verdict {
        Verdict::Yanked => out.push_str("yanked"),
        Verdict::NotYanked => out.push_str("not yanked"),
        Verdict::Unchecked(cause) => {
            out.push_str("unchecked ")?;
            push_cause(alloc, out, cause)
        }
    }
}

fn push_line(
    alloc: Global,
    out: &mut String,
    locked: &Package,
    verdict: Verdict,
) -> Result<(), AllocError>
    ensures { OnOk result (string_bytes out.new ≡ string_bytes out.old
        ++ verdict_line locked.now.name locked.now.version verdict) }
{
    push_quoted(alloc, out, locked.name.as_str())?;
    out.push_str(" ")?;
    out.push_str(locked.version.as_str())?;
    out.push_str(" ")?;
    push_verdict(alloc, out, verdict)?;
    out.push_str("\n")
}

fn push_judged(
    alloc: Global,
    out: &mut String,
    packages: &[Package],
    judged: &Judged,
) -> Result<(), AllocError>
    ensures { OnOk result (string_bytes out.new ≡ string_bytes out.old
        ++ line_at (slice_get packages.now judged.now.package) judged.now.verdict) }
{
    match package_at(packages, judged.package) {
        None => Ok(()),
        Some(locked) => push_line(alloc, out, locked, judged.verdict),
    }
}

/// The lines of the verdicts of a lockfile's packages.
pub fn verdict_lines(
    alloc: Global,
    packages: &[Package],
    verdicts: &[Judged],
) -> Result<String, AllocError>
    ensures { IfOk result (λ lines. string_bytes lines
        ≡ spec.verdict_lines packages.now verdicts.now) }
{
    let mut out = String::new(alloc);
    for judged in verdicts {
        push_judged(alloc, &mut out, packages, judged)?;
    }
    Ok(out)
}
