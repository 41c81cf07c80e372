//! The lines of a plan, and the status that it ends with.
ghost use Rattle.std.specs.Prelude.{◌≡◌, ◌++◌, IfOk, OnOk, string_bytes, slice_get};
ghost use Rattle.upgrade_plan.specs.Lines.{cause_word, item_line, line_at, outcome_words};
ghost use Rattle.upgrade_plan.specs.Lines as spec;

use crate::plans::{PlanItem, PlanOutcome};
use crate::records::NoRecord;
use audit_lock::{Package, package_at};
use report_parts::push_quoted;
use std::alloc::{AllocError, Global};

fn push_cause(out: &mut String, cause: NoRecord) -> Result<(), AllocError>
    ensures { OnOk result (string_bytes out.new ≡ string_bytes out.old ++ cause_word cause) }
{
    match cause {
        NoRecord::Source => out.push_str("source"),
        NoRecord::Name => out.push_str("name"),
        NoRecord::Store => out.push_str("store"),
        NoRecord::Absent => out.push_str("absent"),
        NoRecord::Record => out.push_str("record"),
    }
}

fn push_outcome(out: &mut String, outcome: &PlanOutcome) -> Result<(), AllocError>
    ensures { OnOk result (string_bytes out.new
        ≡ string_bytes out.old ++ outcome_words outcome.now) }
{
    match outcome {
        PlanOutcome::To(version) => {
            out.push_str("to ")?;
            out.push_str(version.as_str())
        }
        PlanOutcome::NoneSafe => out.push_str("no safe version"),
        PlanOutcome::NoRecord(cause) => {
            out.push_str("no record ")?;
            push_cause(out, *cause)
        }
    }
}

fn push_line(
    alloc: Global,
    out: &mut String,
    locked: &Package,
    outcome: &PlanOutcome,
) -> Result<(), AllocError>
    ensures { OnOk result (string_bytes out.new ≡ string_bytes out.old
        ++ item_line locked.now.name locked.now.version outcome.now) }
{
    push_quoted(alloc, out, locked.name.as_str())?;
    out.push_str(" ")?;
    out.push_str(locked.version.as_str())?;
    out.push_str(" ")?;
    push_outcome(out, outcome)?;
    out.push_str("\n")
}

fn push_item(
    alloc: Global,
    out: &mut String,
    packages: &[Package],
    item: &PlanItem,
) -> Result<(), AllocError>
    ensures { OnOk result (string_bytes out.new ≡ string_bytes out.old
        ++ line_at (slice_get packages.now item.now.«package») item.now.outcome) }
{
    match package_at(packages, item.package) {
        None => Ok(()),
        Some(locked) => push_line(alloc, out, locked, &item.outcome),
    }
}

/// The lines of a plan for these packages, one for each item: the name as JSON text, the locked
/// version, and what is planned.
pub fn plan_lines(
    alloc: Global,
    packages: &[Package],
    items: &[PlanItem],
) -> Result<String, AllocError>
    ensures { IfOk result (λ lines. string_bytes lines
        ≡ spec.plan_lines packages.now items.now) }
{
    let mut out = String::new(alloc);
    for item in items {
        push_item(alloc, &mut out, packages, item)?;
    }
    Ok(out)
}

fn is_to(outcome: &PlanOutcome) -> bool
    ensures { result ≡ spec.is_to outcome.now }
{
    match outcome {
        PlanOutcome::To(_) => true,
        PlanOutcome::NoneSafe | PlanOutcome::NoRecord(_) => false,
    }
}

/// The status that a plan ends with: 0 if each item has a version to go to, else 1.
pub fn plan_status(items: &[PlanItem]) -> u8
    ensures { result ≡ spec.plan_status items.now }
{
    for item in items {
        if !is_to(&item.outcome) {
            return 1;
        }
    }
    0
}
