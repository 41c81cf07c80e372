//! What is printed for advisories on the auditor itself.
ghost use Rattle.std.specs.Prelude.{◌≡◌, ◌++◌, IfOk, OnOk, string_bytes};
ghost use Rattle.std.specs.List.{flat_map};
ghost use Rattle.audit_report.specs.SelfReports.{metadata_at, self_message};
ghost use Rattle.audit_report.specs.SelfReports as spec;

use crate::blocks::push_metadata;
use audit_advisory::{Advisory, DenyOption, denies_self, listed_at};
use std::alloc::{AllocError, Global};

#[tactic(auto, unfolding(crate::specs::SelfReports::self_message))]
fn push_message(out: &mut String) -> Result<(), AllocError>
    ensures { OnOk result (string_bytes out.new ≡ string_bytes out.old ++ self_message) }
{
    out.push_str(
        "This copy of cargo-audit has known advisories! Upgrade cargo-audit to the latest \
        version: cargo install --force cargo-audit\n",
    )
}

fn self_level(deny: &[DenyOption]) -> &'static str
    ensures { result.now ≡ spec.self_level deny.now }
{
    if denies_self(deny) {
        "error: "
    } else {
        "warning: "
    }
}

#[tactic(auto, unfolding(crate::specs::SelfReports::self_line))]
fn self_line(alloc: Global, deny: &[DenyOption]) -> Result<String, AllocError>
    ensures { IfOk result (λ text. string_bytes text ≡ spec.self_line deny.now) }
{
    let mut out = String::from_str(alloc, self_level(deny))?;
    push_message(&mut out)?;
    Ok(out)
}

fn push_metadata_at(
    alloc: Global,
    out: &mut String,
    advisories: &[Advisory],
    place: usize,
) -> Result<(), AllocError>
    ensures { OnOk result (string_bytes out.new
        ≡ string_bytes out.old ++ metadata_at advisories.now place) }
{
    match listed_at(advisories, place) {
        None => Ok(()),
        Some(advisory) => push_metadata(alloc, out, &advisory.metadata),
    }
}

fn push_each(
    alloc: Global,
    out: &mut String,
    advisories: &[Advisory],
    places: &[usize],
) -> Result<(), AllocError>
    ensures { OnOk result (string_bytes out.new
        ≡ string_bytes out.old ++ flat_map (metadata_at advisories.now) places.now) }
{
    for place in places {
        push_metadata_at(alloc, out, advisories, *place)?;
    }
    Ok(())
}

#[tactic(auto, unfolding(crate::specs::SelfReports::self_lines))]
fn self_lines(
    alloc: Global,
    advisories: &[Advisory],
    places: &[usize],
) -> Result<String, AllocError>
    ensures { IfOk result (λ text. string_bytes text ≡ spec.self_lines advisories.now places.now) }
{
    let mut out = String::new(alloc);
    push_each(alloc, &mut out, advisories, places)?;
    out.push_str("\n")?;
    Ok(out)
}

/// The line about advisories on the auditor itself; nothing if there are none.
pub fn self_summary(
    alloc: Global,
    deny: &[DenyOption],
    places: &[usize],
) -> Result<String, AllocError>
    ensures { IfOk result (λ text. string_bytes text ≡ spec.self_summary deny.now places.now) }
{
    if places.is_empty() {
        Ok(String::new(alloc))
    } else {
        self_line(alloc, deny)
    }
}

/// What these advisories say about themselves, and an empty line; nothing if there are none.
pub fn self_text(
    alloc: Global,
    advisories: &[Advisory],
    places: &[usize],
) -> Result<String, AllocError>
    ensures { IfOk result (λ text. string_bytes text ≡ spec.self_text advisories.now places.now) }
{
    if places.is_empty() {
        Ok(String::new(alloc))
    } else {
        self_lines(alloc, advisories, places)
    }
}
