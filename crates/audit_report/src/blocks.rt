//! The lines of a vulnerability and of a warning.
ghost use Rattle.std.specs.Prelude.{◌≡◌, ◌++◌, IfOk, OnOk, option_map, string_bytes};
ghost use Rattle.audit_report.specs.Blocks.{crate_lines, metadata_lines, or_texts, told_lines};
ghost use Rattle.audit_report.specs.Blocks as spec;

use crate::affected::push_affected;
use crate::symbols::SymbolSet;
use audit_advisory::{Advisory, Metadata, Requirement, WarningKind};
use audit_lock::Package;
use report_parts::{kind_word, push_attribute, push_severity, push_url, requirement_text};
use std::alloc::{AllocError, Global};
use tame_names::NoMemory;

#[tactic(auto, unfolding(crate::specs::Blocks::crate_lines))]
fn push_crate(out: &mut String, locked: &Package) -> Result<(), AllocError>
    ensures { OnOk result (string_bytes out.new ≡ string_bytes out.old ++ crate_lines locked.now) }
{
    push_attribute(out, "Crate:", locked.name.as_str())?;
    push_attribute(out, "Version:", locked.version.as_str())
}

/// Appends what an advisory says about itself.
#[tactic(auto, unfolding(crate::specs::Blocks::metadata_lines))]
pub fn push_metadata(alloc: Global, out: &mut String, metadata: &Metadata) -> Result<(), AllocError>
    ensures { OnOk result (string_bytes out.new
        ≡ string_bytes out.old ++ metadata_lines metadata.now) }
{
    push_attribute(out, "Title:", metadata.title.as_str())?;
    push_attribute(out, "Date:", metadata.date.as_str())?;
    push_attribute(out, "ID:", metadata.id.as_str())?;
    push_url(out, metadata)?;
    push_severity(alloc, out, metadata.score_tenths)
}

fn push_or_texts(out: &mut String, texts: &[Requirement]) -> Result<(), AllocError>
    ensures { OnOk result (string_bytes out.new ≡ string_bytes out.old ++ or_texts texts.now) }
{
    for text in texts {
        out.push_str(" OR ")?;
        out.push_str(requirement_text(text))?;
    }
    Ok(())
}

/// The versions to upgrade to, if there are any.
#[tactic(auto, unfolding(crate::specs::Blocks::solution))]
fn solution(alloc: Global, patched: &[Requirement]) -> Result<String, AllocError>
    ensures { IfOk result (λ text. string_bytes text ≡ spec.solution patched.now) }
{
    let Some((first, more)) = patched.split_first() else {
        return String::from_str(alloc, "No fixed upgrade is available!");
    };
    let mut out = String::from_str(alloc, "Upgrade to ")?;
    out.push_str(requirement_text(first))?;
    push_or_texts(&mut out, more)?;
    Ok(out)
}

/// The lines for a package that an advisory hits.
#[tactic(auto, unfolding(crate::specs::Blocks::vulnerability_lines))]
pub fn vulnerability_lines(
    alloc: Global,
    symbols: &Option<SymbolSet>,
    locked: &Package,
    advisory: &Advisory,
) -> Result<String, NoMemory>
    ensures { IfOk result (λ text. string_bytes text
        ≡ spec.vulnerability_lines symbols.now locked.now advisory.now) }
{
    let mut out = String::new(alloc);
    push_crate(&mut out, locked)?;
    push_metadata(alloc, &mut out, &advisory.metadata)?;
    let solution = solution(alloc, advisory.versions.patched())?;
    push_attribute(&mut out, "Solution:", solution.as_str())?;
    push_affected(alloc, &mut out, symbols, locked, advisory)?;
    Ok(out)
}

/// Appends what an advisory says in a warning about a package.
#[tactic(auto, unfolding(crate::specs::Blocks::told_lines))]
fn push_told(
    alloc: Global,
    out: &mut String,
    symbols: &Option<SymbolSet>,
    locked: &Package,
    advisory: &Advisory,
) -> Result<(), NoMemory>
    ensures { OnOk result (string_bytes out.new
        ≡ string_bytes out.old ++ told_lines symbols.now locked.now advisory.now) }
{
    push_metadata(alloc, out, &advisory.metadata)?;
    push_affected(alloc, out, symbols, locked, advisory)
}

/// The lines of a warning about a package.
#[tactic(auto, unfolding(crate::specs::Blocks::warning_lines))]
pub fn warning_lines(
    alloc: Global,
    symbols: &Option<SymbolSet>,
    kind: WarningKind,
    locked: &Package,
    advisory: Option<&Advisory>,
) -> Result<String, NoMemory>
    ensures { IfOk result (λ text. string_bytes text
        ≡ spec.warning_lines symbols.now kind locked.now
        (option_map (λ a. a.now) advisory.entry)) }
{
    let mut out = String::new(alloc);
    push_crate(&mut out, locked)?;
    push_attribute(&mut out, "Warning:", kind_word(kind))?;
    if let Some(advisory) = advisory {
        push_told(alloc, &mut out, symbols, locked, advisory)?;
    }
    Ok(out)
}
