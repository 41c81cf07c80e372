//! The texts of the SARIF form.
ghost use Rattle.std.specs.Prelude.{◌≡◌, ◌++◌, codes, IfOk, OnOk, option_map, string_bytes};
ghost use Rattle.audit_sarif.specs.SarifTexts as spec;

use audit_advisory::{Advisory, Metadata, WarningKind};
use audit_lock::Package;
use report_parts::kind_word;
use std::alloc::{AllocError, Global};

/// The page that says more.
#[tactic(auto, unfolding(crate::specs::SarifTexts::help_text))]
pub fn help_text(alloc: Global, url: &str) -> Result<String, AllocError>
    ensures { IfOk result (λ text. string_bytes text ≡ spec.help_text url.now) }
{
    let mut out = String::from_str(alloc, "For more information, see: ")?;
    out.push_str(url)?;
    Ok(out)
}

/// The page that says more, as a link in Markdown.
#[tactic(auto, unfolding(crate::specs::SarifTexts::help_markdown))]
pub fn help_markdown(alloc: Global, id: &str, url: &str) -> Result<String, AllocError>
    ensures { IfOk result (λ text. string_bytes text ≡ spec.help_markdown id.now url.now) }
{
    let mut out = String::from_str(alloc, "For more information, see: [")?;
    out.push_str(id)?;
    out.push_str("](")?;
    out.push_str(url)?;
    out.push_str(")")?;
    Ok(out)
}

/// A package by its name and its version.
#[tactic(auto, unfolding(crate::specs::SarifTexts::named))]
fn named(alloc: Global, locked: &Package) -> Result<String, AllocError>
    ensures { IfOk result (λ text. string_bytes text ≡ spec.named locked.now) }
{
    let mut out = String::from_str(alloc, locked.name.as_str())?;
    out.push_str(" ")?;
    out.push_str(locked.version.as_str())?;
    Ok(out)
}

/// What is reported of a vulnerability.
#[tactic(auto, unfolding(crate::specs::SarifTexts::hit_message))]
pub fn hit_message(
    alloc: Global,
    locked: &Package,
    metadata: &Metadata,
) -> Result<String, AllocError>
    ensures { IfOk result (λ text. string_bytes text ≡ spec.hit_message locked.now metadata.now) }
{
    let mut out = named(alloc, locked)?;
    out.push_str(" is vulnerable to ")?;
    out.push_str(metadata.id.as_str())?;
    out.push_str(" (")?;
    out.push_str(metadata.title.as_str())?;
    out.push_str(")")?;
    Ok(out)
}

/// What is reported of a warning of a kind.
#[tactic(auto, unfolding(crate::specs::SarifTexts::kind_message))]
fn kind_message(alloc: Global, kind: WarningKind, locked: &Package) -> Result<String, AllocError>
    ensures { IfOk result (λ text. string_bytes text ≡ spec.kind_message kind locked.now) }
{
    let mut out = named(alloc, locked)?;
    out.push_str(" has a ")?;
    out.push_str(kind_word(kind))?;
    out.push_str(" warning")?;
    Ok(out)
}

/// What is reported of a warning that an advisory gives.
#[tactic(auto, unfolding(crate::specs::SarifTexts::titled_message))]
fn titled_message(
    alloc: Global,
    kind: WarningKind,
    locked: &Package,
    metadata: &Metadata,
) -> Result<String, AllocError>
    ensures { IfOk result (λ text. string_bytes text
        ≡ spec.titled_message kind locked.now metadata.now) }
{
    let mut out = kind_message(alloc, kind, locked)?;
    out.push_str(": ")?;
    out.push_str(metadata.title.as_str())?;
    Ok(out)
}

/// What is reported of a warning.
pub fn warning_message(
    alloc: Global,
    kind: WarningKind,
    locked: &Package,
    advisory: Option<&Advisory>,
) -> Result<String, AllocError>
    ensures { IfOk result (λ text. string_bytes text
        ≡ spec.warning_message kind locked.now (option_map (λ a. a.now) advisory.entry)) }
{
    match advisory {
        None => kind_message(alloc, kind, locked),
        Some(advisory) => titled_message(alloc, kind, locked, &advisory.metadata),
    }
}

/// Appends a colon and a part.
fn push_part(out: &mut String, part: &str) -> Result<(), AllocError>
    ensures { OnOk result (string_bytes out.new
        ≡ string_bytes out.old ++ codes ":" ++ part.now) }
{
    out.push_str(":")?;
    out.push_str(part)
}

/// What makes a result the same one in the next run.
#[tactic(auto, unfolding(crate::specs::SarifTexts::fingerprint))]
pub fn fingerprint(alloc: Global, id: &str, locked: &Package) -> Result<String, AllocError>
    ensures { IfOk result (λ text. string_bytes text ≡ spec.fingerprint id.now locked.now) }
{
    let mut out = String::from_str(alloc, id)?;
    push_part(&mut out, locked.name.as_str())?;
    push_part(&mut out, locked.version.as_str())?;
    Ok(out)
}
