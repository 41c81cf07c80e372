//! The rules of the SARIF form.
ghost use Rattle.std.specs.Prelude.{◌≡◌, IfOk, option_map};
ghost use Rattle.report_parts.specs.Attributes.{one_decimal};
ghost use Rattle.audit_sarif.specs.Sarif as spec;

use crate::sarif_logs::{Level, MultiformatMessageString, Precision, Rule};
use crate::sarif_texts::{help_markdown, help_text};
use crate::sarif_words::kind_text;
use audit_advisory::{Advisory, Metadata, WarningKind};
use report_parts::{kind_word, one_decimal};
use std::alloc::Global;
use tame_names::{NoMemory, Text};

fn plain(alloc: Global, text: &str) -> Result<MultiformatMessageString, NoMemory>
    ensures { IfOk result (λ message. message ≡ spec.plain text.now) }
{
    Ok(MultiformatMessageString {
        text: Text::of(alloc, text)?,
        markdown: None,
    })
}

/// A description, unless it is empty.
fn described(alloc: Global, text: &str) -> Result<Option<MultiformatMessageString>, NoMemory>
    ensures { IfOk result (λ message. message ≡ spec.described text.now) }
{
    if text.is_empty() {
        Ok(None)
    } else {
        Ok(Some(plain(alloc, text)?))
    }
}

fn help(alloc: Global, id: &str, url: &str) -> Result<MultiformatMessageString, NoMemory>
    ensures { IfOk result (λ message. message ≡ spec.help id.now url.now) }
{
    Ok(MultiformatMessageString {
        text: Text::from_string(help_text(alloc, url)?),
        markdown: Some(Text::from_string(help_markdown(alloc, id, url)?)),
    })
}

/// The page that says more, if an advisory states one.
fn stated_help(
    alloc: Global,
    id: &str,
    url: &Option<Text>,
) -> Result<Option<MultiformatMessageString>, NoMemory>
    ensures { IfOk result (λ message. message ≡ option_map (spec.help id.now) url.now) }
{
    match url {
        None => Ok(None),
        Some(url) => Ok(Some(help(alloc, id, url.as_str())?)),
    }
}

/// A score in tenths, with one decimal.
fn security_severity(alloc: Global, tenths: Option<u8>) -> Result<Option<Text>, NoMemory>
    ensures { IfOk result (λ text. text ≡ option_map one_decimal tenths) }
{
    match tenths {
        None => Ok(None),
        Some(tenths) => Ok(Some(Text::from_string(one_decimal(alloc, tenths)?))),
    }
}

/// The rule that an advisory is.
pub fn advisory_rule(alloc: Global, level: Level, metadata: &Metadata) -> Result<Rule, NoMemory>
    ensures { IfOk result (λ rule. rule ≡ spec.advisory_rule level metadata.now) }
{
    Ok(Rule {
        id: metadata.id.try_clone(alloc)?,
        short_description: plain(alloc, metadata.title.as_str())?,
        full_description: described(alloc, metadata.description.as_str())?,
        level,
        help: stated_help(alloc, metadata.id.as_str(), &metadata.url)?,
        precision: Precision::VeryHigh,
        security_severity: security_severity(alloc, metadata.score_tenths)?,
    })
}

/// The rule that a kind of warning is.
fn kind_rule(alloc: Global, kind: WarningKind) -> Result<Rule, NoMemory>
    ensures { IfOk result (λ rule. rule ≡ spec.kind_rule kind) }
{
    Ok(Rule {
        id: Text::of(alloc, kind_word(kind))?,
        short_description: plain(alloc, kind_text(kind))?,
        full_description: None,
        level: Level::Warning,
        help: None,
        precision: Precision::High,
        security_severity: None,
    })
}

/// The rule of a warning: its advisory, or else its kind.
pub fn warning_rule(
    alloc: Global,
    kind: WarningKind,
    advisory: Option<&Advisory>,
) -> Result<Rule, NoMemory>
    ensures { IfOk result (λ rule. rule
        ≡ spec.warning_rule kind (option_map (λ a. a.now) advisory.entry)) }
{
    match advisory {
        None => kind_rule(alloc, kind),
        Some(advisory) => advisory_rule(alloc, Level::Warning, &advisory.metadata),
    }
}

/// The id of a warning's rule.
pub fn warning_id<'a>(kind: WarningKind, advisory: Option<&'a Advisory>) -> &'a str
    ensures { result.now ≡ spec.warning_id kind (option_map (λ a. a.now) advisory.entry) }
{
    match advisory {
        None => kind_word(kind),
        Some(advisory) => advisory.metadata.id.as_str(),
    }
}
