//! The attribute lines of the terminal form.
ghost use Rattle.std.specs.Prelude.{◌≡◌, ◌++◌, codes, decimal, nat_eq, option_map, IfOk, OnOk, string_bytes};
ghost use Rattle.std.specs.List.{starts_with};
ghost use Rattle.std.specs.Option.{option_or};
ghost use Rattle.json.specs.Print.{quoted};
ghost use Rattle.report_parts.specs.Attributes.{attribute, attribute_if, database_url, filled, id_url, url_of};
ghost use Rattle.report_parts.specs.Attributes as spec;

use crate::words::severity_word;
use audit_advisory::{Metadata, Severity};
use serde_json::Value;
use std::alloc::{AllocError, Global};
use tame_names::Text;

/// The number of characters that a word is filled to.
const WIDTH: usize = 10;

/// Appends a word, filled to ten characters with spaces.
#[tactic(auto, unfolding(crate::specs::Attributes::filled))]
fn push_filled(out: &mut String, word: &str) -> Result<(), AllocError>
    ensures { OnOk result (string_bytes out.new ≡ string_bytes out.old ++ filled word.now) }
{
    out.push_str(word)?;
    for column in word.len()..WIDTH {
        out.push_str(" ")?;
    }
    Ok(())
}

/// Appends the line of a word and its content.
#[tactic(auto, unfolding(crate::specs::Attributes::attribute))]
pub fn push_attribute(out: &mut String, word: &str, content: &str) -> Result<(), AllocError>
    ensures { OnOk result (string_bytes out.new
        ≡ string_bytes out.old ++ attribute word.now content.now) }
{
    push_filled(out, word)?;
    out.push_str(" ")?;
    out.push_str(content)?;
    out.push_str("\n")
}

fn begins_with(text: &str, prefix: &str) -> bool
    ensures { result ≡ starts_with nat_eq text.now prefix.now }
{
    text.starts_with(prefix)
}

/// Whether a license asks that the stated url be named.
fn is_shared(license: &Option<Text>) -> bool
    ensures { result ≡ spec.is_shared license.now }
{
    match license {
        Some(license) => license.as_str() == "CC-BY-4.0",
        None => false,
    }
}

/// Appends the line of the page for an id of the public database.
#[tactic(auto, unfolding(crate::specs::Attributes::attribute))]
fn push_database_url(out: &mut String, id: &str) -> Result<(), AllocError>
    ensures { OnOk result (string_bytes out.new
        ≡ string_bytes out.old ++ attribute (codes "URL:") (database_url ++ id.now)) }
{
    push_filled(out, "URL:")?;
    out.push_str(" ")?;
    out.push_str("https://rustsec.org/advisories/")?;
    out.push_str(id)?;
    out.push_str("\n")
}

/// Appends the line of an id's page, if it has one.
fn push_id_url(out: &mut String, id: &str) -> Result<(), AllocError>
    ensures { OnOk result (string_bytes out.new
        ≡ string_bytes out.old ++ attribute_if (codes "URL:") (id_url id.now)) }
{
    if begins_with(id, "RUSTSEC-") {
        push_database_url(out, id)
    } else {
        Ok(())
    }
}

/// Appends the line of the stated url, if there is one.
fn push_stated_url(out: &mut String, url: &Option<Text>) -> Result<(), AllocError>
    ensures { OnOk result (string_bytes out.new
        ≡ string_bytes out.old ++ attribute_if (codes "URL:") url.now) }
{
    match url {
        None => Ok(()),
        Some(url) => push_attribute(out, "URL:", url.as_str()),
    }
}

/// Appends the line of the stated url, or else of the id's page.
fn push_url_or_page(out: &mut String, metadata: &Metadata) -> Result<(), AllocError>
    ensures { OnOk result (string_bytes out.new ≡ string_bytes out.old
        ++ attribute_if (codes "URL:") (option_or metadata.now.url (id_url metadata.now.id))) }
{
    match &metadata.url {
        Some(url) => push_attribute(out, "URL:", url.as_str()),
        None => push_id_url(out, metadata.id.as_str()),
    }
}

/// Appends the line of the id's page, or else of the stated url.
fn push_page_or_url(out: &mut String, metadata: &Metadata) -> Result<(), AllocError>
    ensures { OnOk result (string_bytes out.new ≡ string_bytes out.old
        ++ attribute_if (codes "URL:") (option_or (id_url metadata.now.id) metadata.now.url)) }
{
    if begins_with(metadata.id.as_str(), "RUSTSEC-") {
        push_database_url(out, metadata.id.as_str())
    } else {
        push_stated_url(out, &metadata.url)
    }
}

/// Appends the line of an advisory's url, if it has one.
pub fn push_url(out: &mut String, metadata: &Metadata) -> Result<(), AllocError>
    ensures { OnOk result (string_bytes out.new
        ≡ string_bytes out.old ++ attribute_if (codes "URL:") (url_of metadata.now)) }
{
    if is_shared(&metadata.license) {
        push_url_or_page(out, metadata)
    } else {
        push_page_or_url(out, metadata)
    }
}

/// Appends a number.
pub fn push_number(alloc: Global, out: &mut String, number: u64) -> Result<(), AllocError>
    ensures { OnOk result (string_bytes out.new ≡ string_bytes out.old ++ decimal number) }
{
    let text = format!(in alloc; "{number}")?;
    out.push_str(text.as_str())
}

/// Appends a text as a JSON string.
pub fn push_quoted(alloc: Global, out: &mut String, text: &str) -> Result<(), AllocError>
    ensures { OnOk result (string_bytes out.new ≡ string_bytes out.old ++ quoted text.now) }
{
    let quoted = Value::String(String::from_str(alloc, text)?).to_string(alloc)?;
    out.push_str(quoted.as_str())
}

/// Tenths with one decimal.
#[tactic(auto, unfolding(crate::specs::Attributes::one_decimal))]
pub fn one_decimal(alloc: Global, tenths: u8) -> Result<String, AllocError>
    ensures { IfOk result (λ text. string_bytes text ≡ spec.one_decimal tenths) }
{
    let mut out = String::new(alloc);
    push_number(alloc, &mut out, (tenths / 10) as u64)?;
    out.push_str(".")?;
    push_number(alloc, &mut out, (tenths % 10) as u64)?;
    Ok(out)
}

/// A score in tenths, with one decimal and its severity.
#[tactic(auto, unfolding(crate::specs::Attributes::score))]
fn score(alloc: Global, tenths: u8) -> Result<String, AllocError>
    ensures { IfOk result (λ text. string_bytes text ≡ spec.score tenths) }
{
    let mut out = one_decimal(alloc, tenths)?;
    out.push_str(" (")?;
    out.push_str(severity_word(Severity::of(tenths)))?;
    out.push_str(")")?;
    Ok(out)
}

/// Appends the line of a score in tenths, if there is one.
pub fn push_severity(alloc: Global, out: &mut String, tenths: Option<u8>) -> Result<(), AllocError>
    ensures { OnOk result (string_bytes out.new
        ≡ string_bytes out.old ++ attribute_if (codes "Severity:") (option_map spec.score tenths)) }
{
    match tenths {
        None => Ok(()),
        Some(tenths) => {
            let content = score(alloc, tenths)?;
            push_attribute(out, "Severity:", content.as_str())
        }
    }
}
