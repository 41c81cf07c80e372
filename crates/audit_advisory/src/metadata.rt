//! What an advisory says of itself.
ghost use Rattle.std.specs.Prelude.{◌≡◌, ◌≢◌, IfOk, IfErr, Ok, Err, option_map};
ghost use Rattle.toml.specs.View.{view, table_view};
ghost use Rattle.toml_tables.specs.Members.{optional, required};
ghost use Rattle.audit_advisory.specs.Fields.{as_date, as_filled, kind_of, metadata_of};
ghost use Rattle.audit_advisory.specs.Fields as spec;

use crate::faults::{AdvisoryFault, AdvisoryRule};
use std::alloc::Global;
use tame_names::{NoMemory, Text};
use toml::{Table, Value};
use toml_tables::{member, optional_number, optional_text};

/// What an advisory informs about, if it reports no vulnerability.
#[derive(Debug, Drop, PartialEq, Eq)]
pub enum Informational {
    /// Something to note.
    Notice,
    /// Nobody maintains the package.
    Unmaintained,
    /// The package is unsound.
    Unsound,
    /// Another word, as written.
    Other(Text),
}

/// What an advisory says of itself.
#[derive(Debug, Drop, PartialEq, Eq)]
pub struct Metadata {
    /// The id, for example `RUSTSEC-2024-0001`; it isn't empty.
    pub id: Text,
    /// The name of the package that it is about; it isn't empty.
    pub package: Text,
    /// The rest of the line after `# `.
    pub title: Text,
    /// What follows the title.
    pub description: Text,
    /// Year, month and day, in the form `2024-01-31`.
    pub date: Text,
    /// A link with more information, if it is stated.
    pub url: Option<Text>,
    /// The source of the package, as a lockfile writes it, if it is stated.
    pub source: Option<Text>,
    /// What it informs about; none if the advisory reports a vulnerability.
    pub informational: Option<Informational>,
    /// Year, month and day, in the form `2024-01-31`.
    pub withdrawn: Option<Text>,
    /// The licence of the advisory's text, if it is stated.
    pub license: Option<Text>,
    /// The CVSS vector, as written, if it is stated.
    pub cvss: Option<Text>,
    /// The score in tenths, 0 to 100.
    pub score_tenths: Option<u8>,
}

fn filled_text<'a>(member: Option<&'a Value>) -> Option<&'a str>
    ensures { option_map (λ s. s.now) result
        ≡ required as_filled (option_map (λ v. view v.now) member.entry) }
{
    match member {
        Some(Value::String(text)) if !text.as_str().is_empty() => Some(text.as_str()),
        _ => None,
    }
}

/// Whether a string has this form: a digit for each `d`, and every other byte as it is.
fn has_form(form: &[u8], text: &[u8]) -> bool
    ensures { result ≡ spec.has_form form.now text.now }
{
    if form.len() != text.len() {
        return false;
    }
    for (i, mark) in form.iter().enumerate() {
        let byte = text[i];
        let fits = if *mark == b'd' {
            byte.is_ascii_digit()
        } else {
            byte == *mark
        };
        if !fits {
            return false;
        }
    }
    true
}

fn is_date(text: &str) -> bool
    ensures { result ≡ spec.is_date text.now }
{
    has_form(b"dddd-dd-dd", text.as_bytes())
}

fn required_date<'a>(member: Option<&'a Value>) -> Option<&'a str>
    ensures { option_map (λ s. s.now) result
        ≡ required as_date (option_map (λ v. view v.now) member.entry) }
{
    match member {
        Some(Value::String(text)) if is_date(text.as_str()) => Some(text.as_str()),
        _ => None,
    }
}

fn optional_date<'a>(member: Option<&'a Value>) -> Option<Option<&'a str>>
    ensures { option_map (option_map (λ s. s.now)) result
        ≡ optional as_date (option_map (λ v. view v.now) member.entry) }
{
    match member {
        None => Some(None),
        Some(Value::String(text)) if is_date(text.as_str()) => Some(Some(text.as_str())),
        Some(_) => None,
    }
}

fn score_or_absent(member: Option<&Value>) -> Option<Option<u8>>
    ensures { result ≡ spec.score_or_absent (option_map (λ v. view v.now) member.entry) }
{
    match optional_number(member)? {
        None => Some(None),
        Some(score) if score <= 100 => Some(Some(score as u8)),
        Some(_) => None,
    }
}

impl Informational {
    /// The kind that a string names.
    pub fn of(alloc: Global, text: &str) -> Result<Informational, NoMemory>
        ensures { IfOk result (λ kind. kind ≡ kind_of text.now) }
    {
        if text == "notice" {
            Ok(Informational::Notice)
        } else if text == "unmaintained" {
            Ok(Informational::Unmaintained)
        } else if text == "unsound" {
            Ok(Informational::Unsound)
        } else {
            Ok(Informational::Other(Text::of(alloc, text)?))
        }
    }

    /// A copy of this kind.
    pub fn copied(&self, alloc: Global) -> Result<Informational, NoMemory>
        ensures { IfOk result (λ copy. copy ≡ self.now) }
    {
        match self {
            Informational::Notice => Ok(Informational::Notice),
            Informational::Unmaintained => Ok(Informational::Unmaintained),
            Informational::Unsound => Ok(Informational::Unsound),
            Informational::Other(text) => Ok(Informational::Other(text.try_clone(alloc)?)),
        }
    }
}

/// A string that isn't empty, at a key.
fn filled_field(
    alloc: Global,
    table: &Table,
    key: &str,
    rule: AdvisoryRule,
) -> Result<Text, AdvisoryFault>
    ensures ok { IfOk result (λ t. spec.filled_field key.now rule (table_view table.now) ≡ Ok t) }
    ensures refused { IfErr result (λ e. e ≢ AdvisoryFault.NoMemory
        → spec.filled_field key.now rule (table_view table.now) ≡ Err e) }
{
    match filled_text(member(table, key)) {
        Some(text) => Ok(Text::of(alloc, text)?),
        None => Err(AdvisoryFault::Rule(rule)),
    }
}

/// A string at a key, or nothing if it is absent.
fn text_field(
    alloc: Global,
    table: &Table,
    key: &str,
    rule: AdvisoryRule,
) -> Result<Option<Text>, AdvisoryFault>
    ensures ok { IfOk result (λ t. spec.text_field key.now rule (table_view table.now) ≡ Ok t) }
    ensures refused { IfErr result (λ e. e ≢ AdvisoryFault.NoMemory
        → spec.text_field key.now rule (table_view table.now) ≡ Err e) }
{
    match optional_text(member(table, key)) {
        Some(text) => Ok(Text::of_option(alloc, text)?),
        None => Err(AdvisoryFault::Rule(rule)),
    }
}

fn date_field(alloc: Global, table: &Table) -> Result<Text, AdvisoryFault>
    ensures ok { IfOk result (λ t. spec.date_field (table_view table.now) ≡ Ok t) }
    ensures refused { IfErr result (λ e. e ≢ AdvisoryFault.NoMemory
        → spec.date_field (table_view table.now) ≡ Err e) }
{
    match required_date(member(table, "date")) {
        Some(text) => Ok(Text::of(alloc, text)?),
        None => Err(AdvisoryFault::Rule(AdvisoryRule::Date)),
    }
}

fn withdrawn_field(alloc: Global, table: &Table) -> Result<Option<Text>, AdvisoryFault>
    ensures ok { IfOk result (λ t. spec.withdrawn_field (table_view table.now) ≡ Ok t) }
    ensures refused { IfErr result (λ e. e ≢ AdvisoryFault.NoMemory
        → spec.withdrawn_field (table_view table.now) ≡ Err e) }
{
    match optional_date(member(table, "withdrawn")) {
        Some(text) => Ok(Text::of_option(alloc, text)?),
        None => Err(AdvisoryFault::Rule(AdvisoryRule::Withdrawn)),
    }
}

fn informational_field(alloc: Global, table: &Table) -> Result<Option<Informational>, AdvisoryFault>
    ensures ok { IfOk result (λ kind. spec.informational_field (table_view table.now) ≡ Ok kind) }
    ensures refused { IfErr result (λ e. e ≢ AdvisoryFault.NoMemory
        → spec.informational_field (table_view table.now) ≡ Err e) }
{
    match optional_text(member(table, "informational")) {
        Some(Some(text)) => Ok(Some(Informational::of(alloc, text)?)),
        Some(None) => Ok(None),
        None => Err(AdvisoryFault::Rule(AdvisoryRule::Informational)),
    }
}

fn score_field(table: &Table) -> Result<Option<u8>, AdvisoryFault>
    ensures { result ≡ spec.score_field (table_view table.now) }
{
    match score_or_absent(member(table, "score_tenths")) {
        Some(score) => Ok(score),
        None => Err(AdvisoryFault::Rule(AdvisoryRule::Score)),
    }
}

/// What the table `[advisory]` says, with a title and a description.
pub fn read_metadata(
    alloc: Global,
    title: &str,
    description: &str,
    table: &Table,
) -> Result<Metadata, AdvisoryFault>
    ensures ok { IfOk result (λ m.
        metadata_of (title.now, description.now) (table_view table.now) ≡ Ok m) }
    ensures refused { IfErr result (λ e. e ≢ AdvisoryFault.NoMemory
        → metadata_of (title.now, description.now) (table_view table.now) ≡ Err e) }
{
    let id = filled_field(alloc, table, "id", AdvisoryRule::Id)?;
    let package = filled_field(alloc, table, "package", AdvisoryRule::Package)?;
    let date = date_field(alloc, table)?;
    let withdrawn = withdrawn_field(alloc, table)?;
    let url = text_field(alloc, table, "url", AdvisoryRule::Url)?;
    let source = text_field(alloc, table, "source", AdvisoryRule::Source)?;
    let license = text_field(alloc, table, "license", AdvisoryRule::License)?;
    let cvss = text_field(alloc, table, "cvss", AdvisoryRule::Cvss)?;
    let informational = informational_field(alloc, table)?;
    let score_tenths = score_field(table)?;
    Ok(Metadata {
        id,
        package,
        title: Text::of(alloc, title)?,
        description: Text::of(alloc, description)?,
        date,
        url,
        source,
        informational,
        withdrawn,
        license,
        cvss,
        score_tenths,
    })
}
