//! The configuration of an index, and where its crates are downloaded from.
ghost use Rattle.std.specs.Prelude.{◌≡◌, ◌++◌, ◌∷◌, [], Err, None, Some, IfOk, OnOk, MatchOption, option_map, string_bytes, flat_map, true, false};
ghost use Rattle.std.specs.List.{list_any, slice_split};
ghost use Rattle.std.specs.Str.{str_to_ascii_lowercase};
ghost use Rattle.serde_json.specs.View.{view};
ghost use Rattle.tame_names.specs.KrateNames.{text_of};
ghost use Rattle.tame_names.specs.Names.{prefix};
ghost use Rattle.tame_entry.specs.Config.{config_cmp, config_of_data, with_slash, filled_part, is_brace, slash};
ghost use Rattle.tame_entry.specs.Config as spec;
ghost use Rattle.tame_entry.specs.Prefixes.{without_prefix};

use crate::prefixes::without_prefix;
use serde_json::Value;
use std::alloc::{AllocError, Global};
use std::cmp::Ordering;
use tame_names::{KrateName, NoMemory, Text};
use tame_records::{IndexVersion, LineFault, flag_or_false, read_value, text_or_null};

/// The configuration of an index, its `config.json`. Ordered by `dl`, then by `api`, an absent one
/// first, then by the flag.
#[derive(Debug, Drop, PartialEq, Eq, PartialOrd, Ord)]
pub struct IndexConfig {
    /// Where crates are downloaded from.
    pub dl: Text,
    /// Where the registry's web API is.
    pub api: Option<Text>,
    /// Whether each request must be authorized.
    pub auth_required: bool,
}

/// What configurations compare as.
pub fn configs_compare(one: &IndexConfig, other: &IndexConfig) -> Ordering
    ensures { result ≡ config_cmp one.now other.now }
{
    one.cmp(other)
}

fn config_of(alloc: Global, value: &Value) -> Result<IndexConfig, LineFault>
    ensures ok { IfOk result (λ c. config_of_data (view value.now) ≡ Some c) }
    ensures json { result ≡ Err LineFault.Json → config_of_data (view value.now) ≡ None }
{
    let Some(dl) = value.get("dl").and_then(Value::as_str) else {
        return Err(LineFault::Json);
    };
    let api = text_or_null(value.get("api"))?;
    let auth_required = flag_or_false(value.get("auth-required"))?;
    Ok(IndexConfig {
        dl: Text::of(alloc, dl)?,
        api: Text::of_option(alloc, api)?,
        auth_required,
    })
}

// ---- markers

/// What is before the first `{`, and what is after it.
fn cut_brace(text: &str) -> Option<(&str, &str)>
    ensures { MatchOption result (slice_split is_brace text.now ≡ text.now ∷ [])
        (λ p. slice_split is_brace text.now ≡ p.0.now ∷ slice_split is_brace p.1.now) }
{
    text.split_once('{')
}

fn push_prefix(
    alloc: Global,
    out: &mut String,
    name: KrateName<'_>,
    lower: bool,
) -> Result<(), NoMemory>
    ensures whole { lower ≡ false → OnOk result
        (string_bytes out.new ≡ string_bytes out.old ++ prefix slash (text_of name.entry)) }
    ensures lower { lower ≡ true → OnOk result
        (string_bytes out.new ≡ string_bytes out.old
        ++ str_to_ascii_lowercase (prefix slash (text_of name.entry))) }
{
    let mut folders = String::new(alloc);
    name.prefix(&mut folders, '/')?;
    if lower {
        folders.make_ascii_lowercase();
    }
    Ok(out.push_str(folders.as_str())?)
}

/// Appends what follows a `{`, with a marker's value in place of the marker.
fn push_part(
    alloc: Global,
    out: &mut String,
    part: &str,
    name: KrateName<'_>,
    version: &str,
) -> Result<(), NoMemory>
    ensures { OnOk result (string_bytes out.new
        ≡ string_bytes out.old ++ filled_part (text_of name.entry) version.now part.now) }
{
    if let Some(left) = without_prefix(part, "crate}") {
        out.push_str(name.as_str())?;
        return Ok(out.push_str(left)?);
    }
    if let Some(left) = without_prefix(part, "version}") {
        out.push_str(version)?;
        return Ok(out.push_str(left)?);
    }
    if let Some(left) = without_prefix(part, "prefix}") {
        push_prefix(alloc, out, name, false)?;
        return Ok(out.push_str(left)?);
    }
    if let Some(left) = without_prefix(part, "lowerprefix}") {
        push_prefix(alloc, out, name, true)?;
        return Ok(out.push_str(left)?);
    }
    out.push_str("{")?;
    Ok(out.push_str(part)?)
}

/// Appends the parts after each `{`.
fn push_parts(
    alloc: Global,
    out: &mut String,
    parts: &str,
    name: KrateName<'_>,
    version: &str,
) -> Result<(), NoMemory>
    ensures { OnOk result (string_bytes out.new
        ≡ string_bytes out.old ++ flat_map (filled_part (text_of name.entry) version.now)
        (slice_split is_brace parts.now)) }
{
    let mut left = parts;
    while let Some((part, behind)) = cut_brace(left) {
        push_part(alloc, out, part, name, version)?;
        left = behind;
    }
    push_part(alloc, out, left, name, version)
}

fn filled(alloc: Global, dl: &str, name: KrateName<'_>, version: &str) -> Result<Text, NoMemory>
    ensures { IfOk result (λ t. t ≡ spec.filled (text_of name.entry) version.now dl.now) }
{
    let mut out = String::new(alloc);
    match cut_brace(dl) {
        Some((first, parts)) => {
            out.push_str(first)?;
            push_parts(alloc, &mut out, parts, name, version)?;
        }
        None => out.push_str(dl)?,
    }
    Ok(Text::from_string(out))
}

// ---- the other forms

fn crates_io_url(alloc: Global, name: KrateName<'_>, version: &str) -> Result<Text, NoMemory>
    ensures { IfOk result (λ t. t ≡ spec.crates_io_url (text_of name.entry) version.now) }
{
    let mut out = String::new(alloc);
    out.push_str("https://static.crates.io/crates/")?;
    out.push_str(name.as_str())?;
    out.push_str("/")?;
    out.push_str(name.as_str())?;
    out.push_str("-")?;
    out.push_str(version)?;
    out.push_str(".crate")?;
    Ok(Text::from_string(out))
}

fn plain_url(alloc: Global, dl: &str, name: KrateName<'_>, version: &str) -> Result<Text, NoMemory>
    ensures { IfOk result (λ t. t ≡ spec.plain_url (text_of name.entry) version.now dl.now) }
{
    let mut out = String::new(alloc);
    out.push_str(dl)?;
    if !dl.as_bytes().ends_with(b"/") {
        out.push_str("/")?;
    }
    out.push_str(name.as_str())?;
    out.push_str("/")?;
    out.push_str(version)?;
    out.push_str("/download")?;
    Ok(Text::from_string(out))
}

fn has_brace(text: &str) -> bool
    ensures { result ≡ list_any is_brace text.now }
{
    text.as_bytes().contains(&b'{')
}

impl IndexConfig {
    /// The configuration that bytes are: a UTF-8 JSON object without floats, of equal keys the
    /// last, with `dl`, `api` and `auth-required`; other members are ignored.
    pub fn from_slice(alloc: Global, bytes: &[u8]) -> Result<IndexConfig, LineFault>
        ensures ok { IfOk result (λ c. spec.config_of bytes.now ≡ Some c) }
        ensures json { result ≡ Err LineFault.Json → spec.config_of bytes.now ≡ None }
    {
        let value = read_value(alloc, bytes)?;
        config_of(alloc, &value)
    }

    /// Where a version of a crate is downloaded from.
    ///
    /// A `dl` with a `{` has each `{crate}`, `{version}`, `{prefix}` and `{lowerprefix}` replaced,
    /// in one pass from left to right; another `dl` is a folder.
    pub fn download_url(
        &self,
        alloc: Global,
        name: KrateName<'_>,
        version: &str,
    ) -> Result<Text, NoMemory>
        ensures { IfOk result (λ t. t ≡ spec.download_url
            (text_of name.entry) version.now self.now.dl) }
    {
        let dl = self.dl.as_str();
        if dl == "https://crates.io/api/v1/crates" {
            crates_io_url(alloc, name, version)
        } else if has_brace(dl) {
            filled(alloc, dl, name, version)
        } else {
            plain_url(alloc, dl, name, version)
        }
    }
}

/// Where a version is downloaded from; nothing if its crate's name isn't valid.
pub fn version_url(
    alloc: Global,
    version: &IndexVersion,
    index: &IndexConfig,
) -> Result<Option<Text>, NoMemory>
    ensures { IfOk result
        (λ t. t ≡ spec.version_url version.now.name version.now.version index.now.dl) }
{
    match KrateName::try_from(version.name.as_str()) {
        Ok(name) => Ok(Some(index.download_url(alloc, name, version.version.as_str())?)),
        Err(_) => Ok(None),
    }
}
