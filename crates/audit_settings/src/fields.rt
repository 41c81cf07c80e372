//! What is at a key of a table of the settings. Most functions take the key's own name, and its
//! name as `table.key`, which a refusal uses.
ghost use Rattle.std.specs.Prelude.{◌≡◌, IfOk, Ok, map, option_map};
ghost use Rattle.toml.specs.View.{view, table_view};
ghost use Rattle.toml_tables.specs.Members.{optional};
ghost use Rattle.audit_advisory.specs.Fields.{kind_of};
ghost use Rattle.audit_settings.specs.Refusals.{Refuses};
ghost use Rattle.audit_settings.specs.Settings.{as_filter, as_format, as_kinds, as_severity};
ghost use Rattle.audit_settings.specs.Settings as spec;

use crate::configs::{FilterList, SettingsFault};
use audit_advisory::{DenyOption, Informational, OutputFormat, Severity};
use std::alloc::Global;
use tame_names::{Items, NoMemory, Text};
use toml::{Table, Value};
use toml_tables::{member, optional_flag, optional_text, optional_texts, texts_of};

/// The severity that a word in lower case names.
fn severity_named(text: &str) -> Option<Severity>
    ensures { result ≡ spec.severity_named text.now }
{
    match text {
        "none" => Some(Severity::None),
        "low" => Some(Severity::Low),
        "medium" => Some(Severity::Medium),
        "high" => Some(Severity::High),
        "critical" => Some(Severity::Critical),
        _ => None,
    }
}

/// A severity, or that it is absent; nothing if the member is another value.
pub fn optional_severity(member: Option<&Value>) -> Option<Option<Severity>>
    ensures { result ≡ optional as_severity (option_map (λ v. view v.now) member.entry) }
{
    match optional_text(member)? {
        None => Some(None),
        Some(text) => Some(Some(severity_named(text)?)),
    }
}

/// The form of a report, or that it is absent; nothing if the member is another value.
pub fn optional_format(member: Option<&Value>) -> Option<Option<OutputFormat>>
    ensures { result ≡ optional as_format (option_map (λ v. view v.now) member.entry) }
{
    match optional_text(member)? {
        None => Some(None),
        Some(text) => Some(Some(OutputFormat::from_word(text)?)),
    }
}

/// The kind that each string names.
fn kinds_named(alloc: Global, texts: &[Text]) -> Result<Items<Informational>, NoMemory>
    ensures { IfOk result (λ kinds. kinds ≡ map kind_of texts.now) }
{
    let mut kinds = Items::new(alloc);
    for text in texts {
        kinds.add(Informational::of(alloc, text.as_str())?)?;
    }
    Ok(kinds)
}

/// What is warned about, or that it is absent; nothing if the member is another value.
pub fn optional_kinds(
    alloc: Global,
    member: Option<&Value>,
) -> Result<Option<Option<Items<Informational>>>, NoMemory>
    ensures { IfOk result (λ kinds.
        kinds ≡ optional as_kinds (option_map (λ v. view v.now) member.entry)) }
{
    let Some(value) = member else {
        return Ok(Some(None));
    };
    match texts_of(alloc, value)? {
        None => Ok(None),
        Some(texts) => Ok(Some(Some(kinds_named(alloc, texts.as_slice())?))),
    }
}

fn deny_options_in(alloc: Global, texts: &[Text]) -> Result<Option<Items<DenyOption>>, NoMemory>
    ensures { IfOk result (λ options. options ≡ spec.deny_options_in texts.now) }
{
    let mut options = Items::new(alloc);
    for text in texts {
        let Some(option) = DenyOption::from_word(text.as_str()) else {
            return Ok(None);
        };
        options.add(option)?;
    }
    Ok(Some(options))
}

/// What is denied: an empty list if the member is absent, `None` if it has another form.
pub fn deny_options(
    alloc: Global,
    member: Option<&Value>,
) -> Result<Option<Items<DenyOption>>, NoMemory>
    ensures { IfOk result (λ options.
        options ≡ spec.deny_options (option_map (λ v. view v.now) member.entry)) }
{
    match optional_texts(alloc, member)? {
        None => Ok(None),
        Some(texts) => deny_options_in(alloc, texts.as_slice()),
    }
}

fn filter_of(alloc: Global, value: &Value) -> Result<Option<FilterList>, NoMemory>
    ensures { IfOk result (λ filter. filter ≡ as_filter (view value.now)) }
{
    match value {
        Value::String(text) => Ok(Some(FilterList::Single(Text::of(alloc, text.as_str())?))),
        _ => match texts_of(alloc, value)? {
            None => Ok(None),
            Some(texts) => Ok(Some(FilterList::Many(texts))),
        },
    }
}

/// A string, or that it is absent.
pub fn text_field(
    alloc: Global,
    table: &Table,
    key: &str,
    place: &'static str,
) -> Result<Option<Text>, SettingsFault>
    ensures ok { IfOk result (λ t. spec.text_field key.now place.now (table_view table.now)
        ≡ Ok t) }
    ensures refused { Refuses result (spec.text_field key.now place.now (table_view table.now)) }
{
    match optional_text(member(table, key)) {
        Some(text) => Ok(Text::of_option(alloc, text)?),
        None => Err(SettingsFault::Value { key: place }),
    }
}

/// A flag, true if it is absent.
pub fn flag_field(table: &Table, key: &str, place: &'static str) -> Result<bool, SettingsFault>
    ensures ok { IfOk result (λ b. spec.flag_field key.now place.now (table_view table.now)
        ≡ Ok b) }
    ensures refused { Refuses result (spec.flag_field key.now place.now (table_view table.now)) }
{
    match optional_flag(member(table, key)) {
        Some(Some(flag)) => Ok(flag),
        Some(None) => Ok(true),
        None => Err(SettingsFault::Value { key: place }),
    }
}

/// A flag that must be there.
pub fn required_flag(table: &Table, key: &str, place: &'static str) -> Result<bool, SettingsFault>
    ensures ok { IfOk result (λ b. spec.required_flag key.now place.now (table_view table.now)
        ≡ Ok b) }
    ensures refused { Refuses result (spec.required_flag key.now place.now (table_view table.now)) }
{
    match optional_flag(member(table, key)) {
        Some(Some(flag)) => Ok(flag),
        Some(None) => Err(SettingsFault::Missing { key: place }),
        None => Err(SettingsFault::Value { key: place }),
    }
}

/// A string or an array of strings, or that it is absent.
pub fn filter_field(
    alloc: Global,
    table: &Table,
    key: &str,
    place: &'static str,
) -> Result<Option<FilterList>, SettingsFault>
    ensures ok { IfOk result (λ f. spec.filter_field key.now place.now (table_view table.now)
        ≡ Ok f) }
    ensures refused { Refuses result (spec.filter_field key.now place.now (table_view table.now)) }
{
    let Some(value) = member(table, key) else {
        return Ok(None);
    };
    match filter_of(alloc, value)? {
        Some(filter) => Ok(Some(filter)),
        None => Err(SettingsFault::Value { key: place }),
    }
}
