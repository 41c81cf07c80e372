//! The value at a key: one of the wanted form, another one, or none. Each function takes the member
//! that was found, or nothing if the key is absent.
ghost use Rattle.std.specs.Prelude.{◌≡◌, [], Ok, Some, None, IfOk, option_map};
ghost use Rattle.toml.specs.Data.{as_bool, as_str, as_table};
ghost use Rattle.toml.specs.View.{view, table_view, items_view};
ghost use Rattle.toml_tables.specs.Members.{natural, optional, required};
ghost use Rattle.toml_tables.specs.Members as spec;

use std::alloc::Global;
use tame_names::{Items, NoMemory, Text};
use toml::{Table, Value};

/// A string; nothing if the member is absent or of another form.
pub fn required_text<'a>(member: Option<&'a Value>) -> Option<&'a str>
    ensures { option_map (λ s. s.now) result
        ≡ required as_str (option_map (λ v. view v.now) member.entry) }
{
    match member {
        Some(Value::String(text)) => Some(text.as_str()),
        _ => None,
    }
}

/// A string, or that the member is absent; nothing if it is of another form.
pub fn optional_text<'a>(member: Option<&'a Value>) -> Option<Option<&'a str>>
    ensures { option_map (option_map (λ s. s.now)) result
        ≡ optional as_str (option_map (λ v. view v.now) member.entry) }
{
    match member {
        None => Some(None),
        Some(Value::String(text)) => Some(Some(text.as_str())),
        Some(_) => None,
    }
}

/// A flag, or that the member is absent; nothing if it is of another form.
pub fn optional_flag(member: Option<&Value>) -> Option<Option<bool>>
    ensures { result ≡ optional as_bool (option_map (λ v. view v.now) member.entry) }
{
    match member {
        None => Some(None),
        Some(Value::Boolean(flag)) => Some(Some(*flag)),
        Some(_) => None,
    }
}

/// A whole number from 0 to 2^63 - 1, or that the member is absent; nothing if it is another
/// number, or of another form.
pub fn optional_number(member: Option<&Value>) -> Option<Option<u64>>
    ensures { result ≡ optional natural (option_map (λ v. view v.now) member.entry) }
{
    match member {
        None => Some(None),
        Some(Value::Integer(number)) if 0 <= *number => Some(Some(*number as u64)),
        Some(_) => None,
    }
}

/// A table; nothing if the member is absent or of another form.
pub fn required_table<'a>(member: Option<&'a Value>) -> Option<&'a Table>
    ensures { option_map (λ t. table_view t.now) result
        ≡ required as_table (option_map (λ v. view v.now) member.entry) }
{
    match member {
        Some(Value::Table(table)) => Some(table),
        _ => None,
    }
}

/// A table, or that the member is absent; nothing if it is of another form.
pub fn optional_table<'a>(member: Option<&'a Value>) -> Option<Option<&'a Table>>
    ensures { option_map (option_map (λ t. table_view t.now)) result
        ≡ optional as_table (option_map (λ v. view v.now) member.entry) }
{
    match member {
        None => Some(None),
        Some(Value::Table(table)) => Some(Some(table)),
        Some(_) => None,
    }
}

fn texts_in(alloc: Global, items: &[Value]) -> Result<Option<Items<Text>>, NoMemory>
    ensures { IfOk result (λ texts. texts ≡ spec.texts_in (items_view items.now)) }
{
    let mut texts = Items::new(alloc);
    for item in items {
        let Some(text) = item.as_str() else {
            return Ok(None);
        };
        texts.add(Text::of(alloc, text)?)?;
    }
    Ok(Some(texts))
}

/// The strings of an array; nothing if the value is no array, or holds anything else.
pub fn texts_of(alloc: Global, value: &Value) -> Result<Option<Items<Text>>, NoMemory>
    ensures { IfOk result (λ texts. texts ≡ spec.texts_of (view value.now)) }
{
    match value {
        Value::Array(items) => texts_in(alloc, items),
        _ => Ok(None),
    }
}

/// The strings of an array, none if the member is absent; nothing if it is of another form.
pub fn optional_texts(
    alloc: Global,
    member: Option<&Value>,
) -> Result<Option<Items<Text>>, NoMemory>
    ensures texts { IfOk result (λ texts. texts
        ≡ spec.optional_texts (option_map (λ v. view v.now) member.entry)) }
    ensures absent { member.entry ≡ None → result ≡ Ok (Some []) }
{
    match member {
        None => Ok(Some(Items::new(alloc))),
        Some(value) => texts_of(alloc, value),
    }
}
