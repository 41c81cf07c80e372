//! Bytes as JSON values.
ghost use Rattle.std.specs.Prelude.{◌≡◌, Err, IfOk, None, Some};
ghost use Rattle.serde_json.specs.View.{view, items_view, members_view};
ghost use Rattle.serde_json.specs.Read.{read};
ghost use Rattle.serde_json.specs.Written as spec;
ghost use Rattle.tame_records.specs.Record.{value_of};

use crate::line_faults::LineFault;
use serde_json::{Map, Value};
use std::alloc::Global;
use tame_names::utf8_text;

// ---- floats are refused, wherever they are

#[cycle(floats)]
fn has_float(value: &Value) -> bool
    ensures { result ≡ spec.has_float (view value.now) }
{
    match value {
        Value::Null | Value::Bool(_) | Value::String(_) => false,
        Value::Number(number) => number.is_f64(),
        Value::Array(items) => items_have_float(items),
        Value::Object(members) => members_have_float(members),
    }
}

#[cycle(floats)]
fn items_have_float(items: &Vec<Value>) -> bool
    ensures { result ≡ spec.items_have_float (items_view items.now.items) }
{
    for item in items {
        if has_float(item) {
            return true;
        }
    }
    false
}

#[cycle(floats)]
fn members_have_float(members: &Map<String, Value>) -> bool
    ensures { result ≡ spec.members_have_float (members_view members.now.entries) }
{
    for (_, member) in members.iter() {
        if has_float(member) {
            return true;
        }
    }
    false
}

// ---- read

/// The JSON value of a text.
fn parse(alloc: Global, text: &str) -> Result<Value, LineFault>
    ensures ok { IfOk result (λ v. read text.now ≡ Some (view v)) }
    ensures json { result ≡ Err LineFault.Json → read text.now ≡ None }
{
    match Value::from_str(alloc, text) {
        Ok(value) => Ok(value),
        Err(error) => Err(if error.is_memory() {
            LineFault::NoMemory
        } else {
            LineFault::Json
        }),
    }
}

/// The value that bytes are: UTF-8, one JSON value, of equal keys the last, and no float anywhere;
/// `Json` for other bytes (RFC 8259).
pub fn read_value(alloc: Global, bytes: &[u8]) -> Result<Value, LineFault>
    ensures ok { IfOk result (λ v. value_of bytes.now ≡ Some (view v)) }
    ensures json { result ≡ Err LineFault.Json → value_of bytes.now ≡ None }
{
    let Some(text) = utf8_text(bytes) else {
        return Err(LineFault::Json);
    };
    let value = parse(alloc, text)?;
    if has_float(&value) {
        return Err(LineFault::Json);
    }
    Ok(value)
}
