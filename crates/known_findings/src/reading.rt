//! Lines read as findings.
ghost use Rattle.std.specs.Prelude.{◌≡◌, IfOk, is_some, option_map};
ghost use Rattle.serde_json.specs.Find.{at};
ghost use Rattle.serde_json.specs.View.{view};
ghost use Rattle.known_findings.specs.Findings.{finding_of, finding_of_data};
ghost use Rattle.known_findings.specs.Findings as spec;

use crate::findings::{Finding, FindingKind};
use serde_json::Value;
use std::alloc::Global;
use tame_names::{NoMemory, Text};

/// The text at a position of an array.
fn text_at(value: &Value, place: usize) -> Option<&str>
    ensures { option_map (λ text. text.now) result ≡ spec.text_at place (view value.now) }
{
    value.get(place).and_then(Value::as_str)
}

/// Whether an array has an item at a position.
fn has_item(value: &Value, place: usize) -> bool
    ensures { result ≡ is_some (at place (view value.now)) }
{
    value.get(place).is_some()
}

fn finding_of_value(alloc: Global, value: &Value) -> Result<Option<Finding>, NoMemory>
    ensures { IfOk result (λ found. found ≡ finding_of_data (view value.now)) }
{
    if has_item(value, 5) {
        return Ok(None);
    }
    let Some(kind) = text_at(value, 0).and_then(FindingKind::from_word) else {
        return Ok(None);
    };
    let Some(id) = text_at(value, 1) else {
        return Ok(None);
    };
    let Some(name) = text_at(value, 2) else {
        return Ok(None);
    };
    let Some(version) = text_at(value, 3) else {
        return Ok(None);
    };
    let Some(source) = text_at(value, 4) else {
        return Ok(None);
    };
    Ok(Some(Finding {
        kind,
        id: Text::of(alloc, id)?,
        name: Text::of(alloc, name)?,
        version: Text::of(alloc, version)?,
        source: Text::of(alloc, source)?,
    }))
}

/// The finding of a line; nothing if the line is none.
pub fn read_finding(alloc: Global, line: &str) -> Result<Option<Finding>, NoMemory>
    ensures { IfOk result (λ found. found ≡ finding_of line.now) }
{
    match Value::from_str(alloc, line) {
        Ok(value) => finding_of_value(alloc, &value),
        Err(error) => {
            if error.is_memory() {
                Err(NoMemory)
            } else {
                Ok(None)
            }
        }
    }
}
