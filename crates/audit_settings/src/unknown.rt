//! Keys that no setting has.
ghost use Rattle.std.specs.Prelude.{◌≡◌, None, Some, IfOk, OnOk};
ghost use Rattle.toml.specs.View.{view, table_view};
ghost use Rattle.audit_settings.specs.Keys.{name, section_of};
ghost use Rattle.audit_settings.specs.Keys as spec;
ghost use Rattle.audit_settings.specs.Unknown.{earlier, first_in_order, noted, unknown_below, unknown_in, unknown_keys};

use crate::sections::Section;
use std::alloc::Global;
use tame_names::{NoMemory, Text};
use toml::{Table, Value};

/// A table's name and one of its keys, with a dot between them.
fn dotted(alloc: Global, name: &str, key: &str) -> Result<Text, NoMemory>
    ensures { IfOk result (λ text. text ≡ spec.dotted name.now key.now) }
{
    Ok(Text::from_string(format!(in alloc; "{name}.{key}")?))
}

/// Takes one more string: the first in byte order is kept.
fn keep_first(first: &mut Option<Text>, text: Text)
    ensures { first.new ≡ Some (earlier first.old text) }
{
    let is_later = match first {
        None => false,
        Some(kept) => kept.as_str() <= text.as_str(),
    };
    if !is_later {
        *first = Some(text);
    }
}

/// Notes the keys of a table that the section doesn't have.
fn note_unknown(
    alloc: Global,
    first: &mut Option<Text>,
    section: Section,
    table: &Table,
) -> Result<(), NoMemory>
    ensures { OnOk result
        (first.new ≡ noted first.old (unknown_in section (table_view table.now))) }
{
    for (key, _) in table.iter() {
        if !section.has_key(key.as_str()) {
            keep_first(first, dotted(alloc, section.name(), key.as_str())?);
        }
    }
    Ok(())
}

/// Notes what is unknown at a name: the name, or keys of the table that it names.
fn note_below(
    alloc: Global,
    first: &mut Option<Text>,
    name: &str,
    value: &Value,
) -> Result<(), NoMemory>
    ensures { OnOk result (first.new
        ≡ noted first.old (unknown_below (section_of name.now) name.now (view value.now))) }
{
    match (Section::named(name), value) {
        (None, _) => keep_first(first, Text::of(alloc, name)?),
        (Some(section), Value::Table(table)) => return note_unknown(alloc, first, section, table),
        (Some(_), _) => {}
    }
    Ok(())
}

/// The first in byte order of all unknown keys, if there is one.
#[tactic(auto, using(crate::proofs::Noted::noted_append))]
pub fn first_unknown(alloc: Global, table: &Table) -> Result<Option<Text>, NoMemory>
    ensures { IfOk result (λ first.
        first ≡ first_in_order (unknown_keys (table_view table.now))) }
{
    let mut first = None;
    for (name, value) in table.iter() {
        note_below(alloc, &mut first, name.as_str(), value)?;
    }
    Ok(first)
}
