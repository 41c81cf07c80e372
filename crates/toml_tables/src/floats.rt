//! Floats at any depth.
ghost use Rattle.std.specs.Prelude.{◌≡◌};
ghost use Rattle.toml.specs.View.{view, table_view, array_view};
ghost use Rattle.toml_tables.specs.Floats.{members_have_float};
ghost use Rattle.toml_tables.specs.Floats as spec;

use toml::{Table, Value};

#[cycle(floats)]
fn has_float(value: &Value) -> bool
    ensures { result ≡ spec.has_float (view value.now) }
{
    match value {
        Value::Float(_) => true,
        Value::Array(items) => items_have_float(items),
        Value::Table(table) => table_has_float(table),
        _ => false,
    }
}

#[cycle(floats)]
fn items_have_float(items: &Vec<Value>) -> bool
    ensures { result ≡ spec.items_have_float (array_view items.now) }
{
    for item in items {
        if has_float(item) {
            return true;
        }
    }
    false
}

/// Whether a value in a table, at any depth, is a float (TOML, "Float"): a number with a point or
/// an exponent, an infinity, or `nan`.
#[cycle(floats)]
pub fn table_has_float(table: &Table) -> bool
    ensures { result ≡ members_have_float (table_view table.now) }
{
    for (_, member) in table.iter() {
        if has_float(member) {
            return true;
        }
    }
    false
}
