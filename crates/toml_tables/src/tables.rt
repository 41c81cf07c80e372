//! A string's table, and the values at its keys.
ghost use Rattle.std.specs.Prelude.{◌≡◌, IfOk, IsErrOf, Some, None, option_map};
ghost use Rattle.toml.specs.Data.{get_member};
ghost use Rattle.toml.specs.Parse.{parse_document};
ghost use Rattle.toml.specs.View.{view, table_view};

use std::alloc::Global;
use toml::{Table, Value};

/// Why a string gave no table.
#[derive(Clone, Copy, Debug, PartialEq, Eq)]
pub enum TableFault {
    /// The string is no TOML.
    Toml,
    /// Out of memory.
    NoMemory,
}

/// The table in a string, as the toolchain's `toml` reads it: TOML 1.1, arrays and inline tables
/// nested at most 80 deep. `Toml` exactly if there is none.
pub fn parse_table(alloc: Global, text: &str) -> Result<Table, TableFault>
    ensures ok { IfOk result (λ table. parse_document text.now ≡ Some (table_view table)) }
    ensures refused { IsErrOf result TableFault.Toml → parse_document text.now ≡ None }
{
    match toml::table_from_str(alloc, text) {
        Ok(table) => Ok(table),
        Err(error) => {
            if error.is_memory() {
                Err(TableFault::NoMemory)
            } else {
                Err(TableFault::Toml)
            }
        }
    }
}

/// The value at a key.
pub fn member<'a>(table: &'a Table, key: &str) -> Option<&'a Value>
    ensures { option_map (λ v. view v.now) result ≡ get_member key.now (table_view table.now) }
{
    table.get(key)
}
