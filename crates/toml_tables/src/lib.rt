//! Tables of TOML, and the values at their keys.
//!
//! Promises: a string is the table that it is in TOML, or none; the value at a key is read exactly
//! by its form: present, absent, or another value. Depends on the strings and lists of
//! `tame_names`, and on `toml`.
//!
//! ```ignore
//! let table = parse_table(alloc, "name = \"serde\"")?;
//! required_text(member(&table, "name")); // Some("serde")
//! optional_flag(member(&table, "yanked")); // Some(None): absent
//! optional_flag(member(&table, "name")); // None: no flag
//! ```
#![tactic(auto)]

mod floats;
mod members;
mod tables;

pub use floats::table_has_float;
pub use members::{
    optional_flag, optional_number, optional_table, optional_text, optional_texts, required_table,
    required_text, texts_of,
};
pub use tables::{TableFault, member, parse_table};
