//! The parts that the forms of a report share: words, lines of an attribute, members of JSON
//! objects, the check of the places that a report names, and the put of a text.
//!
//! Promises: each call appends or writes exactly what its definition says; a text without bytes
//! isn't put. Depends on the sinks of `tame_names`, on `audit_advisory`, and on `serde_json`.
#![tactic(auto)]

mod attributes;
mod members;
mod placing;
mod putting;
mod words;

pub use attributes::{
    one_decimal, push_attribute, push_number, push_quoted, push_severity, push_url,
};
pub use members::{
    close_array, close_object, open_array, open_object, requirement_text, write_count, write_flag,
    write_name, write_optional, write_requirements, write_score, write_str, write_text,
    write_texts, write_word,
};
pub use placing::{are_placed, is_placed};
pub use putting::{PrintError, put_text, put_texts};
pub use words::{
    informational_word, kind_word, severity_word, stated_informational, stated_severity,
};
