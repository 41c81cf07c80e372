//! What the programs of rows share: rows as words, and the lines, entries and hosts in memory that
//! many rows speak of.
#![tactic(auto)]

mod escapes;
mod faults;
mod hosts;
mod index_lines;
mod revision_words;
mod rows;
mod tables;

pub use escapes::{plain_bytes, plain_text, shown, shown_word};
pub use faults::{RowFault, answered, asked, refused, told};
pub use hosts::{
    FLAGGED_FILE, Laid, LaidNode, crashed, crates_io_index, disk_failing, disk_with, files_with,
    host_with, numbers, stop,
};
pub use index_lines::{
    DIGEST, INDEX_URL, body_of, entry_of, flagged_body, flagged_entry, index_line, lockfile_of,
};
pub use revision_words::{RevisionWord, owned_text};
pub use rows::Row;
pub use tables::{Table, answer_lines};
