//! The arguments of the command, read by a table of options.
//!
//! Promises: the arguments are the command that the table gives them, or the answer is the position
//! of the first that breaks a rule; an option's spellings agree, as do orders that don't matter.
//! Uses `tame_names`, and the options that `audit_advisory` and `audit_settings` name.
//!
//! ```text
//! audit --deny yanked fix --dry-run   Command::Fix, with these options
//! audit --deny yellow                 WordsFault::Usage { place: 2 }
//! ```
#![tactic(auto)]

mod commands;
mod drafts;
mod endings;
mod laws;
mod options;
mod plain_words;
mod rows;
mod texts;
mod values;
mod words;

pub use audit_advisory::VERSION;
pub use audit_settings::CONFIG_FILE;
pub use commands::{BinCommand, Command, FixCommand, VendorCommand, WordsFault};
pub use laws::{
    baselines_stand_alone, either_order, generated_packages_are_bounded, numbers_are_decimal,
    quiet_is_accepted, reading_ends_at_its_word, same_drafts_same_command, spellings_agree,
    texts_name_the_version,
};
pub use rows::{accepted, refused};
pub use texts::{HELP_TEXT, VERSION_TEXT};
pub use words::read_words;
