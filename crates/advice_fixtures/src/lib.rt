//! What the programs of rows share that lay advisories and a lockfile by their texts.
#![tactic(auto)]

mod laid_texts;
mod readings;

pub use laid_texts::LaidTexts;
pub use readings::{add_read, listed, packages_named, read_advisory, read_lockfile};
