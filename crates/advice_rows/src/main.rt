//! Rows of advice: each line of the input is a case or a step; the answer is what it reports.
//! A line `== SECTION` begins the rows of a table, of which nothing stays for the next:
//!
//! - `words`: arguments, settings, and settings under arguments;
//! - `advisories`: requirements, advisories, what they hit, and reports of small databases;
//! - `reports`: printed reports and status lines;
//! - `trees`: the inverse dependency trees of lockfiles.
#![tactic(auto)]

mod advisories;
mod reports;
mod row_words;
mod stage;
mod trees;
mod words;

use row_fixtures::{Row, RowFault, Table, answer_lines};
use stage::Stage;
use std::alloc::Global;
use std::io;

/// The table that rows are read by.
#[derive(Drop)]
enum Section {
    Words,
    Advisories(Stage),
    Reports(Stage),
    Trees(Stage),
}

impl Table for Section {
    fn of(alloc: Global, name: &str) -> Result<Section, RowFault> {
        match name {
            "words" => Ok(Section::Words),
            "advisories" => Ok(Section::Advisories(Stage::new(alloc))),
            "reports" => Ok(Section::Reports(Stage::new(alloc))),
            "trees" => Ok(Section::Trees(Stage::new(alloc))),
            _ => Err(RowFault::Unread),
        }
    }

    fn answer(&mut self, alloc: Global, row: Row<'_>) -> Result<String, RowFault> {
        match self {
            Section::Words => words::answer(alloc, row),
            Section::Advisories(stage) => advisories::answer(alloc, stage, row),
            Section::Reports(stage) => reports::answer(alloc, stage, row),
            Section::Trees(stage) => trees::answer(alloc, stage, row),
        }
    }
}

fn main(rt: HostRuntime) -> io::Result<()> {
    answer_lines::<Section>(&rt)
}
