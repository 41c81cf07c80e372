//! Rows of an index: each line of the input is a case or a step, and its answer is a line of the
//! output. A line `== SECTION` begins the rows of a table, of which nothing stays for the next:
//!
//! - `formats`: names, digests, records, crates, lockfiles, and the texts of errors;
//! - `cache`: index entries as bytes and as versions, configurations of an index, and entries
//!   stored on a disk that fails and crashes;
//! - `sparse`: requests, what becomes of answers, the memory of entity tags, and git indices.
#![tactic(auto)]

mod cache;
mod fakes;
mod formats;
mod sparse;

use row_fixtures::{Row, RowFault, Table, answer_lines};
use std::alloc::Global;
use std::io;

/// The table that rows are read by.
#[derive(Drop)]
enum Section {
    Formats(formats::Stage),
    Cache(cache::Stage),
    Sparse(sparse::Stage),
}

impl Table for Section {
    fn of(alloc: Global, name: &str) -> Result<Section, RowFault> {
        match name {
            "formats" => Ok(Section::Formats(formats::Stage::new(alloc)?)),
            "cache" => Ok(Section::Cache(cache::Stage::new(alloc)?)),
            "sparse" => Ok(Section::Sparse(sparse::Stage::new(alloc)?)),
            _ => Err(RowFault::Unread),
        }
    }

    fn answer(&mut self, alloc: Global, row: Row<'_>) -> Result<String, RowFault> {
        match self {
            Section::Formats(stage) => formats::answer(alloc, stage, row),
            Section::Cache(stage) => cache::answer(alloc, stage, row),
            Section::Sparse(stage) => sparse::answer(alloc, stage, row),
        }
    }
}

fn main(rt: HostRuntime) -> io::Result<()> {
    answer_lines::<Section>(&rt)
}
