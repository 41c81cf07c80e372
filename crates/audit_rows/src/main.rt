//! Rows of audits: each line of the input is a case or a step; the answer is what it reports.
//! A line `== SECTION` begins the rows of a table, of which nothing stays for the next:
//!
//! - `binaries`: audits of binaries, with reads and decodings that fail;
//! - `fixes`: plans, their starts by runners in memory, and errors by their kinds;
//! - `runs`: whole runs of the command over memory, with calls, writes, starts and decodings that
//!   fail, and crashes.
#![tactic(auto)]

mod binaries;
mod fixes;
mod runs;
mod scripts;

use row_fixtures::{Row, RowFault, Table, answer_lines};
use std::alloc::Global;
use std::io;

/// The table that rows are read by.
#[derive(Drop)]
enum Section {
    Binaries(binaries::Stage),
    Fixes(fixes::Stage),
    Runs(runs::Stage),
}

impl Table for Section {
    fn of(alloc: Global, name: &str) -> Result<Section, RowFault> {
        match name {
            "binaries" => Ok(Section::Binaries(binaries::Stage::new(alloc))),
            "fixes" => Ok(Section::Fixes(fixes::Stage::new(alloc))),
            "runs" => Ok(Section::Runs(runs::Stage::new(alloc)?)),
            _ => Err(RowFault::Unread),
        }
    }

    fn answer(&mut self, alloc: Global, row: Row<'_>) -> Result<String, RowFault> {
        match self {
            Section::Binaries(stage) => binaries::answer(alloc, stage, row),
            Section::Fixes(stage) => fixes::answer(alloc, stage, row),
            Section::Runs(stage) => runs::answer(alloc, stage, row),
        }
    }
}

fn main(rt: HostRuntime) -> io::Result<()> {
    answer_lines::<Section>(&rt)
}
