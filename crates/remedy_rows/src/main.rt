//! Rows of what is done about what an audit found: each line of the input is a case or a step,
//! which is answered by what it tells. A line `== SECTION` begins the rows of a table, of which
//! nothing stays for the next:
//!
//! - `baseline`: texts of findings, what they read to and write, and audits against them;
//! - `plan`: versions that are compatible, and plans for the packages of small lockfiles, by disks
//!   in memory;
//! - `vendor`: registries that are made of audited lockfiles.
#![tactic(auto)]

mod baseline;
mod plan;
mod vendor;

use row_fixtures::{Row, RowFault, Table, answer_lines};
use std::alloc::Global;
use std::io;

/// The table that rows are read by.
#[derive(Drop)]
enum Section {
    Baseline(baseline::Stage),
    Plan(plan::Stage),
    Vendor(vendor::Stage),
}

impl Table for Section {
    fn of(alloc: Global, name: &str) -> Result<Section, RowFault> {
        match name {
            "baseline" => Ok(Section::Baseline(baseline::Stage::new(alloc))),
            "plan" => Ok(Section::Plan(plan::Stage::new(alloc))),
            "vendor" => Ok(Section::Vendor(vendor::Stage::new(alloc)?)),
            _ => Err(RowFault::Unread),
        }
    }

    fn answer(&mut self, alloc: Global, row: Row<'_>) -> Result<String, RowFault> {
        match self {
            Section::Baseline(stage) => baseline::answer(alloc, stage, row),
            Section::Plan(stage) => plan::answer(alloc, stage, row),
            Section::Vendor(stage) => vendor::answer(alloc, stage, row),
        }
    }
}

fn main(rt: HostRuntime) -> io::Result<()> {
    answer_lines::<Section>(&rt)
}
