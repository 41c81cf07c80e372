//! Rows of registries: each line of the input is a case or a step, which is answered by what it
//! tells. A line `== SECTION` begins the rows of a table, of which nothing stays for the next:
//!
//! - `locations`: urls and their folders, settings, versions, indices at their locations, locks;
//! - `local`: crate files by name, digests of sources, registries that are built, opened and
//!   validated, and the caches of the kinds of index.
#![tactic(auto)]

mod local;
mod locations;

use row_fixtures::{Row, RowFault, Table, answer_lines};
use std::alloc::Global;
use std::io;

/// The table that rows are read by.
#[derive(Drop)]
enum Section {
    Local(local::Stage),
    Locations(locations::Scene),
}

impl Table for Section {
    fn of(alloc: Global, name: &str) -> Result<Section, RowFault> {
        match name {
            "local" => Ok(Section::Local(local::Stage::new(alloc))),
            "locations" => Ok(Section::Locations(locations::Scene::new(alloc))),
            _ => Err(RowFault::Unread),
        }
    }

    fn answer(&mut self, alloc: Global, row: Row<'_>) -> Result<String, RowFault> {
        match self {
            Section::Local(stage) => local::answer(alloc, stage, row),
            Section::Locations(scene) => locations::answer(alloc, scene, row),
        }
    }
}

fn main(rt: HostRuntime) -> io::Result<()> {
    answer_lines::<Section>(&rt)
}
