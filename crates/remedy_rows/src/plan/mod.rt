//! Rows of plans. `-` stands for nothing, and `;` parts requirements:
//!
//! - `compatible LOCKED OTHER`: whether the second version is compatible with the first;
//! - `clear`: no package, no advisory, and no file;
//! - `package NAME VERSION SOURCE`: one more package of the lockfile, `R` for the registry of
//!   crates.io;
//! - `| LINE`: one more line of the lockfile;
//! - `advisory ID NAME PATCHED UNAFFECTED LINE`: one more advisory, with the line in its head;
//! - `record NAME VERSION ..`: the cache has the entry of a line for each version, `!` behind the
//!   yanked ones;
//! - `body NAME BODY`: it has the entry of the lines of a body;
//! - `file NAME BYTES`: it has a file of these bytes;
//! - `fail NUMBERS`: the calls of the next plan on the disk that are to fail, counted from 1;
//! - `plan IGNORE SEVERITY`: the lines of the plan for the packages that have a vulnerability, its
//!   status, and how many calls on the disk failed.
mod compatibility;
mod planning;
mod stage;

use row_fixtures::{Row, RowFault};
pub use stage::Stage;
use std::alloc::Global;

/// The answer of a row, which is nothing where the step tells nothing.
pub fn answer(alloc: Global, stage: &mut Stage, row: Row<'_>) -> Result<String, RowFault> {
    let mut words = row;
    match words.word() {
        "compatible" => compatibility::compatible_of(alloc, words),
        "plan" => planning::plan_of(alloc, stage, words),
        _ => stage.answer(alloc, row),
    }
}
