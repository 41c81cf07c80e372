//! Rows of baselines. `TEXT` is a word in which `\n`, `\r`, `\t`, `\\` and `\xHH` are escapes, in
//! single quotes where it has blanks; `-` stands for nothing, and commas part lists:
//!
//! - `read TEXT`: how many findings the baseline of a text has and what it writes, or the fault;
//! - `write TEXT PUTS`: writes the baseline of a text; the puts with these numbers fail;
//! - `equal TEXT TEXT`: whether the baselines of two texts are equal;
//! - `clear`: no advisory and no lockfile;
//! - `advisory`: an advisory begins, `lock`: the lockfile begins, `| LINE`: the next line of it;
//! - `audit YANKED IGNORE`: the audit of the lockfile by the advisories, without the ignored ones,
//!   where these packages are yanked; answered by its exit under a list that denies nothing;
//! - `own`: what the baseline of the audit writes, and the status of a gate by it;
//! - `gate TEXT`: the status of a gate by the baseline of a text, and the lines that it prints.
mod comparing;
mod stage;

use row_fixtures::{Row, RowFault};
pub use stage::Stage;
use std::alloc::Global;

/// The answer of a row, which is nothing where the step tells nothing.
pub fn answer(alloc: Global, stage: &mut Stage, row: Row<'_>) -> Result<String, RowFault> {
    let mut words = row;
    match words.word() {
        "read" => comparing::read(alloc, words),
        "write" => comparing::write(alloc, words),
        "equal" => comparing::equal(alloc, words),
        "own" => comparing::own(alloc, stage),
        "gate" => comparing::gate(alloc, stage, words),
        _ => stage.answer(alloc, row),
    }
}
