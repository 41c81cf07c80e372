//! Rows of plans. Each line of the input is a step; its answer is what it reports, if anything.
//! `LINE` is the rest of a line, in which `\n`, `\t`, `\\` and `\xHH` are escapes:
//!
//! - `clear`: no advisory and no lockfile;
//! - `advisory`: an advisory begins, `lock`: the lockfile begins, `| LINE`: the next line of it;
//! - `audit`: the audit of the lockfile by the advisories; nothing is checked for yanked versions;
//! - `empty`: the audit without vulnerabilities; `hit ADVISORY PACKAGE` adds one by its indices;
//! - `plan RUN`: the plan of the audit; RUN is `dry` or `real`;
//! - `fix RUN STATUSES`: the plan, its steps started by a runner in memory whose starts end with
//!   these statuses, the lines and the status; `-` parts the statuses that a start fails at, commas
//!   part them, and starts past the end fail;
//! - `unable RUN`: the same by a runner that can start nothing;
//! - `error KIND TEXT`: an error of this kind, and its parts.
mod errors;
mod fixing;
mod stage;

use row_fixtures::{Row, RowFault};
pub use stage::Stage;
use std::alloc::Global;

/// The answer of a row, which is nothing if the step reports nothing.
pub fn answer(alloc: Global, stage: &mut Stage, row: Row<'_>) -> Result<String, RowFault> {
    let mut words = row;
    match words.word() {
        "clear" => stage.clear(alloc),
        "audit" => stage.make_audit(alloc),
        "empty" => stage.make_empty(alloc),
        "hit" => stage.add_hit(alloc, words),
        "plan" => fixing::plan(alloc, stage, words),
        "fix" => fixing::fix(alloc, stage, words),
        "unable" => fixing::unable(alloc, stage, words),
        "error" => errors::error(alloc, words),
        _ => stage.texts.answer(alloc, row),
    }
}
