//! Rows of printed reports. A step that prints is answered by what was answered and by what two
//! outputs gained. As well as the steps of `Stage`:
//!
//! - `empty`: the report without anything; `hit ADVISORY PACKAGE` and `warn KIND PACKAGE ADVISORY`
//!   add a vulnerability and a warning by index;
//! - `presenter FORMAT TREES STATUS DENY`: a new presenter; TREES is `tree` or `bare`, STATUS
//!   `loud` or `quiet`;
//! - `print PATH OUT ERR`: prints the report; these writes to `out` and to `err`, by number, fail;
//! - `log PATH OUT`: makes the SARIF log of the report at a path and writes it;
//! - `self PLACES OUT ERR`: prints the advisories at these indices as those on the auditor itself;
//! - `scanning PATH ERR`: the status line of the lockfile;
//! - `binary FOUND N PATH ERR`: the status line of a binary that reports N packages; FOUND is
//!   `complete`, `incomplete` or `nothing`;
//! - `symbols SYMBOLS`: sets these symbols, each with `::` between its segments;
//! - `filter SYMBOLS PATH..`: which of the paths these symbols keep; `.` is the path without
//!   segments;
//! - `exits PLACES`: whether the report and the advisories at these indices make an audit fail;
//! - `loaded N PATH`, `updating`, `unchecked NAME VERSION CAUSE`: these status lines.
mod filtering;
mod printing;
mod steps;

use crate::stage::Stage;
use row_fixtures::{Row, RowFault};
use std::alloc::Global;

/// The answer of a row, which is nothing if the step prints nothing.
pub fn answer(alloc: Global, stage: &mut Stage, row: Row<'_>) -> Result<String, RowFault> {
    let mut words = row;
    match words.word() {
        "empty" => stage.make_empty(alloc),
        "hit" => stage.add_hit(alloc, words),
        "warn" => stage.add_warning(alloc, words),
        "presenter" => stage.make_presenter(alloc, words),
        "print" => printing::print(alloc, stage, words),
        "log" => printing::log(alloc, stage, words),
        "self" => printing::print_self(alloc, stage, words),
        "scanning" => printing::scanning(alloc, stage, words),
        "binary" => printing::binary(alloc, stage, words),
        "symbols" => stage.set_symbols(alloc, words),
        "filter" => filtering::filter(alloc, words),
        "exits" => printing::exits(alloc, stage, words),
        "loaded" => printing::loaded(alloc, words),
        "updating" => printing::updating(alloc),
        "unchecked" => printing::unchecked(alloc, words),
        _ => stage.answer(alloc, row),
    }
}
