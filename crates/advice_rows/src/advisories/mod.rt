//! Rows of requirements, of advisories, and of the reports of small databases. As well as the steps
//! of `Stage`:
//!
//! - `word WORD`: a word for what is denied, or for the form of a report;
//! - `requirement REQUIREMENT @ VERSION`: whether the version meets the requirement;
//! - `text TEXT`: the title of an advisory, or the first rule that it breaks; `|` means a
//!   newline and `^` a carriage return;
//! - `head HEAD`: the same of an advisory with this head;
//! - `parts`: the parts of the first advisory;
//! - `hits IGNORE SEVERITY ARCH OS KINDS`: which packages of the lockfile the first advisory hits;
//! - `add HEAD`: an advisory with this head is added;
//! - `found`: what the report finds, and whether an audit fails by it, alone and with an advisory
//!   on the auditor itself, for nothing denied and for each option;
//! - `query NAME VERSION`: the advisories of the report's database that a version is vulnerable by.
mod finding;
mod parts;
mod reading;

use crate::stage::Stage;
use row_fixtures::{Row, RowFault};
use std::alloc::Global;

/// The answer of a row, which is nothing if the step answers nothing.
pub fn answer(alloc: Global, stage: &mut Stage, row: Row<'_>) -> Result<String, RowFault> {
    let mut words = row;
    match words.word() {
        "word" => reading::word(alloc, words),
        "requirement" => reading::requirement(alloc, words),
        "text" => reading::text(alloc, words),
        "head" => reading::head(alloc, words),
        "parts" => parts::parts(alloc, stage),
        "hits" => finding::hits_of(alloc, stage, words),
        "add" => finding::add(alloc, stage, words),
        "found" => finding::found(alloc, stage),
        "query" => finding::query(alloc, stage, words),
        _ => stage.answer(alloc, row),
    }
}
