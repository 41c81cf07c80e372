//! Rows of formats: names, digests, records, crates, lockfiles, and the texts of errors: each line
//! of the input is a case, and its answer is a line of the output.
mod errors;
mod krates;
mod lockfiles;
mod names;
mod records;
mod sharing;
mod stage;
mod values;
mod written;

use row_fixtures::{Row, RowFault};
pub use stage::Stage;
use std::alloc::Global;

/// The answer of a row of names and small values.
fn answer_of_formats(alloc: Global, row: Row<'_>) -> Result<String, RowFault> {
    let mut words = row;
    match words.word() {
        "name" => names::name(alloc, words),
        "windows" => names::windows(alloc, words),
        "crates-io" => names::crates_io(alloc, words),
        "cargo" => names::cargo(alloc, words),
        "prefix" => names::prefix(alloc, words),
        "static" => names::static_name(alloc, words),
        "padded" => names::padded(alloc, words),
        "pieces" => values::pieces(alloc, words),
        "lines" => values::lines(alloc, words),
        "utf8" => values::utf8(alloc, words),
        "digest" => values::digest(alloc, words),
        "digests" => values::digests(alloc, words),
        "debug" => values::debug(alloc, words),
        "request" => values::request(alloc, words),
        "clone" => values::clone(alloc, words),
        "error" => errors::error(alloc, words),
        _ => Err(RowFault::Unread),
    }
}

/// The answer of a row of records and lockfiles.
fn answer_of_records(alloc: Global, row: Row<'_>) -> Result<String, RowFault> {
    let mut words = row;
    match words.word() {
        "record" => records::record(alloc, words),
        "members" => records::members(alloc, words),
        "with" => records::with(alloc, words),
        "dependency" => records::dependency(alloc, words),
        "nested" => records::nested(alloc, words),
        "version" => records::version(alloc, words),
        "fake" => records::fake(alloc, words),
        "line" => written::line(alloc, words),
        "body" => written::body(alloc, words),
        "krate" => krates::krate(alloc, words),
        "same" => krates::same(alloc, words),
        "shared" => sharing::shared(alloc, words),
        "kind" => krates::kind(alloc),
        "lock" => lockfiles::lock(alloc, words),
        "package" => lockfiles::package(alloc, words),
        "source" => lockfiles::source(alloc, words),
        "registry" => lockfiles::registry(alloc, words),
        _ => answer_of_formats(alloc, row),
    }
}

/// The answer of a row.
pub fn answer(alloc: Global, stage: &mut Stage, row: Row<'_>) -> Result<String, RowFault> {
    let mut words = row;
    match words.word() {
        "files" => stage.lay_files(alloc, words),
        "file" => krates::file(alloc, &mut stage.files, words),
        "text" => stage.lay_text(alloc),
        "|" => stage.add_line(alloc, words),
        "packages" => lockfiles::packages(alloc, stage.text.as_str()),
        _ => answer_of_records(alloc, row),
    }
}
