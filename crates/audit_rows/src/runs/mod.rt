//! Rows of whole runs of the command over memory: each line of the input is a step, and its
//! answer is a line of the output.
mod crashes;
mod kept_files;
mod running;
mod spoiled_files;
mod stage;
mod telling;

use row_fixtures::{Row, RowFault};
pub use stage::Stage;
use std::alloc::Global;

/// The answer of a row.
pub fn answer(alloc: Global, stage: &mut Stage, row: Row<'_>) -> Result<String, RowFault> {
    let mut words = row;
    match words.word() {
        "disk" => stage.lay_disk(alloc, words),
        "stop" => stage.stop_at(alloc, words),
        "crash" => stage.crash_by(alloc, words),
        "put" => stage.put(alloc, words),
        "lock" => stage.lay_lockfile(alloc, words),
        "stand" => stage.lay_file(alloc, words),
        "|" => stage.add_line(alloc, words),
        "serve" => stage.serve(alloc, words),
        "also" => stage.lay_more(alloc, words),
        "binary" => stage.lay_binary(alloc, words),
        "folder" => stage.lay_folder(alloc, words),
        "input" => stage.lay_input(alloc, words),
        "env" => stage.set(alloc, words),
        "statuses" => stage.end_with(alloc, words),
        "calls" => stage.fail_calls(alloc, words),
        "decodes" => stage.fail_decodes(alloc, words),
        "errors" => stage.fail_errors(alloc, words),
        "puts" => stage.fail_puts(alloc, words),
        "run" => running::run_audit(alloc, stage),
        "words" => running::run_words(alloc, stage, words),
        "left" => stage.left_at(alloc, words),
        "audit" => running::audit(alloc, stage, words),
        "failing" => running::run_failing(alloc, stage, words),
        "file" => kept_files::file(alloc, &mut stage.disk),
        "next" => kept_files::next(alloc, &stage.index, &mut stage.disk),
        "crashed" => crashes::crashed_audit(alloc, stage, words),
        "first-bytes" => spoiled_files::first_bytes(alloc, stage, words),
        "parts" => spoiled_files::parts(alloc, stage),
        "older" => spoiled_files::older(alloc, stage, words),
        _ => Err(RowFault::Unread),
    }
}
