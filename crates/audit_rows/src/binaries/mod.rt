//! Rows of audits of binaries. Each line of the input is a step; an audit is answered by its
//! answers and by what was asked. Words are those of `row_fixtures`; `-` means nothing, and
//! commas part lists:
//!
//! - `clear`: nothing is there, and the cache is empty;
//! - `file PATH BYTES`: a file with these bytes;
//! - `binary PATH NAME@VERSION ..`: a file whose payload is the lockfile of these packages;
//! - `folder PATH`: a folder without entries;
//! - `limits SIZE PAYLOAD`: the limits, in bytes;
//! - `deny OPTION,..`: what is denied;
//! - `advisory TEXT`: an advisory;
//! - `serve STATUS REVISION BODY`: the next answer of the server;
//! - `failing READS DECODES`: the reads and the decodings with these numbers, counted from 1, fail
//!   in the next audit;
//! - `audit PATH ..`: the audit of the binaries at these paths;
//! - `lockfile PATH`: the audit of the lockfile at this path.
mod audits;
mod stage;

use row_fixtures::{Row, RowFault};
pub use stage::Stage;
use std::alloc::Global;

/// The answer of a row, which is nothing if the step isn't an audit.
pub fn answer(alloc: Global, stage: &mut Stage, row: Row<'_>) -> Result<String, RowFault> {
    let mut words = row;
    match words.word() {
        "clear" => stage.clear(alloc),
        "file" => stage.add_file(alloc, words),
        "binary" => stage.add_binary(alloc, words),
        "folder" => stage.add_folder(alloc, words),
        "limits" => stage.set_limits(alloc, words),
        "deny" => stage.set_deny(alloc, words),
        "advisory" => stage.add_advisory(alloc, words),
        "serve" => stage.add_answer(alloc, words),
        "failing" => stage.set_failing(alloc, words),
        "audit" => audits::audit(alloc, stage, words),
        "lockfile" => audits::lockfile(alloc, stage, words),
        _ => Err(RowFault::Unread),
    }
}
