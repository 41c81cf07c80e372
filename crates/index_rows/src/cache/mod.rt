//! Rows of index entries as bytes and as versions, of configurations of an index, and of entries
//! stored on a disk that fails and crashes: each line of the input is a case, and its answer is a
//! line of the output.
mod configs;
mod entries;
mod long_entries;
mod readings;
mod revisions;
mod scanning;
mod sources;
mod stage;
mod storing;

use row_fixtures::{Row, RowFault};
pub use stage::Stage;
use std::alloc::Global;

/// The answer of a row of values.
fn answer_of_values(alloc: Global, row: Row<'_>) -> Result<String, RowFault> {
    let mut words = row;
    match words.word() {
        "url" => configs::url(alloc, words),
        "version-url" => configs::url_of_version(alloc, words),
        "config" => configs::config(alloc, words),
        "order" => configs::order(alloc, words),
        "entry" => entries::entry(alloc, words),
        "valid" => entries::valid(alloc, words),
        "long" => long_entries::long(alloc, words),
        "cuts" => entries::cuts(alloc, words),
        "firsts" => entries::firsts(alloc, words),
        "versions" => entries::of_versions(alloc, words),
        "storable" => entries::storable(alloc, words),
        "cached" => entries::cached(alloc, words),
        "revision" => revisions::revision(alloc, words),
        "equal" => revisions::equal(alloc, words),
        "commit" => revisions::commit(alloc, words),
        "digits" => revisions::digits(alloc, words),
        "parse" => revisions::parse(alloc, words),
        "raw" => scanning::raw(alloc, words),
        "scan" => scanning::scan(alloc, words),
        "scan-entry" => scanning::scan_entry(alloc, words),
        "read" => readings::read(alloc, words),
        "under" => readings::under(alloc, words),
        "krate" => readings::krate(alloc, words),
        "items" => readings::items(alloc, words),
        "line" => readings::line(alloc, words),
        "status" => readings::status(alloc, words),
        "laws" => readings::laws(alloc),
        _ => Err(RowFault::Unread),
    }
}

/// The answer of a row.
pub fn answer(alloc: Global, stage: &mut Stage, row: Row<'_>) -> Result<String, RowFault> {
    let mut words = row;
    match words.word() {
        "files" => stage.lay_files(alloc, words),
        "map" => readings::map(alloc, &mut stage.files, words),
        "disk" => stage.lay_disk(alloc, words),
        "store" => storing::store(alloc, &mut stage.disk, words),
        "look" => storing::look(alloc, &mut stage.disk),
        "first" => storing::first(alloc, words),
        "second" => storing::second(alloc, words),
        "torn" => storing::torn(alloc, words),
        "crashed" => storing::crashed_write(alloc, words),
        "foreign" => storing::foreign(alloc, words),
        "path" => storing::path(alloc, words),
        _ => answer_of_values(alloc, row),
    }
}
