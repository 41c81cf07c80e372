//! Rows of registries that are made of audited lockfiles. `ABC` is the digest of the bytes `abc`:
//!
//! - `host FAILING`: a host in memory where nothing is, whose calls with these numbers fail.
//! - `make PATH`, `lay PATH BYTES`: makes a folder, a file. `list PATH`, `read PATH`: the entries
//!   of a folder, the bytes of a file.
//! - `disk FAILING`: a cache without entries, whose calls with these numbers fail.
//! - `keep PATH VERSIONS`: an entry of the cache at an index path, with a record for each version,
//!   `NAME@VERSION` with commas between them, whose digest is `ABC`, or that of no file for
//!   `NAME@VERSION~`; a version `{}` is a line without a record. `spoil PATH BYTES`: a file of the
//!   cache with these bytes.
//! - `lock PACKAGES`: a lockfile of packages `NAME@VERSION` of the default registry, with blanks
//!   between them; none of `-`. `| LINE`: a line more of it.
//! - `vendor CRATES TO`: audits the lockfile without checks, and makes a registry of it.
//! - `validate PATH`: opens the registry in a folder, and validates it.
mod making;
mod stage;

use row_fixtures::{Row, RowFault};
pub use stage::Stage;
use std::alloc::Global;

/// The answer of a row.
pub fn answer(alloc: Global, stage: &mut Stage, row: Row<'_>) -> Result<String, RowFault> {
    let mut words = row;
    match words.word() {
        "disk" => stage.lay_disk(alloc, words),
        "keep" => stage.keep(alloc, words),
        "spoil" => stage.spoil(alloc, words),
        "lock" => stage.lay_lockfile(alloc, words),
        "|" => stage.add_line(alloc, words),
        "vendor" => making::vendor_row(alloc, stage, words),
        "validate" => making::validate(alloc, stage, words),
        _ => stage.host_step(alloc, row),
    }
}
