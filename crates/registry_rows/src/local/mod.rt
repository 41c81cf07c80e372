//! Rows of local registries. `ABC` is the digest of the bytes `abc`, and versions are words
//! `NAME@VERSION` with commas between them, whose records have that digest:
//!
//! - `parts FILE`: name and version of a crate file.
//! - `sum N BYTES DIGEST FAILING`: whether bytes have a digest, taken in pieces of N bytes; the
//!   takes with these numbers fail.
//! - `valid VERSIONS BYTES`: whether bytes are those of the first version.
//!
//! Steps on a host in memory, of which the calls with the numbers of `host` fail:
//!
//! - `host FAILING`: a host where nothing is.
//! - `make PATH`, `lay PATH BYTES`, `lines PATH VERSIONS`: makes a folder, a file, an index file.
//! - `list PATH`, `read PATH`: the entries of a folder, the bytes of a file.
//! - `create PATH`: begins a builder. `insert VERSIONS BYTES`: has it insert them with the bytes of
//!   their crate files, as many as there are commas between; `-` of none. `finalize IS`: opens its
//!   registry, validated where IS is `validated`.
//! - `open PATH IS`: opens a registry. `index PATH`: opens an index.
//! - `krate PATH NAME`: the lines of a crate in the index of a path.
//! - `located URL FOLDER NAME`: kind and path of a crate's file in the cache of the index at a url,
//!   which is in a folder; of `path:PATH` in the index at that path; of `crates-io:VERSION` in that
//!   of crates.io for this version of cargo.
//! - `cached KIND NAME`: path and entry of a crate in the cache of an index of a kind.
mod caches;
mod registries;
mod sources;
mod steps;

use row_fixtures::{Row, RowFault};
use std::alloc::Global;
pub use steps::Stage;

/// The answer of a row.
pub fn answer(alloc: Global, stage: &mut Stage, row: Row<'_>) -> Result<String, RowFault> {
    let mut words = row;
    match words.word() {
        "parts" => sources::parts(alloc, words),
        "sum" => sources::sum(alloc, words),
        "valid" => sources::valid(alloc, words),
        "located" => caches::located(alloc, stage, words),
        "cached" => caches::cached(alloc, stage, words),
        "krate" => caches::krate(alloc, stage, words),
        "create" | "insert" | "finalize" | "open" | "index" => {
            registries::answer(alloc, stage, row)
        }
        _ => steps::answer(alloc, stage, row),
    }
}
