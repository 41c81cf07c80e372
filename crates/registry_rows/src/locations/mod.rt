//! Rows of locations. `-` stands for nothing where a word may be left out.
//!
//! - `sip N`: SipHash-2-4 of the bytes 00, 01, .. that are N, under the key 00 01 .. 0f, low byte
//!   first; `canonical URL`; `dir stable|plain URL`; `details ROOT|- stable|plain URL`;
//!   `version TEXT`: the version in what cargo tells of itself;
//! - `known KIND URL NUMBER`: a number of a canonical url, from here on;
//! - `file PATH BYTES`, `folder PATH`, `variable NAME TEXT|-`, `current PATH`, `answers CALL ..`:
//!   what the next host has, where `-` is a value that isn't UTF-8, and a call is `open` or `take`
//!   with the fault that it is to be refused with, as in `take=Contested`; `host FAILING|-`: that
//!   host, of which the calls with these numbers fail;
//! - `home`; `crates-io ROOT|- HOME|- VERSION|-`; `registry ROOT|- HOME|- NAME`;
//!   `parts|sparse|git home|exact|below PATH URL VERSION|-`: the parts of a location, and the index
//!   there, where `local=PATH` is a local registry;
//! - `lock PATH shared|exclusive|fallback once|wait|TIMES`, `package-lock ROOT|- once`: what
//!   becomes of a lock; `make PATH`, `create PATH BYTES`, `open PATH exclusive|shared`,
//!   `take PATH exclusive|shared wait|once`: calls on the host; `steps`, `failed`, `look PATH`: its
//!   steps on locks, its failed calls and what stands there.
mod calls;
mod lookups;
mod places;
mod scene;

use row_fixtures::{Row, RowFault};
pub use scene::Scene;
use std::alloc::Global;

/// The answer of a row.
pub fn answer(alloc: Global, scene: &mut Scene, row: Row<'_>) -> Result<String, RowFault> {
    let mut words = row;
    match words.word() {
        "" | "#" => Ok(String::new(alloc)),
        "sip" | "canonical" | "dir" | "details" | "version" => places::answer(alloc, scene, row),
        "home" | "crates-io" | "registry" | "parts" | "sparse" | "git" => {
            lookups::answer(alloc, scene, row)
        }
        "known" | "file" | "folder" | "variable" | "current" | "answers" | "host" => scene.lay(
            alloc, row,
        ),
        _ => calls::answer(alloc, scene, row),
    }
}
