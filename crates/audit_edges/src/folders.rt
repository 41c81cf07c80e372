//! The folder that a setting names.
ghost use Rattle.std.specs.Prelude.{◌≡◌, IfOk, option_map};
ghost use Rattle.audit_edges.specs.Folders as spec;

use std::alloc::Global;
use tame_names::{NoMemory, Text};

/// The folder that a setting names; if it is unset or empty, the default one.
pub fn folder_named(alloc: Global, named: Option<&str>, unnamed: &str) -> Result<Text, NoMemory>
    ensures { IfOk result (λ folder.
        folder ≡ spec.folder_named (option_map (λ name. name.now) named.entry) unnamed.now) }
{
    match named {
        Some(name) if !name.is_empty() => Text::of(alloc, name),
        _ => Text::of(alloc, unnamed),
    }
}
