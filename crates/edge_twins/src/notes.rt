//! The texts of notes, and how a note is added.
ghost use Rattle.std.specs.Prelude.{◌≡◌, ◌++◌, List, ℕ, IfOk, OnOk, string_bytes};
ghost use Rattle.tame_names.specs.Output.{AddsPrefix};
ghost use Rattle.edge_twins.specs.Recordings.{first_text, note};

use crate::standing::push_bytes;
use std::alloc::{AllocError, Global};
use tame_cache::Peek;

/// A file that was read, as a text.
pub fn file_text(alloc: Global, bytes: &[u8]) -> Result<String, AllocError> {
    let mut text = String::new(alloc);
    push_bytes(alloc, &mut text, bytes)?;
    Ok(text)
}

/// What a file begins with, as a text.
pub fn text_of_first(alloc: Global, first: Peek) -> Result<String, AllocError>
    ensures { IfOk result (λ text. string_bytes text ≡ first_text first) }
{
    match first {
        Peek::Absent => String::from_str(alloc, "absent"),
        Peek::Empty => String::from_str(alloc, "empty"),
        Peek::Byte(byte) => format!(in alloc; "byte {byte}"),
    }
}

/// Adds a note.
pub fn push_note(notes: &mut String, text: &str) -> Result<(), AllocError>
    ensures part { AddsPrefix (string_bytes notes.old) (note text.now) (string_bytes notes.new) }
    ensures whole { OnOk result (string_bytes notes.new ≡ string_bytes notes.old ++ note text.now) }
{
    if notes.push_str(text).is_err() {
        return Err(AllocError);
    }
    if notes.push_str("; ").is_err() {
        return Err(AllocError);
    }
    Ok(())
}
