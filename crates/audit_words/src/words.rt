//! The arguments of the command.
ghost use Rattle.std.specs.Prelude.{◌≡◌, ◌≢◌, map, string_bytes, IfOk, IfErr, Ok, Err};
ghost use Rattle.audit_words.specs.Reading.{command_of};
ghost use Rattle.audit_words.specs.Reading as spec;

use crate::commands::{Command, WordsFault};
use crate::drafts::{Draft, Stop};
use std::alloc::Global;

/// The reading is ended at a position.
fn ended(place: usize, stop: Stop) -> Result<Command, WordsFault>
    ensures { result ≡ spec.ended place stop }
{
    match stop {
        Stop::Help => Ok(Command::Help),
        Stop::Version => Ok(Command::Version),
        Stop::Wrong => Err(WordsFault::Usage { place }),
        Stop::Missing => Err(WordsFault::Usage {
            place: place.saturating_sub(1),
        }),
        Stop::NoMemory => Err(WordsFault::NoMemory),
    }
}

/// The command that the words mean; the program's name isn't among them. `Usage` if they break a
/// rule: its place, from 0, is that of the first word that does; for a missing value, that of its
/// option; and the number of words if `audit` or a path is missing at the end.
pub fn read_words(alloc: Global, words: &[String]) -> Result<Command, WordsFault>
    ensures ok { IfOk result (λ c. command_of (map string_bytes words.now) ≡ Ok c) }
    ensures refused { IfErr result (λ e. e ≢ WordsFault.NoMemory
        → command_of (map string_bytes words.now) ≡ Err e) }
{
    let mut draft = Draft::new(alloc);
    for (place, word) in words.iter().enumerate() {
        match draft.read_word(alloc, word.as_str()) {
            Ok(()) => {}
            Err(stop) => return ended(place, stop),
        }
    }
    match draft.finish() {
        Ok(command) => Ok(command),
        Err(stop) => ended(words.len(), stop),
    }
}
