//! Putting texts that were made in memory.
ghost use Rattle.std.specs.Prelude.{◌≡◌, ◌≤◌, ◌++◌, ◌⊎◌, [], IfErr};
ghost use Rattle.tame_names.specs.Counts.{CountRose};
ghost use Rattle.report_parts.specs.Outputs.{IsPut};

use std::alloc::AllocError;
use tame_names::{NoMemory, Sink, put_counted};

/// Why something wasn't printed.
#[derive(Clone, Copy, Debug, PartialEq, Eq)]
pub enum PrintError {
    /// A put failed.
    Io,
    /// A place that is named has no advisory or no package.
    Tree,
    /// Out of memory.
    NoMemory,
}

impl From<NoMemory> for PrintError {
    ghost use Rattle.report_parts.specs.declared.putting.PrintError.TheVariants.{NoMemory as no_memory};

    ghost from_gives = { λ _ e. e ≡ no_memory };

    fn from(_: NoMemory) -> PrintError {
        PrintError::NoMemory
    }
}

impl From<AllocError> for PrintError {
    ghost use Rattle.report_parts.specs.declared.putting.PrintError.TheVariants.{NoMemory as no_memory};

    ghost from_gives = { λ _ e. e ≡ no_memory };

    fn from(_: AllocError) -> PrintError {
        PrintError::NoMemory
    }
}

/// Puts a text. A text without bytes isn't put.
pub fn put_text<S: Sink>(sink: &mut S, text: &[u8]) -> Result<(), PrintError>
    ensures put { S.tells → IsPut (S.holds sink.old) text.now (S.holds sink.new) result }
    ensures nothing { text.now ≡ [] → sink.new ≡ sink.old }
    ensures later { S.faults sink.old ≤ S.faults sink.new }
    ensures failed { IfErr result (λ e. (e ≡ PrintError.Io)
        × CountRose (S.faults sink.old) (S.faults sink.new)) }
{
    match put_counted(sink, text) {
        Ok(_) => Ok(()),
        Err(_) => Err(PrintError::Io),
    }
}

/// Puts a text into an output, and then another one into a second output.
pub fn put_texts<O: Sink, E: Sink>(
    first: &mut O,
    second: &mut E,
    text: &[u8],
    summary: &[u8],
) -> Result<(), PrintError>
    ensures first { O.tells → IsPut (O.holds first.old) text.now (O.holds first.new) result }
    ensures second { E.tells → IsPut (E.holds second.old) summary.now (E.holds second.new) result }
    ensures first_nothing { text.now ≡ [] → first.new ≡ first.old }
    ensures second_nothing { summary.now ≡ [] → second.new ≡ second.old }
    // the second is called once the first holds its text whole
    ensures in_order { O.tells → (O.holds first.new ≡ O.holds first.old ++ text.now)
        ⊎ (second.new ≡ second.old) }
    ensures first_later { O.faults first.old ≤ O.faults first.new }
    ensures second_later { E.faults second.old ≤ E.faults second.new }
    ensures failed { IfErr result (λ e. (e ≡ PrintError.Io)
        × (CountRose (O.faults first.old) (O.faults first.new)
        ⊎ CountRose (E.faults second.old) (E.faults second.new))) }
{
    put_text(first, text)?;
    put_text(second, summary)
}
