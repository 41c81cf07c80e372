//! Why a line has no record.
ghost use Rattle.std.specs.Prelude.{◌≡◌};

use tame_names::NoMemory;

/// Why a line isn't a record.
#[derive(Clone, Copy, Debug, PartialEq, Eq)]
pub enum LineFault {
    /// The line isn't JSON, or it or one of its members has the wrong form.
    Json,
    /// Out of memory.
    NoMemory,
}

impl From<NoMemory> for LineFault {
    ghost use Rattle.tame_records.specs.declared.line_faults.LineFault.TheVariants.{NoMemory as no_memory};

    ghost from_gives = { λ _ e. e ≡ no_memory };

    fn from(_: NoMemory) -> LineFault {
        LineFault::NoMemory
    }
}
