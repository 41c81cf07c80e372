//! Putting text.
ghost use Rattle.std.specs.Prelude.{◌≡◌, ◌≤◌, ◌++◌, codes, [], Err, IfOk, IfErr, IsOk, string_bytes};
ghost use Rattle.tame_names.specs.Counts.{CountRose};
ghost use Rattle.report_parts.specs.Outputs.{IsPut};

use std::alloc::{AllocError, Global};
use tame_names::{NoMemory, Sink, put_counted};

/// Why something isn't printed.
#[derive(Clone, Copy, Debug, PartialEq, Eq)]
pub enum PrintFault {
    /// An output failed, and counted it.
    Put,
    /// Out of memory.
    NoMemory,
}

impl From<NoMemory> for PrintFault {
    ghost use Rattle.audit_output.specs.declared.putting.PrintFault.TheVariants.{NoMemory as no_memory};

    ghost from_gives = { λ _ e. e ≡ no_memory };

    fn from(_: NoMemory) -> PrintFault {
        PrintFault::NoMemory
    }
}

/// Puts a text. An empty text isn't put.
pub fn put_text<S: Sink>(sink: &mut S, text: &[u8]) -> Result<(), PrintFault>
    ensures put { S.tells → IsPut (S.holds sink.old) text.now (S.holds sink.new) result }
    ensures later { S.faults sink.old ≤ S.faults sink.new }
    ensures failed { IfErr result (λ e. (e ≡ PrintFault.Put)
        × CountRose (S.faults sink.old) (S.faults sink.new)) }
    ensures nothing { text.now ≡ [] → IsOk result × (sink.new ≡ sink.old) }
{
    match put_counted(sink, text) {
        Ok(_) => Ok(()),
        Err(_) => Err(PrintFault::Put),
    }
}

/// Puts a text that is printed without an audit, and a newline.
pub fn print_text<O: Sink>(alloc: Global, text: &str, out: &mut O) -> Result<(), PrintFault>
    ensures out { O.tells → IsPut (O.holds out.old) (text.now ++ codes "\n")
        (O.holds out.new) result }
    ensures later { O.faults out.old ≤ O.faults out.new }
    ensures failed { result ≡ Err PrintFault.Put → CountRose (O.faults out.old) (O.faults out.new) }
{
    match with_newline(alloc, text) {
        Ok(line) => put_text(out, line.as_bytes()),
        Err(_) => Err(PrintFault::NoMemory),
    }
}

fn with_newline(alloc: Global, text: &str) -> Result<String, AllocError>
    ensures { IfOk result (λ line. string_bytes line ≡ text.now ++ codes "\n") }
{
    let mut line = String::from_str(alloc, text)?;
    line.push_str("\n")?;
    Ok(line)
}
