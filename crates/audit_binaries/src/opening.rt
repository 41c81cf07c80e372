//! What a binary at a path of the host says.
ghost use Rattle.std.specs.Prelude.{◌≡◌, ◌≢◌, ◌≤◌, ◌++◌, ◌∷◌, [], ◌⊎◌, ℕ, List, Ok, Err, IfOk, IfErr, Some};
ghost use Rattle.tame_names.specs.Counts.{CountRose};
ghost use Rattle.audit_binaries.specs.Opened.{IfRefused, IsOpened, IsRead, IsSaid, IsUnopened, HasNoBytes, IsUnsaid, bytes_at, failed_reads};

use crate::answers::{BinaryFault, PackagesFound};
use crate::decoders::{DecodeFault, Decoded, Decoder};
use crate::limits::BinaryLimits;
use std::alloc::Global;
use tame_names::{FileFault, Files, NoMemory, ReadAnswer, Text};

/// The text of a lockfile in a binary, and whether it is of all packages.
#[derive(Drop)]
pub struct FoundText {
    /// How much the text says about the packages.
    pub found: PackagesFound,
    /// The text of the lockfile.
    pub text: Text,
}

/// Why a binary says nothing.
#[derive(Clone, Copy, Debug, PartialEq, Eq)]
pub enum Unopened {
    /// It is refused, for this reason.
    Refused(BinaryFault),
    /// Out of memory.
    NoMemory,
}

/// The bytes of the file at a path.
fn read_binary<F: Files>(
    alloc: Global,
    limit: u64,
    path: &str,
    files: &mut F,
) -> Result<Vec<u8>, Unopened>
    ensures bytes { IfOk result (λ bytes.
        IsRead F.tells limit ((F.host files.old).stands path.now) bytes.items) }
    ensures reason { IfErr result (IfRefused
        (HasNoBytes F.tells limit ((F.host files.old).stands path.now))) }
    ensures later { F.faults files.old ≤ F.faults files.new }
    ensures rose { result ≡ Err (Unopened.Refused BinaryFault.File)
        → CountRose (F.faults files.old) (F.faults files.new) }
    ensures failed { F.tells → IfErr result (IfRefused (λ f.
        F.failed files.new ≡ F.failed files.old ++ failed_reads path.now f)) }
    ensures unfailed { F.tells → IfOk result (λ _. F.failed files.new ≡ F.failed files.old) }
    ensures cut { F.tells → result ≡ Err Unopened.NoMemory
        → F.failed files.new ≡ F.failed files.old }
    ensures same { F.tells → F.host files.new ≡ F.host files.old }
{
    match files.read(alloc, path, limit) {
        Ok(ReadAnswer::Whole(bytes)) => Ok(bytes),
        Ok(ReadAnswer::Absent) => Err(Unopened::Refused(BinaryFault::Missing)),
        Ok(ReadAnswer::Over(len)) => Err(Unopened::Refused(BinaryFault::TooLarge(len))),
        Err(FileFault::Failed) => Err(Unopened::Refused(BinaryFault::File)),
        Err(FileFault::NoMemory) => Err(Unopened::NoMemory),
    }
}

/// What the bytes say.
fn decode_binary<P: Decoder>(
    alloc: Global,
    limit: u64,
    bytes: &[u8],
    decoder: &mut P,
) -> Result<FoundText, Unopened>
    ensures said { IfOk result (λ said.
        IsSaid P.tells (P.answers decoder.old bytes.now limit) (Ok said)) }
    ensures reason { IfErr result (IfRefused
        (IsUnsaid P.tells limit (P.answers decoder.old bytes.now limit))) }
    ensures later { P.faults decoder.old ≤ P.faults decoder.new }
    ensures rose { result ≡ Err (Unopened.Refused BinaryFault.Decode)
        → CountRose (P.faults decoder.old) (P.faults decoder.new) }
    ensures quiet { result ≢ Err (Unopened.Refused BinaryFault.Decode)
        → P.faults decoder.new ≡ P.faults decoder.old }
    ensures same { P.tells → (other : List ℕ) (bound : ℕ)
        → P.answers decoder.new other bound ≡ P.answers decoder.old other bound }
{
    match decoder.decode(alloc, bytes, limit) {
        Ok(Decoded::Complete(text)) => Ok(FoundText {
            found: PackagesFound::Complete,
            text,
        }),
        Ok(Decoded::Incomplete(text)) => Ok(FoundText {
            found: PackagesFound::Incomplete,
            text,
        }),
        Ok(Decoded::Nothing) => Err(Unopened::Refused(BinaryFault::NoInformation)),
        Err(DecodeFault::Over(len)) => Err(Unopened::Refused(BinaryFault::PayloadOver(len))),
        Err(DecodeFault::Failed) => Err(Unopened::Refused(BinaryFault::Decode)),
        Err(DecodeFault::NoMemory) => Err(Unopened::NoMemory),
    }
}

/// What the binary at a path says.
pub(crate) fn open_binary<F: Files, P: Decoder>(
    alloc: Global,
    limits: &BinaryLimits,
    path: &str,
    files: &mut F,
    decoder: &mut P,
) -> Result<FoundText, Unopened>
    ensures said { IfOk result (IsOpened F.tells P.tells limits.now
        ((F.host files.old).stands path.now) (P.answers decoder.old)) }
    ensures reason { IfErr result (IfRefused (IsUnopened F.tells P.tells limits.now
        ((F.host files.old).stands path.now) (P.answers decoder.old))) }
    ensures files_later { F.faults files.old ≤ F.faults files.new }
    ensures decoder_later { P.faults decoder.old ≤ P.faults decoder.new }
    ensures file { result ≡ Err (Unopened.Refused BinaryFault.File)
        → CountRose (F.faults files.old) (F.faults files.new) }
    ensures decode { result ≡ Err (Unopened.Refused BinaryFault.Decode)
        → CountRose (P.faults decoder.old) (P.faults decoder.new) }
    ensures quiet { result ≢ Err (Unopened.Refused BinaryFault.Decode)
        → P.faults decoder.new ≡ P.faults decoder.old }
    ensures failed { F.tells → IfErr result (IfRefused (λ f.
        F.failed files.new ≡ F.failed files.old ++ failed_reads path.now f)) }
    ensures unfailed { F.tells → IfOk result (λ _. F.failed files.new ≡ F.failed files.old) }
    ensures cut { F.tells → result ≡ Err Unopened.NoMemory
        → F.failed files.new ≡ F.failed files.old }
    ensures files_same { F.tells → F.host files.new ≡ F.host files.old }
    ensures decoder_same { P.tells → (other : List ℕ) (bound : ℕ)
        → P.answers decoder.new other bound ≡ P.answers decoder.old other bound }
{
    let bytes = read_binary(alloc, limits.binary, path, files)?;
    decode_binary(alloc, limits.payload, bytes.as_slice(), decoder)
}
