//! The digests of files, which are read in pieces.
ghost use Rattle.std.specs.Prelude.{◌≡◌, ◌≤◌, length, take, drop, Ok, Err, IfOk, IfErr, IsTrue};
ghost use Rattle.sha2.specs.Sha256.{sha256};
ghost use Rattle.tame_names.specs.declared.host.FileCall.TheVariants as FileCall;
ghost use Rattle.tame_local.specs.Calls.{AddsFailed, HasFileCause, IsCallOn};
ghost use Rattle.tame_local.specs.Refusals.{IsReadError, and_then, is_told, refused};
ghost use Rattle.tame_local.specs.Registries.{bytes_at};

use crate::faults::failed;
use sha2::{Digest, Sha256};
use std::alloc::Global;
use tame_names::{Error, Files, IoKind, ReadAnswer, Text};

/// The most bytes of a file that are held at once, 1 MiB. A file is opened again for each piece:
/// with smaller ones a large file would be opened more often. Most crate files are one piece.
const PIECE: u64 = 1 << 20;

/// The number of bytes of the file at a path. `IoPath`: `NotFound` if nothing is there, `Failed` if
/// it can't be read.
fn len_at<F: Files>(alloc: Global, files: &mut F, path: &str) -> Result<u64, Error>
    ensures ok { F.tells → IfOk result (λ len. and_then (λ bytes. Ok (length bytes))
        (bytes_at path.now ((F.host files.old).stands path.now)) ≡ Ok len) }
    ensures refused { F.tells → IfErr result (λ e. IsTrue (is_told e)
        → bytes_at path.now ((F.host files.old).stands path.now) ≡ Err (refused e)) }
    ensures only { IfErr result IsReadError }
    ensures cause { HasFileCause (F.faults files.old) (F.faults files.new) result }
    ensures failed { F.tells → AddsFailed (IsCallOn FileCall.Read path.now)
        (F.failed files.old) (F.failed files.new) result }
    ensures same { F.tells → F.host files.new ≡ F.host files.old }
{
    let copy = Text::of(alloc, path)?;
    match files.read(alloc, path, 0) {
        Ok(ReadAnswer::Whole(bytes)) => Ok(bytes.len() as u64),
        Ok(ReadAnswer::Over(len)) => Ok(len),
        Ok(ReadAnswer::Absent) => Err(Error::IoPath(IoKind::NotFound, copy)),
        Err(fault) => Err(failed(fault, copy)),
    }
}

/// The bytes of the file at a path from number `from` on, at most `limit`. `IoPath`: `NotFound` if
/// nothing is there, `Failed` if it can't be read.
fn piece_at<F: Files>(
    alloc: Global,
    files: &mut F,
    path: &str,
    from: u64,
    limit: u64,
) -> Result<Vec<u8>, Error>
    ensures ok { F.tells → IfOk result (λ piece.
        and_then (λ bytes. Ok (take limit (drop from bytes)))
        (bytes_at path.now ((F.host files.old).stands path.now)) ≡ Ok piece.items) }
    ensures within { IfOk result (λ piece. length piece.items ≤ limit) }
    ensures refused { F.tells → IfErr result (λ e. IsTrue (is_told e)
        → bytes_at path.now ((F.host files.old).stands path.now) ≡ Err (refused e)) }
    ensures only { IfErr result IsReadError }
    ensures cause { HasFileCause (F.faults files.old) (F.faults files.new) result }
    ensures failed { F.tells → AddsFailed (IsCallOn FileCall.Read path.now)
        (F.failed files.old) (F.failed files.new) result }
    ensures same { F.tells → F.host files.new ≡ F.host files.old }
{
    let copy = Text::of(alloc, path)?;
    match files.read_part(alloc, path, from, limit) {
        Ok(Some(piece)) => Ok(piece),
        Ok(None) => Err(Error::IoPath(IoKind::NotFound, copy)),
        Err(fault) => Err(failed(fault, copy)),
    }
}

/// The SHA-256 digest of the file at a path. `IoPath`: `NotFound` if nothing is there, `Failed` if
/// it can't be read.
pub(crate) fn digest_at<F: Files>(
    alloc: Global,
    files: &mut F,
    path: &str,
) -> Result<[u8; 32], Error>
    ensures ok { F.tells → IfOk result (λ digest. and_then (λ bytes. Ok (sha256 bytes))
        (bytes_at path.now ((F.host files.old).stands path.now)) ≡ Ok digest) }
    ensures refused { F.tells → IfErr result (λ e. IsTrue (is_told e)
        → bytes_at path.now ((F.host files.old).stands path.now) ≡ Err (refused e)) }
    ensures only { IfErr result IsReadError }
    ensures cause { HasFileCause (F.faults files.old) (F.faults files.new) result }
    ensures failed { F.tells → AddsFailed (IsCallOn FileCall.Read path.now)
        (F.failed files.old) (F.failed files.new) result }
    ensures same { F.tells → F.host files.new ≡ F.host files.old }
{
    let len = len_at(alloc, files, path)?;
    let mut hasher = Sha256::new();
    let mut from: u64 = 0;
    while from < len {
        let piece = piece_at(alloc, files, path, from, PIECE.min(len - from))?;
        if piece.is_empty() {
            return Ok(hasher.finalize());
        }
        hasher.update(piece.as_slice());
        from += piece.len() as u64;
    }
    Ok(hasher.finalize())
}
