//! The texts of a host's files.
ghost use Rattle.std.specs.Prelude.{◌≡◌, ◌⊎◌, [], Ok, Err, Some, None, IfOk, IfErr, IsTrue, ⊤};
ghost use Rattle.tame_names.specs.Standing.{IsInput, StaysButInput};
ghost use Rattle.tame_names.specs.Utf8.{utf8_text};
ghost use Rattle.tame_names.specs.declared.host.FileCall.TheVariants as FileCall;
ghost use Rattle.audit_asked.specs.Calls.{AddsFailed, HasFileCause, IsCallOn, IsInputCall, IsLockfileCall};
ghost use Rattle.audit_asked.specs.Refusals.{IsReadFault, is_told, refused};
ghost use Rattle.audit_asked.specs.Texts.{IsUsedUp, limited_text};
ghost use Rattle.audit_asked.specs.Texts as spec;

use crate::faults::AskFault;
use std::alloc::Global;
use tame_names::{FileFault, Files, ReadAnswer, Text, utf8_text};

/// The largest settings file, advisory and lockfile that is read, in bytes: 64 MiB.
pub const TEXT_LIMIT: u64 = 67108864;

/// The text of a file that was fully read.
fn whole_text(alloc: Global, path: Text, bytes: &[u8]) -> Result<Text, AskFault>
    ensures ok { IfOk result (λ text. utf8_text bytes.now ≡ Some text) }
    ensures refused { IfErr result (λ e. (e ≡ AskFault.NoMemory)
        ⊎ ((e ≡ AskFault.NotUtf8 path) × (utf8_text bytes.now ≡ None))) }
{
    match utf8_text(bytes) {
        Some(text) => Ok(Text::of(alloc, text)?),
        None => Err(AskFault::NotUtf8 { path }),
    }
}

/// The text of the file at a path, if it is there.
pub(crate) fn text_there<F: Files>(
    alloc: Global,
    files: &mut F,
    path: &str,
) -> Result<Option<Text>, AskFault>
    ensures ok { F.tells → IfOk result (λ text.
        spec.text_there path.now ((F.host files.old).stands path.now) ≡ Ok text) }
    ensures refused { F.tells → IfErr result (λ e. IsTrue (is_told e)
        → spec.text_there path.now ((F.host files.old).stands path.now) ≡ Err (refused e)) }
    ensures only { IfErr result IsReadFault }
    ensures cause { HasFileCause (F.faults files.old) (F.faults files.new) result }
    ensures failed { F.tells → AddsFailed (IsCallOn FileCall.Read path.now)
        (F.failed files.old) (F.failed files.new) result }
    ensures same { F.tells → F.host files.new ≡ F.host files.old }
{
    let copy = Text::of(alloc, path)?;
    match files.read(alloc, path, TEXT_LIMIT) {
        Ok(ReadAnswer::Absent) => Ok(None),
        Ok(ReadAnswer::Whole(bytes)) => Ok(Some(whole_text(alloc, copy, bytes.as_slice())?)),
        Ok(ReadAnswer::Over(len)) => Err(AskFault::TooLarge { path: copy, len }),
        Err(FileFault::Failed) => Err(AskFault::File { path: copy }),
        Err(FileFault::NoMemory) => Err(AskFault::NoMemory),
    }
}

/// The text of the file at a path.
pub(crate) fn file_text<F: Files>(
    alloc: Global,
    files: &mut F,
    path: &str,
) -> Result<Text, AskFault>
    ensures ok { F.tells → IfOk result (λ text.
        spec.file_text path.now ((F.host files.old).stands path.now) ≡ Ok text) }
    ensures refused { F.tells → IfErr result (λ e. IsTrue (is_told e)
        → spec.file_text path.now ((F.host files.old).stands path.now) ≡ Err (refused e)) }
    ensures only { IfErr result IsReadFault }
    ensures cause { HasFileCause (F.faults files.old) (F.faults files.new) result }
    ensures failed { F.tells → AddsFailed (IsCallOn FileCall.Read path.now)
        (F.failed files.old) (F.failed files.new) result }
    ensures same { F.tells → F.host files.new ≡ F.host files.old }
{
    let copy = Text::of(alloc, path)?;
    match text_there(alloc, files, path)? {
        Some(text) => Ok(text),
        None => Err(AskFault::Missing { path: copy }),
    }
}

/// The text of standard input, whose path is reported as `-`.
fn input_text<F: Files>(alloc: Global, files: &mut F, path: &str) -> Result<Text, AskFault>
    ensures ok { F.tells → IfOk result (λ text.
        limited_text path.now (F.host files.old).input ≡ Ok text) }
    ensures refused { F.tells → IfErr result (λ e. IsTrue (is_told e)
        → limited_text path.now (F.host files.old).input ≡ Err (refused e)) }
    ensures only { IfErr result IsReadFault }
    ensures cause { HasFileCause (F.faults files.old) (F.faults files.new) result }
    ensures failed { F.tells → AddsFailed (IsInputCall path.now)
        (F.failed files.old) (F.failed files.new) result }
    ensures same { F.tells → StaysButInput ⊤ (F.host files.old) (F.host files.new) }
    ensures left { F.tells → IfOk result (λ _. (F.host files.new).input ≡ []) }
{
    let copy = Text::of(alloc, path)?;
    match files.read_stdin(alloc, TEXT_LIMIT) {
        Ok(ReadAnswer::Absent) => unreachable!("input is never absent"),
        Ok(ReadAnswer::Whole(bytes)) => whole_text(alloc, copy, bytes.as_slice()),
        Ok(ReadAnswer::Over(len)) => Err(AskFault::TooLarge { path: copy, len }),
        Err(FileFault::Failed) => Err(AskFault::File { path: copy }),
        Err(FileFault::NoMemory) => Err(AskFault::NoMemory),
    }
}

/// The text of the file at a path; `-` is standard input.
pub(crate) fn input_or_text<F: Files>(
    alloc: Global,
    files: &mut F,
    path: &str,
) -> Result<Text, AskFault>
    ensures ok { F.tells → IfOk result (λ text.
        spec.input_or_text (F.host files.old) path.now ≡ Ok text) }
    ensures refused { F.tells → IfErr result (λ e. IsTrue (is_told e)
        → spec.input_or_text (F.host files.old) path.now ≡ Err (refused e)) }
    ensures only { IfErr result IsReadFault }
    ensures cause { HasFileCause (F.faults files.old) (F.faults files.new) result }
    ensures failed { F.tells → AddsFailed (IsLockfileCall path.now)
        (F.failed files.old) (F.failed files.new) result }
    ensures same { F.tells → StaysButInput (IsInput path.now)
        (F.host files.old) (F.host files.new) }
    ensures left { F.tells → IfOk result (λ _. IsUsedUp path.now (F.host files.new)) }
{
    if path == "-" {
        input_text(alloc, files, path)
    } else {
        file_text(alloc, files, path)
    }
}
