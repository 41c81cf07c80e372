//! The audit of a lockfile at a path of the host.
ghost use Rattle.std.specs.Prelude.{◌≡◌, ◌≢◌, ◌<◌, ◌++◌, ◌∷◌, [], ◌⊎◌, ℕ, List, true, false, Ok, Err, IfOk, IfErr};
ghost use Rattle.std.specs.Str.{is_utf8};
ghost use Rattle.tame_names.specs.Counts.{HasCause, CountRose};
ghost use Rattle.tame_names.specs.Standing.{IsAboveLimit, IsInput, Reads, StaysButInput, failed_calls, reading_call};
ghost use Rattle.audit_lock.specs.Locked.{locked};
ghost use Rattle.audit_lock.specs.declared.resolving.Package.{Package};
ghost use Rattle.audit_core.specs.Opened.{IsUnopenedFor, lockfile_limit, standing_at, opened_text};

use crate::auditing::{AuditError, Audited};
use crate::auditors::Auditor;
use std::alloc::Global;
use tame_cache::CacheDisk;
use tame_names::{FileFault, FileLock, Files, NoMemory, ReadAnswer, Text, utf8_text};
use tame_sparse::Wire;

/// The largest lockfile that is read, in bytes: 64 MiB.
pub const LOCKFILE_LIMIT: u64 = 67108864;

/// Why there is no audit of a lockfile at a path.
#[derive(Clone, Copy, Debug, PartialEq, Eq)]
pub enum FileAuditError {
    /// Nothing is there.
    Missing,
    /// It isn't UTF-8.
    NotUtf8,
    /// It has this number of bytes, which is too many.
    TooLarge(u64),
    /// It couldn't be read.
    File,
    /// Its text has no audit, for this reason.
    Audit(AuditError),
}

impl From<NoMemory> for FileAuditError {
    ghost use Rattle.audit_core.specs.declared.auditing.AuditError.TheVariants.{NoMemory as no_memory};
    ghost use Rattle.audit_core.specs.declared.opening.FileAuditError.TheVariants.{Audit as audit};

    ghost from_gives = { λ _ e. e ≡ audit no_memory };

    fn from(_: NoMemory) -> FileAuditError {
        FileAuditError::Audit(AuditError::NoMemory)
    }
}

/// Reads what is at a path; `-` is standard input.
fn read_at<F: Files>(alloc: Global, files: &mut F, path: &str) -> Result<ReadAnswer, FileFault>
    ensures cause { HasCause FileFault.NoMemory (F.faults files.old) (F.faults files.new) result }
    ensures above { IsAboveLimit lockfile_limit result }
    ensures same { F.tells → StaysButInput (IsInput path.now)
        (F.host files.old) (F.host files.new) }
    ensures answer { F.tells
        → Reads (standing_at (F.host files.old) path.now) lockfile_limit result }
    ensures failed { F.tells → F.failed files.new ≡ failed_calls (F.failed files.old)
        (reading_call path.now).call (reading_call path.now).path result }
{
    if path == "-" {
        files.read_stdin(alloc, LOCKFILE_LIMIT)
    } else {
        files.read(alloc, path, LOCKFILE_LIMIT)
    }
}

/// The text of what was read whole.
fn whole_text(alloc: Global, bytes: &[u8]) -> Result<Text, FileAuditError>
    ensures ok { IfOk result (λ text. text ≡ bytes.now) }
    ensures utf8 { IfOk result (λ text. is_utf8 bytes.now ≡ true) }
    ensures refused { IfErr result (λ e. (e ≡ FileAuditError.Audit AuditError.NoMemory)
        ⊎ ((e ≡ FileAuditError.NotUtf8) × (is_utf8 bytes.now ≡ false))) }
{
    match utf8_text(bytes) {
        Some(text) => Ok(Text::of(alloc, text)?),
        None => Err(FileAuditError::NotUtf8),
    }
}

/// The text of what is at a path, or why there is none.
fn read_text<F: Files>(alloc: Global, files: &mut F, path: &str) -> Result<Text, FileAuditError>
    ensures text { F.tells → IfOk result (λ text.
        opened_text (standing_at (F.host files.old) path.now) ≡ Ok text) }
    ensures reason { IfErr result
        (IsUnopenedFor F.tells (standing_at (F.host files.old) path.now)) }
    ensures only { (e : AuditError) → result ≡ Err (FileAuditError.Audit e)
        → e ≡ AuditError.NoMemory }
    ensures rose { result ≡ Err FileAuditError.File
        → CountRose (F.faults files.old) (F.faults files.new) }
    ensures failed { F.tells → result ≡ Err FileAuditError.File
        → F.failed files.new ≡ F.failed files.old ++ reading_call path.now ∷ [] }
    ensures unfailed { F.tells → result ≢ Err FileAuditError.File
        → F.failed files.new ≡ F.failed files.old }
    ensures same { F.tells → StaysButInput (IsInput path.now)
        (F.host files.old) (F.host files.new) }
{
    match read_at(alloc, files, path) {
        Ok(ReadAnswer::Whole(bytes)) => whole_text(alloc, bytes.as_slice()),
        Ok(ReadAnswer::Absent) => Err(FileAuditError::Missing),
        Ok(ReadAnswer::Over(len)) => Err(FileAuditError::TooLarge(len)),
        Err(FileFault::Failed) => Err(FileAuditError::File),
        Err(FileFault::NoMemory) => Err(FileAuditError::Audit(AuditError::NoMemory)),
    }
}

impl Auditor {
    ghost use Rattle.audit_core.specs.Audits.{IsAuditOf};
    ghost use Rattle.audit_core.specs.Checks.{asked_of};
    ghost use Rattle.audit_core.specs.Leaves.{AsksOnly, CallsBy, holding};
    ghost use Rattle.audit_core.specs.Opened.{IsEarly, IsUnopenedFor};
    ghost use Rattle.audit_core.specs.Turns.{StaysKept};

    /// Audits the lockfile at a path of the host (`-` is standard input), as `audit_text`.
    /// `Missing` if nothing is there, `TooLarge` if it has more than 64 MiB, `NotUtf8` if
    /// it isn't UTF-8, `File` if it can't be read, else as the audit of its text.
    pub fn audit_lockfile<F: Files, W: Wire, D: CacheDisk>(
        &self,
        alloc: Global,
        files: &mut F,
        path: &str,
        lock: &FileLock,
        wire: &mut W,
        disk: &mut D,
    ) -> Result<Audited, FileAuditError>
        // the audit of the text there
        ensures audited { IfOk result (λ a. (text : List ℕ)
            × (F.tells → opened_text (standing_at (F.host files.old) path.now) ≡ Ok text)
            × IsAuditOf self.now W.tells D.tells
            (record {
              exchanges = W.exchanges wire.old;
              files = D.past disk.old;
              wire_faults = W.faults wire.old;
              disk_faults = D.faults disk.old;
              disk_failed = D.failed disk.old;
            })
            (record {
              exchanges = W.exchanges wire.new;
              files = D.past disk.new;
              wire_faults = W.faults wire.new;
              disk_faults = D.faults disk.new;
              disk_failed = D.failed disk.new;
            })
            text a) }

        // why there is none
        ensures reason { IfErr result
            (IsUnopenedFor F.tells (standing_at (F.host files.old) path.now)) }
        ensures rose { result ≡ Err FileAuditError.File
            → CountRose (F.faults files.old) (F.faults files.new) }
        ensures failed { F.tells → result ≡ Err FileAuditError.File
            → F.failed files.new ≡ F.failed files.old ++ reading_call path.now ∷ [] }
        ensures unfailed { F.tells → result ≢ Err FileAuditError.File
            → F.failed files.new ≡ F.failed files.old }
        ensures early { IfErr result (λ e. IsEarly e
            → (wire.new ≡ wire.old) × (disk.new ≡ disk.old)) }

        // whatever the result, nothing is called if what is there gives no lockfile, and the wire
        // is what calls may make of it
        ensures uncalled { F.tells → ((text : List ℕ) (packages : List Package)
            → opened_text (standing_at (F.host files.old) path.now) ≡ Ok text
            → locked text ≡ Ok packages → ⊥)
            → (wire.new ≡ wire.old) × (disk.new ≡ disk.old) }
        ensures becomes { W.becomes wire.old wire.new }

        // for a text that is a lockfile, whatever the result: the first few paths were asked for,
        // no file changes except those of asked paths, and no folders are created except
        // those above these
        ensures asks { F.tells → (text : List ℕ) (packages : List Package)
            → opened_text (standing_at (F.host files.old) path.now) ≡ Ok text
            → locked text ≡ Ok packages
            → AsksOnly W.tells D.tells (asked_of self.now.checks packages)
            (holding (W.exchanges wire.old) (D.past disk.old) (D.folders disk.old))
            (holding (W.exchanges wire.new) (D.past disk.new) (D.folders disk.new)) }

        // whatever the result: what stays, and what is kept
        ensures same { F.tells → StaysButInput (IsInput path.now)
            (F.host files.old) (F.host files.new) }
        ensures kept { W.tells → D.tells
            → StaysKept (W.exchanges wire.old) (W.exchanges wire.new) (D.past disk.old)
            (D.past disk.new) }
        ensures calls { CallsBy self.now.checks D.tells (wire.new ≡ wire.old)
            (disk.new ≡ disk.old)
            (holding (W.exchanges wire.old) (D.past disk.old) (D.folders disk.old))
            (holding (W.exchanges wire.new) (D.past disk.new) (D.folders disk.new)) }
    {
        let text = read_text(alloc, files, path)?;
        match self.audit_text(alloc, text.as_str(), lock, wire, disk) {
            Ok(audited) => Ok(audited),
            Err(error) => Err(FileAuditError::Audit(error)),
        }
    }
}
