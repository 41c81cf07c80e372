//! What came for a path, as an answer for every version.
ghost use Rattle.std.specs.Prelude.{◌≡◌, ◌≢◌, ℕ, List, IfOk, Ok, Err, Some, None};
ghost use Rattle.tame_entry.specs.declared.index_entries.IndexEntry.{IndexEntry};
ghost use Rattle.tame_names.specs.declared.errors.Error.{Error};
ghost use Rattle.tame_names.specs.declared.errors.InvalidJsonLines.{InvalidJsonLines};
ghost use Rattle.tame_sparse.specs.ResponseResults.{status_fault};
ghost use Rattle.audit_core.specs.Answers as spec;
ghost use Rattle.audit_core.specs.ResultAnswers.{IsAnswerOfResult};
ghost use Rattle.audit_core.specs.Verdicts as verdicts_spec;

use crate::verdicts::{Cause, Verdict};
use std::alloc::Global;
use tame_entry::{IndexEntry, VersionStatus, read_item_version_flags, status_among};
use tame_names::{Error, HttpError, IoKind, Items, NoMemory};
use tame_records::VersionFlag;

/// What an answer says about every version of its crate.
#[derive(Debug, Drop)]
pub enum PathAnswer {
    /// The same cause for each version.
    Settled(Cause),
    /// Version and flag of each line; nothing if some line has no record.
    Lines(Option<Items<VersionFlag>>),
}

/// By the lines of an index entry; a refused file counts as none.
fn entry_answer(alloc: Global, entry: &IndexEntry<'_, '_>) -> Result<PathAnswer, NoMemory>
    ensures { IfOk result (λ a. a ≡ spec.entry_answer entry.now) }
{
    match entry.iter() {
        Ok(items) => Ok(PathAnswer::Lines(read_item_version_flags(alloc, items)?)),
        Err(_) => Ok(PathAnswer::Settled(Cause::Absent)),
    }
}

/// By what the index made of a response.
pub fn answer_taken(
    alloc: Global,
    taken: Result<Option<IndexEntry<'_, '_>>, Error>,
) -> Result<PathAnswer, NoMemory>
    ensures { IfOk result (IsAnswerOfResult taken.entry) }
{
    match taken {
        Ok(Some(entry)) => entry_answer(alloc, &entry),
        Ok(None) => Ok(PathAnswer::Settled(Cause::Absent)),
        Err(Error::InvalidJsonLines(_)) => Ok(PathAnswer::Settled(Cause::JsonLines)),
        Err(Error::Http(HttpError::StatusCode { code, .. })) => {
            Ok(PathAnswer::Settled(Cause::Status(code)))
        }
        Err(Error::Io(IoKind::Failed)) => Ok(PathAnswer::Settled(Cause::Store)),
        Err(_) => Err(NoMemory),
    }
}

/// The verdict of a version.
pub fn verdict_by(answer: &PathAnswer, version: &str) -> Verdict
    ensures { result ≡ verdicts_spec.verdict_by answer.now version.now }
{
    match answer {
        PathAnswer::Settled(cause) => Verdict::Unchecked(*cause),
        PathAnswer::Lines(flags) => match status_among(flags, version) {
            VersionStatus::Unread => Verdict::Unchecked(Cause::Record),
            VersionStatus::NoVersion => Verdict::Unchecked(Cause::NoVersion),
            VersionStatus::Flag(true) => Verdict::Yanked,
            VersionStatus::Flag(false) => Verdict::NotYanked,
        },
    }
}
