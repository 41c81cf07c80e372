//! Audits that are stopped at a call of the disk, and then crash.
use crate::runs::kept_files::named_next;
use crate::runs::running::audited;
use crate::runs::stage::Stage;
use crate::runs::telling::Telling;
use crate::scripts::answer_of;
use row_fixtures::{RevisionWord, Row, RowFault, flagged_body};
use std::alloc::Global;
use tame_cache::CacheDisk;
use tame_entry::OwnedRevision;

/// Adds the answer of a server that holds the line with this flag: yanked under `x`, else under
/// `y`.
pub fn serve(alloc: Global, stage: &mut Stage, status: u16, yanked: bool) -> Result<(), RowFault> {
    let body = flagged_body(alloc, yanked)?;
    let tag = RevisionWord::of(alloc, if yanked { "etag:x" } else { "etag:y" })?;
    let answer = answer_of(alloc, status, &tag, body.as_bytes())?;
    Ok(stage.script.add(answer)?)
}

/// What an audit prints and names if the server answers so.
fn audit_line(
    alloc: Global,
    stage: &mut Stage,
    status: u16,
    yanked: bool,
) -> Result<String, RowFault> {
    serve(alloc, stage, status, yanked)?;
    audited(alloc, stage, Telling::Named(status))
}

/// The status that a server answers with that holds a line under `y`.
fn status_for(named: &Option<OwnedRevision>) -> u16 {
    match named {
        Some(OwnedRevision::Etag(tag)) if tag.as_str() == "y" => 304,
        _ => 200,
    }
}

/// The last audit; the server answers 304 if its tag is named.
fn last_line(alloc: Global, stage: &mut Stage) -> Result<String, RowFault> {
    let next = named_next(alloc, &stage.index, &mut stage.disk)?;
    audit_line(alloc, stage, status_for(&next), false)
}

/// The audit that is stopped at a call of the disk, and how many calls failed.
fn stopped_line(alloc: Global, stage: &mut Stage) -> Result<String, RowFault> {
    let stopped = audit_line(alloc, stage, 200, false)?;
    let faults = stage.disk.disk_faults();
    Ok(format!(in alloc; "{stopped} with {faults} faults")?)
}

/// `crashed STOP PICK`: an audit of the yanked line, then one of the line that isn't, stopped at
/// this call of the disk, then a crash, then an audit once more: what each names and is answered,
/// its status and what it prints.
pub fn crashed_audit(
    alloc: Global,
    stage: &mut Stage,
    mut words: Row<'_>,
) -> Result<String, RowFault> {
    stage.lock_one(alloc)?;
    let first = audit_line(alloc, stage, 200, true)?;
    stage.stop(words.number()?);
    let stopped = stopped_line(alloc, stage)?;
    stage.crash(alloc, words.byte_or_none()?.unwrap_or(0))?;
    let last = last_line(alloc, stage)?;
    Ok(format!(in alloc; "{first}, {stopped}, {last}")?)
}
