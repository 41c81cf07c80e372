//! Runs over a cache file with another first byte, over a part of one, and over one of the version
//! of entries before this one.
use crate::runs::crashes::serve;
use crate::runs::kept_files::left_file;
use crate::runs::running::audited;
use crate::runs::stage::Stage;
use crate::runs::telling::Telling;
use row_fixtures::{INDEX_URL, Row, RowFault, disk_with, flagged_entry};
use std::alloc::{AllocError, Global};

/// Ranges of numbers with equal text, as `FIRST-LAST TEXT`.
#[derive(Drop)]
struct Ranges {
    out: String,
    text: String,
    first: usize,
    next: usize,
}

impl Ranges {
    fn new(alloc: Global) -> Ranges {
        Ranges {
            out: String::new(alloc),
            text: String::new(alloc),
            first: 0,
            next: 0,
        }
    }

    /// Writes the range that ends before the next number, if there is one.
    fn close(&mut self) -> Result<(), AllocError> {
        if self.first == self.next {
            return Ok(());
        }
        let (first, last, text) = (self.first, self.next.saturating_sub(1), self.text.as_str());
        let comma = if self.out.is_empty() { "" } else { "; " };
        write!(self.out, "{comma}{first}-{last} {text}")
    }

    /// Adds the text of the next number.
    fn add(&mut self, text: String) -> Result<(), AllocError> {
        if text.as_str() != self.text.as_str() {
            self.close()?;
            self.first = self.next;
            self.text = text;
        }
        self.next = self.next.saturating_add(1);
        Ok(())
    }

    fn into_text(mut self) -> Result<String, AllocError> {
        self.close()?;
        let Ranges { out, .. } = self;
        Ok(out)
    }
}

/// An audit over these bytes as the file of the crate `a`, when the server holds the yanked line
/// under `x` and answers with this status, and the disk stops at a call, if it does: what is named
/// and printed.
fn line_over(
    alloc: Global,
    stage: &mut Stage,
    bytes: &[u8],
    status: u16,
    stopped: Option<u64>,
) -> Result<String, RowFault> {
    stage.disk = disk_with(alloc, bytes, Vec::new(alloc))?;
    if let Some(n) = stopped {
        stage.stop(n);
    }
    serve(alloc, stage, status, true)?;
    audited(alloc, stage, Telling::Named(status))
}

/// The same if the body is sent, with the file that a read gives afterwards.
fn run_over(
    alloc: Global,
    stage: &mut Stage,
    bytes: &[u8],
    stopped: Option<u64>,
) -> Result<String, RowFault> {
    let line = line_over(alloc, stage, bytes, 200, stopped)?;
    stage.crash(alloc, 1)?;
    let left = left_file(alloc, &mut stage.disk)?;
    Ok(format!(in alloc; "{line} {left}")?)
}

/// The call at which the disk stops; none of `-`.
fn stop_of(words: &mut Row<'_>) -> Result<Option<u64>, RowFault> {
    match words.word() {
        "-" => Ok(None),
        word => match word.parse::<u64>() {
            Ok(n) => Ok(Some(n)),
            Err(_) => Err(RowFault::Unread),
        },
    }
}

/// `first-bytes STOP`: audits over the entry of the yanked line with each first byte, answered by
/// 200.
pub fn first_bytes(
    alloc: Global,
    stage: &mut Stage,
    mut words: Row<'_>,
) -> Result<String, RowFault> {
    let stopped = stop_of(&mut words)?;
    stage.lock_one(alloc)?;
    let mut entry = flagged_entry(alloc, true)?;
    let mut ranges = Ranges::new(alloc);
    for first in 0..=255u8 {
        if let Some(place) = entry.first_mut() {
            *place = first;
        }
        ranges.add(run_over(alloc, stage, entry.as_slice(), stopped)?)?;
    }
    Ok(ranges.into_text()?)
}

/// `parts`: audits over each beginning of the entry of the yanked line, answered by 304.
pub fn parts(alloc: Global, stage: &mut Stage) -> Result<String, RowFault> {
    stage.lock_one(alloc)?;
    let entry = flagged_entry(alloc, true)?;
    let mut ranges = Ranges::new(alloc);
    for len in 0..=entry.len() {
        let text = match entry.get(..len) {
            Some(part) => line_over(alloc, stage, part, 304, None)?,
            None => String::new(alloc),
        };
        ranges.add(text)?;
    }
    Ok(ranges.into_text()?)
}

/// `older FIRST STOP`: an audit over the entry of the yanked line as version 3 had it, without the
/// url of its index, with this first byte, answered by 200.
pub fn older(alloc: Global, stage: &mut Stage, mut words: Row<'_>) -> Result<String, RowFault> {
    let first = words.byte_or_none()?.unwrap_or(3);
    let stopped = stop_of(&mut words)?;
    stage.lock_one(alloc)?;
    let entry = flagged_entry(alloc, true)?;
    let mut bytes = Vec::new(alloc);
    bytes.push(first)?;
    bytes.extend_from_slice(entry.get(1..5).unwrap_or(&[]))?;
    let behind_url = INDEX_URL.len().saturating_add(6);
    bytes.extend_from_slice(entry.get(behind_url..).unwrap_or(&[]))?;
    let len = bytes.len();
    let ran = run_over(alloc, stage, bytes.as_slice(), stopped)?;
    Ok(format!(in alloc; "{len} bytes: {ran}")?)
}
