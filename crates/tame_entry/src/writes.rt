//! Entries of the cache, written.
ghost use Rattle.std.specs.Prelude.{◌≡◌, ◌⊎◌, ◌≤◌, ◌^◌, ◌++◌, ℕ, List, Err, length, map, flat_map, IfOk, IfErr, OnOk, IsErr};
ghost use Rattle.std.specs.List.{list_all};
ghost use Rattle.tame_names.specs.Counts.{CountRose};
ghost use Rattle.tame_names.specs.Output.{AddsPrefix, HasPutCause};
ghost use Rattle.tame_entry.specs.Entry.{TakesMemory, is_storable_pair, pair_bytes, pair_of, version_pair, written_pairs};
ghost use Rattle.tame_entry.specs.Entry as spec;
ghost use Rattle.tame_entry.specs.JsonLines.{lines_of};
ghost use Rattle.tame_entry.specs.Revision.{IsFormed, revision_value};

use crate::entry_pieces::{EntryPieces, PIECE_LEN};
use crate::json_lines::JsonLines;
use crate::raw::has_no_zero;
use crate::revisions::Revision;
use std::alloc::Global;
use tame_names::{Error, IoKind, NoMemory, Sink, SinkFault, put_piece};
use tame_records::{IndexKrate, IndexVersion, with_line};

/// What is written to the cache.
#[derive(Clone, Copy)]
pub enum CacheWrite<'r> {
    /// The lines that a server sent.
    Remote(JsonLines<'r>),
    /// The versions of a crate, each with the line that it writes.
    Krate(&'r IndexKrate),
}

impl<'r> From<JsonLines<'r>> for CacheWrite<'r> {
    ghost use Rattle.tame_entry.specs.declared.writes.CacheWrite.TheVariants.{Remote};

    ghost from_gives = { λ lines write. write ≡ Remote lines };

    fn from(lines: JsonLines<'r>) -> CacheWrite<'r> {
        CacheWrite::Remote(lines)
    }
}

impl<'r> From<&'r IndexKrate> for CacheWrite<'r> {
    ghost use Rattle.tame_entry.specs.declared.writes.CacheWrite.TheVariants.{Krate};

    ghost from_gives = { λ krate write. write ≡ Krate krate };

    fn from(krate: &'r IndexKrate) -> CacheWrite<'r> {
        CacheWrite::Krate(krate)
    }
}

/// The bytes, and after them a version with the line that it writes.
fn with_version(alloc: Global, bytes: Vec<u8>, version: &IndexVersion) -> Result<Vec<u8>, NoMemory>
    ensures { IfOk result (λ all. all.items
        ≡ bytes.items ++ pair_bytes (version_pair version.now)) }
{
    let mut out = bytes;
    out.extend_from_slice(version.version.as_str().as_bytes())?;
    out.push(0)?;
    let mut all = with_line(alloc, out, version)?;
    all.push(0)?;
    Ok(all)
}

fn with_versions(
    alloc: Global,
    bytes: Vec<u8>,
    versions: &[IndexVersion],
) -> Result<Vec<u8>, NoMemory>
    ensures { IfOk result (λ all. all.items
        ≡ bytes.items ++ flat_map pair_bytes (map version_pair versions.now)) }
{
    let mut all = bytes;
    for version in versions {
        all = with_version(alloc, all, version)?;
    }
    Ok(all)
}

fn line_is_storable(line: &[u8]) -> bool
    ensures { result ≡ is_storable_pair (pair_of line.now) }
{
    has_no_zero(line)
}

fn lines_are_storable(lines: JsonLines<'_>) -> bool
    ensures { result ≡ list_all is_storable_pair (map pair_of (lines_of lines.entry)) }
{
    for line in lines.lines() {
        if !line_is_storable(line) {
            return false;
        }
    }
    true
}

fn version_is_storable(alloc: Global, version: &IndexVersion) -> Result<bool, NoMemory>
    ensures { IfOk result (λ storable. storable ≡ is_storable_pair (version_pair version.now)) }
{
    let line = with_line(alloc, Vec::new(alloc), version)?;
    Ok(has_no_zero(version.version.as_str().as_bytes()) && has_no_zero(line.as_slice()))
}

fn versions_are_storable(alloc: Global, versions: &[IndexVersion]) -> Result<bool, NoMemory>
    ensures { IfOk result (λ storable. storable
        ≡ list_all is_storable_pair (map version_pair versions.now)) }
{
    for version in versions {
        if !version_is_storable(alloc, version)? {
            return Ok(false);
        }
    }
    Ok(true)
}

/// The number of bytes of the entry of lines. `NoMemory` if it isn't below 2^64.
fn lines_len(index: &str, revision: &Revision<'_>, lines: JsonLines<'_>) -> Result<u64, NoMemory>
    ensures ok { IfOk result (λ n. n ≡ length (spec.entry index.now (revision_value revision.now)
        (map pair_of (lines_of lines.entry)))) }
    ensures formed { IsFormed (revision_value revision.now) }
    ensures long { IfErr result (λ _. 2 ^ 64 ≤ length (spec.entry index.now
        (revision_value revision.now) (map pair_of (lines_of lines.entry)))) }
{
    let stored = revision.stored();
    match EntryPieces::of(index, &stored, lines).into_len() {
        Some(len) => Ok(len),
        None => Err(NoMemory),
    }
}

/// The bytes that are left of an entry.
fn bytes_of(alloc: Global, pieces: EntryPieces<'_>) -> Result<Vec<u8>, NoMemory>
    ensures { IfOk result (λ bytes. bytes.items ≡ pieces.entry) }
{
    let mut left = pieces;
    let mut bytes = Vec::new(alloc);
    let mut piece = [0u8; PIECE_LEN];
    loop {
        let count = left.fill(&mut piece);
        if count == 0 {
            return Ok(bytes);
        }
        bytes.extend_from_slice(&piece[..count])?;
    }
}

/// Puts what is left of an entry, each piece by its own `put`.
fn put_pieces<S: Sink>(sink: &mut S, pieces: EntryPieces<'_>) -> Result<(), SinkFault>
    ensures put { S.tells → OnOk result (S.holds sink.new ≡ S.holds sink.old ++ pieces.entry) }
    ensures part { S.tells → AddsPrefix (S.holds sink.old) pieces.entry (S.holds sink.new) }
    ensures cause { HasPutCause (S.faults sink.old) (S.faults sink.new) result }
{
    let mut left = pieces;
    let mut piece = [0u8; PIECE_LEN];
    loop {
        let count = left.fill(&mut piece);
        if count == 0 {
            return Ok(());
        }
        put_piece(sink, &piece[..count])?;
    }
}

/// Writes an entry of lines, and returns the number of its bytes.
fn put_lines<S: Sink>(
    sink: &mut S,
    index: &str,
    revision: &Revision<'_>,
    lines: JsonLines<'_>,
) -> Result<u64, Error>
    ensures put { S.tells → OnOk result (S.holds sink.new ≡ S.holds sink.old ++ spec.entry
        index.now (revision_value revision.now) (map pair_of (lines_of lines.entry))) }
    ensures part { S.tells → AddsPrefix (S.holds sink.old) (spec.entry index.now
        (revision_value revision.now) (map pair_of (lines_of lines.entry))) (S.holds sink.new) }
    ensures count { IfOk result (λ n. n ≡ length (spec.entry index.now
        (revision_value revision.now) (map pair_of (lines_of lines.entry)))) }
    ensures later { S.faults sink.old ≤ S.faults sink.new }
    ensures failed { IfErr result (λ e. (e ≡ Error.NoMemory)
        ⊎ ((e ≡ Error.Io IoKind.Failed) × CountRose (S.faults sink.old) (S.faults sink.new))) }
    ensures same { S.tells → result ≡ Err Error.NoMemory → S.holds sink.new ≡ S.holds sink.old }
    ensures long { result ≡ Err Error.NoMemory → 2 ^ 64 ≤ length (spec.entry index.now
        (revision_value revision.now) (map pair_of (lines_of lines.entry))) }
{
    let len = lines_len(index, revision, lines)?;
    let stored = revision.stored();
    match put_pieces(sink, EntryPieces::of(index, &stored, lines)) {
        Ok(()) => Ok(len),
        Err(_) => Err(Error::Io(IoKind::Failed)),
    }
}

/// Writes the bytes of an entry, and returns their number.
fn put_bytes<S: Sink>(sink: &mut S, bytes: &[u8]) -> Result<u64, Error>
    ensures put { S.tells → OnOk result (S.holds sink.new ≡ S.holds sink.old ++ bytes.now) }
    ensures part { S.tells → AddsPrefix (S.holds sink.old) bytes.now (S.holds sink.new) }
    ensures count { IfOk result (λ n. n ≡ length bytes.now) }
    ensures later { S.faults sink.old ≤ S.faults sink.new }
    ensures failed { IfErr result (λ e. (e ≡ Error.Io IoKind.Failed)
        × CountRose (S.faults sink.old) (S.faults sink.new)) }
{
    match put_pieces(sink, EntryPieces::of_bytes(bytes)) {
        Ok(()) => Ok(bytes.len() as u64),
        Err(_) => Err(Error::Io(IoKind::Failed)),
    }
}

impl CacheWrite<'_> {
    /// Whether the versions and lines that are written have no zero byte.
    fn pairs_are_storable(&self, alloc: Global) -> Result<bool, NoMemory>
        ensures storable { IfOk result (λ storable. storable
            ≡ list_all is_storable_pair (written_pairs self.now)) }
        ensures memory { IsErr result → TakesMemory self.now }
    {
        match self {
            CacheWrite::Remote(lines) => Ok(lines_are_storable(*lines)),
            CacheWrite::Krate(krate) => versions_are_storable(alloc, krate.versions.as_slice()),
        }
    }

    /// Whether these lines can be stored under a revision, as an entry of the index at a url: what
    /// is written has no zero byte.
    pub fn is_storable(
        &self,
        alloc: Global,
        index: &str,
        revision: &Revision<'_>,
    ) -> Result<bool, NoMemory>
        ensures formed { IsFormed (revision_value revision.now) }
        ensures storable { IfOk result (λ storable. storable ≡ spec.is_storable index.now
            (revision_value revision.now) (written_pairs self.now)) }
        ensures memory { IsErr result → TakesMemory self.now }
    {
        if !revision.has_no_zero() || !has_no_zero(index.as_bytes()) {
            return Ok(false);
        }
        self.pairs_are_storable(alloc)
    }

    /// The whole entry of these lines under a revision, of the index at a url.
    pub fn entry(
        &self,
        alloc: Global,
        index: &str,
        revision: &Revision<'_>,
    ) -> Result<Vec<u8>, NoMemory>
        ensures formed { OnOk result (IsFormed (revision_value revision.now)) }
        ensures entry { IfOk result (λ bytes. bytes.items
            ≡ spec.entry index.now (revision_value revision.now) (written_pairs self.now)) }
    {
        let stored = revision.stored();
        match self {
            CacheWrite::Remote(lines) => bytes_of(alloc, EntryPieces::of(index, &stored, *lines)),
            CacheWrite::Krate(krate) => {
                let front = bytes_of(alloc, EntryPieces::front(index, &stored))?;
                with_versions(alloc, front, krate.versions.as_slice())
            }
        }
    }

    /// Writes the entry of these lines under a revision, of the index at a url, and returns the
    /// number of its bytes. `Io(Failed)` if the sink failed; it then holds a part of the entry.
    pub fn write_cache_entry<S: Sink>(
        &self,
        alloc: Global,
        sink: &mut S,
        index: &str,
        revision: &Revision<'_>,
    ) -> Result<u64, Error>
        ensures put { S.tells → OnOk result (S.holds sink.new ≡ S.holds sink.old
            ++ spec.entry index.now (revision_value revision.now) (written_pairs self.now)) }
        ensures part { S.tells → AddsPrefix (S.holds sink.old)
            (spec.entry index.now (revision_value revision.now) (written_pairs self.now))
            (S.holds sink.new) }
        ensures count { IfOk result (λ n. n ≡ length
            (spec.entry index.now (revision_value revision.now) (written_pairs self.now))) }
        ensures later { S.faults sink.old ≤ S.faults sink.new }
        ensures failed { IfErr result (λ e. (e ≡ Error.NoMemory)
            ⊎ ((e ≡ Error.Io IoKind.Failed) × CountRose (S.faults sink.old) (S.faults sink.new))) }
        ensures same { S.tells → result ≡ Err Error.NoMemory → S.holds sink.new ≡ S.holds sink.old }
        // lines need no memory, but the length of their entry may not fit
        ensures memory { result ≡ Err Error.NoMemory → TakesMemory self.now
            ⊎ (2 ^ 64 ≤ length (spec.entry index.now (revision_value revision.now)
            (written_pairs self.now))) }
    {
        match self {
            CacheWrite::Remote(lines) => put_lines(sink, index, revision, *lines),
            CacheWrite::Krate(_) => {
                let bytes = self.entry(alloc, index, revision)?;
                put_bytes(sink, bytes.as_slice())
            }
        }
    }

    /// The number of bytes of the entry of these lines under a revision, of the index at a url.
    pub fn entry_len(
        &self,
        alloc: Global,
        index: &str,
        revision: &Revision<'_>,
    ) -> Result<u64, NoMemory>
        ensures formed { OnOk result (IsFormed (revision_value revision.now)) }
        ensures len { IfOk result (λ n. n ≡ length
            (spec.entry index.now (revision_value revision.now) (written_pairs self.now))) }
        // lines need no memory, but the length of their entry may not fit
        ensures memory { IsErr result → TakesMemory self.now
            ⊎ (2 ^ 64 ≤ length (spec.entry index.now (revision_value revision.now)
            (written_pairs self.now))) }
    {
        match self {
            CacheWrite::Remote(lines) => lines_len(index, revision, *lines),
            CacheWrite::Krate(_) => Ok(self.entry(alloc, index, revision)?.len() as u64),
        }
    }
}
