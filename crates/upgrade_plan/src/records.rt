//! The records of a package's crate, as the cache keeps them.
ghost use Rattle.std.specs.Prelude.{◌≡◌, ◌≢◌, ◌⊎◌, ◌≤◌, ℕ, List, Some, true, IfErr, IfOk, map, option_map};
ghost use Rattle.tame_names.specs.Counts.{CountRose};
ghost use Rattle.tame_names.specs.KrateNames.{text_of};
ghost use Rattle.tame_records.specs.Krates.{records_of};
ghost use Rattle.tame_cache.specs.Disk.{reads};
ghost use Rattle.tame_cache.specs.FailedCalls.{FailedReading};
ghost use Rattle.tame_cache.specs.Kept.{cache_file_of};
ghost use Rattle.upgrade_plan.specs.Recorded.{IsRecordedAs, file_records, is_of_cache};
ghost use Rattle.upgrade_plan.specs.Recorded as spec;

use std::alloc::Global;
use tame_cache::CacheDisk;
use tame_entry::{IndexEntry, IndexEntryIter};
use tame_names::{Error, FileLock, IoKind, Items, KrateName, NoMemory};
use tame_records::{IndexKrate, IndexVersion, LineFault};
use tame_sparse::SparseIndex;

/// Why a package has no records.
#[derive(Clone, Copy, Debug, PartialEq, Eq)]
pub enum NoRecord {
    /// It isn't from the default registry.
    Source,
    /// Its name has no path in an index.
    Name,
    /// Its cache entry couldn't be read.
    Store,
    /// It has no cache entry, or a refused one.
    Absent,
    /// Some line of the entry has no record.
    Record,
}

/// The records of the lines of a crate, or why there are none.
#[derive(Drop)]
pub enum Recorded {
    /// The records, in the order of the lines.
    Versions(IndexKrate),
    /// Why there are none.
    Missing(NoRecord),
}

/// The record of each line; nothing if some line has none.
fn item_records(
    alloc: Global,
    items: IndexEntryIter<'_>,
) -> Result<Option<Items<IndexVersion>>, NoMemory>
    ensures { IfOk result (λ vs. vs ≡ records_of (map (λ i. i.1) items.entry)) }
{
    let mut versions = Items::new(alloc);
    for item in items {
        let (_, line) = item.raw();
        match IndexVersion::read_line(alloc, line) {
            Ok(version) => versions.add(version)?,
            Err(LineFault::Json) => return Ok(None),
            Err(LineFault::NoMemory) => return Err(NoMemory),
        }
    }
    Ok(Some(versions))
}

/// The records of a cache entry; a refused file is treated as none.
fn entry_records(alloc: Global, entry: &IndexEntry<'_, '_>) -> Result<Recorded, NoMemory>
    ensures { IfOk result (λ r. r ≡ spec.entry_records entry.now) }
{
    match entry.iter() {
        Ok(items) => match item_records(alloc, items)? {
            Some(versions) => Ok(Recorded::Versions(IndexKrate { versions })),
            None => Ok(Recorded::Missing(NoRecord::Record)),
        },
        Err(_) => Ok(Recorded::Missing(NoRecord::Absent)),
    }
}

/// The records from what a read of the cache returned.
fn taken_records(
    alloc: Global,
    taken: Result<Option<IndexEntry<'_, '_>>, Error>,
) -> Result<Recorded, NoMemory>
    requires { IfErr taken
        (λ e. (e ≡ Error.NoMemory) ⊎ (e ≡ Error.Io IoKind.Failed)) }
    ensures { IfOk result (IsRecordedAs taken.entry) }
{
    match taken {
        Ok(Some(entry)) => entry_records(alloc, &entry),
        Ok(None) => Ok(Recorded::Missing(NoRecord::Absent)),
        Err(Error::Io(IoKind::Failed)) => Ok(Recorded::Missing(NoRecord::Store)),
        Err(Error::NoMemory) => Err(NoMemory),
        Err(_) => unreachable!("the disk failed, or memory ran out"),
    }
}

/// The records of the lines of the cache entry of a name.
pub fn kept_records<D: CacheDisk>(
    alloc: Global,
    index: &SparseIndex,
    lock: &FileLock,
    disk: &mut D,
    name: KrateName<'_>,
) -> Result<Recorded, NoMemory>
    ensures read { D.tells → (q : List ℕ)
        → cache_file_of index.now.cache.path (text_of name.entry) ≡ Some q
        → IfOk result (λ r. (r ≡ file_records index.now.cache.index (reads (D.past disk.old q)))
        ⊎ (r ≡ Recorded.Missing NoRecord.Store)) }
    ensures own { IfOk result (λ r. is_of_cache r ≡ true) }
    ensures store { IfOk result (λ r. r ≡ Recorded.Missing NoRecord.Store
        → CountRose (D.faults disk.old) (D.faults disk.new)) }
    ensures store_failed { (q : List ℕ)
        → cache_file_of index.now.cache.path (text_of name.entry) ≡ Some q
        → IfOk result (λ r. r ≡ Recorded.Missing NoRecord.Store
        → FailedReading q (D.failed disk.old) (D.failed disk.new)) }
    ensures unfailed { (q : List ℕ)
        → cache_file_of index.now.cache.path (text_of name.entry) ≡ Some q
        → IfOk result (λ r. r ≢ Recorded.Missing NoRecord.Store
        → D.failed disk.new ≡ D.failed disk.old) }
    ensures later { D.faults disk.old ≤ D.faults disk.new }
    ensures same { D.tells → (q : List ℕ) → D.past disk.new q ≡ D.past disk.old q }
    ensures folders { D.tells → D.folders disk.new ≡ D.folders disk.old }
{
    let taken = index.cached_krate(alloc, name, lock, disk);
    taken_records(alloc, taken)
}
