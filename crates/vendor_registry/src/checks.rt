//! Whether a package can be put into a registry.
ghost use Rattle.std.specs.Prelude.{◌≡◌, ◌⊎◌, ◌≤◌, ℕ, List, map, Ok, Err, Some, None, IfOk, IfErr, IsTrue};
ghost use Rattle.std.specs.Str.{IsUtf8};
ghost use Rattle.tame_names.specs.Counts.{CountRose};
ghost use Rattle.tame_names.specs.KrateNames.{text_of};
ghost use Rattle.tame_records.specs.Krates.{records_of};
ghost use Rattle.tame_entry.specs.Krates.{iterated};
ghost use Rattle.tame_cache.specs.Disk.{reads};
ghost use Rattle.tame_cache.specs.FailedCalls.{FailedReading};
ghost use Rattle.tame_cache.specs.Kept.{cache_file_of};
ghost use Rattle.vendor_registry.specs.Checks.{IsCheckFault, checked, crate_checked, file_records, is_of_package, items_records, stock_of};
ghost use Rattle.vendor_registry.specs.Checks as spec;
ghost use Rattle.vendor_registry.specs.Failed.{AddsFailed, AddsFailedRead, FailsReadingOf, IsQuiet, IsUnread};

use crate::faults::VendorFault;
use audit_lock::Package;
use bytes::Bytes;
use sha2::{Digest, Sha256};
use std::alloc::Global;
use tame_cache::CacheDisk;
use tame_entry::{IndexEntry, IndexEntryIter};
use tame_names::{
    Error, FileFault, FileLock, Files, IoKind, Items, KrateName, NoMemory, ReadAnswer, Text, join,
};
use tame_records::{Chksum, IndexVersion};
use tame_sparse::SparseIndex;

/// The most bytes of a crate file, 64 MiB.
const CRATE_LIMIT: u64 = 67108864;

/// What a package puts into a registry.
#[derive(Drop)]
pub struct CheckedCrate {
    /// The place of the package in the lockfile, from 0.
    pub place: usize,
    /// The path of its crate in an index.
    pub path: Text,
    /// Its deciding record.
    pub version: IndexVersion,
    /// Its crate file, which has the digest of the record.
    pub bytes: Bytes,
}

// ---- records

/// The records of the lines of an entry.
fn read_records(
    alloc: Global,
    place: usize,
    items: IndexEntryIter<'_>,
) -> Result<Items<IndexVersion>, VendorFault>
    ensures ok { IfOk result (λ vs. records_of (map (λ i. i.1) items.entry) ≡ Some vs) }
    ensures refused { IfErr result (λ e. (e ≡ VendorFault.NoMemory)
        ⊎ ((e ≡ VendorFault.Record place)
        × (records_of (map (λ i. i.1) items.entry) ≡ None))) }
    ensures quiet { IsQuiet result }
    ensures unread { IsUnread result }
{
    let mut records = Items::new(alloc);
    for item in items {
        match item.deserialize(alloc) {
            Ok(record) => records.add(record)?,
            Err(Error::Json { .. }) => return Err(VendorFault::Record { package: place }),
            Err(Error::NoMemory) => return Err(VendorFault::NoMemory),
            Err(_) => unreachable!("a line is no record, or memory ran out"),
        }
    }
    Ok(records)
}

/// The records of an entry.
fn entry_records(
    alloc: Global,
    place: usize,
    entry: &IndexEntry<'_, '_>,
) -> Result<Items<IndexVersion>, VendorFault>
    ensures ok { IfOk result (λ vs. items_records place (iterated entry.now) ≡ Ok vs) }
    ensures refused { IfErr result (λ e. (e ≡ VendorFault.NoMemory)
        ⊎ (IsTrue (is_of_package e) × (items_records place (iterated entry.now) ≡ Err e))) }
    ensures quiet { IsQuiet result }
    ensures unread { IsUnread result }
{
    match entry.iter() {
        Ok(items) => read_records(alloc, place, items),
        Err(_) => Err(VendorFault::Absent { package: place }),
    }
}

/// The records that the cache has for a crate. `Store` if its file can't be read.
fn kept_records<D: CacheDisk>(
    alloc: Global,
    index: &SparseIndex,
    place: usize,
    name: KrateName<'_>,
    lock: &FileLock,
    disk: &mut D,
) -> Result<Items<IndexVersion>, VendorFault>
    ensures ok { D.tells → (q : List ℕ)
        → cache_file_of index.now.cache.path (text_of name.entry) ≡ Some q
        → IfOk result (λ vs.
        file_records place index.now.cache.index (reads (D.past disk.old q)) ≡ Ok vs) }
    ensures refused { D.tells → (q : List ℕ)
        → cache_file_of index.now.cache.path (text_of name.entry) ≡ Some q
        → IfErr result (λ e. IsTrue (is_of_package e)
        → file_records place index.now.cache.index (reads (D.past disk.old q)) ≡ Err e) }
    ensures settled { IfErr result (λ e. (e ≡ VendorFault.NoMemory) ⊎ (IsTrue (is_of_package e))
        ⊎ ((e ≡ VendorFault.Store place)
        × CountRose (D.faults disk.old) (D.faults disk.new))) }
    ensures quiet { IsQuiet result }
    ensures failed { (q : List ℕ)
        → cache_file_of index.now.cache.path (text_of name.entry) ≡ Some q
        → AddsFailedRead (λ place. FailedReading q) (D.failed disk.old) (D.failed disk.new)
        result }
    ensures later { D.faults disk.old ≤ D.faults disk.new }
    ensures same { D.tells → (q : List ℕ) → D.past disk.new q ≡ D.past disk.old q }
    ensures folders { D.tells → D.folders disk.new ≡ D.folders disk.old }
{
    match index.cached_krate(alloc, name, lock, disk) {
        Ok(Some(entry)) => entry_records(alloc, place, &entry),
        Ok(None) => Err(VendorFault::Absent { package: place }),
        Err(Error::Io(IoKind::Failed)) => Err(VendorFault::Store { package: place }),
        Err(Error::NoMemory) => Err(VendorFault::NoMemory),
        Err(_) => unreachable!("the disk failed, or memory ran out"),
    }
}

/// The last record that has a version's text.
fn deciding(records: Items<IndexVersion>, version: &str) -> Option<IndexVersion>
    ensures { result ≡ spec.deciding version.now records }
{
    let mut found = None;
    for record in records.into_vec() {
        if record.version.as_str() == version {
            found = Some(record);
        }
    }
    found
}

/// The deciding record of a package, which has its name.
fn decided(
    place: usize,
    locked: &Package,
    records: Items<IndexVersion>,
) -> Result<IndexVersion, VendorFault>
    ensures decided { result ≡ spec.decided place locked.now records }
    ensures quiet { IsQuiet result }
    ensures unread { IsUnread result }
{
    match deciding(records, locked.version.as_str()) {
        Some(record) => {
            if record.name.as_str() == locked.name.as_str() {
                Ok(record)
            } else {
                Err(VendorFault::Name { package: place })
            }
        }
        None => Err(VendorFault::NoVersion { package: place }),
    }
}

// ---- crate files

/// The path of a crate file in a folder.
fn crate_path(alloc: Global, folder: &str, name: &str, version: &str) -> Result<Text, NoMemory>
    ensures { IfOk result (λ path. path ≡ spec.crate_path folder.now name.now version.now) }
{
    let mut file = String::from_str(alloc, name)?;
    file.push('-')?;
    file.push_str(version)?;
    file.push_str(".crate")?;
    join(alloc, folder, file.as_str())
}

/// The bytes of a crate file.
fn crate_bytes<F: Files>(
    alloc: Global,
    place: usize,
    path: Text,
    files: &mut F,
) -> Result<Vec<u8>, VendorFault>
    ensures ok { F.tells → IfOk result (λ bytes.
        spec.crate_bytes place path ((F.host files.old).stands path) ≡ Ok bytes.items) }
    ensures refused { F.tells → IfErr result (λ e. IsTrue (is_of_package e)
        → spec.crate_bytes place path ((F.host files.old).stands path) ≡ Err e) }
    ensures settled { IfErr result (λ e. (e ≡ VendorFault.NoMemory) ⊎ (IsTrue (is_of_package e))
        ⊎ ((e ≡ VendorFault.File path)
        × CountRose (F.faults files.old) (F.faults files.new))) }
    ensures unread { IsUnread result }
    ensures later { F.faults files.old ≤ F.faults files.new }
    ensures failed { F.tells → AddsFailed (F.failed files.old) (F.failed files.new) result }
    ensures same { F.tells → F.host files.new ≡ F.host files.old }
{
    match files.read(alloc, path.as_str(), CRATE_LIMIT) {
        Ok(ReadAnswer::Whole(bytes)) => Ok(bytes),
        Ok(ReadAnswer::Absent) => Err(VendorFault::NoCrate { package: place }),
        Ok(ReadAnswer::Over(len)) => Err(VendorFault::TooLarge {
            package: place,
            len,
        }),
        Err(FileFault::Failed) => Err(VendorFault::File { path }),
        Err(FileFault::NoMemory) => Err(VendorFault::NoMemory),
    }
}

/// The bytes of a crate file, if they have the digest of their record.
fn valid_bytes(
    place: usize,
    path: Text,
    version: IndexVersion,
    bytes: Vec<u8>,
) -> Result<CheckedCrate, VendorFault>
    ensures ok { IfOk result (λ c. spec.valid_bytes place path version bytes.items ≡ Ok c) }
    ensures refused { IfErr result (λ e. (e ≡ VendorFault.NoMemory)
        ⊎ (IsTrue (is_of_package e)
        × (spec.valid_bytes place path version bytes.items ≡ Err e))) }
    ensures version { IfOk result (λ c. c.version ≡ version) }
    ensures quiet { IsQuiet result }
    ensures unread { IsUnread result }
{
    let found = Sha256::digest(bytes.as_slice());
    if found == version.checksum.0 {
        match Bytes::from_vec(bytes) {
            Ok(bytes) => Ok(CheckedCrate {
                place,
                path,
                version,
                bytes,
            }),
            Err(_) => Err(VendorFault::NoMemory),
        }
    } else {
        Err(VendorFault::Digest {
            package: place,
            found: Chksum(found),
        })
    }
}

/// The crate file of a record, in a folder of crate files.
fn check_crate<F: Files>(
    alloc: Global,
    place: usize,
    crates: &str,
    path: Text,
    version: IndexVersion,
    files: &mut F,
) -> Result<CheckedCrate, VendorFault>
    ensures ok { F.tells → (stock : spec.Stock) → stock.host ≡ F.host files.old
        → stock.crates ≡ crates.now → IfOk result (λ c.
        crate_checked stock place path version ≡ Ok c) }
    ensures refused { F.tells → (stock : spec.Stock) → stock.host ≡ F.host files.old
        → stock.crates ≡ crates.now → IfErr result (λ e. IsTrue (is_of_package e)
        → crate_checked stock place path version ≡ Err e) }
    ensures settled { IfErr result (λ e. (e ≡ VendorFault.NoMemory) ⊎ (IsTrue (is_of_package e))
        ⊎ ((e ≡ VendorFault.File (spec.crate_path crates.now version.name version.version))
        × CountRose (F.faults files.old) (F.faults files.new))) }
    ensures version { IfOk result (λ c. c.version ≡ version) }
    ensures unread { IsUnread result }
    ensures later { F.faults files.old ≤ F.faults files.new }
    ensures failed { F.tells → AddsFailed (F.failed files.old) (F.failed files.new) result }
    ensures same { F.tells → F.host files.new ≡ F.host files.old }
{
    let file = crate_path(
        alloc,
        crates,
        version.name.as_str(),
        version.version.as_str(),
    )?;
    let bytes = crate_bytes(alloc, place, file, files)?;
    valid_bytes(place, path, version, bytes)
}

// ---- packages

/// Checks a package of the default registry: its record in the cache of an index, and its crate
/// file in a folder. Nothing is written.
///
/// `Name` if its name isn't valid for a crate; `Store` if its entry can't be read; `Absent` if
/// there is none, or a refused one; `Record` if a line has no record; `NoVersion` if no record
/// has its version's text; `Name` if the last record that has it has another name; `NoCrate`,
/// `File` and `TooLarge` for the crate file; `Digest` if that hasn't the digest of the record.
pub fn check_package<F: Files, D: CacheDisk>(
    alloc: Global,
    index: &SparseIndex,
    crates: &str,
    place: usize,
    locked: &Package,
    files: &mut F,
    lock: &FileLock,
    disk: &mut D,
) -> Result<CheckedCrate, VendorFault>
    ensures ok { F.tells → D.tells → IfOk result (λ c.
        checked (stock_of (D.past disk.old) index.now (F.host files.old) crates.now)
        place locked.now ≡ Ok c) }
    ensures refused { F.tells → D.tells → IfErr result (λ e. IsTrue (is_of_package e)
        → checked (stock_of (D.past disk.old) index.now (F.host files.old) crates.now)
        place locked.now ≡ Err e) }
    ensures text { IfOk result (λ c. IsUtf8 c.version.name) }
    ensures only { IfErr result IsCheckFault }
    ensures store { (at : ℕ) → result ≡ Err (VendorFault.Store at)
        → (at ≡ place) × CountRose (D.faults disk.old) (D.faults disk.new) }
    ensures file { (path : List ℕ) → result ≡ Err (VendorFault.File path)
        → (path ≡ spec.crate_path crates.now locked.now.name locked.now.version)
        × CountRose (F.faults files.old) (F.faults files.new) }
    ensures disk_later { D.faults disk.old ≤ D.faults disk.new }
    ensures files_later { F.faults files.old ≤ F.faults files.new }
    ensures failed { F.tells → AddsFailed (F.failed files.old) (F.failed files.new) result }
    ensures failed_disk { AddsFailedRead (FailsReadingOf index.now.cache.path locked.now)
        (D.failed disk.old) (D.failed disk.new) result }
    ensures disk_same { D.tells → (q : List ℕ) → D.past disk.new q ≡ D.past disk.old q }
    ensures folders_same { D.tells → D.folders disk.new ≡ D.folders disk.old }
    ensures files_same { F.tells → F.host files.new ≡ F.host files.old }
{
    let name = match KrateName::try_from(locked.name.as_str()) {
        Ok(name) => name,
        Err(_) => return Err(VendorFault::Name { package: place }),
    };
    let path = name.relative_path(alloc, None)?;
    let records = kept_records(alloc, index, place, name, lock, disk)?;
    let version = decided(place, locked, records)?;
    check_crate(alloc, place, crates, path, version, files)
}
