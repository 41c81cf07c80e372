//! A registry that is built from what was checked.
ghost use Rattle.std.specs.Prelude.{◌≡◌, ◌≤◌, ◌-◌, ◌^◌, min, ℕ, List, [], ◌∷◌, ◌++◌, map, Ok, Err, Some, None, IfOk, IfErr, IsTrue, OnErr, OnOk, true, false};
ghost use Rattle.tame_names.specs.Changes.{AreFolders};
ghost use Rattle.tame_names.specs.Counts.{CountRose};
ghost use Rattle.tame_names.specs.Paths as paths_spec;
ghost use Rattle.tame_records.specs.Record.{record_of};
ghost use Rattle.tame_records.specs.Written.{line};
ghost use Rattle.tame_local.specs.Builders.{AreBegun, IsBegun, after, after_change, crates_made, created, size_of};
ghost use Rattle.tame_local.specs.Inserts.{AreWritten};
ghost use Rattle.tame_local.specs.Registries.{index_of, registry_at};
ghost use Rattle.vendor_registry.specs.Built.{AreFilled, IsBeginFault, IsBuildFault, IsFilled, IsInsertFault, IsOccupied, IsReadBack, IsTaken, IsTakenAt, all_made, crate_made, free_fault, is_behind, path_made, paths_made};
ghost use Rattle.vendor_registry.specs.Failed.{AddsFailed, IsToldIn};
ghost use Rattle.vendor_registry.specs.Named.{ArePathed};
ghost use Rattle.vendor_registry.specs.Vendored.{on, paths_of};
ghost use Rattle.vendor_registry.specs.Grouped.{AreGroups};
ghost use Rattle.vendor_registry.specs.declared.checks.CheckedCrate.{CheckedCrate};

use crate::checks::CheckedCrate;
use crate::faults::VendorFault;
use crate::grouping::{Groups, distinct_paths, group_on, grouped};
use std::alloc::Global;
use tame_local::{LocalRegistry, LocalRegistryBuilder, ValidKrate};
use tame_names::{Error, Files, IoKind, Items, MemSink, NoMemory, Text};
use tame_records::{IndexKrate, IndexVersion, LineFault};

// ---- what is put on a path

/// A copy of a record, by its line.
fn copied(alloc: Global, version: &IndexVersion) -> Result<IndexVersion, NoMemory>
    ensures same { IfOk result (λ copy. copy ≡ version.now) }
    ensures written { IfOk result (λ copy. AreWritten (copy ∷ [])) }
{
    let mut sink = MemSink::new(alloc, Items::new(alloc));
    match version.write_line(alloc, &mut sink) {
        Ok(_) => {}
        Err(_) => return Err(NoMemory),
    }
    match IndexVersion::read_line(alloc, sink.bytes()) {
        Ok(copy) => Ok(copy),
        Err(LineFault::NoMemory) => Err(NoMemory),
        Err(LineFault::Json) => unreachable!("a written line is a record"),
    }
}

/// Adds a copy of a record to records.
#[tactic(auto, using(crate::proofs::Inserting::written_more))]
fn add_copy(
    alloc: Global,
    versions: &mut Items<IndexVersion>,
    version: &IndexVersion,
) -> Result<(), NoMemory>
    ensures added { OnOk result (versions.new ≡ versions.old ++ version.now ∷ []) }
    ensures written { AreWritten versions.old → OnOk result (AreWritten versions.new) }
{
    versions.add(copied(alloc, version)?)
}

/// The records that are put on a path.
fn krate_on(alloc: Global, path: &str, checked: &[CheckedCrate]) -> Result<IndexKrate, NoMemory>
    ensures records { IfOk result (λ krate. krate.versions
        ≡ map (λ c. c.version) (on path.now checked.now)) }
    ensures written { IfOk result (λ krate. AreWritten krate.versions) }
{
    let mut versions = Items::new(alloc);
    for one in checked {
        if one.path.as_str() == path {
            add_copy(alloc, &mut versions, &one.version)?;
        }
    }
    Ok(IndexKrate { versions })
}

/// The crate file of what was checked, which has the digest of its record.
fn valid_krate<'c>(alloc: Global, one: &'c CheckedCrate) -> Result<ValidKrate<'c>, NoMemory>
    ensures { (folder : List ℕ) → IfOk result (λ krate.
        crates_made folder (krate ∷ []) ≡ crate_made folder one.now ∷ []) }
{
    let bytes = one.bytes.clone()?;
    match ValidKrate::validate(alloc, bytes, &one.version) {
        Ok(krate) => Ok(krate),
        Err(_) => Err(NoMemory),
    }
}

/// The crate files that are put next to a path.
fn krates_on<'c>(
    alloc: Global,
    path: &str,
    checked: &'c [CheckedCrate],
) -> Result<Items<ValidKrate<'c>>, NoMemory>
    ensures { (folder : List ℕ) → IfOk result (λ krates.
        crates_made folder krates ≡ map (crate_made folder) (on path.now checked.now)) }
{
    let mut krates = Items::new(alloc);
    for one in checked {
        if one.path.as_str() == path {
            krates.add(valid_krate(alloc, one)?)?;
        }
    }
    Ok(krates)
}

// ---- the builder

/// Puts what was checked on a path into a registry: its index file and its crate files. Returns
/// the number of bytes written, at most 2^64 - 1; 0 if there is nothing on the path.
fn insert_path<F: Files>(
    alloc: Global,
    builder: &LocalRegistryBuilder,
    path: &str,
    checked: &[CheckedCrate],
    files: &mut F,
) -> Result<u64, VendorFault>
    ensures made { F.tells → ArePathed checked.now → OnOk result (F.host files.new
        ≡ after (path_made builder.now.path path.now (on path.now checked.now))
        (F.host files.old)) }
    ensures begun { F.tells → ArePathed checked.now → OnErr result (AreBegun
        (path_made builder.now.path path.now (on path.now checked.now))
        (F.host files.old) (F.host files.new)) }
    ensures filled { F.tells → ArePathed checked.now → OnOk result (IsFilled
        builder.now.path path.now (on path.now checked.now) (F.host files.old)) }
    ensures count { ArePathed checked.now → IfOk result (λ n. n ≡ min (size_of
        (path_made builder.now.path path.now (on path.now checked.now))) (2 ^ 64 - 1)) }
    ensures only { IfErr result IsInsertFault }
    ensures occupied { F.tells → (n : ℕ) → result ≡ Err (VendorFault.NotEmpty n) → n ≡ 1 }
    ensures taken { F.tells → ArePathed checked.now → (n : ℕ)
        → result ≡ Err (VendorFault.NotEmpty n)
        → IsTakenAt builder.now.path path.now (on path.now checked.now) (F.host files.old) }
    ensures unmade { F.tells → (n : ℕ) → result ≡ Err (VendorFault.NotEmpty n)
        → F.host files.new ≡ F.host files.old }
    ensures file { (at : List ℕ) → result ≡ Err (VendorFault.File at)
        → CountRose (F.faults files.old) (F.faults files.new) }
    ensures later { F.faults files.old ≤ F.faults files.new }
    ensures failed { F.tells → AddsFailed (F.failed files.old) (F.failed files.new) result }
    ensures within { F.tells → IfErr result (IsToldIn builder.now.path) }
{
    let krate = krate_on(alloc, path, checked)?;
    if krate.versions.is_empty() {
        return Ok(0);
    }
    let krates = krates_on(alloc, path, checked)?;
    match builder.insert(alloc, files, &krate, krates.as_slice()) {
        Ok(count) => Ok(count),
        Err(Error::IoPath(IoKind::AlreadyExists(count), _)) => Err(VendorFault::NotEmpty(count)),
        Err(Error::IoPath(IoKind::Failed, path)) => Err(VendorFault::File { path }),
        Err(_) => Err(VendorFault::NoMemory),
    }
}

/// Puts the group of a path into a registry. Returns the number of bytes written, at most 2^64 - 1.
fn insert_group<F: Files>(
    alloc: Global,
    builder: &LocalRegistryBuilder,
    groups: &Groups,
    path: &str,
    files: &mut F,
) -> Result<u64, VendorFault>
    ensures made { F.tells → (cs : List CheckedCrate) → AreGroups cs groups.now → ArePathed cs
        → OnOk result (F.host files.new
        ≡ after (path_made builder.now.path path.now (on path.now cs)) (F.host files.old)) }
    ensures begun { F.tells → (cs : List CheckedCrate) → AreGroups cs groups.now → ArePathed cs
        → OnErr result (AreBegun (path_made builder.now.path path.now (on path.now cs))
        (F.host files.old) (F.host files.new)) }
    ensures filled { F.tells → (cs : List CheckedCrate) → AreGroups cs groups.now → ArePathed cs
        → OnOk result (IsFilled
        builder.now.path path.now (on path.now cs) (F.host files.old)) }
    ensures count { (cs : List CheckedCrate) → AreGroups cs groups.now → ArePathed cs
        → IfOk result (λ n. n ≡ min (size_of
        (path_made builder.now.path path.now (on path.now cs))) (2 ^ 64 - 1)) }
    ensures only { IfErr result IsInsertFault }
    ensures occupied { F.tells → (n : ℕ) → result ≡ Err (VendorFault.NotEmpty n) → n ≡ 1 }
    ensures taken { F.tells → (cs : List CheckedCrate) → AreGroups cs groups.now → ArePathed cs
        → (n : ℕ) → result ≡ Err (VendorFault.NotEmpty n)
        → IsTakenAt builder.now.path path.now (on path.now cs) (F.host files.old) }
    ensures unmade { F.tells → (n : ℕ) → result ≡ Err (VendorFault.NotEmpty n)
        → F.host files.new ≡ F.host files.old }
    ensures file { (at : List ℕ) → result ≡ Err (VendorFault.File at)
        → CountRose (F.faults files.old) (F.faults files.new) }
    ensures later { F.faults files.old ≤ F.faults files.new }
    ensures failed { F.tells → AddsFailed (F.failed files.old) (F.failed files.new) result }
    ensures within { F.tells → IfErr result (IsToldIn builder.now.path) }
{
    insert_path(alloc, builder, path, group_on(groups, path), files)
}

/// Puts what was checked on these paths into a registry, one after the other. Returns the number of
/// bytes written, at most 2^64 - 1.
fn insert_paths<F: Files>(
    alloc: Global,
    builder: &LocalRegistryBuilder,
    paths: &[Text],
    groups: &Groups,
    files: &mut F,
) -> Result<u64, VendorFault>
    ensures made { F.tells → (cs : List CheckedCrate) → AreGroups cs groups.now → ArePathed cs
        → OnOk result (F.host files.new
        ≡ after (paths_made builder.now.path cs paths.now) (F.host files.old)) }
    ensures begun { F.tells → (cs : List CheckedCrate) → AreGroups cs groups.now → ArePathed cs
        → OnErr result (AreBegun (paths_made builder.now.path cs paths.now)
        (F.host files.old) (F.host files.new)) }
    ensures filled { F.tells → (cs : List CheckedCrate) → AreGroups cs groups.now → ArePathed cs
        → OnOk result (AreFilled builder.now.path cs paths.now (F.host files.old)) }
    ensures count { (cs : List CheckedCrate) → AreGroups cs groups.now → ArePathed cs
        → IfOk result (λ n. n ≡ min (size_of
        (paths_made builder.now.path cs paths.now)) (2 ^ 64 - 1)) }
    ensures only { IfErr result IsInsertFault }
    ensures occupied { F.tells → (n : ℕ) → result ≡ Err (VendorFault.NotEmpty n) → n ≡ 1 }
    ensures taken { F.tells → (cs : List CheckedCrate) → AreGroups cs groups.now → ArePathed cs
        → (n : ℕ) → result ≡ Err (VendorFault.NotEmpty n)
        → IsTaken builder.now.path cs paths.now (F.host files.old) (F.host files.new) }
    ensures file { (at : List ℕ) → result ≡ Err (VendorFault.File at)
        → CountRose (F.faults files.old) (F.faults files.new) }
    ensures later { F.faults files.old ≤ F.faults files.new }
    ensures failed { F.tells → AddsFailed (F.failed files.old) (F.failed files.new) result }
    ensures within { F.tells → IfErr result (IsToldIn builder.now.path) }
{
    let mut written: u64 = 0;
    for path in paths {
        match insert_group(alloc, builder, groups, path.as_str(), files) {
            Ok(count) => written = written.saturating_add(count),
            Err(fault) => return Err(fault),
        }
    }
    Ok(written)
}

// ---- the whole

/// A builder of a registry in a folder, which must be empty or absent.
fn begin<F: Files>(
    alloc: Global,
    to: Text,
    files: &mut F,
) -> Result<LocalRegistryBuilder, VendorFault>
    ensures path { IfOk result (λ builder. builder.path ≡ to) }
    ensures made { F.tells → OnOk result (F.host files.new
        ≡ after_change (created to) (F.host files.old)) }
    ensures begun { F.tells → OnErr result (IsBegun (created to)
        (F.host files.old) (F.host files.new)) }
    ensures possible { F.tells → OnOk result
        (AreFolders (paths_spec.ways_to (index_of to)) (F.host files.old).stands) }
    ensures free { F.tells → OnOk result
        (free_fault ((F.host files.old).stands to) ≡ None) }
    ensures occupied { F.tells → IfErr result
        (IsOccupied ((F.host files.old).stands to)) }
    ensures not_empty { F.tells → (n : ℕ) → result ≡ Err (VendorFault.NotEmpty n)
        → free_fault ((F.host files.old).stands to) ≡ Some (VendorFault.NotEmpty n) }
    ensures unmade { F.tells → IfErr result (λ e. IsTrue (is_behind e)
        → F.host files.new ≡ F.host files.old) }
    ensures only { IfErr result IsBeginFault }
    ensures file { (at : List ℕ) → result ≡ Err (VendorFault.File at)
        → CountRose (F.faults files.old) (F.faults files.new) }
    ensures later { F.faults files.old ≤ F.faults files.new }
    ensures failed { F.tells → AddsFailed (F.failed files.old) (F.failed files.new) result }
    ensures within { F.tells → IfErr result (IsToldIn to) }
{
    match LocalRegistryBuilder::create(alloc, files, to) {
        Ok(builder) => Ok(builder),
        Err(Error::IoPath(IoKind::AlreadyExists(count), _)) => Err(VendorFault::NotEmpty(count)),
        Err(Error::IoPath(IoKind::NotADirectory, _)) => Err(VendorFault::NotADirectory),
        Err(Error::IoPath(IoKind::Failed, path)) => Err(VendorFault::File { path }),
        Err(Error::NoMemory) => Err(VendorFault::NoMemory),
        Err(_) => unreachable!("a folder is no folder, occupied or not made"),
    }
}

/// A registry that was built, and the number of bytes written, at most 2^64 - 1.
#[derive(Drop)]
pub struct Built {
    /// The registry.
    pub registry: LocalRegistry,
    /// The number of bytes that were written.
    pub bytes: u64,
}

/// Builds a registry of what was checked in a folder, which must be empty or absent, and
/// validates it. `NotEmpty` and `NotADirectory` for the folder, before anything is written;
/// `ReadBack` if it doesn't agree with its index.
pub fn build<F: Files>(
    alloc: Global,
    to: Text,
    checked: Items<CheckedCrate>,
    files: &mut F,
) -> Result<Built, VendorFault>
    ensures made { F.tells → ArePathed checked → OnOk result (F.host files.new
        ≡ after (all_made to checked) (F.host files.old)) }
    ensures count { ArePathed checked → IfOk result (λ built. built.bytes
        ≡ min (size_of (all_made to checked)) (2 ^ 64 - 1)) }
    ensures opened { F.tells → IfOk result (λ built.
        registry_at (F.host files.new) to true ≡ Ok built.registry.index.path) }
    ensures free { F.tells → OnOk result
        (free_fault ((F.host files.old).stands to) ≡ None) }
    ensures filled { F.tells → ArePathed checked → OnOk result (AreFilled to checked
        (paths_of checked) (after_change (created to) (F.host files.old))) }
    ensures begun { F.tells → ArePathed checked → OnErr result (AreBegun
        (all_made to checked) (F.host files.old) (F.host files.new)) }
    ensures occupied { F.tells → IfErr result
        (IsOccupied ((F.host files.old).stands to)) }
    ensures taken { F.tells → ArePathed checked → (n : ℕ)
        → result ≡ Err (VendorFault.NotEmpty n)
        → free_fault ((F.host files.old).stands to) ≡ None → IsTaken to checked
        (paths_of checked) (after_change (created to) (F.host files.old)) (F.host files.new) }
    ensures unmade { F.tells → IfErr result (λ e.
        free_fault ((F.host files.old).stands to) ≡ Some e
        → F.host files.new ≡ F.host files.old) }
    ensures read_back { F.tells → (why : Error) → result ≡ Err (VendorFault.ReadBack why)
        → IsReadBack to checked (F.host files.old) (F.host files.new) why }
    ensures only { IfErr result IsBuildFault }
    ensures file { (at : List ℕ) → result ≡ Err (VendorFault.File at)
        → CountRose (F.faults files.old) (F.faults files.new) }
    ensures later { F.faults files.old ≤ F.faults files.new }
    ensures failed { F.tells → AddsFailed (F.failed files.old) (F.failed files.new) result }
    ensures within { F.tells → IfErr result (IsToldIn to) }
{
    let builder = begin(alloc, to, files)?;
    let paths = distinct_paths(alloc, checked.as_slice())?;
    let groups = grouped(alloc, checked)?;
    let bytes = insert_paths(alloc, &builder, paths.as_slice(), &groups, files)?;
    match builder.finalize(alloc, files, true) {
        Ok(registry) => Ok(Built { registry, bytes }),
        Err(Error::IoPath(IoKind::Failed, path)) => Err(VendorFault::File { path }),
        Err(Error::NoMemory) => Err(VendorFault::NoMemory),
        Err(error) => Err(VendorFault::ReadBack(error)),
    }
}
