//! The packages of a lockfile that go into a registry, each checked whole before the next.
ghost use Rattle.std.specs.Prelude.{◌≡◌, ◌≤◌, ◌++◌, ◌∷◌, [], ◌&&◌, not, ℕ, List, Ok, Err, IfOk, IfErr, OnOk, IsTrue};
ghost use Rattle.std.specs.List.{list_any};
ghost use Rattle.tame_names.specs.Counts.{CountRose};
ghost use Rattle.vendor_registry.specs.Checks.{IsCheckFault, IsStopped, all_checked, is_of_package, stock_of};
ghost use Rattle.audit_core.specs.Paths as paths_spec;
ghost use Rattle.vendor_registry.specs.Failed.{AddsFailed, AddsFailedRead, FailsReadingAt};
ghost use Rattle.audit_lock.specs.declared.resolving.Package.{Package};
ghost use Rattle.vendor_registry.specs.Looked.{HasPairs, looked, stands_for};
ghost use Rattle.vendor_registry.specs.Looked as spec;
ghost use Rattle.vendor_registry.specs.Named.{AreTexts};

use crate::checks::{CheckedCrate, check_package};
use crate::faults::VendorFault;
use audit_lock::Package;
use std::alloc::Global;
use std::collections::BTreeSet;
use tame_cache::CacheDisk;
use tame_names::{FileLock, Files, Items, NoMemory, Text};
use tame_sparse::SparseIndex;

/// The name and the version of a package.
#[derive(Debug, Drop, PartialEq, Eq, PartialOrd, Ord)]
pub struct Pair {
    /// The package's name.
    pub name: Text,
    /// The version's text.
    pub version: Text,
}

/// The pair of a package.
fn pair_of(alloc: Global, locked: &Package) -> Result<Pair, NoMemory>
    ensures { IfOk result (λ pair. pair ≡ spec.pair_of locked.now.name locked.now.version) }
{
    let name = locked.name.try_clone(alloc)?;
    let version = locked.version.try_clone(alloc)?;
    Ok(Pair { name, version })
}

/// Whether a package is of the default registry and the first with its name and version, after
/// packages whose pairs are these; its pair is one of them from now on.
fn is_first(alloc: Global, pairs: &mut BTreeSet<Pair>, locked: &Package) -> Result<bool, NoMemory>
    ensures first { (front : List Package) → HasPairs pairs.old.keys front
        → IfOk result (λ first. first
        ≡ (paths_spec.is_default locked.now && not (list_any (stands_for locked.now) front))) }
    ensures pairs { (front : List Package) → HasPairs pairs.old.keys front
        → OnOk result (HasPairs pairs.new.keys (front ++ locked.now ∷ [])) }
{
    if !locked.is_default() {
        return Ok(false);
    }
    let pair = pair_of(alloc, locked)?;
    let first = pairs.insert(pair)?;
    Ok(first)
}

/// Checks the packages of the default registry in their order, each pair of name and version once
/// and whole before the next. Nothing is written. The refusals are those of `check_package` for the
/// first package that has one.
pub fn check_packages<F: Files, D: CacheDisk>(
    alloc: Global,
    packages: &[Package],
    index: &SparseIndex,
    crates: &str,
    files: &mut F,
    lock: &FileLock,
    disk: &mut D,
) -> Result<Items<CheckedCrate>, VendorFault>
    ensures ok { F.tells → D.tells → IfOk result (λ cs. all_checked
        (stock_of (D.past disk.old) index.now (F.host files.old) crates.now)
        (looked packages.now) ≡ Ok cs) }
    ensures refused { F.tells → D.tells → IfErr result (λ e. IsTrue (is_of_package e)
        → all_checked (stock_of (D.past disk.old) index.now (F.host files.old) crates.now)
        (looked packages.now) ≡ Err e) }
    ensures stopped { F.tells → D.tells → IfErr result (IsStopped
        (stock_of (D.past disk.old) index.now (F.host files.old) crates.now)
        (looked packages.now)) }
    ensures texts { IfOk result AreTexts }
    ensures only { IfErr result IsCheckFault }
    ensures store { (at : ℕ) → result ≡ Err (VendorFault.Store at)
        → CountRose (D.faults disk.old) (D.faults disk.new) }
    ensures file { (path : List ℕ) → result ≡ Err (VendorFault.File path)
        → CountRose (F.faults files.old) (F.faults files.new) }
    ensures disk_later { D.faults disk.old ≤ D.faults disk.new }
    ensures files_later { F.faults files.old ≤ F.faults files.new }
    ensures failed { F.tells → AddsFailed (F.failed files.old) (F.failed files.new) result }
    ensures failed_disk { AddsFailedRead (FailsReadingAt index.now.cache.path packages.now)
        (D.failed disk.old) (D.failed disk.new) result }
    ensures disk_same { D.tells → (q : List ℕ) → D.past disk.new q ≡ D.past disk.old q }
    ensures folders_same { D.tells → D.folders disk.new ≡ D.folders disk.old }
    ensures files_same { F.tells → F.host files.new ≡ F.host files.old }
{
    let mut checked = Items::new(alloc);
    let mut pairs = BTreeSet::new(alloc);
    for (place, locked) in packages.iter().enumerate() {
        let first = is_first(alloc, &mut pairs, locked)?;
        if first {
            match check_package(alloc, index, crates, place, locked, files, lock, disk) {
                Ok(one) => checked.add(one)?,
                Err(fault) => return Err(fault),
            }
        }
    }
    Ok(checked)
}
