//! A registry of what was audited.
ghost use Rattle.std.specs.Prelude.{◌≡◌, ◌≤◌, ℕ, List, Err};
ghost use Rattle.tame_names.specs.Counts.{CountRose};
ghost use Rattle.vendor_registry.specs.Checks.{stock_of};
ghost use Rattle.vendor_registry.specs.Failed.{AddsFailed, AddsFailedRead, FailsReadingAt};
ghost use Rattle.vendor_registry.specs.Vendoring.{IsVendorAnswer, vendoring};

use crate::building::build;
use crate::faults::VendorFault;
use crate::looking::check_packages;
use audit_core::Audited;
use std::alloc::Global;
use tame_cache::CacheDisk;
use tame_local::LocalRegistry;
use tame_names::{FileLock, Files, Text};
use tame_sparse::SparseIndex;

/// A registry of an audit's packages.
#[derive(Drop)]
pub struct Vendored {
    /// The registry.
    pub registry: LocalRegistry,
    /// The number of its crate files.
    pub packages: usize,
    /// The number of bytes in its files, at most 2^64 - 1.
    pub bytes: u64,
}

/// Creates a local registry of the packages of an audit that are of the default registry, in a
/// folder that must be empty or absent: from their deciding records in the cache of an index, and
/// their crate files in the folder `crates`.
///
/// All packages are checked before anything is written; the refusals are those of `check_package`
/// for the first package that has one. Then the registry is built and validated: `NotEmpty` if the
/// folder has entries, `NotADirectory` if it isn't one, `ReadBack` if what was built doesn't agree
/// with its index. `File` and `Store` are calls that failed, and were counted. After a refusal that
/// comes after the checks the files written so far stay.
pub fn vendor<F: Files, D: CacheDisk>(
    alloc: Global,
    audited: &Audited,
    index: &SparseIndex,
    crates: &str,
    to: Text,
    files: &mut F,
    lock: &FileLock,
    disk: &mut D,
) -> Result<Vendored, VendorFault>
    ensures answered { IsVendorAnswer (vendoring F.tells D.tells
        (stock_of (D.past disk.old) index.now (F.host files.old) crates.now)
        audited.now.lockfile to (F.host files.new) (D.faults disk.old) (D.faults disk.new))
        result }
    ensures file { (path : List ℕ) → result ≡ Err (VendorFault.File path)
        → CountRose (F.faults files.old) (F.faults files.new) }
    ensures failed { F.tells → AddsFailed (F.failed files.old) (F.failed files.new) result }
    ensures failed_disk { AddsFailedRead
        (FailsReadingAt index.now.cache.path audited.now.lockfile)
        (D.failed disk.old) (D.failed disk.new) result }
    ensures disk_later { D.faults disk.old ≤ D.faults disk.new }
    ensures files_later { F.faults files.old ≤ F.faults files.new }
    ensures disk_same { D.tells → (q : List ℕ) → D.past disk.new q ≡ D.past disk.old q }
    ensures folders_same { D.tells → D.folders disk.new ≡ D.folders disk.old }
{
    let packages = audited.lockfile.packages();
    let checked = check_packages(alloc, packages, index, crates, files, lock, disk)?;
    let count = checked.len();
    let built = build(alloc, to, checked, files)?;
    Ok(Vendored {
        registry: built.registry,
        packages: count,
        bytes: built.bytes,
    })
}
