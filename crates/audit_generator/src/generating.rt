//! Two audits of generated packages.
ghost use Rattle.std.specs.Prelude.{◌≡◌, ◌≢◌, ◌≤◌, List, Ok, Err, IfOk, IfErr, ⊤};
ghost use Rattle.audit_lock.specs.Locked.{locked};
ghost use Rattle.audit_lock.specs.declared.resolving.Package.{Package};
ghost use Rattle.audit_settings.specs.Defaults.{default_settings};
ghost use Rattle.audit_core.specs.Auditors.{text_auditor};
ghost use Rattle.audit_core.specs.Audits.{IsAuditOf};
ghost use Rattle.audit_core.specs.Turns.{StaysKept};
ghost use Rattle.tame_cache.specs.MemoryDisk.{past_in};
ghost use Rattle.tame_sparse.specs.Serving.{AreServed};
ghost use Rattle.audit_generator.specs.Moments.{IsGenerated, auditor_for, moment_of};

use crate::advisories::advisory_texts;
use crate::hosting::hosted;
use crate::lockfiles::lockfile_text;
use audit_core::{AuditError, Audited, Auditor};
use audit_settings::AuditConfig;
use std::alloc::Global;
use tame_cache::{CacheDisk, MemCacheDisk};
use tame_names::{FileLock, Items, Text};
use tame_sparse::ServeWire;

/// Two audits of generated packages, with the wire and the disk as the second left them.
#[derive(Drop)]
pub struct Generated {
    /// The first audit, over a disk without files.
    pub first: Audited,
    /// The second audit, over what the first one left.
    pub second: Audited,
    /// The wire, with the exchanges of both audits.
    pub wire: ServeWire,
    /// The disk, with what both audits kept.
    pub disk: MemCacheDisk,
}

/// An audit of a lockfile for which the disk had room.
fn quiet_audit(
    alloc: Global,
    auditor: &Auditor,
    text: &str,
    lock: &FileLock,
    wire: &mut ServeWire,
    disk: &mut MemCacheDisk,
) -> Result<Audited, AuditError>
    requires { (packages : List Package) × (locked text.now ≡ Ok packages) }
    ensures audited { IfOk result (IsAuditOf auditor.now ⊤ ⊤ (moment_of wire.old disk.old)
        (moment_of wire.new disk.new) text.now) }
    ensures quiet { IfOk result (λ _. disk.new.counts.faults ≡ 0) }
    ensures kept { StaysKept wire.old.exchanges wire.new.exchanges (past_in disk.old)
        (past_in disk.new) }
    ensures held { wire.new.held ≡ wire.old.held }
    ensures served { AreServed wire.old.held wire.old.exchanges
        → AreServed wire.new.held wire.new.exchanges }
    ensures refused { IfErr result (λ e. e ≡ AuditError.NoMemory) }
{
    let audited = auditor.audit_text(alloc, text, lock, wire, disk)?;
    if disk.disk_faults() > 0 {
        return Err(AuditError::NoMemory);
    }
    Ok(audited)
}

/// Audits n generated packages twice, over one server and one cache.
fn audit_twice(alloc: Global, n: u64, auditor: &Auditor) -> Result<Generated, AuditError>
    requires number { n ≤ 5000 }
    requires auditor { auditor.now ≡ auditor_for n }
    ensures made { IfOk result (IsGenerated n) }
    ensures refused { IfErr result (λ e. e ≡ AuditError.NoMemory) }
{
    let text = lockfile_text(alloc, n)?;
    let lock = FileLock::unlocked();
    let mut wire = ServeWire::new(alloc, hosted(alloc, n)?);
    let mut disk = MemCacheDisk::new(alloc, Vec::new(alloc));
    let first = quiet_audit(alloc, auditor, text.as_str(), &lock, &mut wire, &mut disk)?;
    let second = quiet_audit(alloc, auditor, text.as_str(), &lock, &mut wire, &mut disk)?;
    Ok(Generated {
        first,
        second,
        wire,
        disk,
    })
}

/// The auditor of the default settings and of these texts.
fn read_auditor(alloc: Global, texts: &Items<Text>) -> Result<Auditor, AuditError>
    ensures ok { IfOk result (λ auditor. text_auditor default_settings texts.now ≡ Ok auditor) }
    ensures refused { IfErr result (λ e. e ≢ AuditError.NoMemory
        → text_auditor default_settings texts.now ≡ Err e) }
{
    let config = AuditConfig::new(alloc)?;
    Auditor::new(alloc, &config, texts)
}

/// The auditor of the default settings and of the advisories on n generated packages.
fn default_auditor(alloc: Global, n: u64) -> Result<Auditor, AuditError>
    requires { n ≤ 5000 }
    ensures ok { IfOk result (λ auditor. auditor ≡ auditor_for n) }
    ensures refused { IfErr result (λ e. e ≡ AuditError.NoMemory) }
{
    let texts = advisory_texts(alloc, n)?;
    read_auditor(alloc, &texts)
}

/// Audits n generated packages twice, with n at most 5,000.
///
/// # Errors
///
/// Only `NoMemory`, also if the cache is out of memory: the lockfile and the advisories are read.
pub fn generate(alloc: Global, n: u64) -> Result<Generated, AuditError>
    requires { n ≤ 5000 }
    ensures made { IfOk result (IsGenerated n) }
    ensures refused { IfErr result (λ e. e ≡ AuditError.NoMemory) }
{
    let auditor = default_auditor(alloc, n)?;
    audit_twice(alloc, n, &auditor)
}
