//! Plans, by the disk of a stage.
use crate::plan::stage::{CacheFile, Stage};
use audit_advisory::Severity;
use audit_core::{AuditError, Audited, Auditor};
use audit_settings::AuditConfig;
use row_fixtures::{Row, RowFault, crates_io_index, disk_failing};
use std::alloc::Global;
use std::mem;
use tame_cache::{CacheDisk, MemCacheDisk};
use tame_names::{FileLock, Items, Text};
use tame_sparse::{MemWire, SparseIndex};
use upgrade_plan::{PlanItem, plan, plan_lines, plan_status};

/// The severity below which advisories are left out; none for `-`.
fn severity_of(word: &str) -> Result<Option<Severity>, RowFault> {
    match word {
        "-" => Ok(None),
        "low" => Ok(Some(Severity::Low)),
        "high" => Ok(Some(Severity::High)),
        _ => Err(RowFault::Unread),
    }
}

fn ignored(alloc: Global, word: &str) -> Result<Items<Text>, RowFault> {
    let mut ids = Items::new(alloc);
    if word != "-" {
        for id in word.split(',') {
            ids.add(Text::of(alloc, id)?)?;
        }
    }
    Ok(ids)
}

fn auditor_by(
    alloc: Global,
    config: &AuditConfig,
    advisories: &Items<Text>,
) -> Result<Auditor, RowFault> {
    match Auditor::new(alloc, config, advisories) {
        Ok(auditor) => Ok(auditor),
        Err(AuditError::NoMemory) => Err(RowFault::NoMemory),
        Err(_) => Err(RowFault::Unread),
    }
}

/// The auditor of the laid advisories under the settings `IGNORE SEVERITY`, without checks for
/// yanked versions.
fn auditor_of(alloc: Global, stage: &Stage, mut words: Row<'_>) -> Result<Auditor, RowFault> {
    let ignore = ignored(alloc, words.word())?;
    let severity = severity_of(words.word())?;
    match AuditConfig::new(alloc) {
        Ok(mut config) => {
            config.yanked.enabled = false;
            config.advisories.ignore = ignore;
            config.advisories.severity_threshold = severity;
            auditor_by(alloc, &config, &stage.advisories)
        }
        Err(_) => Err(RowFault::NoMemory),
    }
}

fn lay_files(alloc: Global, disk: &mut MemCacheDisk, files: &[CacheFile]) -> Result<(), RowFault> {
    for file in files {
        disk.put_file(alloc, file.path.as_str(), file.bytes.as_slice())?;
    }
    Ok(())
}

/// The disk with the laid files, of which the laid calls fail.
fn disk_of(alloc: Global, stage: &mut Stage) -> Result<MemCacheDisk, RowFault> {
    let failing = mem::replace(&mut stage.failing, Items::new(alloc));
    let mut disk = disk_failing(alloc, failing.into_vec());
    match lay_files(alloc, &mut disk, stage.files.as_slice()) {
        Ok(()) => Ok(disk),
        Err(fault) => Err(fault),
    }
}

fn audit_of(
    alloc: Global,
    auditor: &Auditor,
    lock: &str,
    disk: &mut MemCacheDisk,
) -> Result<Audited, RowFault> {
    let mut wire = MemWire::new(alloc, Items::new(alloc));
    match auditor.audit_text(alloc, lock, &FileLock::unlocked(), &mut wire, disk) {
        Ok(audited) => Ok(audited),
        Err(AuditError::NoMemory) => Err(RowFault::NoMemory),
        Err(_) => Err(RowFault::Unread),
    }
}

/// A plan as lines, its status, and how many calls on the disk have failed.
fn plan_text(
    alloc: Global,
    audited: &Audited,
    items: &[PlanItem],
    faults: u64,
) -> Result<String, RowFault> {
    let mut out = plan_lines(alloc, audited.lockfile.packages(), items)?;
    let status = plan_status(items);
    write!(out, "status {status}, {faults} failed calls")?;
    Ok(out)
}

/// The plan for an audit, by the cache of an index.
fn planned_in(
    alloc: Global,
    auditor: &Auditor,
    audited: &Audited,
    index: &SparseIndex,
    disk: &mut MemCacheDisk,
) -> Result<String, RowFault> {
    let lock = FileLock::unlocked();
    let items = plan(alloc, audited, auditor.database(), index, &lock, disk)?;
    plan_text(alloc, audited, items.as_slice(), disk.disk_faults())
}

/// The plan for an audit.
fn planned(
    alloc: Global,
    auditor: &Auditor,
    audited: &Audited,
    disk: &mut MemCacheDisk,
) -> Result<String, RowFault> {
    match crates_io_index(alloc, "") {
        Ok(index) => planned_in(alloc, auditor, audited, &index, disk),
        Err(fault) => Err(fault),
    }
}

/// The plan for the audit of a lockfile.
fn plan_on(
    alloc: Global,
    auditor: &Auditor,
    lock: &str,
    disk: &mut MemCacheDisk,
) -> Result<String, RowFault> {
    match audit_of(alloc, auditor, lock, disk) {
        Ok(audited) => planned(alloc, auditor, &audited, disk),
        Err(fault) => Err(fault),
    }
}

/// The plan for the audit of the laid lockfile.
fn plan_by(alloc: Global, stage: &mut Stage, auditor: &Auditor) -> Result<String, RowFault> {
    match disk_of(alloc, stage) {
        Ok(mut disk) => plan_on(alloc, auditor, stage.lock.as_str(), &mut disk),
        Err(fault) => Err(fault),
    }
}

/// `plan IGNORE SEVERITY`
pub fn plan_of(alloc: Global, stage: &mut Stage, words: Row<'_>) -> Result<String, RowFault> {
    match auditor_of(alloc, stage, words) {
        Ok(auditor) => plan_by(alloc, stage, &auditor),
        Err(fault) => Err(fault),
    }
}
