//! Audits whose packages are vendored.
use crate::vendor::stage::Stage;
use audit_core::{AuditConfig, AuditError, Audited, Auditor};
use row_fixtures::{Row, RowFault, asked};
use std::alloc::Global;
use tame_cache::MemCacheDisk;
use tame_local::LocalRegistry;
use tame_names::{FileLock, Files, Items, Text};
use tame_sparse::MemWire;
use vendor_registry::{VendorFault, Vendored, vendor};

/// An auditor without advisories and without checks for yanked versions.
fn plain_auditor(alloc: Global) -> Result<Auditor, AuditError> {
    match AuditConfig::new(alloc) {
        Ok(mut config) => {
            config.yanked.enabled = false;
            Auditor::new(alloc, &config, &Items::new(alloc))
        }
        Err(_) => Err(AuditError::NoMemory),
    }
}

fn audit_by(
    alloc: Global,
    auditor: &Auditor,
    text: &str,
    lock: &FileLock,
) -> Result<Audited, RowFault> {
    let mut wire = MemWire::new(alloc, Items::new(alloc));
    let mut disk = MemCacheDisk::new(alloc, Vec::new(alloc));
    match auditor.audit_text(alloc, text, lock, &mut wire, &mut disk) {
        Ok(audited) => Ok(audited),
        Err(AuditError::NoMemory) => Err(RowFault::NoMemory),
        Err(_) => Err(RowFault::Unread),
    }
}

/// The audit of a lockfile without advisories and without checks for yanked versions.
fn audit(alloc: Global, text: &str, lock: &FileLock) -> Result<Audited, RowFault> {
    match plain_auditor(alloc) {
        Ok(auditor) => audit_by(alloc, &auditor, text, lock),
        Err(_) => Err(RowFault::NoMemory),
    }
}

/// A refusal, with the digest that was found as its text.
fn refused_line(alloc: Global, fault: &VendorFault) -> Result<String, RowFault> {
    match fault {
        VendorFault::Digest { package, found } => {
            let digest = found.to_text(alloc)?;
            Ok(format!(in alloc; "Digest {{ package: {package}, found: {digest} }}")?)
        }
        fault => Ok(format!(in alloc; "{fault:?}")?),
    }
}

fn made_line(alloc: Global, made: &Vendored) -> Result<String, RowFault> {
    let index = made.registry.index().path();
    Ok(format!(in alloc;
        "vendored {} packages, {} bytes, index {index}",
        made.packages, made.bytes
    )?)
}

/// A refusal, and how many calls on the host failed.
fn unmade_line(alloc: Global, fault: &VendorFault, faults: u64) -> Result<String, RowFault> {
    let text = refused_line(alloc, fault)?;
    Ok(format!(in alloc; "{text}, {faults} failed")?)
}

/// Makes a registry of an audit in a folder, and tells what came of it.
fn vendored(
    alloc: Global,
    audited: &Audited,
    stage: &mut Stage,
    crates: &str,
    to: Text,
    lock: &FileLock,
) -> Result<String, RowFault> {
    let before = stage.files.file_faults();
    let made = vendor(
        alloc,
        audited,
        &stage.index,
        crates,
        to,
        &mut stage.files,
        lock,
        &mut stage.disk,
    );
    let faults = stage.files.file_faults() - before;
    match made {
        Ok(made) => made_line(alloc, &made),
        Err(fault) => unmade_line(alloc, &fault, faults),
    }
}

/// `vendor CRATES TO`
pub fn vendor_row(
    alloc: Global,
    stage: &mut Stage,
    mut words: Row<'_>,
) -> Result<String, RowFault> {
    let lock = FileLock::unlocked();
    let crates = words.word();
    let to = Text::of(alloc, words.word())?;
    match audit(alloc, stage.lockfile.as_str(), &lock) {
        Ok(audited) => vendored(alloc, &audited, stage, crates, to, &lock),
        Err(fault) => Err(fault),
    }
}

fn registry_line(alloc: Global, registry: &LocalRegistry) -> Result<String, RowFault> {
    Ok(format!(in alloc; "valid, index {}", registry.index().path())?)
}

/// `validate PATH`
pub fn validate(alloc: Global, stage: &mut Stage, mut words: Row<'_>) -> Result<String, RowFault> {
    let path = Text::of(alloc, words.word())?;
    match asked(
        alloc,
        LocalRegistry::open(alloc, &mut stage.files, path, true),
    ) {
        Ok(registry) => registry_line(alloc, &registry),
        Err(fault) => Err(fault),
    }
}
