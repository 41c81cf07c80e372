//! Audits of binaries, each as one line.
use crate::binaries::stage::Stage;
use audit_advisory::DenyOption;
use audit_binaries::{BinariesAudit, BinaryAnswer, MemDecoder, audit_binaries};
use audit_core::{AuditError, Audited, Auditor};
use audit_settings::AuditConfig;
use row_fixtures::{Row, RowFault, host_with};
use std::alloc::{AllocError, Global};
use std::mem;
use tame_names::{FileLock, Files, Items, MemFiles, Text};
use tame_sparse::MemWire;

fn copied(alloc: Global, deny: &[DenyOption]) -> Result<Items<DenyOption>, RowFault> {
    let mut copies = Items::new(alloc);
    copies.extend(deny)?;
    Ok(copies)
}

fn auditor_by(
    alloc: Global,
    config: &AuditConfig,
    advisories: &Items<Text>,
) -> Result<Auditor, RowFault> {
    match Auditor::new(alloc, config, advisories) {
        Ok(auditor) => Ok(auditor),
        Err(AuditError::NoMemory) => Err(RowFault::NoMemory),
        Err(_) => Err(RowFault::Unread),
    }
}

fn auditor_of(alloc: Global, stage: &Stage) -> Result<Auditor, RowFault> {
    let deny = copied(alloc, stage.deny.as_slice())?;
    match AuditConfig::new(alloc) {
        Ok(mut config) => {
            config.output.deny = deny;
            auditor_by(alloc, &config, &stage.advisories)
        }
        Err(_) => Err(RowFault::NoMemory),
    }
}

fn paths_of(alloc: Global, words: Row<'_>) -> Result<Items<Text>, RowFault> {
    let mut paths = Items::new(alloc);
    for word in words.rest().split(' ') {
        paths.add(Text::of(alloc, word)?)?;
    }
    Ok(paths)
}

/// Adds an audit: how many packages and vulnerabilities it has, its verdicts and its exit.
fn push_audited(out: &mut String, audited: &Audited) -> Result<(), AllocError> {
    let packages = audited.lockfile.packages().len();
    let found = audited.report.vulnerabilities.as_slice().len();
    write!(out, ", {packages} packages, {found} found")?;
    for judged in audited.verdicts.as_slice() {
        let verdict = judged.verdict;
        write!(out, ", {verdict:?}")?;
    }
    let exit = audited.exit;
    write!(out, ", exit {exit}")
}

fn push_answer(out: &mut String, answer: &BinaryAnswer) -> Result<(), AllocError> {
    match answer {
        BinaryAnswer::Audited(found, audited) => {
            write!(out, "{found:?}")?;
            push_audited(out, audited)?;
        }
        BinaryAnswer::Refused(fault) => write!(out, "{fault:?}")?,
    }
    out.push_str("; ")
}

/// Adds the turns of all audits, by path and counts of the wire.
fn push_turns(out: &mut String, answer: &BinaryAnswer) -> Result<(), AllocError> {
    match answer {
        BinaryAnswer::Audited(_, audited) => {
            for turn in audited.turns.as_slice() {
                let (path, before, after) = (&turn.path, turn.wire_before, turn.wire_after);
                write!(out, " ({path} {before} {after})")?;
            }
            Ok(())
        }
        BinaryAnswer::Refused(_) => Ok(()),
    }
}

/// The audits as a line: the answers, the summary, the turns, what was asked, and how many reads
/// have failed.
fn told(
    alloc: Global,
    audit: &BinariesAudit,
    wire: &MemWire,
    files: &MemFiles,
) -> Result<String, RowFault> {
    let mut out = String::new(alloc);
    for answer in audit.answers.as_slice() {
        push_answer(&mut out, answer)?;
    }
    let (found, errors) = (
        audit.summary.vulnerabilities_found,
        audit.summary.errors_encountered,
    );
    write!(out, "found {found}, errors {errors}; turns")?;
    for answer in audit.answers.as_slice() {
        push_turns(&mut out, answer)?;
    }
    out.push_str("; asked")?;
    for exchange in wire.exchanges() {
        let path = &exchange.path;
        write!(out, " {path}")?;
    }
    let failed = files.file_faults();
    write!(out, "; {failed} failed reads")?;
    Ok(out)
}

/// The audits of the binaries at these paths, as a line.
fn audit_line(
    alloc: Global,
    stage: &mut Stage,
    auditor: &Auditor,
    paths: &Items<Text>,
    files: &mut MemFiles,
    decoder: &mut MemDecoder,
    wire: &mut MemWire,
) -> Result<String, RowFault> {
    let audit = audit_binaries(
        alloc,
        auditor,
        &stage.limits,
        paths,
        files,
        decoder,
        &FileLock::unlocked(),
        wire,
        &mut stage.disk,
    )?;
    told(alloc, &audit, wire, files)
}

/// What the server answers in the next audit.
fn wire_of(alloc: Global, stage: &mut Stage) -> MemWire {
    MemWire::new(alloc, mem::replace(&mut stage.script, Items::new(alloc)))
}

/// The same over these files.
fn audit_over(
    alloc: Global,
    stage: &mut Stage,
    auditor: &Auditor,
    paths: &Items<Text>,
    mut files: MemFiles,
) -> Result<String, RowFault> {
    let decodes = mem::replace(&mut stage.decodes, Vec::new(alloc));
    let mut decoder = MemDecoder::new(Items::of(decodes));
    let mut wire = wire_of(alloc, stage);
    audit_line(
        alloc,
        stage,
        auditor,
        paths,
        &mut files,
        &mut decoder,
        &mut wire,
    )
}

/// The same by this auditor.
fn audit_by(
    alloc: Global,
    stage: &mut Stage,
    auditor: &Auditor,
    paths: &Items<Text>,
) -> Result<String, RowFault> {
    let reads = mem::replace(&mut stage.reads, Vec::new(alloc));
    match host_with(alloc, stage.laid.as_slice(), &[], reads) {
        Ok(files) => audit_over(alloc, stage, auditor, paths, files),
        Err(fault) => Err(fault),
    }
}

/// `audit PATH ..`: the audit of the binaries at these paths.
pub fn audit(alloc: Global, stage: &mut Stage, words: Row<'_>) -> Result<String, RowFault> {
    let paths = paths_of(alloc, words)?;
    match auditor_of(alloc, stage) {
        Ok(auditor) => audit_by(alloc, stage, &auditor, &paths),
        Err(fault) => Err(fault),
    }
}

fn audited_line(alloc: Global, audited: &Audited) -> Result<String, AllocError> {
    let mut out = String::from_str(alloc, "Audited")?;
    push_audited(&mut out, audited)?;
    Ok(out)
}

/// The audit of the lockfile at a path by this auditor.
fn lockfile_by(
    alloc: Global,
    stage: &mut Stage,
    auditor: &Auditor,
    mut files: MemFiles,
    path: &str,
) -> Result<String, AllocError> {
    let mut wire = wire_of(alloc, stage);
    let (lock, disk) = (FileLock::unlocked(), &mut stage.disk);
    match auditor.audit_lockfile(alloc, &mut files, path, &lock, &mut wire, disk) {
        Ok(audited) => audited_line(alloc, &audited),
        Err(fault) => format!(in alloc; "{fault:?}"),
    }
}

/// `lockfile PATH`: the audit of the lockfile at this path.
pub fn lockfile(alloc: Global, stage: &mut Stage, words: Row<'_>) -> Result<String, RowFault> {
    let files = host_with(alloc, stage.laid.as_slice(), &[], Vec::new(alloc))?;
    match auditor_of(alloc, stage) {
        Ok(auditor) => Ok(lockfile_by(alloc, stage, &auditor, files, words.rest())?),
        Err(fault) => Err(fault),
    }
}
