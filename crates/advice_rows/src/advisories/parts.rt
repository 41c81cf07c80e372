//! The parts of an advisory.
use crate::stage::{Stage, without_newline};
use audit_advisory::{Advisory, Function, Metadata, Requirement};
use row_fixtures::RowFault;
use std::alloc::{AllocError, Global};

fn push_requirements(out: &mut String, name: &str, list: &[Requirement]) -> Result<(), AllocError> {
    write!(out, "{name}:")?;
    for requirement in list {
        write!(out, " {:?}", requirement.text)?;
    }
    out.push_str("\n")
}

fn push_metadata(out: &mut String, metadata: &Metadata) -> Result<(), AllocError> {
    write!(out, "{metadata:?}\n")
}

fn push_targets(out: &mut String, advisory: &Advisory) -> Result<(), AllocError> {
    write!(out, "arch: {:?}, os: {:?}\n", advisory.arch, advisory.os)
}

fn push_function(out: &mut String, function: &Function) -> Result<(), AllocError> {
    write!(out, "{:?} ", function.path)?;
    push_requirements(out, "in", function.versions.as_slice())
}

fn push_parts(out: &mut String, advisory: &Advisory) -> Result<(), AllocError> {
    push_metadata(out, &advisory.metadata)?;
    push_requirements(out, "patched", advisory.versions.patched())?;
    push_requirements(out, "unaffected", advisory.versions.unaffected())?;
    push_targets(out, advisory)?;
    for function in advisory.functions.as_slice() {
        push_function(out, function)?;
    }
    Ok(())
}

fn parts_of(alloc: Global, advisory: &Advisory) -> Result<String, RowFault> {
    let mut out = String::new(alloc);
    push_parts(&mut out, advisory)?;
    Ok(without_newline(out))
}

/// `parts`
pub fn parts(alloc: Global, stage: &mut Stage) -> Result<String, RowFault> {
    stage.texts.end(alloc)?;
    match Advisory::read(alloc, stage.texts.first()?) {
        Ok(advisory) => parts_of(alloc, &advisory),
        Err(fault) => Ok(format!(in alloc; "{fault:?}")?),
    }
}
