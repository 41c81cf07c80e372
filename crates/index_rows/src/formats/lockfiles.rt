//! Lockfiles.
use audit_lock::{Lockfile, LockfileFault, Package, is_default_registry};
use row_fixtures::{Row, RowFault};
use std::alloc::{AllocError, Global};
use tame_names::Text;

fn fault_text(alloc: Global, fault: LockfileFault) -> Result<String, AllocError> {
    match fault {
        LockfileFault::Rule { package, rule } => match package {
            None => format!(in alloc; "{rule:?}"),
            Some(place) => format!(in alloc; "{rule:?} of {place}"),
        },
        _ => format!(in alloc; "{fault:?}"),
    }
}

/// The number of packages, or the fault.
fn read(alloc: Global, text: &str) -> Result<String, AllocError> {
    match Lockfile::read(alloc, text) {
        Ok(lockfile) => {
            let count = lockfile.packages().len();
            format!(in alloc; "{count} packages")
        }
        Err(fault) => fault_text(alloc, fault),
    }
}

/// `lock TEXT`: the number of packages of a lockfile, or why it is none.
pub fn lock(alloc: Global, mut words: Row<'_>) -> Result<String, RowFault> {
    let text = words.text(alloc)?;
    Ok(read(alloc, text.as_str())?)
}

/// `package NAME VERSION MORE`: the same of a lockfile with one package, and these lines behind it.
pub fn package(alloc: Global, mut words: Row<'_>) -> Result<String, RowFault> {
    let name = words.word();
    let version = words.word();
    let more = words.text(alloc)?;
    let text = format!(in alloc;
        "[[package]]\nname = \"{name}\"\nversion = \"{version}\"\n{more}\n"
    )?;
    Ok(read(alloc, text.as_str())?)
}

fn push_package(out: &mut String, package: &Package) -> Result<(), AllocError> {
    write!(out, "; {} {}:", package.name, package.version)?;
    for place in package.dependencies.as_slice() {
        write!(out, " {place}")?;
    }
    Ok(())
}

/// Packages with the places of their dependencies.
fn packages_line(alloc: Global, packages: &[Package]) -> Result<String, RowFault> {
    let count = packages.len();
    let mut out = format!(in alloc; "{count} packages")?;
    for package in packages {
        push_package(&mut out, package)?;
    }
    Ok(out)
}

/// `packages`: each package of the text, with the places of its dependencies.
pub fn packages(alloc: Global, text: &str) -> Result<String, RowFault> {
    match Lockfile::read(alloc, text) {
        Ok(lockfile) => packages_line(alloc, lockfile.packages()),
        Err(fault) => Ok(fault_text(alloc, fault)?),
    }
}

/// The first package's source and checksum, and how many dependencies it has; `-` for what it
/// doesn't have.
fn first_line(alloc: Global, packages: &[Package]) -> Result<String, RowFault> {
    let Some(package) = packages.first() else {
        return Ok(String::from_str(alloc, "no package")?);
    };
    let source = package.source.as_ref().map_or("-", Text::as_str);
    let checksum = package.checksum.as_ref().map_or("-", Text::as_str);
    let count = package.dependencies.as_slice().len();
    Ok(format!(in alloc; "{source} {checksum} {count}")?)
}

/// `source VERSION MORE`: source, checksum and number of dependencies of the one package of a
/// lockfile of this version, with these lines behind its name and version.
pub fn source(alloc: Global, mut words: Row<'_>) -> Result<String, RowFault> {
    let version = words.number()?;
    let more = words.text(alloc)?;
    let text = format!(in alloc;
        "version = {version}\n[[package]]\nname = \"a\"\nversion = \"0.1.0\"\n{more}\n"
    )?;
    match Lockfile::read(alloc, text.as_str()) {
        Ok(lockfile) => first_line(alloc, lockfile.packages()),
        Err(fault) => Ok(fault_text(alloc, fault)?),
    }
}

/// `registry SOURCE`: whether a source is the default registry.
pub fn registry(alloc: Global, mut words: Row<'_>) -> Result<String, RowFault> {
    let is_default = is_default_registry(words.word());
    Ok(format!(in alloc; "{is_default}")?)
}
