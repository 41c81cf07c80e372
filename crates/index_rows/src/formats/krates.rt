//! The versions of a crate.
use row_fixtures::{Row, RowFault, asked, body_of, told};
use std::alloc::{AllocError, Global};
use tame_names::MemFiles;
use tame_records::{DependencyKind, IndexKrate};

/// The first and the last version, and the name.
fn ends_of(alloc: Global, krate: &IndexKrate) -> Result<String, AllocError> {
    if krate.versions.as_slice().is_empty() {
        return String::from_str(alloc, "none");
    }
    let (name, count) = (krate.name(), krate.versions.as_slice().len());
    let first = krate.earliest_version().version.as_str();
    let last = krate.most_recent_version().version.as_str();
    format!(in alloc; "{count} of {name}: {first} to {last}")
}

/// The highest version, and the highest that is no prerelease and isn't yanked.
fn highest_of(alloc: Global, krate: &IndexKrate) -> Result<String, RowFault> {
    if krate.versions.as_slice().is_empty() {
        return Ok(String::from_str(alloc, "none")?);
    }
    let highest = krate.highest_version(alloc)?.version.as_str();
    let normal = match krate.highest_normal_version(alloc)? {
        Some(version) => version.version.as_str(),
        None => "nothing",
    };
    Ok(format!(in alloc; "highest {highest}, normal {normal}")?)
}

/// What a crate is told as.
fn krate_line(alloc: Global, krate: &IndexKrate) -> Result<String, RowFault> {
    let ends = ends_of(alloc, krate)?;
    let highest = highest_of(alloc, krate)?;
    Ok(format!(in alloc; "{ends}; {highest}")?)
}

/// `krate BODY`: how many versions, of which crate, which is first, last, highest, and highest of
/// those that are no prerelease and not yanked.
pub fn krate(alloc: Global, mut words: Row<'_>) -> Result<String, RowFault> {
    let body = body_of(alloc, words.word())?;
    match asked(alloc, IndexKrate::from_slice(alloc, body.as_slice())) {
        Ok(krate) => krate_line(alloc, &krate),
        Err(fault) => Err(fault),
    }
}

/// The same of a file.
fn file_line(alloc: Global, files: &mut MemFiles, path: &str) -> Result<String, RowFault> {
    match asked(alloc, IndexKrate::new(alloc, files, path)) {
        Ok(krate) => krate_line(alloc, &krate),
        Err(fault) => Err(fault),
    }
}

/// `file PATH`: the same of a file, and how many reads have failed.
pub fn file(alloc: Global, files: &mut MemFiles, mut words: Row<'_>) -> Result<String, RowFault> {
    let line = told(alloc, file_line(alloc, files, words.word()))?;
    let failed = files.failed().len();
    Ok(format!(in alloc; "{line}; {failed} failed")?)
}

/// Whether two crates are equal, their first versions, and their last.
fn same_line(alloc: Global, one: &IndexKrate, other: &IndexKrate) -> Result<String, RowFault> {
    let is_same = *one == *other;
    let first = one.versions.as_slice().first() == other.versions.as_slice().first();
    let last = one.versions.as_slice().last() == other.versions.as_slice().last();
    Ok(format!(in alloc; "{is_same} {first} {last}")?)
}

/// The same, where the second one is that of a body.
fn same_as(alloc: Global, one: &IndexKrate, body: &[u8]) -> Result<String, RowFault> {
    match asked(alloc, IndexKrate::from_slice(alloc, body)) {
        Ok(other) => same_line(alloc, one, &other),
        Err(fault) => Err(fault),
    }
}

/// `same BODY BODY`: whether two crates are equal, their first versions, and their last.
pub fn same(alloc: Global, mut words: Row<'_>) -> Result<String, RowFault> {
    let one = body_of(alloc, words.word())?;
    let other = body_of(alloc, words.word())?;
    match asked(alloc, IndexKrate::from_slice(alloc, one.as_slice())) {
        Ok(one) => same_as(alloc, &one, other.as_slice()),
        Err(fault) => Err(fault),
    }
}

/// `kind`: the kind of a dependency that names none.
pub fn kind(alloc: Global) -> Result<String, RowFault> {
    let kind = DependencyKind::default();
    Ok(format!(in alloc; "{kind:?}")?)
}
