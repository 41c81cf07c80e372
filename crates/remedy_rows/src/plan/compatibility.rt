//! Versions that are compatible with others.
use audit_advisory::compatible;
use row_fixtures::{Row, RowFault};
use semver::Version;
use std::alloc::Global;

fn version_of(alloc: Global, text: &str) -> Result<Version, RowFault> {
    match Version::parse(alloc, text) {
        Ok(version) => Ok(version),
        Err(_) => Err(RowFault::Unread),
    }
}

/// `compatible LOCKED OTHER`
pub fn compatible_of(alloc: Global, mut words: Row<'_>) -> Result<String, RowFault> {
    let line = words.rest();
    let locked = version_of(alloc, words.word())?;
    let other = version_of(alloc, words.word())?;
    let word = if compatible(&locked, &other) {
        "yes"
    } else {
        "no"
    };
    Ok(format!(in alloc; "{line}: {word}")?)
}
