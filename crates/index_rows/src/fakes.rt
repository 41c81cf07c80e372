//! Crates that are made of a name and a version alone.
use row_fixtures::RowFault;
use std::alloc::Global;
use tame_names::Items;
use tame_records::{IndexKrate, IndexVersion};

/// A crate of one version.
pub fn fake_krate(alloc: Global, name: &str, version: &str) -> Result<IndexKrate, RowFault> {
    let fake = IndexVersion::fake(alloc, name, version)?;
    let mut versions = Items::new(alloc);
    versions.add(fake)?;
    Ok(IndexKrate { versions })
}
