//! Disks and files in memory.
use crate::faults::{RowFault, asked};
use std::alloc::{AllocError, Global};
use tame_cache::MemCacheDisk;
use tame_names::{
    EnvValue, Items, Listed, MemFile, MemFiles, MemNode, MemVariable, NoMemory, Text,
};
use tame_sparse::{CRATES_IO_HTTP_INDEX, SparseIndex};

/// The cache file of the crate `a`.
pub const FLAGGED_FILE: &str = ".cache/1/a";

/// A disk without files, of which the calls with these numbers fail, counted from 1.
pub fn disk_failing(alloc: Global, failing: Vec<u64>) -> MemCacheDisk {
    MemCacheDisk::new(alloc, failing)
}

/// A disk whose file of the crate `a` has these bytes, of which the calls with these numbers fail,
/// counted from 1.
pub fn disk_with(alloc: Global, bytes: &[u8], failing: Vec<u64>) -> Result<MemCacheDisk, RowFault> {
    let mut disk = MemCacheDisk::new(alloc, failing);
    disk.put_file(alloc, FLAGGED_FILE, bytes)?;
    Ok(disk)
}

/// From now the n-th call of a disk fails, counted from 1, and each later one.
pub fn stop(disk: &mut MemCacheDisk, n: u64) {
    disk.stop_at(n);
}

/// What a crash leaves of a disk, by the pick of `MemCacheDisk::after_crash`.
pub fn crashed(alloc: Global, disk: MemCacheDisk, pick: u8) -> Result<MemCacheDisk, RowFault> {
    Ok(disk.after_crash(alloc, pick)?)
}

/// Numbers as a list.
pub fn numbers(list: Vec<u64>) -> Items<u64> {
    Items::of(list)
}

/// Files of which one stands at a path, where one is given; the reads with these numbers fail,
/// counted from 1.
pub fn files_with(
    alloc: Global,
    file: Option<(&str, &[u8])>,
    failing: Vec<u64>,
) -> Result<MemFiles, RowFault> {
    let mut there = Items::new(alloc);
    if let Some((path, bytes)) = file {
        there.add(MemFile {
            path: Text::of(alloc, path)?,
            node: MemNode::File(Items::copied(alloc, bytes)?),
        })?;
    }
    Ok(MemFiles::new(alloc, there, Items::of(failing)))
}

/// What stands at a path.
#[derive(Drop)]
pub struct Laid {
    /// The path.
    pub path: String,
    /// What is there.
    pub node: LaidNode,
}

/// A file by its bytes, or a folder by the names in it; a name that ends with `/` is a folder's.
#[derive(Drop)]
pub enum LaidNode {
    /// The bytes of a file.
    File(Vec<u8>),
    /// The names in a folder.
    Folder(Vec<String>),
}

fn listed(alloc: Global, names: &[String]) -> Result<Items<Listed>, RowFault> {
    let mut entries = Items::new(alloc);
    for name in names {
        let (name, file) = match name.as_str().strip_suffix('/') {
            Some(folder) => (folder, false),
            None => (name.as_str(), true),
        };
        let name = Some(Text::of(alloc, name)?);
        entries.add(Listed { name, file })?;
    }
    Ok(entries)
}

/// The node that is laid.
fn node_of(alloc: Global, laid: &LaidNode) -> Result<MemNode, RowFault> {
    match laid {
        LaidNode::File(bytes) => Ok(MemNode::File(Items::copied(alloc, bytes.as_slice())?)),
        LaidNode::Folder(names) => Ok(MemNode::Folder(listed(alloc, names.as_slice())?)),
    }
}

/// Adds what stands at a path.
fn add_laid(alloc: Global, there: &mut Items<MemFile>, laid: &Laid) -> Result<(), RowFault> {
    let path = Text::of(alloc, laid.path.as_str())?;
    let node = node_of(alloc, &laid.node)?;
    Ok(there.add(MemFile { path, node })?)
}

/// What stands.
fn files_of(alloc: Global, laid: &[Laid]) -> Result<Items<MemFile>, RowFault> {
    let mut there = Items::new(alloc);
    for one in laid {
        add_laid(alloc, &mut there, one)?;
    }
    Ok(there)
}

/// Adds a variable of the environment.
fn add_variable(
    alloc: Global,
    environment: &mut Items<MemVariable>,
    name: &str,
    value: &str,
) -> Result<(), NoMemory> {
    let name = Text::of(alloc, name)?;
    let value = EnvValue::Value(Text::of(alloc, value)?);
    environment.add(MemVariable { name, value })
}

/// Variables of the environment.
fn environment_of(
    alloc: Global,
    variables: &[(String, String)],
) -> Result<Items<MemVariable>, NoMemory> {
    let mut environment = Items::new(alloc);
    for (name, value) in variables {
        add_variable(alloc, &mut environment, name.as_str(), value.as_str())?;
    }
    Ok(environment)
}

/// A host where all of these stand, and these variables; the calls with these numbers fail, counted
/// from 1.
pub fn host_with(
    alloc: Global,
    laid: &[Laid],
    variables: &[(String, String)],
    failing: Vec<u64>,
) -> Result<MemFiles, RowFault> {
    let environment = environment_of(alloc, variables)?;
    let there = files_of(alloc, laid)?;
    Ok(MemFiles::new(alloc, there, Items::of(failing)).with_variables(environment))
}

/// The sparse index of crates.io, with its cache below a folder.
pub fn crates_io_index(alloc: Global, folder: &str) -> Result<SparseIndex, RowFault> {
    let folder = Text::of(alloc, folder)?;
    asked(alloc, SparseIndex::at(alloc, folder, CRATES_IO_HTTP_INDEX))
}
