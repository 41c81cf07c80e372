//! How calls that write change the files in memory. What is new is at the front, where it counts
//! before what was there.
ghost use Rattle.std.specs.Prelude.{◌≡◌, ◌≢◌, ◌<◌, ◌++◌, ◌∷◌, [], ℕ, List, length, slice_index, take, true, false, Some, Ok, IfOk, OnOk, OnErr, option_map};
ghost use Rattle.tame_names.specs.Changes.{AreFolders, is_folder, with_folder_at, with_folders_at, with_gain, with_standing};
ghost use Rattle.tame_names.specs.Changes as spec;
ghost use Rattle.tame_names.specs.MemoryFiles.{node_standing, standing_in};
ghost use Rattle.tame_names.specs.Paths as paths_spec;

use crate::errors::NoMemory;
use crate::host::{Listed, PathKind};
use crate::lists::Items;
use crate::memory_nodes::{MemFile, MemNode, entries_at, kind_at};
use crate::paths::{file_name, parent};
use crate::texts::Text;
use std::alloc::Global;

/// Whether a file can be created in a folder.
fn can_hold(files: &[MemFile], folder: Option<&str>) -> bool
    ensures { result
        ≡ spec.can_hold (option_map (λ path. path.now) folder.entry) (standing_in files.now) }
{
    match folder {
        None => false,
        Some(folder) => folder.is_empty() || kind_at(files, folder) == PathKind::Folder,
    }
}

/// Whether a file can be created at a path.
pub(crate) fn can_create(files: &[MemFile], path: &str) -> bool
    ensures { result ≡ spec.can_create path.now (standing_in files.now) }
{
    match kind_at(files, path) {
        PathKind::Absent => can_hold(files, parent(path)),
        PathKind::File | PathKind::Folder | PathKind::Other => false,
    }
}

/// A folder with these entries and that of what was added at a path.
fn folder_node(
    alloc: Global,
    folder: &str,
    mut entries: Items<Listed>,
    path: &str,
    file: bool,
) -> Result<MemFile, NoMemory>
    ensures { IfOk result (λ made. made ≡ record {
      path = folder.now;
      node = MemNode.Folder (entries
          ++ record { name = Some (paths_spec.file_name path.now); file = file } ∷ []);
    }) }
{
    let name = Some(Text::of(alloc, file_name(path))?);
    entries.add(Listed { name, file })?;
    Ok(MemFile {
        path: Text::of(alloc, folder)?,
        node: MemNode::Folder(entries),
    })
}

/// The folder that a path is in, with one entry more, if a folder is there.
fn folder_with(
    alloc: Global,
    files: &[MemFile],
    path: &str,
    file: bool,
) -> Result<Items<MemFile>, NoMemory>
    ensures { IfOk result (λ front. (q : List ℕ) → standing_in (front ++ files.now) q
        ≡ with_gain path.now
        (record { name = Some (paths_spec.file_name path.now); file = file })
        (standing_in files.now) q) }
{
    let mut front = Items::new(alloc);
    let Some(folder) = parent(path) else {
        return Ok(front);
    };
    match entries_at(alloc, files, folder)? {
        None => Ok(front),
        Some(entries) => {
            front.add(folder_node(alloc, folder, entries, path, file)?)?;
            Ok(front)
        }
    }
}

/// What changes if something is added at a path: the folder that it is in, if nothing was there.
fn gains(
    alloc: Global,
    files: &[MemFile],
    path: &str,
    file: bool,
) -> Result<Items<MemFile>, NoMemory>
    ensures { IfOk result (λ front. (q : List ℕ) → standing_in (front ++ files.now) q
        ≡ spec.with_gain_if (spec.is_nothing (standing_in files.now path.now)) path.now
        (record { name = Some (paths_spec.file_name path.now); file = file })
        (standing_in files.now) q) }
{
    if kind_at(files, path) == PathKind::Absent {
        folder_with(alloc, files, path, file)
    } else {
        Ok(Items::new(alloc))
    }
}

fn is_file(node: &MemNode) -> bool
    ensures { result ≡ spec.is_file (node_standing node.now) }
{
    matches!(node, MemNode::File(_))
}

/// Puts something at a path.
pub(crate) fn place(
    alloc: Global,
    files: &mut Items<MemFile>,
    path: &str,
    node: MemNode,
) -> Result<(), NoMemory>
    ensures ok { OnOk result (standing_in files.new
        ≡ with_standing path.now (node_standing node) (standing_in files.old)) }
    ensures same { OnErr result (files.new ≡ files.old) }
{
    let mut gained = gains(alloc, files.as_slice(), path, is_file(&node))?;
    let mut front = Items::new(alloc);
    front.add(MemFile {
        path: Text::of(alloc, path)?,
        node,
    })?;
    gained.add_front(front)?;
    files.add_front(gained)?;
    Ok(())
}

/// Creates an empty folder at a path if nothing is there; answers whether a folder is there then.
fn add_folder(alloc: Global, files: &mut Items<MemFile>, path: &str) -> Result<bool, NoMemory>
    ensures ok { OnOk result
        (standing_in files.new ≡ with_folder_at path.now (standing_in files.old)) }
    ensures there { IfOk result (λ there. there
        ≡ is_folder (with_folder_at path.now (standing_in files.old) path.now)) }
    ensures same { OnErr result (files.new ≡ files.old) }
{
    match kind_at(files.as_slice(), path) {
        PathKind::Absent => {
            place(alloc, files, path, MemNode::Folder(Items::new(alloc)))?;
            Ok(true)
        }
        PathKind::Folder => Ok(true),
        PathKind::File | PathKind::Other => Ok(false),
    }
}

/// Creates folders at these paths, up to the first at which something else is, and answers whether
/// there are folders at all of them.
pub(crate) fn add_folders(
    alloc: Global,
    files: &mut Items<MemFile>,
    paths: &[Text],
) -> Result<bool, NoMemory>
    ensures all { result ≡ Ok true
        → standing_in files.new ≡ with_folders_at paths.now (standing_in files.old) }
    ensures were { result ≡ Ok true → AreFolders paths.now (standing_in files.old) }
    ensures part { (n : ℕ) × (standing_in files.new
        ≡ with_folders_at (take n paths.now) (standing_in files.old)) }
    ensures can { AreFolders paths.now (standing_in files.old) → result ≢ Ok false }
{
    for path in paths {
        if !add_folder(alloc, files, path.as_str())? {
            return Ok(false);
        }
    }
    Ok(true)
}

/// The part of a path that ends before a `/` at this position.
fn way_to(path: &str, at: usize) -> &str
    requires within { at < length path.now }
    requires slash { slice_index path.now at ≡ 47 }
    ensures { result.now ≡ paths_spec.way_to at path.now }
{
    if at == 0 { "/" } else { &path[..at] }
}

/// The paths of the folders on the way to a path, and last the path itself.
pub(crate) fn ways_to(alloc: Global, path: &str) -> Result<Items<Text>, NoMemory>
    ensures { IfOk result (λ ways. ways ≡ paths_spec.ways_to path.now) }
{
    let mut ways = Items::new(alloc);
    for (at, byte) in path.as_bytes().iter().enumerate() {
        if *byte == b'/' {
            ways.add(Text::of(alloc, way_to(path, at))?)?;
        }
    }
    if !path.is_empty() {
        ways.add(Text::of(alloc, path)?)?;
    }
    Ok(ways)
}
