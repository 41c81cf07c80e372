//! The entries of a folder, and what is at a path, following links.
use crate::calls::{look_through, open_folder};
use crate::reading::{is_absent, made, without_last_slashes};
use std::alloc::Global;
use std::fs::DirEntry;
use std::io::{self, ErrorKind};
use std::rt::Files;
use tame_names::{Items, Listed, PathKind, Text};

/// What is at a path, following links. A link that leads nowhere is absent. A path that ends with a
/// slash means the path without it.
pub fn kind_of<R: Files>(rt: &R, path: &str) -> io::Result<PathKind> {
    match look_through(rt, without_last_slashes(path)) {
        Ok(found) if found.is_file() => Ok(PathKind::File),
        Ok(found) if found.is_dir() => Ok(PathKind::Folder),
        Ok(_) => Ok(PathKind::Other),
        Err(error) if is_absent(error.kind()) => Ok(PathKind::Absent),
        Err(error) => Err(error),
    }
}

/// Whether an entry leads to a file. One that is no longer there doesn't, nor does a link that
/// leads nowhere or back to itself.
fn leads_to_file<R: Files>(rt: &R, place: &str) -> io::Result<bool> {
    match look_through(rt, place) {
        Ok(found) => Ok(found.is_file()),
        Err(error) if is_absent(error.kind()) => Ok(false),
        Err(error) if error.kind() == ErrorKind::FilesystemLoop => Ok(false),
        Err(error) => Err(error),
    }
}

/// An entry with its name. If std returns an error of its own for it, its name isn't UTF-8, and
/// what it leads to can't be asked for.
fn listed<R: Files + AllocGlobal>(
    rt: &R,
    alloc: Global,
    entry: io::Result<DirEntry<&R>>,
) -> io::Result<Listed> {
    match entry {
        Ok(entry) => Ok(Listed {
            file: leads_to_file(rt, entry.path().as_str())?,
            name: Some(made(Text::of(alloc, entry.file_name()))?),
        }),
        Err(error)
            if error.kind() == ErrorKind::InvalidFilename && error.raw_os_error().is_none() => {
            Ok(Listed {
                name: None,
                file: false,
            })
        }
        Err(error) => Err(error),
    }
}

/// The entries of the folder at a path, if one is there; a listing may be interrupted.
fn listed_once<R: Files + AllocGlobal>(
    rt: &R,
    alloc: Global,
    path: &str,
) -> io::Result<Option<Items<Listed>>> {
    let folder = match open_folder(rt, path) {
        Ok(folder) => folder,
        Err(error) if is_absent(error.kind()) => return Ok(None),
        Err(error) => return Err(error),
    };
    let mut entries = Items::new(alloc);
    for entry in folder {
        let entry = listed(rt, alloc, entry)?;
        made(entries.add(entry))?;
    }
    Ok(Some(entries))
}

/// The entries of the folder at a path, following a link there; nothing if no folder is there. An
/// interrupted listing begins again. A path that ends with a slash means the path without it.
pub fn list_folder<R: Files + AllocGlobal>(
    rt: &R,
    alloc: Global,
    path: &str,
) -> io::Result<Option<Items<Listed>>> {
    let path = without_last_slashes(path);
    for _ in 0..u64::MAX {
        match listed_once(rt, alloc, path) {
            Err(error) if error.kind() == ErrorKind::Interrupted => {}
            done => return done,
        }
    }
    Err(io::Error::from(ErrorKind::Interrupted))
}
