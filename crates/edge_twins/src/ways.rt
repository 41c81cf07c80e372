//! Where a path below a folder leads, when no link is followed, as std finds it.
use crate::host::Host;
use std::{fs, io};

/// What is on the way to a path below a folder.
#[derive(Clone, Copy, PartialEq, Eq)]
pub enum Way {
    /// A file is there.
    File,
    /// Nothing is there, and its folder is.
    Free,
    /// Nothing is there, nor its folder.
    Homeless,
    /// A name is empty, `.`, `..` or none, or something else than folders and a file is there.
    Refused,
}

fn is_name(name: &str) -> bool {
    !matches!(name, "" | "." | "..") && !name.contains('\0')
}

/// What is at a place whose folder is there, as a way to it.
fn way_at(host: &Host, place: &str) -> Option<Way> {
    match fs::symlink_metadata(host.rt, place) {
        Ok(found) if found.is_dir() => None,
        Ok(found) if found.is_file() => Some(Way::File),
        Ok(_) => Some(Way::Refused),
        Err(_) => Some(Way::Free),
    }
}

/// The way to a path below a folder.
pub fn way_to(host: &Host, folder: &str, path: &str) -> io::Result<Way> {
    let mut place = host.place(folder)?;
    let mut found = match fs::metadata(host.rt, place.as_str()) {
        Ok(_) => None,
        Err(_) => Some(Way::Homeless),
    };
    for name in path.split('/') {
        if !is_name(name) {
            return Ok(Way::Refused);
        }
        place = format!(in host.rt.alloc(); "{place}/{name}")?;
        found = match found {
            None => way_at(host, place.as_str()),
            Some(Way::Refused) => Some(Way::Refused),
            _ => Some(Way::Homeless),
        };
        if name.len() > 255 && found == Some(Way::Free) {
            found = Some(Way::Homeless);
        }
    }
    Ok(found.unwrap_or(Way::Refused))
}

/// Whether the folders above a path below a folder are there, or can be made.
pub fn has_way_above(host: &Host, folder: &str, path: &str) -> io::Result<bool> {
    let Some((above, _)) = path.rsplit_once('/') else {
        return Ok(true);
    };
    let mut place = host.place(folder)?;
    let mut is_there = true;
    for name in above.split('/') {
        if !is_name(name) || name.len() > 255 {
            return Ok(false);
        }
        place = format!(in host.rt.alloc(); "{place}/{name}")?;
        if is_there {
            match way_at(host, place.as_str()) {
                None => {}
                Some(Way::Free) => is_there = false,
                Some(_) => return Ok(false),
            }
        }
    }
    Ok(true)
}

/// Where a path below a folder leads.
pub fn below(host: &Host, folder: &str, path: &str) -> io::Result<String> {
    let folder = host.place(folder)?;
    Ok(format!(in host.rt.alloc(); "{folder}/{path}")?)
}
