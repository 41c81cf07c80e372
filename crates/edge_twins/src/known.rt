//! The calls that the real object is known to refuse, and to count as a fault, where the one in
//! memory, which is told paths alone, answers otherwise. All of them stand here.
use crate::host::Host;
use crate::places::is_too_long;
use crate::steps::Act;
use std::fs;
use std::io::{self, ErrorKind};

/// Where a link leads.
#[derive(Clone, Copy, PartialEq, Eq)]
enum Led {
    /// Somewhere, or no link is there.
    Somewhere,
    Nowhere,
    /// Back to itself.
    Itself,
}

fn where_led(host: &Host, path: &str) -> io::Result<Led> {
    let place = host.place(path)?;
    match fs::symlink_metadata(host.rt, place.as_str()) {
        Ok(found) if found.is_symlink() => {}
        _ => return Ok(Led::Somewhere),
    }
    match fs::metadata(host.rt, place.as_str()) {
        Err(error) if error.kind() == ErrorKind::FilesystemLoop => Ok(Led::Itself),
        Err(_) => Ok(Led::Nowhere),
        Ok(_) => Ok(Led::Somewhere),
    }
}

/// Whether the real host alone refuses a call on a path. The link of its places is `link`.
pub fn is_refused(host: &Host, act: Act, path: &str, link: &str) -> io::Result<bool> {
    let path = path.trim_end_matches('/');
    // no system has a name with a NUL in it
    if path.contains('\0') {
        return Ok(true);
    }
    // there is no file, nor below it, that a link back to itself leads to
    let is_link = path == link;
    if (is_link || path.starts_with(link)) && where_led(host, link)? == Led::Itself {
        return Ok(true);
    }
    match act {
        // nothing is there, and nothing can be made
        Act::MakeFolders | Act::Create if is_too_long(path) => Ok(true),
        // nothing is where the link leads, and the link is there
        Act::MakeFolders if path.starts_with(link) => Ok(where_led(host, link)? == Led::Nowhere),
        Act::Create if is_link && where_led(host, link)? == Led::Nowhere => Ok(true),
        _ => Ok(false),
    }
}
