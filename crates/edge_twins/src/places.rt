//! The places of a host that calls are made for.
use crate::steps::Step;
use std::alloc::Global;
use std::io;

/// The longest name that a folder takes has this many bytes.
const NAME_LEN: usize = 255;

/// A name of some bytes.
pub fn long_name(alloc: Global, len: usize) -> io::Result<String> {
    let mut name = String::new(alloc);
    for _ in 0..len {
        name.push('n')?;
    }
    Ok(name)
}

/// Whether a name of a path is longer than a folder takes, or the path than the system does.
pub fn is_too_long(path: &str) -> bool {
    if path.len() >= 4096 {
        return true;
    }
    for name in path.split('/') {
        if name.len() > NAME_LEN {
            return true;
        }
    }
    false
}

/// The places that are compared after each step, in front, and behind them those that calls are
/// made for besides.
pub const PLACES: [&str; 13] = [
    "a", "a/b", "a/b/c", "a/d", "b", "b/a", "l", "l/x", "q~", "é \n", "N", "NN", "a/NN",
];

/// The number of the link among the paths of all places.
pub const LINK: usize = 7;

/// How many paths are compared after each step.
pub const CHECKED: usize = 14;

/// Paths that are given as they are.
pub const BARE: [&str; 5] = ["", "/", "//", "a\0b", "NNN"];

/// A place by name: `N` is a name as long as one may be, `NN` one that is too long, `NNN` a path
/// that is.
fn named(alloc: Global, name: &str, slash: &str) -> io::Result<String> {
    match name {
        "N" => long_name(alloc, NAME_LEN),
        "NN" => long_name(alloc, 256),
        "a/NN" => Ok(format!(in alloc; "a{slash}{}", long_name(alloc, 256)?)?),
        "NNN" => Ok(format!(in alloc; "{}/b", long_name(alloc, 5000)?)?),
        _ => {
            let mut whole = String::new(alloc);
            for (at, part) in name.split('/').enumerate() {
                if at > 0 {
                    whole.push_str(slash)?;
                }
                whole.push_str(part)?;
            }
            Ok(whole)
        }
    }
}

/// How the places of a sequence are written: a folder, with a slash behind it, and slashes
/// between names.
#[derive(Drop)]
pub struct Spelling {
    pub front: String,
    pub slash: &'static str,
}

/// The spelling of a number, for places below a base with this whole path.
pub fn spelled(alloc: Global, number: u64, base: &str) -> io::Result<Spelling> {
    let front = match number % 4 {
        0 => String::new(alloc),
        1 => String::from_str(alloc, "./")?,
        2 => String::from_str(alloc, "aside/../")?,
        _ => format!(in alloc; "{base}/")?,
    };
    let slash = if number % 3 == 2 { "//" } else { "/" };
    Ok(Spelling { front, slash })
}

/// The paths of all places: first the folder that they lie in, last those that are given as they
/// are.
pub fn paths_of(alloc: Global, spelling: &Spelling) -> io::Result<Vec<String>> {
    let mut paths = Vec::new(alloc);
    let front = spelling.front.as_str();
    paths.push(String::from_str(alloc, front.strip_suffix('/').unwrap_or(front))?)?;
    for name in PLACES {
        let name = named(alloc, name, spelling.slash)?;
        paths.push(format!(in alloc; "{front}{name}")?)?;
    }
    for name in BARE {
        paths.push(named(alloc, name, "/")?)?;
    }
    Ok(paths)
}

/// The path of a step, with the slashes at its end that it asks for.
pub fn path_of(alloc: Global, paths: &[String], step: &Step) -> io::Result<String> {
    let Some(path) = paths.get(step.place) else {
        return Ok(String::new(alloc));
    };
    let mut path = path.clone()?;
    if !path.as_str().is_empty() {
        for _ in 0..step.other % 4 {
            path.push('/')?;
        }
    }
    Ok(path)
}
