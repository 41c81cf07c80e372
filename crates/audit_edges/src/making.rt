//! Folders and files that are created.
use crate::calls::{look_through, make_folder, open};
use crate::reading::without_last_slashes;
use std::fs::OpenOptions;
use std::io::{self, ErrorKind, Write};
use std::rt::Files;

/// Creates a folder if nothing is there. What is there already must be a folder, or lead to one.
fn make_one<R: Files>(rt: &R, place: &str) -> io::Result<()> {
    match make_folder(rt, place) {
        Err(error) if error.kind() != ErrorKind::NotFound => match look_through(rt, place) {
            Ok(found) if found.is_dir() => Ok(()),
            _ => Err(error),
        },
        done => done,
    }
}

/// Creates the folder at a path and those on the way to it that are missing. A path that ends with
/// a slash means the path without it; the empty path is the current folder, which is there.
pub fn make_folders<R: Files>(rt: &R, path: &str) -> io::Result<()> {
    let path = without_last_slashes(path);
    if path.is_empty() {
        return Ok(());
    }
    match make_one(rt, path) {
        Err(error) if error.kind() == ErrorKind::NotFound => {}
        done => return done,
    }
    for end in 1..path.len() {
        match path.split_at_checked(end) {
            Some((way, rest)) if rest.starts_with('/') => make_one(rt, way)?,
            _ => {}
        }
    }
    make_one(rt, path)
}

/// Creates the file at a path, with these bytes. What is there already stays, a link too. A path
/// that ends with a slash means the path without it.
pub fn make_file<R: Files>(rt: &R, path: &str, bytes: &[u8]) -> io::Result<()> {
    let mut how = OpenOptions::new();
    how.write(true);
    how.create_new(true);
    let mut file = open(rt, &how, without_last_slashes(path))?;
    file.write_all(bytes)
}
