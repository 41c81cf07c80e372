//! What is below a folder. No link is followed there, and only plain files are opened.
ghost use Rattle.std.specs.Prelude.{◌≡◌};

use crate::calls::{look, look_at_opened, open};
use crate::reading::{is_absent, made, read_within};
use std::alloc::Global;
use std::collections::BTreeSet;
use std::fs::{Metadata, OpenOptions};
use std::io::{self, ErrorKind, Read};
use std::os::unix::fs::MetadataExt;
use std::rt::Files;
use tame_names::{ReadAnswer, Text, join};

/// What is at a path.
#[derive(Drop)]
pub enum Found {
    /// There is nothing.
    Nothing,
    /// There is a folder.
    Folder,
    /// There is a file, of which this is known.
    File(Metadata),
}

/// The path of something in a folder.
pub fn joined(alloc: Global, folder: &str, name: &str) -> io::Result<Text> {
    made(join(alloc, folder, name))
}

/// The path of something that is in a folder, and not above or at it.
pub fn inside(alloc: Global, folder: &str, name: &str) -> io::Result<Text> {
    if matches!(name, "" | "." | "..") {
        return Err(io::Error::from(ErrorKind::InvalidInput));
    }
    joined(alloc, folder, name)
}

/// What is at a path, without following a link; anything but a folder and a file is an error.
pub fn found_at<R: Files>(rt: &R, place: &str) -> io::Result<Found> {
    match look(rt, place) {
        Ok(found) if found.is_dir() => Ok(Found::Folder),
        Ok(found) if found.is_file() => Ok(Found::File(found)),
        Ok(_) => Err(io::Error::from(ErrorKind::InvalidInput)),
        Err(error) if is_absent(error.kind()) => Ok(Found::Nothing),
        Err(error) => Err(error),
    }
}

/// Where a path below a folder leads, and the file that is there, if there is one.
#[derive(Drop)]
pub struct Below {
    /// The path.
    pub place: Text,
    /// What is known of the file there; none if there is none.
    pub file: Option<Metadata>,
}

/// A file that was opened to be read, and what was found there before.
#[derive(Drop)]
pub struct OpenedToRead<F: Drop> {
    /// The file.
    pub file: F,
    /// What was known of it before it was opened.
    pub found: Metadata,
}

/// Whether two looks saw the same file, as long as it is open.
pub fn is_same(first: &Metadata, second: &Metadata) -> bool {
    first.dev() == second.dev() && first.ino() == second.ino()
}

/// An error if a file has more than `limit` bytes.
pub fn check_limit(found: &Metadata, limit: u64) -> io::Result<()> {
    if found.len() > limit {
        return Err(io::Error::from(ErrorKind::FileTooLarge));
    }
    Ok(())
}

/// Opens the file that was found at a path, if it has at most `limit` bytes and no other one has
/// come there since.
pub fn open_found<R: Files>(
    rt: &R,
    place: &str,
    found: &Metadata,
    how: &OpenOptions,
    limit: u64,
) -> io::Result<R::File> {
    check_limit(found, limit)?;
    let file = open(rt, how, place)?;
    let opened = look_at_opened(&file)?;
    if opened.is_file() && is_same(&opened, found) {
        Ok(file)
    } else {
        Err(io::Error::from(ErrorKind::InvalidInput))
    }
}

/// Opens the file that was found at a path to be read, as `open_found` does.
pub fn open_to_read<R: Files>(
    rt: &R,
    place: &str,
    found: Metadata,
    limit: u64,
) -> io::Result<OpenedToRead<R::File>> {
    let mut how = OpenOptions::new();
    how.read(true);
    Ok(OpenedToRead {
        file: open_found(rt, place, &found, &how, limit)?,
        found,
    })
}

/// A folder, with what is known of those below it. One that was found there to be a folder isn't
/// looked at again.
#[derive(Drop)]
pub struct Root<'a, R: Files + AllocGlobal> {
    rt: &'a R,
    /// The path of the folder.
    pub folder: &'a str,
    /// The paths of the folders that were found below the folder.
    known: BTreeSet<Text>,
}

impl<'a, R: Files + AllocGlobal> Root<'a, R> {
    /// A folder, with nothing known of those below it.
    pub fn new(rt: &'a R, folder: &'a str) -> Root<'a, R>
        ensures { result.folder.now ≡ folder.now }
    {
        Root {
            rt,
            folder,
            known: BTreeSet::new(rt.alloc()),
        }
    }

    /// Notes that a folder is at a path.
    pub fn note_folder(&mut self, place: &str) -> io::Result<()> {
        let place = made(Text::of(self.rt.alloc(), place))?;
        match self.known.insert(place) {
            Ok(_) => Ok(()),
            Err(_) => Err(io::Error::from(ErrorKind::OutOfMemory)),
        }
    }

    /// Whether a folder is at a path.
    fn is_folder(&mut self, place: &Text) -> io::Result<bool> {
        if self.known.contains(place) {
            return Ok(true);
        }
        match found_at(self.rt, place.as_str())? {
            Found::Folder => {
                self.note_folder(place.as_str())?;
                Ok(true)
            }
            _ => Ok(false),
        }
    }

    /// Whether folders that were found before are still there.
    pub fn still_has(&self, folders: &str) -> io::Result<bool> {
        let place = joined(self.rt.alloc(), self.folder, folders)?;
        if !self.known.contains(&place) {
            return Ok(false);
        }
        Ok(matches!(found_at(self.rt, place.as_str())?, Found::Folder))
    }

    /// The path of folders, and whether they are there. Each is looked at; below a file and below
    /// nothing there is none.
    fn way(&mut self, folders: &str) -> io::Result<(Text, bool)> {
        let alloc = self.rt.alloc();
        let whole = joined(alloc, self.folder, folders)?;
        if self.known.contains(&whole) {
            return Ok((whole, true));
        }
        let mut place = joined(alloc, self.folder, "")?;
        let mut is_there = true;
        for name in folders.split('/') {
            place = inside(alloc, place.as_str(), name)?;
            is_there = is_there && self.is_folder(&place)?;
        }
        Ok((place, is_there))
    }

    /// The file at a path.
    pub fn file(&mut self, path: &str) -> io::Result<Below> {
        let alloc = self.rt.alloc();
        let ((above, is_there), name) = match path.rsplit_once('/') {
            Some((folders, name)) => (self.way(folders)?, name),
            None => ((joined(alloc, self.folder, "")?, true), path),
        };
        let place = inside(alloc, above.as_str(), name)?;
        if !is_there {
            return Ok(Below { place, file: None });
        }
        match found_at(self.rt, place.as_str())? {
            Found::Nothing => Ok(Below { place, file: None }),
            Found::File(file) => Ok(Below {
                place,
                file: Some(file),
            }),
            Found::Folder => Err(io::Error::from(ErrorKind::IsADirectory)),
        }
    }

    /// Opens the file that was found at a path to be read, if there is one. One of more than
    /// `limit` bytes is an error.
    pub fn open(&self, below: Below, limit: u64) -> io::Result<Option<OpenedToRead<R::File>>> {
        let Some(found) = below.file else {
            return Ok(None);
        };
        let opened = open_to_read(self.rt, below.place.as_str(), found, limit)?;
        Ok(Some(opened))
    }

    /// The bytes of the file at a path, if there is one. One of more than `limit` bytes is an
    /// error.
    pub fn read(&mut self, alloc: Global, path: &str, limit: u64) -> io::Result<Option<Vec<u8>>> {
        let below = self.file(path)?;
        let Some(mut opened) = self.open(below, limit)? else {
            return Ok(None);
        };
        let len = opened.found.len();
        let bytes = read_whole(alloc, &mut opened.file, len, limit)?;
        Ok(Some(bytes))
    }
}

/// The bytes of an opened file, of which `expected` should come. More than `limit` are an error.
pub fn read_whole<F: Read>(
    alloc: Global,
    file: &mut F,
    expected: u64,
    limit: u64,
) -> io::Result<Vec<u8>> {
    match read_within(alloc, file, expected, limit)? {
        ReadAnswer::Whole(bytes) => Ok(bytes),
        _ => Err(io::Error::from(ErrorKind::FileTooLarge)),
    }
}
