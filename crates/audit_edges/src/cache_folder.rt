//! The files of a cache folder. Each is written by one descriptor, and synced with the folders in
//! which something was created.
ghost use Rattle.std.specs.Prelude.{◌≡◌};

use crate::below::{
    Found, OpenedToRead, Root, check_limit, found_at, inside, is_same, joined, open_found,
    open_to_read, read_whole,
};
use crate::calls::{first_byte, look_at_opened, look_through, make_folder, open, set_len, sync};
use crate::reading::{FromStart, made};
use crate::waiting::Waiting;
use std::alloc::Global;
use std::fs::{OpenFile, OpenOptions};
use std::io::{self, ErrorKind};
use std::mem;
use std::os::unix::fs::FileExt;
use std::rt::Files;
use tame_cache::Peek;
use tame_names::{Items, Text};

/// The largest file of a cache that is opened, in bytes: 256 MiB.
pub const CACHE_LIMIT: u64 = 268435456;

/// An open file of the cache. Writes use the descriptor that is synced afterwards.
#[derive(Drop)]
struct OpenedFile<F: Drop> {
    path: Text,
    file: F,
    /// Whether all that was in it before it was opened is on the disk.
    is_settled: bool,
}

/// The files of a cache folder.
#[derive(Drop)]
pub struct CacheFolder<'a, R: Files + AllocGlobal> {
    rt: &'a R,
    /// The folder, with what is known of those below it.
    pub root: Root<'a, R>,
    /// The file that was written or synced last.
    opened: Option<OpenedFile<R::File>>,
    /// What was written to it last, and isn't in it yet.
    waiting: Waiting,
    /// The file that was read last.
    read: Option<OpenedToRead<R::File>>,
    /// The folders in which something was created since they were synced.
    unsynced: Items<Text>,
    /// Whether a sync has failed: of the open file, or of its folders. From then on nothing is
    /// written, and that file isn't read.
    has_failed: bool,
}

/// The folder that contains a path.
fn above(place: &str) -> &str {
    match place.rsplit_once('/') {
        Some(("", _)) => "/",
        Some((above, _)) => above,
        None => ".",
    }
}

/// Writes a closed gate once more. After a failed sync of another process the system may hold the 0
/// only in memory, and count it as written; now it goes to the disk by this descriptor. A gate that
/// isn't closed isn't written, so none is ever opened here.
fn close_again<F: FileExt>(file: &F) -> io::Result<()> {
    match first_byte(file)? {
        Some(0) => file.write_all_at(&[0], 0),
        _ => Ok(()),
    }
}

impl<'a, R: Files + AllocGlobal> CacheFolder<'a, R>
where
    R::File: FileExt,
{
    /// The files of a folder.
    pub fn new(rt: &'a R, folder: &'a str) -> CacheFolder<'a, R>
        ensures { result.root.folder.now ≡ folder.now }
    {
        CacheFolder {
            rt,
            root: Root::new(rt, folder),
            opened: None,
            waiting: Waiting::new(rt.alloc()),
            read: None,
            unsynced: Items::new(rt.alloc()),
            has_failed: false,
        }
    }

    /// An error if a sync has failed.
    fn may_write(&self) -> io::Result<()> {
        if self.has_failed {
            return Err(io::Error::from(ErrorKind::Other));
        }
        Ok(())
    }

    /// Writes what waits to be written.
    fn write_waiting(&mut self) -> io::Result<()> {
        match &self.opened {
            Some(opened) => self.waiting.write(&opened.file),
            None => Ok(()),
        }
    }

    /// Whether this file is the one that was written or synced last.
    fn is_opened(&self, path: &str) -> bool {
        match &self.opened {
            Some(opened) => opened.path.as_str() == path,
            None => false,
        }
    }

    /// What was written to this file is in it; an error if its sync has failed.
    fn ready_to_read(&mut self, path: &str) -> io::Result<()> {
        if self.is_opened(path) {
            self.may_write()?;
            self.write_waiting()?;
        }
        Ok(())
    }

    /// The file at a path, opened to be read, if there is one. The one that was read last is still
    /// open, and is opened again only if another one has come to the path.
    fn open_to_read(&mut self, path: &str) -> io::Result<Option<OpenedToRead<R::File>>> {
        self.ready_to_read(path)?;
        let below = self.root.file(path)?;
        let Some(found) = below.file else {
            return Ok(None);
        };
        match self.read.take() {
            Some(read) if is_same(&read.found, &found) => {
                check_limit(&found, CACHE_LIMIT)?;
                Ok(Some(OpenedToRead {
                    file: read.file,
                    found,
                }))
            }
            _ => Ok(Some(open_to_read(self.rt, below.place.as_str(), found, CACHE_LIMIT)?)),
        }
    }

    /// The first byte of a file.
    pub fn first_byte(&mut self, path: &str) -> io::Result<Peek> {
        let Some(opened) = self.open_to_read(path)? else {
            return Ok(Peek::Absent);
        };
        let first = first_byte(&opened.file);
        self.read = Some(opened);
        match first? {
            None => Ok(Peek::Empty),
            Some(first) => Ok(Peek::Byte(first)),
        }
    }

    /// The bytes of a file, if there is one.
    pub fn whole(&mut self, alloc: Global, path: &str) -> io::Result<Option<Vec<u8>>> {
        let Some(opened) = self.open_to_read(path)? else {
            return Ok(None);
        };
        let len = opened.found.len();
        let whole = read_whole(alloc, &mut FromStart::new(&opened.file), len, CACHE_LIMIT);
        self.read = Some(opened);
        Ok(Some(whole?))
    }

    /// Notes that something is to be created at a path: its folder must be synced.
    fn note_made(&mut self, place: &str) -> io::Result<()> {
        let folder = above(place);
        for noted in self.unsynced.as_slice() {
            if noted.as_str() == folder {
                return Ok(());
            }
        }
        let folder = made(Text::of(self.rt.alloc(), folder))?;
        made(self.unsynced.add(folder))
    }

    fn make_folder(&mut self, place: &str) -> io::Result<()> {
        self.note_made(place)?;
        match make_folder(self.rt, place) {
            Ok(()) => self.root.note_folder(place),
            Err(error) if error.kind() == ErrorKind::AlreadyExists => Ok(()),
            Err(error) => Err(error),
        }
    }

    /// Creates the cache folder and those above it, following links, if they are missing.
    fn make_cache_folder(&mut self) -> io::Result<()> {
        match look_through(self.rt, self.root.folder) {
            Err(error) if error.kind() == ErrorKind::NotFound => {}
            found => {
                found?;
                return Ok(());
            }
        }
        let alloc = self.rt.alloc();
        let folder = self.root.folder;
        let first = if folder.starts_with('/') { "/" } else { "" };
        let mut place = made(Text::of(alloc, first))?;
        for name in folder.split('/') {
            if name.is_empty() {
                continue;
            }
            place = joined(alloc, place.as_str(), name)?;
            match look_through(self.rt, place.as_str()) {
                Ok(_) => {}
                Err(error) if error.kind() == ErrorKind::NotFound => {
                    self.make_folder(place.as_str())?;
                }
                Err(error) => return Err(error),
            }
        }
        Ok(())
    }

    /// Creates the folders above a path.
    pub fn make_folders(&mut self, path: &str) -> io::Result<()> {
        self.may_write()?;
        let Some((folders, _)) = path.rsplit_once('/') else {
            return self.make_cache_folder();
        };
        if self.root.still_has(folders)? {
            return Ok(());
        }
        self.make_cache_folder()?;
        let alloc = self.rt.alloc();
        let mut place = joined(alloc, self.root.folder, "")?;
        for name in folders.split('/') {
            place = inside(alloc, place.as_str(), name)?;
            match found_at(self.rt, place.as_str())? {
                Found::Folder => self.root.note_folder(place.as_str())?,
                Found::File(_) => return Err(io::Error::from(ErrorKind::NotADirectory)),
                Found::Nothing => self.make_folder(place.as_str())?,
            }
        }
        Ok(())
    }

    /// Opens a file to be written; creates it if that is allowed and there is none.
    fn open(&mut self, path: &str, may_make: bool) -> io::Result<OpenedFile<R::File>> {
        let below = self.root.file(path)?;
        let place = below.place.as_str();
        let mut how = OpenOptions::new();
        how.read(true);
        how.write(true);
        let is_new = below.file.is_none();
        let file = match &below.file {
            Some(found) => open_found(self.rt, place, found, &how, CACHE_LIMIT)?,
            None if may_make => {
                self.note_made(place)?;
                how.create_new(true);
                open(self.rt, &how, place)?
            }
            None => return Err(io::Error::from(ErrorKind::NotFound)),
        };
        Ok(OpenedFile {
            path: made(Text::of(self.rt.alloc(), path))?,
            file,
            is_settled: is_new,
        })
    }

    /// The file that is open, if it is this one, or else this one opened.
    fn opened(&mut self, path: &str, may_make: bool) -> io::Result<OpenedFile<R::File>> {
        self.may_write()?;
        if !self.is_opened(path) {
            self.write_waiting()?;
        }
        match self.opened.take() {
            Some(opened) if opened.path.as_str() == path => Ok(opened),
            _ => self.open(path, may_make),
        }
    }

    /// Writes a piece at a place of a file, and creates the file if there is none.
    pub fn write(&mut self, path: &str, at: u64, piece: &[u8]) -> io::Result<()> {
        let opened = self.opened(path, true)?;
        let done = self.waiting.add(&opened.file, at, piece);
        self.opened = Some(opened);
        done
    }

    /// Cuts a file to a length, if it is longer.
    pub fn cut(&mut self, path: &str, len: u64) -> io::Result<()> {
        let opened = self.opened(path, false)?;
        let done = match self.waiting.write(&opened.file) {
            Ok(()) => shorten(&opened.file, len),
            failed => failed,
        };
        self.opened = Some(opened);
        done
    }

    /// Syncs a file, and the folders in which something was created since they were synced.
    pub fn sync(&mut self, path: &str) -> io::Result<()> {
        let mut opened = self.opened(path, false)?;
        let done = self.settle(&mut opened);
        self.opened = Some(opened);
        done?;
        let folders = mem::replace(&mut self.unsynced, Items::new(self.rt.alloc()));
        let done = self.sync_folders(folders.as_slice());
        if done.is_err() {
            self.unsynced = folders;
        }
        done
    }

    fn settle(&mut self, opened: &mut OpenedFile<R::File>) -> io::Result<()> {
        self.waiting.write(&opened.file)?;
        if !opened.is_settled {
            close_again(&opened.file)?;
        }
        self.sync_all(&opened.file)?;
        opened.is_settled = true;
        Ok(())
    }

    fn sync_folders(&mut self, folders: &[Text]) -> io::Result<()> {
        let mut how = OpenOptions::new();
        how.read(true);
        for folder in folders {
            let folder = open(self.rt, &how, folder.as_str())?;
            self.sync_all(&folder)?;
        }
        Ok(())
    }

    /// Syncs what is open, and notes if that fails.
    fn sync_all(&mut self, file: &R::File) -> io::Result<()> {
        let done = sync(file);
        self.has_failed = done.is_err();
        done
    }
}

fn shorten<F: OpenFile>(file: &F, len: u64) -> io::Result<()> {
    if len < look_at_opened(file)?.len() {
        set_len(file, len)?;
    }
    Ok(())
}
