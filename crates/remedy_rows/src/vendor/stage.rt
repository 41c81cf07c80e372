//! A host and a cache in memory, and a lockfile.
use row_fixtures::{
    DIGEST, INDEX_URL, Row, RowFault, crates_io_index, disk_failing, entry_of, lockfile_of,
    shown_word,
};
use std::alloc::Global;
use tame_cache::MemCacheDisk;
use tame_entry::{HttpRevision, Revision};
use tame_names::{FileFault, Files, Items, Listed, MemFiles, ReadAnswer, join};
use tame_sparse::SparseIndex;

/// The digest of the bytes `abc`.
const ABC: &str = "ba7816bf8f01cfea414140de5dae2223b00361a396177a9cb410ff61f20015ad";

/// What stays from one row to the next.
#[derive(Drop)]
pub struct Stage {
    /// The sparse index of crates.io.
    pub index: SparseIndex,
    pub files: MemFiles,
    pub disk: MemCacheDisk,
    pub lockfile: String,
}

/// The lines of versions, each a word `NAME@VERSION` with commas between them, whose digest is
/// that of `abc`, or of no file behind `~`; `{}` as it is.
fn body_of(alloc: Global, versions: &str) -> Result<String, RowFault> {
    let mut body = String::new(alloc);
    for version in versions.split(',') {
        if version == "{}" {
            body.push_str("{}\n")?;
            continue;
        }
        let Some((name, number)) = version.split_once('@') else {
            return Err(RowFault::Unread);
        };
        let (number, digest) = match number.strip_suffix('~') {
            Some(number) => (number, DIGEST),
            None => (number, ABC),
        };
        write!(
            body,
            "{{\"name\":\"{name}\",\"vers\":\"{number}\",\"deps\":[],"
        )?;
        write!(
            body,
            "\"cksum\":\"{digest}\",\"features\":{{}},\"yanked\":false}}\n"
        )?;
    }
    Ok(body)
}

fn done(alloc: Global, answer: Result<(), FileFault>) -> Result<String, RowFault> {
    Ok(format!(in alloc; "{answer:?}")?)
}

fn quiet(alloc: Global) -> Result<String, RowFault> {
    Ok(String::from_str(alloc, "-")?)
}

/// The entries of a folder.
fn entries_line(alloc: Global, entries: &[Listed]) -> Result<String, RowFault> {
    let mut out = String::from_str(alloc, "folder:")?;
    for entry in entries {
        let slash = if entry.file { "" } else { "/" };
        match &entry.name {
            Some(name) => write!(out, " {name}{slash}")?,
            None => out.push_str(" ?")?,
        }
    }
    Ok(out)
}

/// `list PATH`
fn list(alloc: Global, files: &mut MemFiles, path: &str) -> Result<String, RowFault> {
    match files.list(alloc, path) {
        Ok(Some(entries)) => entries_line(alloc, entries.as_slice()),
        Ok(None) => Ok(String::from_str(alloc, "no folder")?),
        Err(fault) => done(alloc, Err(fault)),
    }
}

/// `read PATH`
fn read(alloc: Global, files: &mut MemFiles, path: &str) -> Result<String, RowFault> {
    match files.read(alloc, path, u64::MAX) {
        Ok(ReadAnswer::Whole(bytes)) => Ok(shown_word(alloc, bytes.as_slice())?),
        Ok(_) => Ok(String::from_str(alloc, "no file")?),
        Err(fault) => done(alloc, Err(fault)),
    }
}

impl Stage {
    /// A host where nothing is, a cache without entries, and a lockfile without packages.
    pub fn new(alloc: Global) -> Result<Stage, RowFault> {
        Ok(Stage {
            index: crates_io_index(alloc, "")?,
            files: MemFiles::new(alloc, Items::new(alloc), Items::new(alloc)),
            disk: disk_failing(alloc, Vec::new(alloc)),
            lockfile: lockfile_of(alloc, "-")?,
        })
    }

    /// `disk FAILING`
    pub fn lay_disk(&mut self, alloc: Global, mut words: Row<'_>) -> Result<String, RowFault> {
        self.disk = disk_failing(alloc, words.numbers(alloc)?);
        quiet(alloc)
    }

    /// Puts a file of an index path into the cache.
    fn put(&mut self, alloc: Global, path: &str, bytes: &[u8]) -> Result<String, RowFault> {
        let file = join(alloc, ".cache", path)?;
        self.disk.put_file(alloc, file.as_str(), bytes)?;
        quiet(alloc)
    }

    /// `keep PATH VERSIONS`
    pub fn keep(&mut self, alloc: Global, mut words: Row<'_>) -> Result<String, RowFault> {
        let path = words.word();
        let body = body_of(alloc, words.word())?;
        let revision = Revision::Http(HttpRevision::Etag("x"));
        let entry = entry_of(alloc, body.as_bytes(), &revision)?;
        self.put(alloc, path, entry.as_slice())
    }

    /// `spoil PATH BYTES`
    pub fn spoil(&mut self, alloc: Global, mut words: Row<'_>) -> Result<String, RowFault> {
        let path = words.word();
        let bytes = words.bytes(alloc)?;
        self.put(alloc, path, bytes.as_slice())
    }

    /// `lock PACKAGES`
    pub fn lay_lockfile(&mut self, alloc: Global, words: Row<'_>) -> Result<String, RowFault> {
        self.lockfile = lockfile_of(alloc, words.rest())?;
        quiet(alloc)
    }

    /// `| LINE`
    pub fn add_line(&mut self, alloc: Global, words: Row<'_>) -> Result<String, RowFault> {
        self.lockfile.push_str(words.rest())?;
        self.lockfile.push('\n')?;
        quiet(alloc)
    }

    /// `host FAILING`
    fn set_host(&mut self, alloc: Global, mut row: Row<'_>) -> Result<String, RowFault> {
        let failing = Items::of(row.numbers(alloc)?);
        self.files = MemFiles::new(alloc, Items::new(alloc), failing);
        quiet(alloc)
    }

    /// `lay PATH BYTES`
    fn lay(&mut self, alloc: Global, mut row: Row<'_>) -> Result<String, RowFault> {
        let path = row.word();
        let bytes = row.bytes(alloc)?;
        done(alloc, self.files.create(path, bytes.as_slice()))
    }

    /// A step on the host.
    pub fn host_step(&mut self, alloc: Global, mut row: Row<'_>) -> Result<String, RowFault> {
        match row.word() {
            "host" => self.set_host(alloc, row),
            "make" => done(alloc, self.files.make_dirs(row.word())),
            "lay" => self.lay(alloc, row),
            "list" => list(alloc, &mut self.files, row.word()),
            "read" => read(alloc, &mut self.files, row.word()),
            _ => Err(RowFault::Unread),
        }
    }
}
