//! The host of runs: a lockfile, a server's answers, a disk, and which calls fail.
use crate::scripts::scripted;
use row_fixtures::{
    Laid, LaidNode, Row, RowFault, crashed, crates_io_index, disk_failing, disk_with,
    flagged_entry, lockfile_of, plain_bytes, shown_word, stop,
};
use std::alloc::Global;
use std::mem;
use tame_cache::MemCacheDisk;
use tame_names::{FileFault, Files, Items, MemFiles, ReadAnswer};
use tame_sparse::{Scripted, SparseIndex};

/// What stays from one row to the next.
#[derive(Drop)]
pub struct Stage {
    /// The sparse index of crates.io.
    pub index: SparseIndex,
    /// What is there; of paths that are equal the first counts.
    pub laid: Vec<Laid>,
    /// The standard input.
    pub input: Vec<u8>,
    /// The variables of the environment.
    pub variables: Vec<(String, String)>,
    /// What the starts of the next run end with; nothing for one that fails.
    pub statuses: Items<Option<i32>>,
    /// The server's answers to the next run.
    pub script: Items<Scripted>,
    /// The calls on the host's files, the decodings, and the writes to `out` and `err` of the next
    /// run that fail, counted from 1.
    pub calls: Vec<u64>,
    pub decodes: Vec<u64>,
    pub puts: Vec<u64>,
    pub errors: Vec<u64>,
    /// The disk of the cache.
    pub disk: MemCacheDisk,
    /// The host's files as the last run left them.
    pub files: Option<MemFiles>,
}

/// What a start ends with, as a word; nothing for `-`, a start that fails.
fn end_of(word: &str) -> Result<Option<i32>, RowFault> {
    match word {
        "-" => Ok(None),
        word => match word.parse::<i32>() {
            Ok(status) => Ok(Some(status)),
            Err(_) => Err(RowFault::Unread),
        },
    }
}

fn done(alloc: Global) -> Result<String, RowFault> {
    Ok(String::from_str(alloc, "-")?)
}

impl Stage {
    /// An empty disk, no file and no answer.
    pub fn new(alloc: Global) -> Result<Stage, RowFault> {
        Ok(Stage {
            index: crates_io_index(alloc, "")?,
            laid: Vec::new(alloc),
            input: Vec::new(alloc),
            variables: Vec::new(alloc),
            statuses: Items::new(alloc),
            script: Items::new(alloc),
            calls: Vec::new(alloc),
            decodes: Vec::new(alloc),
            puts: Vec::new(alloc),
            errors: Vec::new(alloc),
            disk: disk_failing(alloc, Vec::new(alloc)),
            files: None,
        })
    }

    /// An empty disk, and a lockfile of version 0.1.0 of the crate `a`.
    pub fn lock_one(&mut self, alloc: Global) -> Result<(), RowFault> {
        let bytes = lockfile_of(alloc, "a@0.1.0")?.into_bytes();
        self.lay(alloc, "Cargo.lock", LaidNode::File(bytes))?;
        self.disk = disk_failing(alloc, Vec::new(alloc));
        Ok(())
    }

    /// `disk FAILING`: an empty disk, of which the calls with these numbers fail, counted from 0.
    pub fn lay_disk(&mut self, alloc: Global, mut words: Row<'_>) -> Result<String, RowFault> {
        self.disk = disk_failing(alloc, words.numbers(alloc)?);
        done(alloc)
    }

    /// From now the n-th call of the disk fails, counted from 1, and each later one.
    pub fn stop(&mut self, n: u64) {
        stop(&mut self.disk, n);
    }

    /// `stop N`: the same.
    pub fn stop_at(&mut self, alloc: Global, mut words: Row<'_>) -> Result<String, RowFault> {
        self.stop(words.number()?);
        done(alloc)
    }

    /// The disk is what a crash leaves of it.
    pub fn crash(&mut self, alloc: Global, pick: u8) -> Result<(), RowFault> {
        let empty = disk_failing(alloc, Vec::new(alloc));
        let before = mem::replace(&mut self.disk, empty);
        self.disk = crashed(alloc, before, pick)?;
        Ok(())
    }

    /// `crash PICK`: the same.
    pub fn crash_by(&mut self, alloc: Global, mut words: Row<'_>) -> Result<String, RowFault> {
        self.crash(alloc, words.byte_or_none()?.unwrap_or(0))?;
        done(alloc)
    }

    /// `put FAILING (YANKED | UNYANKED) FIRST`: a disk of which these calls fail, whose file of the
    /// crate `a` is an entry with another first byte.
    pub fn put(&mut self, alloc: Global, mut words: Row<'_>) -> Result<String, RowFault> {
        let failing = words.numbers(alloc)?;
        let mut bytes = flagged_entry(alloc, words.is("YANKED", "UNYANKED")?)?;
        let first = words.byte_or_none()?;
        if let (Some(place), Some(first)) = (bytes.first_mut(), first) {
            *place = first;
        }
        self.disk = disk_with(alloc, bytes.as_slice(), failing)?;
        done(alloc)
    }

    /// The host has this alone.
    fn lay(&mut self, alloc: Global, path: &str, node: LaidNode) -> Result<(), RowFault> {
        self.laid = Vec::new(alloc);
        let path = String::from_str(alloc, path)?;
        Ok(self.laid.push(Laid { path, node })?)
    }

    /// `lock NAME@VERSION ..`: a lockfile of packages of the default registry at `Cargo.lock`, and
    /// nothing else.
    pub fn lay_lockfile(&mut self, alloc: Global, words: Row<'_>) -> Result<String, RowFault> {
        let bytes = lockfile_of(alloc, words.rest())?.into_bytes();
        self.lay(alloc, "Cargo.lock", LaidNode::File(bytes))?;
        done(alloc)
    }

    /// `stand PATH BYTES`: the file that is there, and nothing else.
    pub fn lay_file(&mut self, alloc: Global, mut words: Row<'_>) -> Result<String, RowFault> {
        let path = words.text(alloc)?;
        let bytes = words.bytes(alloc)?;
        self.lay(alloc, path.as_str(), LaidNode::File(bytes))?;
        done(alloc)
    }

    /// `also PATH BYTES`: a file that is there too.
    pub fn lay_more(&mut self, alloc: Global, mut words: Row<'_>) -> Result<String, RowFault> {
        let path = words.text(alloc)?;
        let node = LaidNode::File(words.bytes(alloc)?);
        self.laid.push(Laid { path, node })?;
        done(alloc)
    }

    /// `binary PATH NAME@VERSION ..`: a file that is there too, with a lockfile of packages of
    /// the default registry between its two lines.
    pub fn lay_binary(&mut self, alloc: Global, mut words: Row<'_>) -> Result<String, RowFault> {
        let path = words.text(alloc)?;
        let lockfile = lockfile_of(alloc, words.rest())?;
        let text = format!(in alloc; "#cargo-lock begin\n{lockfile}#cargo-lock end\n")?;
        let node = LaidNode::File(text.into_bytes());
        self.laid.push(Laid { path, node })?;
        done(alloc)
    }

    /// `folder PATH NAME ..`: a folder with these entries; a name that ends with `/` is a folder's.
    pub fn lay_folder(&mut self, alloc: Global, mut words: Row<'_>) -> Result<String, RowFault> {
        let path = words.text(alloc)?;
        let mut names = Vec::new(alloc);
        for name in words.rest().split(' ') {
            names.push(String::from_str(alloc, name)?)?;
        }
        let node = LaidNode::Folder(names);
        self.laid.push(Laid { path, node })?;
        done(alloc)
    }

    /// `| LINE`: adds a line to the last file that is there.
    pub fn add_line(&mut self, alloc: Global, words: Row<'_>) -> Result<String, RowFault> {
        let line = plain_bytes(alloc, words.rest())?;
        if let Some(
            Laid {
                node: LaidNode::File(bytes),
                ..
            },
        ) = self.laid.last_mut()
        {
            bytes.extend_from_slice(line.as_slice())?;
            bytes.push(b'\n')?;
        }
        done(alloc)
    }

    /// `input BYTES`: the standard input.
    pub fn lay_input(&mut self, alloc: Global, mut words: Row<'_>) -> Result<String, RowFault> {
        self.input = words.bytes(alloc)?;
        done(alloc)
    }

    /// `left PATH`: what the last run left at a path of the host.
    pub fn left_at(&mut self, alloc: Global, mut words: Row<'_>) -> Result<String, RowFault> {
        let Some(files) = &mut self.files else {
            return Err(RowFault::Unread);
        };
        match files.read(alloc, words.word(), u64::MAX) {
            Ok(ReadAnswer::Whole(bytes)) => Ok(shown_word(alloc, bytes.as_slice())?),
            Ok(_) => Ok(String::from_str(alloc, "no file")?),
            Err(FileFault::Failed) => Ok(String::from_str(alloc, "failed")?),
            Err(FileFault::NoMemory) => Err(RowFault::NoMemory),
        }
    }

    /// `env NAME VALUE`: a variable of the environment.
    pub fn set(&mut self, alloc: Global, mut words: Row<'_>) -> Result<String, RowFault> {
        let name = words.text(alloc)?;
        let value = words.text(alloc)?;
        self.variables.push((name, value))?;
        done(alloc)
    }

    /// `statuses STATUS,..`: what the starts of the next run end with; one of `-` fails, and
    /// so does each after the last.
    pub fn end_with(&mut self, alloc: Global, mut words: Row<'_>) -> Result<String, RowFault> {
        let mut statuses = Items::new(alloc);
        for word in words.word().split(',') {
            statuses.add(end_of(word)?)?;
        }
        self.statuses = statuses;
        done(alloc)
    }

    /// `serve STATUS REVISION BODY`: adds an answer for the next run, of a server that holds the
    /// body under the revision; the body is sent at 200 alone. `serve failed`: a failed exchange.
    pub fn serve(&mut self, alloc: Global, words: Row<'_>) -> Result<String, RowFault> {
        self.script.add(scripted(alloc, words)?)?;
        done(alloc)
    }

    /// `calls NUMBERS`: the calls on the host's files of the next run that fail.
    pub fn fail_calls(&mut self, alloc: Global, mut words: Row<'_>) -> Result<String, RowFault> {
        self.calls = words.numbers(alloc)?;
        done(alloc)
    }

    /// `decodes NUMBERS`: the decodings of the next run that fail.
    pub fn fail_decodes(&mut self, alloc: Global, mut words: Row<'_>) -> Result<String, RowFault> {
        self.decodes = words.numbers(alloc)?;
        done(alloc)
    }

    /// `errors NUMBERS`: the writes to `err` of the next run that fail.
    pub fn fail_errors(&mut self, alloc: Global, mut words: Row<'_>) -> Result<String, RowFault> {
        self.errors = words.numbers(alloc)?;
        done(alloc)
    }

    /// `puts NUMBERS`: the writes to `out` of the next run that fail.
    pub fn fail_puts(&mut self, alloc: Global, mut words: Row<'_>) -> Result<String, RowFault> {
        self.puts = words.numbers(alloc)?;
        done(alloc)
    }
}
