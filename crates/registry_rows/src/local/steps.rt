//! A host in memory, and what stands on it.
use crate::local::sources::krate_of;
use row_fixtures::{Row, RowFault, shown, shown_word};
use std::alloc::{AllocError, Global};
use tame_local::LocalRegistryBuilder;
use tame_names::{FileFault, Files, Items, Listed, MemFiles, MemSink, ReadAnswer, Sink};
use tame_records::IndexKrate;

/// What rows have made so far.
#[derive(Drop)]
pub struct Stage {
    pub files: MemFiles,
    pub builder: Option<LocalRegistryBuilder>,
}

impl Stage {
    /// A host where nothing is.
    pub fn new(alloc: Global) -> Stage {
        Stage {
            files: MemFiles::new(alloc, Items::new(alloc), Items::new(alloc)),
            builder: None,
        }
    }
}

fn done(alloc: Global, answer: Result<(), FileFault>) -> Result<String, RowFault> {
    Ok(format!(in alloc; "{answer:?}")?)
}

/// Adds an entry of a folder.
fn push_entry(out: &mut String, entry: &Listed) -> Result<(), AllocError> {
    let slash = if entry.file { "" } else { "/" };
    match &entry.name {
        Some(name) => write!(out, " {name}{slash}"),
        None => out.push_str(" ?"),
    }
}

fn entries_line(alloc: Global, entries: &[Listed]) -> Result<String, AllocError> {
    let mut out = String::from_str(alloc, "folder:")?;
    for entry in entries {
        push_entry(&mut out, entry)?;
    }
    Ok(out)
}

/// `list PATH`
fn list<F: Files>(alloc: Global, files: &mut F, path: &str) -> Result<String, RowFault> {
    match files.list(alloc, path) {
        Ok(Some(entries)) => Ok(entries_line(alloc, entries.as_slice())?),
        Ok(None) => Ok(String::from_str(alloc, "no folder")?),
        Err(fault) => done(alloc, Err(fault)),
    }
}

/// `read PATH`
fn read<F: Files>(alloc: Global, files: &mut F, path: &str) -> Result<String, RowFault> {
    match files.read(alloc, path, u64::MAX) {
        Ok(ReadAnswer::Whole(bytes)) => Ok(shown_word(alloc, bytes.as_slice())?),
        Ok(_) => Ok(String::from_str(alloc, "no file")?),
        Err(fault) => done(alloc, Err(fault)),
    }
}

/// Writes the lines of a crate.
fn put_lines<S: Sink>(alloc: Global, krate: &IndexKrate, sink: &mut S) {
    let _written = krate.write_json_lines(alloc, sink);
}

/// The index file of a crate at a path.
fn lay_lines<F: Files>(
    alloc: Global,
    files: &mut F,
    path: &str,
    krate: &IndexKrate,
) -> Result<String, RowFault> {
    let mut sink = MemSink::new(alloc, Items::new(alloc));
    put_lines(alloc, krate, &mut sink);
    done(alloc, files.create(path, sink.bytes()))
}

/// `lines PATH VERSIONS`
fn lines<F: Files>(alloc: Global, files: &mut F, mut row: Row<'_>) -> Result<String, RowFault> {
    let path = row.word();
    match krate_of(alloc, row.word()) {
        Ok(krate) => lay_lines(alloc, files, path, &krate),
        Err(fault) => Err(fault),
    }
}

/// A host where nothing is, whose calls with these numbers fail.
fn lay_host(alloc: Global, stage: &mut Stage, failing: Vec<u64>) {
    stage.files = MemFiles::new(alloc, Items::new(alloc), Items::of(failing));
    stage.builder = None;
}

/// The answer of a step on the host.
pub fn answer(alloc: Global, stage: &mut Stage, mut row: Row<'_>) -> Result<String, RowFault> {
    match row.word() {
        "host" => {
            let failing = row.numbers(alloc)?;
            lay_host(alloc, stage, failing);
            Ok(shown(alloc, b"nothing")?)
        }
        "make" => done(alloc, stage.files.make_dirs(row.word())),
        "lay" => {
            let path = row.word();
            let bytes = row.bytes(alloc)?;
            done(alloc, stage.files.create(path, bytes.as_slice()))
        }
        "lines" => lines(alloc, &mut stage.files, row),
        "list" => list(alloc, &mut stage.files, row.word()),
        "read" => read(alloc, &mut stage.files, row.word()),
        _ => Err(RowFault::Unread),
    }
}
