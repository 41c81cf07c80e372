//! Lines that are written.
use row_fixtures::{Row, RowFault, asked, body_of, shown};
use std::alloc::Global;
use tame_names::{Items, MemSink};
use tame_records::{IndexKrate, IndexVersion};

/// How many bytes are written, and which.
fn sink_line(
    alloc: Global,
    count: Result<u64, RowFault>,
    sink: &MemSink,
) -> Result<String, RowFault> {
    let count = count?;
    let text = shown(alloc, sink.bytes())?;
    Ok(format!(in alloc; "{count} [{text}]")?)
}

/// The line of a record.
fn version_line(alloc: Global, version: &IndexVersion) -> Result<String, RowFault> {
    let mut sink = MemSink::new(alloc, Items::new(alloc));
    let count = asked(alloc, version.write_line(alloc, &mut sink));
    sink_line(alloc, count, &sink)
}

/// `line NAME VERSION`: the line of a record of a name and a version alone.
pub fn line(alloc: Global, mut words: Row<'_>) -> Result<String, RowFault> {
    let name = words.word();
    match IndexVersion::fake(alloc, name, words.word()) {
        Ok(fake) => version_line(alloc, &fake),
        Err(_) => Err(RowFault::NoMemory),
    }
}

/// The lines of a crate, and how many bytes are written.
fn lines_of(alloc: Global, krate: &IndexKrate) -> Result<String, RowFault> {
    let mut sink = MemSink::new(alloc, Items::new(alloc));
    let count = asked(alloc, krate.write_json_lines(alloc, &mut sink));
    sink_line(alloc, count, &sink)
}

/// The names of the features of a crate's first version.
fn features_of(alloc: Global, krate: &IndexKrate) -> Result<String, RowFault> {
    let mut out = String::from_str(alloc, "features")?;
    if let Some(first) = krate.versions.as_slice().first() {
        for (name, _) in first.features() {
            write!(out, " {name}")?;
        }
    }
    Ok(out)
}

fn body_line(alloc: Global, krate: &IndexKrate) -> Result<String, RowFault> {
    let lines = lines_of(alloc, krate)?;
    let features = features_of(alloc, krate)?;
    Ok(format!(in alloc; "{features}; {lines}")?)
}

/// `body BODY`: a body read and written again, and the features of its first version.
pub fn body(alloc: Global, mut words: Row<'_>) -> Result<String, RowFault> {
    let body = body_of(alloc, words.word())?;
    match asked(alloc, IndexKrate::from_slice(alloc, body.as_slice())) {
        Ok(krate) => body_line(alloc, &krate),
        Err(fault) => Err(fault),
    }
}
