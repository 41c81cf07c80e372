//! Counts what a report finds among many advisories and how many names it compares, and the lines
//! and bytes of trees, to be timed.
ghost use Rattle.std.specs.Prelude.{◌≡◌, []};

use advice_fixtures::{add_read, read_lockfile};
use audit_advisory::{Advisory, Comparisons, Database, Informational, Report, Settings};
use audit_lock::{Lockfile, Tree};
use row_fixtures::RowFault;
use std::alloc::Global;
use std::io::ErrorKind;
use std::{fs, io};
use tame_names::{Items, Sink, SinkFault};

/// Counts what is written.
#[derive(Drop)]
struct CountSink {
    lines: u64,
    bytes: u64,
}

impl Sink for CountSink {
    ghost tells = { ⊥ };

    ghost holds = { λ _. [] };

    ghost faults = { λ _. 0 };

    fn sink_faults(&self) -> u64 {
        0
    }

    fn put(&mut self, piece: &[u8]) -> Result<(), SinkFault> {
        for byte in piece {
            if *byte == b'\n' {
                self.lines = self.lines.saturating_add(1);
            }
        }
        self.bytes = self.bytes.saturating_add(piece.len() as u64);
        Ok(())
    }
}

fn of_fault(fault: RowFault) -> io::Error {
    match fault {
        RowFault::NoMemory => io::Error::from(ErrorKind::OutOfMemory),
        _ => io::Error::from(ErrorKind::InvalidInput),
    }
}

/// The database of advisories in a string, each but the first after a line `==`.
fn database_of(alloc: Global, text: &str) -> Result<Database, RowFault> {
    let mut advisories: Items<Advisory> = Items::new(alloc);
    for text in text.split("\n==\n") {
        add_read(alloc, &mut advisories, text)?;
    }
    Ok(Database::new(alloc, advisories)?)
}

/// How many vulnerabilities and warnings a report has, and how many names it compared.
fn found_line(
    alloc: Global,
    database: &Database,
    lockfile: &Lockfile,
    settings: &Settings,
) -> Result<String, RowFault> {
    let mut count = Comparisons { made: 0 };
    let report = Report::generate(alloc, database, lockfile, settings, &mut count)?;
    let vulnerabilities = report.vulnerabilities.as_slice().len();
    let warnings = report.warnings.as_slice().len();
    let made = count.made;
    Ok(format!(in alloc;
        "{vulnerabilities} vulnerabilities, {warnings} warnings, {made} comparisons"
    )?)
}

/// Settings that ask for all warnings.
fn all_warnings(alloc: Global) -> Result<Settings, RowFault> {
    let mut warnings = Items::new(alloc);
    warnings.add(Informational::Notice)?;
    warnings.add(Informational::Unmaintained)?;
    warnings.add(Informational::Unsound)?;
    Ok(Settings {
        ignore: Items::new(alloc),
        severity: None,
        target_arch: Items::new(alloc),
        target_os: Items::new(alloc),
        informational_warnings: warnings,
    })
}

/// As many reports as are wanted.
fn print_reports(
    rt: &HostRuntime,
    database: &Database,
    lockfile: &Lockfile,
    times: u64,
) -> io::Result<()> {
    let settings = all_warnings(rt.alloc()).map_err(of_fault)?;
    for _ in 0..times {
        let line = found_line(rt.alloc(), database, lockfile, &settings).map_err(of_fault)?;
        rt.println(line)?;
    }
    Ok(())
}

/// The lockfile of a file.
fn lockfile_at(rt: &HostRuntime, path: &str) -> io::Result<Lockfile> {
    let text = fs::read_to_string(rt, path)?;
    read_lockfile(rt.alloc(), text.as_str()).map_err(of_fault)
}

/// As many reports as are wanted, on the lockfile of a file.
fn print_found(rt: &HostRuntime, database: &Database, path: &str, times: u64) -> io::Result<()> {
    match lockfile_at(rt, path) {
        Ok(lockfile) => print_reports(rt, database, &lockfile, times),
        Err(error) => Err(error),
    }
}

/// `reports ADVISORIES LOCKFILE N`: N reports of the advisories of one file, each but the first
/// after a line `==`, on a lockfile, and what each finds.
pub fn count_reports(
    rt: &HostRuntime,
    database: String,
    lockfile: Option<String>,
    times: Option<String>,
) -> io::Result<()> {
    let (Some(lockfile), Some(times)) = (lockfile, times) else {
        return Err(io::Error::from(ErrorKind::InvalidInput));
    };
    let text = fs::read_to_string(rt, database.as_str())?;
    let times = times.parse::<u64>().unwrap_or(1);
    match database_of(rt.alloc(), text.as_str()) {
        Ok(database) => print_found(rt, &database, lockfile.as_str(), times),
        Err(fault) => Err(of_fault(fault)),
    }
}

/// The lines and bytes of the tree of the package at a place.
fn counted_tree(alloc: Global, lockfile: &Lockfile, node: usize) -> Result<String, RowFault> {
    let tree = Tree::of(alloc, lockfile)?;
    if node >= lockfile.packages().len() {
        return Err(RowFault::Unread);
    }
    let mut sink = CountSink { lines: 0, bytes: 0 };
    let rendered = tree.render(alloc, lockfile, node, &mut sink);
    let CountSink { lines, bytes } = sink;
    match rendered {
        Ok(()) => Ok(format!(in alloc; "{lines} lines, {bytes} bytes")?),
        Err(_) => Err(RowFault::NoMemory),
    }
}

/// The lines and bytes of the tree of the first package of a name.
fn tree_line(alloc: Global, lockfile: &Lockfile, name: &str) -> Result<String, RowFault> {
    for (node, package) in lockfile.packages().iter().enumerate() {
        if package.name.as_str() == name {
            return counted_tree(alloc, lockfile, node);
        }
    }
    Err(RowFault::Unread)
}

/// How many packages there are, once the parents of each are known.
fn packages_line(alloc: Global, lockfile: &Lockfile) -> Result<String, RowFault> {
    let _tree = Tree::of(alloc, lockfile)?;
    let count = lockfile.packages().len();
    Ok(format!(in alloc; "{count} packages")?)
}

/// How many packages there are, or the lines and bytes of the tree of the first one of a name.
fn print_tree(rt: &HostRuntime, lockfile: &Lockfile, name: Option<String>) -> io::Result<()> {
    let line = match name {
        Some(name) => tree_line(rt.alloc(), lockfile, name.as_str()),
        None => packages_line(rt.alloc(), lockfile),
    };
    rt.println(line.map_err(of_fault)?)
}

/// `trees LOCKFILE [NAME]`: counts the packages of a lockfile, of which it finds the parents, or
/// the lines and bytes of the tree of the first package of a name.
pub fn count_trees(rt: &HostRuntime, path: String, name: Option<String>) -> io::Result<()> {
    match lockfile_at(rt, path.as_str()) {
        Ok(lockfile) => print_tree(rt, &lockfile, name),
        Err(error) => Err(error),
    }
}
