//! What the rows of advisories, reports and trees work on. `LINE` is the rest of a line, in which
//! `\n`, `\t`, `\\` and `\xHH` are escapes; `-` means nothing, and commas part lists:
//!
//! - `clear`: no advisory and no lockfile;
//! - `advisory`: an advisory begins, `lock`: the lockfile begins, `| LINE`: the next line of it;
//! - `report YANKED IGNORE SEVERITY ARCH OS KINDS`: the report of the advisories on the lockfile,
//!   of which the packages YANKED, each `NAME@VERSION`, are yanked.
use crate::row_words::{informational, severity};
use advice_fixtures::{LaidTexts, listed, packages_named};
use audit_advisory::{Comparisons, Database, Report, Settings};
use audit_lock::Lockfile;
use audit_report::Presenter;
use row_fixtures::{Row, RowFault};
use std::alloc::Global;

/// A report, with the advisories and the packages that it speaks of.
#[derive(Drop)]
pub struct Laid {
    pub database: Database,
    pub lockfile: Lockfile,
    pub report: Report,
}

/// The text of the rows so far, and what was made.
#[derive(Drop)]
pub struct Stage {
    pub texts: LaidTexts,
    pub laid: Option<Laid>,
    pub presenter: Option<Presenter>,
}

/// Settings of the words `IGNORE SEVERITY ARCH OS KINDS`.
pub fn settings_of(alloc: Global, row: Row<'_>) -> Result<Settings, RowFault> {
    let mut row = row;
    Ok(Settings {
        ignore: listed(alloc, &mut row)?,
        severity: severity(&mut row)?,
        target_arch: listed(alloc, &mut row)?,
        target_os: listed(alloc, &mut row)?,
        informational_warnings: informational(alloc, &mut row)?,
    })
}

/// Lines without the newline of the last one, which comes with the answer.
pub fn without_newline(lines: String) -> String {
    let mut lines = lines;
    let _newline = lines.pop();
    lines
}

/// The report under settings, of which the packages with these indices are yanked.
fn report_under(
    alloc: Global,
    database: &Database,
    lockfile: &Lockfile,
    settings: &Settings,
    yanked: &[usize],
) -> Result<Report, RowFault> {
    let mut count = Comparisons { made: 0 };
    let mut report = Report::generate(alloc, database, lockfile, settings, &mut count)?;
    match report.add_yanked(alloc, yanked) {
        Ok(()) => Ok(report),
        Err(_) => Err(RowFault::NoMemory),
    }
}

fn report_of(
    alloc: Global,
    database: &Database,
    lockfile: &Lockfile,
    row: Row<'_>,
) -> Result<Report, RowFault> {
    let mut row = row;
    let yanked = listed(alloc, &mut row)?;
    let places = packages_named(alloc, lockfile.packages(), yanked.as_slice())?;
    match settings_of(alloc, row) {
        Ok(settings) => report_under(alloc, database, lockfile, &settings, places.as_slice()),
        Err(fault) => Err(fault),
    }
}

/// The report of a database on a lockfile, with both.
fn laid_with(
    alloc: Global,
    database: Database,
    lockfile: Lockfile,
    row: Row<'_>,
) -> Result<Laid, RowFault> {
    match report_of(alloc, &database, &lockfile, row) {
        Ok(report) => Ok(Laid {
            database,
            lockfile,
            report,
        }),
        Err(fault) => Err(fault),
    }
}

/// The same on the lockfile in a string.
fn laid_of(
    alloc: Global,
    database: Database,
    texts: &LaidTexts,
    row: Row<'_>,
) -> Result<Laid, RowFault> {
    match texts.lockfile(alloc) {
        Ok(lockfile) => laid_with(alloc, database, lockfile, row),
        Err(fault) => Err(fault),
    }
}

impl Stage {
    /// A stage without anything.
    pub fn new(alloc: Global) -> Stage {
        Stage {
            texts: LaidTexts::new(alloc),
            laid: None,
            presenter: None,
        }
    }

    /// `clear`
    fn clear(&mut self, alloc: Global) -> Result<String, RowFault> {
        *self = Stage::new(alloc);
        Ok(String::new(alloc))
    }

    /// `report YANKED IGNORE SEVERITY ARCH OS KINDS`
    fn make_report(&mut self, alloc: Global, row: Row<'_>) -> Result<String, RowFault> {
        self.texts.end(alloc)?;
        let database = self.texts.database(alloc)?;
        let laid = laid_of(alloc, database, &self.texts, row)?;
        self.laid = Some(laid);
        Ok(String::new(alloc))
    }

    /// What was made, if it was.
    pub fn laid(&mut self) -> Result<&mut Laid, RowFault> {
        match &mut self.laid {
            Some(laid) => Ok(laid),
            None => Err(RowFault::Unread),
        }
    }

    /// The answer of a row that the tables share.
    pub fn answer(&mut self, alloc: Global, row: Row<'_>) -> Result<String, RowFault> {
        let mut words = row;
        match words.word() {
            "clear" => self.clear(alloc),
            "report" => self.make_report(alloc, words),
            _ => self.texts.answer(alloc, row),
        }
    }
}
