//! What the rows work on.
use advice_fixtures::{LaidTexts, listed, packages_named};
use audit_advisory::{Comparisons, Database, Informational, Report, Settings, report_fails};
use audit_core::Audited;
use audit_lock::Lockfile;
use row_fixtures::{Row, RowFault};
use std::alloc::Global;
use tame_names::{Items, Text};

/// An audit, with the advisories by which it was made.
#[derive(Drop)]
pub struct Laid {
    pub database: Database,
    pub audited: Audited,
}

/// The texts that were laid, and what was made.
#[derive(Drop)]
pub struct Stage {
    texts: LaidTexts,
    laid: Option<Laid>,
}

/// Settings that ask for all warnings, but of the ignored ones.
fn settings_of(alloc: Global, ignore: Items<Text>) -> Result<Settings, RowFault> {
    let mut warnings = Items::new(alloc);
    warnings.add(Informational::Notice)?;
    warnings.add(Informational::Unmaintained)?;
    warnings.add(Informational::Unsound)?;
    Ok(Settings {
        ignore,
        severity: None,
        target_arch: Items::new(alloc),
        target_os: Items::new(alloc),
        informational_warnings: warnings,
    })
}

/// The report under settings, of which these packages are yanked.
fn report_under(
    alloc: Global,
    database: &Database,
    lockfile: &Lockfile,
    settings: &Settings,
    yanked: &[Text],
) -> Result<Report, RowFault> {
    let places = packages_named(alloc, lockfile.packages(), yanked)?;
    let mut count = Comparisons { made: 0 };
    let mut report = Report::generate(alloc, database, lockfile, settings, &mut count)?;
    match report.add_yanked(alloc, places.as_slice()) {
        Ok(()) => Ok(report),
        Err(_) => Err(RowFault::NoMemory),
    }
}

fn report_of(
    alloc: Global,
    database: &Database,
    lockfile: &Lockfile,
    mut row: Row<'_>,
) -> Result<Report, RowFault> {
    let yanked = listed(alloc, &mut row)?;
    let ignore = listed(alloc, &mut row)?;
    match settings_of(alloc, ignore) {
        Ok(settings) => report_under(alloc, database, lockfile, &settings, yanked.as_slice()),
        Err(fault) => Err(fault),
    }
}

/// The audit of a lockfile that has this report.
fn audited_with(lockfile: Lockfile, report: Report, alloc: Global) -> Audited {
    let exit = u8::from(report_fails(&report, &[]));
    Audited {
        lockfile,
        report,
        verdicts: Items::new(alloc),
        turns: Items::new(alloc),
        exit,
    }
}

/// The audit of a lockfile by a database, with both.
fn laid_with(
    alloc: Global,
    database: Database,
    lockfile: Lockfile,
    row: Row<'_>,
) -> Result<Laid, RowFault> {
    match report_of(alloc, &database, &lockfile, row) {
        Ok(report) => Ok(Laid {
            database,
            audited: audited_with(lockfile, report, alloc),
        }),
        Err(fault) => Err(fault),
    }
}

/// The same of the lockfile of a text.
fn laid_of(
    alloc: Global,
    database: Database,
    texts: &LaidTexts,
    row: Row<'_>,
) -> Result<Laid, RowFault> {
    match texts.lockfile(alloc) {
        Ok(lockfile) => laid_with(alloc, database, lockfile, row),
        Err(fault) => Err(fault),
    }
}

impl Stage {
    /// A stage without anything.
    pub fn new(alloc: Global) -> Stage {
        Stage {
            texts: LaidTexts::new(alloc),
            laid: None,
        }
    }

    /// `clear`
    fn clear(&mut self, alloc: Global) -> Result<String, RowFault> {
        *self = Stage::new(alloc);
        Ok(String::new(alloc))
    }

    /// `audit YANKED IGNORE`
    fn make_audit(&mut self, alloc: Global, row: Row<'_>) -> Result<String, RowFault> {
        self.texts.end(alloc)?;
        let database = self.texts.database(alloc)?;
        let laid = laid_of(alloc, database, &self.texts, row)?;
        let exit = laid.audited.exit;
        self.laid = Some(laid);
        Ok(format!(in alloc; "{exit}")?)
    }

    /// What was laid, if it was.
    pub fn laid(&self) -> Result<&Laid, RowFault> {
        match &self.laid {
            Some(laid) => Ok(laid),
            None => Err(RowFault::Unread),
        }
    }

    /// The answer of a row that lays an audit.
    pub fn answer(&mut self, alloc: Global, row: Row<'_>) -> Result<String, RowFault> {
        let mut words = row;
        match words.word() {
            "clear" => self.clear(alloc),
            "audit" => self.make_audit(alloc, words),
            _ => self.texts.answer(alloc, row),
        }
    }
}
