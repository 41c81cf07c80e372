//! What the rows work on.
use advice_fixtures::LaidTexts;
use audit_advisory::{Comparisons, Database, Report, Settings, Vulnerability};
use audit_core::Audited;
use audit_lock::Lockfile;
use row_fixtures::{Row, RowFault};
use std::alloc::Global;
use tame_names::Items;

/// An audit, with the advisories that it speaks of.
#[derive(Drop)]
pub struct Laid {
    pub database: Database,
    pub audited: Audited,
}

/// The text of the rows so far, and the audit that was made.
#[derive(Drop)]
pub struct Stage {
    pub texts: LaidTexts,
    laid: Option<Laid>,
}

/// Settings that ask for nothing but vulnerabilities.
fn plain_settings(alloc: Global) -> Settings {
    Settings {
        ignore: Items::new(alloc),
        severity: None,
        target_arch: Items::new(alloc),
        target_os: Items::new(alloc),
        informational_warnings: Items::new(alloc),
    }
}

/// The audit of a lockfile, of which nothing was checked for yanked versions.
fn audit_of(alloc: Global, database: &Database, lockfile: Lockfile) -> Result<Audited, RowFault> {
    let settings = plain_settings(alloc);
    let mut count = Comparisons { made: 0 };
    let report = Report::generate(alloc, database, &lockfile, &settings, &mut count)?;
    Ok(Audited {
        lockfile,
        report,
        verdicts: Items::new(alloc),
        turns: Items::new(alloc),
        exit: 1,
    })
}

/// The audit of a lockfile, with the advisories.
fn laid_with(alloc: Global, database: Database, lockfile: Lockfile) -> Result<Laid, RowFault> {
    match audit_of(alloc, &database, lockfile) {
        Ok(audited) => Ok(Laid { database, audited }),
        Err(fault) => Err(fault),
    }
}

/// The audit of the lockfile of the rows, with their advisories.
fn laid_of(alloc: Global, texts: &LaidTexts) -> Result<Laid, RowFault> {
    let lockfile = texts.lockfile(alloc)?;
    match texts.database(alloc) {
        Ok(database) => laid_with(alloc, database, lockfile),
        Err(fault) => Err(fault),
    }
}

impl Stage {
    /// A stage without anything.
    pub fn new(alloc: Global) -> Stage {
        Stage {
            texts: LaidTexts::new(alloc),
            laid: None,
        }
    }

    /// `clear`
    pub fn clear(&mut self, alloc: Global) -> Result<String, RowFault> {
        *self = Stage::new(alloc);
        Ok(String::new(alloc))
    }

    /// `audit`
    pub fn make_audit(&mut self, alloc: Global) -> Result<String, RowFault> {
        self.texts.end(alloc)?;
        let laid = laid_of(alloc, &self.texts)?;
        self.laid = Some(laid);
        Ok(String::new(alloc))
    }

    /// What was made, if it was.
    pub fn laid(&self) -> Result<&Laid, RowFault> {
        match &self.laid {
            Some(laid) => Ok(laid),
            None => Err(RowFault::Unread),
        }
    }

    /// The report of the audit, if it was made.
    fn report(&mut self) -> Result<&mut Report, RowFault> {
        match &mut self.laid {
            Some(laid) => Ok(&mut laid.audited.report),
            None => Err(RowFault::Unread),
        }
    }

    /// `empty`
    pub fn make_empty(&mut self, alloc: Global) -> Result<String, RowFault> {
        self.report()?.vulnerabilities = Items::new(alloc);
        Ok(String::new(alloc))
    }

    /// `hit ADVISORY PACKAGE`
    pub fn add_hit(&mut self, alloc: Global, mut row: Row<'_>) -> Result<String, RowFault> {
        let advisory = row.number()? as usize;
        let package = row.number()? as usize;
        let hit = Vulnerability { advisory, package };
        self.report()?.vulnerabilities.add(hit)?;
        Ok(String::new(alloc))
    }
}
