//! Changes of a report, and of what prints it.
use crate::reports::filtering::symbols;
use crate::row_words::{denied, format, kind, place, place_or_none};
use crate::stage::Stage;
use audit_advisory::{OutputConfig, Vulnerability, Warning};
use audit_report::Presenter;
use row_fixtures::{Row, RowFault};
use std::alloc::Global;
use tame_names::Items;

impl Stage {
    /// `empty`
    pub fn make_empty(&mut self, alloc: Global) -> Result<String, RowFault> {
        let laid = self.laid()?;
        laid.report.vulnerabilities = Items::new(alloc);
        laid.report.warnings = Items::new(alloc);
        Ok(String::new(alloc))
    }

    /// `hit ADVISORY PACKAGE`
    pub fn add_hit(&mut self, alloc: Global, mut row: Row<'_>) -> Result<String, RowFault> {
        let advisory = place(&mut row)?;
        let package = place(&mut row)?;
        let hit = Vulnerability { advisory, package };
        self.laid()?.report.vulnerabilities.add(hit)?;
        Ok(String::new(alloc))
    }

    /// `warn KIND PACKAGE ADVISORY`
    pub fn add_warning(&mut self, alloc: Global, mut row: Row<'_>) -> Result<String, RowFault> {
        let warning = Warning {
            kind: kind(&mut row)?,
            package: place(&mut row)?,
            advisory: place_or_none(alloc, &mut row)?,
        };
        self.laid()?.report.warnings.add(warning)?;
        Ok(String::new(alloc))
    }

    /// `presenter FORMAT TREES STATUS DENY`
    pub fn make_presenter(&mut self, alloc: Global, mut row: Row<'_>) -> Result<String, RowFault> {
        let config = OutputConfig {
            format: format(&mut row)?,
            show_tree: row.is("tree", "bare")?,
            quiet: row.is("quiet", "loud")?,
            deny: denied(alloc, &mut row)?,
        };
        self.presenter = Some(Presenter::new(alloc, &config)?);
        Ok(String::new(alloc))
    }

    /// `symbols SYMBOLS`
    pub fn set_symbols(&mut self, alloc: Global, mut row: Row<'_>) -> Result<String, RowFault> {
        let symbols = symbols(alloc, row.word())?;
        match &mut self.presenter {
            Some(presenter) => presenter.set_symbols(symbols),
            None => return Err(RowFault::Unread),
        }
        Ok(String::new(alloc))
    }
}
