//! Prints reports, and each tree once over its life.
ghost use Rattle.std.specs.Prelude.{◌≡◌, ◌≢◌, ◌<◌, ◌≤◌, ◌++◌, ◌↔◌, ◌⊎◌, [], None, Some, length, option_map, All, IfOk, IfErr, IsErrOf, IsFalse, OnOk, OnErr};
ghost use Rattle.tame_names.specs.Counts.{CountRose};
ghost use Rattle.audit_advisory.specs.Reports.{IsPlaced};
ghost use Rattle.audit_advisory.specs.Exits.{report_fails, self_fails};
ghost use Rattle.audit_report.specs.Blocks.{blocks_of};
ghost use Rattle.audit_report.specs.Documents.{ReadsBack};
ghost use Rattle.report_parts.specs.Outputs.{IsPut};
ghost use Rattle.report_parts.specs.Placing.{are_placed, is_placed};
ghost use Rattle.audit_report.specs.Printed.{printed, terminal_form};
ghost use Rattle.audit_sarif.specs.Sarif.{sarif_log, uri_of};
ghost use Rattle.audit_sarif.specs.SarifObjects.{LogReadsBack};
ghost use Rattle.audit_report.specs.SelfReports.{self_summary, self_text};
ghost use Rattle.audit_report.specs.Shown.{blocks_text, shown_after};
ghost use Rattle.audit_report.specs.StatusLines.{binary_line_in, scanning_line_in};

use crate::binaries::Found;
use crate::block_puts::put_report;
use crate::documents::report_line;
use crate::findings::{Findings, Sheet};
use crate::pages::Page;
use crate::self_reports::{self_summary, self_text};
use crate::shown_trees::Trees;
use crate::status_lines::{binary_line_in, scanning_line_in};
use crate::summaries::summary;
use crate::symbols::SymbolSet;
use audit_advisory::{Database, OutputConfig, OutputFormat, Report, report_fails, self_fails};
use audit_lock::{Lockfile, Tree};
use audit_sarif::report_sarif_line;
use report_parts::{PrintError, are_placed, is_placed, put_text, put_texts};
use std::alloc::Global;
use tame_names::{Items, NoMemory, Sink};

/// Prints reports. Over its life it shows each package's tree once.
#[derive(Debug, Drop)]
pub struct Presenter {
    config: OutputConfig,
    /// The trees that it has shown.
    trees: Trees,
    /// The symbols of a binary, if they are set.
    symbols: Option<SymbolSet>,
}

/// A copy of a configuration.
fn config_copied(alloc: Global, config: &OutputConfig) -> Result<OutputConfig, NoMemory>
    ensures { IfOk result (λ copy. copy ≡ config.now) }
{
    let mut deny = Items::new(alloc);
    deny.extend(config.deny.as_slice())?;
    Ok(OutputConfig {
        deny,
        format: config.format,
        quiet: config.quiet,
        show_tree: config.show_tree,
    })
}

impl Presenter {
    /// A presenter that has shown no tree, without symbols.
    pub fn new(alloc: Global, config: &OutputConfig) -> Result<Presenter, NoMemory>
        ensures config { IfOk result (λ presenter. presenter.config ≡ config.now) }
        ensures trees { IfOk result (λ presenter. presenter.trees ≡ []) }
        ensures symbols { IfOk result (λ presenter. presenter.symbols ≡ None) }
    {
        Ok(Presenter {
            config: config_copied(alloc, config)?,
            trees: Trees::new(alloc),
            symbols: None,
        })
    }

    /// Sets the symbols of a binary. From then on the terminal form names those functions of an
    /// advisory that are affected in the package's version and that the symbols keep.
    pub fn set_symbols(&mut self, symbols: SymbolSet)
        ensures symbols { self.new.symbols ≡ Some symbols }
        ensures config { self.new.config ≡ self.old.config }
        ensures trees { self.new.trees ≡ self.old.trees }
    {
        self.symbols = Some(symbols);
    }

    /// Puts the status line of a lockfile, unless status lines are left out.
    pub fn before_report<E: Sink>(
        &mut self,
        alloc: Global,
        err: &mut E,
        path: &str,
        lockfile: &Lockfile,
    ) -> Result<(), PrintError>
        ensures err { E.tells → IsPut (E.holds err.old)
            (scanning_line_in self.old.config path.now (length lockfile.now))
            (E.holds err.new) result }
        ensures later { E.faults err.old ≤ E.faults err.new }
        ensures failed { IsErrOf result PrintError.Io
            → CountRose (E.faults err.old) (E.faults err.new) }
        ensures placed { IfErr result (λ e. e ≢ PrintError.Tree) }
        ensures unput { IsErrOf result PrintError.NoMemory → err.new ≡ err.old }
        ensures same { self.new ≡ self.old }
    {
        let line = scanning_line_in(alloc, &self.config, path, lockfile.packages().len())?;
        put_text(err, line.as_bytes())
    }

    /// Puts the status line of a binary, by what it reports of its packages, unless status lines
    /// are left out.
    pub fn binary_scan_report<E: Sink>(
        &mut self,
        alloc: Global,
        err: &mut E,
        found: Found,
        dependencies: usize,
        path: &str,
    ) -> Result<(), PrintError>
        ensures err { E.tells → IsPut (E.holds err.old)
            (binary_line_in self.old.config found dependencies path.now)
            (E.holds err.new) result }
        ensures later { E.faults err.old ≤ E.faults err.new }
        ensures failed { IsErrOf result PrintError.Io
            → CountRose (E.faults err.old) (E.faults err.new) }
        ensures placed { IfErr result (λ e. e ≢ PrintError.Tree) }
        ensures unput { IsErrOf result PrintError.NoMemory → err.new ≡ err.old }
        ensures same { self.new ≡ self.old }
    {
        let line = binary_line_in(alloc, &self.config, found, dependencies, path)?;
        put_text(err, line.as_bytes())
    }

    /// Puts the blocks of a report. The sheet must be empty; the trees that are shown are added
    /// to it.
    fn put_blocks<O: Sink>(
        &self,
        alloc: Global,
        out: &mut O,
        sheet: &mut Sheet,
        report: &Report,
        database: &Database,
        lockfile: &Lockfile,
    ) -> Result<(), PrintError>
        requires empty { sheet.old.page.bytes.items ≡ [] }
        requires none { sheet.old.added ≡ [] }
        ensures put { O.tells → IsPut (O.holds out.old)
            (blocks_text self.now.config.show_tree self.now.trees
            (blocks_of self.now.symbols database.now lockfile.now report.now))
            (O.holds out.new) result }
        ensures trees { OnOk result (self.now.trees ++ sheet.new.added
            ≡ shown_after self.now.config.show_tree self.now.trees
            (blocks_of self.now.symbols database.now lockfile.now report.now)) }
        ensures later { O.faults out.old ≤ O.faults out.new }
        ensures failed { IsErrOf result PrintError.Io
            → CountRose (O.faults out.old) (O.faults out.new) }
        ensures placed { IfErr result (λ e. e ≢ PrintError.Tree) }
    {
        let tree = Tree::of(alloc, lockfile)?;
        let findings = Findings {
            advisories: database.advisories(),
            lockfile,
            tree: &tree,
            symbols: &self.symbols,
            wanted: self.config.show_tree,
            known: self.trees.as_slice(),
        };
        put_report(alloc, out, sheet, &findings, report)
    }

    /// Puts the summary of a report; once it is put, the report's trees count as shown.
    fn put_summary<E: Sink>(
        &mut self,
        err: &mut E,
        added: &mut Trees,
        summary: &str,
    ) -> Result<(), PrintError>
        ensures put { E.tells
            → IsPut (E.holds err.old) summary.now (E.holds err.new) result }
        ensures later { E.faults err.old ≤ E.faults err.new }
        ensures failed { IsErrOf result PrintError.Io
            → CountRose (E.faults err.old) (E.faults err.new) }
        ensures placed { IfErr result (λ e. e ≢ PrintError.Tree) }
        ensures config { self.new.config ≡ self.old.config }
        ensures symbols { self.new.symbols ≡ self.old.symbols }
        ensures trees { OnOk result (self.new.trees ≡ self.old.trees ++ added.old) }
        ensures same { OnErr result (self.new ≡ self.old) }
    {
        let known = self.trees.count();
        self.trees.extend(added)?;
        match put_text(err, summary.as_bytes()) {
            Ok(()) => Ok(()),
            Err(error) => {
                self.trees.keep(known);
                Err(error)
            }
        }
    }

    /// Prints a report in the terminal form: its blocks one after the other on `out`, then its
    /// summary on `err`.
    fn print_terminal<O: Sink, E: Sink>(
        &mut self,
        alloc: Global,
        out: &mut O,
        err: &mut E,
        report: &Report,
        database: &Database,
        lockfile: &Lockfile,
        path: Option<&str>,
    ) -> Result<(), PrintError>
        ensures out { O.tells → IsPut (O.holds out.old)
            (terminal_form self.old (option_map (λ p. p.now) path.entry)
            database.now lockfile.now report.now).out (O.holds out.new) result }
        ensures err { E.tells → IsPut (E.holds err.old)
            (terminal_form self.old (option_map (λ p. p.now) path.entry)
            database.now lockfile.now report.now).err (E.holds err.new) result }
        ensures in_order { O.tells → (O.holds out.new ≡ O.holds out.old
            ++ (terminal_form self.old (option_map (λ p. p.now) path.entry)
            database.now lockfile.now report.now).out)
            ⊎ (err.new ≡ err.old) }
        ensures out_later { O.faults out.old ≤ O.faults out.new }
        ensures err_later { E.faults err.old ≤ E.faults err.new }
        ensures failed { IsErrOf result PrintError.Io
            → CountRose (O.faults out.old) (O.faults out.new)
            ⊎ CountRose (E.faults err.old) (E.faults err.new) }
        ensures placed { IfErr result (λ e. e ≢ PrintError.Tree) }
        ensures config { self.new.config ≡ self.old.config }
        ensures symbols { self.new.symbols ≡ self.old.symbols }
        ensures trees { OnOk result (self.new.trees
            ≡ (terminal_form self.old (option_map (λ p. p.now) path.entry)
            database.now lockfile.now report.now).trees) }
        ensures same { OnErr result (self.new ≡ self.old) }
    {
        let summary = summary(alloc, self.config.deny.as_slice(), path, report)?;
        let mut sheet = Sheet {
            page: Page::new(alloc),
            added: Trees::new(alloc),
        };
        self.put_blocks(alloc, out, &mut sheet, report, database, lockfile)?;
        self.put_summary(err, &mut sheet.added, summary.as_str())
    }

    /// Prints a report in the presenter's form: its text on `out`, its summary on `err`; `path` is
    /// that of a binary, if there is one. `Tree` comes before anything is put. The terminal form is
    /// put block by block, so any other refusal may leave a part of it; after any refusal the same
    /// trees count as shown as before. JSON and SARIF are one line on `out` alone, and the trees
    /// stay as they were; results are located at `path`, or at `Cargo.lock`.
    pub fn print_report<O: Sink, E: Sink>(
        &mut self,
        alloc: Global,
        out: &mut O,
        err: &mut E,
        report: &Report,
        database: &Database,
        lockfile: &Lockfile,
        path: Option<&str>,
    ) -> Result<(), PrintError>
        ensures tree { IsErrOf result PrintError.Tree
            ↔ IsFalse (is_placed (length database.now) (length lockfile.now) report.now) }
        // the report of this database on this lockfile never causes `Tree`
        ensures placed { IsPlaced report.now → report.now.advisory_count ≡ length database.now
            → report.now.dependency_count ≡ length lockfile.now
            → IfErr result (λ e. e ≢ PrintError.Tree) }
        ensures out { O.tells → IsPut (O.holds out.old)
            (printed self.old (option_map (λ p. p.now) path.entry)
            database.now lockfile.now report.now).out (O.holds out.new) result }
        ensures err { E.tells → IsPut (E.holds err.old)
            (printed self.old (option_map (λ p. p.now) path.entry)
            database.now lockfile.now report.now).err (E.holds err.new) result }
        // err is called only once out holds its whole text
        ensures in_order { O.tells → (O.holds out.new ≡ O.holds out.old
            ++ (printed self.old (option_map (λ p. p.now) path.entry)
            database.now lockfile.now report.now).out)
            ⊎ (err.new ≡ err.old) }
        ensures out_later { O.faults out.old ≤ O.faults out.new }
        ensures err_later { E.faults err.old ≤ E.faults err.new }
        ensures failed { IsErrOf result PrintError.Io
            → CountRose (O.faults out.old) (O.faults out.new)
            ⊎ CountRose (E.faults err.old) (E.faults err.new) }
        ensures unput { IsErrOf result PrintError.Tree
            → (out.new ≡ out.old) × (err.new ≡ err.old) }
        ensures config { self.new.config ≡ self.old.config }
        ensures symbols { self.new.symbols ≡ self.old.symbols }
        ensures trees { OnOk result (self.new.trees
            ≡ (printed self.old (option_map (λ p. p.now) path.entry)
            database.now lockfile.now report.now).trees) }
        ensures same { OnErr result (self.new ≡ self.old) }
        // the line of JSON is read as the intended object
        ensures reads_back { self.old.config.format ≡ OutputFormat.Json
            → OnOk result (ReadsBack database.now lockfile.now report.now) }
        // the same for SARIF
        ensures sarif_reads_back { self.old.config.format ≡ OutputFormat.Sarif
            → OnOk result (LogReadsBack
            (sarif_log (uri_of (option_map (λ p. p.now) path.entry))
            database.now lockfile.now report.now)) }
    {
        let advisories = database.advisories().len();
        if !is_placed(advisories, lockfile.packages().len(), report) {
            return Err(PrintError::Tree);
        }
        match self.config.format {
            OutputFormat::Terminal => {
                self.print_terminal(alloc, out, err, report, database, lockfile, path)
            }
            OutputFormat::Json => {
                let packages = lockfile.packages();
                let line = report_line(alloc, report, database.advisories(), packages)?;
                put_texts(out, err, line.as_slice(), &[])
            }
            OutputFormat::Sarif => {
                let line = report_sarif_line(alloc, database, lockfile, report, path)?;
                put_texts(out, err, line.as_slice(), &[])
            }
        }
    }

    /// Prints what advisories on the auditor itself say, by their places, if there are any: a
    /// line on `err`, then the text on `out`. `Tree` comes before anything is put.
    pub fn print_self_report<O: Sink, E: Sink>(
        &mut self,
        alloc: Global,
        out: &mut O,
        err: &mut E,
        database: &Database,
        advisories: &Items<usize>,
    ) -> Result<(), PrintError>
        ensures tree { IsErrOf result PrintError.Tree
            ↔ IsFalse (are_placed (length database.now) advisories.now) }
        // places that a query of this database finds never cause `Tree`
        ensures placed { All (λ place. place < length database.now) advisories.now
            → IfErr result (λ e. e ≢ PrintError.Tree) }
        ensures out { O.tells → IsPut (O.holds out.old)
            (self_text database.now advisories.now) (O.holds out.new) result }
        ensures err { E.tells → IsPut (E.holds err.old)
            (self_summary self.old.config.deny advisories.now) (E.holds err.new) result }
        // out is called only once err holds its whole line
        ensures in_order { E.tells → (E.holds err.new ≡ E.holds err.old
            ++ self_summary self.old.config.deny advisories.now)
            ⊎ (out.new ≡ out.old) }
        ensures out_later { O.faults out.old ≤ O.faults out.new }
        ensures err_later { E.faults err.old ≤ E.faults err.new }
        ensures failed { IsErrOf result PrintError.Io
            → CountRose (O.faults out.old) (O.faults out.new)
            ⊎ CountRose (E.faults err.old) (E.faults err.new) }
        ensures unput { IfErr result (λ e. e ≢ PrintError.Io
            → (out.new ≡ out.old) × (err.new ≡ err.old)) }
        ensures same { self.new ≡ self.old }
    {
        let places = advisories.as_slice();
        if !are_placed(database.advisories().len(), places) {
            return Err(PrintError::Tree);
        }
        let line = self_summary(alloc, self.config.deny.as_slice(), places)?;
        let text = self_text(alloc, database.advisories(), places)?;
        put_texts(err, out, line.as_bytes(), text.as_bytes())
    }

    /// Whether an audit fails because of its report: it has a vulnerability, or a warning of a
    /// denied kind.
    pub fn should_exit_with_failure(&self, report: &Report) -> bool
        ensures { result ≡ report_fails report.now self.now.config.deny }
    {
        report_fails(report, self.config.deny.as_slice())
    }

    /// Whether an audit fails because of advisories on the auditor itself: there are some, and they
    /// are denied.
    pub fn should_exit_with_failure_due_to_self(&self, advisories: &Items<usize>) -> bool
        ensures { result ≡ self_fails self.now.config.deny advisories.now }
    {
        self_fails(self.config.deny.as_slice(), advisories.as_slice())
    }
}
