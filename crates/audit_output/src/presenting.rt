//! What a presenter puts for an audit.
ghost use Rattle.std.specs.Prelude.{◌≡◌, ◌≢◌, ◌↔◌, ◌≤◌, ◌⊎◌, Err, IfOk, IfErr, OnOk, option_map};
ghost use Rattle.tame_names.specs.Counts.{CountRose};
ghost use Rattle.audit_core.specs.Auditors.{IsReportOf, self_advisories};
ghost use Rattle.report_parts.specs.Outputs.{IsPut};
ghost use Rattle.audit_report.specs.Printed.{printed};
ghost use Rattle.audit_report.specs.SelfReports.{self_summary, self_text};
ghost use Rattle.audit_output.specs.BinaryOutputs.{with_trees};
ghost use Rattle.audit_output.specs.Outputs.{presenter_of};

use crate::putting::PrintFault;
use audit_advisory::OutputConfig;
use audit_core::{Audited, Auditor};
use audit_report::Presenter;
use report_parts::PrintError;
use std::alloc::Global;
use tame_names::{NoMemory, Sink};

/// A presenter that has shown no tree.
pub fn new_presenter(alloc: Global, config: &OutputConfig) -> Result<Presenter, NoMemory>
    ensures { IfOk result (λ presenter. presenter ≡ presenter_of config.now) }
{
    Presenter::new(alloc, config)
}

/// The fault of a run whose report can't be printed; the error is never `Tree`.
fn print_fault(error: PrintError) -> PrintFault
    requires { error ≢ PrintError.Tree }
    ensures print { (result ≡ PrintFault.Put) ↔ (error ≡ PrintError.Io) }
{
    match error {
        PrintError::Io => PrintFault::Put,
        PrintError::NoMemory => PrintFault::NoMemory,
        PrintError::Tree => unreachable!(),
    }
}

/// Puts the report of an audit and its summary; the path is that of a binary, if there is one.
pub fn print_report<O: Sink, E: Sink>(
    alloc: Global,
    auditor: &Auditor,
    audited: &Audited,
    path: Option<&str>,
    presenter: &mut Presenter,
    out: &mut O,
    err: &mut E,
) -> Result<(), PrintFault>
    requires report { IsReportOf auditor.now.database audited.now }
    ensures out { O.tells → IsPut (O.holds out.old)
        (printed presenter.old (option_map (λ p. p.now) path.entry) auditor.now.database
        audited.now.lockfile audited.now.report).out (O.holds out.new) result }
    ensures err { E.tells → IsPut (E.holds err.old)
        (printed presenter.old (option_map (λ p. p.now) path.entry) auditor.now.database
        audited.now.lockfile audited.now.report).err (E.holds err.new) result }
    ensures out_later { O.faults out.old ≤ O.faults out.new }
    ensures err_later { E.faults err.old ≤ E.faults err.new }
    ensures failed { result ≡ Err PrintFault.Put → CountRose (O.faults out.old) (O.faults out.new)
        ⊎ CountRose (E.faults err.old) (E.faults err.new) }
    ensures config { presenter.new.config ≡ presenter.old.config }
    // the trees that it showed count as shown
    ensures shown { OnOk result (presenter.new ≡ with_trees presenter.old
        (printed presenter.old (option_map (λ p. p.now) path.entry) auditor.now.database
        audited.now.lockfile audited.now.report).trees) }
{
    let report = &audited.report;
    let lockfile = &audited.lockfile;
    match presenter.print_report(alloc, out, err, report, auditor.database(), lockfile, path) {
        Ok(()) => Ok(()),
        Err(error) => Err(print_fault(error)),
    }
}

/// Puts what advisories on the auditor itself say.
pub fn print_self<O: Sink, E: Sink>(
    alloc: Global,
    auditor: &Auditor,
    presenter: &mut Presenter,
    out: &mut O,
    err: &mut E,
) -> Result<(), PrintFault>
    ensures out { O.tells → IsPut (O.holds out.old)
        (self_text auditor.now.database (self_advisories auditor.now.database))
        (O.holds out.new) result }
    ensures err { E.tells → IsPut (E.holds err.old)
        (self_summary presenter.old.config.deny (self_advisories auditor.now.database))
        (E.holds err.new) result }
    ensures out_later { O.faults out.old ≤ O.faults out.new }
    ensures err_later { E.faults err.old ≤ E.faults err.new }
    ensures failed { result ≡ Err PrintFault.Put → CountRose (O.faults out.old) (O.faults out.new)
        ⊎ CountRose (E.faults err.old) (E.faults err.new) }
{
    let own = auditor.self_advisories(alloc)?;
    match presenter.print_self_report(alloc, out, err, auditor.database(), &own) {
        Ok(()) => Ok(()),
        Err(error) => Err(print_fault(error)),
    }
}
