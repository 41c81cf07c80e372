//! With lockfiles and advisories: trees, hits, settings, audits and reports.
ghost use Rattle.std.specs.Prelude.{◌≡◌, ◌≢◌, ◌⊎◌, ◌≤◌, ◌++◌, [], ℕ, codes, List, None, Ok, Err, IfOk, IfErr, OnOk, IsErrOf, IsFalse, IsTrue, false, length};
ghost use Rattle.std.specs.List.{list_any};
ghost use Rattle.tame_names.specs.Counts.{CountRose};
ghost use Rattle.tame_names.specs.Output.{AddsPrefix};
ghost use Rattle.audit_lock.specs.Locked.{locked};
ghost use Rattle.audit_lock.specs.declared.lockfiles.LockfileFault.{LockfileFault};
ghost use Rattle.audit_lock.specs.declared.resolving.Package.{Package};
ghost use Rattle.audit_advisory.specs.Reports.{is_vulnerability, vulnerabilities_of};
ghost use Rattle.audit_settings.specs.Settings.{settings};
ghost use Rattle.audit_settings.specs.Refusals.{Refuses};
ghost use Rattle.audit_settings.specs.declared.configs.AuditConfig.{AuditConfig};
ghost use Rattle.audit_core.specs.Auditors.{IsReportOf, audit_exit, audit_report};
ghost use Rattle.audit_core.specs.Audits.{IsAuditOf};
ghost use Rattle.audit_core.specs.declared.auditing.Audited.{Audited};
ghost use Rattle.audit_core.specs.Opened.{IsUnopenedFor, opened_text, standing_at};
ghost use Rattle.audit_core.specs.declared.verdicts.Judged.{Judged};
ghost use Rattle.report_parts.specs.Outputs.{IsPut};
ghost use Rattle.report_parts.specs.Placing.{is_placed};
ghost use Rattle.audit_report.specs.Printed.{printed};
ghost use Rattle.audit_report.specs.StatusLines.{scanning_line_in};
ghost use Rattle.uses.specs.Trees.{trees_of};

use audit_advisory::{Database, OutputConfig, Settings, read_version};
use audit_core::{AuditError, Audited, Auditor, FileAuditError};
use audit_lock::{Lockfile, Package, RenderFault, Tree};
use audit_report::Presenter;
use audit_settings::{AuditConfig, SettingsFault};
use report_parts::PrintError;
use std::alloc::Global;
use tame_cache::CacheDisk;
use tame_names::{FileLock, Files, NoMemory, Sink};
use tame_sparse::Wire;

/// Puts the inverse dependency tree of each package of a name, in the lockfile's order. `Io` where
/// a put failed; the trees in front of it were put.
pub fn put_trees<S: Sink>(
    alloc: Global,
    lockfile: &Lockfile,
    name: &str,
    sink: &mut S,
) -> Result<(), RenderFault>
    ensures put { S.tells → OnOk result
        (S.holds sink.new ≡ S.holds sink.old ++ trees_of name.now lockfile.now) }
    ensures part { S.tells
        → AddsPrefix (S.holds sink.old) (trees_of name.now lockfile.now) (S.holds sink.new) }
    ensures failed { IsErrOf result RenderFault.Io
        → CountRose (S.faults sink.old) (S.faults sink.new) }
    ensures later { S.faults sink.old ≤ S.faults sink.new }
{
    let Ok(tree) = Tree::of(alloc, lockfile) else {
        return Err(RenderFault::NoMemory);
    };
    let packages = lockfile.packages();
    for (place, package) in packages.iter().enumerate() {
        if package.name.as_str() == name {
            tree.render(alloc, lockfile, place, sink)?;
        }
    }
    Ok(())
}

/// Whether some advisory counts as a vulnerability of a package of a lockfile.
pub fn is_hit(
    alloc: Global,
    database: &Database,
    settings: &Settings,
    package: &Package,
) -> Result<bool, NoMemory>
    ensures { IfOk result (λ hit. hit
        ≡ list_any (is_vulnerability settings.now «package».now) database.now) }
{
    match read_version(alloc, package.version.as_str())? {
        Some(version) => Ok(database.hits_at(settings, package, &version)),
        None => Ok(false),
    }
}

/// The settings that a text is, by which an audit asks the cache alone for yanked versions.
pub fn offline_settings(alloc: Global, text: &str) -> Result<AuditConfig, SettingsFault>
    ensures ok { IfOk result (λ config. (read : AuditConfig) × (settings text.now ≡ Ok read)
        × (config ≡ record read {
          yanked = record { enabled = read.yanked.enabled; update_index = false };
        })) }
    ensures refused { Refuses result (settings text.now) }
{
    let mut config = AuditConfig::from_toml(alloc, text)?;
    config.yanked.update_index = false;
    Ok(config)
}

/// How many vulnerabilities a lockfile's text has, each a package that an advisory hits.
pub fn vulnerability_count<W: Wire, D: CacheDisk>(
    alloc: Global,
    auditor: &Auditor,
    text: &str,
    wire: &mut W,
    disk: &mut D,
) -> Result<usize, AuditError>
    ensures ok { IfOk result (λ count. (packages : List Package)
        × (locked text.now ≡ Ok packages)
        × (count ≡ length
        (vulnerabilities_of auditor.now.settings auditor.now.database packages))) }
    ensures refused { (f : LockfileFault) → result ≡ Err (AuditError.Lockfile f)
        → locked text.now ≡ Err f }
{
    let lock = FileLock::unlocked();
    let audited = auditor.audit_text(alloc, text, &lock, wire, disk)?;
    Ok(audited.report.vulnerabilities.len())
}

/// The status that a build should end with by the audit of the lockfile at a path: 1 where the
/// audit fails, else 0.
pub fn exit_of_lockfile<F: Files, W: Wire, D: CacheDisk>(
    alloc: Global,
    auditor: &Auditor,
    files: &mut F,
    path: &str,
    wire: &mut W,
    disk: &mut D,
) -> Result<u8, FileAuditError>
    ensures ok { F.tells → IfOk result (λ status. (text : List ℕ) × (packages : List Package)
        × (judged : List Judged)
        × (opened_text (standing_at (F.host files.old) path.now) ≡ Ok text)
        × (locked text ≡ Ok packages)
        × (status ≡ audit_exit auditor.now (audit_report auditor.now packages judged))) }
    // by the verdicts of the audit
    ensures audited { IfOk result (λ status. (text : List ℕ) × (audited : Audited)
        × (F.tells → opened_text (standing_at (F.host files.old) path.now) ≡ Ok text)
        × IsAuditOf auditor.now W.tells D.tells
        (record {
          exchanges = W.exchanges wire.old;
          files = D.past disk.old;
          wire_faults = W.faults wire.old;
          disk_faults = D.faults disk.old;
          disk_failed = D.failed disk.old;
        })
        (record {
          exchanges = W.exchanges wire.new;
          files = D.past disk.new;
          wire_faults = W.faults wire.new;
          disk_faults = D.faults disk.new;
          disk_failed = D.failed disk.new;
        })
        text audited × (status ≡ audited.exit)) }
    ensures reason { IfErr result
        (IsUnopenedFor F.tells (standing_at (F.host files.old) path.now)) }
{
    let lock = FileLock::unlocked();
    let audited = auditor.audit_lockfile(alloc, files, path, &lock, wire, disk)?;
    Ok(audited.exit)
}

/// Prints an audit of the file `Cargo.lock` as a configuration says: a status line on `err`, and
/// then the report. The database is the auditor's.
pub fn print_audit<O: Sink, E: Sink>(
    alloc: Global,
    config: &OutputConfig,
    database: &Database,
    audited: &Audited,
    out: &mut O,
    err: &mut E,
) -> Result<(), PrintError>
    ensures out { O.tells → IsPut (O.holds out.old)
        (printed (record { config = config.now; trees = []; symbols = None }) None
        database.now audited.now.lockfile audited.now.report).out (O.holds out.new) result }
    ensures err { E.tells → IsPut (E.holds err.old)
        (scanning_line_in config.now (codes "Cargo.lock") (length audited.now.lockfile)
        ++ (printed (record { config = config.now; trees = []; symbols = None }) None
        database.now audited.now.lockfile audited.now.report).err) (E.holds err.new) result }
    ensures failed { IsErrOf result PrintError.Io
        → CountRose (O.faults out.old) (O.faults out.new)
        ⊎ CountRose (E.faults err.old) (E.faults err.new) }
    ensures out_later { O.faults out.old ≤ O.faults out.new }
    ensures err_later { E.faults err.old ≤ E.faults err.new }
    // what has a place that nothing has isn't printed, and is the only thing refused so
    ensures tree { IsErrOf result PrintError.Tree → IsFalse (is_placed
        (length database.now) (length audited.now.lockfile) audited.now.report) }
    ensures shown { OnOk result (IsTrue (is_placed
        (length database.now) (length audited.now.lockfile) audited.now.report)) }
    ensures unput { IsErrOf result PrintError.Tree → out.new ≡ out.old }
    // the report of this database has a place for each that it names
    ensures placed { IsReportOf database.now audited.now
        → IfErr result (λ e. e ≢ PrintError.Tree) }
{
    let mut presenter = Presenter::new(alloc, config)?;
    presenter.before_report(alloc, err, "Cargo.lock", &audited.lockfile)?;
    presenter.print_report(
        alloc,
        out,
        err,
        &audited.report,
        database,
        &audited.lockfile,
        None,
    )
}
