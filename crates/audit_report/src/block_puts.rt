//! The blocks of a report, each put as soon as it is made: its lines, then its tree, which is
//! rendered straight into the output. So one tree at a time is in memory, and never a full block.
ghost use Rattle.std.specs.Prelude.{◌≡◌, ◌≢◌, ◌≤◌, ◌++◌, [], List, Option, IfErr, IsErrOf, OnOk};
ghost use Rattle.std.specs.List.{flat_map};
ghost use Rattle.tame_names.specs.Counts.{CountRose};
ghost use Rattle.audit_lock.specs.Parents.{tree_of};
ghost use Rattle.audit_lock.specs.declared.resolving.Package.{Package};
ghost use Rattle.audit_advisory.specs.declared.advisories.Advisory.{Advisory};
ghost use Rattle.audit_report.specs.Blocks.{Block, blocks_of, vulnerability_blocks, warning_blocks};
ghost use Rattle.report_parts.specs.Outputs.{IsPut};
ghost use Rattle.audit_report.specs.Shown.{blocks_text, shown_after};
ghost use Rattle.audit_report.specs.Symbols.{Segments};

use crate::blocks::{vulnerability_lines, warning_lines};
use crate::findings::{Findings, Sheet};
use crate::tree_puts::put_block;
use audit_advisory::{Report, Vulnerability, Warning, advisory_at, listed_at};
use audit_lock::package_at;
use report_parts::PrintError;
use std::alloc::Global;
use tame_names::Sink;

/// What a report says about a package, in a block.
trait Reported {
    /// The block, from the symbols, the advisories and the packages.
    ghost blocks: { Option (List Segments) → List Advisory → List Package → Self → List Block };

    /// Puts the block. The page of the sheet must be empty, and is empty afterwards.
    fn put<O: Sink>(
        &self,
        alloc: Global,
        out: &mut O,
        sheet: &mut Sheet,
        findings: &Findings<'_>,
    ) -> Result<(), PrintError>
        requires made { findings.now.tree.now ≡ tree_of findings.now.lockfile.now }
        requires empty { sheet.old.page.bytes.items ≡ [] }
        ensures put { O.tells → IsPut (O.holds out.old)
            (blocks_text findings.now.wanted (findings.now.known.now ++ sheet.old.added)
            (blocks findings.now.symbols.now findings.now.advisories.now
            findings.now.lockfile.now self.now)) (O.holds out.new) result }
        ensures trees { OnOk result (findings.now.known.now ++ sheet.new.added
            ≡ shown_after findings.now.wanted (findings.now.known.now ++ sheet.old.added)
            (blocks findings.now.symbols.now findings.now.advisories.now
            findings.now.lockfile.now self.now)) }
        ensures emptied { OnOk result (sheet.new.page.bytes.items ≡ []) }
        ensures later { O.faults out.old ≤ O.faults out.new }
        ensures failed { IsErrOf result PrintError.Io
            → CountRose (O.faults out.old) (O.faults out.new) }
        ensures placed { IfErr result (λ e. e ≢ PrintError.Tree) };
}

impl Reported for Vulnerability {
    ghost blocks = { vulnerability_blocks };

    fn put<O: Sink>(
        &self,
        alloc: Global,
        out: &mut O,
        sheet: &mut Sheet,
        findings: &Findings<'_>,
    ) -> Result<(), PrintError> {
        let place = self.package;
        let locked = package_at(findings.lockfile.packages(), place);
        let advisory = listed_at(findings.advisories, self.advisory);
        let (Some(locked), Some(advisory)) = (locked, advisory) else {
            return Ok(());
        };
        let lines = vulnerability_lines(alloc, findings.symbols, locked, advisory)?;
        put_block(alloc, out, sheet, findings, lines.as_str(), place, locked)
    }
}

impl Reported for Warning {
    ghost blocks = { warning_blocks };

    fn put<O: Sink>(
        &self,
        alloc: Global,
        out: &mut O,
        sheet: &mut Sheet,
        findings: &Findings<'_>,
    ) -> Result<(), PrintError> {
        let place = self.package;
        let Some(locked) = package_at(findings.lockfile.packages(), place) else {
            return Ok(());
        };
        let advisory = advisory_at(findings.advisories, self.advisory);
        let lines = warning_lines(alloc, findings.symbols, self.kind, locked, advisory)?;
        put_block(alloc, out, sheet, findings, lines.as_str(), place, locked)
    }
}

/// Puts the block of each, one after the other. The page of the sheet must be empty, and is empty
/// afterwards.
fn put_each<O: Sink, R: Reported>(
    alloc: Global,
    out: &mut O,
    sheet: &mut Sheet,
    findings: &Findings<'_>,
    reported: &[R],
) -> Result<(), PrintError>
    requires made { findings.now.tree.now ≡ tree_of findings.now.lockfile.now }
    requires empty { sheet.old.page.bytes.items ≡ [] }
    ensures put { O.tells → IsPut (O.holds out.old)
        (blocks_text findings.now.wanted (findings.now.known.now ++ sheet.old.added)
        (flat_map (R.blocks findings.now.symbols.now findings.now.advisories.now
        findings.now.lockfile.now) reported.now)) (O.holds out.new) result }
    ensures trees { OnOk result (findings.now.known.now ++ sheet.new.added
        ≡ shown_after findings.now.wanted (findings.now.known.now ++ sheet.old.added)
        (flat_map (R.blocks findings.now.symbols.now findings.now.advisories.now
        findings.now.lockfile.now) reported.now)) }
    ensures emptied { OnOk result (sheet.new.page.bytes.items ≡ []) }
    ensures later { O.faults out.old ≤ O.faults out.new }
    ensures failed { IsErrOf result PrintError.Io
        → CountRose (O.faults out.old) (O.faults out.new) }
    ensures placed { IfErr result (λ e. e ≢ PrintError.Tree) }
{
    for item in reported {
        item.put(alloc, out, sheet, findings)?;
    }
    Ok(())
}

/// Puts the blocks of a report: first its vulnerabilities, then its warnings. The page of the sheet
/// must be empty; the trees that are shown are added to those of the sheet.
pub fn put_report<O: Sink>(
    alloc: Global,
    out: &mut O,
    sheet: &mut Sheet,
    findings: &Findings<'_>,
    report: &Report,
) -> Result<(), PrintError>
    requires made { findings.now.tree.now ≡ tree_of findings.now.lockfile.now }
    requires empty { sheet.old.page.bytes.items ≡ [] }
    ensures put { O.tells → IsPut (O.holds out.old)
        (blocks_text findings.now.wanted (findings.now.known.now ++ sheet.old.added)
        (blocks_of findings.now.symbols.now findings.now.advisories.now
        findings.now.lockfile.now report.now)) (O.holds out.new) result }
    ensures trees { OnOk result (findings.now.known.now ++ sheet.new.added
        ≡ shown_after findings.now.wanted (findings.now.known.now ++ sheet.old.added)
        (blocks_of findings.now.symbols.now findings.now.advisories.now
        findings.now.lockfile.now report.now)) }
    ensures later { O.faults out.old ≤ O.faults out.new }
    ensures failed { IsErrOf result PrintError.Io
        → CountRose (O.faults out.old) (O.faults out.new) }
    ensures placed { IfErr result (λ e. e ≢ PrintError.Tree) }
{
    let found = report.vulnerabilities.as_slice();
    put_each(alloc, out, sheet, findings, found)?;
    let warnings = report.warnings.as_slice();
    put_each(alloc, out, sheet, findings, warnings)
}
