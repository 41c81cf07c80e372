//! A block: its lines, and then its tree, which is rendered straight into the output.
ghost use Rattle.std.specs.Prelude.{◌≡◌, ◌≢◌, ◌<◌, ◌≤◌, ◌++◌, [], IfErr, IsErrOf, OnOk, length};
ghost use Rattle.tame_names.specs.Counts.{CountRose};
ghost use Rattle.audit_lock.specs.Parents.{tree_of};
ghost use Rattle.audit_report.specs.Blocks.{tree_at};
ghost use Rattle.report_parts.specs.Outputs.{IsPut};
ghost use Rattle.audit_report.specs.Shown.{is_due, shown_with, tree_lines, tree_text};

use crate::findings::{Findings, Sheet};
use crate::pages::Page;
use crate::shown_trees::{add_due, is_due};
use audit_lock::{Package, RenderFault};
use report_parts::{PrintError, put_text};
use std::alloc::Global;
use tame_names::Sink;

/// Appends a text to a page, puts what the page then holds, and empties it.
fn put_with<O: Sink>(out: &mut O, page: &mut Page, text: &str) -> Result<(), PrintError>
    ensures put { O.tells → IsPut (O.holds out.old) (page.old.bytes.items ++ text.now)
        (O.holds out.new) result }
    ensures emptied { OnOk result (page.new.bytes.items ≡ []) }
    ensures later { O.faults out.old ≤ O.faults out.new }
    ensures failed { IsErrOf result PrintError.Io
        → CountRose (O.faults out.old) (O.faults out.new) }
    ensures placed { IfErr result (λ e. e ≢ PrintError.Tree) }
{
    page.push(text)?;
    put_text(out, page.as_bytes())?;
    page.clear();
    Ok(())
}

/// Puts the tree of the package at a place.
#[tactic(auto, unfolding(crate::specs::Blocks::tree_at))]
fn put_rendering<O: Sink>(
    alloc: Global,
    out: &mut O,
    findings: &Findings<'_>,
    place: usize,
) -> Result<(), PrintError>
    requires made { findings.now.tree.now ≡ tree_of findings.now.lockfile.now }
    requires place { place < length findings.now.lockfile.now }
    ensures put { O.tells → IsPut (O.holds out.old)
        (tree_at findings.now.lockfile.now place) (O.holds out.new) result }
    ensures later { O.faults out.old ≤ O.faults out.new }
    ensures failed { IsErrOf result PrintError.Io
        → CountRose (O.faults out.old) (O.faults out.new) }
    ensures placed { IfErr result (λ e. e ≢ PrintError.Tree) }
{
    match findings.tree.render(alloc, findings.lockfile, place, out) {
        Ok(()) => Ok(()),
        Err(RenderFault::Io) => Err(PrintError::Io),
        Err(RenderFault::NoMemory) => Err(PrintError::NoMemory),
    }
}

/// Puts the lines of a page, then the tree of the package at a place under its title, and
/// an empty line. The page is empty afterwards.
fn put_tree_text<O: Sink>(
    alloc: Global,
    out: &mut O,
    page: &mut Page,
    findings: &Findings<'_>,
    place: usize,
) -> Result<(), PrintError>
    requires made { findings.now.tree.now ≡ tree_of findings.now.lockfile.now }
    requires place { place < length findings.now.lockfile.now }
    ensures put { O.tells → IsPut (O.holds out.old) (page.old.bytes.items
        ++ tree_text (tree_at findings.now.lockfile.now place)) (O.holds out.new) result }
    ensures emptied { OnOk result (page.new.bytes.items ≡ []) }
    ensures later { O.faults out.old ≤ O.faults out.new }
    ensures failed { IsErrOf result PrintError.Io
        → CountRose (O.faults out.old) (O.faults out.new) }
    ensures placed { IfErr result (λ e. e ≢ PrintError.Tree) }
{
    put_with(out, page, "Dependency tree:\n")?;
    put_rendering(alloc, out, findings, place)?;
    put_with(out, page, "\n")
}

/// Puts the lines of a page, a tree if it is due, and the empty line that ends a block. The page
/// is empty afterwards.
fn put_tree_lines<O: Sink>(
    alloc: Global,
    out: &mut O,
    page: &mut Page,
    due: bool,
    findings: &Findings<'_>,
    place: usize,
) -> Result<(), PrintError>
    requires made { findings.now.tree.now ≡ tree_of findings.now.lockfile.now }
    requires place { place < length findings.now.lockfile.now }
    ensures put { O.tells → IsPut (O.holds out.old) (page.old.bytes.items
        ++ tree_lines due (tree_at findings.now.lockfile.now place)) (O.holds out.new) result }
    ensures emptied { OnOk result (page.new.bytes.items ≡ []) }
    ensures later { O.faults out.old ≤ O.faults out.new }
    ensures failed { IsErrOf result PrintError.Io
        → CountRose (O.faults out.old) (O.faults out.new) }
    ensures placed { IfErr result (λ e. e ≢ PrintError.Tree) }
{
    if due {
        put_tree_text(alloc, out, page, findings, place)
    } else {
        put_with(out, page, "\n")
    }
}

/// Puts what the sheet's page holds, the lines of a block, its package's tree (unless it was shown
/// before or none is wanted), and the empty line that ends it. A tree that was put is added to
/// those shown. The page is empty afterwards.
pub fn put_block<O: Sink>(
    alloc: Global,
    out: &mut O,
    sheet: &mut Sheet,
    findings: &Findings<'_>,
    lines: &str,
    place: usize,
    locked: &Package,
) -> Result<(), PrintError>
    requires made { findings.now.tree.now ≡ tree_of findings.now.lockfile.now }
    requires place { place < length findings.now.lockfile.now }
    ensures put { O.tells → IsPut (O.holds out.old) ((sheet.old.page.bytes.items ++ lines.now)
        ++ tree_lines (is_due findings.now.wanted (findings.now.known.now ++ sheet.old.added)
        locked.now) (tree_at findings.now.lockfile.now place)) (O.holds out.new) result }
    ensures added { OnOk result (findings.now.known.now ++ sheet.new.added
        ≡ shown_with findings.now.wanted (findings.now.known.now ++ sheet.old.added)
        locked.now) }
    ensures emptied { OnOk result (sheet.new.page.bytes.items ≡ []) }
    ensures later { O.faults out.old ≤ O.faults out.new }
    ensures failed { IsErrOf result PrintError.Io
        → CountRose (O.faults out.old) (O.faults out.new) }
    ensures placed { IfErr result (λ e. e ≢ PrintError.Tree) }
{
    sheet.page.push(lines)?;
    let due = is_due(findings.wanted, findings.known, &sheet.added, locked);
    put_tree_lines(alloc, out, &mut sheet.page, due, findings, place)?;
    add_due(
        alloc,
        findings.wanted,
        findings.known,
        &mut sheet.added,
        locked,
    )?;
    Ok(())
}
