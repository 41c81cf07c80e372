//! A tree as text.
ghost use Rattle.std.specs.Prelude.{◌≡◌, ◌<◌, ◌≤◌, ◌++◌, ℕ, length, OnOk, IfOk, string_bytes};
ghost use Rattle.audit_lock.specs.Parents.{tree_of};
ghost use Rattle.audit_lock.specs.Rendering.{marks, rendering, shown_at, unmet, walk};
ghost use Rattle.audit_lock.specs.Rendering as spec;
ghost use Rattle.audit_lock.specs.Walking.{Shows};

use crate::resolving::Package;
use std::alloc::{AllocError, Global};
use tame_names::Items;

/// The mark of a line's own level, and that of a level above.
fn mark(is_own: bool, follows: bool) -> &'static str
    ensures { result.now ≡ spec.mark is_own follows }
{
    match (is_own, follows) {
        (true, true) => "├── ",
        (true, false) => "└── ",
        (false, true) => "│   ",
        (false, false) => "    ",
    }
}

/// Writes the marks of a line's levels.
fn put_marks(out: &mut String, levels: &[bool]) -> Result<(), AllocError>
    ensures { OnOk result (string_bytes out.new ≡ string_bytes out.old ++ marks levels.now) }
{
    for (i, follows) in levels.iter().enumerate() {
        out.push_str(mark(i + 1 == levels.len(), *follows))?;
    }
    Ok(())
}

/// Writes the line of a package.
fn put_line(
    out: &mut String,
    packages: &[Package],
    levels: &[bool],
    place: usize,
) -> Result<(), AllocError>
    requires { place < length packages.now }
    ensures { OnOk result (string_bytes out.new
        ≡ string_bytes out.old ++ (marks levels.now ++ shown_at packages.now place)) }
{
    put_marks(out, levels)?;
    let package = &packages[place];
    out.push_str(package.name.as_str())?;
    out.push_str(" ")?;
    out.push_str(package.version.as_str())?;
    out.push_str("\n")
}

/// Writes a package, and below it its parents unless it was met before.
fn put_below(
    out: &mut String,
    packages: &[Package],
    tree: &[Items<usize>],
    levels: &mut Vec<bool>,
    place: usize,
    met: &mut [bool],
) -> Result<(), AllocError>
    requires made { tree.now ≡ tree_of packages.now }
    requires place { place < length packages.now }
    requires met { length met.old ≡ length packages.now }
    ensures levels { OnOk result (levels.new.items ≡ levels.old.items) }
    ensures fewer { OnOk result (unmet met.new ≤ unmet met.old) }
    ensures shows { OnOk result ((deep : ℕ) → unmet met.old ≤ deep →
        Shows packages.now (walk tree.now deep levels.old.items place met.old)
        (string_bytes out.old) (string_bytes out.new) met.new) }
{
    put_line(out, packages, levels.as_slice(), place)?;
    if met[place] {
        return Ok(());
    }
    met[place] = true;
    let parents = tree[place].as_slice();
    for (i, parent) in parents.iter().enumerate() {
        levels.push(i + 1 < parents.len())?;
        put_below(out, packages, tree, levels, *parent, met)?;
        levels.pop();
    }
    Ok(())
}

/// The tree of a package as text.
pub fn tree_text(
    alloc: Global,
    packages: &[Package],
    tree: &[Items<usize>],
    place: usize,
) -> Result<String, AllocError>
    requires made { tree.now ≡ tree_of packages.now }
    requires place { place < length packages.now }
    ensures { IfOk result (λ s. string_bytes s ≡ rendering packages.now place) }
{
    let mut out = String::new(alloc);
    let mut levels = Vec::new(alloc);
    let mut met = vec![in alloc; false; packages.len()]?;
    put_below(
        &mut out,
        packages,
        tree,
        &mut levels,
        place,
        met.as_mut_slice(),
    )?;
    Ok(out)
}
