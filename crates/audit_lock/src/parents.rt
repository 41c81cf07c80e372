//! The parents of packages.
ghost use Rattle.std.specs.Prelude.{◌≡◌, ◌<◌, ◌==◌, ℕ, [], length, OnOk, IfOk, if◌then◌else◌};
ghost use Rattle.audit_lock.specs.Parents.{is_among, parents_at, parents_before, tree_of};
ghost use Rattle.audit_lock.specs.Putting.{with_parent};
ghost use Rattle.audit_lock.specs.Putting as spec;

use crate::resolving::Package;
use std::alloc::Global;
use tame_names::{Items, NoMemory};

/// Whether a place is the last of these.
fn is_last(parents: &[usize], place: usize) -> bool
    ensures { result ≡ spec.is_last place parents.now }
{
    match parents.last() {
        Some(last) => *last == place,
        None => false,
    }
}

/// Adds a parent, unless it is already the last.
fn put_last(parents: &mut Items<usize>, parent: usize) -> Result<(), NoMemory>
    ensures { OnOk result (parents.new ≡ with_parent parent parents.old) }
{
    if is_last(parents.as_slice(), parent) {
        return Ok(());
    }
    parents.add(parent)
}

/// Adds a parent to the package at a place.
fn put_parent(tree: &mut [Items<usize>], place: usize, parent: usize) -> Result<(), NoMemory>
    ensures { OnOk result ((q : ℕ) → q < length tree.new → parents_at tree.new q
        ≡ (if place == q then with_parent parent (parents_at tree.old q)
        else parents_at tree.old q)) }
{
    if place < tree.len() {
        put_last(&mut tree[place], parent)?;
    }
    Ok(())
}

/// Adds a package as parent to each package that it depends on.
fn put_package(
    tree: &mut [Items<usize>],
    parent: usize,
    dependencies: &[usize],
) -> Result<(), NoMemory>
    ensures { OnOk result ((q : ℕ) → q < length tree.new → parents_at tree.new q
        ≡ (if is_among q dependencies.now then with_parent parent (parents_at tree.old q)
        else parents_at tree.old q)) }
{
    for place in dependencies {
        put_parent(tree, *place, parent)?;
    }
    Ok(())
}

/// This many empty lists.
fn empty_lists(alloc: Global, count: usize) -> Result<Vec<Items<usize>>, NoMemory>
    ensures length { IfOk result (λ v. length v.items ≡ count) }
    ensures empty { IfOk result (λ v. (q : ℕ) → parents_at v.items q ≡ []) }
{
    let mut lists = Vec::with_capacity(alloc, count)?;
    for _ in 0..count {
        lists.push(Items::new(alloc))?;
    }
    Ok(lists)
}

/// Adds each package as parent to the packages that it depends on.
fn put_packages(tree: &mut [Items<usize>], packages: &[Package]) -> Result<(), NoMemory>
    requires { (q : ℕ) → parents_at tree.old q ≡ [] }
    ensures { OnOk result ((q : ℕ) → q < length tree.new
        → parents_at tree.new q ≡ parents_before packages.now (length packages.now) q) }
{
    for (i, package) in packages.iter().enumerate() {
        put_package(tree, i, package.dependencies.as_slice())?;
    }
    Ok(())
}

/// The parents of each package, in the order of the packages.
pub fn parents_of(alloc: Global, packages: &[Package]) -> Result<Items<Items<usize>>, NoMemory>
    ensures { IfOk result (λ tree. tree ≡ tree_of packages.now) }
{
    let mut tree = empty_lists(alloc, packages.len())?;
    put_packages(tree.as_mut_slice(), packages)?;
    Ok(Items::of(tree))
}
