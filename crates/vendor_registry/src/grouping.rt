//! What was checked, by the paths of the index.
ghost use Rattle.std.specs.Prelude.{◌≡◌, ◌++◌, ◌∷◌, [], not, ℕ, List, bytes_eq, string_bytes, if◌then◌else◌, IfOk, OnOk};
ghost use Rattle.audit_core.specs.Paths.{is_among};
ghost use Rattle.audit_core.specs.Plans.{with_path};
ghost use Rattle.vendor_registry.specs.Grouped.{AreGroups, HasPaths, group_at};
ghost use Rattle.vendor_registry.specs.Vendored.{on, paths_of};

use crate::checks::CheckedCrate;
use std::alloc::Global;
use std::collections::{BTreeMap, BTreeSet};
use tame_names::{Items, NoMemory, Text};

/// What was checked, by the path of its crate in the index.
pub type Groups = BTreeMap<String, Items<CheckedCrate>>;

// ---- paths

/// Whether a path isn't among the paths so far, which are in this set; it is from now on.
fn is_new(alloc: Global, seen: &mut BTreeSet<Text>, path: &Text) -> Result<bool, NoMemory>
    ensures new { (paths : List (List ℕ)) → HasPaths seen.old.keys paths
        → IfOk result (λ new. new ≡ not (is_among path.now paths)) }
    ensures seen { (paths : List (List ℕ)) → HasPaths seen.old.keys paths
        → OnOk result (HasPaths seen.new.keys (with_path paths path.now)) }
{
    let copy = path.try_clone(alloc)?;
    let new = seen.insert(copy)?;
    Ok(new)
}

/// The paths of what was checked, each once, in the order in which each comes first.
pub fn distinct_paths(alloc: Global, checked: &[CheckedCrate]) -> Result<Items<Text>, NoMemory>
    ensures { IfOk result (λ paths. paths ≡ paths_of checked.now) }
{
    let mut paths = Items::new(alloc);
    let mut seen = BTreeSet::new(alloc);
    for one in checked {
        let new = is_new(alloc, &mut seen, &one.path)?;
        if new {
            paths.add(one.path.try_clone(alloc)?)?;
        }
    }
    Ok(paths)
}

// ---- groups

/// Takes the group of a path away.
fn take_group(alloc: Global, groups: &mut Groups, path: &str) -> Items<CheckedCrate>
    ensures group { result ≡ group_at groups.old path.now }
    ensures left { (q : List ℕ) → group_at groups.new q
        ≡ (if bytes_eq path.now q then [] else group_at groups.old q) }
{
    match groups.remove(path) {
        Some(group) => group,
        None => Items::new(alloc),
    }
}

/// Keeps a group for a path.
fn keep_group(groups: &mut Groups, path: String, group: Items<CheckedCrate>) -> Result<(), NoMemory>
    ensures { (q : List ℕ) → OnOk result (group_at groups.new q
        ≡ (if bytes_eq (string_bytes path) q then group else group_at groups.old q)) }
{
    let _before = groups.insert(path, group)?;
    Ok(())
}

/// Puts what was checked after what is kept for its path.
fn put(alloc: Global, groups: &mut Groups, one: CheckedCrate) -> Result<(), NoMemory>
    ensures { (q : List ℕ) → OnOk result (group_at groups.new q
        ≡ group_at groups.old q ++ on q (one ∷ [])) }
{
    let path = String::from_str(alloc, one.path.as_str())?;
    let mut group = take_group(alloc, groups, path.as_str());
    group.add(one)?;
    keep_group(groups, path, group)
}

/// What was checked, by path, each group in the order in which it was checked.
pub fn grouped(alloc: Global, checked: Items<CheckedCrate>) -> Result<Groups, NoMemory>
    ensures { IfOk result (λ groups. AreGroups checked groups) }
{
    let mut groups = BTreeMap::new(alloc);
    for one in checked.into_vec() {
        put(alloc, &mut groups, one)?;
    }
    Ok(groups)
}

/// What was checked on a path.
pub fn group_on<'g>(groups: &'g Groups, path: &str) -> &'g [CheckedCrate]
    ensures { result.now ≡ group_at groups.now path.now }
{
    match groups.get(path) {
        Some(group) => group.as_slice(),
        None => &[],
    }
}
