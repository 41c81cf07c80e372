//! Advisories in the order of the names they are about, and searches by name.
ghost use Rattle.std.specs.Prelude.{◌≡◌, ℕ, ◌+◌, ◌*◌, ◌^◌, ◌<◌, ◌≤◌, IfOk, length, slice_index, slice_range, true, false};
ghost use Rattle.std.specs.List.{filter};
ghost use Rattle.std.specs.Cmp.Lexicographic.{slice_cmp};
ghost use Rattle.std.specs.Ordering.{nat_cmp};
ghost use Rattle.audit_advisory.specs.Names.{IsByName, has_name};
ghost use Rattle.audit_advisory.specs.Names as spec;
ghost use Rattle.audit_advisory.specs.Places.{places_from};

use crate::advisories::Advisory;
use crate::counting::{Comparisons, name_order};
use std::alloc::Global;
use std::cmp::Ordering;
use tame_names::{Items, NoMemory};

/// The name that the advisory at a place is about; empty if there is none.
fn name_at(advisories: &[Advisory], place: usize) -> &str
    ensures { result.now ≡ spec.name_at advisories.now place }
{
    match advisories.get(place) {
        Some(advisory) => advisory.metadata.package.as_str(),
        None => "",
    }
}

/// All places, in order.
fn places(alloc: Global, advisories: &[Advisory]) -> Result<Vec<usize>, NoMemory>
    ensures { IfOk result (λ places. places.items ≡ places_from 0 advisories.now) }
{
    let mut places = Vec::new(alloc);
    for (i, _) in advisories.iter().enumerate() {
        places.push(i)?;
    }
    Ok(places)
}

/// All places in the order of their names; those of one name in their own order.
pub(crate) fn sorted_places(
    alloc: Global,
    advisories: &[Advisory],
) -> Result<Items<usize>, NoMemory>
    ensures { IfOk result (λ places. IsByName advisories.now places) }
{
    let mut places = places(alloc, advisories)?;
    places.sort_by(|a, b| name_at(advisories, *a).cmp(name_at(advisories, *b)))?;
    Ok(Items::of(places))
}

/// Whether a search goes on to the right of a name with this order.
fn goes_on(past: bool, order: Ordering) -> bool
    ensures { result ≡ spec.goes_on past order }
{
    match order {
        Ordering::Less => true,
        Ordering::Equal => past,
        Ordering::Greater => false,
    }
}

/// The first place in the order whose name is not below a name; with `past`, whose name is
/// above it.
fn first_place(
    advisories: &[Advisory],
    by_name: &[usize],
    name: &str,
    past: bool,
    count: &mut Comparisons,
) -> usize
    requires { IsByName advisories.now by_name.now }
    ensures within { result ≤ length by_name.now }
    ensures before { (k : ℕ) → k < result → spec.goes_on past
        (slice_cmp nat_cmp (spec.name_at advisories.now (slice_index by_name.now k)) name.now)
        ≡ true }
    ensures behind { (k : ℕ) → result ≤ k → k < length by_name.now → spec.goes_on past
        (slice_cmp nat_cmp (spec.name_at advisories.now (slice_index by_name.now k)) name.now)
        ≡ false }
    ensures most { (d : ℕ) → length by_name.now < 2 ^ d → count.new.made ≤ count.old.made + d }
    ensures least { count.old.made ≤ count.new.made }
{
    let mut low = 0;
    let mut high = by_name.len();
    while low < high {
        let middle = low + (high - low) / 2;
        let order = name_order(name_at(advisories, by_name[middle]), name, count);
        if goes_on(past, order) {
            low = middle + 1;
        } else {
            high = middle;
        }
    }
    low
}

/// Where the places of the advisories about a name begin and end, by two binary searches.
pub(crate) fn piece_of(
    advisories: &[Advisory],
    by_name: &[usize],
    name: &str,
    count: &mut Comparisons,
) -> (usize, usize)
    requires { IsByName advisories.now by_name.now }
    ensures ordered { result.0 ≤ result.1 }
    ensures within { result.1 ≤ length by_name.now }
    ensures piece { slice_range by_name.now result.0 result.1
        ≡ filter (has_name advisories.now name.now) (places_from 0 advisories.now) }
    ensures most { (d : ℕ) → length advisories.now < 2 ^ d
        → count.new.made ≤ count.old.made + 2 * d }
    ensures least { count.old.made ≤ count.new.made }
{
    let first = first_place(advisories, by_name, name, false, count);
    let end = first_place(advisories, by_name, name, true, count);
    (first, end)
}
