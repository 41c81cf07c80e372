//! The strings by which dependencies name packages.
ghost use Rattle.std.specs.Prelude.{◌≡◌, List, ℕ, OnOk, IfOk, string_bytes};
ghost use Rattle.std.specs.Option.{option_or};
ghost use Rattle.std.specs.BTreeMap.{get_by_text};
ghost use Rattle.audit_lock.specs.Naming.{at_name, named_at, names_it, place_of};
ghost use Rattle.audit_lock.specs.Naming as spec;

use crate::listed::ListedPackage;
use std::alloc::Global;
use std::collections::BTreeMap;
use tame_names::{Items, NoMemory, Text};

/// The places of the packages that strings name.
pub type Places = BTreeMap<String, usize>;

/// Adds a string, unless it is there.
fn put_first(places: &mut Places, text: String, place: usize) -> Result<(), NoMemory>
    ensures { OnOk result ((q : List ℕ) → get_by_text places.new q
        ≡ option_or (get_by_text places.old q) (at_name (string_bytes text) place q)) }
{
    if !places.contains_key(text.as_str()) {
        places.insert(text, place)?;
    }
    Ok(())
}

/// What is before the first `#`.
fn before_hash(source: &str) -> &str
    ensures { result.now ≡ spec.before_hash source.now }
{
    match source.split_once('#') {
        Some((front, _)) => front,
        None => source,
    }
}

fn name_and_version(alloc: Global, listed: &ListedPackage) -> Result<String, NoMemory>
    ensures { IfOk result (λ s. string_bytes s ≡ spec.name_and_version listed.now) }
{
    Ok(format!(in alloc; "{} {}", listed.name, listed.version)?)
}

fn full_name(alloc: Global, listed: &ListedPackage, source: &str) -> Result<String, NoMemory>
    ensures { IfOk result (λ s. string_bytes s ≡ spec.full_name listed.now source.now) }
{
    Ok(format!(in alloc; "{} {} ({source})", listed.name, listed.version)?)
}

/// Adds the strings that name a package, unless they already name one.
fn put_package(
    alloc: Global,
    places: &mut Places,
    listed: &ListedPackage,
    place: usize,
) -> Result<(), NoMemory>
    ensures { OnOk result ((q : List ℕ) → get_by_text places.new q
        ≡ option_or (get_by_text places.old q) (named_at listed.now place q)) }
{
    put_first(
        places,
        String::from_str(alloc, listed.name.as_str())?,
        place,
    )?;
    put_first(places, name_and_version(alloc, listed)?, place)?;
    if let Some(source) = &listed.source {
        put_first(places, full_name(alloc, listed, source.as_str())?, place)?;
        let cut = before_hash(source.as_str());
        put_first(places, full_name(alloc, listed, cut)?, place)?;
    }
    Ok(())
}

/// The places of the first packages that strings name.
pub fn places_of(alloc: Global, packages: &[ListedPackage]) -> Result<Places, NoMemory>
    ensures { IfOk result (λ places. (q : List ℕ)
        → get_by_text places q ≡ place_of packages.now q) }
{
    let mut places = Places::new(alloc);
    for (i, package) in packages.iter().enumerate() {
        put_package(alloc, &mut places, package, i)?;
    }
    Ok(places)
}

/// The place of each string; none if one has no place.
pub fn each_place(
    alloc: Global,
    places: &Places,
    texts: &[Text],
) -> Result<Option<Items<usize>>, NoMemory>
    ensures { IfOk result (λ found. found ≡ spec.each_place (get_by_text places.now) texts.now) }
{
    let mut found = Items::new(alloc);
    for text in texts {
        let Some(place) = places.get(text.as_str()) else {
            return Ok(None);
        };
        found.add(*place)?;
    }
    Ok(Some(found))
}
