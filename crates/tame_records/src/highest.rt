//! The highest versions of a crate.
ghost use Rattle.std.specs.Prelude.{◌≡◌, ◌<◌, [], length, map, option_map, Option, None, IfOk, IfSome, MatchOption};
ghost use Rattle.std.specs.Option.{option_cmp};
ghost use Rattle.semver.specs.Identifiers.{parts_of};
ghost use Rattle.semver.specs.Parse.{Parts};
ghost use Rattle.tame_records.specs.Highest.{IsHighest, IsHighestNormal, IsLastGreatest, IsNormal, parts_cmp};
ghost use Rattle.tame_records.specs.Highest as spec;

use crate::krates::IndexKrate;
use crate::memory_errors::is_memory;
use crate::versions::IndexVersion;
use itertools::Itertools;
use semver::Version;
use std::alloc::Global;
use tame_names::NoMemory;

/// Its text as a version.
fn precedence(alloc: Global, version: &IndexVersion) -> Result<Option<Version>, NoMemory>
    ensures { IfOk result (λ r. option_map parts_of r ≡ spec.precedence version.now) }
{
    match Version::parse(alloc, version.version.as_str()) {
        Ok(version) => Ok(Some(version)),
        Err(error) => {
            if is_memory(error) {
                Err(NoMemory)
            } else {
                Ok(None)
            }
        }
    }
}

/// Its text as a version, if it isn't yanked and has no pre-release.
fn normal_precedence(alloc: Global, version: &IndexVersion) -> Result<Option<Version>, NoMemory>
    ensures { IfOk result (λ r. option_map parts_of r ≡ spec.normal_precedence version.now) }
{
    if version.yanked {
        return Ok(None);
    }
    match precedence(alloc, version)? {
        Some(found) if found.pre.is_empty() => Ok(Some(found)),
        _ => Ok(None),
    }
}

/// The place of the greatest item, the last of several.
fn last_greatest<T: Ord + Drop>(items: Vec<T>) -> Option<usize>
    ensures within { MatchOption result (items.items ≡ []) (λ i. i < length items.items) }
    ensures greatest { IfSome result (λ i. (best : T) × IsLastGreatest T.cmp items.items i best) }
{
    items.into_iter().position_max()
}

/// The place of the greatest rank, the last of several; having none is lowest.
fn highest_place(ranks: Vec<Option<Version>>) -> Option<usize>
    ensures within { MatchOption result (ranks.items ≡ []) (λ i. i < length ranks.items) }
    ensures greatest { IfSome result
        (λ i. (best : Option Parts) × IsLastGreatest (option_cmp parts_cmp)
        (map (option_map parts_of) ranks.items) i best) }
{
    last_greatest(ranks)
}

fn ranks(alloc: Global, versions: &[IndexVersion]) -> Result<Vec<Option<Version>>, NoMemory>
    ensures { IfOk result (λ rs. map (option_map parts_of) rs.items
        ≡ map spec.precedence versions.now) }
{
    let mut ranks = Vec::new(alloc);
    for version in versions {
        ranks.push(precedence(alloc, version)?)?;
    }
    Ok(ranks)
}

fn normal_ranks(alloc: Global, versions: &[IndexVersion]) -> Result<Vec<Option<Version>>, NoMemory>
    ensures { IfOk result (λ rs. map (option_map parts_of) rs.items
        ≡ map spec.normal_precedence versions.now) }
{
    let mut ranks = Vec::new(alloc);
    for version in versions {
        ranks.push(normal_precedence(alloc, version)?)?;
    }
    Ok(ranks)
}

/// The version, if it has a normal rank.
fn normal_version(alloc: Global, version: &IndexVersion) -> Result<Option<&IndexVersion>, NoMemory>
    ensures { IfOk result (λ found. MatchOption found (spec.normal_precedence version.now ≡ None)
        (λ v. (v.now ≡ version.now) × IsNormal version.now)) }
{
    match normal_precedence(alloc, version)? {
        Some(_) => Ok(Some(version)),
        None => Ok(None),
    }
}

impl IndexKrate {
    /// The greatest version, the last of several; a text that is no version is lowest. There
    /// must be a version (Semantic Versioning 2.0.0, section 11; then build metadata).
    pub fn highest_version(&self, alloc: Global) -> Result<&IndexVersion, NoMemory>
        requires { 0 < length self.now.versions }
        ensures { IfOk result (λ v. IsHighest self.now.versions v.now) }
    {
        let versions = self.versions.as_slice();
        let ranks = ranks(alloc, versions)?;
        match highest_place(ranks) {
            Some(place) => Ok(&versions[place]),
            None => unreachable!(),
        }
    }

    /// The greatest version that isn't yanked and has no pre-release, the last of several; none
    /// if there is no such version.
    pub fn highest_normal_version(&self, alloc: Global) -> Result<Option<&IndexVersion>, NoMemory>
        ensures { IfOk result (λ found. IsHighestNormal self.now.versions
            (option_map (λ v. v.now) found)) }
    {
        let versions = self.versions.as_slice();
        let ranks = normal_ranks(alloc, versions)?;
        let Some(place) = highest_place(ranks) else {
            return Ok(None);
        };
        normal_version(alloc, &versions[place])
    }
}
