//! The ends of an interval of versions.
ghost use Rattle.std.specs.Prelude.{◌≡◌, IfOk, codes};
ghost use Rattle.semver.specs.Identifiers.{comparator_view, pre_text};
ghost use Rattle.audit_advisory.specs.Points.{point_of};
ghost use Rattle.audit_advisory.specs.Intervals.{keeps_lower, keeps_upper};
ghost use Rattle.audit_advisory.specs.Intervals as spec;

use crate::edges::{Edge, Release};
use semver::{Comparator, Prerelease, Version};
use std::alloc::Global;
use std::cmp::Ordering;
use tame_names::NoMemory;

/// Where an interval begins.
#[derive(Debug, Drop)]
pub enum Lower {
    /// Each version is high enough.
    Free,
    /// At this edge, which is inside.
    From(Edge),
    /// After this edge, which is outside.
    Above(Edge),
    /// No version is high enough: its number would pass 64 bits.
    Unreachable,
}

/// Where an interval ends.
#[derive(Debug, Drop)]
pub enum Upper {
    /// Each version is low enough.
    Free,
    /// At this edge, which is inside.
    UpTo(Edge),
    /// Before this edge, which is outside.
    Below(Edge),
}

impl Lower {
    /// Whether a version isn't too low.
    pub fn keeps(&self, version: &Version) -> bool
        ensures { result ≡ keeps_lower self.now (point_of version.now) }
    {
        match self {
            Lower::Free => true,
            Lower::From(edge) => edge.order_of(version) != Ordering::Less,
            Lower::Above(edge) => edge.order_of(version) == Ordering::Greater,
            Lower::Unreachable => false,
        }
    }
}

impl Upper {
    /// Whether a version isn't too high.
    pub fn keeps(&self, version: &Version) -> bool
        ensures { result ≡ keeps_upper self.now (point_of version.now) }
    {
        match self {
            Upper::Free => true,
            Upper::UpTo(edge) => edge.order_of(version) != Ordering::Greater,
            Upper::Below(edge) => edge.order_of(version) == Ordering::Less,
        }
    }
}

/// A part raised by one, if it still has 64 bits.
fn raised(part: u64) -> Option<u64>
    ensures { result ≡ spec.raised part }
{
    if part < u64::MAX {
        Some(part + 1)
    } else {
        None
    }
}

/// The next major release, if there is one.
pub fn next_major(major: u64) -> Option<Release>
    ensures { result ≡ spec.next_major major }
{
    let next = raised(major)?;
    Some(Release {
        major: next,
        minor: 0,
        patch: 0,
    })
}

/// The next minor release, if there is one.
pub fn next_minor(major: u64, minor: u64) -> Option<Release>
    ensures { result ≡ spec.next_minor major minor }
{
    let next = raised(minor)?;
    Some(Release {
        major,
        minor: next,
        patch: 0,
    })
}

/// The next patch release, if there is one.
pub fn next_patch(major: u64, minor: u64, patch: u64) -> Option<Release>
    ensures { result ≡ spec.next_patch major minor patch }
{
    let next = raised(patch)?;
    Some(Release {
        major,
        minor,
        patch: next,
    })
}

/// The lowest pre-release, `0`.
fn lowest_pre(alloc: Global) -> Result<Prerelease, NoMemory>
    ensures { IfOk result (λ pre. pre_text pre ≡ codes "0") }
{
    match Prerelease::new(alloc, "0") {
        Ok(pre) => Ok(pre),
        Err(_) => Err(NoMemory),
    }
}

fn copied_pre(alloc: Global, pre: &Prerelease) -> Result<Prerelease, NoMemory>
    ensures { IfOk result (λ copy. pre_text copy ≡ pre_text pre.now) }
{
    Ok(pre.clone()?)
}

/// The version that a comparator states, with missing parts as 0.
pub fn stated(alloc: Global, comparator: &Comparator) -> Result<Edge, NoMemory>
    ensures { IfOk result (λ edge. edge ≡ spec.stated (comparator_view comparator.now)) }
{
    let release = Release {
        major: comparator.major,
        minor: comparator.minor.unwrap_or(0),
        patch: comparator.patch.unwrap_or(0),
    };
    Ok(Edge::at(release, copied_pre(alloc, &comparator.pre)?))
}

/// From a release; if there is none, nothing is that high.
pub fn from_release(release: Option<Release>) -> Lower
    ensures { result ≡ spec.from_release release }
{
    match release {
        None => Lower::Unreachable,
        Some(release) => Lower::From(Edge::at(release, Prerelease::empty())),
    }
}

/// Below the lowest pre-release of a release; if there is none, everything is.
pub fn below_release(alloc: Global, release: Option<Release>) -> Result<Upper, NoMemory>
    ensures { IfOk result (λ end. end ≡ spec.below_release release) }
{
    match release {
        None => Ok(Upper::Free),
        Some(release) => Ok(Upper::Below(Edge::at(release, lowest_pre(alloc)?))),
    }
}
