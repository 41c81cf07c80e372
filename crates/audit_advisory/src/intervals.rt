//! The interval of versions of a comparator.
ghost use Rattle.std.specs.Prelude.{◌≡◌, IfOk};
ghost use Rattle.semver.specs.Identifiers.{comparator_view};
ghost use Rattle.audit_advisory.specs.Points.{point_of};
ghost use Rattle.audit_advisory.specs.Intervals.{alike_parts, interval_of, lies_in, lower_by, past_parts, up_to_parts, upper_by};
ghost use Rattle.audit_advisory.specs.Intervals as spec;

use crate::bounds::{
    Lower, Upper, below_release, from_release, next_major, next_minor, next_patch, stated,
};
use crate::edges::Release;
use semver::{Comparator, Op, Version};
use std::alloc::Global;
use tame_names::NoMemory;

/// The versions between two ends, in the precedence of SemVer 2.0.0, section 11.
#[derive(Debug, Drop)]
pub struct Interval {
    lower: Lower,
    upper: Upper,
}

/// Above a full version; else from the next of the last stated part.
fn past(alloc: Global, comparator: &Comparator) -> Result<Lower, NoMemory>
    ensures { IfOk result (λ l. l
        ≡ past_parts comparator.now.minor comparator.now.patch (comparator_view comparator.now)) }
{
    match (comparator.minor, comparator.patch) {
        (None, _) => Ok(from_release(next_major(comparator.major))),
        (Some(minor), None) => Ok(from_release(next_minor(comparator.major, minor))),
        (Some(_), Some(_)) => Ok(Lower::Above(stated(alloc, comparator)?)),
    }
}

/// Up to a full version; else below the next of the last stated part.
fn up_to(alloc: Global, comparator: &Comparator) -> Result<Upper, NoMemory>
    ensures { IfOk result (λ u. u
        ≡ up_to_parts comparator.now.minor comparator.now.patch (comparator_view comparator.now)) }
{
    match (comparator.minor, comparator.patch) {
        (None, _) => below_release(alloc, next_major(comparator.major)),
        (Some(minor), None) => below_release(alloc, next_minor(comparator.major, minor)),
        (Some(_), Some(_)) => Ok(Upper::UpTo(stated(alloc, comparator)?)),
    }
}

/// The next minor release; if no minor number is stated, the next major one.
fn alike(comparator: &Comparator) -> Option<Release>
    ensures { result ≡ alike_parts comparator.now.minor comparator.now.major }
{
    match comparator.minor {
        None => next_major(comparator.major),
        Some(minor) => next_minor(comparator.major, minor),
    }
}

/// The next release in the first part that isn't 0; if all are 0, in the last stated part.
fn compatible(comparator: &Comparator) -> Option<Release>
    ensures { result ≡ spec.compatible (comparator_view comparator.now) }
{
    let major = comparator.major;
    if major > 0 {
        return next_major(major);
    }
    let Some(minor) = comparator.minor else {
        return next_major(major);
    };
    if minor > 0 {
        return next_minor(major, minor);
    }
    match comparator.patch {
        None => next_minor(major, minor),
        Some(patch) => next_patch(major, minor, patch),
    }
}

fn lower_of(alloc: Global, comparator: &Comparator) -> Result<Lower, NoMemory>
    ensures { IfOk result (λ l. l ≡ lower_by comparator.now.op (comparator_view comparator.now)) }
{
    match comparator.op {
        Op::Exact | Op::GreaterEq | Op::Tilde | Op::Caret | Op::Wildcard => {
            Ok(Lower::From(stated(alloc, comparator)?))
        }
        Op::Greater => past(alloc, comparator),
        Op::Less | Op::LessEq => Ok(Lower::Free),
    }
}

fn upper_of(alloc: Global, comparator: &Comparator) -> Result<Upper, NoMemory>
    ensures { IfOk result (λ u. u ≡ upper_by comparator.now.op (comparator_view comparator.now)) }
{
    match comparator.op {
        Op::Exact | Op::LessEq => up_to(alloc, comparator),
        Op::Greater | Op::GreaterEq => Ok(Upper::Free),
        Op::Less => Ok(Upper::Below(stated(alloc, comparator)?)),
        Op::Tilde | Op::Wildcard => below_release(alloc, alike(comparator)),
        Op::Caret => below_release(alloc, compatible(comparator)),
    }
}

impl Interval {
    /// The interval of a comparator.
    pub fn of(alloc: Global, comparator: &Comparator) -> Result<Interval, NoMemory>
        ensures { IfOk result (λ i. i ≡ interval_of (comparator_view comparator.now)) }
    {
        Ok(Interval {
            lower: lower_of(alloc, comparator)?,
            upper: upper_of(alloc, comparator)?,
        })
    }

    /// Whether a version lies in the interval.
    pub fn contains(&self, version: &Version) -> bool
        ensures { result ≡ lies_in self.now (point_of version.now) }
    {
        self.lower.keeps(version) && self.upper.keeps(version)
    }
}
