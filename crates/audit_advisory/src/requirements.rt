//! Requirements on versions.
ghost use Rattle.std.specs.Prelude.{◌≡◌, ◌↔◌, List, ℕ, Some, IsTrue, IfOk, map};
ghost use Rattle.semver.specs.Identifiers.{comparator_view};
ghost use Rattle.semver.specs.Parse.{memory_error};
ghost use Rattle.audit_advisory.specs.Points.{point_of};
ghost use Rattle.audit_advisory.specs.Intervals.{interval_of};
ghost use Rattle.audit_advisory.specs.Intervals as spec;
ghost use Rattle.audit_advisory.specs.Requirements.{intervals_of, meets, requirement_of};

use crate::intervals::Interval;
use semver::{Comparator, Version, VersionReq};
use std::alloc::{AllocError, Global};
use std::marker::Model;
use tame_names::{Items, NoMemory, Text};

/// A requirement on versions. Contracts see its text, which has exactly these intervals.
#[derive(Debug, Drop)]
pub struct Requirement {
    /// As `semver` reads it: comparators between commas, or `*`.
    pub text: Text,
    /// One for each comparator; a version that lies in each meets the requirement.
    pub intervals: Items<Interval>,
}

impl Model for Requirement {
    ghost Value = { List ℕ };

    ghost view = { λ r. r.text };

    ghost invariant = { λ r. intervals_of r.text ≡ Some r.intervals };
}

// ---- compared by their texts, which determine their intervals

ghost use Rattle.std.specs.Prelude.{bytes_eq};
ghost use Rattle.std.proofs.Common.{rules};
ghost use Rattle.std.specs.Cmp.Rules.{comparing};

impl PartialEq for Requirement {
    ghost eq = { bytes_eq };

    ghost laws = { Prim.search (comparing, rules) };

    fn eq(&self, other: &Requirement) -> bool {
        self.text == other.text
    }
}

impl Eq for Requirement {
    ghost laws = { Prim.search (comparing, rules) };
}

/// Whether the error is out of memory.
pub fn is_memory(error: semver::Error) -> bool
    ensures { IsTrue result ↔ (error ≡ memory_error) }
{
    error == semver::Error::from(AllocError)
}

/// The interval of each comparator.
fn intervals_read(alloc: Global, comparators: &[Comparator]) -> Result<Items<Interval>, NoMemory>
    ensures { IfOk result (λ is. is ≡ map interval_of (map comparator_view comparators.now)) }
{
    let mut intervals = Items::new(alloc);
    for comparator in comparators {
        intervals.add(Interval::of(alloc, comparator)?)?;
    }
    Ok(intervals)
}

/// Whether a version lies in each of these intervals.
fn lies_in_each(intervals: &[Interval], version: &Version) -> bool
    ensures { result ≡ spec.lies_in_each intervals.now (point_of version.now) }
{
    for interval in intervals {
        if !interval.contains(version) {
            return false;
        }
    }
    true
}

impl Requirement {
    /// The requirement that a text is; none if `semver` refuses the text.
    pub fn read(alloc: Global, text: &str) -> Result<Option<Requirement>, NoMemory>
        ensures { IfOk result (λ r. r ≡ requirement_of text.now) }
    {
        match VersionReq::parse(alloc, text) {
            Ok(read) => Ok(Some(Requirement {
                text: Text::of(alloc, text)?,
                intervals: intervals_read(alloc, read.comparators.as_slice())?,
            })),
            Err(error) => {
                if is_memory(error) {
                    Err(NoMemory)
                } else {
                    Ok(None)
                }
            }
        }
    }

    /// Whether a version lies in the interval of each comparator, in the precedence of SemVer
    /// 2.0.0, section 11; pre-releases too, unlike in cargo's own choice of versions.
    pub fn holds(&self, version: &Version) -> bool
        ensures { result ≡ meets self.now (point_of version.now) }
    {
        lies_in_each(self.intervals.as_slice(), version)
    }
}
