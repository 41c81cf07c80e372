//! Points in the order of versions.
ghost use Rattle.std.specs.Prelude.{◌≡◌};
ghost use Rattle.semver.specs.Identifiers.{pre_text};
ghost use Rattle.audit_advisory.specs.Points.{Point, point_of, precedence};

use semver::{BuildMetadata, Prerelease, Version};
use std::cmp::Ordering;
use std::marker::Model;

/// A point in the order of versions. Contracts see its numbers and its pre-release.
#[derive(Debug, Drop)]
pub struct Edge {
    version: Version,
}

impl Model for Edge {
    ghost Value = { Point };

    ghost view = { λ e. point_of e.version };
}

/// The three numbers of a version.
#[derive(Clone, Copy, Debug, PartialEq, Eq)]
pub struct Release {
    /// The first number.
    pub major: u64,
    /// The second number.
    pub minor: u64,
    /// The third number.
    pub patch: u64,
}

impl Edge {
    /// A release, or a pre-release of it.
    pub fn at(release: Release, pre: Prerelease) -> Edge
        ensures { result ≡ record {
          major = release.major;
          minor = release.minor;
          patch = release.patch;
          pre = pre_text pre;
        } }
    {
        Edge {
            version: Version {
                major: release.major,
                minor: release.minor,
                patch: release.patch,
                pre,
                build: BuildMetadata::empty(),
            },
        }
    }

    /// How a version compares with this point.
    pub fn order_of(&self, version: &Version) -> Ordering
        ensures { result ≡ precedence (point_of version.now) self.now }
    {
        version.cmp_precedence(&self.version)
    }
}
