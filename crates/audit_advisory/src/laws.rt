//! What holds for every interval, in the terms of Semantic Versioning 2.0.0, and for every path.
ghost use Rattle.std.specs.Prelude.{◌≡◌, ◌↔◌, ◌<◌, ◌-◌, ◌^◌, ℕ, codes, List, [], map, Option, Some, Ok, IsTrue, false};
ghost use Rattle.std.specs.List.{All};
ghost use Rattle.std.specs.Ordering.{nat_cmp};
ghost use Rattle.std.specs.declared.cmp.Ordering.TheVariants as ordering;
ghost use Rattle.semver.specs.Eval.{matches_all, matches_one};
ghost use Rattle.semver.specs.Identifiers.{comparator_view, pre_text};
ghost use Rattle.semver.specs.Parse.{req_of};
ghost use Rattle.semver.specs.declared.Comparator.{Comparator};
ghost use Rattle.semver.specs.declared.Op.TheVariants as op;
ghost use Rattle.semver.specs.declared.Version.{Version};
ghost use Rattle.audit_advisory.specs.Advisories.{segments};
ghost use Rattle.audit_advisory.specs.Agreement.{ArePlain, IsPlain};
ghost use Rattle.audit_advisory.specs.Intervals.{interval_of, lies_in};
ghost use Rattle.audit_advisory.specs.Outputs.{deny_place};
ghost use Rattle.audit_advisory.specs.Points.{Point, point_of, precedence};
ghost use Rattle.audit_advisory.specs.Requirements.{meets};
ghost use Rattle.audit_advisory.specs.Segments.{has_colons, joined};

use crate::outputs::{DenyOption, VERSION};
use std::cmp::Ordering;

/// Options of denial compare by their places in the order of all four.
pub fn deny_options_compare(one: DenyOption, other: DenyOption) -> Ordering
    ensures { result ≡ nat_cmp (deny_place one) (deny_place other) }
{
    one.cmp(&other)
}

/// The version that texts and reports name.
pub fn version_is_stated()
    ensures { VERSION.now ≡ codes "0.22.2" }
{}

/// `=1.2.3` holds exactly the versions of that version's precedence (section 11), whatever their
/// build metadata.
pub fn exact_holds_one_precedence()
    ensures { (major minor patch : ℕ) (pre : List ℕ) (v : Point)
        → IsTrue (lies_in (interval_of (op.Exact, major, Some minor, Some patch, pre)) v)
        ↔ (precedence v (record { major = major; minor = minor; patch = patch; pre = pre })
        ≡ ordering.Equal) }
{}

/// A release that `^` holds has the same first number that isn't 0, and the zeros before it: only a
/// new major version, or anything in major version 0, may break its users (sections 4 and 8).
pub fn caret_keeps_the_first_number()
    ensures major { (a : ℕ) (minor patch : Option ℕ) (pre : List ℕ) (v : Point)
        → 0 < a → a < 2 ^ 64 - 1 → v.pre ≡ []
        → IsTrue (lies_in (interval_of (op.Caret, a, minor, patch, pre)) v) → v.major ≡ a }
    ensures minor { (b : ℕ) (patch : Option ℕ) (pre : List ℕ) (v : Point)
        → 0 < b → b < 2 ^ 64 - 1 → v.pre ≡ []
        → IsTrue (lies_in (interval_of (op.Caret, 0, Some b, patch, pre)) v)
        → (v.major ≡ 0) × (v.minor ≡ b) }
    ensures patch { (c : ℕ) (pre : List ℕ) (v : Point) → c < 2 ^ 64 - 1 → v.pre ≡ []
        → IsTrue (lies_in (interval_of (op.Caret, 0, Some 0, Some c, pre)) v)
        → (v.major ≡ 0) × (v.minor ≡ 0) × (v.patch ≡ c) }
{}

/// If no end has a pre-release, intervals hold the same releases as cargo's own matching: for one
/// comparator, and for a requirement. They differ at pre-releases, and at ends of 2^64 - 1.
pub fn releases_are_as_for_cargo()
    ensures one { (c : Comparator) (v : Version) → IsPlain (comparator_view c)
        → pre_text v.pre ≡ []
        → lies_in (interval_of (comparator_view c)) (point_of v) ≡ matches_one c v }
    ensures all { (text : List ℕ) (cs : List Comparator) (v : Version)
        → req_of text ≡ Ok (map comparator_view cs) → ArePlain (map comparator_view cs)
        → pre_text v.pre ≡ [] → meets text (point_of v) ≡ matches_all cs v }
{}

/// The segments of a path, joined by two colons, are the path; and none of them has two
/// colons side by side.
pub fn segments_give_the_path()
    ensures joined { (path : List ℕ) → joined (segments path) ≡ path }
    ensures apart { (path : List ℕ) → All (λ s. has_colons s ≡ false) (segments path) }
{}
