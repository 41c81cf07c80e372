//! Comparisons of names, counted.
ghost use Rattle.std.specs.Prelude.{◌≡◌, ℕ, ◌+◌, ◌-◌, ◌^◌, min};
ghost use Rattle.std.specs.Cmp.Lexicographic.{slice_cmp};
ghost use Rattle.std.specs.Ordering.{nat_cmp};

use std::cmp::Ordering;

/// How many comparisons of names were made.
#[derive(Debug, Drop, PartialEq, Eq)]
pub struct Comparisons {
    /// At 2^64 - 1 it stays there.
    pub made: u64,
}

/// The byte order of two names, counted as one comparison.
pub fn name_order(a: &str, b: &str, count: &mut Comparisons) -> Ordering
    ensures order { result ≡ slice_cmp nat_cmp a.now b.now }
    ensures made { count.new.made ≡ min (count.old.made + 1) (2 ^ 64 - 1) }
{
    count.made = count.made.saturating_add(1);
    a.cmp(b)
}
