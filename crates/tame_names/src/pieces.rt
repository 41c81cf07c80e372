//! Bytes cut at a needle.
ghost use Rattle.std.specs.Prelude.{◌≡◌, ◌<◌, ℕ, List, [], ◌∷◌, ◌++◌, length, if◌then◌else◌};
ghost use Rattle.std.specs.Iterator.{YieldsFirstRef, item_count};
ghost use Rattle.tame_names.specs.Pieces.{ends_with, pieces};
ghost use Rattle.tame_names.specs.Pieces as spec;
ghost use Rattle.std.specs.List.{join_with_byte};

use memchr::memchr;
use std::marker::Model;

/// The first piece, and what is left after its needle.
fn first_piece(bytes: &[u8], needle: u8) -> (&[u8], &[u8])
    requires { 0 < length bytes.now }
    ensures { pieces needle bytes.now ≡ result.0.now ∷ pieces needle result.1.now }
{
    match memchr(needle, bytes) {
        Some(at) => (&bytes[..at], &bytes[at + 1..]),
        None => (bytes, &[]),
    }
}

/// The pieces between needles, first to last. Contracts see the list of what is left.
#[derive(Drop)]
pub struct SplitIter<'a> {
    left: &'a [u8],
    needle: u8,
}

impl<'a> Model for SplitIter<'a> {
    ghost Value = { List (List ℕ) };

    ghost view = { λ s. pieces s.needle s.left.now };
}

impl<'a> Iterator for SplitIter<'a> {
    type Item = &'a [u8];

    ghost next_gives = { YieldsFirstRef (λ s. s) };

    ghost remaining = { item_count (λ s. s) };

    fn next(&mut self) -> Option<&'a [u8]> {
        if self.left.is_empty() {
            return None;
        }
        let (piece, left) = first_piece(self.left, self.needle);
        self.left = left;
        Some(piece)
    }
}

/// The bytes without the needles at their end.
pub fn without_end(bytes: &[u8], needle: u8) -> &[u8]
    ensures { result.now ≡ spec.without_end needle bytes.now }
{
    let mut end = bytes.len();
    while end > 0 && bytes[end - 1] == needle {
        end -= 1;
    }
    &bytes[..end]
}

/// Cuts `haystack` at each `needle`. A needle at the end is followed by no last piece.
pub fn split(haystack: &[u8], needle: u8) -> SplitIter<'_>
    ensures pieces { result ≡ pieces needle haystack.now }
    ensures joined { haystack.now ≡ join_with_byte needle result
        ++ (if ends_with needle haystack.now then needle ∷ [] else []) }
{
    SplitIter {
        left: haystack,
        needle,
    }
}
