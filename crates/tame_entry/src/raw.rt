//! The version in a line, found without reading the line as JSON.
ghost use Rattle.std.specs.Prelude.{◌≡◌, ◌∷◌, ℕ, List, [], option_map, MatchOption};
ghost use Rattle.std.specs.Iterator.{YieldsFirstRef, item_count};
ghost use Rattle.tame_entry.specs.Entry as entry_spec;
ghost use Rattle.tame_entry.specs.Raw.{comma_parts};
ghost use Rattle.tame_entry.specs.Raw as spec;

use memchr::memchr;
use std::marker::Model;
use tame_names::utf8_text;

/// What is before the first needle, and what is after it.
pub fn cut_at(bytes: &[u8], needle: u8) -> Option<(&[u8], &[u8])>
    ensures { option_map (λ p. (p.0.now, p.1.now)) result ≡ spec.cut_at needle bytes.now }
{
    match memchr(needle, bytes) {
        Some(at) => Some((&bytes[..at], &bytes[at + 1..])),
        None => None,
    }
}

/// Whether no byte is zero.
pub fn has_no_zero(bytes: &[u8]) -> bool
    ensures { result ≡ entry_spec.has_no_zero bytes.now }
{
    cut_at(bytes, 0).is_none()
}

/// The parts of a line that a comma ends, from front to back. Contracts see the list of what is
/// left.
#[derive(Drop)]
struct CommaParts<'a> {
    left: &'a [u8],
}

impl<'a> Model for CommaParts<'a> {
    ghost use Rattle.std.specs.Prelude.{List, ℕ};
    ghost use Rattle.tame_entry.specs.Raw.{comma_parts};
    ghost use Rattle.tame_entry.specs.Raw as spec;

    ghost Value = { List (List ℕ) };

    ghost view = { λ s. comma_parts s.left.now };
}

/// The first part that a comma ends, and what is left after it.
fn first_part(bytes: &[u8]) -> Option<(&[u8], &[u8])>
    ensures { MatchOption result (comma_parts bytes.now ≡ [])
        (λ p. comma_parts bytes.now ≡ p.0.now ∷ comma_parts p.1.now) }
{
    cut_at(bytes, b',')
}

impl<'a> Iterator for CommaParts<'a> {
    type Item = &'a [u8];

    ghost next_gives = { YieldsFirstRef (λ s. s) };

    ghost remaining = { item_count (λ s. s) };

    fn next(&mut self) -> Option<&'a [u8]> {
        match first_part(self.left) {
            Some((part, left)) => {
                self.left = left;
                Some(part)
            }
            None => {
                self.left = &[];
                None
            }
        }
    }
}

/// The text without one space at its start, if it begins with one.
pub fn without_space(text: &[u8]) -> &[u8]
    ensures { result.now ≡ spec.without_space text.now }
{
    match text {
        [b' ', more @ ..] => more,
        text => text,
    }
}

fn between_quotes(text: &[u8]) -> &[u8]
    ensures { result.now ≡ spec.between_quotes text.now }
{
    if text.len() >= 2 && text[0] == b'"' && text[text.len() - 1] == b'"' {
        &text[1..text.len() - 1]
    } else {
        &[]
    }
}

/// What is between quotes, after one space that may come first.
fn quoted_value(text: &[u8]) -> &[u8]
    ensures { result.now ≡ spec.quoted_value text.now }
{
    between_quotes(without_space(text))
}

fn names_version(key: &[u8]) -> bool
    ensures { result ≡ spec.names_version key.now }
{
    key.ends_with(b"\"vers\"")
}

/// The value of the first part whose key ends with `"vers"`; a part without a colon ends the
/// search.
fn version_in(line: &[u8]) -> &[u8]
    ensures { result.now ≡ spec.version_in (comma_parts line.now) }
{
    for part in (CommaParts { left: line }) {
        let Some((key, value)) = cut_at(part, b':') else {
            return &[];
        };
        if names_version(key) {
            return quoted_value(value);
        }
    }
    &[]
}

/// The version in a line; the empty text if none is found.
pub fn raw_version(line: &[u8]) -> &str
    ensures { result.now ≡ spec.raw_version line.now }
{
    utf8_text(version_in(line)).unwrap_or("")
}
