//! The payload of bytes: what is between two lines.
ghost use Rattle.std.specs.Prelude.{◌≡◌, ◌≢◌, ◌<◌, ℕ, List, [], ◌∷◌, ◌++◌, length, option_map, option_and_then};
ghost use Rattle.tame_names.specs.Pieces.{pieces};
ghost use Rattle.audit_binaries.specs.Payloads.{between, with_newlines};
ghost use Rattle.audit_binaries.specs.Payloads as spec;

use memchr::memchr;

const NEWLINE: u8 = 10;

/// The first line, and what is left after its newline.
fn first_line(bytes: &[u8]) -> (&[u8], &[u8])
    requires { 0 < length bytes.now }
    ensures lines { pieces 10 bytes.now ≡ result.0.now ∷ pieces 10 result.1.now }
    ensures shorter { length result.1.now < length bytes.now }
    ensures whole { result.1.now ≢ [] → bytes.now ≡ result.0.now ++ 10 ∷ result.1.now }
{
    match memchr(NEWLINE, bytes) {
        Some(at) => (&bytes[..at], &bytes[at + 1..]),
        None => (bytes, &[]),
    }
}

/// What follows the first begin line.
fn behind_begin(bytes: &[u8]) -> Option<&[u8]>
    ensures { option_and_then (λ rest. spec.before_end (pieces 10 rest.now)) result
        ≡ between (pieces 10 bytes.now) }
{
    let mut left = bytes;
    while !left.is_empty() {
        let (line, rest) = first_line(left);
        if line == "#cargo-lock begin".as_bytes() {
            return Some(rest);
        }
        left = rest;
    }
    None
}

/// What comes before the first end line.
fn before_end(bytes: &[u8]) -> Option<&[u8]>
    ensures { option_map (λ front. front.now) result
        ≡ option_map with_newlines (spec.before_end (pieces 10 bytes.now)) }
{
    let mut left = bytes;
    while !left.is_empty() {
        let (line, rest) = first_line(left);
        if line == "#cargo-lock end".as_bytes() {
            return Some(&bytes[..bytes.len() - left.len()]);
        }
        left = rest;
    }
    None
}

/// The bytes after the newline of the first line `#cargo-lock begin`, up to the first byte of the
/// next line `#cargo-lock end`; nothing without both lines. A carriage return belongs to its line.
pub fn payload_of(bytes: &[u8]) -> Option<&[u8]>
    ensures { option_map (λ payload. payload.now) result ≡ spec.payload_of bytes.now }
{
    match behind_begin(bytes) {
        Some(rest) => before_end(rest),
        None => None,
    }
}
