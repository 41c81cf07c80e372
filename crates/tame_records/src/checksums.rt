//! SHA-256 digests as hex text.
ghost use Rattle.std.specs.Prelude.{◌≡◌, ◌↔◌, ℕ, List, length, IsOk, IsTrue, Some, Ok, IfOk, is_none};
ghost use Rattle.std.specs.Char.{is_ascii_hexdigit};
ghost use Rattle.std.specs.List.{list_all};
ghost use Rattle.std.specs.Fmt.{WritesOnOk, WritesStyledOnOk};
ghost use Rattle.hex.specs.Hex.{IsBytes, encode_lower};
ghost use Rattle.tame_records.specs.Checksums.{chksum_of};
ghost use Rattle.tame_records.specs.Checksums as spec;

use hex::{decode_to_slice, encode, encode_to_slice};
use std::alloc::Global;
use std::fmt;
use std::str::FromStr;
use tame_names::{NoMemory, Text};
use thiserror::Error as ThisError;

/// The SHA-256 digest of a crate file.
#[derive(Clone, PartialEq, Eq, Drop)]
pub struct Chksum(pub [u8; 32]);

/// Why a string isn't the hex form of a digest.
#[derive(Clone, Copy, Debug, PartialEq, Eq, ThisError)]
pub enum ChksumParseError {
    /// The string has this number of bytes, not 64.
    #[error("expected string with length 64 but got length {0}")]
    InvalidLength(usize),
    /// The first byte that isn't a hex digit, as the character of that number.
    #[error("encountered non-hex character '{0}'")]
    InvalidValue(char),
}

fn first_bad_digit(text: &str) -> Option<u8>
    ensures { result ≡ spec.first_bad_digit text.now }
{
    text.bytes().find(|byte| !byte.is_ascii_hexdigit())
}

/// Whether a string has only hex digits.
pub fn is_hex_text(text: &str) -> bool
    ensures { result ≡ is_none (spec.first_bad_digit text.now) }
{
    first_bad_digit(text).is_none()
}

fn digits_of(alloc: Global, bytes: &[u8; 32]) -> Result<Text, NoMemory>
    ensures digits { IfOk result (λ t. t ≡ encode_lower bytes.now) }
    ensures parses { IfOk result (λ t. chksum_of t ≡ Ok (record { 0 = bytes.now })) }
{
    match encode(alloc, bytes.as_slice()) {
        Ok(text) => Ok(Text::from_string(text)),
        Err(_) => Err(NoMemory),
    }
}

impl Chksum {
    /// The digest that 64 hex digits of either case spell.
    pub fn parse(text: &str) -> Result<Chksum, ChksumParseError>
        ensures { result ≡ chksum_of text.now }
    {
        if text.len() != 64 {
            return Err(ChksumParseError::InvalidLength(text.len()));
        }
        if let Some(bad) = first_bad_digit(text) {
            return Err(ChksumParseError::InvalidValue(char::from(bad)));
        }
        let mut bytes = [0u8; 32];
        match decode_to_slice(text, &mut bytes) {
            Ok(()) => Ok(Chksum(bytes)),
            Err(_) => unreachable!(),
        }
    }

    /// The digest as 64 hex digits, the letters in lower case.
    pub fn to_text(&self, alloc: Global) -> Result<Text, NoMemory>
        ensures digits { IfOk result (λ t. t ≡ encode_lower self.now.0) }
        // it parses to the digest again
        ensures parses { IfOk result (λ t. chksum_of t ≡ Ok self.now) }
    {
        digits_of(alloc, &self.0)
    }

    /// Writes the 64 hex digits.
    fn write_digits<W: fmt::Write>(&self, f: &mut fmt::Formatter<W>) -> fmt::Result
        ensures writes { WritesOnOk W.write_str_gives f.old result
            (encode_lower self.now.0) f.new }
        ensures styled { WritesStyledOnOk W.write_str_gives f.old result
            (encode_lower self.now.0) f.new }
    {
        let mut digits = [0u8; 64];
        if encode_to_slice(self.0.as_slice(), &mut digits).is_err() {
            return Err(fmt::Error);
        }
        match std::str::from_utf8(&digits) {
            Ok(text) => f.write_str(text),
            Err(_) => Err(fmt::Error),
        }
    }
}

/// Exactly the strings of 64 hex digits of either case parse, and the digits that a digest is
/// printed with parse to it again.
pub fn digests_are_digits()
    ensures parsed { (text : List ℕ) → IsOk (chksum_of text)
        ↔ ((length text ≡ 64) × IsTrue (list_all is_ascii_hexdigit text)) }
    ensures printed { (bytes : List ℕ) → length bytes ≡ 32 → IsBytes bytes
        → chksum_of (encode_lower bytes) ≡ Ok (record { 0 = bytes }) }
{}

impl FromStr for Chksum {
    type Err = ChksumParseError;

    ghost from_str_gives = { λ text r. r ≡ chksum_of text };

    fn from_str(text: &str) -> Result<Chksum, ChksumParseError> {
        Chksum::parse(text)
    }
}

impl fmt::Display for Chksum {
    ghost output = { λ digest. Some (encode_lower digest.0) };

    ghost styled_output = { λ digest spec. Some (encode_lower digest.0) };

    fn fmt<W: fmt::Write>(&self, f: &mut fmt::Formatter<W>) -> fmt::Result {
        self.write_digits(f)
    }
}

impl fmt::Debug for Chksum {
    fn fmt<W: fmt::Write>(&self, f: &mut fmt::Formatter<W>) -> fmt::Result {
        f.write_str("Chksum { sha-256: \"")?;
        self.write_digits(f)?;
        f.write_str("\" }")
    }
}
