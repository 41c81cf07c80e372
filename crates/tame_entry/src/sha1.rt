//! SHA-1 digests of commits as hex digits.
ghost use Rattle.std.specs.Prelude.{◌≡◌, true, false, IsTrue, MatchOption};
ghost use Rattle.hex.specs.Hex.{encode_lower};
ghost use Rattle.tame_entry.specs.Commits as spec;

use hex::encode_to_slice;
use std::convert::{AsSlice, AsStr};
use std::marker::Model;
use tame_records::is_hex_text;

/// The bytes of the revision of an entry if it is a commit.
pub type HexBytes = [u8; 40];

/// A SHA-1 digest as 40 hex digits.
#[derive(Clone, Copy)]
pub struct Sha1Hex {
    digits: HexBytes,
}

impl Model for Sha1Hex {
    ghost use Rattle.std.specs.Prelude.{List, ℕ, IsTrue};
    ghost use Rattle.tame_entry.specs.Commits as spec;

    ghost Value = { List ℕ };

    ghost view = { λ s. s.digits };

    ghost invariant = { λ s. IsTrue (spec.is_commit s.digits) };

    ghost inverse = { λ d. record { digits = d } };
}

impl Sha1Hex {
    fn of(raw: &[u8; 20]) -> Sha1Hex
        ensures { result ≡ encode_lower raw.now }
    {
        let mut digits = [0u8; 40];
        if encode_to_slice(raw.as_slice(), &mut digits).is_err() {
            unreachable!();
        }
        Sha1Hex { digits }
    }

    /// The digits that a text is, in its own case.
    pub fn parse(text: &str) -> Option<Sha1Hex>
        ensures { MatchOption result (spec.is_commit text.now ≡ false)
            (λ s. (spec.is_commit text.now ≡ true) × (s ≡ text.now)) }
    {
        if !is_commit(text) {
            return None;
        }
        let mut digits = [0u8; 40];
        digits.copy_from_slice(text.as_bytes());
        Some(Sha1Hex { digits })
    }

    /// The digits.
    pub fn as_bytes(&self) -> &HexBytes
        ensures { result.now ≡ self.now }
    {
        &self.digits
    }

    /// The digits, as text.
    pub fn as_str(&self) -> &str
        ensures text { result.now ≡ self.now }
        ensures digits { IsTrue (spec.is_commit self.now) }
    {
        match std::str::from_utf8(&self.digits) {
            Ok(text) => text,
            Err(_) => unreachable!(),
        }
    }
}

/// Whether a text is 40 hex digits.
fn is_commit(text: &str) -> bool
    ensures { result ≡ spec.is_commit text.now }
{
    text.len() == 40 && is_hex_text(text)
}

/// The digits of a digest, the letters in lower case.
impl From<[u8; 20]> for Sha1Hex {
    ghost from_gives = { λ raw s. s ≡ encode_lower raw };

    fn from(raw: [u8; 20]) -> Sha1Hex {
        Sha1Hex::of(&raw)
    }
}

impl AsStr for Sha1Hex {
    ghost text = { λ s. s };

    fn as_str(&self) -> &str {
        self.as_str()
    }
}

impl AsSlice<u8> for Sha1Hex {
    ghost items = { λ s. s };

    fn as_slice(&self) -> &[u8] {
        self.as_bytes().as_slice()
    }
}

impl AsRef<[u8; 40]> for Sha1Hex {
    fn as_ref(&self) -> &[u8; 40]
        ensures { result.now ≡ self.now }
    {
        self.as_bytes()
    }
}
