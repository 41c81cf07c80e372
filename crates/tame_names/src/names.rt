//! Names of crates.
ghost use Rattle.std.specs.Prelude.{◌≡◌, ℕ, List, ◌++◌, IsTrue, IfOk, IfErr, Some, None, OnOk, OnErr, IsOk, length, option_map, string_bytes};
ghost use Rattle.std.specs.Prelude.{encode_utf8};
ghost use Rattle.std.specs.Str.{chars, str_to_ascii_lowercase, IsAscii};
ghost use Rattle.tame_names.specs.Names.{IsIndexPath, refusal, refusal_of, is_name, separator, path};
ghost use Rattle.tame_names.specs.Names as spec;

use crate::errors::{InvalidKrateName, NoMemory};
use crate::reserved::reserved_name;
use crate::texts::Text;
use std::alloc::{AllocError, Global};
use std::fmt;

/// The most characters that crates.io accepts in a name.
const CRATES_IO_LIMIT: usize = 64;

/// The name of a crate: not empty, and only of ASCII letters, digits, `-` and `_`.
///
/// Cargo Book, "Registry Index", index files.
#[derive(Clone, Copy)]
pub struct KrateName<'n> {
    text: &'n str,
    ghost named: { IsTrue (is_name text.now) },
    ghost ascii: { IsAscii text.now },
}

fn is_name_char(character: char) -> bool
    ensures { result ≡ spec.is_name_char character }
{
    character.is_ascii_alphanumeric() || character == '-' || character == '_'
}

/// Whether a character may be at its position in a name of cargo.
fn is_char_at(place: usize, character: char) -> bool
    ensures { result ≡ spec.is_char_at (place, character) }
{
    if place == 0 {
        character.is_ascii_alphabetic() || character == '_'
    } else {
        is_name_char(character)
    }
}

/// The first character that a name must not have, with its position among the characters.
fn first_invalid(name: &str) -> Option<(usize, char)>
    ensures { result ≡ spec.first_invalid name.now }
{
    name.chars().enumerate().find(|p| !is_name_char(p.1))
}

fn first_bad(name: &str) -> Option<(usize, char)>
    ensures { result ≡ spec.first_bad name.now }
{
    name.chars().enumerate().find(|p| !is_char_at(p.0, p.1))
}

fn count_of(name: &str) -> usize
    ensures { result ≡ length (chars name.now) }
{
    name.chars().count()
}

fn is_within(limit: Option<usize>, place: usize) -> bool
    ensures { result ≡ spec.is_within limit place }
{
    match limit {
        None => true,
        Some(limit) => place < limit,
    }
}

fn is_longer(limit: Option<usize>, count: usize) -> bool
    ensures { result ≡ spec.is_longer limit count }
{
    match limit {
        None => false,
        Some(limit) => limit < count,
    }
}

/// Why a string is no name to cargo, if it isn't.
fn strict_refusal(name: &str, limit: Option<usize>) -> Option<InvalidKrateName>
    ensures { option_map refusal result ≡ spec.strict_refusal limit name.now }
{
    if name.is_empty() {
        return Some(InvalidKrateName::InvalidLength(0));
    }
    if let Some((index, invalid)) = first_bad(name) {
        return Some(if is_within(limit, index) {
            InvalidKrateName::InvalidCharacter { invalid, index }
        } else {
            InvalidKrateName::InvalidLength(count_of(name))
        });
    }
    let count = count_of(name);
    if is_longer(limit, count) {
        return Some(InvalidKrateName::InvalidLength(count));
    }
    match reserved_name(name) {
        Some((reserved, kind)) => Some(InvalidKrateName::ReservedName { reserved, kind }),
        None => None,
    }
}

impl<'n> KrateName<'n> {
    ghost use Rattle.tame_names.specs.KrateNames.{text_of};

    /// The string as a name. The empty string is `InvalidLength(0)`; for any other that isn't a
    /// name the reason is its first character that a name must not have.
    pub fn try_from(name: &'n str) -> Result<KrateName<'n>, InvalidKrateName>
        ensures ok { IfOk result (λ n. (text_of n ≡ name.now) × (refusal_of name.now ≡ None)) }
        ensures refused { IfErr result (λ e. refusal_of name.now ≡ Some (refusal e)) }
    {
        if name.is_empty() {
            return Err(InvalidKrateName::InvalidLength(0));
        }
        match first_invalid(name) {
            Some((index, invalid)) => Err(InvalidKrateName::InvalidCharacter { invalid, index }),
            None => Ok(KrateName { text: name }),
        }
    }

    fn strict(name: &'n str, limit: Option<usize>) -> Result<KrateName<'n>, InvalidKrateName>
        ensures ok { IfOk result (λ n. (text_of n ≡ name.now)
            × (spec.strict_refusal limit name.now ≡ None)) }
        ensures refused { IfErr result
            (λ e. spec.strict_refusal limit name.now ≡ Some (refusal e)) }
    {
        match strict_refusal(name, limit) {
            Some(refused) => Err(refused),
            None => Ok(KrateName { text: name }),
        }
    }

    /// The string as a name that crates.io accepts: a name of cargo of at most 64 characters. A bad
    /// character among the first 64 comes before the length, and reserved names come last.
    pub fn crates_io(name: &'n str) -> Result<KrateName<'n>, InvalidKrateName>
        ensures ok { IfOk result (λ n. (text_of n ≡ name.now)
            × (spec.strict_refusal (Some 64) name.now ≡ None)) }
        ensures refused { IfErr result
            (λ e. spec.strict_refusal (Some 64) name.now ≡ Some (refusal e)) }
        // cargo accepts what crates.io accepts
        ensures accepted { IsOk result → spec.strict_refusal None name.now ≡ None }
    {
        KrateName::strict(name, Some(CRATES_IO_LIMIT))
    }

    /// The string as a name that cargo accepts: it begins with a letter or `_`, and isn't reserved.
    pub fn cargo(name: &'n str) -> Result<KrateName<'n>, InvalidKrateName>
        ensures ok { IfOk result (λ n. (text_of n ≡ name.now)
            × (spec.strict_refusal None name.now ≡ None)) }
        ensures refused { IfErr result (λ e. spec.strict_refusal None name.now ≡ Some (refusal e)) }
        // every name of cargo is a name
        ensures accepted { IsOk result → refusal_of name.now ≡ None }
    {
        KrateName::strict(name, None)
    }

    /// Appends the folders of this name in an index, separated by `sep`; they keep the name's case.
    ///
    /// If out of memory, a part of them may have been appended.
    fn push_prefix(&self, acc: &mut String, sep: char) -> Result<(), AllocError>
        ensures { OnOk result (string_bytes acc.new
            ≡ string_bytes acc.old ++ spec.prefix (encode_utf8 sep) (text_of self.now)) }
    {
        let len = self.text.len();
        if len == 1 {
            return acc.push_str("1");
        }
        if len == 2 {
            return acc.push_str("2");
        }
        if len < 4 {
            acc.push_str("3")?;
            acc.push(sep)?;
            return acc.push_str(&self.text[..1]);
        }
        acc.push_str(&self.text[..2])?;
        acc.push(sep)?;
        acc.push_str(&self.text[2..4])
    }

    /// Appends the folders of this name in an index, separated by `sep`; they keep the name's case.
    pub fn prefix(&self, acc: &mut String, sep: char) -> Result<(), NoMemory>
        ensures appended { OnOk result
            (string_bytes acc.new ≡ string_bytes acc.old
            ++ spec.prefix (encode_utf8 sep) (text_of self.now)) }
        ensures same { OnErr result (string_bytes acc.new ≡ string_bytes acc.old) }
    {
        let mut folders = String::new(*acc.allocator());
        self.push_prefix(&mut folders, sep)?;
        acc.push_str(folders.as_str())?;
        Ok(())
    }

    /// The path of this name's file in an index: its folders and the name, separated by `sep` (`/`
    /// if none is given), all in ASCII lower case.
    pub fn relative_path(&self, alloc: Global, sep: Option<char>) -> Result<Text, NoMemory>
        ensures parts { IfOk result (λ p. p
            ≡ spec.relative_path (separator sep) (text_of self.now)) }
        ensures path { sep ≡ None → IfOk result (λ p. path (text_of self.now) ≡ Some p) }
        ensures index_path { sep ≡ None → IfOk result IsIndexPath }
        // names that are equal up to ASCII case have one path
        ensures one_path { (other : List ℕ) → IsTrue (is_name other)
            → str_to_ascii_lowercase other ≡ str_to_ascii_lowercase (text_of self.now)
            → path other ≡ path (text_of self.now) }
    {
        let sep = sep.unwrap_or('/');
        let mut path = String::new(alloc);
        self.push_prefix(&mut path, sep)?;
        path.push(sep)?;
        path.push_str(self.text)?;
        path.make_ascii_lowercase();
        Ok(Text::from_string(path))
    }

    /// The name as a string.
    pub fn as_str(&self) -> &'n str
        ensures { result.now ≡ text_of self.now }
    {
        self.text
    }
}

impl<'n> TryFrom<&'n str> for KrateName<'n> {
    ghost use Rattle.std.specs.Prelude.{◌≡◌, IfOk, IfErr, Some, None};
    ghost use Rattle.tame_names.specs.KrateNames.{text_of};
    ghost use Rattle.tame_names.specs.Names.{refusal, refusal_of};

    type Error = InvalidKrateName;

    ghost try_from_gives = { λ name r.
        IfOk r (λ n. (text_of n ≡ name.now) × (refusal_of name.now ≡ None))
        × IfErr r (λ e. refusal_of name.now ≡ Some (refusal e)) };

    fn try_from(name: &'n str) -> Result<KrateName<'n>, InvalidKrateName> {
        KrateName::try_from(name)
    }
}

impl KrateName<'static> {
    ghost use Rattle.tame_names.specs.KrateNames.{text_of};

    /// The name in a string of the program, which crates.io must accept.
    pub fn from_static(name: &'static str) -> KrateName<'static>
        requires { spec.strict_refusal (Some 64) name.now ≡ None }
        ensures { text_of result ≡ name.now }
    {
        KrateName { text: name }
    }
}

impl fmt::Display for KrateName<'_> {
    ghost use Rattle.std.specs.Fmt.{padded};
    ghost use Rattle.std.specs.Prelude.{Some};
    ghost use Rattle.tame_names.specs.KrateNames.{text_of};

    ghost output = { λ name. Some (text_of name) };

    ghost styled_output = { λ name spec. Some (padded spec (text_of name)) };

    fn fmt<W: fmt::Write>(&self, f: &mut fmt::Formatter<W>) -> fmt::Result {
        f.pad(self.text)
    }
}

impl fmt::Debug for KrateName<'_> {
    ghost use Rattle.std.specs.Prelude.{Some};
    ghost use Rattle.tame_names.specs.KrateNames.{text_of};

    ghost debug_output = { λ name. Some (text_of name) };

    fn fmt<W: fmt::Write>(&self, f: &mut fmt::Formatter<W>) -> fmt::Result {
        f.pad(self.text)
    }
}
