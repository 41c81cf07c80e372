//! Symbols of a binary, and the function paths that name one of them.
ghost use Rattle.std.specs.Prelude.{◌≡◌, ◌&&◌, ◌∷◌, ◌++◌, ◌<◌, [], length, map, bytes_eq, MatchOption};
ghost use Rattle.std.specs.List.{filter, list_any};
ghost use Rattle.audit_report.specs.Symbols.{is_kept};
ghost use Rattle.audit_report.specs.Symbols as spec;

use audit_advisory::FunctionPath;
use std::marker::Model;
use tame_names::{Items, Text};

/// A segment up to its first `<`.
fn plain(segment: &str) -> &str
    ensures { result.now ≡ spec.plain segment.now }
{
    match segment.split_once('<') {
        Some((front, _)) => front,
        None => segment,
    }
}

/// Whether a segment's plain text is a symbol's segment.
fn is_segment(wanted: &Text, segment: &Text) -> bool
    ensures { result ≡ bytes_eq (spec.plain wanted.now) segment.now }
{
    plain(wanted.as_str()) == segment.as_str()
}

/// Whether wanted segments are among a symbol's, in their order.
fn is_subsequence(wanted: &[Text], symbol: &[Text]) -> bool
    ensures { result ≡ spec.is_subsequence (map spec.plain wanted.now) symbol.now }
{
    let mut left = wanted;
    for segment in symbol {
        let Some((next, behind)) = left.split_first() else {
            return true;
        };
        if is_segment(next, segment) {
            left = behind;
        }
    }
    left.is_empty()
}

/// The first segment of a path, those in the middle, and the last.
#[derive(Clone, Copy)]
struct Ends<'a> {
    first: &'a Text,
    middle: &'a [Text],
    last: &'a Text,
}

/// These parts of a path; nothing if there are fewer than two segments.
fn ends_of(path: &[Text]) -> Option<Ends<'_>>
    ensures { MatchOption result (length path.now < 2)
        (λ e. path.now ≡ e.first.now ∷ (e.middle.now ++ e.last.now ∷ [])) }
{
    let (first, behind) = path.split_first()?;
    let (last, middle) = behind.split_last()?;
    Some(Ends {
        first,
        middle,
        last,
    })
}

/// Whether the parts of a wanted path name the symbol with these parts.
fn names_between(wanted: &Ends<'_>, symbol: &Ends<'_>) -> bool
    ensures { result ≡ (bytes_eq (spec.plain wanted.now.first.now) symbol.now.first.now
        && spec.is_subsequence (map spec.plain wanted.now.middle.now) symbol.now.middle.now
        && bytes_eq (spec.plain wanted.now.last.now) symbol.now.last.now) }
{
    is_segment(wanted.first, symbol.first)
        && is_subsequence(wanted.middle, symbol.middle)
        && is_segment(wanted.last, symbol.last)
}

/// Whether a wanted path names a symbol.
fn names(wanted: &[Text], symbol: &[Text]) -> bool
    ensures { result ≡ spec.names (map spec.plain wanted.now) symbol.now }
{
    if let ([only], [segment]) = (wanted, symbol) {
        return is_segment(only, segment);
    }
    let Some(wanted_ends) = ends_of(wanted) else {
        return false;
    };
    let Some(symbol_ends) = ends_of(symbol) else {
        return false;
    };
    names_between(&wanted_ends, &symbol_ends)
}

/// The symbols of a binary, each by its segments. Contracts see the list of them.
#[derive(Debug, Drop)]
pub struct SymbolSet {
    paths: Items<FunctionPath>,
}

impl Model for SymbolSet {
    ghost use Rattle.std.specs.Prelude.{List};
    ghost use Rattle.audit_report.specs.Symbols.{Segments};
    ghost use Rattle.audit_report.specs.Symbols as spec;

    ghost Value = { List Segments };

    ghost view = { λ s. s.paths };
}

/// The first path that symbols keep, and what is left after it.
fn first_kept<'a>(
    symbols: &SymbolSet,
    affected: &'a [FunctionPath],
) -> Option<(&'a FunctionPath, &'a [FunctionPath])>
    ensures { MatchOption result (filter (is_kept symbols.now) affected.now ≡ [])
        (λ f. filter (is_kept symbols.now) affected.now
        ≡ f.0.now ∷ filter (is_kept symbols.now) f.1.now) }
{
    let mut left = affected;
    while let Some((path, behind)) = left.split_first() {
        if symbols.keeps(path) {
            return Some((path, behind));
        }
        left = behind;
    }
    None
}

impl SymbolSet {
    /// A set of these symbols.
    pub fn new(paths: Items<FunctionPath>) -> SymbolSet
        ensures { result ≡ paths }
    {
        SymbolSet { paths }
    }

    /// Whether a path names one of the symbols.
    pub(crate) fn keeps(&self, path: &FunctionPath) -> bool
        ensures { result ≡ is_kept self.now path.now }
    {
        self.paths
            .as_slice()
            .iter()
            .any(|symbol| names(path.as_slice(), symbol.as_slice()))
    }

    /// Those of some paths that name one of the symbols, in their order. Of each of a path's
    /// segments only what is before the first `<` counts. A path of one segment names the
    /// symbol that is this segment. A longer path names a symbol with the same first and last
    /// segments, if its other segments are among the symbol's between these two, in their
    /// order. A path without segments names none.
    pub fn filter<'a>(&'a self, affected: &'a [FunctionPath]) -> Filtered<'a>
        ensures { result ≡ filter (is_kept self.now) affected.now }
    {
        Filtered {
            symbols: self,
            left: affected,
        }
    }
}

/// The paths that a set of symbols keeps, one after the other. Contracts see the list of those
/// that are left.
#[derive(Drop)]
pub struct Filtered<'a> {
    symbols: &'a SymbolSet,
    left: &'a [FunctionPath],
}

impl<'a> Model for Filtered<'a> {
    ghost use Rattle.std.specs.Prelude.{List};
    ghost use Rattle.std.specs.List.{filter};
    ghost use Rattle.audit_report.specs.Symbols.{Segments, is_kept};
    ghost use Rattle.audit_report.specs.Symbols as spec;

    ghost Value = { List Segments };

    ghost view = { λ s. filter (is_kept s.symbols.now) s.left.now };
}

impl<'a> Iterator for Filtered<'a> {
    type Item = &'a FunctionPath;

    ghost use Rattle.std.specs.Iterator.{YieldsFirstRef, item_count};

    ghost next_gives = { YieldsFirstRef (λ s. s) };

    ghost remaining = { item_count (λ s. s) };

    fn next(&mut self) -> Option<&'a FunctionPath> {
        match first_kept(self.symbols, self.left) {
            Some((path, left)) => {
                self.left = left;
                Some(path)
            }
            None => {
                self.left = &[];
                None
            }
        }
    }
}
