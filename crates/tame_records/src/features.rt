//! The features of a version, one after the other.
ghost use Rattle.std.specs.Prelude.{◌≡◌, ◌++◌, [], length, unwrap_or};
ghost use Rattle.std.specs.Iterator.{at_most};
ghost use Rattle.std.specs.Map.Iter.{TakesFirst, deref_pair};

use crate::versions::IndexVersion;
use std::collections::btree_map;
use std::marker::Model;
use tame_names::{Items, Text};

/// Names of features with the features that each enables: those of `features` in the byte order of
/// their names, then those of `features2`. Contracts see the list of what is left.
#[derive(Drop)]
pub struct FeatureIter<'a> {
    first: btree_map::Iter<'a, Text, Items<Text>>,
    second: Option<btree_map::Iter<'a, Text, Items<Text>>>,
}

impl<'a> Model for FeatureIter<'a> {
    ghost use Rattle.std.specs.Prelude.{List, ℕ, ◌++◌, [], unwrap_or};

    ghost Value = { List (List ℕ × List (List ℕ)) };

    ghost view = { λ s. s.first ++ unwrap_or s.second [] };
}

impl<'a> Iterator for FeatureIter<'a> {
    type Item = (&'a Text, &'a Items<Text>);

    ghost next_gives = { TakesFirst deref_pair };

    ghost remaining = { λ s. at_most (length s) };

    fn next(&mut self) -> Option<(&'a Text, &'a Items<Text>)> {
        if let Some(pair) = self.first.next() {
            return Some(pair);
        }
        match &mut self.second {
            Some(second) => second.next(),
            None => None,
        }
    }
}

impl IndexVersion {
    /// Its features, each with what it enables: first those that every cargo reads, then those of
    /// the newer member.
    pub fn features(&self) -> FeatureIter<'_>
        ensures { result ≡ self.now.features ++ unwrap_or self.now.features2 [] }
    {
        FeatureIter {
            first: self.features.as_map().iter(),
            second: match &self.features2 {
                Some(more) => Some(more.as_map().iter()),
                None => None,
            },
        }
    }
}
