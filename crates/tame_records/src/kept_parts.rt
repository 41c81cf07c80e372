//! Dependency lists and features that the versions of one crate share, since most versions have
//! those of the version before.
ghost use Rattle.std.specs.Prelude.{◌≡◌, ◌≢◌, [], length, All, Contains, MatchOption, OnOk};
ghost use Rattle.tame_records.specs.Kept.{IsOneMore, KeptBoth, KeptOnce};

use crate::dependencies::IndexDependency;
use crate::members::Features;
use crate::part_orders::{KeptDependencies, KeptFeatures};
use crate::shared::Shared;
use crate::versions::IndexVersion;
use std::alloc::Global;
use std::collections::BTreeSet;
use tame_names::NoMemory;

/// The dependency lists and the features of the versions so far, each once, so that the versions
/// after them can share them. They are in ordered sets: the comparisons that find an equal one
/// grow as the logarithm of their number, whatever they are.
#[derive(Drop)]
pub struct KeptParts {
    dependencies: BTreeSet<KeptDependencies>,
    features: BTreeSet<KeptFeatures>,
}

// ---- one of the kept ones

/// The kept list that equals a list.
fn kept_dependencies<'a>(
    kept: &'a BTreeSet<KeptDependencies>,
    wanted: &KeptDependencies,
) -> Option<&'a KeptDependencies>
    ensures { MatchOption result (All (λ list. list ≢ wanted.now) kept.now.keys)
        (λ list. Contains kept.now.keys list.now × (list.now ≡ wanted.now)) }
{
    kept.get(wanted)
}

/// The kept features that equal these.
fn kept_features<'a>(
    kept: &'a BTreeSet<KeptFeatures>,
    wanted: &KeptFeatures,
) -> Option<&'a KeptFeatures>
    ensures { MatchOption result (All (λ features. features ≢ wanted.now) kept.now.keys)
        (λ features. Contains kept.now.keys features.now × (features.now ≡ wanted.now)) }
{
    kept.get(wanted)
}

/// Keeps a list that none of the kept ones equals.
fn keep_dependencies(
    kept: &mut BTreeSet<KeptDependencies>,
    list: KeptDependencies,
) -> Result<(), NoMemory>
    requires { All (λ other. other ≢ list) kept.old.keys }
    ensures { OnOk result (IsOneMore kept.old.keys list kept.new.keys) }
{
    let _is_new = kept.insert(list)?;
    Ok(())
}

/// Keeps features that none of the kept ones equal.
fn keep_features(kept: &mut BTreeSet<KeptFeatures>, features: KeptFeatures) -> Result<(), NoMemory>
    requires { All (λ other. other ≢ features) kept.old.keys }
    ensures { OnOk result (IsOneMore kept.old.keys features kept.new.keys) }
{
    let _is_new = kept.insert(features)?;
    Ok(())
}

// ---- versions

impl KeptParts {
    /// Nothing kept.
    pub fn new(alloc: Global) -> KeptParts
        ensures dependencies { result.dependencies.keys ≡ [] }
        ensures features { result.features.keys ≡ [] }
    {
        KeptParts {
            dependencies: BTreeSet::new(alloc),
            features: BTreeSet::new(alloc),
        }
    }

    /// How many dependency lists are kept, no two of them equal.
    pub fn dependency_lists(&self) -> usize
        ensures { result ≡ length self.now.dependencies.keys }
    {
        self.dependencies.len()
    }

    /// How many maps of features are kept, no two of them equal.
    pub fn feature_maps(&self) -> usize
        ensures { result ≡ length self.now.features.keys }
    {
        self.features.len()
    }

    /// Replaces a list by the kept one that equals it; keeps a list that equals none.
    fn share_dependencies(&mut self, list: &mut Shared<IndexDependency>) -> Result<(), NoMemory>
        ensures same { list.new ≡ list.old }
        ensures once { OnOk result
            (KeptOnce self.old.dependencies.keys list.old self.new.dependencies.keys) }
        ensures apart { self.new.features ≡ self.old.features }
    {
        let wanted = KeptDependencies {
            list: list.share()?,
        };
        match kept_dependencies(&self.dependencies, &wanted) {
            Some(kept) => {
                *list = kept.list.share()?;
                Ok(())
            }
            None => keep_dependencies(&mut self.dependencies, wanted),
        }
    }

    /// Replaces features by the kept ones that equal them; keeps features that equal none.
    fn share_features(&mut self, features: &mut Features) -> Result<(), NoMemory>
        ensures same { features.new ≡ features.old }
        ensures once { OnOk result
            (KeptOnce self.old.features.keys features.old self.new.features.keys) }
        ensures apart { self.new.dependencies ≡ self.old.dependencies }
    {
        let wanted = KeptFeatures {
            features: features.share()?,
        };
        match kept_features(&self.features, &wanted) {
            Some(kept) => {
                *features = kept.features.share()?;
                Ok(())
            }
            None => keep_features(&mut self.features, wanted),
        }
    }

    /// Replaces the parts of a version by the kept ones that equal them, and keeps its other parts
    /// for later versions. The version stays equal to what it was, also if keeping a part runs out
    /// of memory.
    pub fn share(&mut self, version: &mut IndexVersion) -> Result<(), NoMemory>
        ensures same { version.new ≡ version.old }
        ensures dependencies { OnOk result (KeptOnce self.old.dependencies.keys
            version.old.deps self.new.dependencies.keys) }
        ensures features { OnOk result (KeptBoth self.old.features.keys
            version.old.features version.old.features2 self.new.features.keys) }
    {
        self.share_dependencies(&mut version.deps)?;
        self.share_features(&mut version.features)?;
        match &mut version.features2 {
            Some(features) => self.share_features(features),
            None => Ok(()),
        }
    }
}
