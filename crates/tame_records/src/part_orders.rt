//! The orders by which equal dependency lists and equal features are found among those kept.
ghost use Rattle.std.specs.Prelude.{◌≡◌};
ghost use Rattle.std.specs.Cmp.{eq_by_cmp_equiv, partial_equiv_from_equiv, partial_order_from_total};
ghost use Rattle.std.specs.Ordering.{as_partial_cmp, eq_by_cmp};
ghost use Rattle.tame_records.specs.Orders.{dependencies_cmp, dependencies_total, dependency_cmp, features_cmp, features_total, texts_cmp};
ghost use Rattle.tame_records.specs.Orders as spec;

use crate::dependencies::{DependencyKind, IndexDependency};
use crate::members::{FeatureMap, Features};
use crate::shared::Shared;
use std::cmp::Ordering;
use std::marker::Model;
use tame_names::Text;

/// A dependency list that is kept. Contracts see the list.
#[derive(Drop)]
pub(crate) struct KeptDependencies {
    pub(crate) list: Shared<IndexDependency>,
}

/// Features that are kept. Contracts see them as features.
#[derive(Drop)]
pub(crate) struct KeptFeatures {
    pub(crate) features: Features,
}

impl Model for KeptDependencies {
    ghost use Rattle.std.specs.Prelude.{List};
    ghost use Rattle.tame_records.specs.declared.dependencies.IndexDependency.{IndexDependency};

    ghost Value = { List IndexDependency };

    ghost view = { λ k. k.list };
}

impl Model for KeptFeatures {
    ghost use Rattle.std.specs.Prelude.{List, ℕ};

    ghost Value = { List (List ℕ × List (List ℕ)) };

    ghost view = { λ k. k.features };
}

// ---- the orders

fn kind_number(kind: DependencyKind) -> u8
    ensures { result ≡ spec.kind_number kind }
{
    match kind {
        DependencyKind::Normal => 0,
        DependencyKind::Dev => 1,
        DependencyKind::Build => 2,
    }
}

fn compare_texts<'a>(these: &'a [Text], those: &'a [Text]) -> Ordering
    ensures { result ≡ texts_cmp these.now those.now }
{
    Ord::cmp(&these, &those)
}

fn compare_dependencies(this: &IndexDependency, that: &IndexDependency) -> Ordering
    ensures { result ≡ dependency_cmp this.now that.now }
{
    this.name
        .cmp(&that.name)
        .then(this.req.cmp(&that.req))
        .then(compare_texts(this.features.as_slice(), that.features.as_slice()))
        .then(this.optional.cmp(&that.optional))
        .then(this.default_features.cmp(&that.default_features))
        .then(this.target.cmp(&that.target))
        .then(kind_number(this.kind).cmp(&kind_number(that.kind)))
        .then(this.package.cmp(&that.package))
}

fn compare_lists(these: &[IndexDependency], those: &[IndexDependency]) -> Ordering
    ensures { result ≡ dependencies_cmp these.now those.now }
{
    let mut rest = those;
    for this in these {
        let Some((that, behind)) = rest.split_first() else {
            return Ordering::Greater;
        };
        let order = compare_dependencies(this, that);
        if order.is_ne() {
            return order;
        }
        rest = behind;
    }
    if rest.is_empty() {
        Ordering::Equal
    } else {
        Ordering::Less
    }
}

fn compare_features(these: &FeatureMap, those: &FeatureMap) -> Ordering
    ensures { result ≡ features_cmp these.now.entries those.now.entries }
{
    let mut rest = those.iter();
    for (name, texts) in these.iter() {
        let Some((other_name, other_texts)) = rest.next() else {
            return Ordering::Greater;
        };
        let order = name
            .cmp(other_name)
            .then(compare_texts(texts.as_slice(), other_texts.as_slice()));
        if order.is_ne() {
            return order;
        }
    }
    if rest.next().is_none() {
        Ordering::Equal
    } else {
        Ordering::Less
    }
}

// ---- equal if no order tells them apart

impl PartialEq for KeptDependencies {
    ghost eq = { eq_by_cmp dependencies_cmp };

    ghost laws = { partial_equiv_from_equiv (eq_by_cmp_equiv dependencies_total) };

    fn eq(&self, other: &KeptDependencies) -> bool {
        self.cmp(other).is_eq()
    }
}

impl Eq for KeptDependencies {
    ghost laws = { eq_by_cmp_equiv dependencies_total };
}

impl PartialOrd for KeptDependencies {
    ghost partial_cmp = { as_partial_cmp dependencies_cmp };

    ghost laws = { partial_order_from_total dependencies_total };

    fn partial_cmp(&self, other: &KeptDependencies) -> Option<Ordering> {
        Some(self.cmp(other))
    }
}

impl Ord for KeptDependencies {
    ghost use Rattle.std.specs.Prelude.{refl};

    ghost cmp = { dependencies_cmp };

    ghost total = { dependencies_total };

    ghost matches_partial_cmp = { λ a b. refl };

    ghost matches_eq = { λ a b. refl };

    fn cmp(&self, other: &KeptDependencies) -> Ordering {
        compare_lists(self.list.as_slice(), other.list.as_slice())
    }
}

impl PartialEq for KeptFeatures {
    ghost eq = { eq_by_cmp features_cmp };

    ghost laws = { partial_equiv_from_equiv (eq_by_cmp_equiv features_total) };

    fn eq(&self, other: &KeptFeatures) -> bool {
        self.cmp(other).is_eq()
    }
}

impl Eq for KeptFeatures {
    ghost laws = { eq_by_cmp_equiv features_total };
}

impl PartialOrd for KeptFeatures {
    ghost partial_cmp = { as_partial_cmp features_cmp };

    ghost laws = { partial_order_from_total features_total };

    fn partial_cmp(&self, other: &KeptFeatures) -> Option<Ordering> {
        Some(self.cmp(other))
    }
}

impl Ord for KeptFeatures {
    ghost use Rattle.std.specs.Prelude.{refl};

    ghost cmp = { features_cmp };

    ghost total = { features_total };

    ghost matches_partial_cmp = { λ a b. refl };

    ghost matches_eq = { λ a b. refl };

    fn cmp(&self, other: &KeptFeatures) -> Ordering {
        compare_features(self.features.as_map(), other.features.as_map())
    }
}
