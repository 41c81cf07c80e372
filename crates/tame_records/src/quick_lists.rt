//! Where the arrays and objects of a line end.
ghost use Rattle.std.specs.Prelude.{◌≡◌, ◌<◌, ◌≤◌, length, true, IfSome};
ghost use Rattle.serde_json.specs.Data.{Data};
ghost use Rattle.tame_records.specs.VersionFlags.{are_dependencies, are_lists, are_texts, dependency_key_fits, is_dependency, with_dependency_key};
ghost use Rattle.tame_records.specs.Quick.{TakesAt, ValueAt};

use crate::keys::{DependencyKey, DependencySeen, dependency_key};
use crate::quick_texts::{byte_at, plain_text, text_end};
use crate::quick_values::{
    flag_value_end, kind_end, plain_value_end, text_or_null_end, text_value_end,
};

/// An array of strings.
fn texts_end(bytes: &[u8], at: usize) -> Option<usize>
    ensures value { IfSome result (λ e. TakesAt 1 are_texts bytes.now at e) }
    ensures within { IfSome result (λ e. (at < e) × (e ≤ length bytes.now)) }
{
    if byte_at(bytes, at) != b'[' {
        return None;
    }
    if byte_at(bytes, at + 1) == b']' {
        return Some(at + 2);
    }
    let mut from = at + 1;
    'items: loop {
        let end = text_end(bytes, from)?;
        match byte_at(bytes, end) {
            b',' => {
                from = end + 1;
            }
            b']' => return Some(end + 1),
            _ => return None,
        }
    }
}

/// An object of arrays of strings.
pub(crate) fn lists_end(bytes: &[u8], at: usize) -> Option<usize>
    ensures value { IfSome result (λ e. TakesAt 2 are_lists bytes.now at e) }
    ensures within { IfSome result (λ e. (at < e) × (e ≤ length bytes.now)) }
{
    if byte_at(bytes, at) != b'{' {
        return None;
    }
    if byte_at(bytes, at + 1) == b'}' {
        return Some(at + 2);
    }
    let mut from = at + 1;
    'members: loop {
        let key = text_end(bytes, from)?;
        if byte_at(bytes, key) != b':' {
            return None;
        }
        let end = texts_end(bytes, key + 1)?;
        match byte_at(bytes, end) {
            b',' => {
                from = end + 1;
            }
            b'}' => return Some(end + 1),
            _ => return None,
        }
    }
}

/// The value of a member of a dependency; notes that it was seen.
fn part_end(
    bytes: &[u8],
    at: usize,
    part: DependencyKey,
    seen: &mut DependencySeen,
) -> Option<usize>
    ensures value { IfSome result (λ e. (d : Data) × ValueAt 1 bytes.now at d e
        × (dependency_key_fits part d ≡ true) × (seen.new ≡ with_dependency_key part seen.old)) }
    ensures within { IfSome result (λ e. (at < e) × (e ≤ length bytes.now)) }
{
    match part {
        DependencyKey::Name => {
            seen.name = true;
            text_value_end(bytes, at)
        }
        DependencyKey::Req => {
            seen.req = true;
            text_value_end(bytes, at)
        }
        DependencyKey::Features => {
            seen.features = true;
            texts_end(bytes, at)
        }
        DependencyKey::Optional => {
            seen.optional = true;
            flag_value_end(bytes, at)
        }
        DependencyKey::DefaultFeatures => {
            seen.default_features = true;
            flag_value_end(bytes, at)
        }
        DependencyKey::Text => text_or_null_end(bytes, at),
        DependencyKey::Kind => kind_end(bytes, at),
        DependencyKey::Other => plain_value_end(bytes, at),
    }
}

/// A dependency with all its required members.
fn dependency_end(bytes: &[u8], at: usize) -> Option<usize>
    ensures value { IfSome result (λ e. TakesAt 2 is_dependency bytes.now at e) }
    ensures within { IfSome result (λ e. (at < e) × (e ≤ length bytes.now)) }
{
    if byte_at(bytes, at) != b'{' {
        return None;
    }
    let mut seen = DependencySeen {
        name: false,
        req: false,
        features: false,
        optional: false,
        default_features: false,
    };
    let mut from = at + 1;
    'members: loop {
        let (name, key) = plain_text(bytes, from)?;
        if byte_at(bytes, key) != b':' {
            return None;
        }
        let end = part_end(bytes, key + 1, dependency_key(name), &mut seen)?;
        match byte_at(bytes, end) {
            b',' => {
                from = end + 1;
            }
            b'}' => {
                if !(seen.name
                    && seen.req
                    && seen.features
                    && seen.optional
                    && seen.default_features)
                {
                    return None;
                }
                return Some(end + 1);
            }
            _ => return None,
        }
    }
}

/// An array of dependencies.
pub(crate) fn dependencies_end(bytes: &[u8], at: usize) -> Option<usize>
    ensures value { IfSome result (λ e. TakesAt 3 are_dependencies bytes.now at e) }
    ensures within { IfSome result (λ e. (at < e) × (e ≤ length bytes.now)) }
{
    if byte_at(bytes, at) != b'[' {
        return None;
    }
    if byte_at(bytes, at + 1) == b']' {
        return Some(at + 2);
    }
    let mut from = at + 1;
    'items: loop {
        let end = dependency_end(bytes, from)?;
        match byte_at(bytes, end) {
            b',' => {
                from = end + 1;
            }
            b']' => return Some(end + 1),
            _ => return None,
        }
    }
}
