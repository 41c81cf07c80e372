//! Advisories and lockfiles of texts that are some.
ghost use Rattle.std.specs.Prelude.{◌≡◌, ◌++◌, ◌∷◌, [], map, Ok, IfOk, IfErr, OnOk, OnErr};
ghost use Rattle.audit_advisory.specs.Advisories.{advisory_of};
ghost use Rattle.audit_lock.specs.Locked.{locked};
ghost use Rattle.advice_fixtures.specs.Readings.{IsUnread};

use audit_advisory::{Advisory, AdvisoryFault};
use audit_lock::{Lockfile, LockfileFault, Package};
use row_fixtures::{Row, RowFault};
use std::alloc::Global;
use tame_names::{Items, Text};

/// The advisory of a text that is one.
pub fn read_advisory(alloc: Global, text: &str) -> Result<Advisory, RowFault>
    ensures read { IfOk result (λ advisory. advisory_of text.now ≡ Ok advisory) }
    ensures unread { IfErr result (IsUnread (advisory_of text.now)) }
{
    match Advisory::read(alloc, text) {
        Ok(advisory) => Ok(advisory),
        Err(AdvisoryFault::NoMemory) => Err(RowFault::NoMemory),
        Err(_) => Err(RowFault::Unread),
    }
}

/// Adds the advisory of a text that is one.
pub fn add_read(alloc: Global, advisories: &mut Items<Advisory>, text: &str) -> Result<(), RowFault>
    ensures added { OnOk result (map (λ a. Ok a) advisories.new
        ≡ map (λ a. Ok a) advisories.old ++ advisory_of text.now ∷ []) }
    ensures unread { IfErr result (IsUnread (advisory_of text.now)) }
    ensures same { OnErr result (advisories.new ≡ advisories.old) }
{
    let advisory = read_advisory(alloc, text)?;
    match advisories.add(advisory) {
        Ok(()) => Ok(()),
        Err(_) => Err(RowFault::NoMemory),
    }
}

/// The lockfile of a text that is one.
pub fn read_lockfile(alloc: Global, text: &str) -> Result<Lockfile, RowFault>
    ensures read { IfOk result (λ lockfile. locked text.now ≡ Ok lockfile) }
    ensures unread { IfErr result (IsUnread (locked text.now)) }
{
    match Lockfile::read(alloc, text) {
        Ok(lockfile) => Ok(lockfile),
        Err(LockfileFault::NoMemory) => Err(RowFault::NoMemory),
        Err(_) => Err(RowFault::Unread),
    }
}

/// The places of the packages that are named, each `NAME@VERSION`.
pub fn packages_named(
    alloc: Global,
    packages: &[Package],
    words: &[Text],
) -> Result<Items<usize>, RowFault> {
    let mut places = Items::new(alloc);
    for (i, package) in packages.iter().enumerate() {
        let word = format!(in alloc; "{}@{}", package.name, package.version)?;
        if words.iter().any(|text| text.as_str() == word.as_str()) {
            places.add(i)?;
        }
    }
    Ok(places)
}

/// The texts of a word that has commas between them; none for `-`.
pub fn listed(alloc: Global, row: &mut Row<'_>) -> Result<Items<Text>, RowFault> {
    let mut texts = Items::new(alloc);
    let word = row.word();
    if word != "-" {
        for text in word.split(',') {
            texts.add(Text::of(alloc, text)?)?;
        }
    }
    Ok(texts)
}
