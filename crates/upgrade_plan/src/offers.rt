//! What the lines of a crate say about its versions.
ghost use Rattle.std.specs.Prelude.{◌≡◌, IfOk};
ghost use Rattle.upgrade_plan.specs.Candidates as spec;
ghost use Rattle.upgrade_plan.specs.LastFlags.{AreLastFlags};

use std::alloc::Global;
use std::collections::BTreeMap;
use std::marker::Model;
use tame_names::NoMemory;
use tame_records::IndexVersion;

/// The versions of a crate, and what its lines say about each. Contracts see the versions.
#[derive(Drop)]
pub struct Offers<'k> {
    versions: &'k [IndexVersion],
    /// For each version, the flag of the last line that has it.
    flags: BTreeMap<String, bool>,
}

impl<'k> Model for Offers<'k> {
    ghost use Rattle.std.specs.Prelude.{List};
    ghost use Rattle.tame_records.specs.declared.versions.IndexVersion.{IndexVersion};
    ghost use Rattle.upgrade_plan.specs.LastFlags.{AreLastFlags};

    ghost Value = { List IndexVersion };

    ghost view = { λ o. o.versions.now };

    ghost invariant = { λ o. AreLastFlags o.flags o.versions.now };
}

/// For each of these versions, the flag of the last one with its text, found in one pass.
fn last_flags(alloc: Global, versions: &[IndexVersion]) -> Result<BTreeMap<String, bool>, NoMemory>
    ensures { IfOk result (λ flags. AreLastFlags flags versions.now) }
{
    let mut flags = BTreeMap::new(alloc);
    for version in versions {
        let text = String::from_str(alloc, version.version.as_str())?;
        flags.insert(text, version.yanked)?;
    }
    Ok(flags)
}

impl<'k> Offers<'k> {
    /// The versions of a crate, with what its lines say about them.
    pub fn of(alloc: Global, versions: &'k [IndexVersion]) -> Result<Offers<'k>, NoMemory>
        ensures { IfOk result (λ offers. offers ≡ versions.now) }
    {
        let flags = last_flags(alloc, versions)?;
        Ok(Offers { versions, flags })
    }

    /// Whether the last line that has the version doesn't say that it is yanked; one look-up.
    pub fn is_offered(&self, text: &str) -> bool
        ensures { result ≡ spec.is_offered self.now text.now }
    {
        match self.flags.get(text) {
            None => false,
            Some(yanked) => !*yanked,
        }
    }
}
