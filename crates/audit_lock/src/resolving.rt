//! Packages with their dependencies found.
ghost use Rattle.std.specs.Prelude.{◌≡◌, ◌≢◌, IfOk, IfErr, Ok, Err};
ghost use Rattle.std.specs.BTreeMap.{get_by_text};
ghost use Rattle.audit_lock.specs.Defaults as spec;
ghost use Rattle.audit_lock.specs.Locked.{place_of, resolve_from};

use crate::listed::{ListedPackage, LockRule};
use crate::lockfiles::{LockfileFault, is_from_default};
use crate::naming::{Places, each_place, places_of};
use std::alloc::Global;
use tame_names::{Items, Text};

/// A package of a lockfile.
#[derive(Debug, Drop)]
pub struct Package {
    /// The package's name.
    pub name: Text,
    /// The version as written, a SemVer version.
    pub version: Text,
    /// Where it comes from, as written; none for a package of a folder.
    pub source: Option<Text>,
    /// The checksum of its crate file, as written, if it has one.
    pub checksum: Option<Text>,
    /// The places of the packages it depends on.
    pub dependencies: Items<usize>,
}

impl Package {
    /// Whether it is from the default registry, crates.io.
    pub fn is_default(&self) -> bool
        ensures { result ≡ spec.is_default self.now }
    {
        is_from_default(&self.source)
    }
}

fn resolve_each(
    alloc: Global,
    places: &Places,
    listed: Vec<ListedPackage>,
) -> Result<Items<Package>, LockfileFault>
    ensures ok { IfOk result (λ ps. resolve_from (get_by_text places.now) 0 listed.items ≡ Ok ps) }
    ensures refused { IfErr result
        (λ e. e ≢ LockfileFault.NoMemory
        → resolve_from (get_by_text places.now) 0 listed.items ≡ Err e) }
{
    let mut packages = Items::new(alloc);
    for package in listed {
        let place = packages.as_slice().len();
        let Some(dependencies) = each_place(alloc, places, package.dependencies.as_slice())? else {
            return Err(LockfileFault::Rule {
                package: Some(place),
                rule: LockRule::Names,
            });
        };
        packages.add(Package {
            name: package.name,
            version: package.version,
            source: package.source,
            checksum: package.checksum,
            dependencies,
        })?;
    }
    Ok(packages)
}

/// The packages, with each dependency's place: the first that it names.
pub fn resolve(alloc: Global, listed: Items<ListedPackage>) -> Result<Items<Package>, LockfileFault>
    ensures ok { IfOk result (λ ps. resolve_from (place_of listed) 0 listed ≡ Ok ps) }
    ensures refused { IfErr result
        (λ e. e ≢ LockfileFault.NoMemory → resolve_from (place_of listed) 0 listed ≡ Err e) }
{
    let places = places_of(alloc, listed.as_slice())?;
    resolve_each(alloc, &places, listed.into_vec())
}
