//! Where the index of a url is.
ghost use Rattle.std.specs.Prelude.{◌≡◌, ◌≢◌, ◌⊎◌, None, Ok, Err, IfOk, IfErr, option_map};
ghost use Rattle.semver.specs.Identifiers.{parts_of};
ghost use Rattle.tame_location.specs.Calls.{AddsFailed, HasCallCause};
ghost use Rattle.tame_location.specs.Homes.{IsHomeCall, IsTold};
ghost use Rattle.tame_location.specs.Locations.{IsLocationError, ToldAt, located, located_below, path_of, with_slash};
ghost use Rattle.tame_location.specs.declared.index_urls.IndexUrl.TheVariants.{CratesIoSparse};
ghost use Rattle.tame_location.specs.declared.locations.IndexPath.TheVariants.{CargoHome};
ghost use Rattle.tame_location.specs.Urls.{IsUrlError};

use crate::folders::get_index_details;
use crate::homes::cargo_home;
use crate::idents::Ident;
use crate::index_urls::IndexUrl;
use crate::texts::ends_with;
use crate::versions::is_at_least;
use semver::Version;
use std::alloc::Global;
use tame_names::{Error, Files, NoMemory, Text};

/// The path of an index on the disk.
#[derive(Drop)]
pub enum IndexPath {
    /// A folder of its own below cargo's home.
    CargoHome,
    /// A folder of its own below this one.
    UserSpecified(Text),
    /// This folder, for any url.
    Exact(Text),
}

/// An index: its url, and where it is on the disk.
#[derive(Drop)]
pub struct IndexLocation<'l> {
    /// Its url.
    pub url: IndexUrl<'l>,
    /// The folder in or below which it is.
    pub root: IndexPath,
    /// The version of cargo, by which the folder is named; not needed for an exact path.
    pub cargo_version: Option<Version>,
}

/// The url with a `/` at its end.
fn with_slash(alloc: Global, url: &str) -> Result<Text, NoMemory>
    ensures { IfOk result (λ whole. whole ≡ with_slash url.now) }
{
    let mut whole = String::from_str(alloc, url)?;
    if !ends_with(url, "/") {
        whole.push('/')?;
    }
    Ok(Text::from_string(whole))
}

/// The path and the url as they are.
fn copied(alloc: Global, path: &str, url: &str) -> Result<(Text, Text), NoMemory>
    ensures { IfOk result (λ parts. parts ≡ (path.now, url.now)) }
{
    Ok((Text::of(alloc, path)?, Text::of(alloc, url)?))
}

/// Below a root, for this version of cargo.
fn located_below<F: Files, I: Ident>(
    alloc: Global,
    files: &mut F,
    root: &str,
    url: &str,
    version: Option<&Version>,
    ident: &I,
) -> Result<(Text, Text), Error>
    ensures ok { IfOk result (λ parts. located_below (I.number ident.now) url.now
        (option_map (λ v. parts_of v.now) version.entry) (F.host files.old) root.now ≡ Ok parts) }
    ensures refused { IfErr result (λ e. e ≢ Error.NoMemory
        → located_below (I.number ident.now) url.now
        (option_map (λ v. parts_of v.now) version.entry) (F.host files.old) root.now ≡ Err e) }
    ensures only { IfErr result (λ e. (e ≡ Error.NoCargoVersion) ⊎ IsUrlError e) }
    ensures same { files.new ≡ files.old }
{
    let Some(version) = version else {
        return Err(Error::NoCargoVersion);
    };
    let stable = is_at_least(version, 1, 85);
    let (path, url) = get_index_details(alloc, files, url, Some(root), stable, ident)?;
    Ok((path, with_slash(alloc, url.as_str())?))
}

impl<'l> IndexLocation<'l> {
    /// The index of a url below cargo's home, without a version.
    pub fn new(url: IndexUrl<'l>) -> IndexLocation<'l>
        ensures { result ≡ record { url = url.entry; root = CargoHome; cargo_version = None } }
    {
        IndexLocation {
            url,
            root: IndexPath::CargoHome,
            cargo_version: None,
        }
    }

    /// The same below this folder, or below cargo's home if none is given.
    pub fn with_root(self, root: Option<Text>) -> IndexLocation<'l>
        ensures { result ≡ record self.entry { root = path_of root } }
    {
        let mut location = self;
        location.root = IndexPath::from(root);
        location
    }

    /// The path of the index and its url, for a borrowed location.
    fn parts<F: Files, I: Ident>(
        &self,
        alloc: Global,
        files: &mut F,
        ident: &I,
    ) -> Result<(Text, Text), Error>
        ensures ok { ToldAt self.now.root F.tells → IfOk result (λ parts.
            located (I.number ident.now) self.now (F.host files.old) ≡ Ok parts) }
        ensures refused { ToldAt self.now.root F.tells → IfErr result (λ e. IsTold e
            → located (I.number ident.now) self.now (F.host files.old) ≡ Err e) }
        ensures only { IfErr result (IsLocationError self.now.root) }
        ensures cause { HasCallCause (F.faults files.old) (F.faults files.new) result }
        ensures failed { F.tells → AddsFailed (IsHomeCall (F.host files.old))
            (F.failed files.old) (F.failed files.new) result }
        ensures same { F.tells → F.host files.new ≡ F.host files.old }
        ensures stated { self.now.root ≢ CargoHome → files.new ≡ files.old }
    {
        let url = self.url.as_str();
        let version = self.cargo_version.as_ref();
        match &self.root {
            IndexPath::Exact(path) => Ok(copied(alloc, path.as_str(), url)?),
            IndexPath::UserSpecified(root) => {
                located_below(alloc, files, root.as_str(), url, version, ident)
            }
            IndexPath::CargoHome => {
                let home = cargo_home(alloc, files)?;
                located_below(alloc, files, home.as_str(), url, version, ident)
            }
        }
    }

    /// The path of the index and its url: an exact path with the url as it is; else the folder of
    /// the url below the given root or cargo's home, and the url for which it is kept, with a `/`
    /// at its end. Errors are those of `cargo_home` if no root is given, then `NoCargoVersion`
    /// without a version, then those of `url_to_local_dir`.
    pub fn into_parts<F: Files, I: Ident>(
        self,
        alloc: Global,
        files: &mut F,
        ident: &I,
    ) -> Result<(Text, Text), Error>
        ensures ok { ToldAt self.entry.root F.tells → IfOk result (λ parts.
            located (I.number ident.now) self.entry (F.host files.old) ≡ Ok parts) }
        ensures refused { ToldAt self.entry.root F.tells → IfErr result (λ e. IsTold e
            → located (I.number ident.now) self.entry (F.host files.old) ≡ Err e) }
        ensures only { IfErr result (IsLocationError self.entry.root) }
        ensures cause { HasCallCause (F.faults files.old) (F.faults files.new) result }
        ensures failed { F.tells → AddsFailed (IsHomeCall (F.host files.old))
            (F.failed files.old) (F.failed files.new) result }
        ensures same { F.tells → F.host files.new ≡ F.host files.old }
        ensures stated { self.entry.root ≢ CargoHome → files.new ≡ files.old }
    {
        self.parts(alloc, files, ident)
    }
}

impl Default for IndexPath {
    ghost is_default = { λ path. path ≡ CargoHome };

    fn default() -> IndexPath {
        IndexPath::CargoHome
    }
}

impl From<Option<Text>> for IndexPath {
    ghost from_gives = { λ root path. path ≡ path_of root };

    fn from(root: Option<Text>) -> IndexPath {
        match root {
            Some(root) => IndexPath::UserSpecified(root),
            None => IndexPath::CargoHome,
        }
    }
}

impl<'l> Default for IndexLocation<'l> {
    ghost is_default = { λ location. location
        ≡ record { url = CratesIoSparse; root = CargoHome; cargo_version = None } };

    fn default() -> IndexLocation<'l> {
        IndexLocation::new(IndexUrl::CratesIoSparse)
    }
}
