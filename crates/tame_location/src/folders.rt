//! The folders in which cargo keeps indices.
ghost use Rattle.std.specs.Prelude.{◌≡◌, ◌≢◌, ◌++◌, ◌∷◌, [], Ok, Err, IfOk, IfErr, IsSome, option_map};
ghost use Rattle.tame_location.specs.Folders.{IsDetailsError, IsRootError, Told, details_of, dir_of};
ghost use Rattle.tame_location.specs.Calls.{AddsFailed, HasCallCause};
ghost use Rattle.tame_location.specs.Homes.{IsHomeCall, IsTold};
ghost use Rattle.tame_location.specs.Urls.{IsUrlError};
ghost use Rattle.tame_location.specs.Folders as spec;

use crate::homes::cargo_home;
use crate::idents::Ident;
use crate::sip_hash::sip_hash_2_4;
use crate::texts::{behind, cut_at_scheme, in_front_of, until};
use crate::urls::{canonicalize_url, refused_url};
use hex::encode;
use std::alloc::Global;
use tame_names::{Error, Files, InvalidUrlError, Items, NoMemory, Text, join};

/// The folder of a url.
#[derive(Debug, Drop, PartialEq, Eq)]
pub struct UrlDir {
    /// Its name, which is different for each url that cargo distinguishes.
    pub dir_name: Text,
    /// The url for which it is kept.
    pub canonical: Text,
}

const GIT_REGISTRY: u8 = 2;

const SPARSE_REGISTRY: u8 = 3;

/// The kind of index of a url with this modifier, and the url without the modifier.
fn kind_by<'u>(alloc: Global, url: &'u str, modifier: Option<&str>) -> Result<(u8, &'u str), Error>
    ensures ok { IfOk result (λ k. spec.kind_by url.now (option_map (λ m. m.now) modifier.entry)
        ≡ Ok (k.0, k.1.now)) }
    ensures refused { IfErr result (λ e. e ≢ Error.NoMemory
        → spec.kind_by url.now (option_map (λ m. m.now) modifier.entry) ≡ Err e) }
    ensures only { IfErr result IsUrlError }
{
    match modifier {
        None => Ok((GIT_REGISTRY, url)),
        Some(word) => {
            if word == "sparse" {
                Ok((SPARSE_REGISTRY, url))
            } else if word == "registry" {
                Ok((GIT_REGISTRY, behind(url, '+')))
            } else {
                Err(refused_url(alloc, url, InvalidUrlError::UnknownSchemeModifier))
            }
        }
    }
}

/// The bytes that distinguish folders of one host.
fn hashed(alloc: Global, kind: u8, url: &str) -> Result<Items<u8>, NoMemory>
    ensures { IfOk result (λ bytes. bytes ≡ spec.hashed kind url.now) }
{
    let mut bytes = Items::copied(alloc, &(kind as u64).to_le_bytes())?;
    bytes.extend(url.as_bytes())?;
    bytes.add(255)?;
    Ok(bytes)
}

/// The name of a folder: the host in the text after `://`, and the digits of a number.
fn folder_name(alloc: Global, rest: &str, number: u64) -> Result<Text, NoMemory>
    ensures { IfOk result (λ name. name ≡ spec.folder_name rest.now number) }
{
    let host = behind(until(until(rest, '/'), ':'), '@');
    let digits = encode(alloc, &number.to_le_bytes())?;
    let mut name = String::from_str(alloc, host)?;
    name.push('-')?;
    name.push_str(digits.as_str())?;
    Ok(Text::from_string(name))
}

/// The folder by the kind of index and its url.
fn dir_by<I: Ident>(
    alloc: Global,
    stable: bool,
    ident: &I,
    rest: &str,
    kind: u8,
    url: &str,
) -> Result<UrlDir, Error>
    ensures ok { IfOk result (λ dir.
        spec.dir_by stable (I.number ident.now) rest.now (kind, url.now) ≡ Ok dir) }
    ensures refused { IfErr result (λ e. e ≢ Error.NoMemory
        → spec.dir_by stable (I.number ident.now) rest.now (kind, url.now) ≡ Err e) }
    ensures only { IfErr result IsUrlError }
{
    if stable {
        let canonical = canonicalize_url(alloc, url)?;
        let number = ident.ident(kind, canonical.as_str());
        let dir_name = folder_name(alloc, rest, number)?;
        return Ok(UrlDir {
            dir_name,
            canonical,
        });
    }
    let bytes = hashed(alloc, kind, url)?;
    let number = sip_hash_2_4(0, 0, bytes.as_slice());
    Ok(UrlDir {
        dir_name: folder_name(alloc, rest, number)?,
        canonical: Text::of(alloc, url)?,
    })
}

/// The folder that cargo keeps for a url, and the url for which it keeps it: up to cargo 1.84 named
/// by the url as it is, from 1.85.0 on (`stable`) by the canonical url with the number that `ident`
/// gives. The url may begin with `sparse+` or `registry+`, of which the second is cut off.
/// `InvalidUrl` with `MissingScheme` without `://`, and with `UnknownSchemeModifier` at another
/// modifier.
pub fn url_to_local_dir<I: Ident>(
    alloc: Global,
    url: &str,
    stable: bool,
    ident: &I,
) -> Result<UrlDir, Error>
    ensures ok { IfOk result (λ dir. dir_of stable (I.number ident.now) url.now ≡ Ok dir) }
    ensures refused { IfErr result (λ e. e ≢ Error.NoMemory
        → dir_of stable (I.number ident.now) url.now ≡ Err e) }
    ensures only { IfErr result IsUrlError }
{
    let Some((scheme, rest)) = cut_at_scheme(url) else {
        return Err(refused_url(alloc, url, InvalidUrlError::MissingScheme));
    };
    let (kind, left) = kind_by(alloc, url, in_front_of(scheme, '+'))?;
    dir_by(alloc, stable, ident, rest, kind, left)
}

/// The path of a folder of this name below a root.
fn index_path(alloc: Global, root: &str, name: &str) -> Result<Text, NoMemory>
    ensures { IfOk result (λ path. path ≡ spec.index_path root.now name.now) }
{
    let registry = join(alloc, root, "registry")?;
    let index = join(alloc, registry.as_str(), "index")?;
    join(alloc, index.as_str(), name)
}

/// The given root, or else cargo's home.
pub fn root_of<F: Files>(alloc: Global, files: &mut F, root: Option<&str>) -> Result<Text, Error>
    ensures ok { Told root.entry F.tells → IfOk result (λ folder.
        spec.root_of (option_map (λ r. r.now) root.entry) (F.host files.old) ≡ Ok folder) }
    ensures refused { Told root.entry F.tells → IfErr result (λ e. IsTold e
        → spec.root_of (option_map (λ r. r.now) root.entry) (F.host files.old) ≡ Err e) }
    ensures only { IfErr result (IsRootError root.entry) }
    ensures cause { HasCallCause (F.faults files.old) (F.faults files.new) result }
    ensures failed { F.tells → AddsFailed (IsHomeCall (F.host files.old))
        (F.failed files.old) (F.failed files.new) result }
    ensures same { F.tells → F.host files.new ≡ F.host files.old }
    ensures given { IsSome root.entry → files.new ≡ files.old }
{
    match root {
        None => cargo_home(alloc, files),
        Some(root) => match Text::of(alloc, root) {
            Ok(root) => Ok(root),
            Err(NoMemory) => Err(Error::NoMemory),
        },
    }
}

/// The path of the folder that cargo keeps for a url, below a root or else below cargo's home, and
/// the url for which it keeps it. Errors are those of `url_to_local_dir`, and then those of
/// `cargo_home` if no root is given: if a url has no folder, the host isn't asked.
pub fn get_index_details<F: Files, I: Ident>(
    alloc: Global,
    files: &mut F,
    url: &str,
    root: Option<&str>,
    stable: bool,
    ident: &I,
) -> Result<(Text, Text), Error>
    ensures ok { Told root.entry F.tells → IfOk result (λ parts.
        details_of stable (I.number ident.now) url.now (option_map (λ r. r.now) root.entry)
        (F.host files.old) ≡ Ok parts) }
    ensures refused { Told root.entry F.tells → IfErr result (λ e. IsTold e
        → details_of stable (I.number ident.now) url.now (option_map (λ r. r.now) root.entry)
        (F.host files.old) ≡ Err e) }
    ensures only { IfErr result (IsDetailsError root.entry) }
    ensures cause { HasCallCause (F.faults files.old) (F.faults files.new) result }
    ensures failed { F.tells → AddsFailed (IsHomeCall (F.host files.old))
        (F.failed files.old) (F.failed files.new) result }
    ensures same { F.tells → F.host files.new ≡ F.host files.old }
    ensures given { IsSome root.entry → files.new ≡ files.old }
    ensures refused_unasked { IfErr (dir_of stable (I.number ident.now) url.now)
        (λ why. files.new ≡ files.old) }
{
    let dir = url_to_local_dir(alloc, url, stable, ident)?;
    let root = root_of(alloc, files, root)?;
    let path = index_path(alloc, root.as_str(), dir.dir_name.as_str())?;
    Ok((path, dir.canonical))
}
