//! Versions of cargo.
ghost use Rattle.std.specs.Prelude.{◌≡◌, ◌≢◌, ◌<◌, ◌↔◌, Ok, Err, IfOk, IfErr, IsTrue};
ghost use Rattle.semver.specs.Identifiers.{parts_of};
ghost use Rattle.semver.specs.Parse.{memory_error};
ghost use Rattle.tame_location.specs.Versions.{IsVersionError, cargo_version, version_of};
ghost use Rattle.tame_location.specs.Versions as spec;

use crate::texts::{behind_of, until};
use semver::Version;
use std::alloc::{AllocError, Global};
use tame_names::{Error, IoKind};

fn is_memory(error: semver::Error) -> bool
    ensures { IsTrue result ↔ (error ≡ memory_error) }
{
    error == semver::Error::from(AllocError)
}

/// The version in a string; `Semver` if there is none.
pub fn read_version(alloc: Global, text: &str) -> Result<Version, Error>
    ensures ok { IfOk result (λ version. version_of text.now ≡ Ok (parts_of version)) }
    ensures refused { IfErr result (λ e. e ≢ Error.NoMemory → version_of text.now ≡ Err e) }
    ensures only { IfErr result IsVersionError }
{
    match Version::parse(alloc, text) {
        Ok(version) => Ok(version),
        Err(error) => {
            if is_memory(error) {
                Err(Error::NoMemory)
            } else {
                Err(Error::Semver)
            }
        }
    }
}

/// The version in what `cargo -V` prints: the text between the first and the second space of the
/// trimmed text. `Io` with `InvalidData` without a space, `Semver` if that is no version.
pub fn parse_cargo_semver(alloc: Global, text: &str) -> Result<Version, Error>
    ensures ok { IfOk result (λ version. cargo_version text.now ≡ Ok (parts_of version)) }
    ensures refused { IfErr result (λ e. e ≢ Error.NoMemory → cargo_version text.now ≡ Err e) }
{
    match behind_of(text.trim(), ' ') {
        Some(behind) => read_version(alloc, until(behind, ' ')),
        None => Err(Error::Io(IoKind::InvalidData)),
    }
}

/// Whether a version has at least the precedence of this release, whose patch is 0.
pub fn is_at_least(version: &Version, major: u64, minor: u64) -> bool
    ensures { result ≡ spec.is_at_least major minor (parts_of version.now) }
{
    version
        .cmp_precedence(&Version::new(major, minor, 0))
        .is_ge()
}
