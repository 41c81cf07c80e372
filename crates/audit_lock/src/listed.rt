//! Packages as a lockfile lists them.
ghost use Rattle.std.specs.Prelude.{◌≡◌, ◌↔◌, IsTrue, nat_eq, option_map, IfOk, IfErr, IfSome, Ok, Err};
ghost use Rattle.std.specs.List.{starts_with};
ghost use Rattle.semver.specs.Parse.{memory_error};
ghost use Rattle.toml.specs.View.{view};
ghost use Rattle.toml_tables.specs.Members.{optional};
ghost use Rattle.audit_lock.specs.Listed.{as_source, listed_of, rule_of};
ghost use Rattle.audit_lock.specs.Listed as spec;

use semver::Version;
use std::alloc::{AllocError, Global};
use tame_names::{Items, NoMemory, Text};
use toml::Value;
use toml_tables::{optional_text, optional_texts, required_text};

/// What a lockfile must satisfy, besides being TOML without floats.
#[derive(Clone, Copy, Debug, PartialEq, Eq)]
pub enum LockRule {
    /// `version` is absent, or 1 to 4.
    Version,
    /// `package` is absent, or an array of tables.
    Packages,
    /// A package has a `name`, a string.
    Name,
    /// A package has a `version`, a string that is a SemVer version.
    PackageVersion,
    /// The `source` of a package is absent, or a string that starts with a kind of source.
    Source,
    /// The `checksum` of a package is absent, or a string.
    Checksum,
    /// The `dependencies` of a package are absent, or an array of strings.
    Dependencies,
    /// The `replace` of a package is absent, or a string.
    Replace,
    /// `root` is absent, or a table.
    Root,
    /// Each dependency names a listed package.
    Names,
}

/// A package as it is listed: its dependencies are strings.
#[derive(Drop)]
pub struct ListedPackage {
    /// The package's name.
    pub name: Text,
    /// The version as written.
    pub version: Text,
    /// Where it comes from, as written; none for a package of a folder.
    pub source: Option<Text>,
    /// The checksum of its crate file, as written, if it has one.
    pub checksum: Option<Text>,
    /// The strings that name the packages it depends on.
    pub dependencies: Items<Text>,
}

/// Why a table is no package.
#[derive(Clone, Copy, Debug, PartialEq, Eq)]
pub enum ListingFault {
    /// The rule that is broken.
    Rule(LockRule),
    /// Out of memory.
    NoMemory,
}

impl From<AllocError> for ListingFault {
    ghost use Rattle.audit_lock.specs.declared.listed.ListingFault.TheVariants.{NoMemory as no_memory};

    ghost from_gives = { λ _ e. e ≡ no_memory };

    fn from(_: AllocError) -> ListingFault {
        ListingFault::NoMemory
    }
}

impl From<NoMemory> for ListingFault {
    ghost use Rattle.audit_lock.specs.declared.listed.ListingFault.TheVariants.{NoMemory as no_memory};

    ghost from_gives = { λ _ e. e ≡ no_memory };

    fn from(_: NoMemory) -> ListingFault {
        ListingFault::NoMemory
    }
}

fn is_memory(error: semver::Error) -> bool
    ensures { IsTrue result ↔ (error ≡ memory_error) }
{
    error == semver::Error::from(AllocError)
}

fn begins_with(text: &str, prefix: &str) -> bool
    ensures { result ≡ starts_with nat_eq text.now prefix.now }
{
    text.starts_with(prefix)
}

fn has_source_kind(text: &str) -> bool
    ensures { result ≡ spec.has_source_kind text.now }
{
    begins_with(text, "registry+")
        || begins_with(text, "sparse+")
        || begins_with(text, "git+")
        || begins_with(text, "path+")
        || begins_with(text, "local-registry+")
        || begins_with(text, "directory+")
}

fn source_of<'a>(member: Option<&'a Value>) -> Option<Option<&'a str>>
    ensures { option_map (option_map (λ s. s.now)) result
        ≡ optional as_source (option_map (λ v. view v.now) member.entry) }
{
    match member {
        None => Some(None),
        Some(Value::String(text)) if has_source_kind(text.as_str()) => Some(Some(text.as_str())),
        Some(_) => None,
    }
}

fn version_of<'a>(alloc: Global, member: Option<&'a Value>) -> Result<Option<&'a str>, AllocError>
    ensures { IfOk result (λ o. option_map (λ s. s.now) o
        ≡ spec.version_of (option_map (λ v. view v.now) member.entry)) }
{
    let Some(text) = required_text(member) else {
        return Ok(None);
    };
    match Version::parse(alloc, text) {
        Ok(_) => Ok(Some(text)),
        Err(error) => {
            if is_memory(error) {
                Err(AllocError)
            } else {
                Ok(None)
            }
        }
    }
}

/// The package that a table is, or the first rule that it breaks.
pub fn read_listed(alloc: Global, value: &Value) -> Result<ListedPackage, ListingFault>
    ensures ok { IfOk result (λ p. listed_of (view value.now) ≡ Ok p) }
    ensures refused { IfErr result
        (λ e. IfSome (rule_of e) (λ r. listed_of (view value.now) ≡ Err r)) }
{
    let Some(name) = required_text(value.get("name")) else {
        return Err(ListingFault::Rule(LockRule::Name));
    };
    let Some(version) = version_of(alloc, value.get("version"))? else {
        return Err(ListingFault::Rule(LockRule::PackageVersion));
    };
    let Some(source) = source_of(value.get("source")) else {
        return Err(ListingFault::Rule(LockRule::Source));
    };
    let Some(checksum) = optional_text(value.get("checksum")) else {
        return Err(ListingFault::Rule(LockRule::Checksum));
    };
    if optional_text(value.get("replace")).is_none() {
        return Err(ListingFault::Rule(LockRule::Replace));
    }
    let Some(dependencies) = optional_texts(alloc, value.get("dependencies"))? else {
        return Err(ListingFault::Rule(LockRule::Dependencies));
    };
    Ok(ListedPackage {
        name: Text::of(alloc, name)?,
        version: Text::of(alloc, version)?,
        source: Text::of_option(alloc, source)?,
        checksum: Text::of_option(alloc, checksum)?,
        dependencies,
    })
}
