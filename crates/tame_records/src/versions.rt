//! Versions of a crate in the index, a line each.
ghost use Rattle.std.specs.Prelude.{◌≡◌, Err, IfOk, IfErr, None, Some, option_map};
ghost use Rattle.serde_json.specs.View.{view};
ghost use Rattle.tame_records.specs.Record.{chksum_of_data, version_flag, record_of, record_of_data};
ghost use Rattle.tame_records.specs.Record as record_spec;

use crate::checksums::Chksum;
use crate::dependencies::{IndexDependency, dependencies_at};
use crate::line_faults::LineFault;
use crate::members::{
    FeatureMap, Features, flag_or_false, lists_at, lists_or_null, text_at, text_or_null,
    u32_or_null,
};
use crate::shared::Shared;
use crate::values::read_value;
use serde_json::Value;
use std::alloc::Global;
use tame_names::{Items, NoMemory, Text};

/// A version of a crate in the index (Cargo Book, "Registry Index", JSON schema).
#[derive(Debug, Drop, PartialEq, Eq)]
pub struct IndexVersion {
    /// The crate's name, as written.
    pub name: Text,
    /// The version's text; it need not be a SemVer version.
    pub version: Text,
    /// Its dependencies, a list that several versions of one crate may share.
    pub deps: Shared<IndexDependency>,
    /// The SHA-256 digest of the crate file.
    pub checksum: Chksum,
    /// Whether the version is yanked: kept, but no longer to be chosen.
    pub yanked: bool,
    /// The native library that it links, if stated.
    pub links: Option<Text>,
    /// The oldest Rust that it supports, as written, if stated.
    pub rust_version: Option<Text>,
    /// When it was published, as written.
    pub pubtime: Option<Text>,
    pub(crate) features: Features,
    pub(crate) features2: Option<Features>,
    pub(crate) v: Option<u32>,
}

/// The members of a version that its line may leave out.
#[derive(Drop)]
struct OptionalMembers {
    features2: Option<Features>,
    yanked: bool,
    links: Option<Text>,
    rust_version: Option<Text>,
    pubtime: Option<Text>,
    v: Option<u32>,
}

/// What an audit keeps of a version: its text, and whether it is yanked.
#[derive(Debug, Drop, PartialEq, Eq)]
pub struct VersionFlag {
    /// The version's text; it need not be a SemVer version.
    pub version: Text,
    /// Whether the version is yanked.
    pub yanked: bool,
}

fn chksum_of(member: Option<&Value>) -> Result<Chksum, LineFault>
    ensures ok { IfOk result
        (λ c. chksum_of_data (option_map (λ v. view v.now) member.entry) ≡ Some c) }
    ensures json { IfErr result (λ e. (e ≡ LineFault.Json)
        × (chksum_of_data (option_map (λ v. view v.now) member.entry) ≡ None)) }
{
    let Some(text) = member.and_then(Value::as_str) else {
        return Err(LineFault::Json);
    };
    match Chksum::parse(text) {
        Ok(checksum) => Ok(checksum),
        Err(_) => Err(LineFault::Json),
    }
}

/// The members that a version may leave out.
fn optional_of(alloc: Global, value: &Value) -> Result<OptionalMembers, LineFault>
    ensures ok { IfOk result (λ o. record_spec.optional_of (view value.now) ≡ Some o) }
    ensures json { result ≡ Err LineFault.Json
        → record_spec.optional_of (view value.now) ≡ None }
{
    let features2 = lists_or_null(alloc, value.get("features2"))?;
    let yanked = flag_or_false(value.get("yanked"))?;
    let links = text_or_null(value.get("links"))?;
    let rust_version = text_or_null(value.get("rust_version"))?;
    let pubtime = text_or_null(value.get("pubtime"))?;
    let v = u32_or_null(value.get("v"))?;
    Ok(OptionalMembers {
        features2,
        yanked,
        links: Text::of_option(alloc, links)?,
        rust_version: Text::of_option(alloc, rust_version)?,
        pubtime: Text::of_option(alloc, pubtime)?,
        v,
    })
}

/// The version that a value is.
fn version_of(alloc: Global, value: &Value) -> Result<IndexVersion, LineFault>
    ensures ok { IfOk result (λ r. record_of_data (view value.now) ≡ Some r) }
    ensures json { result ≡ Err LineFault.Json → record_of_data (view value.now) ≡ None }
{
    let name = text_at(value, "name")?;
    let version = text_at(value, "vers")?;
    let deps = dependencies_at(alloc, value, "deps")?;
    let checksum = chksum_of(value.get("cksum"))?;
    let features = lists_at(alloc, value, "features")?;
    let optional = optional_of(alloc, value)?;
    Ok(IndexVersion {
        name: Text::of(alloc, name)?,
        version: Text::of(alloc, version)?,
        deps: Shared::of(alloc, deps)?,
        checksum,
        yanked: optional.yanked,
        links: optional.links,
        rust_version: optional.rust_version,
        pubtime: optional.pubtime,
        features,
        features2: optional.features2,
        v: optional.v,
    })
}

impl IndexVersion {
    /// The version that a line of the index is: a UTF-8 JSON object without floats, whose
    /// members have the forms of the index; of equal keys the last counts. Any other line: `Json`.
    pub fn read_line(alloc: Global, line: &[u8]) -> Result<IndexVersion, LineFault>
        ensures ok { IfOk result (λ r. record_of line.now ≡ Some r) }
        ensures json { result ≡ Err LineFault.Json → record_of line.now ≡ None }
    {
        let value = read_value(alloc, line)?;
        version_of(alloc, &value)
    }

    /// A version with this name and this version's text: no dependencies, no features, a digest of
    /// zeros, not yanked, and nothing else.
    pub fn fake(alloc: Global, name: &str, version: &str) -> Result<IndexVersion, NoMemory>
        ensures { IfOk result (λ r. r ≡ record_spec.fake name.now version.now) }
    {
        let name = Text::of(alloc, name)?;
        let version = Text::of(alloc, version)?;
        Ok(IndexVersion {
            name,
            version,
            deps: Shared::of(alloc, Items::new(alloc))?,
            checksum: Chksum([0; 32]),
            yanked: false,
            links: None,
            rust_version: None,
            pubtime: None,
            features: Features::of(alloc, FeatureMap::new(alloc))?,
            features2: None,
            v: None,
        })
    }

    /// Its dependencies.
    pub fn dependencies(&self) -> &[IndexDependency]
        ensures { result.now ≡ self.now.deps }
    {
        self.deps.as_slice()
    }

    /// The bytes of its digest.
    pub fn checksum(&self) -> &[u8; 32]
        ensures { result.now ≡ self.now.checksum.0 }
    {
        &self.checksum.0
    }

    /// The native library that it links to.
    pub fn links(&self) -> Option<&str>
        ensures { option_map (λ t. t.now) result ≡ self.now.links }
    {
        self.links.as_ref().map(Text::as_str)
    }

    /// Whether it is yanked.
    pub fn is_yanked(&self) -> bool
        ensures { result ≡ self.now.yanked }
    {
        self.yanked
    }

    /// The lowest version of Rust that it needs.
    pub fn rust_version(&self) -> Option<&str>
        ensures { option_map (λ t. t.now) result ≡ self.now.rust_version }
    {
        self.rust_version.as_ref().map(Text::as_str)
    }

    /// What an audit keeps of it.
    pub fn into_version_flag(self) -> VersionFlag
        ensures { result ≡ version_flag self }
    {
        VersionFlag {
            version: self.version,
            yanked: self.yanked,
        }
    }
}
