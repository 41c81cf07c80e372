//! Dependencies of a version.
ghost use Rattle.std.specs.Prelude.{◌≡◌, ◌⊎◌, map, option_map, unwrap_or, Some, None, Ok, Err, IfOk, IfErr, IsErr};
ghost use Rattle.semver.specs.Parse.{req_of};
ghost use Rattle.semver.specs.Identifiers.{comparator_view};
ghost use Rattle.serde_json.specs.View.{view, items_view};
ghost use Rattle.tame_records.specs.Dependencies as spec;

use crate::line_faults::LineFault;
use crate::members::{flag_at, text_at, text_or_null, texts_at};
use crate::memory_errors::is_memory;
use semver::VersionReq;
use serde_json::Value;
use std::alloc::Global;
use tame_names::{Error, Items, Text};

/// What a dependency is used for.
#[derive(Clone, Copy, Debug, PartialEq, Eq, Hash)]
pub enum DependencyKind {
    /// For the crate itself.
    Normal,
    /// Only for examples, tests and benchmarks.
    Dev,
    /// Only for the build script.
    Build,
}

impl Default for DependencyKind {
    ghost use Rattle.tame_records.specs.declared.dependencies.DependencyKind.TheVariants.{Normal};

    ghost is_default = { λ kind. kind ≡ Normal };

    fn default() -> DependencyKind {
        DependencyKind::Normal
    }
}

/// A dependency of a version in the index (Cargo Book, "Registry Index", JSON schema).
#[derive(Debug, Drop, PartialEq, Eq)]
pub struct IndexDependency {
    /// The name in the version's own manifest.
    pub name: Text,
    /// The requirement on its version.
    pub req: Text,
    /// The features of it that are asked for, in the order of the line.
    pub features: Items<Text>,
    /// Whether it is needed only if a feature asks for it.
    pub optional: bool,
    /// Whether its default features are asked for.
    pub default_features: bool,
    /// The platform that it is for; none: every platform.
    pub target: Option<Text>,
    /// What it is used for.
    pub kind: DependencyKind,
    /// The crate's own name, if `name` isn't that.
    pub package: Option<Text>,
}

impl IndexDependency {
    /// The features that it asks for.
    pub fn features(&self) -> &[Text]
        ensures { result.now ≡ self.now.features }
    {
        self.features.as_slice()
    }

    /// Whether it is optional.
    pub fn is_optional(&self) -> bool
        ensures { result ≡ self.now.optional }
    {
        self.optional
    }

    /// Whether it asks for the default features.
    pub fn has_default_features(&self) -> bool
        ensures { result ≡ self.now.default_features }
    {
        self.default_features
    }

    /// The platform that it is for; none: every platform.
    pub fn target(&self) -> Option<&str>
        ensures { option_map (λ t. t.now) result ≡ self.now.target }
    {
        self.target.as_ref().map(Text::as_str)
    }

    /// What it is used for.
    pub fn kind(&self) -> DependencyKind
        ensures { result ≡ self.now.kind }
    {
        self.kind
    }

    /// The crate's own name, if `name` isn't that.
    pub fn package(&self) -> Option<&str>
        ensures { option_map (λ t. t.now) result ≡ self.now.package }
    {
        self.package.as_ref().map(Text::as_str)
    }

    /// The crate's own name.
    pub fn crate_name(&self) -> &str
        ensures { result.now ≡ unwrap_or self.now.package self.now.name }
    {
        match &self.package {
            Some(package) => package.as_str(),
            None => self.name.as_str(),
        }
    }

    /// The requirement on its version; `Semver` if its text isn't one.
    pub fn version_requirement(&self, alloc: Global) -> Result<VersionReq, Error>
        ensures ok { IfOk result (λ r. req_of self.now.req
            ≡ Ok (map comparator_view r.comparators.items)) }
        ensures semver { result ≡ Err Error.Semver → IsErr (req_of self.now.req) }
        ensures only { IfErr result (λ e. (e ≡ Error.Semver) ⊎ (e ≡ Error.NoMemory)) }
    {
        match VersionReq::parse(alloc, self.req.as_str()) {
            Ok(requirement) => Ok(requirement),
            Err(error) => Err(if is_memory(error) {
                Error::NoMemory
            } else {
                Error::Semver
            }),
        }
    }
}

fn kind_of(member: Option<&Value>) -> Result<DependencyKind, LineFault>
    ensures ok { IfOk result
        (λ k. spec.kind_of (option_map (λ v. view v.now) member.entry) ≡ Some k) }
    ensures json { IfErr result (λ e. (e ≡ LineFault.Json)
        × (spec.kind_of (option_map (λ v. view v.now) member.entry) ≡ None)) }
{
    match member {
        None | Some(Value::Null) => Ok(DependencyKind::Normal),
        Some(Value::String(text)) => kind_named(text.as_str()),
        Some(_) => Err(LineFault::Json),
    }
}

fn kind_named(text: &str) -> Result<DependencyKind, LineFault>
    ensures ok { IfOk result (λ k. spec.kind_named text.now ≡ Some k) }
    ensures json { IfErr result (λ e. (e ≡ LineFault.Json)
        × (spec.kind_named text.now ≡ None)) }
{
    if text == "normal" {
        Ok(DependencyKind::Normal)
    } else if text == "dev" {
        Ok(DependencyKind::Dev)
    } else if text == "build" {
        Ok(DependencyKind::Build)
    } else {
        Err(LineFault::Json)
    }
}

fn dependency_of(alloc: Global, value: &Value) -> Result<IndexDependency, LineFault>
    ensures ok { IfOk result (λ d. spec.dependency_of (view value.now) ≡ Some d) }
    ensures json { result ≡ Err LineFault.Json → spec.dependency_of (view value.now) ≡ None }
{
    let name = text_at(value, "name")?;
    let req = text_at(value, "req")?;
    let features = texts_at(alloc, value, "features")?;
    let optional = flag_at(value, "optional")?;
    let default_features = flag_at(value, "default_features")?;
    let target = text_or_null(value.get("target"))?;
    let kind = kind_of(value.get("kind"))?;
    let package = text_or_null(value.get("package"))?;
    Ok(IndexDependency {
        name: Text::of(alloc, name)?,
        req: Text::of(alloc, req)?,
        features,
        optional,
        default_features,
        target: Text::of_option(alloc, target)?,
        kind,
        package: Text::of_option(alloc, package)?,
    })
}

/// The items as dependencies.
fn dependencies_of(alloc: Global, items: &[Value]) -> Result<Items<IndexDependency>, LineFault>
    ensures ok { IfOk result (λ all. spec.dependencies_of (items_view items.now) ≡ Some all) }
    ensures json { result ≡ Err LineFault.Json
        → spec.dependencies_of (items_view items.now) ≡ None }
{
    let mut all = Items::new(alloc);
    for item in items {
        all.add(dependency_of(alloc, item)?)?;
    }
    Ok(all)
}

/// A required array of dependencies.
pub fn dependencies_at(
    alloc: Global,
    value: &Value,
    key: &str,
) -> Result<Items<IndexDependency>, LineFault>
    ensures ok { IfOk result (λ all. spec.dependencies_at key.now (view value.now) ≡ Some all) }
    ensures json { result ≡ Err LineFault.Json
        → spec.dependencies_at key.now (view value.now) ≡ None }
{
    match value.get(key).and_then(Value::as_array) {
        Some(items) => dependencies_of(alloc, items),
        None => Err(LineFault::Json),
    }
}
