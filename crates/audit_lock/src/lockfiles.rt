//! A lockfile as a whole.
ghost use Rattle.std.specs.Prelude.{◌≡◌, ◌≢◌, ◌<◌, List, length, option_copied, option_map, slice_get, IfOk, IfErr, IfSome, Ok, Err, Some, None};
ghost use Rattle.toml.specs.View.{view, table_view, items_view};
ghost use Rattle.toml.specs.Parse.{parse_document};
ghost use Rattle.audit_lock.specs.Defaults as defaults_spec;
ghost use Rattle.toml_tables.specs.Results.{and_then};
ghost use Rattle.audit_lock.specs.Listed.{listed_of};
ghost use Rattle.audit_lock.specs.declared.lockfiles.LockfileFault.TheVariants as fault;
ghost use Rattle.audit_lock.specs.Locked.{at_place, listed_from, listed_table, locked, with_root};
ghost use Rattle.audit_lock.specs.Locked as spec;
ghost use Rattle.audit_lock.specs.declared.resolving.Package.{Package};

use crate::listed::{ListedPackage, ListingFault, LockRule, read_listed};
use crate::resolving::{Package, resolve};
use std::alloc::Global;
use std::marker::Model;
use tame_names::{Items, NoMemory, Text};
use toml::{Table, Value};
use toml_tables::{TableFault, member, optional_number, parse_table, table_has_float};

/// Why a text is no lockfile. Packages count from 0, `[root]` is last.
#[derive(Clone, Copy, Debug, PartialEq, Eq)]
pub enum LockfileFault {
    /// The text is no TOML.
    Toml,
    /// A value, at any depth, is a float.
    Float,
    /// A rule is broken; by this package, if the rule is one of packages.
    Rule {
        package: Option<usize>,
        rule: LockRule,
    },
    /// Out of memory.
    NoMemory,
}

impl From<NoMemory> for LockfileFault {
    ghost use Rattle.audit_lock.specs.declared.lockfiles.LockfileFault.TheVariants.{NoMemory as no_memory};

    ghost from_gives = { λ _ e. e ≡ no_memory };

    fn from(_: NoMemory) -> LockfileFault {
        LockfileFault::NoMemory
    }
}

/// The packages of a lockfile. Contracts see the list of them.
#[derive(Debug, Drop)]
pub struct Lockfile {
    packages: Items<Package>,
}

impl Model for Lockfile {
    ghost Value = { List Package };

    ghost view = { λ l. l.packages };
}

fn is_version(member: Option<&Value>) -> bool
    ensures { result ≡ spec.is_version (option_map (λ v. view v.now) member.entry) }
{
    match optional_number(member) {
        None => false,
        Some(None) => true,
        Some(Some(version)) => 1 <= version && version <= 4,
    }
}

fn all_tables(items: &[Value]) -> bool
    ensures { result ≡ spec.all_tables (items_view items.now) }
{
    for item in items {
        if !item.is_table() {
            return false;
        }
    }
    true
}

fn package_items<'a>(member: Option<&'a Value>) -> Option<&'a [Value]>
    ensures { option_map (λ s. items_view s.now) result
        ≡ spec.package_items (option_map (λ v. view v.now) member.entry) }
{
    match member {
        None => Some(&[]),
        Some(Value::Array(items)) if all_tables(items) => Some(items.as_slice()),
        Some(_) => None,
    }
}

fn root_table<'a>(member: Option<&'a Value>) -> Option<Option<&'a Value>>
    ensures { option_map (option_map (λ v. view v.now)) result
        ≡ spec.root_table (option_map (λ v. view v.now) member.entry) }
{
    match member {
        None => Some(None),
        Some(value) => {
            if value.is_table() {
                Some(Some(value))
            } else {
                None
            }
        }
    }
}

/// The package that a table is; a fault has its place.
fn read_at(alloc: Global, place: usize, value: &Value) -> Result<ListedPackage, LockfileFault>
    ensures ok { IfOk result (λ p. at_place place (listed_of (view value.now)) ≡ Ok p) }
    ensures refused { IfErr result
        (λ e. e ≢ LockfileFault.NoMemory → at_place place (listed_of (view value.now)) ≡ Err e) }
{
    match read_listed(alloc, value) {
        Ok(package) => Ok(package),
        Err(ListingFault::NoMemory) => Err(LockfileFault::NoMemory),
        Err(ListingFault::Rule(rule)) => Err(LockfileFault::Rule {
            package: Some(place),
            rule,
        }),
    }
}

fn read_items(alloc: Global, items: &[Value]) -> Result<Items<ListedPackage>, LockfileFault>
    ensures ok { IfOk result (λ ps. listed_from 0 (items_view items.now) ≡ Ok ps) }
    ensures refused { IfErr result
        (λ e. e ≢ LockfileFault.NoMemory → listed_from 0 (items_view items.now) ≡ Err e) }
{
    let mut packages = Items::new(alloc);
    for (i, item) in items.iter().enumerate() {
        let package = read_at(alloc, i, item)?;
        packages.add(package)?;
    }
    Ok(packages)
}

/// The listed packages, `[root]` last.
fn read_packages(
    alloc: Global,
    items: &[Value],
    root: Option<&Value>,
) -> Result<Items<ListedPackage>, LockfileFault>
    ensures ok { IfOk result (λ ps. and_then (with_root (option_map (λ v. view v.now) root.entry))
        (listed_from 0 (items_view items.now)) ≡ Ok ps) }
    ensures refused { IfErr result
        (λ e. e ≢ LockfileFault.NoMemory
        → and_then (with_root (option_map (λ v. view v.now) root.entry))
        (listed_from 0 (items_view items.now)) ≡ Err e) }
{
    let mut packages = read_items(alloc, items)?;
    if let Some(root) = root {
        let place = packages.as_slice().len();
        let package = read_at(alloc, place, root)?;
        packages.add(package)?;
    }
    Ok(packages)
}

/// The listed packages of a table.
fn read_table(alloc: Global, table: &Table) -> Result<Items<ListedPackage>, LockfileFault>
    ensures ok { IfOk result (λ ps. listed_table (table_view table.now) ≡ Ok ps) }
    ensures refused { IfErr result
        (λ e. e ≢ LockfileFault.NoMemory → listed_table (table_view table.now) ≡ Err e) }
{
    if table_has_float(table) {
        return Err(LockfileFault::Float);
    }
    if !is_version(member(table, "version")) {
        return Err(rule(LockRule::Version));
    }
    let Some(items) = package_items(member(table, "package")) else {
        return Err(rule(LockRule::Packages));
    };
    let Some(root) = root_table(member(table, "root")) else {
        return Err(rule(LockRule::Root));
    };
    read_packages(alloc, items, root)
}

/// A broken rule that belongs to no package.
fn rule(rule: LockRule) -> LockfileFault
    ensures { result ≡ fault.Rule None rule }
{
    LockfileFault::Rule {
        package: None,
        rule,
    }
}

impl Lockfile {
    /// The packages of a lockfile's text, or the first rule that it breaks.
    pub fn read(alloc: Global, text: &str) -> Result<Lockfile, LockfileFault>
        ensures ok { IfOk result (λ lockfile. locked text.now ≡ Ok lockfile) }
        ensures refused { IfErr result (λ e. e ≢ LockfileFault.NoMemory → locked text.now ≡ Err e) }
    {
        let table = parse(alloc, text)?;
        let listed = read_table(alloc, &table)?;
        let packages = resolve(alloc, listed)?;
        Ok(Lockfile { packages })
    }

    /// The packages, in the order of the lockfile; `[root]` is the last.
    pub fn packages(&self) -> &[Package]
        ensures { result.now ≡ self.now }
    {
        self.packages.as_slice()
    }

    /// The package at a place, counted from 0; none after the last.
    pub fn package(&self, place: usize) -> Option<&Package>
        ensures { option_copied result ≡ slice_get self.now place }
    {
        self.packages.as_slice().get(place)
    }
}

fn parse(alloc: Global, text: &str) -> Result<Table, LockfileFault>
    ensures ok { IfOk result (λ table. parse_document text.now ≡ Some (table_view table)) }
    ensures refused { IfErr result
        (λ e. e ≢ LockfileFault.NoMemory
        → (e ≡ LockfileFault.Toml) × (parse_document text.now ≡ None)) }
{
    match parse_table(alloc, text) {
        Ok(table) => Ok(table),
        Err(TableFault::Toml) => Err(LockfileFault::Toml),
        Err(TableFault::NoMemory) => Err(LockfileFault::NoMemory),
    }
}

/// Whether a source is the default registry: exactly one of its two strings.
pub fn is_default_registry(source: &str) -> bool
    ensures { result ≡ defaults_spec.is_default_registry source.now }
{
    source == "registry+https://github.com/rust-lang/crates.io-index"
        || source == "sparse+https://index.crates.io/"
}

/// Whether the source of a package is the default registry. A package of a folder has none.
pub fn is_from_default(source: &Option<Text>) -> bool
    ensures { result ≡ defaults_spec.is_from_default source.now }
{
    match source {
        None => false,
        Some(source) => is_default_registry(source.as_str()),
    }
}

/// The package at a place, from 0.
pub fn package_at(packages: &[Package], place: usize) -> Option<&Package>
    ensures at { option_copied result ≡ slice_get packages.now place }
    ensures below { IfSome result (λ _. place < length packages.now) }
{
    packages.get(place)
}
