//! Advisories.
ghost use Rattle.std.specs.Prelude.{◌≡◌, ◌≢◌, IfOk, IfErr, Ok, Err};
ghost use Rattle.toml.specs.View.{table_view};
ghost use Rattle.audit_advisory.specs.Advisories.{advisory_in, advisory_of, fields_of, head_of, versions_in};
ghost use Rattle.audit_advisory.specs.Advisories as spec;

use crate::affected::{Function, affected_or_absent};
use crate::faults::{AdvisoryFault, AdvisoryRule};
use crate::fences::{fenced, titled};
use crate::metadata::{Metadata, read_metadata};
use crate::versions::Versions;
use std::alloc::Global;
use tame_names::{Items, Text};
use toml::Table;
use toml_tables::{
    TableFault, member, optional_texts, parse_table, required_table, table_has_float,
};

/// An advisory: a package with the versions in which it is vulnerable, and why.
#[derive(Debug, Drop, PartialEq, Eq)]
pub struct Advisory {
    /// What the advisory says of itself.
    pub metadata: Metadata,
    /// Which versions are patched and unaffected; the others are vulnerable.
    pub versions: Versions,
    /// The architectures that are affected; all, if the list is empty.
    pub arch: Items<Text>,
    /// The systems that are affected; all, if the list is empty.
    pub os: Items<Text>,
    /// The functions that are affected, with the versions of each; may be empty.
    pub functions: Items<Function>,
}

/// Reads a head, which is TOML without floats.
fn read_head(alloc: Global, head: &str) -> Result<Table, AdvisoryFault>
    ensures ok { IfOk result (λ table. head_of head.now ≡ Ok (table_view table)) }
    ensures refused { IfErr result (λ e. e ≢ AdvisoryFault.NoMemory → head_of head.now ≡ Err e) }
{
    match parse_table(alloc, head) {
        Ok(table) => {
            if table_has_float(&table) {
                return Err(AdvisoryFault::Float);
            }
            Ok(table)
        }
        Err(TableFault::Toml) => Err(AdvisoryFault::Toml),
        Err(TableFault::NoMemory) => Err(AdvisoryFault::NoMemory),
    }
}

/// The strings at a key of `[versions]`, none if it is absent.
fn version_texts(alloc: Global, table: &Table, key: &str) -> Result<Items<Text>, AdvisoryFault>
    ensures ok { IfOk result (λ ts. spec.version_texts key.now (table_view table.now) ≡ Ok ts) }
    ensures refused { IfErr result (λ e. e ≢ AdvisoryFault.NoMemory
        → spec.version_texts key.now (table_view table.now) ≡ Err e) }
{
    match optional_texts(alloc, member(table, key))? {
        Some(texts) => Ok(texts),
        None => Err(AdvisoryFault::Rule(AdvisoryRule::Versions)),
    }
}

/// The requirements of the table `[versions]`.
fn read_versions(alloc: Global, table: &Table) -> Result<Versions, AdvisoryFault>
    ensures ok { IfOk result (λ vs. versions_in (table_view table.now) ≡ Ok vs) }
    ensures refused { IfErr result (λ e. e ≢ AdvisoryFault.NoMemory
        → versions_in (table_view table.now) ≡ Err e) }
{
    let patched = version_texts(alloc, table, "patched")?;
    let unaffected = version_texts(alloc, table, "unaffected")?;
    Versions::new(alloc, &patched, &unaffected)
}

/// The fields of a head, with a title and a description.
fn read_fields(
    alloc: Global,
    table: &Table,
    title: &str,
    description: &str,
) -> Result<Advisory, AdvisoryFault>
    ensures ok { IfOk result (λ a.
        fields_of (table_view table.now) (title.now, description.now) ≡ Ok a) }
    ensures refused { IfErr result (λ e. e ≢ AdvisoryFault.NoMemory
        → fields_of (table_view table.now) (title.now, description.now) ≡ Err e) }
{
    let Some(head) = required_table(member(table, "advisory")) else {
        return Err(AdvisoryFault::Rule(AdvisoryRule::Advisory));
    };
    let metadata = read_metadata(alloc, title, description, head)?;
    let Some(safe) = required_table(member(table, "versions")) else {
        return Err(AdvisoryFault::Rule(AdvisoryRule::Versions));
    };
    let versions = read_versions(alloc, safe)?;
    let Some(affected) = affected_or_absent(alloc, member(table, "affected"))? else {
        return Err(AdvisoryFault::Rule(AdvisoryRule::Affected));
    };
    Ok(Advisory {
        metadata,
        versions,
        arch: affected.arch,
        os: affected.os,
        functions: affected.functions,
    })
}

/// The advisory of a head and what follows it.
fn read_parted(alloc: Global, head: &str, behind: &str) -> Result<Advisory, AdvisoryFault>
    ensures ok { IfOk result (λ a. advisory_in (head.now, behind.now) ≡ Ok a) }
    ensures refused { IfErr result (λ e. e ≢ AdvisoryFault.NoMemory
        → advisory_in (head.now, behind.now) ≡ Err e) }
{
    let table = read_head(alloc, head)?;
    let Some((title, description)) = titled(behind) else {
        return Err(AdvisoryFault::Rule(AdvisoryRule::Title));
    };
    read_fields(alloc, &table, title, description)
}

impl Advisory {
    /// The advisory that a text is, or the first rule that it breaks: `Fence`, `Toml`, `Float`,
    /// `Title`, then the fields `[advisory]`, id, package, date, withdrawn, url, source,
    /// license, cvss, informational, score, `[versions]` and `[affected]`.
    pub fn read(alloc: Global, text: &str) -> Result<Advisory, AdvisoryFault>
        ensures ok { IfOk result (λ advisory. advisory_of text.now ≡ Ok advisory) }
        ensures refused { IfErr result (λ e. e ≢ AdvisoryFault.NoMemory
            → advisory_of text.now ≡ Err e) }
    {
        let Some((head, behind)) = fenced(text) else {
            return Err(AdvisoryFault::Fence);
        };
        read_parted(alloc, head, behind)
    }
}
