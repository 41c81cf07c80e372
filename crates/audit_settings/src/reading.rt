//! The settings of a text.
ghost use Rattle.std.specs.Prelude.{◌≡◌, IfOk, Ok, option_map};
ghost use Rattle.toml.specs.View.{table_view};
ghost use Rattle.audit_settings.specs.Refusals.{Refuses};
ghost use Rattle.audit_settings.specs.Settings.{settings};
ghost use Rattle.audit_settings.specs.Settings as spec;

use crate::configs::{
    AdvisoryConfig, AuditConfig, DatabaseConfig, SettingsFault, TargetConfig, YankedConfig,
};
use crate::fields::{
    deny_options, filter_field, flag_field, optional_format, optional_kinds, optional_severity,
    required_flag, text_field,
};
use crate::unknown::first_unknown;
use audit_advisory::{DenyOption, Informational, OutputConfig, OutputFormat, Severity};
use std::alloc::Global;
use tame_names::{Items, Text};
use toml::Table;
use toml_tables::{
    TableFault, member, optional_table, optional_texts, parse_table, table_has_float,
};

fn ignore_field(alloc: Global, table: &Table) -> Result<Items<Text>, SettingsFault>
    ensures ok { IfOk result (λ ts. spec.ignore_field (table_view table.now) ≡ Ok ts) }
    ensures refused { Refuses result (spec.ignore_field (table_view table.now)) }
{
    match optional_texts(alloc, member(table, "ignore"))? {
        Some(texts) => Ok(texts),
        None => Err(SettingsFault::Value {
            key: "advisories.ignore",
        }),
    }
}

fn kinds_field(alloc: Global, table: &Table) -> Result<Option<Items<Informational>>, SettingsFault>
    ensures ok { IfOk result (λ ks. spec.kinds_field (table_view table.now) ≡ Ok ks) }
    ensures refused { Refuses result (spec.kinds_field (table_view table.now)) }
{
    match optional_kinds(alloc, member(table, "informational_warnings"))? {
        Some(kinds) => Ok(kinds),
        None => Err(SettingsFault::Value {
            key: "advisories.informational_warnings",
        }),
    }
}

fn severity_field(table: &Table) -> Result<Option<Severity>, SettingsFault>
    ensures ok { IfOk result (λ s. spec.severity_field (table_view table.now) ≡ Ok s) }
    ensures refused { Refuses result (spec.severity_field (table_view table.now)) }
{
    match optional_severity(member(table, "severity_threshold")) {
        Some(threshold) => Ok(threshold),
        None => Err(SettingsFault::Value {
            key: "advisories.severity_threshold",
        }),
    }
}

fn advisories_of(alloc: Global, table: Option<&Table>) -> Result<AdvisoryConfig, SettingsFault>
    ensures ok { IfOk result (λ c.
        spec.advisories_of (option_map (λ t. table_view t.now) table.entry) ≡ Ok c) }
    ensures refused { Refuses result
        (spec.advisories_of (option_map (λ t. table_view t.now) table.entry)) }
{
    let Some(table) = table else {
        return Ok(AuditConfig::new(alloc)?.advisories);
    };
    Ok(AdvisoryConfig {
        ignore: ignore_field(alloc, table)?,
        informational_warnings: kinds_field(alloc, table)?,
        severity_threshold: severity_field(table)?,
    })
}

fn database_of(alloc: Global, table: Option<&Table>) -> Result<DatabaseConfig, SettingsFault>
    ensures ok { IfOk result (λ c.
        spec.database_of (option_map (λ t. table_view t.now) table.entry) ≡ Ok c) }
    ensures refused { Refuses result
        (spec.database_of (option_map (λ t. table_view t.now) table.entry)) }
{
    let Some(table) = table else {
        return Ok(AuditConfig::new(alloc)?.database);
    };
    Ok(DatabaseConfig {
        path: text_field(alloc, table, "path", "database.path")?,
        url: text_field(alloc, table, "url", "database.url")?,
        fetch: flag_field(table, "fetch", "database.fetch")?,
        stale: required_flag(table, "stale", "database.stale")?,
    })
}

fn deny_field(alloc: Global, table: &Table) -> Result<Items<DenyOption>, SettingsFault>
    ensures ok { IfOk result (λ os. spec.deny_field (table_view table.now) ≡ Ok os) }
    ensures refused { Refuses result (spec.deny_field (table_view table.now)) }
{
    match deny_options(alloc, member(table, "deny"))? {
        Some(options) => Ok(options),
        None => Err(SettingsFault::Value { key: "output.deny" }),
    }
}

fn format_field(table: &Table) -> Result<OutputFormat, SettingsFault>
    ensures ok { IfOk result (λ f. spec.format_field (table_view table.now) ≡ Ok f) }
    ensures refused { Refuses result (spec.format_field (table_view table.now)) }
{
    match optional_format(member(table, "format")) {
        Some(Some(format)) => Ok(format),
        Some(None) => Ok(OutputFormat::Terminal),
        None => Err(SettingsFault::Value {
            key: "output.format",
        }),
    }
}

fn output_of(alloc: Global, table: Option<&Table>) -> Result<OutputConfig, SettingsFault>
    ensures ok { IfOk result (λ c.
        spec.output_of (option_map (λ t. table_view t.now) table.entry) ≡ Ok c) }
    ensures refused { Refuses result
        (spec.output_of (option_map (λ t. table_view t.now) table.entry)) }
{
    let Some(table) = table else {
        return Ok(AuditConfig::new(alloc)?.output);
    };
    Ok(OutputConfig {
        deny: deny_field(alloc, table)?,
        format: format_field(table)?,
        quiet: required_flag(table, "quiet", "output.quiet")?,
        show_tree: flag_field(table, "show_tree", "output.show_tree")?,
    })
}

fn target_of(alloc: Global, table: Option<&Table>) -> Result<TargetConfig, SettingsFault>
    ensures ok { IfOk result (λ c.
        spec.target_of (option_map (λ t. table_view t.now) table.entry) ≡ Ok c) }
    ensures refused { Refuses result
        (spec.target_of (option_map (λ t. table_view t.now) table.entry)) }
{
    let Some(table) = table else {
        return Ok(TargetConfig {
            arch: None,
            os: None,
        });
    };
    Ok(TargetConfig {
        arch: filter_field(alloc, table, "arch", "target.arch")?,
        os: filter_field(alloc, table, "os", "target.os")?,
    })
}

fn yanked_of(table: Option<&Table>) -> Result<YankedConfig, SettingsFault>
    ensures ok { IfOk result (λ c.
        spec.yanked_of (option_map (λ t. table_view t.now) table.entry) ≡ Ok c) }
    ensures refused { Refuses result
        (spec.yanked_of (option_map (λ t. table_view t.now) table.entry)) }
{
    let Some(table) = table else {
        return Ok(YankedConfig {
            enabled: true,
            update_index: true,
        });
    };
    Ok(YankedConfig {
        enabled: flag_field(table, "enabled", "yanked.enabled")?,
        update_index: flag_field(table, "update_index", "yanked.update_index")?,
    })
}

/// A table by its name, or that it is absent.
fn written<'a>(table: &'a Table, name: &'static str) -> Result<Option<&'a Table>, SettingsFault>
    ensures ok { IfOk result (λ t.
        spec.written name.now (table_view table.now) ≡ Ok (option_map (λ x. table_view x.now) t)) }
    ensures refused { Refuses result (spec.written name.now (table_view table.now)) }
{
    match optional_table(member(table, name)) {
        Some(found) => Ok(found),
        None => Err(SettingsFault::Value { key: name }),
    }
}

fn tables_of(alloc: Global, table: &Table) -> Result<AuditConfig, SettingsFault>
    ensures ok { IfOk result (λ c. spec.tables_of (table_view table.now) ≡ Ok c) }
    ensures refused { Refuses result (spec.tables_of (table_view table.now)) }
{
    Ok(AuditConfig {
        advisories: advisories_of(alloc, written(table, "advisories")?)?,
        database: database_of(alloc, written(table, "database")?)?,
        output: output_of(alloc, written(table, "output")?)?,
        target: target_of(alloc, written(table, "target")?)?,
        yanked: yanked_of(written(table, "yanked")?)?,
    })
}

fn settings_in(alloc: Global, table: &Table) -> Result<AuditConfig, SettingsFault>
    ensures ok { IfOk result (λ c. spec.settings_in (table_view table.now) ≡ Ok c) }
    ensures refused { Refuses result (spec.settings_in (table_view table.now)) }
{
    if table_has_float(table) {
        return Err(SettingsFault::Float);
    }
    match first_unknown(alloc, table)? {
        Some(key) => Err(SettingsFault::Unknown { key }),
        None => tables_of(alloc, table),
    }
}

impl AuditConfig {
    /// The settings that a text is, or the first rule that it breaks: it is TOML (`Toml`), without
    /// floats (`Float`), without unknown keys (`Unknown`, with the first of them in byte order);
    /// then, table by table and key by key as the types list them, a written table has each key
    /// that it must have (`Missing`), and each value is of its form (`Value`).
    pub fn from_toml(alloc: Global, text: &str) -> Result<AuditConfig, SettingsFault>
        ensures ok { IfOk result (λ config. settings text.now ≡ Ok config) }
        ensures refused { Refuses result (settings text.now) }
    {
        match parse_table(alloc, text) {
            Ok(table) => settings_in(alloc, &table),
            Err(TableFault::Toml) => Err(SettingsFault::Toml),
            Err(TableFault::NoMemory) => Err(SettingsFault::NoMemory),
        }
    }
}
