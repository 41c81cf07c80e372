//! The settings of a file with the options of a command applied.
ghost use Rattle.std.specs.Prelude.{◌≡◌, IfOk};
ghost use Rattle.audit_settings.specs.Overriding.{overridden};
ghost use Rattle.audit_settings.specs.Overriding as spec;

use crate::commands::AuditCommand;
use crate::configs::{
    AdvisoryConfig, AuditConfig, DatabaseConfig, FilterList, TargetConfig, YankedConfig,
};
use crate::reporting::add_texts;
use audit_advisory::{DenyOption, OutputConfig, OutputFormat, texts_copied};
use std::alloc::Global;
use tame_names::{Items, NoMemory, Text};

/// The string on the command line, else the one of the settings.
fn given_or(
    alloc: Global,
    given: &Option<Text>,
    settled: Option<Text>,
) -> Result<Option<Text>, NoMemory>
    ensures { IfOk result (λ text. text ≡ spec.given_or given.now settled) }
{
    match given {
        None => Ok(settled),
        Some(text) => Ok(Some(text.try_clone(alloc)?)),
    }
}

/// The targets on the command line, else those of the settings.
fn filter_or(
    alloc: Global,
    given: &[Text],
    settled: Option<FilterList>,
) -> Result<Option<FilterList>, NoMemory>
    ensures { IfOk result (λ filter. filter ≡ spec.filter_or given.now settled) }
{
    if given.is_empty() {
        return Ok(settled);
    }
    Ok(Some(FilterList::Many(texts_copied(alloc, given)?)))
}

/// What is denied.
fn denied(
    alloc: Global,
    given: &[DenyOption],
    settled: Items<DenyOption>,
) -> Result<Items<DenyOption>, NoMemory>
    ensures { IfOk result (λ options. options ≡ spec.denied given.now settled) }
{
    let mut options = settled;
    for option in given {
        match option {
            DenyOption::Warnings => options = DenyOption::all(alloc)?,
            _ => options.add(*option)?,
        }
    }
    Ok(options)
}

impl AuditCommand {
    fn format_of(&self, settled: OutputFormat) -> OutputFormat
        ensures { result ≡ spec.format_of self.now settled }
    {
        if self.output_json {
            OutputFormat::Json
        } else {
            match self.output_format {
                Some(given) => given,
                None => settled,
            }
        }
    }

    fn advisories_under(
        &self,
        alloc: Global,
        settled: AdvisoryConfig,
    ) -> Result<AdvisoryConfig, NoMemory>
        ensures { IfOk result (λ c. c ≡ spec.advisories_under self.now settled) }
    {
        let mut advisories = settled;
        add_texts(alloc, &mut advisories.ignore, self.ignore.as_slice())?;
        Ok(advisories)
    }

    fn database_under(
        &self,
        alloc: Global,
        settled: DatabaseConfig,
    ) -> Result<DatabaseConfig, NoMemory>
        ensures { IfOk result (λ c. c ≡ spec.database_under self.now settled) }
    {
        Ok(DatabaseConfig {
            path: given_or(alloc, &self.db, settled.path)?,
            url: given_or(alloc, &self.url, settled.url)?,
            fetch: settled.fetch && !self.no_fetch,
            stale: settled.stale || self.stale,
        })
    }

    fn output_under(&self, alloc: Global, settled: OutputConfig) -> Result<OutputConfig, NoMemory>
        ensures { IfOk result (λ c. c ≡ spec.output_under self.now settled) }
    {
        Ok(OutputConfig {
            deny: denied(alloc, self.deny.as_slice(), settled.deny)?,
            format: self.format_of(settled.format),
            quiet: settled.quiet || self.quiet,
            show_tree: settled.show_tree && !self.quiet,
        })
    }

    fn target_under(&self, alloc: Global, settled: TargetConfig) -> Result<TargetConfig, NoMemory>
        ensures { IfOk result (λ c. c ≡ spec.target_under self.now settled) }
    {
        Ok(TargetConfig {
            arch: filter_or(alloc, self.target_arch.as_slice(), settled.arch)?,
            os: filter_or(alloc, self.target_os.as_slice(), settled.os)?,
        })
    }

    fn yanked_under(&self, settled: YankedConfig) -> YankedConfig
        ensures { result ≡ spec.yanked_under self.now settled }
    {
        YankedConfig {
            enabled: settled.enabled && !self.no_yanked,
            update_index: settled.update_index,
        }
    }

    /// The settings with the options of this command applied. `db`, `url`, targets and the format,
    /// if given, replace those of the settings. `ignore` is appended, and so is each `deny`, but
    /// `warnings` replaces the list by all four. `no_fetch` and `no_yanked` only switch off,
    /// `stale` and `quiet` only on, and `quiet` shows no trees. The settings are consumed.
    pub fn override_config(
        &self,
        alloc: Global,
        config: AuditConfig,
    ) -> Result<AuditConfig, NoMemory>
        ensures { IfOk result (λ settings. settings ≡ overridden self.now config) }
    {
        Ok(AuditConfig {
            advisories: self.advisories_under(alloc, config.advisories)?,
            database: self.database_under(alloc, config.database)?,
            output: self.output_under(alloc, config.output)?,
            target: self.target_under(alloc, config.target)?,
            yanked: self.yanked_under(config.yanked),
        })
    }
}
