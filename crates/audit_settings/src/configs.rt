//! The settings, and why a text gives none.
ghost use Rattle.std.specs.Prelude.{◌≡◌, Ok};
ghost use Rattle.audit_settings.specs.Defaults.{default_database, default_settings, default_target, default_yanked};

use audit_advisory::{Informational, OutputConfig, OutputFormat, Severity};
use std::alloc::Global;
use tame_names::{Items, NoMemory, Text};

/// The name of the file of settings, in the folder `.cargo` or in cargo's home.
pub const CONFIG_FILE: &str = "audit.toml";

/// The architectures or the systems that count.
#[derive(Debug, Drop, PartialEq, Eq)]
pub enum FilterList {
    /// This one.
    Single(Text),
    /// Each of these.
    Many(Items<Text>),
}

/// Which advisories count.
#[derive(Debug, Drop, PartialEq, Eq)]
pub struct AdvisoryConfig {
    /// The ids of advisories that are left out.
    pub ignore: Items<Text>,
    /// The kinds that are warned about, if stated.
    pub informational_warnings: Option<Items<Informational>>,
    /// Advisories of a lower severity are left out.
    pub severity_threshold: Option<Severity>,
}

/// Where the advisories come from.
#[derive(Debug, Drop, PartialEq, Eq)]
pub struct DatabaseConfig {
    /// The folder of the advisories, if stated.
    pub path: Option<Text>,
    /// Read but not used.
    pub url: Option<Text>,
    /// Whether the index may be asked.
    pub fetch: bool,
    /// Read but not used.
    pub stale: bool,
}

/// The targets that count; all, if nothing is stated.
#[derive(Debug, Drop, PartialEq, Eq)]
pub struct TargetConfig {
    /// The architectures.
    pub arch: Option<FilterList>,
    /// The systems.
    pub os: Option<FilterList>,
}

/// The check for yanked versions.
#[derive(Debug, Drop, PartialEq, Eq)]
pub struct YankedConfig {
    /// Whether the check is made.
    pub enabled: bool,
    /// Whether the index is asked, and not only its cached copy.
    pub update_index: bool,
}

/// The settings of an audit.
#[derive(Debug, Drop, PartialEq, Eq)]
pub struct AuditConfig {
    /// Which advisories count.
    pub advisories: AdvisoryConfig,
    /// Where the advisories come from.
    pub database: DatabaseConfig,
    /// What is denied, and how a report is shown.
    pub output: OutputConfig,
    /// The targets that count.
    pub target: TargetConfig,
    /// The check for yanked versions.
    pub yanked: YankedConfig,
}

/// Why a text gives no settings. Of several reasons, the first in this order; of several keys,
/// the first as [`AuditConfig::from_toml`] says.
#[derive(Debug, Drop, PartialEq, Eq)]
pub enum SettingsFault {
    /// The text is no TOML.
    Toml,
    /// There is a float somewhere.
    Float,
    /// A key, or `table.key`, that no setting has.
    Unknown { key: Text },
    /// A key that a written table must have, as `table.key`.
    Missing { key: &'static str },
    /// A key with a value of another form, as `table.key`; or a name that should be a table.
    Value { key: &'static str },
    /// Out of memory.
    NoMemory,
}

impl From<NoMemory> for SettingsFault {
    ghost use Rattle.audit_settings.specs.declared.configs.SettingsFault.TheVariants.{NoMemory as no_memory};

    ghost from_gives = { λ _ e. e ≡ no_memory };

    fn from(_: NoMemory) -> SettingsFault {
        SettingsFault::NoMemory
    }
}

/// If nothing is stated.
impl Default for DatabaseConfig {
    ghost is_default = { λ config. config ≡ default_database };

    fn default() -> DatabaseConfig {
        DatabaseConfig {
            path: None,
            url: None,
            fetch: true,
            stale: false,
        }
    }
}

/// All targets.
impl Default for TargetConfig {
    ghost is_default = { λ config. config ≡ default_target };

    fn default() -> TargetConfig {
        TargetConfig {
            arch: None,
            os: None,
        }
    }
}

/// The check is made, and the index asked.
impl Default for YankedConfig {
    ghost is_default = { λ config. config ≡ default_yanked };

    fn default() -> YankedConfig {
        YankedConfig {
            enabled: true,
            update_index: true,
        }
    }
}

impl AuditConfig {
    /// The settings if nothing is stated.
    pub fn new(alloc: Global) -> Result<AuditConfig, NoMemory>
        ensures { result ≡ Ok default_settings }
    {
        Ok(AuditConfig {
            advisories: AdvisoryConfig {
                ignore: Items::new(alloc),
                informational_warnings: None,
                severity_threshold: None,
            },
            database: DatabaseConfig::default(),
            output: OutputConfig {
                deny: Items::new(alloc),
                format: OutputFormat::Terminal,
                quiet: false,
                show_tree: true,
            },
            target: TargetConfig::default(),
            yanked: YankedConfig::default(),
        })
    }
}
