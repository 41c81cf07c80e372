//! The settings of an audit: what `audit.toml` says, and how a command's options override it.
//!
//! Promises: a text reads to its settings, or to the first rule that it breaks, with the key if
//! there is one; an option changes exactly its setting; without options nothing changes.
//! Depends on `tame_names`, `toml_tables`, and the settings of a report of `audit_advisory`.
//!
//! ```ignore
//! // crates/uses/src/audits.rt: offline_settings
//! let mut config = AuditConfig::from_toml(alloc, text)?;
//! config.yanked.update_index = false;
//! Ok(config)
//! ```
#![tactic(auto)]

mod commands;
mod configs;
mod fields;
mod laws;
mod overriding;
mod reading;
mod reporting;
mod sections;
mod unknown;

pub use commands::{AuditCommand, Color};
pub use configs::{
    AdvisoryConfig, AuditConfig, CONFIG_FILE, DatabaseConfig, FilterList, SettingsFault,
    TargetConfig, YankedConfig,
};
pub use laws::{
    commands_of_no_option, defaults_are_read_from_nothing, denied_kinds_are_warned_of,
    denied_options_are_appended, first_key_is_first,
};
