//! The settings of an audit.
use crate::words::options::words_of;
use audit_advisory::Settings;
use audit_settings::{AuditCommand, AuditConfig};
use audit_words::{Command, read_words};
use row_fixtures::{Row, RowFault};
use std::alloc::{AllocError, Global};

/// What a string is read as.
fn read_line(alloc: Global, text: &str) -> Result<String, AllocError> {
    let read = AuditConfig::from_toml(alloc, text);
    format!(in alloc; "{read:?}")
}

/// `settings TEXT`: the settings, or why there are none.
pub fn settings(alloc: Global, mut row: Row<'_>) -> Result<String, RowFault> {
    let text = row.text(alloc)?;
    Ok(read_line(alloc, text.as_str())?)
}

/// Settings as a line.
fn config_line(alloc: Global, config: &AuditConfig) -> Result<String, RowFault> {
    Ok(format!(in alloc; "{config:?}")?)
}

/// `defaults`: the settings if nothing is stated.
pub fn defaults(alloc: Global) -> Result<String, RowFault> {
    match AuditConfig::new(alloc) {
        Ok(config) => config_line(alloc, &config),
        Err(_) => Err(RowFault::NoMemory),
    }
}

/// The settings in a string that has some.
fn config_of(alloc: Global, text: &str) -> Result<AuditConfig, RowFault> {
    match AuditConfig::from_toml(alloc, text) {
        Ok(config) => Ok(config),
        Err(_) => Err(RowFault::Unread),
    }
}

fn asks_line(alloc: Global, settings: &Settings) -> Result<String, RowFault> {
    Ok(format!(in alloc; "{settings:?}")?)
}

/// What settings ask of advisories.
fn report_line(alloc: Global, config: &AuditConfig) -> Result<String, RowFault> {
    match config.report_settings(alloc) {
        Ok(settings) => asks_line(alloc, &settings),
        Err(_) => Err(RowFault::NoMemory),
    }
}

/// `report TEXT`: what the settings ask of advisories.
pub fn report(alloc: Global, mut row: Row<'_>) -> Result<String, RowFault> {
    let text = row.text(alloc)?;
    match config_of(alloc, text.as_str()) {
        Ok(config) => report_line(alloc, &config),
        Err(fault) => Err(fault),
    }
}

/// The architectures and the systems that count.
fn targets_line(alloc: Global, config: &AuditConfig) -> Result<String, RowFault> {
    let arch = config.target.arch(alloc)?;
    let os = config.target.os(alloc)?;
    Ok(format!(in alloc; "{arch:?} {os:?}")?)
}

/// `targets TEXT`: the architectures and the systems that count.
pub fn targets(alloc: Global, mut row: Row<'_>) -> Result<String, RowFault> {
    let text = row.text(alloc)?;
    match config_of(alloc, text.as_str()) {
        Ok(config) => targets_line(alloc, &config),
        Err(fault) => Err(fault),
    }
}

/// The settings under a command.
fn overridden(
    alloc: Global,
    command: &AuditCommand,
    config: AuditConfig,
) -> Result<String, RowFault> {
    match command.override_config(alloc, config) {
        Ok(config) => config_line(alloc, &config),
        Err(_) => Err(RowFault::NoMemory),
    }
}

/// The settings in a string under a command.
fn text_under(alloc: Global, command: &AuditCommand, text: &str) -> Result<String, RowFault> {
    match config_of(alloc, text) {
        Ok(config) => overridden(alloc, command, config),
        Err(fault) => Err(fault),
    }
}

/// `under TEXT WORD ..`: the settings under the options of a command.
pub fn under(alloc: Global, mut row: Row<'_>) -> Result<String, RowFault> {
    let text = row.text(alloc)?;
    let words = words_of(alloc, row)?;
    match read_words(alloc, words.as_slice()) {
        Ok(Command::Audit(command)) => text_under(alloc, &command, text.as_str()),
        _ => Err(RowFault::Unread),
    }
}
