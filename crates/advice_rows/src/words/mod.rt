//! Rows of arguments and of settings. `TEXT` is settings in one line, `WORD ..` the arguments of
//! a command:
//!
//! - `words WORD ..`: the command with the options that were given, or the position of the first
//!   word that breaks a rule;
//! - `lock WORD ..`: the lockfile that is named after `fix`;
//! - `options`: the options of `audit` if none is given;
//! - `version`: the version, and what `--version` prints; `help`: what `--help` prints;
//! - `settings TEXT`: the settings, or why there are none;
//! - `defaults`: the settings if nothing is stated;
//! - `report TEXT`: what the settings ask of advisories;
//! - `targets TEXT`: the architectures and the systems that count;
//! - `under TEXT WORD ..`: the settings under the options of a command.
mod options;
mod settings;

use row_fixtures::{Row, RowFault};
use std::alloc::Global;

/// The answer of a row.
pub fn answer(alloc: Global, row: Row<'_>) -> Result<String, RowFault> {
    let mut words = row;
    match words.word() {
        "words" => options::words(alloc, words),
        "lock" => options::lock(alloc, words),
        "options" => options::options(alloc),
        "version" => options::version(alloc),
        "help" => options::help(alloc),
        "settings" => settings::settings(alloc, words),
        "defaults" => settings::defaults(alloc),
        "report" => settings::report(alloc, words),
        "targets" => settings::targets(alloc, words),
        "under" => settings::under(alloc, words),
        _ => Err(RowFault::Unread),
    }
}
