//! The arguments of a command.
use audit_settings::AuditCommand;
use audit_words::{Command, FixCommand, HELP_TEXT, VERSION, VERSION_TEXT, read_words};
use row_fixtures::{Row, RowFault};
use std::alloc::{AllocError, Global};

/// The words that are left of a row.
pub fn words_of(alloc: Global, row: Row<'_>) -> Result<Vec<String>, RowFault> {
    let mut row = row;
    let mut words = Vec::new(alloc);
    let most = row.rest().len();
    for _ in 0..most {
        if row.rest().is_empty() {
            break;
        }
        words.push(row.text(alloc)?)?;
    }
    Ok(words)
}

/// Fields of debug text, each with a comma after it, without those that have no value: `None`, an
/// empty list or `false`.
fn with_values(alloc: Global, fields: &str) -> Result<String, AllocError> {
    let mut shown = String::new(alloc);
    for field in fields.split(", ") {
        if !field.ends_with(": None") && !field.ends_with(": []") && !field.ends_with(": false") {
            shown.push_str(field)?;
            shown.push_str(", ")?;
        }
    }
    Ok(shown)
}

/// Debug text in which the options of `audit` are those that were given, and then `..`.
fn given(alloc: Global, text: &str) -> Result<String, AllocError> {
    let Some((front, options)) = text.split_once("AuditCommand { ") else {
        return String::from_str(alloc, text);
    };
    let Some((fields, back)) = options.split_once(" }") else {
        return String::from_str(alloc, text);
    };
    let shown = with_values(alloc, fields)?;
    format!(in alloc; "{front}AuditCommand {{ {shown}.. }}{back}")
}

/// What arguments are read as.
fn words_line(alloc: Global, words: &[String]) -> Result<String, AllocError> {
    let read = read_words(alloc, words);
    let text = format!(in alloc; "{read:?}")?;
    given(alloc, text.as_str())
}

/// `words WORD ..`: what the arguments are read as.
pub fn words(alloc: Global, row: Row<'_>) -> Result<String, RowFault> {
    let words = words_of(alloc, row)?;
    Ok(words_line(alloc, words.as_slice())?)
}

fn lock_of(alloc: Global, fix: &FixCommand) -> Result<String, RowFault> {
    match fix.cargo_lock_path() {
        Some(path) => Ok(format!(in alloc; "at {path}")?),
        None => Ok(String::from_str(alloc, "nowhere")?),
    }
}

/// `lock WORD ..`: the lockfile that is named after `fix`.
pub fn lock(alloc: Global, row: Row<'_>) -> Result<String, RowFault> {
    let words = words_of(alloc, row)?;
    match read_words(alloc, words.as_slice()) {
        Ok(Command::Fix(_, fix)) => lock_of(alloc, &fix),
        _ => Err(RowFault::Unread),
    }
}

fn options_line(alloc: Global) -> Result<String, AllocError> {
    let options = AuditCommand::new(alloc);
    format!(in alloc; "{options:?}")
}

/// `options`: the options of `audit` if none is given.
pub fn options(alloc: Global) -> Result<String, RowFault> {
    Ok(options_line(alloc)?)
}

/// `version`: the version, and what `--version` prints.
pub fn version(alloc: Global) -> Result<String, RowFault> {
    Ok(format!(in alloc; "{VERSION}: {VERSION_TEXT}")?)
}

/// `help`: what `--help` prints.
pub fn help(alloc: Global) -> Result<String, RowFault> {
    Ok(String::from_str(alloc, HELP_TEXT)?)
}
