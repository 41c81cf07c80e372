//! Errors of a kind.
use audit_fix::{ErrorKind, display_err_with_source};
use row_fixtures::{Row, RowFault, plain_text};
use std::alloc::Global;
use tame_names::Text;

/// The kind that the next word names.
fn kind(row: &mut Row<'_>) -> Result<ErrorKind, RowFault> {
    match row.word() {
        "config" => Ok(ErrorKind::Config),
        "io" => Ok(ErrorKind::Io),
        "parse" => Ok(ErrorKind::Parse),
        "version" => Ok(ErrorKind::Version),
        "other" => Ok(ErrorKind::Other),
        _ => Err(RowFault::Unread),
    }
}

/// `error KIND TEXT`
pub fn error(alloc: Global, mut row: Row<'_>) -> Result<String, RowFault> {
    let kind = kind(&mut row)?;
    let text = Text::from_string(plain_text(alloc, row.rest())?);
    let error = kind.context(text);
    let shown = display_err_with_source(alloc, &error)?;
    Ok(format!(in alloc; "{shown}\n{} | {}", error.kind(), error.text())?)
}
