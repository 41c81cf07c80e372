//! Symbols, and the paths that they keep.
use audit_advisory::FunctionPath;
use audit_report::SymbolSet;
use row_fixtures::{Row, RowFault};
use std::alloc::{AllocError, Global};
use tame_names::{Items, Text};

/// The path whose segments have `::` between them; `.` is the path without segments.
fn path_of(alloc: Global, text: &str) -> Result<FunctionPath, RowFault> {
    let mut segments = Items::new(alloc);
    if text != "." {
        for segment in text.split("::") {
            segments.add(Text::of(alloc, segment)?)?;
        }
    }
    Ok(segments)
}

/// The paths that a mark parts.
fn paths_of(alloc: Global, text: &str, mark: char) -> Result<Items<FunctionPath>, RowFault> {
    let mut paths = Items::new(alloc);
    for path in text.split(mark) {
        paths.add(path_of(alloc, path)?)?;
    }
    Ok(paths)
}

/// The symbols that a word lists; none for `-`.
pub fn symbols(alloc: Global, word: &str) -> Result<SymbolSet, RowFault> {
    match word {
        "-" => Ok(SymbolSet::new(Items::new(alloc))),
        _ => Ok(SymbolSet::new(paths_of(alloc, word, ',')?)),
    }
}

/// Appends a path after a blank.
fn push_path(out: &mut String, path: &FunctionPath) -> Result<(), AllocError> {
    let mut mark = " ";
    for segment in path.as_slice() {
        out.push_str(mark)?;
        out.push_str(segment.as_str())?;
        mark = "::";
    }
    Ok(())
}

/// Those of the paths that the symbols keep.
fn kept_line(
    alloc: Global,
    symbols: &SymbolSet,
    paths: &[FunctionPath],
) -> Result<String, RowFault> {
    let mut text = String::from_str(alloc, "kept:")?;
    for path in symbols.filter(paths) {
        push_path(&mut text, path)?;
    }
    Ok(text)
}

/// `filter SYMBOLS PATH..`
pub fn filter(alloc: Global, mut row: Row<'_>) -> Result<String, RowFault> {
    let word = row.word();
    let paths = paths_of(alloc, row.rest(), ' ')?;
    match symbols(alloc, word) {
        Ok(symbols) => kept_line(alloc, &symbols, paths.as_slice()),
        Err(fault) => Err(fault),
    }
}
