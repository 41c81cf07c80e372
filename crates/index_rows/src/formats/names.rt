//! Names of crates.
use row_fixtures::{Row, RowFault};
use std::alloc::{AllocError, Global};
use tame_names::{InvalidKrateName, KrateName};

/// The name and its path in an index, or why it is none.
fn path_of(
    alloc: Global,
    name: Result<KrateName<'_>, InvalidKrateName>,
    sep: Option<char>,
) -> Result<String, RowFault> {
    match name {
        Ok(name) => {
            let path = name.relative_path(alloc, sep)?;
            Ok(format!(in alloc; "{name} {path}")?)
        }
        Err(refused) => Ok(format!(in alloc; "{refused:?}")?),
    }
}

/// `name NAME`: a name and its path.
pub fn name(alloc: Global, mut words: Row<'_>) -> Result<String, RowFault> {
    let text = words.text(alloc)?;
    path_of(alloc, KrateName::try_from(text.as_str()), None)
}

/// `windows NAME`: a name and its path with backslashes.
pub fn windows(alloc: Global, mut words: Row<'_>) -> Result<String, RowFault> {
    path_of(alloc, KrateName::try_from(words.word()), Some('\\'))
}

fn told(
    alloc: Global,
    name: Result<KrateName<'_>, InvalidKrateName>,
) -> Result<String, AllocError> {
    match name {
        Ok(name) => String::from_str(alloc, name.as_str()),
        Err(refused) => format!(in alloc; "{refused:?}"),
    }
}

/// `crates-io NAME`: a name by the rules of crates.io.
pub fn crates_io(alloc: Global, mut words: Row<'_>) -> Result<String, RowFault> {
    Ok(told(alloc, KrateName::crates_io(words.word()))?)
}

/// `cargo NAME`: a name by the rules of cargo.
pub fn cargo(alloc: Global, mut words: Row<'_>) -> Result<String, RowFault> {
    Ok(told(alloc, KrateName::cargo(words.word()))?)
}

/// `prefix NAME TEXT`: a text with the folders of a name behind it.
pub fn prefix(alloc: Global, mut words: Row<'_>) -> Result<String, RowFault> {
    let name = words.name(alloc)?;
    let mut folders = words.text(alloc)?;
    name.prefix(&mut folders, '/')?;
    Ok(folders)
}

/// A name that stands in the program's text; its form is proved.
fn serde_json() -> KrateName<'static> {
    KrateName::from_static("serde_json")
}

/// Another one, which crates.io accepts.
fn underscored() -> KrateName<'static> {
    KrateName::from_static("_a")
}

/// `static`: the first with its path; `static _a`: the second.
pub fn static_name(alloc: Global, mut words: Row<'_>) -> Result<String, RowFault> {
    match words.word() {
        "_a" => path_of(alloc, Ok(underscored()), None),
        _ => path_of(alloc, Ok(serde_json()), None),
    }
}

/// `padded NAME`: a name in three places, behind blanks.
pub fn padded(alloc: Global, mut words: Row<'_>) -> Result<String, RowFault> {
    let name = words.name(alloc)?;
    Ok(format!(in alloc; "{name:>3}")?)
}
