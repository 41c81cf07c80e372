//! Tables of rows, and the lines that answer them.
use crate::faults::{RowFault, answered};
use crate::rows::Row;
use std::alloc::Global;
use std::io;
use std::io::{BufRead, BufReader};

/// A table of rows, of which each is a case or a step, with what stays from one to the next.
pub trait Table: Sized {
    /// The table of this name, with nothing on its stage.
    fn of(alloc: Global, name: &str) -> Result<Self, RowFault>;

    /// The answer of a row; the text of no bytes where nothing is to be printed.
    fn answer(&mut self, alloc: Global, row: Row<'_>) -> Result<String, RowFault>;
}

/// The table of this name begins.
fn begin<T: Table + Drop>(
    alloc: Global,
    table: &mut Option<T>,
    name: &str,
) -> Result<String, RowFault> {
    *table = Some(T::of(alloc, name)?);
    Ok(format!(in alloc; "== {name}")?)
}

/// The answer of a row: that of its table, if one has begun, or of `== NAME`, which begins one.
fn answer<T: Table + Drop>(
    alloc: Global,
    table: &mut Option<T>,
    row: Row<'_>,
) -> Result<String, RowFault> {
    let mut words = row;
    if words.word() == "==" {
        return begin(alloc, table, words.word());
    }
    match table {
        Some(table) => table.answer(alloc, row),
        None => Err(RowFault::Unread),
    }
}

/// Prints the answer of each line of the standard input: a blank line and a remark answer
/// themselves.
pub fn answer_lines<T: Table + Drop>(rt: &HostRuntime) -> io::Result<()> {
    let alloc = rt.alloc();
    let mut table: Option<T> = None;
    for line in BufReader::new(alloc, rt.reader())?.lines(alloc) {
        let line = line?;
        let answer = answer(alloc, &mut table, Row::of(line.as_str()));
        let text = answered(alloc, line.as_str(), answer)?;
        if !text.is_empty() || line.is_empty() {
            rt.println(text)?;
        }
    }
    Ok(())
}
