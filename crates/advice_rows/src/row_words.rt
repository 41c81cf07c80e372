//! What the words of a row mean.
use advice_fixtures::listed;
use audit_advisory::{DenyOption, Informational, OutputFormat, Severity, WarningKind};
use audit_report::Found;
use row_fixtures::{Row, RowFault};
use std::alloc::Global;
use tame_names::Items;

/// What advisories inform of; nothing for `-`.
pub fn informational(alloc: Global, row: &mut Row<'_>) -> Result<Items<Informational>, RowFault> {
    let mut kinds = Items::new(alloc);
    for text in listed(alloc, row)?.as_slice() {
        kinds.add(Informational::of(alloc, text.as_str())?)?;
    }
    Ok(kinds)
}

/// What is denied; nothing for `-`.
pub fn denied(alloc: Global, row: &mut Row<'_>) -> Result<Items<DenyOption>, RowFault> {
    let mut options = Items::new(alloc);
    for text in listed(alloc, row)?.as_slice() {
        match DenyOption::from_word(text.as_str()) {
            Some(option) => options.add(option)?,
            None => return Err(RowFault::Unread),
        }
    }
    Ok(options)
}

/// The indices that a word lists; none for `-`.
pub fn places(alloc: Global, row: &mut Row<'_>) -> Result<Items<usize>, RowFault> {
    let mut places = Items::new(alloc);
    for place in row.numbers(alloc)?.as_slice() {
        places.add(*place as usize)?;
    }
    Ok(places)
}

/// An index.
pub fn place(row: &mut Row<'_>) -> Result<usize, RowFault> {
    Ok(row.number()? as usize)
}

/// An index; nothing for `-`.
pub fn place_or_none(alloc: Global, row: &mut Row<'_>) -> Result<Option<usize>, RowFault> {
    let places = places(alloc, row)?;
    match places.as_slice().first() {
        Some(place) => Ok(Some(*place)),
        None => Ok(None),
    }
}

/// A severity; nothing for `-`.
pub fn severity(row: &mut Row<'_>) -> Result<Option<Severity>, RowFault> {
    match row.word() {
        "-" => Ok(None),
        "none" => Ok(Some(Severity::None)),
        "low" => Ok(Some(Severity::Low)),
        "medium" => Ok(Some(Severity::Medium)),
        "high" => Ok(Some(Severity::High)),
        "critical" => Ok(Some(Severity::Critical)),
        _ => Err(RowFault::Unread),
    }
}

/// A kind of warning.
pub fn kind(row: &mut Row<'_>) -> Result<WarningKind, RowFault> {
    match row.word() {
        "notice" => Ok(WarningKind::Notice),
        "unmaintained" => Ok(WarningKind::Unmaintained),
        "unsound" => Ok(WarningKind::Unsound),
        "yanked" => Ok(WarningKind::Yanked),
        _ => Err(RowFault::Unread),
    }
}

/// The form of a report.
pub fn format(row: &mut Row<'_>) -> Result<OutputFormat, RowFault> {
    match OutputFormat::from_word(row.word()) {
        Some(format) => Ok(format),
        None => Err(RowFault::Unread),
    }
}

/// What a binary reports of its packages.
pub fn found(row: &mut Row<'_>) -> Result<Found, RowFault> {
    match row.word() {
        "complete" => Ok(Found::Complete),
        "incomplete" => Ok(Found::Incomplete),
        "nothing" => Ok(Found::Nothing),
        _ => Err(RowFault::Unread),
    }
}
