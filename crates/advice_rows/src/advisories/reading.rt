//! What words, requirements and advisories are read as.
use audit_advisory::{
    Advisory, AdvisoryFault, DenyOption, OutputConfig, OutputFormat, Requirement,
};
use row_fixtures::{Row, RowFault};
use semver::Version;
use std::alloc::{AllocError, Global};
use tame_names::NoMemory;

/// Whether a version meets a requirement, as a word.
fn held(requirement: &Requirement, version: &Version) -> &'static str {
    if requirement.holds(version) {
        "in"
    } else {
        "out"
    }
}

fn met_by(alloc: Global, requirement: &Requirement, version: &str) -> &'static str {
    match Version::parse(alloc, version) {
        Ok(version) => held(requirement, &version),
        Err(_) => "no version",
    }
}

fn met(alloc: Global, requirement: &str, version: &str) -> Result<&'static str, NoMemory> {
    match Requirement::read(alloc, requirement) {
        Ok(Some(requirement)) => Ok(met_by(alloc, &requirement, version)),
        Ok(None) => Ok("no requirement"),
        Err(fault) => Err(fault),
    }
}

/// `requirement REQUIREMENT @ VERSION`
pub fn requirement(alloc: Global, row: Row<'_>) -> Result<String, RowFault> {
    let line = row.rest();
    let Some((requirement, version)) = line.split_once(" @ ") else {
        return Err(RowFault::Unread);
    };
    let word = met(alloc, requirement, version)?;
    Ok(format!(in alloc; "{line}: {word}")?)
}

/// A line with its marks replaced.
fn unfolded(alloc: Global, line: &str) -> Result<String, AllocError> {
    let mut text = String::new(alloc);
    for c in line.chars() {
        match c {
            '|' => text.push('\n')?,
            '^' => text.push('\r')?,
            _ => text.push(c)?,
        }
    }
    Ok(text)
}

/// The text of an advisory with this head, its marks not yet replaced.
pub fn headed(alloc: Global, head: &str) -> Result<String, AllocError> {
    let head = unfolded(alloc, head)?;
    format!(in alloc; "```toml\n{head}\n```\n# Title\n")
}

/// The title of an advisory, or the first rule that it breaks.
fn title_line(alloc: Global, line: &str, text: &str) -> Result<String, AllocError> {
    match Advisory::read(alloc, text) {
        Ok(advisory) => format!(in alloc; "{line}: {:?}", advisory.metadata.title),
        Err(AdvisoryFault::Rule(rule)) => format!(in alloc; "{line}: {rule:?}"),
        Err(fault) => format!(in alloc; "{line}: {fault:?}"),
    }
}

/// `text TEXT`
pub fn text(alloc: Global, row: Row<'_>) -> Result<String, RowFault> {
    let text = unfolded(alloc, row.rest())?;
    Ok(title_line(alloc, row.rest(), text.as_str())?)
}

/// `head HEAD`
pub fn head(alloc: Global, row: Row<'_>) -> Result<String, RowFault> {
    let text = headed(alloc, row.rest())?;
    Ok(title_line(alloc, row.rest(), text.as_str())?)
}

fn option_line(alloc: Global, word: &str, option: DenyOption) -> Result<String, AllocError> {
    format!(in alloc; "{word}: {option:?} {:?}", option.get_warning_kind())
}

fn config_of(alloc: Global, format: OutputFormat) -> Result<OutputConfig, NoMemory> {
    Ok(OutputConfig {
        deny: DenyOption::all(alloc)?,
        format,
        quiet: false,
        show_tree: true,
    })
}

fn format_line(alloc: Global, word: &str, config: &OutputConfig) -> Result<String, AllocError> {
    format!(in alloc; "{word}: {config:?} {}", config.is_quiet())
}

/// `word WORD`
pub fn word(alloc: Global, row: Row<'_>) -> Result<String, RowFault> {
    let word = row.rest();
    if let Some(option) = DenyOption::from_word(word) {
        return Ok(option_line(alloc, word, option)?);
    }
    let Some(format) = OutputFormat::from_word(word) else {
        return Ok(String::new(alloc));
    };
    match config_of(alloc, format) {
        Ok(config) => Ok(format_line(alloc, word, &config)?),
        Err(_) => Err(RowFault::NoMemory),
    }
}
