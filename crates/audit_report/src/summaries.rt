//! The summary of a report.
ghost use Rattle.std.specs.Prelude.{◌≡◌, ◌++◌, IfOk, OnOk, option_map, string_bytes};
ghost use Rattle.audit_report.specs.Summaries.{allowed_line, denied_line, ending, found_line, vulnerabilities_line};
ghost use Rattle.audit_report.specs.Summaries as summaries_spec;

use audit_advisory::{DenyOption, Report, Warning, is_denied};
use std::alloc::{AllocError, Global};

/// What a line counts: its level, its singular and plural words, and what ends it if there is
/// no path.
#[derive(Clone, Copy)]
struct Counted {
    level: &'static str,
    one: &'static str,
    several: &'static str,
    without: &'static str,
}

/// Appends where it was found: a binary's path, or the text without one.
fn push_ending(out: &mut String, without: &str, path: Option<&str>) -> Result<(), AllocError>
    ensures { OnOk result (string_bytes out.new
        ≡ string_bytes out.old ++ ending without.now (option_map (λ p. p.now) path.entry)) }
{
    match path {
        None => out.push_str(without),
        Some(path) => {
            out.push_str(" in ")?;
            out.push_str(path)
        }
    }
}

/// Appends the line of a count, unless it is 0.
fn push_found(
    alloc: Global,
    out: &mut String,
    count: usize,
    counted: Counted,
    path: Option<&str>,
) -> Result<(), AllocError>
    ensures { OnOk result (string_bytes out.new ≡ string_bytes out.old
        ++ found_line counted.level.now count counted.one.now counted.several.now
        (ending counted.without.now (option_map (λ p. p.now) path.entry))) }
{
    if count == 0 {
        return Ok(());
    }
    let word = if count == 1 {
        counted.one
    } else {
        counted.several
    };
    let front = format!(in alloc; "{}: {} {} found", counted.level, count, word)?;
    out.push_str(front.as_str())?;
    push_ending(out, counted.without, path)?;
    out.push_str("\n")
}

fn denied_count(deny: &[DenyOption], warnings: &[Warning]) -> usize
    ensures { result ≡ summaries_spec.denied_count deny.now warnings.now }
{
    warnings
        .iter()
        .filter(|warning| is_denied(deny, warning.kind))
        .count()
}

fn push_vulnerabilities(
    alloc: Global,
    out: &mut String,
    path: Option<&str>,
    count: usize,
) -> Result<(), AllocError>
    ensures { OnOk result (string_bytes out.new ≡ string_bytes out.old
        ++ vulnerabilities_line (option_map (λ p. p.now) path.entry) count) }
{
    let counted = Counted {
        level: "error",
        one: "vulnerability",
        several: "vulnerabilities",
        without: "!",
    };
    push_found(alloc, out, count, counted, path)
}

fn push_denied(
    alloc: Global,
    out: &mut String,
    path: Option<&str>,
    count: usize,
) -> Result<(), AllocError>
    ensures { OnOk result (string_bytes out.new ≡ string_bytes out.old
        ++ denied_line (option_map (λ p. p.now) path.entry) count) }
{
    let counted = Counted {
        level: "error",
        one: "denied warning",
        several: "denied warnings",
        without: "!",
    };
    push_found(alloc, out, count, counted, path)
}

fn push_allowed(
    alloc: Global,
    out: &mut String,
    path: Option<&str>,
    count: usize,
) -> Result<(), AllocError>
    ensures { OnOk result (string_bytes out.new ≡ string_bytes out.old
        ++ allowed_line (option_map (λ p. p.now) path.entry) count) }
{
    let counted = Counted {
        level: "warning",
        one: "allowed warning",
        several: "allowed warnings",
        without: "",
    };
    push_found(alloc, out, count, counted, path)
}

/// The lines of a summary: a report's vulnerabilities, the warnings of denied kinds, the others.
#[tactic(auto, unfolding(crate::specs::Summaries::summary))]
pub fn summary(
    alloc: Global,
    deny: &[DenyOption],
    path: Option<&str>,
    report: &Report,
) -> Result<String, AllocError>
    ensures { IfOk result (λ text. string_bytes text
        ≡ summaries_spec.summary deny.now (option_map (λ p. p.now) path.entry) report.now) }
{
    let warnings = report.warnings.as_slice();
    let denied = denied_count(deny, warnings);
    let mut out = String::new(alloc);
    let found = report.vulnerabilities.as_slice().len();
    push_vulnerabilities(alloc, &mut out, path, found)?;
    push_denied(alloc, &mut out, path, denied)?;
    push_allowed(alloc, &mut out, path, warnings.len() - denied)?;
    Ok(out)
}
