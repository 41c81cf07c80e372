//! The lines that sum up two audits of generated packages.
ghost use Rattle.std.specs.Prelude.{◌≡◌, ◌↔◌, ◌++◌, codes, IfOk, IsTrue};
ghost use Rattle.std.specs.String.{string_bytes};
ghost use Rattle.audit_generator.specs.Moments.{IsGenerated};
ghost use Rattle.audit_generator.specs.Summaries as spec;

use crate::generating::Generated;
use audit_core::{Judged, Verdict};
use std::alloc::Global;
use tame_names::{NoMemory, Text};

fn is_yanked(judged: &Judged) -> bool
    ensures { result ≡ spec.is_yanked judged.now.verdict }
{
    match judged.verdict {
        Verdict::Yanked => true,
        _ => false,
    }
}

fn yanked_count(judged: &[Judged]) -> u64
    ensures { result ≡ spec.yanked_count judged.now }
{
    let mut count: u64 = 0;
    for verdict in judged {
        if is_yanked(verdict) {
            count += 1;
        }
    }
    count
}

fn same_judged(one: &Judged, other: &Judged) -> bool
    ensures { IsTrue result ↔ (one.now ≡ other.now) }
{
    *one == *other
}

/// Whether two audits say the same about each package.
fn same_verdicts(one: &[Judged], other: &[Judged]) -> bool
    ensures { IsTrue result ↔ (one.now ≡ other.now) }
{
    if one.len() != other.len() {
        return false;
    }
    for (i, judged) in one.iter().enumerate() {
        if !same_judged(judged, &other[i]) {
            return false;
        }
    }
    true
}

fn number_line(alloc: Global, word: &str, number: u64) -> Result<Text, NoMemory>
    ensures { IfOk result (λ t. t ≡ spec.number_line word.now number) }
{
    Ok(Text::from_string(format!(in alloc; "{word} {number}\n")?))
}

fn same_line(same: bool) -> &'static str
    ensures { result.now ≡ spec.same_line same }
{
    if same { "same yes\n" } else { "same no\n" }
}

/// The first three lines.
fn first_lines(
    alloc: Global,
    n: u64,
    advisories: u64,
    vulnerabilities: u64,
) -> Result<String, NoMemory>
    ensures { IfOk result (λ t. string_bytes t ≡ spec.number_line (codes "packages") n
        ++ spec.number_line (codes "advisories") advisories
        ++ spec.number_line (codes "vulnerabilities") vulnerabilities) }
{
    let packages_line = number_line(alloc, "packages", n)?;
    let advisories_line = number_line(alloc, "advisories", advisories)?;
    let vulnerabilities_line = number_line(alloc, "vulnerabilities", vulnerabilities)?;
    let mut text = String::from_str(alloc, packages_line.as_str())?;
    text.push_str(advisories_line.as_str())?;
    text.push_str(vulnerabilities_line.as_str())?;
    Ok(text)
}

/// What the last five lines say.
#[derive(Clone, Copy)]
struct LastNumbers {
    yanked: u64,
    cold: u64,
    warm: u64,
    same: bool,
    exit: u64,
}

/// The last five lines, after others.
fn last_lines(alloc: Global, text: String, numbers: &LastNumbers) -> Result<Text, NoMemory>
    ensures { IfOk result (λ t. t ≡ string_bytes text
        ++ spec.number_line (codes "yanked") numbers.now.yanked
        ++ spec.number_line (codes "cold") numbers.now.cold
        ++ spec.number_line (codes "warm") numbers.now.warm
        ++ spec.same_line numbers.now.same
        ++ spec.number_line (codes "exit") numbers.now.exit) }
{
    let yanked_line = number_line(alloc, "yanked", numbers.yanked)?;
    let cold_line = number_line(alloc, "cold", numbers.cold)?;
    let warm_line = number_line(alloc, "warm", numbers.warm)?;
    let exit_line = number_line(alloc, "exit", numbers.exit)?;
    let mut text = text;
    text.push_str(yanked_line.as_str())?;
    text.push_str(cold_line.as_str())?;
    text.push_str(warm_line.as_str())?;
    text.push_str(same_line(numbers.same))?;
    text.push_str(exit_line.as_str())?;
    Ok(Text::from_string(text))
}

/// The lines that sum up two audits of n packages.
pub fn summary_text(alloc: Global, n: u64, generated: &Generated) -> Result<Text, NoMemory>
    // whatever they are, the lines over them
    ensures over { IfOk result (spec.AreLinesOver n generated.now) }
    // for two audits of n packages, the lines for n
    ensures summary { IsGenerated n generated.now → IfOk result (λ t. t ≡ spec.summary_for n) }
{
    let report = &generated.second.report;
    let text = first_lines(
        alloc,
        n,
        report.advisory_count as u64,
        report.vulnerabilities.len() as u64,
    )?;
    let numbers = LastNumbers {
        yanked: yanked_count(generated.second.verdicts.as_slice()),
        cold: generated.wire.answered(200),
        warm: generated.wire.answered(304),
        same: same_verdicts(
            generated.first.verdicts.as_slice(),
            generated.second.verdicts.as_slice(),
        ),
        exit: generated.second.exit as u64,
    };
    last_lines(alloc, text, &numbers)
}
