//! Why a text is no lockfile, in words.
ghost use Rattle.std.specs.Prelude.{◌≡◌, ◌++◌, codes, decimal, IfOk, OnOk, string_bytes};
ghost use Rattle.audit_output.specs.LockfileWords.{lockfile_words, of_package};
ghost use Rattle.audit_output.specs.LockfileWords as spec;

use audit_lock::{LockRule, LockfileFault};
use report_parts::push_number;
use std::alloc::{AllocError, Global};

/// Appends two strings.
pub fn push_two(out: &mut String, first: &str, second: &str) -> Result<(), AllocError>
    ensures { OnOk result (string_bytes out.new
        ≡ string_bytes out.old ++ (first.now ++ second.now)) }
{
    out.push_str(first)?;
    out.push_str(second)
}

/// Appends a string, and then a number.
pub fn push_numbered(
    alloc: Global,
    out: &mut String,
    text: &str,
    number: u64,
) -> Result<(), AllocError>
    ensures { OnOk result (string_bytes out.new
        ≡ string_bytes out.old ++ (text.now ++ decimal number)) }
{
    out.push_str(text)?;
    push_number(alloc, out, number)
}

fn rule_word(rule: LockRule) -> &'static str
    ensures { result.now ≡ spec.rule_word rule }
{
    match rule {
        LockRule::Version => "version",
        LockRule::Packages => "packages",
        LockRule::Name => "name",
        LockRule::PackageVersion => "packageversion",
        LockRule::Source => "source",
        LockRule::Checksum => "checksum",
        LockRule::Dependencies => "dependencies",
        LockRule::Replace => "replace",
        LockRule::Root => "root",
        LockRule::Names => "names",
    }
}

/// Appends which package something is about, by its place in the lockfile, if it is known.
pub fn push_package(
    alloc: Global,
    out: &mut String,
    locked: Option<usize>,
) -> Result<(), AllocError>
    ensures { OnOk result (string_bytes out.new ≡ string_bytes out.old ++ of_package locked) }
{
    match locked {
        None => Ok(()),
        Some(n) => push_numbered(alloc, out, " of package ", n as u64),
    }
}

fn push_rule(
    alloc: Global,
    out: &mut String,
    locked: Option<usize>,
    rule: LockRule,
) -> Result<(), AllocError>
    ensures { OnOk result (string_bytes out.new
        ≡ string_bytes out.old ++ (codes "rule " ++ spec.rule_word rule ++ of_package locked)) }
{
    push_two(out, "rule ", rule_word(rule))?;
    push_package(alloc, out, locked)
}

/// Appends why a text is no lockfile.
pub fn push_lockfile_words(
    alloc: Global,
    out: &mut String,
    reason: LockfileFault,
) -> Result<(), AllocError>
    ensures { OnOk result (string_bytes out.new ≡ string_bytes out.old ++ lockfile_words reason) }
{
    match reason {
        LockfileFault::Toml => out.push_str("invalid TOML"),
        LockfileFault::Float => out.push_str("a float"),
        LockfileFault::Rule { package, rule } => push_rule(alloc, out, package, rule),
        LockfileFault::NoMemory => out.push_str("out of memory"),
    }
}
