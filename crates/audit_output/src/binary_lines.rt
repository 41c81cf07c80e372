//! The lines of a binary.
ghost use Rattle.std.specs.Prelude.{◌≡◌, ◌++◌, codes, decimal, length, IfOk, OnOk, string_bytes};
ghost use Rattle.audit_report.specs.StatusLines.{binary_line_in};
ghost use Rattle.audit_output.specs.BinaryOutputs.{binary_words};
ghost use Rattle.audit_output.specs.BinaryOutputs as spec;
ghost use Rattle.audit_output.specs.Outputs.{unchecked_lines};

use crate::lockfile_words::{push_lockfile_words, push_two};
use crate::outputs::push_unchecked_lines;
use audit_advisory::OutputConfig;
use audit_binaries::{BinaryAnswer, BinaryFault, PackagesFound};
use audit_core::Audited;
use audit_report::{Found, binary_line_in};
use report_parts::push_number;
use std::alloc::{AllocError, Global};

/// Appends a text, and then a number of bytes.
fn push_bytes(alloc: Global, out: &mut String, text: &str, len: u64) -> Result<(), AllocError>
    ensures { OnOk result (string_bytes out.new
        ≡ string_bytes out.old ++ (text.now ++ decimal len ++ codes " bytes")) }
{
    out.push_str(text)?;
    push_number(alloc, out, len)?;
    out.push_str(" bytes")
}

/// Appends why there is no audit of a binary.
fn push_binary_words(alloc: Global, out: &mut String, fault: BinaryFault) -> Result<(), AllocError>
    ensures { OnOk result (string_bytes out.new ≡ string_bytes out.old ++ binary_words fault) }
{
    match fault {
        BinaryFault::Missing => out.push_str("isn't there"),
        BinaryFault::File => out.push_str("I/O error"),
        BinaryFault::TooLarge(len) => push_bytes(alloc, out, "has ", len),
        BinaryFault::Decode => out.push_str("can't be decoded"),
        BinaryFault::PayloadOver(len) => push_bytes(alloc, out, "payload has ", len),
        BinaryFault::NoInformation => out.push_str("no dependency information"),
        BinaryFault::Lockfile(reason) => push_lockfile_words(alloc, out, reason),
    }
}

/// The line that says why there is no audit of the binary at a path.
pub fn refused_line(alloc: Global, path: &str, fault: BinaryFault) -> Result<String, AllocError>
    ensures { IfOk result (λ line. string_bytes line ≡ spec.refused_line path.now fault) }
{
    let mut out = String::from_str(alloc, "error: ")?;
    push_two(&mut out, path, ": ")?;
    push_binary_words(alloc, &mut out, fault)?;
    out.push_str("\n")?;
    Ok(out)
}

fn found_of(found: PackagesFound) -> Found
    ensures { result ≡ spec.found_of found }
{
    match found {
        PackagesFound::Complete => Found::Complete,
        PackagesFound::Incomplete => Found::Incomplete,
    }
}

/// The status lines of a binary that was audited.
fn audited_lines(
    alloc: Global,
    config: &OutputConfig,
    path: &str,
    found: PackagesFound,
    audited: &Audited,
) -> Result<String, AllocError>
    ensures { IfOk result (λ lines. string_bytes lines
        ≡ binary_line_in config.now (spec.found_of found) (length audited.now.lockfile) path.now
        ++ unchecked_lines audited.now.lockfile audited.now.verdicts) }
{
    let packages = audited.lockfile.packages();
    let mut out = binary_line_in(alloc, config, found_of(found), packages.len(), path)?;
    push_unchecked_lines(alloc, &mut out, packages, audited.verdicts.as_slice())?;
    Ok(out)
}

/// The status line of a binary that was refused, if it has one.
fn refused_status_line(
    alloc: Global,
    config: &OutputConfig,
    path: &str,
    fault: BinaryFault,
) -> Result<String, AllocError>
    ensures { IfOk result (λ line. string_bytes line
        ≡ spec.refused_status_line config.now path.now fault) }
{
    match fault {
        BinaryFault::NoInformation => binary_line_in(alloc, config, Found::Nothing, 0, path),
        _ => Ok(String::new(alloc)),
    }
}

/// The status lines of a binary.
pub fn binary_status_lines(
    alloc: Global,
    config: &OutputConfig,
    path: &str,
    answer: &BinaryAnswer,
) -> Result<String, AllocError>
    ensures { IfOk result (λ lines. string_bytes lines
        ≡ spec.binary_status_lines config.now path.now answer.now) }
{
    match answer {
        BinaryAnswer::Audited(found, audited) => {
            audited_lines(alloc, config, path, *found, audited)
        }
        BinaryAnswer::Refused(fault) => refused_status_line(alloc, config, path, *fault),
    }
}
