//! The line that says why a run ended without its output.
ghost use Rattle.std.specs.Prelude.{◌≡◌, ◌++◌, codes, decimal, IfOk, OnOk, string_bytes};
ghost use Rattle.std.specs.Fmt.{signed_decimal};
ghost use Rattle.audit_output.specs.LockfileWords.{lockfile_words, of_package};
ghost use Rattle.audit_remedies.specs.FaultLines.{fault_words, settings_words, vendor_words};
ghost use Rattle.audit_remedies.specs.FaultLines as spec;

use crate::faults::RunFault;
use audit_lock::{LockRule, LockfileFault};
use audit_output::{push_lockfile_words, push_numbered, push_package, push_two};
use audit_settings::SettingsFault;
use report_parts::push_number;
use std::alloc::{AllocError, Global};
use vendor_registry::VendorFault;

/// What is said of a lockfile that couldn't be generated, before cargo's status.
const GENERATED: &str = "non-zero exit status running `cargo update --workspace`: ";

fn push_signed(alloc: Global, out: &mut String, number: &i32) -> Result<(), AllocError>
    ensures { OnOk result (string_bytes out.new
        ≡ string_bytes out.old ++ signed_decimal number.now) }
{
    let text = format!(in alloc; "{number}")?;
    out.push_str(text.as_str())
}

fn push_settings(out: &mut String, reason: &SettingsFault) -> Result<(), AllocError>
    ensures { OnOk result (string_bytes out.new
        ≡ string_bytes out.old ++ settings_words reason.now) }
{
    match reason {
        SettingsFault::Toml => out.push_str("invalid TOML"),
        SettingsFault::Float => out.push_str("a float"),
        SettingsFault::Unknown { key } => push_two(out, "unknown key ", key.as_str()),
        SettingsFault::Missing { key } => push_two(out, "missing key ", key),
        SettingsFault::Value { key } => push_two(out, "wrong value ", key),
        SettingsFault::NoMemory => out.push_str("out of memory"),
    }
}

fn lockfile_kind(reason: LockfileFault) -> &'static str
    ensures { result.now ≡ spec.lockfile_kind reason }
{
    match reason {
        LockfileFault::Rule {
            rule: LockRule::Version,
            ..
        } => "version error",
        _ => "parse error",
    }
}

fn push_lockfile(
    alloc: Global,
    out: &mut String,
    place: &str,
    reason: LockfileFault,
) -> Result<(), AllocError>
    ensures { OnOk result (string_bytes out.new ≡ string_bytes out.old ++ (spec.lockfile_kind reason
        ++ codes ": couldn't load " ++ place.now ++ codes ": " ++ lockfile_words reason)) }
{
    push_two(out, lockfile_kind(reason), ": couldn't load ")?;
    push_two(out, place, ": ")?;
    push_lockfile_words(alloc, out, reason)
}

fn push_too_large(alloc: Global, out: &mut String, path: &str, len: u64) -> Result<(), AllocError>
    ensures { OnOk result (string_bytes out.new
        ≡ string_bytes out.old
        ++ (path.now ++ codes " has " ++ decimal len ++ codes " bytes")) }
{
    push_two(out, path, " has ")?;
    push_number(alloc, out, len)?;
    out.push_str(" bytes")
}

fn push_started(alloc: Global, out: &mut String, failed: u64) -> Result<(), AllocError>
    ensures { OnOk result (string_bytes out.new
        ≡ string_bytes out.old ++ (decimal failed ++ codes " programs couldn't be started")) }
{
    push_number(alloc, out, failed)?;
    out.push_str(" programs couldn't be started")
}

/// A string with a status after it.
fn push_ended(alloc: Global, out: &mut String, text: &str, status: &i32) -> Result<(), AllocError>
    ensures { OnOk result (string_bytes out.new
        ≡ string_bytes out.old ++ (text.now ++ signed_decimal status.now)) }
{
    out.push_str(text)?;
    push_signed(alloc, out, status)
}

/// A refusal's name, and the package that it is of.
fn push_refusal(
    alloc: Global,
    out: &mut String,
    name: &str,
    locked: Option<usize>,
) -> Result<(), AllocError>
    ensures { OnOk result (string_bytes out.new
        ≡ string_bytes out.old ++ (name.now ++ of_package locked)) }
{
    out.push_str(name)?;
    push_package(alloc, out, locked)
}

fn push_vendor(alloc: Global, out: &mut String, reason: &VendorFault) -> Result<(), AllocError>
    ensures { OnOk result (string_bytes out.new
        ≡ string_bytes out.old ++ vendor_words reason.now) }
{
    match reason {
        VendorFault::Name { package: n } => push_refusal(alloc, out, "name", Some(*n)),
        VendorFault::Store { package: n } => push_refusal(alloc, out, "store", Some(*n)),
        VendorFault::Absent { package: n } => push_refusal(alloc, out, "absent", Some(*n)),
        VendorFault::Record { package: n } => push_refusal(alloc, out, "record", Some(*n)),
        VendorFault::NoVersion { package: n } => push_refusal(alloc, out, "noversion", Some(*n)),
        VendorFault::NoCrate { package: n } => push_refusal(alloc, out, "nocrate", Some(*n)),
        VendorFault::TooLarge { package: n, .. } => push_refusal(alloc, out, "toolarge", Some(*n)),
        VendorFault::Digest { package: n, .. } => push_refusal(alloc, out, "digest", Some(*n)),
        VendorFault::NotEmpty(_) => push_refusal(alloc, out, "notempty", None),
        VendorFault::NotADirectory => push_refusal(alloc, out, "notadirectory", None),
        VendorFault::File { .. } => push_refusal(alloc, out, "file", None),
        VendorFault::ReadBack(_) => push_refusal(alloc, out, "readback", None),
        VendorFault::NoMemory => push_refusal(alloc, out, "nomemory", None),
    }
}

fn push_refused(
    alloc: Global,
    out: &mut String,
    text: &str,
    reason: &VendorFault,
) -> Result<(), AllocError>
    ensures { OnOk result (string_bytes out.new
        ≡ string_bytes out.old ++ (text.now ++ vendor_words reason.now)) }
{
    out.push_str(text)?;
    push_vendor(alloc, out, reason)
}

fn push_config(out: &mut String, reason: &SettingsFault) -> Result<(), AllocError>
    ensures { OnOk result (string_bytes out.new
        ≡ string_bytes out.old ++ (codes "config error: " ++ settings_words reason.now)) }
{
    out.push_str("config error: ")?;
    push_settings(out, reason)
}

fn push_fault(
    alloc: Global,
    out: &mut String,
    place: &str,
    fault: &RunFault,
) -> Result<(), AllocError>
    ensures { OnOk result (string_bytes out.new
        ≡ string_bytes out.old ++ fault_words place.now fault.now) }
{
    match fault {
        RunFault::Usage { place: n } => {
            push_numbered(alloc, out, "bad word at place ", *n as u64)
        }
        RunFault::Settings(reason) => push_config(out, reason),
        RunFault::Missing { path } => push_two(out, path.as_str(), " isn't there"),
        RunFault::NotUtf8 { path } => push_two(out, path.as_str(), " isn't UTF-8"),
        RunFault::TooLarge { path, len } => push_too_large(alloc, out, path.as_str(), *len),
        RunFault::File { path } => push_two(out, "I/O error: ", path.as_str()),
        RunFault::Lockfile(reason) => push_lockfile(alloc, out, place, *reason),
        RunFault::Advisory { n, .. } => {
            push_numbered(alloc, out, "parse error: advisory ", *n as u64)
        }
        RunFault::Baseline { line } => push_numbered(alloc, out, "baseline line ", *line),
        RunFault::Vendor(reason) => push_refused(alloc, out, "vendor: ", reason),
        RunFault::Print => out.push_str("I/O error: output"),
        RunFault::Generate { status } => push_ended(alloc, out, GENERATED, status),
        RunFault::Start { failed } => push_started(alloc, out, *failed),
        RunFault::NoMemory => out.push_str("out of memory"),
    }
}

/// The line that reports a fault; that of a lockfile names the lockfile's path.
pub fn fault_line(alloc: Global, place: &str, fault: &RunFault) -> Result<String, AllocError>
    ensures { IfOk result (λ line. string_bytes line ≡ spec.fault_line place.now fault.now) }
{
    let mut out = String::from_str(alloc, "error: ")?;
    push_fault(alloc, &mut out, place, fault)?;
    out.push_str("\n")?;
    Ok(out)
}
