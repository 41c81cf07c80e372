//! A report as one line of JSON.
ghost use Rattle.std.specs.Prelude.{◌≡◌, ◌++◌, ◌∷◌, [], codes, Some, IfOk, OnOk};
ghost use Rattle.json.specs.Json.{document};
ghost use Rattle.json.specs.Tree.{json_tokens};
ghost use Rattle.audit_report.specs.Documents.{ReadsBack, found_object, report_object, warnings_object};
ghost use Rattle.audit_report.specs.Documents as spec;
ghost use Rattle.report_parts.specs.WrittenTokens.{WritesTokens};
ghost use Rattle.report_parts.specs.Values.{count, json_text, object_of};

use crate::listed::{write_found, write_warnings};
use crate::settings::write_settings;
use audit_advisory::{Advisory, Report};
use audit_lock::Package;
use json::Writer;
use report_parts::{close_object, open_object, write_count, write_name};
use std::alloc::{AllocError, Global};

fn write_counted(out: &mut Writer, name: &str, number: usize) -> Result<(), AllocError>
    ensures { OnOk result (WritesTokens out.old out.new
        (json_tokens (object_of ((name.now, count number) ∷ [])))) }
{
    open_object(out)?;
    write_count(out, name, number)?;
    close_object(out)?;
    Ok(())
}

fn write_hits_of(
    out: &mut Writer,
    advisories: &[Advisory],
    packages: &[Package],
    report: &Report,
) -> Result<(), AllocError>
    ensures { OnOk result (WritesTokens out.old out.new
        (json_tokens (found_object advisories.now packages.now report.now.vulnerabilities))) }
{
    write_found(out, advisories, packages, report.vulnerabilities.as_slice())
}

fn write_warnings_of(
    out: &mut Writer,
    advisories: &[Advisory],
    packages: &[Package],
    report: &Report,
) -> Result<(), AllocError>
    ensures { OnOk result (WritesTokens out.old out.new
        (json_tokens (warnings_object advisories.now packages.now report.now.warnings))) }
{
    write_warnings(out, advisories, packages, report.warnings.as_slice())
}

/// Writes a report.
fn write_report(
    out: &mut Writer,
    advisories: &[Advisory],
    packages: &[Package],
    report: &Report,
) -> Result<(), AllocError>
    ensures { OnOk result (WritesTokens out.old out.new
        (json_tokens (report_object advisories.now packages.now report.now))) }
{
    open_object(out)?;
    write_name(out, "database")?;
    write_counted(out, "advisory-count", report.advisory_count)?;
    write_name(out, "lockfile")?;
    write_counted(out, "dependency-count", report.dependency_count)?;
    write_name(out, "settings")?;
    write_settings(out, &report.settings)?;
    write_name(out, "vulnerabilities")?;
    write_hits_of(out, advisories, packages, report)?;
    write_name(out, "warnings")?;
    write_warnings_of(out, advisories, packages, report)?;
    close_object(out)?;
    Ok(())
}

/// A report as JSON.
fn report_text(
    alloc: Global,
    report: &Report,
    advisories: &[Advisory],
    packages: &[Package],
) -> Result<Vec<u8>, AllocError>
    ensures text { IfOk result (λ text. text.items
        ≡ json_text (report_object advisories.now packages.now report.now)) }
    // the kit's reader returns the intended object
    ensures reads_back { IfOk result (λ text. document text.items
        ≡ Some (report_object advisories.now packages.now report.now)) }
{
    let mut out = Writer::new(Vec::new(alloc));
    write_report(&mut out, advisories, packages, report)?;
    Ok(out.into_inner())
}

/// A report as one line of JSON.
#[tactic(auto, unfolding(crate::specs::Documents::report_line))]
pub fn report_line(
    alloc: Global,
    report: &Report,
    advisories: &[Advisory],
    packages: &[Package],
) -> Result<Vec<u8>, AllocError>
    ensures line { IfOk result (λ line. line.items
        ≡ spec.report_line advisories.now packages.now report.now) }
    ensures reads_back { OnOk result (ReadsBack advisories.now packages.now report.now) }
{
    let mut line = report_text(alloc, report, advisories, packages)?;
    line.push(b'\n')?;
    Ok(line)
}
