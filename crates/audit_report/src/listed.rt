//! The vulnerabilities and the warnings of a report.
ghost use Rattle.std.specs.Prelude.{◌≡◌, ◌++◌, ◌∷◌, [], codes, length, nat_lt, option_copied, OnOk};
ghost use Rattle.std.specs.List.{flat_map};
ghost use Rattle.json.specs.Json.{boolean};
ghost use Rattle.json.specs.Token.{key};
ghost use Rattle.json.specs.Tree.{json_tokens};
ghost use Rattle.audit_report.specs.Documents.{found_object, hit_at, hit_of, kind_member, listed_tokens, member_if, kind_warning_at, warning_of, warnings_object};
ghost use Rattle.audit_report.specs.Documents as spec;
ghost use Rattle.report_parts.specs.WrittenTokens.{WritesTokens};
ghost use Rattle.report_parts.specs.Words.{kind_word};
ghost use Rattle.report_parts.specs.Values.{array_of, count};

use crate::objects::{write_hit, write_warning};
use audit_advisory::{Advisory, Vulnerability, Warning, WarningKind, advisory_at, listed_at};
use audit_lock::{Package, package_at};
use json::Writer;
use report_parts::{
    close_array, close_object, kind_word, open_array, open_object, write_count, write_flag,
    write_name,
};
use std::alloc::AllocError;

fn write_hit_of(
    out: &mut Writer,
    locked: Option<&Package>,
    advisory: Option<&Advisory>,
) -> Result<(), AllocError>
    ensures { OnOk result (WritesTokens out.old out.new
        (flat_map json_tokens
        (hit_of (option_copied locked.entry) (option_copied advisory.entry)))) }
{
    match (locked, advisory) {
        (Some(locked), Some(advisory)) => write_hit(out, locked, advisory),
        _ => Ok(()),
    }
}

fn write_hit_at(
    out: &mut Writer,
    advisories: &[Advisory],
    packages: &[Package],
    hit: Vulnerability,
) -> Result<(), AllocError>
    ensures { OnOk result (WritesTokens out.old out.new
        (flat_map json_tokens (hit_at advisories.now packages.now hit))) }
{
    let locked = package_at(packages, hit.package);
    let advisory = listed_at(advisories, hit.advisory);
    write_hit_of(out, locked, advisory)
}

fn write_hits(
    out: &mut Writer,
    advisories: &[Advisory],
    packages: &[Package],
    found: &[Vulnerability],
) -> Result<(), AllocError>
    ensures { OnOk result (WritesTokens out.old out.new
        (flat_map json_tokens (flat_map (hit_at advisories.now packages.now) found.now))) }
{
    for hit in found {
        write_hit_at(out, advisories, packages, *hit)?;
    }
    Ok(())
}

fn write_hit_list(
    out: &mut Writer,
    advisories: &[Advisory],
    packages: &[Package],
    found: &[Vulnerability],
) -> Result<(), AllocError>
    ensures { OnOk result (WritesTokens out.old out.new
        (json_tokens (array_of (flat_map (hit_at advisories.now packages.now) found.now)))) }
{
    open_array(out)?;
    write_hits(out, advisories, packages, found)?;
    close_array(out)?;
    Ok(())
}

fn write_found_flag(out: &mut Writer, found: &[Vulnerability]) -> Result<(), AllocError>
    ensures { OnOk result (WritesTokens out.old out.new
        (key (codes "found") ∷ json_tokens (boolean (nat_lt 0 (length found.now))))) }
{
    write_flag(out, "found", 0 < found.len())
}

fn write_found_count(out: &mut Writer, found: &[Vulnerability]) -> Result<(), AllocError>
    ensures { OnOk result (WritesTokens out.old out.new
        (key (codes "count") ∷ json_tokens (count (length found.now)))) }
{
    write_count(out, "count", found.len())
}

/// Writes the packages that advisories hit.
pub fn write_found(
    out: &mut Writer,
    advisories: &[Advisory],
    packages: &[Package],
    found: &[Vulnerability],
) -> Result<(), AllocError>
    ensures { OnOk result (WritesTokens out.old out.new
        (json_tokens (found_object advisories.now packages.now found.now))) }
{
    open_object(out)?;
    write_found_flag(out, found)?;
    write_found_count(out, found)?;
    write_name(out, "list")?;
    write_hit_list(out, advisories, packages, found)?;
    close_object(out)?;
    Ok(())
}

fn write_warning_of(
    out: &mut Writer,
    kind: WarningKind,
    locked: Option<&Package>,
    advisory: Option<&Advisory>,
) -> Result<(), AllocError>
    ensures { OnOk result (WritesTokens out.old out.new (flat_map json_tokens
        (warning_of kind (option_copied locked.entry) (option_copied advisory.entry)))) }
{
    match locked {
        None => Ok(()),
        Some(locked) => write_warning(out, kind, locked, advisory),
    }
}

fn write_warning_at(
    out: &mut Writer,
    kind: WarningKind,
    advisories: &[Advisory],
    packages: &[Package],
    warning: Warning,
) -> Result<(), AllocError>
    ensures { OnOk result (WritesTokens out.old out.new
        (flat_map json_tokens (kind_warning_at kind advisories.now packages.now warning))) }
{
    if warning.kind == kind {
        let locked = package_at(packages, warning.package);
        let advisory = advisory_at(advisories, warning.advisory);
        write_warning_of(out, kind, locked, advisory)
    } else {
        Ok(())
    }
}

fn write_warnings_of(
    out: &mut Writer,
    kind: WarningKind,
    advisories: &[Advisory],
    packages: &[Package],
    warnings: &[Warning],
) -> Result<(), AllocError>
    ensures { OnOk result (WritesTokens out.old out.new (flat_map json_tokens
        (flat_map (kind_warning_at kind advisories.now packages.now) warnings.now))) }
{
    for warning in warnings {
        write_warning_at(out, kind, advisories, packages, *warning)?;
    }
    Ok(())
}

fn write_warning_list(
    out: &mut Writer,
    kind: WarningKind,
    advisories: &[Advisory],
    packages: &[Package],
    warnings: &[Warning],
) -> Result<(), AllocError>
    ensures { OnOk result (WritesTokens out.old out.new (json_tokens
        (array_of (flat_map (kind_warning_at kind advisories.now packages.now) warnings.now)))) }
{
    open_array(out)?;
    write_warnings_of(out, kind, advisories, packages, warnings)?;
    close_array(out)?;
    Ok(())
}

fn write_kind_name(out: &mut Writer, kind: WarningKind) -> Result<(), AllocError>
    ensures { OnOk result (WritesTokens out.old out.new (key (kind_word kind) ∷ [])) }
{
    write_name(out, kind_word(kind))
}

fn write_kind_if(
    out: &mut Writer,
    occurs: bool,
    kind: WarningKind,
    advisories: &[Advisory],
    packages: &[Package],
    warnings: &[Warning],
) -> Result<(), AllocError>
    ensures { OnOk result (WritesTokens out.old out.new
        (listed_tokens (member_if occurs (kind_word kind)
        (array_of (flat_map (kind_warning_at kind advisories.now packages.now) warnings.now))))) }
{
    if !occurs {
        return Ok(());
    }
    write_kind_name(out, kind)?;
    write_warning_list(out, kind, advisories, packages, warnings)?;
    Ok(())
}

fn occurs(kind: WarningKind, warnings: &[Warning]) -> bool
    ensures { result ≡ spec.occurs kind warnings.now }
{
    warnings.iter().any(|warning| warning.kind == kind)
}

fn write_kind(
    out: &mut Writer,
    kind: WarningKind,
    advisories: &[Advisory],
    packages: &[Package],
    warnings: &[Warning],
) -> Result<(), AllocError>
    ensures { OnOk result (WritesTokens out.old out.new
        (listed_tokens (kind_member kind advisories.now packages.now warnings.now))) }
{
    let stands = occurs(kind, warnings);
    write_kind_if(out, stands, kind, advisories, packages, warnings)
}

/// Writes the packages that warnings are about, by the kinds that occur.
pub fn write_warnings(
    out: &mut Writer,
    advisories: &[Advisory],
    packages: &[Package],
    warnings: &[Warning],
) -> Result<(), AllocError>
    ensures { OnOk result (WritesTokens out.old out.new
        (json_tokens (warnings_object advisories.now packages.now warnings.now))) }
{
    open_object(out)?;
    write_kind(out, WarningKind::Notice, advisories, packages, warnings)?;
    write_kind(
        out,
        WarningKind::Unmaintained,
        advisories,
        packages,
        warnings,
    )?;
    write_kind(out, WarningKind::Unsound, advisories, packages, warnings)?;
    write_kind(out, WarningKind::Yanked, advisories, packages, warnings)?;
    close_object(out)?;
    Ok(())
}
