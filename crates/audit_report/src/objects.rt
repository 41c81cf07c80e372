//! The objects of the JSON form.
ghost use Rattle.std.specs.Prelude.{◌≡◌, ◌++◌, ◌∷◌, codes, OnOk, option_map};
ghost use Rattle.json.specs.Json.{string};
ghost use Rattle.json.specs.Token.{key};
ghost use Rattle.json.specs.Tree.{json_tokens};
ghost use Rattle.report_parts.specs.WrittenTokens.{WritesTokens};
ghost use Rattle.audit_report.specs.Objects.{hit_object, metadata_object, metadata_or_null, package_object, versions_object, warning_object};
ghost use Rattle.report_parts.specs.Words.{informational_word, kind_word};
ghost use Rattle.report_parts.specs.Values.{text_or_null, texts};

use audit_advisory::{Advisory, Informational, Metadata, WarningKind};
use audit_lock::Package;
use json::Writer;
use report_parts::{
    close_object, kind_word, open_object, stated_informational, write_name, write_optional,
    write_requirements, write_score, write_str, write_text, write_word,
};
use std::alloc::AllocError;

/// Writes the member with the kind of an informational advisory, or null.
fn write_informational(
    out: &mut Writer,
    informational: &Option<Informational>,
) -> Result<(), AllocError>
    ensures { OnOk result (WritesTokens out.old out.new
        (key (codes "informational") ∷ json_tokens
        (text_or_null (option_map informational_word informational.now)))) }
{
    write_word(out, "informational", stated_informational(informational))
}

/// Writes what an advisory says about itself.
fn write_metadata(out: &mut Writer, metadata: &Metadata) -> Result<(), AllocError>
    ensures { OnOk result (WritesTokens out.old out.new
        (json_tokens (metadata_object metadata.now))) }
{
    open_object(out)?;
    write_text(out, "id", &metadata.id)?;
    write_text(out, "package", &metadata.package)?;
    write_text(out, "title", &metadata.title)?;
    write_text(out, "description", &metadata.description)?;
    write_text(out, "date", &metadata.date)?;
    write_optional(out, "url", &metadata.url)?;
    write_informational(out, &metadata.informational)?;
    write_optional(out, "withdrawn", &metadata.withdrawn)?;
    write_optional(out, "license", &metadata.license)?;
    write_optional(out, "cvss", &metadata.cvss)?;
    write_score(out, "score_tenths", metadata.score_tenths)?;
    close_object(out)?;
    Ok(())
}

/// Writes a package.
fn write_package(out: &mut Writer, locked: &Package) -> Result<(), AllocError>
    ensures { OnOk result (WritesTokens out.old out.new
        (json_tokens (package_object locked.now))) }
{
    open_object(out)?;
    write_text(out, "name", &locked.name)?;
    write_text(out, "version", &locked.version)?;
    write_optional(out, "source", &locked.source)?;
    write_optional(out, "checksum", &locked.checksum)?;
    close_object(out)?;
    Ok(())
}

fn write_patched(out: &mut Writer, advisory: &Advisory) -> Result<(), AllocError>
    ensures { OnOk result (WritesTokens out.old out.new
        (key (codes "patched") ∷ json_tokens (texts advisory.now.versions.patched))) }
{
    write_requirements(out, "patched", advisory.versions.patched())
}

fn write_unaffected(out: &mut Writer, advisory: &Advisory) -> Result<(), AllocError>
    ensures { OnOk result (WritesTokens out.old out.new
        (key (codes "unaffected") ∷ json_tokens (texts advisory.now.versions.unaffected))) }
{
    write_requirements(out, "unaffected", advisory.versions.unaffected())
}

/// Writes the texts of an advisory's requirements.
fn write_versions(out: &mut Writer, advisory: &Advisory) -> Result<(), AllocError>
    ensures { OnOk result (WritesTokens out.old out.new
        (json_tokens (versions_object advisory.now))) }
{
    open_object(out)?;
    write_patched(out, advisory)?;
    write_unaffected(out, advisory)?;
    close_object(out)?;
    Ok(())
}

/// Writes a package that an advisory hits.
pub fn write_hit(out: &mut Writer, locked: &Package, advisory: &Advisory) -> Result<(), AllocError>
    ensures { OnOk result (WritesTokens out.old out.new
        (json_tokens (hit_object locked.now advisory.now))) }
{
    open_object(out)?;
    write_name(out, "advisory")?;
    write_metadata(out, &advisory.metadata)?;
    write_name(out, "versions")?;
    write_versions(out, advisory)?;
    write_name(out, "package")?;
    write_package(out, locked)?;
    close_object(out)?;
    Ok(())
}

/// Writes what an advisory says about itself, or null.
fn write_stated(out: &mut Writer, advisory: Option<&Advisory>) -> Result<(), AllocError>
    ensures { OnOk result (WritesTokens out.old out.new
        (json_tokens (metadata_or_null (option_map (λ a. a.now) advisory.entry)))) }
{
    match advisory {
        None => out.null(),
        Some(advisory) => write_metadata(out, &advisory.metadata),
    }
}

fn write_kind(out: &mut Writer, kind: WarningKind) -> Result<(), AllocError>
    ensures { OnOk result (WritesTokens out.old out.new
        (key (codes "kind") ∷ json_tokens (string (kind_word kind)))) }
{
    write_str(out, "kind", kind_word(kind))
}

/// Writes a warning about a package.
pub fn write_warning(
    out: &mut Writer,
    kind: WarningKind,
    locked: &Package,
    advisory: Option<&Advisory>,
) -> Result<(), AllocError>
    ensures { OnOk result (WritesTokens out.old out.new
        (json_tokens (warning_object kind locked.now (option_map (λ a. a.now) advisory.entry)))) }
{
    open_object(out)?;
    write_kind(out, kind)?;
    write_name(out, "package")?;
    write_package(out, locked)?;
    write_name(out, "advisory")?;
    write_stated(out, advisory)?;
    close_object(out)?;
    Ok(())
}
