//! The settings of a report.
ghost use Rattle.std.specs.Prelude.{◌≡◌, ◌++◌, ◌∷◌, codes, map, option_map, OnOk};
ghost use Rattle.json.specs.Token.{key};
ghost use Rattle.json.specs.Tree.{json_tokens};
ghost use Rattle.report_parts.specs.WrittenTokens.{WritesTokens};
ghost use Rattle.audit_report.specs.Objects.{settings_object};
ghost use Rattle.report_parts.specs.Values.{text_or_null, texts};
ghost use Rattle.report_parts.specs.Words.{informational_word, severity_word};

use audit_advisory::{Informational, Settings, Severity};
use json::Writer;
use report_parts::{
    close_object, informational_word, open_object, stated_severity, write_texts, write_word,
};
use std::alloc::AllocError;
use tame_names::Items;

fn write_informational(
    out: &mut Writer,
    informational: &Items<Informational>,
) -> Result<(), AllocError>
    ensures { OnOk result (WritesTokens out.old out.new (key (codes "informational_warnings")
        ∷ json_tokens (texts (map informational_word informational.now)))) }
{
    out.key("informational_warnings")?;
    out.begin_array()?;
    for one in informational.as_slice() {
        out.string(informational_word(one))?;
    }
    out.end_array()
}

fn write_severity(out: &mut Writer, severity: Option<Severity>) -> Result<(), AllocError>
    ensures { OnOk result (WritesTokens out.old out.new
        (key (codes "severity") ∷ json_tokens (text_or_null (option_map severity_word severity)))) }
{
    write_word(out, "severity", stated_severity(severity))
}

/// Writes what an audit was asked to look at.
pub fn write_settings(out: &mut Writer, settings: &Settings) -> Result<(), AllocError>
    ensures { OnOk result (WritesTokens out.old out.new
        (json_tokens (settings_object settings.now))) }
{
    open_object(out)?;
    write_texts(out, "target_arch", &settings.target_arch)?;
    write_texts(out, "target_os", &settings.target_os)?;
    write_severity(out, settings.severity)?;
    write_texts(out, "ignore", &settings.ignore)?;
    write_informational(out, &settings.informational_warnings)?;
    close_object(out)?;
    Ok(())
}
