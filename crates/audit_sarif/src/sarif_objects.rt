//! The objects of the results of a SARIF log, and the log as one line of JSON.
ghost use Rattle.std.specs.Prelude.{◌≡◌, ◌++◌, ◌∷◌, [], codes, map, Some, IfOk, OnOk};
ghost use Rattle.std.specs.List.{flat_map};
ghost use Rattle.json.specs.Json.{document, string};
ghost use Rattle.json.specs.Token.{key};
ghost use Rattle.json.specs.Tree.{json_tokens};
ghost use Rattle.report_parts.specs.WrittenTokens.{WritesTokens};
ghost use Rattle.audit_sarif.specs.SarifObjects.{LogReadsBack, driver_object, location_object, result_object, rule_object, run_object, sarif_object};
ghost use Rattle.audit_sarif.specs.SarifObjects as spec;
ghost use Rattle.report_parts.specs.Values.{array_of, count, json_text, object_of};

use crate::sarif_logs::{Rule, Run, SarifLog, SarifResult};
use crate::sarif_rule_objects::{write_level, write_rule};
use audit_advisory::VERSION;
use json::Writer;
use report_parts::{
    close_array, close_object, open_array, open_object, write_count, write_name, write_str,
    write_text,
};
use std::alloc::{AllocError, Global};
use tame_names::Text;

/// Writes an object of one member that is a text.
fn write_only(out: &mut Writer, name: &str, text: &Text) -> Result<(), AllocError>
    ensures { OnOk result (WritesTokens out.old out.new
        (json_tokens (object_of ((name.now, string text.now) ∷ [])))) }
{
    open_object(out)?;
    write_text(out, name, text)?;
    close_object(out)?;
    Ok(())
}

/// Writes the first line of a file.
fn write_region(out: &mut Writer) -> Result<(), AllocError>
    ensures { OnOk result (WritesTokens out.old out.new
        (json_tokens (object_of ((codes "startLine", count 1) ∷ [])))) }
{
    open_object(out)?;
    write_count(out, "startLine", 1)?;
    close_object(out)?;
    Ok(())
}

/// Writes a place in a file.
fn write_physical(out: &mut Writer, uri: &Text) -> Result<(), AllocError>
    ensures { OnOk result (WritesTokens out.old out.new (json_tokens (object_of (
        (codes "artifactLocation", object_of ((codes "uri", string uri.now) ∷ [])) ∷
        (codes "region", object_of ((codes "startLine", count 1) ∷ [])) ∷ [])))) }
{
    open_object(out)?;
    write_name(out, "artifactLocation")?;
    write_only(out, "uri", uri)?;
    write_name(out, "region")?;
    write_region(out)?;
    close_object(out)?;
    Ok(())
}

fn write_location(out: &mut Writer, uri: &Text) -> Result<(), AllocError>
    ensures { OnOk result (WritesTokens out.old out.new (json_tokens (location_object uri.now))) }
{
    open_object(out)?;
    write_name(out, "physicalLocation")?;
    write_physical(out, uri)?;
    close_object(out)?;
    Ok(())
}

fn write_locations(out: &mut Writer, uri: &Text) -> Result<(), AllocError>
    ensures { OnOk result (WritesTokens out.old out.new
        (json_tokens (array_of (location_object uri.now ∷ [])))) }
{
    open_array(out)?;
    write_location(out, uri)?;
    close_array(out)?;
    Ok(())
}

/// Writes a result.
fn write_result(out: &mut Writer, told: &SarifResult) -> Result<(), AllocError>
    ensures { OnOk result (WritesTokens out.old out.new (json_tokens (result_object told.now))) }
{
    open_object(out)?;
    write_text(out, "ruleId", &told.rule_id)?;
    write_name(out, "message")?;
    write_only(out, "text", &told.message)?;
    write_level(out, told.level)?;
    write_name(out, "locations")?;
    write_locations(out, &told.uri)?;
    write_name(out, "partialFingerprints")?;
    write_only(out, "cargo-audit/advisory-fingerprint", &told.fingerprint)?;
    close_object(out)?;
    Ok(())
}

fn write_results(out: &mut Writer, results: &[SarifResult]) -> Result<(), AllocError>
    ensures { OnOk result (WritesTokens out.old out.new
        (flat_map json_tokens (map result_object results.now))) }
{
    for told in results {
        write_result(out, told)?;
    }
    Ok(())
}

fn write_result_list(out: &mut Writer, run: &Run) -> Result<(), AllocError>
    ensures { OnOk result (WritesTokens out.old out.new
        (json_tokens (array_of (map result_object run.now.results)))) }
{
    open_array(out)?;
    write_results(out, run.results.as_slice())?;
    close_array(out)?;
    Ok(())
}

fn write_rules(out: &mut Writer, rules: &[Rule]) -> Result<(), AllocError>
    ensures { OnOk result (WritesTokens out.old out.new
        (flat_map json_tokens (map rule_object rules.now))) }
{
    for rule in rules {
        write_rule(out, rule)?;
    }
    Ok(())
}

fn write_rule_list(out: &mut Writer, run: &Run) -> Result<(), AllocError>
    ensures { OnOk result (WritesTokens out.old out.new
        (json_tokens (array_of (map rule_object run.now.rules)))) }
{
    open_array(out)?;
    write_rules(out, run.rules.as_slice())?;
    close_array(out)?;
    Ok(())
}

/// Writes what made the results.
fn write_driver(out: &mut Writer, run: &Run) -> Result<(), AllocError>
    ensures { OnOk result (WritesTokens out.old out.new
        (json_tokens (driver_object run.now.rules))) }
{
    open_object(out)?;
    write_str(out, "name", "cargo-audit")?;
    write_str(out, "version", VERSION)?;
    write_str(out, "semanticVersion", VERSION)?;
    write_name(out, "rules")?;
    write_rule_list(out, run)?;
    close_object(out)?;
    Ok(())
}

fn write_tool(out: &mut Writer, run: &Run) -> Result<(), AllocError>
    ensures { OnOk result (WritesTokens out.old out.new
        (json_tokens (object_of ((codes "driver", driver_object run.now.rules) ∷ [])))) }
{
    open_object(out)?;
    write_name(out, "driver")?;
    write_driver(out, run)?;
    close_object(out)?;
    Ok(())
}

/// Writes a run.
fn write_run(out: &mut Writer, run: &Run) -> Result<(), AllocError>
    ensures { OnOk result (WritesTokens out.old out.new (json_tokens (run_object run.now))) }
{
    open_object(out)?;
    write_name(out, "tool")?;
    write_tool(out, run)?;
    write_name(out, "results")?;
    write_result_list(out, run)?;
    close_object(out)?;
    Ok(())
}

fn write_runs(out: &mut Writer, run: &Run) -> Result<(), AllocError>
    ensures { OnOk result (WritesTokens out.old out.new
        (json_tokens (array_of (run_object run.now ∷ [])))) }
{
    open_array(out)?;
    write_run(out, run)?;
    close_array(out)?;
    Ok(())
}

/// Writes a log.
fn write_log(out: &mut Writer, log: &SarifLog) -> Result<(), AllocError>
    ensures { OnOk result (WritesTokens out.old out.new (json_tokens (sarif_object log.now))) }
{
    open_object(out)?;
    write_str(
        out,
        "$schema",
        "https://json.schemastore.org/sarif-2.1.0.json",
    )?;
    write_str(out, "version", "2.1.0")?;
    write_name(out, "runs")?;
    write_runs(out, &log.run)?;
    close_object(out)?;
    Ok(())
}

/// A log as JSON.
fn sarif_text(alloc: Global, log: &SarifLog) -> Result<Vec<u8>, AllocError>
    ensures text { IfOk result (λ text. text.items ≡ json_text (sarif_object log.now)) }
    ensures reads_back { IfOk result (λ text. document text.items
        ≡ Some (sarif_object log.now)) }
{
    let mut out = Writer::new(Vec::new(alloc));
    write_log(&mut out, log)?;
    Ok(out.into_inner())
}

/// A log as one line of JSON.
#[tactic(auto, unfolding(crate::specs::SarifObjects::sarif_line))]
pub fn sarif_line(alloc: Global, log: &SarifLog) -> Result<Vec<u8>, AllocError>
    ensures line { IfOk result (λ line. line.items ≡ spec.sarif_line log.now) }
    ensures reads_back { OnOk result (LogReadsBack log.now) }
{
    let mut line = sarif_text(alloc, log)?;
    line.push(b'\n')?;
    Ok(line)
}
