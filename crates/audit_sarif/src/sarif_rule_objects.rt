//! The objects of the rules of a SARIF log.
ghost use Rattle.std.specs.Prelude.{◌≡◌, ◌++◌, ◌∷◌, [], codes, map, option_map, OnOk};
ghost use Rattle.json.specs.Json.{string};
ghost use Rattle.json.specs.Token.{key};
ghost use Rattle.json.specs.Tree.{json_tokens};
ghost use Rattle.report_parts.specs.WrittenTokens.{WritesTokens};
ghost use Rattle.audit_sarif.specs.SarifObjects.{level_object, level_word, member_of, message_object, precision_word, problem_severity, properties_object, rule_object, tag_word};
ghost use Rattle.report_parts.specs.Values.{listed_tokens, texts};

use crate::sarif_logs::{Level, MultiformatMessageString, Precision, Rule};
use crate::sarif_words::{level_word, precision_word, problem_severity, tag_word};
use json::Writer;
use report_parts::{
    close_array, close_object, open_array, open_object, write_name, write_str, write_text,
};
use std::alloc::AllocError;
use tame_names::Text;

/// Writes a member that is a text, if there is one.
fn write_stated(out: &mut Writer, name: &str, text: &Option<Text>) -> Result<(), AllocError>
    ensures { OnOk result (WritesTokens out.old out.new
        (listed_tokens (member_of name.now (option_map string text.now)))) }
{
    match text {
        None => Ok(()),
        Some(text) => write_text(out, name, text),
    }
}

/// Writes a text with its Markdown.
fn write_message(out: &mut Writer, message: &MultiformatMessageString) -> Result<(), AllocError>
    ensures { OnOk result (WritesTokens out.old out.new
        (json_tokens (message_object message.now))) }
{
    open_object(out)?;
    write_text(out, "text", &message.text)?;
    write_stated(out, "markdown", &message.markdown)?;
    close_object(out)?;
    Ok(())
}

/// Writes a member that is a text with its Markdown.
fn write_message_member(
    out: &mut Writer,
    name: &str,
    message: &MultiformatMessageString,
) -> Result<(), AllocError>
    ensures { OnOk result (WritesTokens out.old out.new
        (key name.now ∷ json_tokens (message_object message.now))) }
{
    write_name(out, name)?;
    write_message(out, message)
}

/// Writes a member that is a text with its Markdown, if there is one.
fn write_stated_message(
    out: &mut Writer,
    name: &str,
    message: &Option<MultiformatMessageString>,
) -> Result<(), AllocError>
    ensures { OnOk result (WritesTokens out.old out.new
        (listed_tokens (member_of name.now (option_map message_object message.now)))) }
{
    match message {
        None => Ok(()),
        Some(message) => write_message_member(out, name, message),
    }
}

/// Writes the member that is a level.
pub fn write_level(out: &mut Writer, level: Level) -> Result<(), AllocError>
    ensures { OnOk result (WritesTokens out.old out.new
        (key (codes "level") ∷ json_tokens (string (level_word level)))) }
{
    write_str(out, "level", level_word(level))
}

fn write_configuration(out: &mut Writer, level: Level) -> Result<(), AllocError>
    ensures { OnOk result (WritesTokens out.old out.new (json_tokens (level_object level))) }
{
    open_object(out)?;
    write_level(out, level)?;
    close_object(out)?;
    Ok(())
}

/// Writes a text.
fn write_item(out: &mut Writer, text: &str) -> Result<(), AllocError>
    ensures { OnOk result (WritesTokens out.old out.new (json_tokens (string text.now))) }
{
    out.string(text)
}

fn write_tag(out: &mut Writer, level: Level) -> Result<(), AllocError>
    ensures { OnOk result (WritesTokens out.old out.new (json_tokens (string (tag_word level)))) }
{
    write_item(out, tag_word(level))
}

fn write_tags(out: &mut Writer, level: Level) -> Result<(), AllocError>
    ensures { OnOk result (WritesTokens out.old out.new
        (json_tokens (texts (codes "security" ∷ tag_word level ∷ [])))) }
{
    open_array(out)?;
    write_item(out, "security")?;
    write_tag(out, level)?;
    close_array(out)?;
    Ok(())
}

fn write_precision(out: &mut Writer, precision: Precision) -> Result<(), AllocError>
    ensures { OnOk result (WritesTokens out.old out.new
        (key (codes "precision") ∷ json_tokens (string (precision_word precision)))) }
{
    write_str(out, "precision", precision_word(precision))
}

/// Writes a member that is a word, if there is one.
fn write_word_if(out: &mut Writer, name: &str, word: Option<&str>) -> Result<(), AllocError>
    ensures { OnOk result (WritesTokens out.old out.new (listed_tokens
        (member_of name.now (option_map string (option_map (λ w. w.now) word.entry))))) }
{
    match word {
        None => Ok(()),
        Some(word) => write_str(out, name, word),
    }
}

/// Writes the member that the rules of warnings have.
fn write_problem_severity(out: &mut Writer, level: Level) -> Result<(), AllocError>
    ensures { OnOk result (WritesTokens out.old out.new (listed_tokens
        (member_of (codes "problem.severity") (option_map string (problem_severity level))))) }
{
    write_word_if(out, "problem.severity", problem_severity(level))
}

fn write_properties(out: &mut Writer, rule: &Rule) -> Result<(), AllocError>
    ensures { OnOk result (WritesTokens out.old out.new
        (json_tokens (properties_object rule.now))) }
{
    open_object(out)?;
    write_name(out, "tags")?;
    write_tags(out, rule.level)?;
    write_precision(out, rule.precision)?;
    write_problem_severity(out, rule.level)?;
    write_stated(out, "security-severity", &rule.security_severity)?;
    close_object(out)?;
    Ok(())
}

/// Writes a rule.
pub fn write_rule(out: &mut Writer, rule: &Rule) -> Result<(), AllocError>
    ensures { OnOk result (WritesTokens out.old out.new (json_tokens (rule_object rule.now))) }
{
    open_object(out)?;
    write_text(out, "id", &rule.id)?;
    write_text(out, "name", &rule.id)?;
    write_message_member(out, "shortDescription", &rule.short_description)?;
    write_stated_message(out, "fullDescription", &rule.full_description)?;
    write_name(out, "defaultConfiguration")?;
    write_configuration(out, rule.level)?;
    write_stated_message(out, "help", &rule.help)?;
    write_name(out, "properties")?;
    write_properties(out, rule)?;
    close_object(out)?;
    Ok(())
}
