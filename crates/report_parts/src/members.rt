//! Members of JSON objects.
ghost use Rattle.std.specs.Prelude.{◌≡◌, ◌++◌, ◌∷◌, [], map, option_map, OnOk};
ghost use Rattle.json.specs.Json.{boolean, string};
ghost use Rattle.json.specs.Token.{begin_array, begin_object, end_array, end_object, key};
ghost use Rattle.json.specs.Tree.{json_tokens};
ghost use Rattle.report_parts.specs.WrittenTokens.{WritesTokens};
ghost use Rattle.report_parts.specs.Values.{count, count_or_null, text_or_null, texts};

use audit_advisory::Requirement;
use json::Writer;
use std::alloc::AllocError;
use tame_names::{Items, Text};

/// The text of a requirement.
pub fn requirement_text(requirement: &Requirement) -> &str
    ensures { result.now ≡ requirement.now }
{
    requirement.text.as_str()
}

/// Opens an object.
pub fn open_object(out: &mut Writer) -> Result<(), AllocError>
    ensures { OnOk result (WritesTokens out.old out.new (begin_object ∷ [])) }
{
    out.begin_object()
}

/// Closes an object.
pub fn close_object(out: &mut Writer) -> Result<(), AllocError>
    ensures { OnOk result (WritesTokens out.old out.new (end_object ∷ [])) }
{
    out.end_object()
}

/// Opens an array.
pub fn open_array(out: &mut Writer) -> Result<(), AllocError>
    ensures { OnOk result (WritesTokens out.old out.new (begin_array ∷ [])) }
{
    out.begin_array()
}

/// Closes an array.
pub fn close_array(out: &mut Writer) -> Result<(), AllocError>
    ensures { OnOk result (WritesTokens out.old out.new (end_array ∷ [])) }
{
    out.end_array()
}

/// Writes a member that is true or false.
pub fn write_flag(out: &mut Writer, name: &str, flag: bool) -> Result<(), AllocError>
    ensures { OnOk result (WritesTokens out.old out.new
        (key name.now ∷ json_tokens (boolean flag))) }
{
    out.key(name)?;
    out.boolean(flag)
}

/// Writes the name of a member.
pub fn write_name(out: &mut Writer, name: &str) -> Result<(), AllocError>
    ensures { OnOk result (WritesTokens out.old out.new (key name.now ∷ [])) }
{
    out.key(name)
}

/// Writes a member that is a word.
pub fn write_str(out: &mut Writer, name: &str, word: &str) -> Result<(), AllocError>
    ensures { OnOk result (WritesTokens out.old out.new
        (key name.now ∷ json_tokens (string word.now))) }
{
    out.key(name)?;
    out.string(word)
}

/// Writes a member that is a string.
pub fn write_text(out: &mut Writer, name: &str, text: &Text) -> Result<(), AllocError>
    ensures { OnOk result (WritesTokens out.old out.new
        (key name.now ∷ json_tokens (string text.now))) }
{
    write_str(out, name, text.as_str())
}

/// Writes a member that is a string or null.
pub fn write_optional(out: &mut Writer, name: &str, text: &Option<Text>) -> Result<(), AllocError>
    ensures { OnOk result (WritesTokens out.old out.new
        (key name.now ∷ json_tokens (text_or_null text.now))) }
{
    out.key(name)?;
    match text {
        None => out.null(),
        Some(text) => out.string(text.as_str()),
    }
}

/// Writes a member that is a word or null.
pub fn write_word(out: &mut Writer, name: &str, word: Option<&str>) -> Result<(), AllocError>
    ensures { OnOk result (WritesTokens out.old out.new
        (key name.now ∷ json_tokens (text_or_null (option_map (λ w. w.now) word.entry)))) }
{
    out.key(name)?;
    match word {
        None => out.null(),
        Some(word) => out.string(word),
    }
}

/// Writes a member that is a number or null.
pub fn write_score(out: &mut Writer, name: &str, score: Option<u8>) -> Result<(), AllocError>
    ensures { OnOk result (WritesTokens out.old out.new
        (key name.now ∷ json_tokens (count_or_null score))) }
{
    out.key(name)?;
    match score {
        None => out.null(),
        Some(score) => out.u64(score as u64),
    }
}

/// Writes a member that is a number.
pub fn write_count(out: &mut Writer, name: &str, number: usize) -> Result<(), AllocError>
    ensures { OnOk result (WritesTokens out.old out.new
        (key name.now ∷ json_tokens (count number))) }
{
    out.key(name)?;
    out.u64(number as u64)
}

/// Writes a member that is an array of strings.
pub fn write_texts(out: &mut Writer, name: &str, items: &Items<Text>) -> Result<(), AllocError>
    ensures { OnOk result (WritesTokens out.old out.new
        (key name.now ∷ json_tokens (texts items.now))) }
{
    out.key(name)?;
    out.begin_array()?;
    for text in items.as_slice() {
        out.string(text.as_str())?;
    }
    out.end_array()
}

/// Writes a member that is an array of requirements.
pub fn write_requirements(
    out: &mut Writer,
    name: &str,
    requirements: &[Requirement],
) -> Result<(), AllocError>
    ensures { OnOk result (WritesTokens out.old out.new
        (key name.now ∷ json_tokens (texts requirements.now))) }
{
    out.key(name)?;
    out.begin_array()?;
    for requirement in requirements {
        out.string(requirement_text(requirement))?;
    }
    out.end_array()
}
