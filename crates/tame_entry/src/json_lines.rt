//! The body of an index file, cut into lines.
ghost use Rattle.std.specs.Prelude.{◌≡◌, List, ℕ, IfOk, IfErr, Some, None, position, not};
ghost use Rattle.tame_entry.specs.Lines.{invalid};
ghost use Rattle.tame_entry.specs.Lines as spec;
ghost use Rattle.tame_records.specs.Lines.{trimmed};
ghost use Rattle.tame_records.specs.Lines as lines_spec;
ghost use Rattle.tame_names.specs.Pieces.{pieces};

use tame_names::{InvalidJsonLines, SplitIter, split};
use tame_records::trimmed;

/// Lines that each look like a JSON object: two bytes or more, the first `{` and the last `}`.
/// There is at least one line.
#[derive(Clone, Copy)]
pub struct JsonLines<'r> {
    text: &'r [u8],
}

fn is_object_line(line: &[u8]) -> bool
    ensures { result ≡ spec.is_object_line line.now }
{
    line.len() >= 2 && line[0] == b'{' && line[line.len() - 1] == b'}'
}

/// The first line that doesn't look like an object.
fn first_bad_line(text: &[u8]) -> Option<usize>
    ensures { result ≡ position (λ line. not (spec.is_object_line line)) (pieces 10 text.now) }
{
    split(text, b'\n').position(|line| !is_object_line(line))
}

impl<'r> JsonLines<'r> {
    ghost use Rattle.tame_entry.specs.JsonLines.{lines_of};

    /// The lines of a body. Newlines at its end are dropped; a body without a line, or with a line
    /// that doesn't look like a JSON object, is refused.
    pub fn validate(re: &'r [u8]) -> Result<JsonLines<'r>, InvalidJsonLines>
        ensures ok { IfOk result (λ json_lines. (lines_of json_lines ≡ lines_spec.lines re.now)
            × (invalid re.now ≡ None)) }
        ensures refused { IfErr result (λ e. invalid re.now ≡ Some e) }
    {
        let text = trimmed(re);
        if text.is_empty() {
            return Err(InvalidJsonLines::Empty);
        }
        match first_bad_line(text) {
            Some(number) => Err(InvalidJsonLines::NotJson(number as u64)),
            None => Ok(JsonLines { text }),
        }
    }

    /// The lines, from front to back.
    pub fn lines(&self) -> SplitIter<'r>
        ensures { result ≡ lines_of self.now }
    {
        split(self.text, b'\n')
    }
}
