//! Errors as cargo-audit reports them: a kind and a text.
ghost use Rattle.std.specs.Prelude.{◌≡◌, IfOk};
ghost use Rattle.audit_fix.specs.Errors.{error_text, kind_text};

use std::alloc::Global;
use tame_names::{NoMemory, Text};

/// Kinds of errors.
#[derive(Clone, Copy, Debug, PartialEq, Eq)]
pub enum ErrorKind {
    /// In the settings.
    Config,
    /// In reading or writing.
    Io,
    /// A text that isn't what it must be.
    Parse,
    /// A version of an unknown form.
    Version,
    /// Any other.
    Other,
}

impl ErrorKind {
    /// An error of this kind, with this text.
    pub fn context(self, text: Text) -> Error
        ensures kind { result.kind ≡ self }
        ensures text { result.text ≡ text }
    {
        Error { kind: self, text }
    }

    /// The text of the kind.
    fn words(self) -> &'static str
        ensures { result.now ≡ kind_text self }
    {
        match self {
            ErrorKind::Config => "config error",
            ErrorKind::Io => "I/O error",
            ErrorKind::Parse => "parse error",
            ErrorKind::Version => "version error",
            ErrorKind::Other => "other error",
        }
    }
}

/// An error: its kind, and its text.
#[derive(Debug, Drop, PartialEq, Eq)]
pub struct Error {
    kind: ErrorKind,
    text: Text,
}

impl Error {
    /// The kind of the error.
    pub fn kind(&self) -> ErrorKind
        ensures { result ≡ self.now.kind }
    {
        self.kind
    }

    /// The text of the error.
    pub fn text(&self) -> &str
        ensures { result.now ≡ self.now.text }
    {
        self.text.as_str()
    }
}

/// An error as printed: its kind, `: `, and its text.
pub fn display_err_with_source(alloc: Global, error: &Error) -> Result<Text, NoMemory>
    ensures { IfOk result (λ text. text ≡ error_text error.now) }
{
    let text = format!(in alloc; "{}: {}", error.kind, error.text)?;
    Ok(Text::from_string(text))
}

// ---- printed

ghost use Rattle.std.specs.Prelude.{Some};

use std::fmt;

impl fmt::Display for ErrorKind {
    ghost output = { λ kind. Some (kind_text kind) };

    fn fmt<W: fmt::Write>(&self, f: &mut fmt::Formatter<W>) -> fmt::Result {
        f.pad(self.words())
    }
}
