//! Findings and their lines.
ghost use Rattle.std.specs.Prelude.{◌≡◌, ◌++◌, IfOk, OnOk};
ghost use Rattle.std.specs.Str.{IsUtf8};
ghost use Rattle.json.specs.Tree.{json_tokens};
ghost use Rattle.known_findings.specs.Findings.{finding_tree, kind_of, kind_word, line};

use json::Writer;
use std::alloc::{AllocError, Global};
use tame_names::{NoMemory, Text};

/// What a finding says about a package.
#[derive(Clone, Copy, Debug, PartialEq, Eq)]
pub enum FindingKind {
    /// An advisory says that the package is vulnerable.
    Vulnerability,
    /// An advisory gives a notice.
    Notice,
    /// An advisory says that nobody maintains the package.
    Unmaintained,
    /// An advisory says that the package is unsound.
    Unsound,
    /// The version is yanked.
    Yanked,
}

/// What an audit found about a package.
#[derive(Debug, Drop, PartialEq, Eq)]
pub struct Finding {
    /// What it says.
    pub kind: FindingKind,
    /// The advisory's id; empty for a yanked package.
    pub id: Text,
    /// The package's name.
    pub name: Text,
    /// The package's version.
    pub version: Text,
    /// The package's source; empty if it has none.
    pub source: Text,
}

impl FindingKind {
    /// The kind's word, as it is in a line.
    pub fn word(self) -> &'static str
        ensures { result.now ≡ kind_word self }
    {
        match self {
            FindingKind::Vulnerability => "vulnerability",
            FindingKind::Notice => "notice",
            FindingKind::Unmaintained => "unmaintained",
            FindingKind::Unsound => "unsound",
            FindingKind::Yanked => "yanked",
        }
    }

    /// The kind of a word; nothing for any other text.
    pub fn from_word(word: &str) -> Option<FindingKind>
        ensures { result ≡ kind_of word.now }
    {
        if word == "vulnerability" {
            Some(FindingKind::Vulnerability)
        } else if word == "notice" {
            Some(FindingKind::Notice)
        } else if word == "unmaintained" {
            Some(FindingKind::Unmaintained)
        } else if word == "unsound" {
            Some(FindingKind::Unsound)
        } else if word == "yanked" {
            Some(FindingKind::Yanked)
        } else {
            None
        }
    }
}

impl Finding {
    fn write(&self, out: &mut Writer) -> Result<(), AllocError>
        ensures before { out.new.before ≡ out.old.before }
        ensures tokens { OnOk result (out.new.tokens
            ≡ out.old.tokens ++ json_tokens (finding_tree self.now)) }
    {
        out.begin_array()?;
        out.string(self.kind.word())?;
        out.string(self.id.as_str())?;
        out.string(self.name.as_str())?;
        out.string(self.version.as_str())?;
        out.string(self.source.as_str())?;
        out.end_array()
    }

    #[tactic(auto, unfolding(crate::specs::Findings::line))]
    fn line_bytes(&self, alloc: Global) -> Result<Vec<u8>, AllocError>
        ensures line { IfOk result (λ bytes. bytes.items ≡ line self.now) }
        ensures utf8 { IfOk result (λ bytes. IsUtf8 bytes.items) }
    {
        let mut out = Writer::new(Vec::new(alloc));
        self.write(&mut out)?;
        Ok(out.into_inner())
    }

    /// The finding's line, without a newline.
    pub fn line(&self, alloc: Global) -> Result<Text, NoMemory>
        ensures { IfOk result (λ text. text ≡ line self.now) }
    {
        match String::from_utf8(self.line_bytes(alloc)?) {
            Ok(text) => Ok(Text::from_string(text)),
            Err(_) => unreachable!(),
        }
    }
}
