//! What an audit denies, and how its report is shown.
ghost use Rattle.std.specs.Prelude.{◌≡◌, IfOk, IsTrue, option_map};
ghost use Rattle.std.specs.Result.{result_ok};
ghost use Rattle.audit_advisory.specs.Outputs.{all_deny_options, deny_option_of, output_format_of, warning_kinds_of};
ghost use Rattle.audit_advisory.specs.Outputs as spec;

use std::alloc::Global;
use std::str::FromStr;
use tame_names::{Items, NoMemory};

/// The version of `cargo-audit` that is ported; texts and reports name it.
pub const VERSION: &str = "0.22.2";

/// What a warning is about.
#[derive(Clone, Copy, Debug, PartialEq, Eq)]
pub enum WarningKind {
    /// Something to note.
    Notice,
    /// Nobody maintains the package.
    Unmaintained,
    /// The package is unsound.
    Unsound,
    /// The version is yanked.
    Yanked,
}

/// What makes an audit fail besides vulnerabilities, in this order.
#[derive(Clone, Copy, Debug, PartialEq, Eq, PartialOrd, Ord, Hash)]
pub enum DenyOption {
    /// Every kind of warning but notices, and advisories on the auditor itself.
    Warnings,
    /// Warnings about packages that nobody maintains.
    Unmaintained,
    /// Warnings about unsound packages.
    Unsound,
    /// Warnings about yanked versions.
    Yanked,
}

/// How a report is shown.
#[derive(Clone, Copy, Debug, PartialEq, Eq)]
pub enum OutputFormat {
    /// One JSON object.
    Json,
    /// A SARIF log.
    Sarif,
    /// Lines for a terminal.
    Terminal,
}

impl Default for OutputFormat {
    ghost use Rattle.audit_advisory.specs.declared.outputs.OutputFormat.TheVariants.{Terminal};

    ghost is_default = { λ format. format ≡ Terminal };

    fn default() -> OutputFormat {
        OutputFormat::Terminal
    }
}

/// What is denied, and how a report is shown.
#[derive(Debug, Drop, PartialEq, Eq)]
pub struct OutputConfig {
    /// What makes an audit fail besides vulnerabilities.
    pub deny: Items<DenyOption>,
    /// How a report is shown.
    pub format: OutputFormat,
    /// No status lines.
    pub quiet: bool,
    /// The inverse dependency tree of each package that is reported.
    pub show_tree: bool,
}

impl DenyOption {
    /// All four, in their order.
    pub fn all(alloc: Global) -> Result<Items<DenyOption>, NoMemory>
        ensures { IfOk result (λ all. all ≡ all_deny_options) }
    {
        let mut all = Items::new(alloc);
        all.add(DenyOption::Warnings)?;
        all.add(DenyOption::Unmaintained)?;
        all.add(DenyOption::Unsound)?;
        all.add(DenyOption::Yanked)?;
        Ok(all)
    }

    /// The option of a word in lower case; none for any other string.
    pub fn from_word(word: &str) -> Option<DenyOption>
        ensures { result ≡ deny_option_of word.now }
    {
        if word == "warnings" {
            Some(DenyOption::Warnings)
        } else if word == "unmaintained" {
            Some(DenyOption::Unmaintained)
        } else if word == "unsound" {
            Some(DenyOption::Unsound)
        } else if word == "yanked" {
            Some(DenyOption::Yanked)
        } else {
            None
        }
    }

    /// The kinds of warning that it denies.
    pub fn get_warning_kind(self) -> &'static [WarningKind]
        ensures { result.now ≡ warning_kinds_of self }
    {
        match self {
            DenyOption::Warnings => &[
                WarningKind::Unmaintained,
                WarningKind::Unsound,
                WarningKind::Yanked,
            ],
            DenyOption::Unmaintained => &[WarningKind::Unmaintained],
            DenyOption::Unsound => &[WarningKind::Unsound],
            DenyOption::Yanked => &[WarningKind::Yanked],
        }
    }
}

impl OutputFormat {
    /// The format of a word in lower case; none for any other string.
    pub fn from_word(word: &str) -> Option<OutputFormat>
        ensures { result ≡ output_format_of word.now }
    {
        if word == "json" {
            Some(OutputFormat::Json)
        } else if word == "sarif" {
            Some(OutputFormat::Sarif)
        } else if word == "terminal" {
            Some(OutputFormat::Terminal)
        } else {
            None
        }
    }
}

/// A word names no option, or no format.
#[derive(Clone, Copy, Debug, PartialEq, Eq)]
pub struct UnknownWord;

impl FromStr for DenyOption {
    type Err = UnknownWord;

    ghost from_str_gives = { λ text r. result_ok r ≡ deny_option_of text };

    fn from_str(text: &str) -> Result<DenyOption, UnknownWord> {
        DenyOption::from_word(text).ok_or(UnknownWord)
    }
}

impl FromStr for OutputFormat {
    type Err = UnknownWord;

    ghost from_str_gives = { λ text r. result_ok r ≡ output_format_of text };

    fn from_str(text: &str) -> Result<OutputFormat, UnknownWord> {
        OutputFormat::from_word(text).ok_or(UnknownWord)
    }
}

impl OutputConfig {
    /// Whether status lines are left out: if that is asked for, and in both forms for machines.
    pub fn is_quiet(&self) -> bool
        ensures { result ≡ spec.is_quiet self.now }
    {
        match self.format {
            OutputFormat::Json | OutputFormat::Sarif => true,
            OutputFormat::Terminal => self.quiet,
        }
    }
}
