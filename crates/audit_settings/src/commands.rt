//! The options of `audit`.
ghost use Rattle.std.specs.Prelude.{◌≡◌};
ghost use Rattle.audit_settings.specs.Commands.{no_option};

use audit_advisory::{DenyOption, OutputFormat};
use std::alloc::Global;
use tame_names::{Items, Text};

/// When the output would be coloured. Read but not used.
#[derive(Clone, Copy, Debug, PartialEq, Eq)]
pub enum Color {
    /// Always.
    Always,
    /// If the output is a terminal.
    Auto,
    /// Never.
    Never,
}

impl Default for Color {
    ghost use Rattle.audit_settings.specs.declared.commands.Color.TheVariants.{Auto};

    ghost is_default = { λ color. color ≡ Auto };

    fn default() -> Color {
        Color::Auto
    }
}

/// The options of `audit`, as given: an option that wasn't given is `None`, an empty list or
/// false. `color`, `stale` and `url` have no effect.
#[derive(Debug, Drop, PartialEq, Eq)]
pub struct AuditCommand {
    /// When the output would be coloured.
    pub color: Option<Color>,
    /// The folder of the advisories.
    pub db: Option<Text>,
    /// What makes the audit fail besides vulnerabilities.
    pub deny: Items<DenyOption>,
    /// The lockfile; `-` is standard input.
    pub file: Option<Text>,
    /// The ids of advisories that are left out.
    pub ignore: Items<Text>,
    /// No check for yanked versions.
    pub no_yanked: bool,
    /// The index isn't asked.
    pub no_fetch: bool,
    /// Read but not used.
    pub stale: bool,
    /// The architectures that count.
    pub target_arch: Items<Text>,
    /// The systems that count.
    pub target_os: Items<Text>,
    /// Read but not used.
    pub url: Option<Text>,
    /// No status lines, and no trees.
    pub quiet: bool,
    /// How the report is shown.
    pub output_format: Option<OutputFormat>,
    /// The report is shown as JSON, whatever `output_format` says.
    pub output_json: bool,
    /// Print only whether each package is yanked.
    pub verdicts: bool,
}

impl AuditCommand {
    /// No option given.
    pub fn new(alloc: Global) -> AuditCommand
        ensures { result ≡ no_option }
    {
        AuditCommand {
            color: None,
            db: None,
            deny: Items::new(alloc),
            file: None,
            ignore: Items::new(alloc),
            no_yanked: false,
            no_fetch: false,
            stale: false,
            target_arch: Items::new(alloc),
            target_os: Items::new(alloc),
            url: None,
            quiet: false,
            output_format: None,
            output_json: false,
            verdicts: false,
        }
    }
}
