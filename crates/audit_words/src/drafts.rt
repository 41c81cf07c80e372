//! A command while its arguments are read.
ghost use Rattle.std.specs.Prelude.{◌≡◌, ◌≢◌, ◌<◌, length, drop, IfSome, IfErr, OnOk, Ok, Err, option_map};
ghost use Rattle.audit_words.specs.Options.{by_letter, options};
ghost use Rattle.audit_words.specs.Reading.{Refuses, alone, first_meaning, long_given, or_wrong, read_dashed, start};
ghost use Rattle.audit_words.specs.Reading as spec;

use crate::commands::{BinCommand, FixCommand};
use crate::options::{Flag, Listed, Meaning, Phase, Single, by_letter, by_long};
use crate::values::{after, color_of, cut_equals, number, unless_empty, without_equals};
use audit_advisory::{DenyOption, OutputFormat};
use audit_settings::AuditCommand;
use std::alloc::Global;
use tame_names::{Items, NoMemory, Text};

/// What ends the reading before the words end.
#[derive(Clone, Copy, Debug, PartialEq, Eq)]
pub enum Stop {
    /// The help text is asked for.
    Help,
    /// The version is asked for.
    Version,
    /// The word breaks a rule, or the words end too early.
    Wrong,
    /// The option before has no value.
    Missing,
    /// Out of memory.
    NoMemory,
}

impl From<NoMemory> for Stop {
    ghost use Rattle.audit_words.specs.declared.drafts.Stop.TheVariants.{NoMemory as no_memory};

    ghost from_gives = { λ _ e. e ≡ no_memory };

    fn from(_: NoMemory) -> Stop {
        Stop::NoMemory
    }
}

/// What the words that were read so far say.
#[derive(Debug, Drop)]
pub struct Draft {
    /// The part of the arguments that is being read.
    pub phase: Phase,
    /// The option that the next word is the value of, if there is one.
    pub awaited: Option<Meaning>,
    /// Whether `--verbose` was given.
    pub verbose: bool,
    /// The options of `audit` so far.
    pub audit: AuditCommand,
    /// The path of `--baseline`.
    pub baseline: Option<Text>,
    /// The path of `--write-baseline`.
    pub write_baseline: Option<Text>,
    /// The options of `fix` so far.
    pub fix: FixCommand,
    /// The options and the paths of `bin` so far.
    pub bin: BinCommand,
    /// The folders of `vendor`, as far as they are read.
    pub vendor_crates: Option<Text>,
    /// The second of these folders.
    pub vendor_to: Option<Text>,
}

/// Whether a word is an option: it begins with `-` and isn't `-`.
fn is_option(word: &str) -> bool
    ensures { result ≡ spec.is_option word.now }
{
    after(word, "-").is_some() && word != "-"
}

/// The meaning of the first letter, and what is left after it.
fn first_letter(phase: Phase, letters: &str) -> (Option<Meaning>, &str)
    requires { 0 < length letters.now }
    ensures meaning { result.0 ≡ first_meaning phase letters.now }
    ensures rest { IfSome result.0 (λ _. result.1.now ≡ drop 1 letters.now) }
{
    match by_letter(phase, letters.as_bytes()[0]) {
        None => (None, letters),
        Some(meaning) => (Some(meaning), &letters[1..]),
    }
}

impl Draft {
    /// Nothing read.
    pub fn new(alloc: Global) -> Draft
        ensures { result ≡ start }
    {
        Draft {
            phase: Phase::Before,
            awaited: None,
            verbose: false,
            audit: AuditCommand::new(alloc),
            baseline: None,
            write_baseline: None,
            fix: FixCommand {
                file: None,
                dry_run: false,
            },
            bin: BinCommand {
                max_binary_size: None,
                audit_data_size_limit: None,
                binary_paths: Items::new(alloc),
            },
            vendor_crates: None,
            vendor_to: None,
        }
    }

    fn set_flag(&mut self, flag: Flag) -> Result<(), Stop>
        ensures ok { OnOk result (spec.set_flag flag self.old ≡ Ok self.new) }
        ensures refused { IfErr result (λ e. spec.set_flag flag self.old ≡ Err e) }
    {
        match flag {
            Flag::Help => return Err(Stop::Help),
            Flag::Version => return Err(Stop::Version),
            Flag::Verbose => self.verbose = true,
            Flag::NoYanked => self.audit.no_yanked = true,
            Flag::NoFetch => self.audit.no_fetch = true,
            Flag::Stale => self.audit.stale = true,
            Flag::Quiet => self.audit.quiet = true,
            Flag::Json => self.audit.output_json = true,
            Flag::Verdicts => self.audit.verdicts = true,
            Flag::DryRun => self.fix.dry_run = true,
            Flag::PathsFollow => self.phase = Phase::Paths,
        }
        Ok(())
    }

    /// Whether no option of `audit` was given.
    pub fn is_bare(&self) -> bool
        ensures { result ≡ spec.is_bare self.now.audit }
    {
        let audit = &self.audit;
        audit.color.is_none()
            && audit.db.is_none()
            && audit.deny.as_slice().is_empty()
            && audit.file.is_none()
            && audit.ignore.as_slice().is_empty()
            && !audit.no_yanked
            && !audit.no_fetch
            && !audit.stale
            && audit.target_arch.as_slice().is_empty()
            && audit.target_os.as_slice().is_empty()
            && audit.url.is_none()
            && !audit.quiet
            && audit.output_format.is_none()
            && !audit.output_json
            && !audit.verdicts
    }

    /// Whether `--baseline` or `--write-baseline` was met.
    pub fn has_baseline(&self) -> bool
        ensures { result ≡ spec.has_baseline self.now }
    {
        self.baseline.is_some() || self.write_baseline.is_some()
    }

    /// Whether an option was met that replaces the report.
    fn replaces_report(&self) -> bool
        ensures { result ≡ spec.replaces_report self.now }
    {
        self.audit.verdicts || self.has_baseline()
    }

    fn has_flag(&self, flag: Flag) -> bool
        ensures { result ≡ spec.has_flag flag self.now }
    {
        match flag {
            Flag::Help | Flag::Version | Flag::PathsFollow => false,
            Flag::Verbose => self.verbose,
            Flag::NoYanked => self.audit.no_yanked,
            Flag::NoFetch => self.audit.no_fetch,
            Flag::Stale => self.audit.stale,
            Flag::Quiet => self.audit.quiet,
            Flag::Json => self.audit.output_json,
            Flag::Verdicts => self.replaces_report(),
            Flag::DryRun => self.fix.dry_run,
        }
    }

    fn set_single(&mut self, alloc: Global, single: Single, value: &str) -> Result<(), Stop>
        ensures ok { OnOk result (spec.set_single single value.now self.old ≡ Some self.new) }
        ensures refused { Refuses result (or_wrong (spec.set_single single value.now self.old)) }
    {
        match single {
            Single::Color => self.audit.color = Some(color_of(value).ok_or(Stop::Wrong)?),
            Single::Db => self.audit.db = Some(Text::of(alloc, value)?),
            Single::File => self.audit.file = Some(Text::of(alloc, value)?),
            Single::Url => self.audit.url = Some(Text::of(alloc, value)?),
            Single::Format => self.audit.output_format = Some(OutputFormat::from_word(value).ok_or(
                Stop::Wrong,
            )?),
            Single::Baseline => self.baseline = Some(Text::of(alloc, value)?),
            Single::WriteBaseline => self.write_baseline = Some(Text::of(alloc, value)?),
            Single::FixFile => self.fix.file = Some(Text::of(alloc, value)?),
            Single::MaxBinarySize => self.bin.max_binary_size = Some(number(value).ok_or(
                Stop::Wrong,
            )?),
            Single::AuditDataSizeLimit => {
                self.bin.audit_data_size_limit = Some(number(value).ok_or(Stop::Wrong)?);
            }
        }
        Ok(())
    }

    fn has_single(&self, single: Single) -> bool
        ensures { result ≡ spec.has_single single self.now }
    {
        match single {
            Single::Color => self.audit.color.is_some(),
            Single::Db => self.audit.db.is_some(),
            Single::File => self.audit.file.is_some(),
            Single::Url => self.audit.url.is_some(),
            Single::Format => self.audit.output_format.is_some(),
            Single::Baseline | Single::WriteBaseline => self.replaces_report(),
            Single::FixFile => self.fix.file.is_some(),
            Single::MaxBinarySize => self.bin.max_binary_size.is_some(),
            Single::AuditDataSizeLimit => self.bin.audit_data_size_limit.is_some(),
        }
    }

    fn add_listed(&mut self, alloc: Global, listed: Listed, value: &str) -> Result<(), Stop>
        ensures ok { OnOk result (spec.add_listed listed value.now self.old ≡ Some self.new) }
        ensures refused { Refuses result (or_wrong (spec.add_listed listed value.now self.old)) }
    {
        if let Listed::Deny = listed {
            self.audit
                .deny
                .add(DenyOption::from_word(value).ok_or(Stop::Wrong)?)?;
            return Ok(());
        }
        let text = Text::of(alloc, unless_empty(value).ok_or(Stop::Wrong)?)?;
        match listed {
            Listed::Deny => {}
            Listed::Ignore => self.audit.ignore.add(text)?,
            Listed::TargetArch => self.audit.target_arch.add(text)?,
            Listed::TargetOs => self.audit.target_os.add(text)?,
        }
        Ok(())
    }

    fn repeats(&self, meaning: Meaning) -> bool
        ensures { result ≡ spec.repeats meaning self.now }
    {
        match meaning {
            Meaning::Alone(flag) => self.has_flag(flag),
            Meaning::Once(single) => self.has_single(single),
            Meaning::Many(_) => false,
        }
    }

    /// The option, if there is one and it may be given after what was met.
    fn allowed(&self, known: Option<Meaning>) -> Result<Meaning, Stop>
        ensures { result ≡ spec.allowed known self.now }
    {
        match known {
            None => Err(Stop::Wrong),
            Some(meaning) => {
                if self.repeats(meaning) {
                    Err(Stop::Wrong)
                } else {
                    Ok(meaning)
                }
            }
        }
    }

    /// An option without a value in its word.
    fn take_alone(&mut self, meaning: Meaning) -> Result<(), Stop>
        ensures ok { OnOk result (alone meaning self.old ≡ Ok self.new) }
        ensures refused { IfErr result (λ e. alone meaning self.old ≡ Err e) }
    {
        match meaning {
            Meaning::Alone(flag) => self.set_flag(flag),
            Meaning::Once(_) | Meaning::Many(_) => {
                self.awaited = Some(meaning);
                Ok(())
            }
        }
    }

    /// An option with a value.
    fn set_value(&mut self, alloc: Global, meaning: Meaning, value: &str) -> Result<(), Stop>
        ensures ok { OnOk result (spec.set_value meaning value.now self.old ≡ Ok self.new) }
        ensures refused { Refuses result (spec.set_value meaning value.now self.old) }
    {
        match meaning {
            Meaning::Alone(_) => Err(Stop::Wrong),
            Meaning::Once(single) => self.set_single(alloc, single, value),
            Meaning::Many(listed) => self.add_listed(alloc, listed, value),
        }
    }

    /// `--name` or `--name=value`, after its dashes.
    fn read_long(&mut self, alloc: Global, text: &str) -> Result<(), Stop>
        ensures ok { OnOk result (spec.read_long text.now self.old ≡ Ok self.new) }
        ensures refused { Refuses result (spec.read_long text.now self.old) }
    {
        let (name, value) = cut_equals(text);
        let meaning = self.allowed(by_long(self.phase, name))?;
        match value {
            None => self.take_alone(meaning),
            Some(value) => self.set_value(alloc, meaning, value),
        }
    }

    /// The letters after a dash.
    #[tactic(auto, using(crate::proofs::Letters::letters_step))]
    fn read_letters(&mut self, alloc: Global, letters: &str) -> Result<(), Stop>
        ensures ok { OnOk result (spec.read_letters letters.now self.old ≡ Ok self.new) }
        ensures refused { Refuses result (spec.read_letters letters.now self.old) }
    {
        let mut left = letters;
        while !left.is_empty() {
            let (known, rest) = first_letter(self.phase, left);
            let meaning = self.allowed(known)?;
            if !meaning.is_flag() && !rest.is_empty() {
                return self.set_value(alloc, meaning, without_equals(rest));
            }
            self.take_alone(meaning)?;
            left = rest;
        }
        Ok(())
    }

    /// A word that is an option.
    fn read_option(&mut self, alloc: Global, word: &str) -> Result<(), Stop>
        ensures ok { OnOk result (spec.read_option word.now self.old ≡ Ok self.new) }
        ensures refused { Refuses result (spec.read_option word.now self.old) }
    {
        if let Some(text) = after(word, "--") {
            return self.read_long(alloc, text);
        }
        match after(word, "-") {
            Some(letters) => self.read_letters(alloc, letters),
            None => Err(Stop::Wrong),
        }
    }

    fn has_options(&self) -> bool
        ensures { result ≡ spec.has_options self.now.phase }
    {
        match self.phase {
            Phase::Before | Phase::Audit | Phase::Fix | Phase::Bin | Phase::Plan | Phase::Vendor =>
                true,
            Phase::Paths | Phase::Generate | Phase::Generated(_) => false,
        }
    }

    fn read_fresh(&mut self, alloc: Global, word: &str) -> Result<(), Stop>
        ensures ok { OnOk result (spec.read_fresh word.now self.old ≡ Ok self.new) }
        ensures refused { Refuses result (spec.read_fresh word.now self.old) }
    {
        if is_option(word) && self.has_options() {
            self.read_option(alloc, word)
        } else {
            self.read_plain(alloc, word)
        }
    }

    /// The next word.
    pub fn read_word(&mut self, alloc: Global, word: &str) -> Result<(), Stop>
        ensures ok { OnOk result (spec.read_word word.now self.old ≡ Ok self.new) }
        ensures refused { Refuses result (spec.read_word word.now self.old) }
    {
        let Some(meaning) = self.awaited else {
            return self.read_fresh(alloc, word);
        };
        if is_option(word) {
            return Err(Stop::Missing);
        }
        self.awaited = None;
        self.set_value(alloc, meaning, word)
    }
}
