//! A word that is no option: `audit`, a command after it, or what that command is given.
ghost use Rattle.std.specs.Prelude.{◌≡◌, ◌≢◌, IfErr, OnOk, Ok, Err};
ghost use Rattle.audit_words.specs.Reading.{Refuses, begun, with_folder, with_path};
ghost use Rattle.audit_words.specs.Reading as spec;

use crate::drafts::{Draft, Stop};
use crate::options::Phase;
use crate::values::{packages_of, unless_empty};
use std::alloc::Global;
use tame_names::{Text, plain_path};

impl Draft {
    /// The command that follows `audit` and its options; none follows an option of a baseline.
    fn begin(&mut self, word: &str) -> Result<(), Stop>
        ensures ok { OnOk result (begun word.now self.old ≡ Ok self.new) }
        ensures refused { IfErr result (λ e. begun word.now self.old ≡ Err e) }
    {
        if self.has_baseline() {
            return Err(Stop::Wrong);
        }
        match word {
            "fix" => self.phase = Phase::Fix,
            "bin" => self.phase = Phase::Bin,
            "plan" => self.phase = Phase::Plan,
            "vendor" => self.phase = Phase::Vendor,
            "generate" => {
                if !self.is_bare() {
                    return Err(Stop::Wrong);
                }
                self.phase = Phase::Generate;
            }
            _ => return Err(Stop::Wrong),
        }
        Ok(())
    }

    fn add_path(&mut self, alloc: Global, word: &str) -> Result<(), Stop>
        ensures ok { OnOk result (self.new ≡ with_path word.now self.old) }
        ensures refused { IfErr result (λ e. e ≡ Stop.NoMemory) }
    {
        self.bin.binary_paths.add(Text::of(alloc, word)?)?;
        Ok(())
    }

    /// The next folder of `vendor`, without slashes at its end; that of the registry isn't empty.
    fn add_folder(&mut self, alloc: Global, word: &str) -> Result<(), Stop>
        ensures ok { OnOk result (with_folder self.old.vendor_crates self.old.vendor_to
            word.now self.old ≡ Ok self.new) }
        ensures refused { Refuses result (with_folder self.old.vendor_crates self.old.vendor_to
            word.now self.old) }
    {
        match (self.vendor_crates.is_some(), self.vendor_to.is_some()) {
            (false, _) => self.vendor_crates = Some(Text::of(alloc, plain_path(word))?),
            (true, false) => {
                let to = unless_empty(word).ok_or(Stop::Wrong)?;
                self.vendor_to = Some(Text::of(alloc, plain_path(to))?);
            }
            (true, true) => return Err(Stop::Wrong),
        }
        Ok(())
    }

    /// A word that is no option.
    pub fn read_plain(&mut self, alloc: Global, word: &str) -> Result<(), Stop>
        ensures ok { OnOk result (spec.read_plain self.old.phase word.now self.old ≡ Ok self.new) }
        ensures refused { Refuses result (spec.read_plain self.old.phase word.now self.old) }
    {
        match (self.phase, word) {
            (Phase::Before, "audit") => self.phase = Phase::Audit,
            (Phase::Audit, _) => return self.begin(word),
            (Phase::Generate, _) => {
                self.phase = Phase::Generated(packages_of(word).ok_or(Stop::Wrong)?);
            }
            (Phase::Before | Phase::Fix | Phase::Plan | Phase::Generated(_), _) => return Err(
                Stop::Wrong,
            ),
            (Phase::Bin | Phase::Paths, _) => return self.add_path(alloc, word),
            (Phase::Vendor, _) => return self.add_folder(alloc, word),
        }
        Ok(())
    }
}
