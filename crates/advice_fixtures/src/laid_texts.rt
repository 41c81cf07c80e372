//! Texts of advisories and of a lockfile, laid line by line:
//!
//! - `advisory`: an advisory begins, `lock`: the lockfile begins, `| LINE`: the next line of it.
ghost use Rattle.std.specs.Prelude.{◌≡◌, ◌++◌, ◌∷◌, [], map, slice_get, Some, Ok, IfOk, IfErr, IsErr, OnOk, string_bytes};
ghost use Rattle.audit_advisory.specs.Advisories.{advisory_of};
ghost use Rattle.audit_lock.specs.Locked.{locked};
ghost use Rattle.advice_fixtures.specs.Readings.{IsUnread};

use crate::readings::{add_read, read_lockfile};
use audit_advisory::Database;
use audit_lock::Lockfile;
use row_fixtures::{Row, RowFault, plain_text};
use std::alloc::Global;
use std::mem;
use tame_names::{Items, Text};

/// What text is being laid.
#[derive(Clone, Copy)]
enum Begun {
    Nothing,
    Advisory,
    Lock,
}

/// The texts that were laid.
#[derive(Drop)]
pub struct LaidTexts {
    advisories: Items<Text>,
    lock: String,
    begun: Begun,
    /// The text that is being laid.
    text: String,
}

impl LaidTexts {
    /// No advisory, and a lockfile without a line.
    pub fn new(alloc: Global) -> LaidTexts {
        LaidTexts {
            advisories: Items::new(alloc),
            lock: String::new(alloc),
            begun: Begun::Nothing,
            text: String::new(alloc),
        }
    }

    /// The text that is being laid is whole, and another one begins.
    fn begin(&mut self, alloc: Global, next: Begun) -> Result<String, RowFault> {
        let text = mem::replace(&mut self.text, String::new(alloc));
        match self.begun {
            Begun::Nothing => {}
            Begun::Advisory => self.advisories.add(Text::from_string(text))?,
            Begun::Lock => self.lock = text,
        }
        self.begun = next;
        Ok(String::new(alloc))
    }

    /// `| LINE`
    fn add_line(&mut self, alloc: Global, row: Row<'_>) -> Result<String, RowFault> {
        let line = plain_text(alloc, row.rest())?;
        self.text.push_str(line.as_str())?;
        self.text.push_str("\n")?;
        Ok(String::new(alloc))
    }

    /// The answer of a row that lays a text, which tells nothing.
    pub fn answer(&mut self, alloc: Global, row: Row<'_>) -> Result<String, RowFault> {
        let mut words = row;
        match words.word() {
            "advisory" => self.begin(alloc, Begun::Advisory),
            "lock" => self.begin(alloc, Begun::Lock),
            "|" => self.add_line(alloc, words),
            _ => Err(RowFault::Unread),
        }
    }

    /// The text that is being laid is whole.
    pub fn end(&mut self, alloc: Global) -> Result<(), RowFault> {
        self.begin(alloc, Begun::Nothing)?;
        Ok(())
    }

    /// The text of one more advisory.
    pub fn add_advisory(&mut self, text: String) -> Result<(), RowFault>
        ensures added { OnOk result
            (self.new.advisories ≡ self.old.advisories ++ string_bytes text ∷ []) }
        ensures lock { self.new.lock ≡ self.old.lock }
    {
        Ok(self.advisories.add(Text::from_string(text))?)
    }

    /// The text of the first advisory, if there is one.
    pub fn first(&self) -> Result<&str, RowFault>
        ensures first { IfOk result (λ text. slice_get self.now.advisories 0 ≡ Some text.now) }
        ensures none { IsErr result → self.now.advisories ≡ [] }
    {
        match self.advisories.as_slice().first() {
            Some(text) => Ok(text.as_str()),
            None => Err(RowFault::Unread),
        }
    }

    /// The text of the lockfile.
    pub fn lock(&self) -> &str
        ensures { result.now ≡ string_bytes self.now.lock }
    {
        self.lock.as_str()
    }

    /// The advisories of the texts, in their order.
    pub fn database(&self, alloc: Global) -> Result<Database, RowFault>
        ensures read { IfOk result (λ database. map (λ a. Ok a) database
            ≡ map advisory_of self.now.advisories) }
    {
        let mut advisories = Items::new(alloc);
        for text in self.advisories.as_slice() {
            add_read(alloc, &mut advisories, text.as_str())?;
        }
        Ok(Database::new(alloc, advisories)?)
    }

    /// The lockfile of its text.
    pub fn lockfile(&self, alloc: Global) -> Result<Lockfile, RowFault>
        ensures read { IfOk result (λ lockfile. locked (string_bytes self.now.lock) ≡ Ok lockfile) }
        ensures unread { IfErr result (IsUnread (locked (string_bytes self.now.lock))) }
    {
        read_lockfile(alloc, self.lock.as_str())
    }
}
