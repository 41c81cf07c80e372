//! What plans are made of: the text of a lockfile, advisories, and the files of a cache.
use row_fixtures::{Row, RowFault, body_of, entry_of, index_line, numbers};
use std::alloc::{AllocError, Global};
use tame_entry::{HttpRevision, Revision};
use tame_names::{Items, Text, join};

/// The source of the packages of crates.io.
const REGISTRY: &str = "registry+https://github.com/rust-lang/crates.io-index";

/// A file of the cache.
#[derive(Drop)]
pub struct CacheFile {
    pub path: Text,
    pub bytes: Vec<u8>,
}

/// What was laid.
#[derive(Drop)]
pub struct Stage {
    pub lock: String,
    pub advisories: Items<Text>,
    pub files: Items<CacheFile>,
    /// The numbers of the calls on the disk that are to fail.
    pub failing: Items<u64>,
}

fn push_package(text: &mut String, mut words: Row<'_>) -> Result<(), AllocError> {
    let name = words.word();
    let version = words.word();
    write!(
        text,
        "[[package]]\nname = \"{name}\"\nversion = \"{version}\"\n"
    )?;
    match words.word() {
        "-" => Ok(()),
        "R" => write!(text, "source = \"{REGISTRY}\"\n"),
        source => write!(text, "source = \"{source}\"\n"),
    }
}

/// Adds an array of the requirements that `;` parts; of none for `-`.
fn push_requirements(text: &mut String, key: &str, word: &str) -> Result<(), AllocError> {
    write!(text, "{key} = [")?;
    if word != "-" {
        for requirement in word.split(';') {
            write!(text, "\"{requirement}\", ")?;
        }
    }
    text.push_str("]\n")
}

/// The text of an advisory of the words `ID NAME PATCHED UNAFFECTED LINE`.
fn advisory_text(alloc: Global, mut words: Row<'_>) -> Result<String, RowFault> {
    let id = words.word();
    let name = words.word();
    let patched = words.word();
    let unaffected = words.word();
    let mut text = format!(in alloc;
        "```toml\n[advisory]\nid = \"{id}\"\npackage = \"{name}\"\ndate = \"2099-01-02\"\n"
    )?;
    match words.rest() {
        "-" => {}
        line => write!(text, "{line}\n")?,
    }
    text.push_str("[versions]\n")?;
    push_requirements(&mut text, "patched", patched)?;
    push_requirements(&mut text, "unaffected", unaffected)?;
    text.push_str("```\n# Title\n")?;
    Ok(text)
}

/// A line for each version, `!` behind the yanked ones.
fn lines_of(alloc: Global, name: &str, versions: &str) -> Result<String, AllocError> {
    let mut body = String::new(alloc);
    for word in versions.split(' ') {
        let (version, yanked) = match word.strip_suffix('!') {
            Some(version) => (version, true),
            None => (word, false),
        };
        let line = index_line(alloc, name, version, yanked)?;
        write!(body, "{line}\n")?;
    }
    Ok(body)
}

fn entry_bytes(alloc: Global, body: &[u8]) -> Result<Vec<u8>, RowFault> {
    entry_of(alloc, body, &Revision::Http(HttpRevision::Etag("x")))
}

impl Stage {
    /// A stage without anything.
    pub fn new(alloc: Global) -> Stage {
        Stage {
            lock: String::new(alloc),
            advisories: Items::new(alloc),
            files: Items::new(alloc),
            failing: Items::new(alloc),
        }
    }

    /// A file of the cache at the path of a name.
    fn add_file(&mut self, alloc: Global, name: Row<'_>, bytes: Vec<u8>) -> Result<(), RowFault> {
        let mut name = name;
        let place = name.name(alloc)?.relative_path(alloc, None)?;
        let path = join(alloc, ".cache", place.as_str())?;
        self.files.add(CacheFile { path, bytes })?;
        Ok(())
    }

    fn clear(&mut self, alloc: Global) {
        *self = Stage::new(alloc);
    }

    /// `advisory ID NAME PATCHED UNAFFECTED LINE`
    fn add_advisory(&mut self, alloc: Global, words: Row<'_>) -> Result<(), RowFault> {
        let text = advisory_text(alloc, words)?;
        Ok(self.advisories.add(Text::from_string(text))?)
    }

    /// `record NAME VERSION ..`
    fn add_record(&mut self, alloc: Global, row: Row<'_>) -> Result<(), RowFault> {
        let mut words = row;
        let name = words.word();
        let body = lines_of(alloc, name, words.rest())?;
        self.add_file(alloc, row, entry_bytes(alloc, body.as_bytes())?)
    }

    /// `body NAME BODY`
    fn add_body(&mut self, alloc: Global, row: Row<'_>) -> Result<(), RowFault> {
        let mut words = row;
        let _name = words.word();
        let body = body_of(alloc, words.word())?;
        self.add_file(alloc, row, entry_bytes(alloc, body.as_slice())?)
    }

    /// `file NAME BYTES`
    fn add_bytes(&mut self, alloc: Global, row: Row<'_>) -> Result<(), RowFault> {
        let mut words = row;
        let _name = words.word();
        let bytes = words.bytes(alloc)?;
        self.add_file(alloc, row, bytes)
    }

    /// `fail NUMBERS`
    fn set_failing(&mut self, alloc: Global, mut words: Row<'_>) -> Result<(), RowFault> {
        let failing = words.numbers(alloc)?;
        self.failing = numbers(failing);
        Ok(())
    }

    /// What a step lays.
    fn lay(&mut self, alloc: Global, row: Row<'_>) -> Result<(), RowFault> {
        let mut words = row;
        match words.word() {
            "clear" => {
                self.clear(alloc);
                Ok(())
            }
            "package" => Ok(push_package(&mut self.lock, words)?),
            "|" => Ok(write!(self.lock, "{}\n", words.rest())?),
            "advisory" => self.add_advisory(alloc, words),
            "record" => self.add_record(alloc, words),
            "body" => self.add_body(alloc, words),
            "file" => self.add_bytes(alloc, words),
            "fail" => self.set_failing(alloc, words),
            _ => Err(RowFault::Unread),
        }
    }

    /// The answer of a step, which tells nothing.
    pub fn answer(&mut self, alloc: Global, row: Row<'_>) -> Result<String, RowFault> {
        self.lay(alloc, row)?;
        Ok(String::new(alloc))
    }
}
