//! What the rows work on.
use crate::scripts::scripted;
use audit_advisory::DenyOption;
use audit_binaries::BinaryLimits;
use row_fixtures::{Laid, LaidNode, Row, RowFault, disk_failing, lockfile_of};
use std::alloc::Global;
use tame_cache::MemCacheDisk;
use tame_names::{Items, Text};
use tame_sparse::Scripted;

/// What is there, what is answered and what is asked for.
#[derive(Drop)]
pub struct Stage {
    pub laid: Vec<Laid>,
    pub limits: BinaryLimits,
    pub deny: Items<DenyOption>,
    pub advisories: Items<Text>,
    pub script: Items<Scripted>,
    pub reads: Vec<u64>,
    pub decodes: Vec<u64>,
    pub disk: MemCacheDisk,
}

fn nothing(alloc: Global) -> Result<String, RowFault> {
    Ok(String::new(alloc))
}

/// A number; nothing of `-`.
fn limit(word: &str) -> Result<Option<u64>, RowFault> {
    match word {
        "-" => Ok(None),
        _ => match word.parse::<u64>() {
            Ok(number) => Ok(Some(number)),
            Err(_) => Err(RowFault::Unread),
        },
    }
}

impl Stage {
    pub fn new(alloc: Global) -> Stage {
        Stage {
            laid: Vec::new(alloc),
            limits: BinaryLimits::of(None, None),
            deny: Items::new(alloc),
            advisories: Items::new(alloc),
            script: Items::new(alloc),
            reads: Vec::new(alloc),
            decodes: Vec::new(alloc),
            disk: disk_failing(alloc, Vec::new(alloc)),
        }
    }

    pub fn clear(&mut self, alloc: Global) -> Result<String, RowFault> {
        *self = Stage::new(alloc);
        nothing(alloc)
    }

    fn add(&mut self, alloc: Global, path: String, node: LaidNode) -> Result<String, RowFault> {
        self.laid.push(Laid { path, node })?;
        nothing(alloc)
    }

    pub fn add_file(&mut self, alloc: Global, mut words: Row<'_>) -> Result<String, RowFault> {
        let path = words.text(alloc)?;
        let bytes = words.bytes(alloc)?;
        self.add(alloc, path, LaidNode::File(bytes))
    }

    pub fn add_binary(&mut self, alloc: Global, mut words: Row<'_>) -> Result<String, RowFault> {
        let path = words.text(alloc)?;
        let lockfile = lockfile_of(alloc, words.rest())?;
        let text = format!(in alloc; "#cargo-lock begin\n{lockfile}#cargo-lock end\n")?;
        self.add(alloc, path, LaidNode::File(text.into_bytes()))
    }

    pub fn add_folder(&mut self, alloc: Global, mut words: Row<'_>) -> Result<String, RowFault> {
        let path = words.text(alloc)?;
        self.add(alloc, path, LaidNode::Folder(Vec::new(alloc)))
    }

    pub fn set_limits(&mut self, alloc: Global, mut words: Row<'_>) -> Result<String, RowFault> {
        let size = limit(words.word())?;
        let payload = limit(words.word())?;
        self.limits = BinaryLimits::of(size, payload);
        nothing(alloc)
    }

    pub fn set_deny(&mut self, alloc: Global, mut words: Row<'_>) -> Result<String, RowFault> {
        let mut deny = Items::new(alloc);
        for word in words.word().split(',') {
            match DenyOption::from_word(word) {
                Some(option) => deny.add(option)?,
                None => return Err(RowFault::Unread),
            }
        }
        self.deny = deny;
        nothing(alloc)
    }

    pub fn add_advisory(&mut self, alloc: Global, mut words: Row<'_>) -> Result<String, RowFault> {
        let text = words.text(alloc)?;
        self.advisories.add(Text::from_string(text))?;
        nothing(alloc)
    }

    pub fn add_answer(&mut self, alloc: Global, words: Row<'_>) -> Result<String, RowFault> {
        self.script.add(scripted(alloc, words)?)?;
        nothing(alloc)
    }

    pub fn set_failing(&mut self, alloc: Global, mut words: Row<'_>) -> Result<String, RowFault> {
        self.reads = words.numbers(alloc)?;
        self.decodes = words.numbers(alloc)?;
        nothing(alloc)
    }
}
