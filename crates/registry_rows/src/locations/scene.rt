//! The host that rows speak of, and the numbers of urls.
use row_fixtures::{Laid, LaidNode, Row, RowFault, host_with};
use std::alloc::Global;
use std::mem;
use tame_location::{KnownIdent, TableIdent};
use tame_names::{
    EnvValue, Items, LockAnswer, LockOpenFault, LockTakeFault, MemFiles, MemVariable, Text,
};

/// The host, what the next one is to have, and the numbers of urls.
#[derive(Drop)]
pub struct Scene {
    pub host: MemFiles,
    pub ident: TableIdent,
    laid: Vec<Laid>,
    variables: Items<MemVariable>,
    current: String,
    answers: Items<LockAnswer>,
}

fn call(word: &str) -> Result<LockAnswer, RowFault> {
    Ok(match word {
        "open" => LockAnswer::Open(None),
        "open=NotFound" => LockAnswer::Open(Some(LockOpenFault::NotFound)),
        "open=Denied" => LockAnswer::Open(Some(LockOpenFault::Denied)),
        "open=Failed" => LockAnswer::Open(Some(LockOpenFault::Failed)),
        "take" => LockAnswer::Take(None),
        "take=Contested" => LockAnswer::Take(Some(LockTakeFault::Contested)),
        "take=NotSupported" => LockAnswer::Take(Some(LockTakeFault::NotSupported)),
        "take=Failed" => LockAnswer::Take(Some(LockTakeFault::Failed)),
        _ => return Err(RowFault::Unread),
    })
}

/// The next word as a number below 256.
pub fn small_number(row: &mut Row<'_>) -> Result<u8, RowFault> {
    match row.word().parse::<u8>() {
        Ok(number) => Ok(number),
        Err(_) => Err(RowFault::Unread),
    }
}

impl Scene {
    /// A host without files, variables and answers, and no known numbers.
    pub fn new(alloc: Global) -> Scene {
        Scene {
            host: MemFiles::new(alloc, Items::new(alloc), Items::new(alloc)),
            ident: TableIdent {
                known: Items::new(alloc),
            },
            laid: Vec::new(alloc),
            variables: Items::new(alloc),
            current: String::new(alloc),
            answers: Items::new(alloc),
        }
    }

    fn known(&mut self, alloc: Global, row: &mut Row<'_>) -> Result<(), RowFault> {
        let kind = small_number(row)?;
        let canonical = Text::of(alloc, row.word())?;
        let number = row.number()?;
        self.ident.known.add(KnownIdent {
            kind,
            canonical,
            number,
        })?;
        Ok(())
    }

    fn file(&mut self, alloc: Global, row: &mut Row<'_>) -> Result<(), RowFault> {
        let path = row.text(alloc)?;
        let node = LaidNode::File(row.bytes(alloc)?);
        self.laid.push(Laid { path, node })?;
        Ok(())
    }

    fn variable(&mut self, alloc: Global, row: &mut Row<'_>) -> Result<(), RowFault> {
        let name = Text::of(alloc, row.word())?;
        let value = match row.text_or_none(alloc)? {
            Some(value) => EnvValue::Value(Text::from_string(value)),
            None => EnvValue::NotUtf8,
        };
        self.variables.add(MemVariable { name, value })?;
        Ok(())
    }

    fn add_answers(&mut self, row: &mut Row<'_>) -> Result<(), RowFault> {
        for word in row.rest().split(' ') {
            self.answers.add(call(word)?)?;
        }
        Ok(())
    }

    /// The host that was laid, of which these calls fail; the next one begins with nothing.
    fn stand(&mut self, alloc: Global, row: &mut Row<'_>) -> Result<(), RowFault> {
        let failing = row.numbers(alloc)?;
        let host = host_with(alloc, self.laid.as_slice(), &[], failing)?;
        self.take_host(alloc, host);
        Ok(())
    }

    /// Takes a host, and gives it what was laid for it.
    fn take_host(&mut self, alloc: Global, host: MemFiles) {
        let variables = mem::replace(&mut self.variables, Items::new(alloc));
        let answers = mem::replace(&mut self.answers, Items::new(alloc));
        let current = mem::replace(&mut self.current, String::new(alloc));
        self.laid = Vec::new(alloc);
        let host = host.with_variables(variables).with_locks(answers);
        self.host = host.with_current(Text::from_string(current));
    }

    /// A row that lays something, which has no answer.
    pub fn lay(&mut self, alloc: Global, mut row: Row<'_>) -> Result<String, RowFault> {
        match row.word() {
            "known" => self.known(alloc, &mut row)?,
            "file" => self.file(alloc, &mut row)?,
            "folder" => {
                let path = row.text(alloc)?;
                let node = LaidNode::Folder(Vec::new(alloc));
                self.laid.push(Laid { path, node })?;
            }
            "variable" => self.variable(alloc, &mut row)?,
            "current" => self.current = row.text(alloc)?,
            "answers" => self.add_answers(&mut row)?,
            _ => self.stand(alloc, &mut row)?,
        }
        Ok(String::new(alloc))
    }
}
