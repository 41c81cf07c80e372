//! Rows: a command's name and its words, divided by blanks. A word in single quotes may have
//! blanks, and `''` is the word of no bytes; `-` stands for nothing where a word may be left out.
use crate::escapes::{plain_bytes, plain_text};
use crate::faults::{RowFault, refused};
use std::alloc::Global;
use tame_names::{Error, KrateName};

/// Whether a line is no row: it is blank, or a remark behind `#`.
pub fn is_remark(line: &str) -> bool {
    line.is_empty() || line.starts_with('#')
}

/// The words of a row that are left.
#[derive(Clone, Copy)]
pub struct Row<'a> {
    left: &'a str,
}

impl<'a> Row<'a> {
    /// The words of a line.
    pub fn of(line: &'a str) -> Row<'a> {
        Row { left: line }
    }

    /// The next word, as it is written; the word of no bytes where none is left.
    pub fn word(&mut self) -> &'a str {
        let quoted = match self.left.strip_prefix('\'') {
            Some(behind) => behind.split_once('\''),
            None => None,
        };
        let (word, rest) = match quoted {
            Some((word, rest)) => (word, rest.strip_prefix(' ').unwrap_or(rest)),
            None => self.left.split_once(' ').unwrap_or((self.left, "")),
        };
        self.left = rest;
        word
    }

    /// The rest of the line, as it is written.
    pub fn rest(self) -> &'a str {
        self.left
    }

    /// The next word as bytes.
    pub fn bytes(&mut self, alloc: Global) -> Result<Vec<u8>, RowFault> {
        plain_bytes(alloc, self.word())
    }

    /// The next word as a text.
    pub fn text(&mut self, alloc: Global) -> Result<String, RowFault> {
        plain_text(alloc, self.word())
    }

    /// The next word as a text; nothing of `-`.
    pub fn text_or_none(&mut self, alloc: Global) -> Result<Option<String>, RowFault> {
        match self.word() {
            "-" => Ok(None),
            word => Ok(Some(plain_text(alloc, word)?)),
        }
    }

    /// The next word, as it is written, as the name of a crate.
    pub fn name(&mut self, alloc: Global) -> Result<KrateName<'a>, RowFault> {
        match KrateName::try_from(self.word()) {
            Ok(name) => Ok(name),
            Err(fault) => Err(refused(alloc, &Error::from(fault))),
        }
    }

    /// The next word as a number.
    pub fn number(&mut self) -> Result<u64, RowFault> {
        match self.word().parse::<u64>() {
            Ok(number) => Ok(number),
            Err(_) => Err(RowFault::Unread),
        }
    }

    /// The next word as a status code.
    pub fn status(&mut self) -> Result<u16, RowFault> {
        match self.word().parse::<u16>() {
            Ok(status) => Ok(status),
            Err(_) => Err(RowFault::Unread),
        }
    }

    /// The next word as the byte of two hexadecimal digits; nothing of `-`.
    pub fn byte_or_none(&mut self) -> Result<Option<u8>, RowFault> {
        match self.word() {
            "-" => Ok(None),
            word => match u8::from_str_radix(word, 16) {
                Ok(byte) => Ok(Some(byte)),
                Err(_) => Err(RowFault::Unread),
            },
        }
    }

    /// The next word as numbers with commas between them; none of `-`.
    pub fn numbers(&mut self, alloc: Global) -> Result<Vec<u64>, RowFault> {
        let mut list = Vec::new(alloc);
        match self.word() {
            "-" => {}
            word => {
                for number in word.split(',') {
                    match number.parse::<u64>() {
                        Ok(number) => list.push(number)?,
                        Err(_) => return Err(RowFault::Unread),
                    }
                }
            }
        }
        Ok(list)
    }

    /// The next word, of which `yes` is true and `no` is false.
    pub fn is(&mut self, yes: &str, no: &str) -> Result<bool, RowFault> {
        let word = self.word();
        if word == yes {
            Ok(true)
        } else if word == no {
            Ok(false)
        } else {
            Err(RowFault::Unread)
        }
    }
}
