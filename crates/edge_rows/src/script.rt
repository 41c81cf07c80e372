//! The commands of the table.
use crate::edges::{Edges, first_word, standing, wrong};
use crate::host::Host;
use crate::texts::meant;
use std::fs;
use std::io::{self, ErrorKind};
use std::os::unix::fs::symlink;
use std::path::Path;

/// The folders that a case may fill.
const FOLDERS: [&str; 6] = ["cache", "mirror", "next", "past", "elsewhere", "variables"];

/// A case that is played.
#[derive(Drop)]
pub struct Script<'a> {
    host: &'a Host<'a>,
    edges: Edges<'a>,
    /// The lines of the case so far.
    lines: Vec<String>,
}

impl<'a> Script<'a> {
    pub fn new(host: &'a Host<'a>) -> Script<'a> {
        Script {
            host,
            edges: Edges::new(host),
            lines: Vec::new(host.alloc()),
        }
    }

    /// Removes what a case left.
    pub fn clear(&self) -> io::Result<()> {
        let rt = self.host.rt;
        for place in FOLDERS {
            match fs::symlink_metadata(rt, place) {
                Ok(found) if found.is_dir() => fs::remove_dir_all(rt, place)?,
                Ok(_) => fs::remove_file(rt, place)?,
                Err(error) if error.kind() == ErrorKind::NotFound => {}
                Err(error) => return Err(error),
            }
        }
        Ok(())
    }

    fn make_folders_above(&self, place: &str) -> io::Result<()> {
        match Path::new(place).parent() {
            Some(above) => fs::create_dir_all(self.host.rt, above),
            None => Ok(()),
        }
    }

    /// Does what a line says of the host's files; false where it speaks of an edge.
    fn prepare(&mut self, line: &str) -> io::Result<bool> {
        let rt = self.host.rt;
        let (word, rest) = first_word(line);
        let (place, after) = first_word(rest);
        match word {
            "file" | "link" | "folder" | "hole" => self.make_folders_above(place)?,
            _ => {}
        }
        match word {
            "file" => {
                let (_, text) = first_word(after);
                let bytes = meant(rt.alloc(), text)?;
                fs::write(rt, place, bytes.as_slice())?;
            }
            "link" => {
                let (_, target) = first_word(after);
                symlink(rt, target, place)?;
            }
            "folder" => fs::create_dir_all(rt, place)?,
            "hole" => fs::create(rt, place)?.set_len(after.parse::<u64>().unwrap_or(0))?,
            "remove" => fs::remove_file(rt, place)?,
            "again" => self.edges = Edges::new(self.host),
            _ => return Ok(false),
        }
        Ok(true)
    }

    /// The answer of a command where its call of this number fails, in the state that the lines
    /// of the case led to.
    fn replayed(&mut self, command: &str, fails_at: u64) -> io::Result<String> {
        self.clear()?;
        self.host.plan.begin(0);
        self.host.plan.is_told.set(false);
        self.edges = Edges::new(self.host);
        let mut at = 0;
        for _ in 0..self.lines.len() {
            let Some(line) = self.lines.get(at) else {
                break;
            };
            let line = line.clone()?;
            if !self.prepare(line.as_str())? {
                let _ = self.edges.answer(line.as_str())?;
            }
            at = at.saturating_add(1);
        }
        self.host.plan.begin(fails_at);
        let answer = self.edges.answer(command)?;
        Ok(answer)
    }

    /// The answers of a command where each of its calls on the host fails in turn.
    fn each_fails(&mut self, command: &str) -> io::Result<()> {
        for number in 1..1000 {
            let answer = self.replayed(command, number)?;
            if !self.host.plan.has_failed() {
                let calls = self.host.plan.made.get();
                return println!(self.host.rt; "    {calls} calls, none failed: {answer}");
            }
            println!(self.host.rt; "{answer}")?;
        }
        Ok(())
    }

    /// The answer of a command, and those that differ where one of its calls is interrupted twice.
    fn each_interrupted(&mut self, command: &str) -> io::Result<()> {
        let wanted = self.replayed(command, 0)?;
        let calls = self.host.plan.made.get();
        self.host.plan.kind.set(ErrorKind::Interrupted);
        for number in 1..calls.saturating_add(1) {
            let answer = self.replayed(command, number)?;
            if answer.as_str() != wanted.as_str() {
                println!(self.host.rt; "    {number}: {answer}")?;
            }
        }
        self.host.plan.kind.set(ErrorKind::PermissionDenied);
        println!(self.host.rt; "    {calls} calls, each interrupted twice in turn: {wanted}")
    }

    /// The answers of a command where the mirror becomes another one before each of its calls.
    fn each_turned(&mut self, command: &str) -> io::Result<()> {
        let _ = self.replayed(command, 0)?;
        let calls = self.host.plan.made.get();
        for number in 1..calls.saturating_add(1) {
            self.host.plan.turns_at.set(number);
            let answer = self.replayed(command, 0)?;
            println!(self.host.rt; "    {number}: {answer}")?;
        }
        self.host.plan.turns_at.set(0);
        Ok(())
    }

    /// Plays a command one of whose calls fails.
    fn one_fails(&mut self, rest: &str) -> io::Result<()> {
        let (number, command) = first_word(rest);
        self.host.plan.begin(number.parse::<u64>().unwrap_or(0));
        let answer = self.edges.answer(command)?;
        println!(self.host.rt; "{answer}")
    }

    /// Plays a command one of whose calls fails with another error.
    fn one_fails_as(&mut self, rest: &str) -> io::Result<()> {
        let (word, rest) = first_word(rest);
        self.host.plan.kind.set(match word {
            "read-only" => ErrorKind::ReadOnlyFilesystem,
            "unsupported" => ErrorKind::Unsupported,
            _ => return Err(wrong(word)),
        });
        self.one_fails(rest)?;
        self.host.plan.kind.set(ErrorKind::PermissionDenied);
        Ok(())
    }

    /// Plays a command where calls on the host fail in some way.
    fn play_failing(&mut self, word: &str, rest: &str) -> io::Result<()> {
        match word {
            "each-fails" => self.each_fails(rest),
            "each-interrupted" => self.each_interrupted(rest),
            "each-turned" => self.each_turned(rest),
            "fails-as" => self.one_fails_as(rest),
            _ => self.one_fails(rest),
        }
    }

    fn play(&mut self, line: &str) -> io::Result<()> {
        let rt = self.host.rt;
        let (word, rest) = first_word(line);
        match word {
            "each-fails" | "each-interrupted" | "each-turned" | "fails" | "fails-as" => {
                println!(rt; "{line}")?;
                self.play_failing(word, rest)
            }
            "show" => println!(rt; "{line}: {}", standing(rt, rest)?),
            "calls" => {
                println!(rt; "{line}")?;
                self.host.plan.is_told.set(true);
                let answer = self.edges.answer(rest)?;
                self.host.plan.is_told.set(false);
                println!(rt; "    = {answer}")?;
                self.lines.push(String::from_str(rt.alloc(), rest)?)?;
                Ok(())
            }
            _ => self.play_plain(line),
        }
    }

    fn play_plain(&mut self, line: &str) -> io::Result<()> {
        let rt = self.host.rt;
        if self.prepare(line)? {
            println!(rt; "{line}")?;
        } else {
            let answer = self.edges.answer(line)?;
            println!(rt; "{line}: {answer}")?;
        }
        self.lines.push(String::from_str(rt.alloc(), line)?)?;
        Ok(())
    }

    /// Plays a line of the table. One that begins with `#` begins a case, over no files.
    pub fn line(&mut self, line: &str) -> io::Result<()> {
        let rt = self.host.rt;
        if line.is_empty() {
            return println!(rt;);
        }
        if !line.starts_with('#') {
            self.host.plan.begin(0);
            return self.play(line);
        }
        println!(rt; "{line}")?;
        self.clear()?;
        self.edges = Edges::new(self.host);
        self.lines = Vec::new(rt.alloc());
        Ok(())
    }
}
