//! What the edge of the host answers, as the table shows it.
use crate::changed::changed;
use crate::edges::{first_word, number, wrong};
use crate::host::Host;
use crate::texts::shown;
use audit_edges::StdFiles;
use std::alloc::Global;
use std::io;
use tame_names::{EnvValue, FileFault, Files, Items, Listed, PathKind, ReadAnswer, Text};

/// A word.
pub fn said(alloc: Global, word: &str) -> io::Result<String> {
    Ok(String::from_str(alloc, word)?)
}

/// A fault, with the count of the edge.
pub fn fault(alloc: Global, fault: FileFault, faults: u64) -> io::Result<String> {
    match fault {
        FileFault::NoMemory => said(alloc, "no memory"),
        FileFault::Failed => Ok(format!(in alloc; "fault {faults}")?),
    }
}

/// The bytes of a file or of the input, up to a limit.
fn bytes(alloc: Global, answer: Result<ReadAnswer, FileFault>, faults: u64) -> io::Result<String> {
    match answer {
        Ok(ReadAnswer::Absent) => said(alloc, "absent"),
        Ok(ReadAnswer::Whole(bytes)) => Ok(shown(alloc, bytes.as_slice())?),
        Ok(ReadAnswer::Over(len)) => Ok(format!(in alloc; "over, {len}")?),
        Err(error) => fault(alloc, error, faults),
    }
}

/// A part of a file.
fn part(files: &mut StdFiles<'_, Host<'_>>, alloc: Global, rest: &str) -> io::Result<String> {
    let (path, rest) = first_word(rest);
    let (from, limit) = first_word(rest);
    match files.read_part(alloc, path, number(from)?, number(limit)?) {
        Ok(None) => said(alloc, "absent"),
        Ok(Some(part)) => Ok(format!(in alloc; "'{}'", shown(alloc, part.as_slice())?)?),
        Err(error) => fault(alloc, error, files.file_faults()),
    }
}

/// An entry, and whether it is a file.
fn entry(alloc: Global, listed: &Listed) -> io::Result<String> {
    let kind = if listed.file { "a file" } else { "no file" };
    match &listed.name {
        Some(name) => Ok(format!(in alloc; "{} is {kind}", name.as_str())?),
        None => Ok(format!(in alloc; "another name is {kind}")?),
    }
}

/// Entries, in the order of their texts.
fn entries(alloc: Global, listed: &[Listed]) -> io::Result<String> {
    let mut texts = Vec::new(alloc);
    for listed in listed {
        texts.push(entry(alloc, listed)?)?;
    }
    texts.sort()?;
    let mut whole = String::from_str(alloc, "a folder")?;
    let mut before = ": ";
    for text in texts.as_slice() {
        whole.push_str(before)?;
        whole.push_str(text.as_str())?;
        before = ", ";
    }
    Ok(whole)
}

fn listing(
    alloc: Global,
    answer: Result<Option<Items<Listed>>, FileFault>,
    faults: u64,
) -> io::Result<String> {
    match answer {
        Ok(None) => said(alloc, "no folder"),
        Ok(Some(listed)) => entries(alloc, listed.as_slice()),
        Err(error) => fault(alloc, error, faults),
    }
}

fn kind(alloc: Global, answer: Result<PathKind, FileFault>, faults: u64) -> io::Result<String> {
    match answer {
        Ok(PathKind::Absent) => said(alloc, "absent"),
        Ok(PathKind::File) => said(alloc, "a file"),
        Ok(PathKind::Folder) => said(alloc, "a folder"),
        Ok(PathKind::Other) => said(alloc, "another thing"),
        Err(error) => fault(alloc, error, faults),
    }
}

fn value(alloc: Global, answer: Result<EnvValue, FileFault>, faults: u64) -> io::Result<String> {
    match answer {
        Ok(EnvValue::Unset) => said(alloc, "unset"),
        Ok(EnvValue::NotUtf8) => said(alloc, "not UTF-8"),
        Ok(EnvValue::Value(value)) => Ok(format!(in alloc; "'{}'", value.as_str())?),
        Err(error) => fault(alloc, error, faults),
    }
}

fn path(alloc: Global, answer: Result<Text, FileFault>, faults: u64) -> io::Result<String> {
    match answer {
        Ok(path) => said(alloc, path.as_str()),
        Err(error) => fault(alloc, error, faults),
    }
}

/// What a call on the edge of the recorded host answers.
pub fn asked<'a>(
    files: &mut StdFiles<'a, Host<'a>>,
    alloc: Global,
    line: &str,
) -> io::Result<String> {
    let (word, rest) = first_word(line);
    match word {
        "text" => {
            let (path, limit) = first_word(rest);
            let answer = files.read(alloc, path, number(limit)?);
            bytes(alloc, answer, files.file_faults())
        }
        "part" => part(files, alloc, rest),
        "input" => {
            let answer = files.read_stdin(alloc, number(rest)?);
            bytes(alloc, answer, files.file_faults())
        }
        "list" => {
            let answer = files.list(alloc, rest);
            listing(alloc, answer, files.file_faults())
        }
        "kind" => {
            let answer = files.kind(rest);
            kind(alloc, answer, files.file_faults())
        }
        "env" => {
            let answer = files.env(alloc, rest);
            value(alloc, answer, files.file_faults())
        }
        "here" => {
            let answer = files.current_dir(alloc);
            path(alloc, answer, files.file_faults())
        }
        _ => changed(files, alloc, line),
    }
}

/// What a call on the edge of the system itself answers.
pub fn really_asked(rt: &HostRuntime, line: &str) -> io::Result<String> {
    let alloc = rt.alloc();
    let mut files = StdFiles::new(rt);
    let (word, rest) = first_word(line);
    match word {
        "list" => {
            let answer = files.list(alloc, rest);
            listing(alloc, answer, files.file_faults())
        }
        "kind" => {
            let answer = files.kind(rest);
            kind(alloc, answer, files.file_faults())
        }
        "env" => {
            let answer = files.env(alloc, rest);
            value(alloc, answer, files.file_faults())
        }
        "kind-here" => match files.current_dir(alloc) {
            Ok(here) => {
                let answer = files.kind(here.as_str());
                kind(alloc, answer, files.file_faults())
            }
            Err(error) => fault(alloc, error, files.file_faults()),
        },
        _ => Err(wrong(word)),
    }
}
