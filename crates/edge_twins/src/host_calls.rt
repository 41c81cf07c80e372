//! Calls on a host, and their answers as texts, for each host alike.
use crate::host::Host;
use crate::standing::{push_bytes, push_entries, push_node, said};
use crate::steps::Act;
use audit_edges::StdFiles;
use std::alloc::Global;
use std::io::{self, ErrorKind};
use tame_names::{
    EnvValue, FileFault, Files, Items, Listed, MemFiles, MemNode, PathKind, ReadAnswer, Text,
};

/// A call on a host.
#[derive(Clone, Copy)]
pub struct HostCall<'a> {
    pub act: Act,
    /// A path, or the name of a variable.
    pub path: &'a str,
    /// A limit, or where a part begins; a part has no more bytes than `bytes`.
    pub limit: u64,
    pub bytes: &'a [u8],
}

fn fault_word(fault: FileFault) -> &'static str {
    match fault {
        FileFault::Failed => "fault",
        FileFault::NoMemory => "no memory",
    }
}

fn read_text(alloc: Global, answer: Result<ReadAnswer, FileFault>) -> io::Result<String> {
    match answer {
        Ok(ReadAnswer::Absent) => said(alloc, "absent"),
        Ok(ReadAnswer::Whole(bytes)) => {
            let mut text = said(alloc, "whole ")?;
            push_bytes(alloc, &mut text, bytes.as_slice())?;
            Ok(text)
        }
        Ok(ReadAnswer::Over(len)) => Ok(format!(in alloc; "over, {len}")?),
        Err(fault) => said(alloc, fault_word(fault)),
    }
}

fn part_text(alloc: Global, answer: Result<Option<Vec<u8>>, FileFault>) -> io::Result<String> {
    match answer {
        Ok(None) => said(alloc, "absent"),
        Ok(Some(bytes)) => {
            let mut text = said(alloc, "a part ")?;
            push_bytes(alloc, &mut text, bytes.as_slice())?;
            Ok(text)
        }
        Err(fault) => said(alloc, fault_word(fault)),
    }
}

/// Where the input is over the limit the real host answers how much it has read by then, and not
/// how much there is: this is one of the differences that are known.
fn input_text(alloc: Global, answer: Result<ReadAnswer, FileFault>) -> io::Result<String> {
    match answer {
        Ok(ReadAnswer::Over(_)) => said(alloc, "over"),
        answer => read_text(alloc, answer),
    }
}

fn list_text(
    alloc: Global,
    answer: Result<Option<Items<Listed>>, FileFault>,
) -> io::Result<String> {
    match answer {
        Ok(None) => said(alloc, "no folder"),
        Ok(Some(entries)) => {
            let mut text = String::new(alloc);
            push_entries(alloc, &mut text, entries.as_slice())?;
            Ok(text)
        }
        Err(fault) => said(alloc, fault_word(fault)),
    }
}

fn kind_word(answer: Result<PathKind, FileFault>) -> &'static str {
    match answer {
        Ok(PathKind::Absent) => "absent",
        Ok(PathKind::File) => "a file",
        Ok(PathKind::Folder) => "a folder",
        Ok(PathKind::Other) => "another thing",
        Err(fault) => fault_word(fault),
    }
}

fn value_text(alloc: Global, answer: Result<EnvValue, FileFault>) -> io::Result<String> {
    match answer {
        Ok(EnvValue::Unset) => said(alloc, "unset"),
        Ok(EnvValue::NotUtf8) => said(alloc, "not UTF-8"),
        Ok(EnvValue::Value(value)) => Ok(format!(in alloc; "'{}'", value.as_str())?),
        Err(fault) => said(alloc, fault_word(fault)),
    }
}

fn path_text(alloc: Global, answer: Result<Text, FileFault>) -> io::Result<String> {
    match answer {
        Ok(path) => said(alloc, path.as_str()),
        Err(fault) => said(alloc, fault_word(fault)),
    }
}

fn done_word(answer: Result<(), FileFault>) -> &'static str {
    match answer {
        Ok(()) => "done",
        Err(fault) => fault_word(fault),
    }
}

/// What a host answers to a call, and by how much that raises its count of faults. It is written
/// twice by this, since a generic function isn't given a host of the lifetimes of the real one.
macro_rules! answer {
    ($files:expr, $alloc:expr, $call:expr) => {{
        let before = $files.file_faults();
        let answer = match $call.act {
            Act::Read => read_text($alloc, $files.read($alloc, $call.path, $call.limit)),
            Act::ReadPart => part_text(
                $alloc,
                $files.read_part($alloc, $call.path, $call.limit, $call.bytes.len() as u64),
            ),
            Act::ReadInput => input_text($alloc, $files.read_stdin($alloc, $call.limit)),
            Act::List => list_text($alloc, $files.list($alloc, $call.path)),
            Act::Kind => said($alloc, kind_word($files.kind($call.path))),
            Act::Variable => value_text($alloc, $files.env($alloc, $call.path)),
            Act::Here => path_text($alloc, $files.current_dir($alloc)),
            Act::MakeFolders => said($alloc, done_word($files.make_dirs($call.path))),
            Act::Create => said($alloc, done_word($files.create($call.path, $call.bytes))),
            _ => Err(io::Error::from(ErrorKind::Unsupported)),
        };
        counted($alloc, answer?, $files.file_faults().wrapping_sub(before))
    }};
}

/// An answer, and by how much it raised a count.
pub fn counted(alloc: Global, answer: String, rise: u64) -> io::Result<String> {
    Ok(format!(in alloc; "{answer}, {rise} counted")?)
}

/// What the host in memory answers.
pub fn asked_in_memory(files: &mut MemFiles, alloc: Global, call: &HostCall) -> io::Result<String> {
    answer!(files, alloc, call)
}

/// What the real host answers.
pub fn really_asked<'a>(
    files: &mut StdFiles<'a, Host<'a>>,
    alloc: Global,
    call: &HostCall,
) -> io::Result<String> {
    answer!(files, alloc, call)
}

/// What the host in memory answers to the two calls that tell what stands at a path.
fn node_told(files: &mut MemFiles, alloc: Global, path: &str) -> io::Result<Option<MemNode>> {
    let kind = files.kind(path);
    match kind {
        Ok(PathKind::File) => match files.read(alloc, path, u64::MAX) {
            Ok(ReadAnswer::Whole(bytes)) => Ok(Some(MemNode::File(Items::of(bytes)))),
            _ => Ok(None),
        },
        _ => match files.list(alloc, path) {
            Ok(Some(entries)) => Ok(Some(MemNode::Folder(entries))),
            _ if kind == Ok(PathKind::Other) => Ok(Some(MemNode::Other)),
            _ => Ok(None),
        },
    }
}

/// What stands at paths, as the host in memory tells it by two calls for each.
pub fn told(files: &mut MemFiles, alloc: Global, paths: &[String]) -> io::Result<String> {
    let mut text = String::new(alloc);
    for path in paths {
        let node = node_told(files, alloc, path.as_str())?;
        push_node(alloc, &mut text, path.as_str(), &node)?;
    }
    Ok(text)
}
