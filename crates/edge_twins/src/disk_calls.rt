//! Calls on a cache's disk, and their answers as texts, for each disk alike.
use crate::standing::{push_bytes, said};
use crate::steps::Act;
use std::alloc::Global;
use std::io::{self, ErrorKind};
use tame_cache::{CacheDisk, DiskFault, DiskReadFault, Peek};

/// A call on a disk.
#[derive(Clone, Copy)]
pub struct DiskCall<'a> {
    pub act: Act,
    pub path: &'a str,
    pub amount: u64,
    pub bytes: &'a [u8],
}

fn peek_text(alloc: Global, answer: Result<Peek, DiskFault>) -> io::Result<String> {
    match answer {
        Ok(Peek::Absent) => said(alloc, "absent"),
        Ok(Peek::Empty) => said(alloc, "empty"),
        Ok(Peek::Byte(byte)) => Ok(format!(in alloc; "byte {byte}")?),
        Err(_) => said(alloc, "fault"),
    }
}

/// A whole file, or that there is none.
pub fn whole_text(
    alloc: Global,
    answer: Result<Option<Vec<u8>>, DiskReadFault>,
) -> io::Result<String> {
    match answer {
        Ok(None) => said(alloc, "absent"),
        Ok(Some(bytes)) => {
            let mut text = said(alloc, "whole ")?;
            push_bytes(alloc, &mut text, bytes.as_slice())?;
            Ok(text)
        }
        Err(DiskReadFault::Failed) => said(alloc, "fault"),
        Err(DiskReadFault::NoMemory) => said(alloc, "no memory"),
    }
}

fn done_text(alloc: Global, answer: Result<(), DiskFault>) -> io::Result<String> {
    match answer {
        Ok(()) => said(alloc, "done"),
        Err(_) => said(alloc, "fault"),
    }
}

fn answer_text<D: CacheDisk>(disk: &mut D, alloc: Global, call: &DiskCall) -> io::Result<String> {
    match call.act {
        Act::Peek => peek_text(alloc, disk.peek(call.path)),
        Act::Whole => whole_text(alloc, disk.read(alloc, call.path)),
        Act::MakeAbove => done_text(alloc, disk.make_dirs(call.path)),
        Act::Write => done_text(alloc, disk.write_at(call.path, call.amount, call.bytes)),
        Act::Cut => done_text(alloc, disk.cut(call.path, call.amount)),
        Act::Sync => done_text(alloc, disk.sync(call.path)),
        _ => Err(io::Error::from(ErrorKind::Unsupported)),
    }
}

/// What a call answers, and by how much it raises the count of faults.
pub fn asked<D: CacheDisk>(disk: &mut D, alloc: Global, call: &DiskCall) -> io::Result<String> {
    let before = disk.disk_faults();
    let answer = answer_text(disk, alloc, call)?;
    let rise = disk.disk_faults().wrapping_sub(before);
    Ok(format!(in alloc; "{answer}, {rise} counted")?)
}
