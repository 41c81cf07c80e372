//! Fixed calls on a disk that records them. Such disks stand on both sides of the sequences, so
//! what is wrong with them would be alike on both; here their answers and records are told.
use crate::disk_calls::{DiskCall, asked, whole_text};
use crate::recording::Recorder;
use crate::steps::Act;
use std::io;
use tame_cache::{CacheDisk, MemCacheDisk};

/// The file that is called for.
const FILE: &str = "a/k";

/// The calls: what each does, by which number and with which bytes. The second write is past the
/// end, so the disk refuses it.
const CALLS: [(Act, u64, &str); 8] = [
    (Act::Peek, 0, ""),
    (Act::Whole, 0, ""),
    (Act::MakeAbove, 0, ""),
    (Act::Write, 0, "text"),
    (Act::Write, 9, "more"),
    (Act::Sync, 0, ""),
    (Act::Whole, 0, ""),
    (Act::Cut, 2, ""),
];

/// Makes the calls, of which so many are let through. Tells their answers, the record of them and
/// the file that they leave.
fn tell_calls(
    rt: &HostRuntime,
    title: &str,
    disk: &mut Recorder<'_, MemCacheDisk>,
    left: u64,
) -> io::Result<()> {
    let alloc = rt.alloc();
    disk.begin(left);
    println!(rt; "{title}")?;
    for (act, amount, text) in CALLS {
        let call = DiskCall {
            act,
            path: FILE,
            amount,
            bytes: text.as_bytes(),
        };
        print!(rt; "{}; ", asked(disk, alloc, &call)?)?;
    }
    let file = disk.disk.read(alloc, FILE);
    let file = whole_text(alloc, file)?;
    println!(rt; "{} in all", disk.disk_faults())?;
    println!(rt; "{}the file: {file}", disk.record()?)
}

/// Tells the calls: all let through, two of them, and all on a disk that fails.
fn tell_each(rt: &HostRuntime, disk: &mut Recorder<'_, MemCacheDisk>) -> io::Result<()> {
    tell_calls(rt, "recorded, all calls let through:", disk, u64::MAX)?;
    tell_calls(rt, "recorded, two calls let through:", disk, 2)?;
    disk.disk.stop_at(1);
    tell_calls(rt, "recorded, on a disk that fails:", disk, u64::MAX)
}

/// Tells the calls on a disk in memory.
pub fn tell_recorded(rt: &HostRuntime) -> io::Result<()> {
    let alloc = rt.alloc();
    let memory = MemCacheDisk::new(alloc, Vec::new(alloc));
    let mut disk = Recorder::new(alloc, memory, None);
    tell_each(rt, &mut disk)
}
