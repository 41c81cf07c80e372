//! The calls of caches on real files, told one by one, for a test that makes them crash.
use crate::audits::{body_of, cache_path, index_at, krate_of};
use crate::chance::{Chance, contents};
use crate::disk_calls::{DiskCall, asked};
use crate::making::told_steps;
use crate::recording::Recorder;
use crate::steps::{Act, Step};
use crate::turns::{Krate, stored};
use audit_edges::FileCacheDisk;
use std::io;
use tame_cache::CacheDisk;
use tame_sparse::SparseIndex;

type Disk<'a> = Recorder<'a, FileCacheDisk<'a, HostRuntime>>;

/// A call on the disk of its own, on the file of a crate.
fn call<'a>(
    rt: &HostRuntime,
    disk: &mut Disk<'a>,
    krate: Krate<'_>,
    step: &Step,
) -> io::Result<String> {
    let alloc = rt.alloc();
    let path = cache_path(alloc, krate)?;
    let bytes = contents(alloc, step.size, step.fill)?;
    let call = DiskCall {
        act: step.act,
        path: path.as_str(),
        amount: step.amount,
        bytes: bytes.as_slice(),
    };
    asked(disk, alloc, &call)
}

/// Stores an entry, or makes a call of its own.
fn play<'a>(
    rt: &HostRuntime,
    disk: &mut Disk<'a>,
    krate: Krate<'_>,
    step: &Step,
) -> io::Result<String> {
    if step.act != Act::Store {
        return call(rt, disk, krate, step);
    }
    let body = body_of(rt.alloc(), step.size, step.fill)?;
    stored(rt.alloc(), krate, disk, body.as_slice(), step.amount)
}

fn opened<'x>(rt: &'x HostRuntime, folder: &'x str) -> Disk<'x> {
    Recorder::new(rt.alloc(), FileCacheDisk::new(rt, folder), Some(rt))
}

/// The cache is opened anew. What waits to be written is written by a look at its file before.
fn open_again<'x>(
    rt: &'x HostRuntime,
    folder: &'x str,
    disk: &mut Disk<'x>,
    path: &str,
) -> io::Result<()> {
    let _ = disk.peek(path);
    let told = println!(rt; "again");
    *disk = opened(rt, folder);
    told
}

/// Makes the call of a step.
fn tell_step<'x>(
    rt: &'x HostRuntime,
    folder: &'x str,
    disk: &mut Disk<'x>,
    krate: Krate<'_>,
    step: &Step,
) -> io::Result<()> {
    disk.begin(u64::MAX);
    if step.act == Act::Again {
        let path = cache_path(rt.alloc(), krate)?;
        open_again(rt, folder, disk, path.as_str())
    } else {
        let _ = play(rt, disk, krate, step)?;
        Ok(())
    }
}

/// Makes the calls of steps.
fn tell_steps<'x>(
    rt: &'x HostRuntime,
    folder: &'x str,
    disk: &mut Disk<'x>,
    index: &SparseIndex,
    steps: &[Step],
) -> io::Result<()> {
    for step in steps {
        tell_step(rt, folder, disk, krate_of(index, step.place)?, step)?;
    }
    Ok(())
}

/// Makes the calls of a number on the cache in a folder. Each is told before it is made, and its
/// answer behind it.
pub fn tell_calls<'x>(
    rt: &'x HostRuntime,
    folder: &'x str,
    seed: u64,
    number: u64,
) -> io::Result<()> {
    let mut chance = Chance::of(seed.wrapping_mul(1000003).wrapping_add(number));
    let steps = told_steps(rt.alloc(), &mut chance)?;
    let index = index_at(rt.alloc(), "")?;
    let mut disk = opened(rt, folder);
    tell_steps(rt, folder, &mut disk, &index, steps.as_slice())
}
