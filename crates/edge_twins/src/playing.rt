//! What sequences are played on.
use crate::audits::{audits_of, index_at, krate_paths};
use crate::chance::{Chance, contents};
use crate::disks::{Disks, disk_failing, disk_paths};
use crate::host::{Failing, FailurePlan, Host};
use crate::hosts::{Hosts, failing, lay, lay_aside, stated, variables};
use crate::places::{Spelling, paths_of, spelled};
use crate::play::{Count, Difference, play};
use crate::sequences::{Sequence, Twins};
use crate::serving::Mirror;
use crate::sinks::{Outlet, Sinks, opened_outlet, sink_failing};
use crate::standing::{made, said};
use crate::steps::{Step, is_laying};
use crate::turning::{MIRROR, UNTURNED};
use crate::wires::Wires;
use audit_edges::{FileCacheDisk, MirrorWire, StdFiles, StdSink};
use std::alloc::{AllocError, Global};
use std::cell::Cell;
use std::{env, fs, io};
use tame_cache::MemCacheDisk;
use tame_names::{Items, MemFiles, MemSink, Text};

/// What a host has but for files, by a number.
pub fn plan_of(alloc: Global, variant: u64) -> Result<FailurePlan, AllocError> {
    let mut chance = Chance::of(variant);
    let input = chance.among(&[0, 1, 5, 5, 4096, 8192, 8193, 20000]) as usize;
    let current: &[u8] = match chance.below(6) {
        0 => &[],
        1 => &[b'/', 255],
        2 => "/é\n/b".as_bytes(),
        _ => "/home/x".as_bytes(),
    };
    Ok(FailurePlan {
        failing: Cell::new(Failing::None),
        calls: Cell::new(0),
        turn: Cell::new(UNTURNED),
        most: chance.among(&[1000, 4096, 8191, 1000000]) as usize,
        syncs: chance.below(32) == 0,
        input: contents(alloc, input, variant)?,
        read: Cell::new(0),
        current: Vec::from_slice(alloc, current)?,
    })
}

/// How many steps are done before the first call.
fn laid_count(steps: &[Step]) -> usize {
    let mut count = 0;
    for step in steps {
        if !is_laying(step.act) {
            return count;
        }
        count = count.saturating_add(1);
    }
    count
}

/// The host in memory, which is told what std finds.
fn memory_of(
    host: &Host,
    paths: &[String],
    spelling: &Spelling,
    steps: &[Step],
) -> io::Result<MemFiles> {
    let alloc = host.rt.alloc();
    let fails = failing(alloc, paths, steps)?;
    let variables = variables(alloc)?;
    let current = match std::str::from_utf8(host.plan.current.as_slice()) {
        Ok(text) => made(Text::of(alloc, text))?,
        Err(_) => Text::from_string(String::new(alloc)),
    };
    let input = Items::of(host.plan.input.clone()?);
    let files = stated(host, paths, spelling.front.as_str())?;
    Ok(
        MemFiles::new(alloc, files, fails)
            .with_variables(variables)
            .with_current(current)
            .with_input(input),
    )
}

/// The whole path of the base.
fn whole_base(host: &Host) -> io::Result<String> {
    let current = env::current_dir(host.rt)?;
    Ok(format!(in host.rt.alloc(); "{}/{}", current.as_str(), host.base)?)
}

fn play_hosts(
    host: &Host,
    sequence: &Sequence,
    count: &mut Count,
) -> io::Result<Option<Difference>> {
    let alloc = host.rt.alloc();
    let spelling = spelled(alloc, sequence.variant, whole_base(host)?.as_str())?;
    let paths = paths_of(alloc, &spelling)?;
    let steps = sequence.steps.as_slice();
    let (front, calls) = steps
        .split_at_checked(laid_count(steps))
        .unwrap_or((&[], &[]));
    lay_aside(host)?;
    for step in front {
        lay(host, paths.as_slice(), step)?;
    }
    let memory = memory_of(host, paths.as_slice(), &spelling, calls)?;
    let mut hosts = Hosts {
        host,
        paths: paths.as_slice(),
        memory,
        real: StdFiles::new(host),
        is_input_torn: false,
    };
    play(&mut hosts, calls, count)
}

fn play_disks(
    host: &Host,
    sequence: &Sequence,
    count: &mut Count,
) -> io::Result<Option<Difference>> {
    let alloc = host.rt.alloc();
    let whole = format!(in alloc; "{}/cache", whole_base(host)?)?;
    let folder = match sequence.variant % 5 {
        0 => "cache",
        1 => "deep/cache",
        2 => "./cache",
        3 => whole.as_str(),
        _ => "deep//cache/",
    };
    let paths = disk_paths(alloc)?;
    let steps = sequence.steps.as_slice();
    if sequence.variant % 2 == 0 {
        fs::create_dir_all(host.rt, host.place(folder)?.as_str())?;
    }
    let mut disks = Disks {
        host,
        folder,
        paths: paths.as_slice(),
        memory: MemCacheDisk::new(alloc, disk_failing(alloc, steps)?),
        real: FileCacheDisk::new(host, folder),
        folders: [false; 8],
        shut: None,
        noted: Vec::new(alloc),
    };
    play(&mut disks, steps, count)
}

/// The folder of a mirror, as it is written.
fn mirror_folder(host: &Host, variant: u64) -> io::Result<String> {
    let alloc = host.rt.alloc();
    match variant % 3 {
        0 => said(alloc, MIRROR),
        1 => Ok(format!(in alloc; "./{MIRROR}/")?),
        _ => Ok(format!(in alloc; "{}/{MIRROR}", whole_base(host)?)?),
    }
}

fn play_wires(
    host: &Host,
    sequence: &Sequence,
    count: &mut Count,
) -> io::Result<Option<Difference>> {
    let folder = mirror_folder(host, sequence.variant)?;
    let mut paths = disk_paths(host.rt.alloc())?;
    paths.push(said(host.rt.alloc(), "k.etag")?)?;
    if sequence.variant % 5 > 0 {
        fs::create_dir_all(host.rt, host.place("mirror/a")?.as_str())?;
    }
    let mut wires = Wires {
        mirror: Mirror {
            host,
            folder: folder.as_str(),
            paths: paths.get(..8).unwrap_or(&[]),
        },
        paths: paths.as_slice(),
        real: MirrorWire::new(host, folder.as_str()),
    };
    play(&mut wires, sequence.steps.as_slice(), count)
}

fn play_sinks(
    host: &Host,
    sequence: &Sequence,
    count: &mut Count,
) -> io::Result<Option<Difference>> {
    let alloc = host.rt.alloc();
    let steps = sequence.steps.as_slice();
    let outlet = Outlet::of(sequence.variant);
    let mut sinks = Sinks {
        host,
        outlet,
        answers: MemSink::new(alloc, sink_failing(alloc, outlet, steps)?),
        memory: MemSink::new(alloc, Items::new(alloc)),
        real: StdSink::new(opened_outlet(host, outlet)?),
    };
    play(&mut sinks, steps, count)
}

fn play_audits(
    host: &Host,
    sequence: &Sequence,
    count: &mut Count,
) -> io::Result<Option<Difference>> {
    let alloc = host.rt.alloc();
    let folder = mirror_folder(host, sequence.variant)?;
    let paths = krate_paths(alloc)?;
    let index = index_at(
        alloc,
        if sequence.variant % 2 == 0 {
            ""
        } else {
            "index"
        },
    )?;
    let mut audits = audits_of(host, folder.as_str(), paths.as_slice(), index);
    play(&mut audits, sequence.steps.as_slice(), count)
}

/// Plays a sequence up to its first difference.
pub fn played(
    host: &Host,
    sequence: &Sequence,
    count: &mut Count,
) -> io::Result<Option<Difference>> {
    match sequence.twins {
        Twins::Hosts => play_hosts(host, sequence, count),
        Twins::Disks => play_disks(host, sequence, count),
        Twins::Wires => play_wires(host, sequence, count),
        Twins::Sinks => play_sinks(host, sequence, count),
        Twins::Audits => play_audits(host, sequence, count),
    }
}
