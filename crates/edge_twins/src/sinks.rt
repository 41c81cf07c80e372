//! The output in memory beside the one over a file.
use crate::chance::contents;
use crate::host::{Failing, Host, HostFile};
use crate::host_calls::counted;
use crate::play::{Pair, World};
use crate::standing::{push_bytes, said};
use crate::steps::Step;
use audit_edges::StdSink;
use std::alloc::{AllocError, Global};
use std::fs::{self, OpenOptions};
use std::io;
use tame_names::{Items, MemSink, Sink, put_piece};

/// Where an output goes.
#[derive(Clone, Copy, PartialEq, Eq)]
pub enum Outlet {
    /// To a new file.
    File,
    /// To a file that was opened to be read.
    Closed,
    /// To a device that has no room.
    Full,
}

impl Outlet {
    /// The outlet of a number.
    pub fn of(variant: u64) -> Outlet {
        match variant % 12 {
            0 => Outlet::Closed,
            1 => Outlet::Full,
            _ => Outlet::File,
        }
    }
}

/// Both outputs. Two in memory act as one: the puts of the first fail as the steps do, and the
/// second holds what was appended of each piece.
#[derive(Drop)]
pub struct Sinks<'a> {
    pub host: &'a Host<'a>,
    pub outlet: Outlet,
    pub answers: MemSink,
    pub memory: MemSink,
    pub real: StdSink<HostFile<'a>>,
}

/// Whether a put of bytes fails in a step.
fn is_failing(outlet: Outlet, step: &Step) -> bool {
    step.fails || outlet != Outlet::File
}

fn failing_of(step: &Step) -> Failing {
    if !step.fails {
        step.interrupt()
    } else if step.fill % 2 == 0 {
        Failing::All
    } else {
        Failing::Later
    }
}

/// The numbers of the puts in memory that must fail: each step whose piece has bytes makes one.
pub fn sink_failing(
    alloc: Global,
    outlet: Outlet,
    steps: &[Step],
) -> Result<Items<u64>, AllocError> {
    let mut numbers = Vec::new(alloc);
    let mut next: u64 = 1;
    for step in steps {
        if step.size == 0 {
            continue;
        }
        if is_failing(outlet, step) {
            numbers.push(next)?;
        }
        next = next.saturating_add(1);
    }
    Ok(Items::of(numbers))
}

/// The file of an output, opened.
pub fn opened_outlet<'a>(host: &'a Host<'a>, outlet: Outlet) -> io::Result<HostFile<'a>> {
    let place = match outlet {
        Outlet::Full => said(host.rt.alloc(), "/dev/full")?,
        _ => host.place("out")?,
    };
    if outlet != Outlet::Full {
        fs::write(host.rt, place.as_str(), "".as_bytes())?;
    }
    let mut how = OpenOptions::new();
    match outlet {
        Outlet::Closed => how.read(true),
        _ => how.write(true),
    };
    Ok(host.opened(how.open(host.rt, place.as_str())?))
}

/// What an output answers to a piece, and by how much that raises its count of faults.
fn put_text<S: Sink>(sink: &mut S, alloc: Global, piece: &[u8]) -> io::Result<String> {
    let before = sink.sink_faults();
    let word = match put_piece(sink, piece) {
        Ok(()) => "done",
        Err(_) => "fault",
    };
    counted(
        alloc,
        said(alloc, word)?,
        sink.sink_faults().wrapping_sub(before),
    )
}

impl<'a> Sinks<'a> {
    /// What the output holds, as std finds it.
    fn found(&self) -> io::Result<Vec<u8>> {
        match self.outlet {
            Outlet::File => fs::read(self.host.rt, self.host.place("out")?.as_str()),
            _ => Ok(Vec::new(self.host.rt.alloc())),
        }
    }

    /// The part from the front of a piece that was appended though the put failed.
    fn appended<'p>(&self, piece: &'p [u8]) -> io::Result<&'p [u8]> {
        let found = self.found()?.len();
        let came = found.saturating_sub(self.memory.bytes().len());
        Ok(piece.get(..came).unwrap_or(&[]))
    }
}

impl<'a> World for Sinks<'a> {
    fn step(&mut self, step: &Step) -> io::Result<Pair> {
        let alloc = self.host.rt.alloc();
        let piece = contents(alloc, step.size, step.fill)?;
        let memory = put_text(&mut self.answers, alloc, piece.as_slice())?;
        self.host.begin(failing_of(step));
        let real = put_text(&mut self.real, alloc, piece.as_slice());
        self.host.begin(Failing::None);
        let appended = if memory.as_str().starts_with("fault") {
            self.appended(piece.as_slice())?
        } else {
            piece.as_slice()
        };
        let _ = put_piece(&mut self.memory, appended);
        Ok(Pair {
            memory,
            real: real?,
            known: false,
        })
    }

    fn state(&mut self) -> io::Result<Pair> {
        let alloc = self.host.rt.alloc();
        let mut pair = Pair::nothing(alloc);
        push_bytes(alloc, &mut pair.memory, self.memory.bytes())?;
        push_bytes(alloc, &mut pair.real, self.found()?.as_slice())?;
        Ok(pair)
    }
}
