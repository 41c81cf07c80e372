//! The program `cargo_audit`: a run over the real outside, started as its arguments and the
//! variables say.
#![tactic(auto)]

use audit_asked::NoRunner;
use audit_binaries::PlainDecoder;
use audit_edges::{FileCacheDisk, MirrorWire, StdFiles, StdSink};
use audit_program::run;
use audit_start::{
    StartFault, begin, closed_streams, given_arguments, is_plain, refuse, take_cache_lock,
};
use std::io;
use std::process::ExitCode;

/// Runs the command over the real outside, and gives the status.
fn run_started(rt: &HostRuntime) -> Result<u8, StartFault> {
    let _streams = closed_streams(rt)?;
    let arguments = given_arguments(rt)?;
    let mut files = StdFiles::new(rt);
    let mut err = StdSink::new(rt.stderr());
    let start = begin(rt.alloc(), arguments.as_slice(), &mut files)?;
    let plain = |path: &str| is_plain(rt, path);
    let lock = take_cache_lock(rt.alloc(), &start, plain, &mut files, &mut err)?;
    let outcome = run(
        rt.alloc(),
        arguments.as_slice(),
        &mut files,
        &mut PlainDecoder,
        &mut NoRunner::new(),
        &lock,
        &mut MirrorWire::new(rt, start.mirror.as_str()),
        &mut FileCacheDisk::new(rt, start.cache.as_str()),
        &mut StdSink::new(io::writer(rt)),
        &mut err,
    );
    Ok(outcome.status)
}

fn main(rt: HostRuntime) -> ExitCode {
    match run_started(&rt) {
        Ok(status) => ExitCode::from(status),
        Err(fault) => ExitCode::from(refuse(fault, &mut StdSink::new(rt.stderr()))),
    }
}
