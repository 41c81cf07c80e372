//! What the system gives the program: its arguments, its standard streams, and whether a path is a
//! link. No contract can say what that is.
ghost use Rattle.std.specs.Prelude.{◌≡◌, ◌⊎◌, IfErr};

use crate::faults::StartFault;
use std::env;
use std::fs::{self, File};
use std::io::ErrorKind;
use std::os::fd::AsRawFd;

/// The number of the last standard stream.
const LAST_STREAM: i32 = 2;

/// What takes the numbers of standard streams that are closed, so that no file of an audit gets one
/// of them, and with it what is printed there. It is the root folder, which can be neither read nor
/// written: a closed stream stays a fault. Hold it as long as the audit runs.
pub fn closed_streams(rt: &HostRuntime) -> Result<Vec<File>, StartFault>
    ensures { IfErr result (λ e. e ≡ StartFault.NoMemory) }
{
    let mut held = Vec::new(rt.alloc());
    for _stream in 0..=LAST_STREAM {
        // a file that is opened gets the least number that is free
        let Ok(file) = File::open(rt, "/") else {
            break;
        };
        if file.as_raw_fd() > LAST_STREAM {
            break;
        }
        if held.push(file).is_err() {
            return Err(StartFault::NoMemory);
        }
    }
    Ok(held)
}

/// The arguments after the program's own path.
pub fn given_arguments(rt: &HostRuntime) -> Result<Vec<String>, StartFault>
    ensures { IfErr result (λ e. (e ≡ StartFault.Argument) ⊎ (e ≡ StartFault.NoMemory)) }
{
    let given = match env::args(rt) {
        Ok(given) => given,
        Err(error) if error.kind() == ErrorKind::OutOfMemory => return Err(StartFault::NoMemory),
        Err(_) => return Err(StartFault::Argument),
    };
    let mut arguments = Vec::new(rt.alloc());
    for argument in given.skip(1) {
        if arguments.push(argument).is_err() {
            return Err(StartFault::NoMemory);
        }
    }
    Ok(arguments)
}

/// Whether a plain file or nothing is at a path. No link is followed. If the path can't be looked
/// at, the lock's own calls say what is wrong.
pub fn is_plain(rt: &HostRuntime, path: &str) -> bool {
    match fs::symlink_metadata(rt, path) {
        Ok(found) => found.is_file(),
        Err(_) => true,
    }
}
