//! The edges of the audit over real files, as a table: each line of the input is a command, each
//! line of the output the command and its answer. A line with `#` begins a case, without any files.
//!
//! What stands: `file PLACE = TEXT`, `link PLACE -> TARGET`, `folder PLACE`, `hole PLACE LENGTH`,
//! `remove PLACE`; `show PLACE` tells it. `again` makes new edges, as a next run does.
//!
//! Calls on the edges: `peek`, `read`, `folders`, `write PATH AT TEXT`, `cut PATH LENGTH`, `sync`
//! on the cache, `store NAME TAG LINE` and `entry NAME` by the cache's own write and read;
//! `fill PATH AT COUNT`, a write of that many zero bytes; `ask PATH` and `ask PATH naming TAG` on
//! the mirror; `text PATH LIMIT`, `part PATH FROM LIMIT`, `list PATH` and `kind PATH` on the
//! host's files, `input LIMIT` on its input, `env NAME` on its environment, `here` on its current
//! folder; `dirs PATH` and `create PATH TEXT`, which make folders and a file;
//! `lock exclusive PATH` and `lock shared PATH`, which open a file and take its lock, `try-lock`
//! the same without waiting, `try-lock-beside HOLDER exclusive PATH` while another opening of the
//! file holds its lock so, `try-lock-nothing PATH` of what isn't open; `put TEXT` and
//! `put-closed TEXT` on an output. `fault N` is a fault, with the edge's count. After `real` the
//! host is the system itself, for `list`, `kind`, `env` and `kind-here`, which tells what is at the
//! path of the current folder.
//!
//! The host's input is the file `elsewhere/input`, its variables are the files of the folder
//! `variables`, and its current folder is told by the file `elsewhere/current`, if there is one.
//! In a name that is listed `~` stands for the byte 255. Of the calls that read the entries of a
//! folder, or the input, the first alone is recorded.
//!
//! Before a call: `calls` lists its calls on the system; `fails N` lets the Nth of them fail, and
//! `fails-as KIND N` with another error than a denied permission, `read-only` or `unsupported`;
//! `each-fails` and `each-interrupted` make the call as often as it has such calls, from the state
//! that the case's lines led to, and let each of them fail, or be interrupted twice, in turn;
//! `each-turned` puts the folder `next` into the mirror's place before each of them in turn, or
//! where there is none the text of the file `elsewhere/now` into the file `mirror/1/a`.
#![tactic(auto)]

mod asked;
mod changed;
mod edges;
mod host;
mod script;
mod surroundings;
mod texts;

use crate::host::{FailurePlan, Host};
use crate::script::Script;
use std::io;
use std::process::ExitCode;

fn play(rt: &HostRuntime) -> io::Result<()> {
    let plan = FailurePlan::new();
    let host = Host { rt, plan: &plan };
    let mut script = Script::new(&host);
    for line in rt.lines(rt.alloc()) {
        script.line(line?.as_str())?;
    }
    script.clear()
}

fn main(rt: HostRuntime) -> ExitCode {
    match play(&rt) {
        Ok(()) => ExitCode::from(0),
        Err(error) => {
            let _ = println!(rt; "stopped: {error}");
            ExitCode::from(1)
        }
    }
}
