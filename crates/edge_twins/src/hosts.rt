//! The host in memory beside the real one.
use crate::chance::contents;
use crate::host::{Failing, Host};
use crate::host_calls::{HostCall, asked_in_memory, really_asked, told};
use crate::known::is_refused;
use crate::places::{CHECKED, LINK, is_too_long, path_of};
use crate::play::{Pair, World};
use crate::standing::{made, node_at, said, walked};
use crate::steps::{Act, Step};
use crate::surroundings::{VARIABLES, variable_bytes};
use audit_edges::StdFiles;
use std::alloc::Global;
use std::os::unix::fs::symlink;
use std::{fs, io};
use tame_names::{EnvValue, Files, Items, MemFile, MemFiles, MemNode, MemVariable, Text, parent};

/// Where the link of a sequence leads.
const TARGETS: [&str; 6] = [
    "aside/file",
    "aside/folder",
    "aside/empty",
    "aside/nothing",
    "l",
    "/dev/null",
];

/// Lays what links lead to.
pub fn lay_aside(host: &Host) -> io::Result<()> {
    for folder in ["aside", "aside/folder", "aside/empty"] {
        fs::create_dir(host.rt, host.place(folder)?.as_str())?;
    }
    for file in ["aside/file", "aside/folder/x"] {
        fs::write(host.rt, host.place(file)?.as_str(), "aside".as_bytes())?;
    }
    Ok(())
}

/// Lays what a step says, where that can be.
pub fn lay(host: &Host, paths: &[String], step: &Step) -> io::Result<()> {
    let Some(path) = paths.get(step.place) else {
        return Ok(());
    };
    let place = host.place(path.as_str())?;
    let place = place.as_str();
    match step.act {
        Act::LayFolder => {
            let _ = fs::create_dir(host.rt, place);
        }
        Act::LayLink => {
            let target = TARGETS
                .get((step.other % 6) as usize)
                .copied()
                .unwrap_or("l");
            let _ = symlink(host.rt, target, place);
        }
        _ => {
            let bytes = contents(host.rt.alloc(), step.size, step.fill)?;
            let _ = fs::write(host.rt, place, bytes.as_slice());
        }
    }
    Ok(())
}

/// The folders on the way to the places, as folders in memory.
fn add_ways(alloc: Global, files: &mut Items<MemFile>, front: &str) -> io::Result<()> {
    for end in 1..front.len() {
        let way = match front.split_at_checked(end) {
            Some((way, rest)) if rest.starts_with('/') => way,
            _ => continue,
        };
        made(files.add(MemFile {
            path: made(Text::of(alloc, way))?,
            node: MemNode::Folder(Items::new(alloc)),
        }))?;
    }
    Ok(())
}

/// What stands at these paths, as std finds it, and folders on the way to them.
pub fn stated(host: &Host, paths: &[String], front: &str) -> io::Result<Items<MemFile>> {
    let alloc = host.rt.alloc();
    let mut files = Items::new(alloc);
    for path in paths {
        if let Some(node) = node_at(host, path.as_str())? {
            let path = made(Text::of(alloc, path.as_str()))?;
            made(files.add(MemFile { path, node }))?;
        }
    }
    add_ways(alloc, &mut files, front)?;
    Ok(files)
}

/// The variables of the host.
pub fn variables(alloc: Global) -> io::Result<Items<MemVariable>> {
    let mut variables = Items::new(alloc);
    for name in VARIABLES {
        let Some(bytes) = variable_bytes(name) else {
            continue;
        };
        let value = match std::str::from_utf8(bytes) {
            Ok(text) => EnvValue::Value(made(Text::of(alloc, text))?),
            Err(_) => EnvValue::NotUtf8,
        };
        let name = made(Text::of(alloc, name))?;
        made(variables.add(MemVariable { name, value }))?;
    }
    Ok(variables)
}

/// Whether all calls on the system of a step are to fail. The environment has none, and no folder
/// has to be made for the empty path.
fn is_failing(step: &Step, path: &str) -> bool {
    match step.act {
        Act::Variable => false,
        Act::MakeFolders => step.fails && !path.is_empty(),
        _ => step.fails,
    }
}

/// What befalls the calls on the system of a step. The input is read by none that can be made
/// again.
fn failing_of(step: &Step, path: &str) -> Failing {
    if is_failing(step, path) {
        return Failing::All;
    }
    match step.act {
        Act::ReadInput => Failing::None,
        _ => step.interrupt(),
    }
}

/// The numbers of the calls in memory that are to fail: of each step one, and behind it two for
/// each place that is compared.
pub fn failing(alloc: Global, paths: &[String], steps: &[Step]) -> io::Result<Items<u64>> {
    let mut numbers = Vec::new(alloc);
    let mut next: u64 = 1;
    for step in steps {
        let path = path_of(alloc, paths, step)?;
        if is_failing(step, path.as_str()) {
            numbers.push(next)?;
        }
        next = next.saturating_add(2 * CHECKED as u64 + 1);
    }
    Ok(Items::of(numbers))
}

/// Both hosts.
#[derive(Drop)]
pub struct Hosts<'a> {
    pub host: &'a Host<'a>,
    pub paths: &'a [String],
    pub memory: MemFiles,
    pub real: StdFiles<'a, Host<'a>>,
    /// That the input was over a limit. Which part of it is left then is known to differ.
    pub is_input_torn: bool,
}

/// Whether a call asks for the path of the current folder where this is no text.
fn is_nameless(host: &Host, act: Act) -> bool {
    act == Act::Here && std::str::from_utf8(host.plan.current.as_slice()).is_err()
}

impl<'a> Hosts<'a> {
    /// Whether the real host alone refuses a call.
    fn is_known(&self, act: Act, path: &str) -> io::Result<bool> {
        match act {
            Act::Read | Act::ReadPart | Act::List | Act::Kind | Act::MakeFolders | Act::Create => {
                let link = match self.paths.get(LINK) {
                    Some(link) => link.as_str(),
                    None => "",
                };
                is_refused(self.host, act, path, link)
            }
            _ => Ok(is_nameless(self.host, act)),
        }
    }

    fn ask(&mut self, call: &HostCall) -> io::Result<Pair> {
        let alloc = self.host.rt.alloc();
        let known = self.is_known(call.act, call.path)?;
        let real = really_asked(&mut self.real, alloc, call)?;
        let memory = if known {
            self.pass_over(call);
            said(alloc, "fault, 1 counted")?
        } else {
            asked_in_memory(&mut self.memory, alloc, call)?
        };
        Ok(Pair {
            memory,
            real,
            known,
        })
    }

    /// One call on the host in memory that does what the refused call may have done: it has made
    /// the folder above one whose name is too long.
    fn pass_over(&mut self, call: &HostCall) {
        match parent(call.path) {
            Some(above) if call.act == Act::MakeFolders && is_too_long(call.path) => {
                let _ = self.memory.make_dirs(above);
            }
            _ => {
                let _ = self.memory.kind("");
            }
        }
    }

    /// A read of an input of which a part was read.
    fn ask_nothing(&mut self) -> io::Result<Pair> {
        let alloc = self.host.rt.alloc();
        let _ = self.memory.kind("");
        Ok(Pair {
            memory: String::new(alloc),
            real: String::new(alloc),
            known: true,
        })
    }

    fn read_input(&mut self, call: &HostCall) -> io::Result<Pair> {
        if self.is_input_torn {
            return self.ask_nothing();
        }
        let pair = self.ask(call)?;
        self.is_input_torn = pair.real.as_str().starts_with("over");
        Ok(pair)
    }
}

impl<'a> World for Hosts<'a> {
    fn step(&mut self, step: &Step) -> io::Result<Pair> {
        let alloc = self.host.rt.alloc();
        let path = match step.act {
            Act::Variable => said(alloc, VARIABLES[(step.other % 7) as usize])?,
            _ => path_of(alloc, self.paths, step)?,
        };
        let bytes = contents(alloc, step.size, step.fill)?;
        let call = HostCall {
            act: step.act,
            path: path.as_str(),
            limit: step.amount,
            bytes: bytes.as_slice(),
        };
        self.host.begin(failing_of(step, path.as_str()));
        let pair = match step.act {
            Act::ReadInput => self.read_input(&call),
            _ => self.ask(&call),
        };
        self.host.begin(Failing::None);
        pair
    }

    fn state(&mut self) -> io::Result<Pair> {
        let paths = self.paths.get(..CHECKED).unwrap_or(&[]);
        Ok(Pair {
            memory: told(&mut self.memory, self.host.rt.alloc(), paths)?,
            real: walked(self.host, paths)?,
            known: false,
        })
    }
}
