//! The wire over a mirror's folder beside servers in memory.
use crate::chance::contents;
use crate::host::{Failing, Host};
use crate::play::{Pair, World};
use crate::serving::{Mirror, Server, TAGS, exchanged, really_exchanged, request_of, tag_bytes};
use crate::standing::{made, said};
use crate::steps::{Act, Step};
use crate::turning::{MIRROR, Turn, Turned};
use crate::ways::{Way, below, way_to};
use audit_edges::MirrorWire;
use std::alloc::Global;
use std::os::unix::fs::symlink;
use std::{fs, io};
use tame_entry::OwnedRevision;
use tame_names::Text;
use tame_sparse::Request;

/// Both wires.
#[derive(Drop)]
pub struct Wires<'a> {
    pub mirror: Mirror<'a>,
    pub paths: &'a [String],
    pub real: MirrorWire<'a, Host<'a>>,
}

/// A number that is that of nothing in `TAGS`, beside those of tags.
const NAMED: [usize; 8] = [0, 0, 2, 3, 4, 5, 100, 101];

/// The revision that a step names.
fn named_of(alloc: Global, step: &Step) -> io::Result<Option<OwnedRevision>> {
    let number = NAMED[(step.fill / 16 % 8) as usize];
    match TAGS.get(number) {
        Some((_, tag)) => Ok(Some(OwnedRevision::Etag(made(Text::of(alloc, tag))?))),
        None if number == 100 => {
            let date = made(Text::of(alloc, "\"x\""))?;
            Ok(Some(OwnedRevision::LastModified(date)))
        }
        None => Ok(None),
    }
}

/// The file of a tag that a step lays.
fn tag_laid(alloc: Global, step: &Step) -> io::Result<Vec<u8>> {
    let (text, _) = TAGS[(step.fill / 32 % 13) as usize];
    Ok(tag_bytes(alloc, text)?)
}

/// What becomes of the mirror in a step.
fn turn_of(step: &Step) -> Turn {
    let turned = match step.size % 5 {
        0 | 1 => Turned::Put,
        2 => Turned::Removed,
        _ => Turned::Folder,
    };
    let tag = step.fill / 3 % 2;
    Turn {
        turned,
        left: step.amount % 8,
        place: (step.place % 2 * 2).saturating_add(tag as usize),
    }
}

/// The folder `next` with other files.
fn lay_next(host: &Host, step: &Step) -> io::Result<()> {
    let (rt, alloc) = (host.rt, host.rt.alloc());
    for old in ["next", "last"] {
        let _ = fs::remove_dir_all(rt, host.place(old)?.as_str());
    }
    fs::create_dir_all(rt, host.place("next/a")?.as_str())?;
    let body = contents(alloc, step.size, step.fill / 2)?;
    for path in ["next/k", "next/a/k"] {
        fs::write(rt, host.place(path)?.as_str(), body.as_slice())?;
    }
    let tag = tag_laid(alloc, step)?;
    for path in ["next/k.etag", "next/a/k.etag"] {
        fs::write(rt, host.place(path)?.as_str(), tag.as_slice())?;
    }
    Ok(())
}

/// What is to come to the mirror, laid beside it.
fn prepare(host: &Host, step: &Step, turn: Turn) -> io::Result<()> {
    let alloc = host.rt.alloc();
    match turn.turned {
        Turned::Nothing | Turned::Removed => Ok(()),
        Turned::Folder => lay_next(host, step),
        Turned::Put => {
            let bytes = if turn.place % 2 == 1 {
                tag_laid(alloc, step)?
            } else {
                contents(alloc, step.size, step.fill / 2)?
            };
            fs::write(host.rt, host.place("turn")?.as_str(), bytes.as_slice())
        }
    }
}

/// One of two answers, or a fault where one may come.
fn either(alloc: Global, before: String, after: String, real: String) -> io::Result<Pair> {
    let is_told = real.as_str() == before.as_str()
        || real.as_str() == after.as_str()
        || real.as_str() == "fault, 1 counted";
    let memory = if is_told {
        real.clone()?
    } else {
        format!(in alloc; "{before}, or {after}, or a fault")?
    };
    Ok(Pair {
        memory,
        real,
        known: false,
    })
}

impl<'a> Wires<'a> {
    /// What a server in memory answers.
    fn remembered(&self, request: &Request, fails: bool) -> io::Result<String> {
        let alloc = self.mirror.host.rt.alloc();
        match self.mirror.server(request.path.as_str(), fails)? {
            Server::Serves(mut wire) => exchanged(&mut wire, alloc, request),
            Server::Says(mut wire) => exchanged(&mut wire, alloc, request),
        }
    }

    fn ask(&mut self, step: &Step, request: &Request) -> io::Result<Pair> {
        let host = self.mirror.host;
        let memory = self.remembered(request, step.fails)?;
        host.begin(if step.fails {
            Failing::All
        } else {
            step.interrupt()
        });
        let real = really_exchanged(&mut self.real, host.rt.alloc(), request);
        host.begin(Failing::None);
        Ok(Pair {
            memory,
            real: real?,
            known: false,
        })
    }

    /// An exchange while the mirror changes at once: the answer is one of before or after, or a
    /// fault. Where the change comes behind the exchange it is the one of before.
    fn ask_turned(&mut self, step: &Step, request: &Request) -> io::Result<Pair> {
        let host = self.mirror.host;
        let alloc = host.rt.alloc();
        let before = self.remembered(request, false)?;
        let turn = turn_of(step);
        prepare(host, step, turn)?;
        host.plan.turn.set(turn);
        let real = really_exchanged(&mut self.real, alloc, request);
        let is_late = host.is_to_turn();
        host.turn()?;
        if is_late {
            return Ok(Pair {
                memory: before,
                real: real?,
                known: false,
            });
        }
        let after = self.remembered(request, false)?;
        either(alloc, before, after, real?)
    }

    /// Changes what stands, where it can be.
    fn lay(&self, step: &Step, path: &str) -> io::Result<()> {
        let host = self.mirror.host;
        let (rt, alloc) = (host.rt, host.rt.alloc());
        let place = below(host, MIRROR, path)?;
        let place = place.as_str();
        let way = way_to(host, MIRROR, path)?;
        match (step.act, way) {
            (Act::LayFile, Way::Free | Way::File) => {
                fs::write(rt, place, contents(alloc, step.size, step.fill)?.as_slice())
            }
            (Act::LayTag, Way::Free | Way::File) => {
                fs::write(rt, place, tag_laid(alloc, step)?.as_slice())
            }
            (Act::LayFolder, Way::Free) => fs::create_dir(rt, place),
            (Act::LayLink, Way::Free) => symlink(rt, "k", place),
            (Act::Remove, Way::File) => fs::remove_file(rt, place),
            _ => Ok(()),
        }
    }

    fn path(&self, step: &Step) -> io::Result<String> {
        let alloc = self.mirror.host.rt.alloc();
        let path = match self.paths.get(step.place) {
            Some(path) => path.as_str(),
            None => "",
        };
        match step.act {
            Act::LayTag => Ok(format!(in alloc; "{path}.etag")?),
            _ => said(alloc, path),
        }
    }
}

impl<'a> World for Wires<'a> {
    fn step(&mut self, step: &Step) -> io::Result<Pair> {
        let alloc = self.mirror.host.rt.alloc();
        let path = self.path(step)?;
        match step.act {
            Act::Ask | Act::AskTurned => {
                let request = request_of(alloc, path.as_str(), named_of(alloc, step)?)?;
                match step.act {
                    Act::Ask => self.ask(step, &request),
                    _ => self.ask_turned(step, &request),
                }
            }
            Act::Again => {
                self.real = MirrorWire::new(self.mirror.host, self.mirror.folder);
                Ok(Pair::nothing(alloc))
            }
            _ => {
                self.lay(step, path.as_str())?;
                Ok(Pair::nothing(alloc))
            }
        }
    }

    /// An exchange changes nothing that stands.
    fn state(&mut self) -> io::Result<Pair> {
        Ok(Pair::nothing(self.mirror.host.rt.alloc()))
    }
}
