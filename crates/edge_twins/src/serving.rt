//! A server in memory that holds what stands in the folder of a mirror, and the answers of wires as
//! texts.
use crate::host::Host;
use crate::host_calls::counted;
use crate::standing::{made, push_bytes, said};
use crate::ways::{Way, below, way_to};
use audit_edges::MirrorWire;
use std::alloc::{AllocError, Global};
use std::{fs, io};
use tame_entry::OwnedRevision;
use tame_names::{Items, Text};
use tame_sparse::{
    Held, MemWire, Request, Scripted, ServeWire, Wire, WireAnswer, WireFault, crates_io_request,
};

/// What stands in the file of a tag, and the tag that a request can name; none where that is empty.
/// `~` is the byte 255.
pub const TAGS: [(&str, &str); 13] = [
    ("\"x\"", "\"x\""),
    ("\"x\"\n", "\"x\""),
    ("W/\"y\"\n", "W/\"y\""),
    ("a b", "a b"),
    ("!", "!"),
    ("", ""),
    ("\n", ""),
    (" z", ""),
    ("z ", ""),
    ("\"x\"\n\n", ""),
    ("é", ""),
    ("~", ""),
    ("a\tb", ""),
];

/// The bytes of the file of a tag.
pub fn tag_bytes(alloc: Global, text: &str) -> Result<Vec<u8>, AllocError> {
    let mut bytes = text.as_bytes().to_vec(alloc)?;
    for byte in bytes.iter_mut() {
        if *byte == b'~' {
            *byte = 255;
        }
    }
    Ok(bytes)
}

/// The tag that the file of one tells; empty where it tells none.
fn tag_of(alloc: Global, file: &[u8]) -> Result<&'static str, AllocError> {
    for (text, tag) in TAGS {
        if tag_bytes(alloc, text)?.as_slice() == file {
            return Ok(tag);
        }
    }
    Ok("")
}

/// A mirror: its folder, and the paths at which files may stand in it.
#[derive(Clone, Copy)]
pub struct Mirror<'a> {
    pub host: &'a Host<'a>,
    pub folder: &'a str,
    pub paths: &'a [String],
}

/// What stands at a path of a mirror.
#[derive(Drop)]
enum Standing {
    Nothing,
    /// Something else than a file is there or on the way, or it is no path.
    Refused,
    /// A file with this tag.
    File(&'static str, Vec<u8>),
}

impl<'a> Mirror<'a> {
    fn bytes_at(&self, path: &str) -> io::Result<Vec<u8>> {
        let place = below(self.host, self.folder, path)?;
        fs::read(self.host.rt, place.as_str())
    }

    /// What stands at a path, as std finds it.
    fn standing(&self, path: &str) -> io::Result<Standing> {
        let alloc = self.host.rt.alloc();
        let tag_path = format!(in alloc; "{path}.etag")?;
        let tag_way = way_to(self.host, self.folder, tag_path.as_str())?;
        let way = way_to(self.host, self.folder, path)?;
        if tag_way == Way::Refused || way == Way::Refused {
            return Ok(Standing::Refused);
        }
        if way != Way::File {
            return Ok(Standing::Nothing);
        }
        let tag = match tag_way {
            Way::File => tag_of(alloc, self.bytes_at(tag_path.as_str())?.as_slice())?,
            _ => "",
        };
        Ok(Standing::File(tag, self.bytes_at(path)?))
    }

    /// The files that have a tag.
    fn held(&self) -> io::Result<Items<Held>> {
        let alloc = self.host.rt.alloc();
        let mut files = Items::new(alloc);
        for path in self.paths {
            match self.standing(path.as_str())? {
                Standing::File(tag, body) if !tag.is_empty() => {
                    made(files.add(held_file(alloc, path.as_str(), tag, body)?))?;
                }
                _ => {}
            }
        }
        Ok(files)
    }

    /// A server in memory that holds what stands, or that says what a mirror has to say of a path:
    /// it fails, or sends a file without a tag.
    pub fn server(&self, path: &str, fails: bool) -> io::Result<Server> {
        let alloc = self.host.rt.alloc();
        if fails {
            return saying(alloc, None);
        }
        match self.standing(path)? {
            Standing::Refused => saying(alloc, None),
            Standing::File("", body) => saying(alloc, Some(sent(body))),
            _ => Ok(Server::Serves(ServeWire::new(alloc, self.held()?))),
        }
    }
}

fn held_file(alloc: Global, path: &str, tag: &str, body: Vec<u8>) -> io::Result<Held> {
    Ok(Held {
        path: made(Text::of(alloc, path))?,
        etag: made(Text::of(alloc, tag))?,
        body: Items::of(body),
    })
}

/// A body that is sent without a tag.
fn sent(body: Vec<u8>) -> WireAnswer {
    WireAnswer {
        status: 200,
        revision: None,
        body: Items::of(body),
    }
}

/// A server in memory.
#[derive(Drop)]
pub enum Server {
    /// It serves what it holds.
    Serves(ServeWire),
    /// It says what it was told to.
    Says(MemWire),
}

fn saying(alloc: Global, answer: Option<WireAnswer>) -> io::Result<Server> {
    let mut script = Items::new(alloc);
    made(script.add(Scripted { held: None, answer }))?;
    Ok(Server::Says(MemWire::new(alloc, script)))
}

/// The request for a path that names a revision.
pub fn request_of(alloc: Global, path: &str, named: Option<OwnedRevision>) -> io::Result<Request> {
    let request = made(crates_io_request(alloc, path))?;
    Ok(Request {
        uri: request.uri,
        path: request.path,
        named,
    })
}

fn tag_text(revision: &Option<OwnedRevision>) -> &str {
    match revision {
        Some(OwnedRevision::Etag(tag)) => tag.as_str(),
        Some(OwnedRevision::LastModified(_)) => "a date",
        None => "no tag",
    }
}

/// An answer as a text.
fn answer_text(alloc: Global, answer: &WireAnswer) -> io::Result<String> {
    let tag = tag_text(&answer.revision);
    let mut text = format!(in alloc; "{}, {tag}, ", answer.status)?;
    push_bytes(alloc, &mut text, answer.body.as_slice())?;
    Ok(text)
}

fn exchange_text(alloc: Global, answer: Result<WireAnswer, WireFault>) -> io::Result<String> {
    match answer {
        Ok(answer) => answer_text(alloc, &answer),
        Err(WireFault::Failed) => said(alloc, "fault"),
        Err(WireFault::NoMemory) => said(alloc, "no memory"),
    }
}

/// What a wire answers to a request, and by how much that raises its count of faults. It is written
/// twice by this, since a generic function isn't given a wire of the lifetimes of the real one.
macro_rules! exchange {
    ($wire:expr, $alloc:expr, $request:expr) => {{
        let before = $wire.wire_faults();
        let answer = exchange_text($alloc, $wire.exchange($alloc, $request))?;
        counted($alloc, answer, $wire.wire_faults().wrapping_sub(before))
    }};
}

/// What a wire in memory answers.
pub fn exchanged<W: Wire>(wire: &mut W, alloc: Global, request: &Request) -> io::Result<String> {
    exchange!(wire, alloc, request)
}

/// What the real wire answers.
pub fn really_exchanged<'a>(
    wire: &mut MirrorWire<'a, Host<'a>>,
    alloc: Global,
    request: &Request,
) -> io::Result<String> {
    exchange!(wire, alloc, request)
}
