//! A folder in place of a server.
ghost use Rattle.std.specs.Prelude.{◌≡◌, [], ⊤};

use crate::below::{Root, read_whole};
use crate::reading::made;
use std::alloc::Global;
use std::io::{self, ErrorKind};
use std::rt;
use tame_entry::OwnedRevision;
use tame_names::{Items, Text};
use tame_sparse::{Request, Wire, WireAnswer, WireFault};

/// The largest file of a mirror that is sent, in bytes: 64 MiB.
pub const MIRROR_LIMIT: u64 = 67108864;

/// Answers a path by the file there in a folder: 404 if it is absent, 304 if its entity tag is
/// the named one, else 200. The tag is the text of the file with `.etag` added, without a newline
/// at its end; a text that no request can name as it is, such as an empty one, is no tag. If the
/// tag isn't the same before and after the file is read, the exchange fails. A file whose tag is
/// the named one is opened and not read. Below the folder no link is followed, and only plain
/// files are opened; a folder there is looked at once. It tells nothing of its exchanges.
#[derive(Drop)]
pub struct MirrorWire<'a, R: rt::Files + AllocGlobal> {
    root: Root<'a, R>,
    faults: u64,
}

impl<'a, R: rt::Files + AllocGlobal> MirrorWire<'a, R> {
    /// The mirror in a folder.
    pub fn new(rt: &'a R, folder: &'a str) -> MirrorWire<'a, R>
        ensures folder { result.root.folder.now ≡ folder.now }
        ensures faults { result.faults ≡ 0 }
    {
        MirrorWire {
            root: Root::new(rt, folder),
            faults: 0,
        }
    }
}

/// Whether a request can name a tag as it is: it has a byte, only those from 32 to 126, and no
/// blank at its beginning or end.
fn is_nameable(text: &str) -> bool {
    for byte in text.as_bytes() {
        if !matches!(*byte, 32..=126) {
            return false;
        }
    }
    !text.is_empty() && !text.starts_with(' ') && !text.ends_with(' ')
}

/// The entity tag of the file at a path.
fn read_etag<'a, R: rt::Files + AllocGlobal>(
    root: &mut Root<'a, R>,
    alloc: Global,
    path: &str,
) -> io::Result<Option<Text>> {
    let tag = format!(in alloc; "{path}.etag")?;
    let Some(bytes) = root.read(alloc, tag.as_str(), MIRROR_LIMIT)? else {
        return Ok(None);
    };
    let line = match bytes.as_slice() {
        [line @ .., b'\n'] => line,
        line => line,
    };
    match std::str::from_utf8(line) {
        Ok(text) if is_nameable(text) => Ok(Some(made(Text::of(alloc, text))?)),
        _ => Ok(None),
    }
}

fn is_named(named: &Option<OwnedRevision>, etag: &Option<Text>) -> bool {
    match (named, etag) {
        (Some(OwnedRevision::Etag(named)), Some(etag)) => named.as_str() == etag.as_str(),
        _ => false,
    }
}

/// An answer without a body.
fn bare(alloc: Global, status: u16, etag: Option<Text>) -> WireAnswer {
    WireAnswer {
        status,
        revision: etag.map(OwnedRevision::Etag),
        body: Items::new(alloc),
    }
}

/// The answer to a request. The file is looked at before its tag is read, and opened after it; so
/// it was there when its tag was, and one whose tag is the named one need not be read.
fn answer<'a, R: rt::Files + AllocGlobal>(
    root: &mut Root<'a, R>,
    alloc: Global,
    request: &Request,
) -> io::Result<WireAnswer> {
    let path = request.path.as_str();
    let below = root.file(path)?;
    let etag = read_etag(root, alloc, path)?;
    let Some(mut opened) = root.open(below, MIRROR_LIMIT)? else {
        return Ok(bare(alloc, 404, None));
    };
    if is_named(&request.named, &etag) {
        return Ok(bare(alloc, 304, etag));
    }
    let len = opened.found.len();
    let body = read_whole(alloc, &mut opened.file, len, MIRROR_LIMIT)?;
    if read_etag(root, alloc, path)? != etag {
        return Err(io::Error::from(ErrorKind::ResourceBusy));
    }
    Ok(WireAnswer {
        status: 200,
        revision: etag.map(OwnedRevision::Etag),
        body: Items::of(body),
    })
}

impl<'a, R: rt::Files + AllocGlobal> Wire for MirrorWire<'a, R> {
    ghost tells = { ⊥ };

    ghost exchanges = { λ _. [] };

    ghost faults = { λ w. w.faults };

    ghost becomes = { λ _ _. ⊤ };

    ghost becomes_itself = { λ _. tt };

    ghost becomes_then = { λ _ _ _ _ _. tt };

    fn wire_faults(&self) -> u64 {
        self.faults
    }

    fn exchange(&mut self, alloc: Global, request: &Request) -> Result<WireAnswer, WireFault> {
        match answer(&mut self.root, alloc, request) {
            Ok(answer) => Ok(answer),
            Err(error) => {
                if error.kind() == ErrorKind::OutOfMemory {
                    return Err(WireFault::NoMemory);
                }
                self.faults = self.faults.saturating_add(1);
                Err(WireFault::Failed)
            }
        }
    }
}
