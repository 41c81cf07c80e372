//! What stands at places, as std finds it, and as a text.
use crate::host::Host;
use std::alloc::{AllocError, Global};
use std::fs::{self, DirEntry};
use std::hash::{DefaultHasher, Hasher};
use std::io::{self, ErrorKind};
use tame_names::{Items, Listed, MemNode, NoMemory, Text};

/// What was made, or that memory ran out.
pub fn made<T>(made: Result<T, NoMemory>) -> io::Result<T> {
    match made {
        Ok(made) => Ok(made),
        Err(NoMemory) => Err(io::Error::from(ErrorKind::OutOfMemory)),
    }
}

/// A word of its own.
pub fn said(alloc: Global, word: &str) -> io::Result<String> {
    Ok(String::from_str(alloc, word)?)
}

/// Bytes as digits.
pub fn digits(alloc: Global, bytes: &[u8]) -> Result<String, AllocError> {
    let mut text = String::new(alloc);
    for byte in bytes {
        text.push_str(format!(in alloc; "{byte:02x}")?.as_str())?;
    }
    Ok(text)
}

/// Adds bytes to a text, each as a character; more than a hundred by their number and a hash.
pub fn push_bytes(alloc: Global, text: &mut String, bytes: &[u8]) -> Result<(), AllocError> {
    if bytes.len() > 100 {
        let mut hasher = DefaultHasher::new();
        hasher.write(bytes);
        let hash = hasher.finish();
        let len = bytes.len();
        return text.push_str(format!(in alloc; "{len} bytes, hash {hash}")?.as_str());
    }
    for byte in bytes {
        text.push(char::from(*byte))?;
    }
    Ok(())
}

/// An entry of a folder. A name with `~` in it is one that isn't UTF-8.
fn entry_of(alloc: Global, rt: &HostRuntime, entry: DirEntry<&HostRuntime>) -> io::Result<Listed> {
    let name = entry.file_name();
    if name.contains('~') {
        return Ok(Listed {
            name: None,
            file: false,
        });
    }
    let file = match fs::metadata(rt, entry.path().as_str()) {
        Ok(found) => found.is_file(),
        Err(_) => false,
    };
    Ok(Listed {
        name: Some(made(Text::of(alloc, name))?),
        file,
    })
}

/// The entries of a folder.
fn entries_of(host: &Host, place: &str) -> io::Result<Items<Listed>> {
    let rt = host.rt;
    let mut entries = Items::new(rt.alloc());
    for entry in fs::read_dir(&rt, place)? {
        let entry = entry_of(rt.alloc(), rt, entry?)?;
        made(entries.add(entry))?;
    }
    Ok(entries)
}

/// What stands where a path leads, if anything does.
pub fn node_at(host: &Host, path: &str) -> io::Result<Option<MemNode>> {
    let place = host.place(path)?;
    match fs::metadata(host.rt, place.as_str()) {
        Ok(found) if found.is_file() => {
            let bytes = fs::read(host.rt, place.as_str())?;
            Ok(Some(MemNode::File(Items::of(bytes))))
        }
        Ok(found) if found.is_dir() => {
            let entries = entries_of(host, place.as_str())?;
            Ok(Some(MemNode::Folder(entries)))
        }
        Ok(_) => Ok(Some(MemNode::Other)),
        Err(_) => Ok(None),
    }
}

/// An entry, and whether it is a file.
fn entry_text(alloc: Global, listed: &Listed) -> Result<String, AllocError> {
    let kind = if listed.file { "a file" } else { "no file" };
    match &listed.name {
        Some(name) => format!(in alloc; "'{}' {kind}", name.as_str()),
        None => format!(in alloc; "another name {kind}"),
    }
}

/// Adds the entries of a folder to a text, in the order of their texts.
pub fn push_entries(alloc: Global, text: &mut String, listed: &[Listed]) -> Result<(), AllocError> {
    let mut texts = Vec::new(alloc);
    for listed in listed {
        texts.push(entry_text(alloc, listed)?)?;
    }
    texts.sort()?;
    text.push_str("a folder:")?;
    for entry in texts.as_slice() {
        text.push(' ')?;
        text.push_str(entry.as_str())?;
    }
    Ok(())
}

/// Adds what stands at a path to a text, if anything does.
pub fn push_node(
    alloc: Global,
    text: &mut String,
    path: &str,
    node: &Option<MemNode>,
) -> Result<(), AllocError> {
    if node.is_none() {
        return Ok(());
    }
    text.push_str(path)?;
    text.push_str(" = ")?;
    match node {
        None => {}
        Some(MemNode::Other) => text.push_str("another thing")?,
        Some(MemNode::Folder(entries)) => push_entries(alloc, text, entries.as_slice())?,
        Some(MemNode::File(bytes)) => {
            text.push_str("a file ")?;
            push_bytes(alloc, text, bytes.as_slice())?;
        }
    }
    text.push_str("; ")
}

/// What stands at paths, as std finds it.
pub fn walked(host: &Host, paths: &[String]) -> io::Result<String> {
    let alloc = host.rt.alloc();
    let mut text = String::new(alloc);
    for path in paths {
        let node = node_at(host, path.as_str())?;
        push_node(alloc, &mut text, path.as_str(), &node)?;
    }
    Ok(text)
}
