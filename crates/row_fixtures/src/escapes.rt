//! Bytes as they are written in a row: `\n`, `\r`, `\t`, `\\`, and `\xHH` for the byte of two
//! lowercase hexadecimal digits. All else stands for itself.
use crate::faults::RowFault;
use std::alloc::{AllocError, Global};

/// Where the reading of an escape stands.
#[derive(Clone, Copy)]
enum Place {
    Plain,
    Escaped,
    High,
    Low(u8),
}

/// The value of a hexadecimal digit.
fn digit(byte: u8) -> Result<u8, RowFault> {
    match byte {
        b'0'..=b'9' => Ok(byte - b'0'),
        b'a'..=b'f' => Ok(byte - b'a' + 10),
        _ => Err(RowFault::Unread),
    }
}

/// The byte that a letter stands for behind a backslash.
fn letter(byte: u8) -> Result<u8, RowFault> {
    match byte {
        b'n' => Ok(b'\n'),
        b'r' => Ok(b'\r'),
        b't' => Ok(b'\t'),
        b'\\' => Ok(b'\\'),
        _ => Err(RowFault::Unread),
    }
}

/// The place behind a byte. Adds the byte that ends there, if one does.
fn step(bytes: &mut Vec<u8>, place: Place, byte: u8) -> Result<Place, RowFault> {
    let whole = match place {
        Place::Plain if byte == b'\\' => return Ok(Place::Escaped),
        Place::Escaped if byte == b'x' => return Ok(Place::High),
        Place::High => return Ok(Place::Low(digit(byte)?)),
        Place::Plain => byte,
        Place::Escaped => letter(byte)?,
        Place::Low(high) => (high << 4) | digit(byte)?,
    };
    bytes.push(whole)?;
    Ok(Place::Plain)
}

/// The bytes that a word stands for. `Unread` where an escape isn't one.
pub fn plain_bytes(alloc: Global, word: &str) -> Result<Vec<u8>, RowFault> {
    let mut bytes = Vec::new(alloc);
    let mut place = Place::Plain;
    for byte in word.as_bytes() {
        place = step(&mut bytes, place, *byte)?;
    }
    match place {
        Place::Plain => Ok(bytes),
        _ => Err(RowFault::Unread),
    }
}

/// The text that a word stands for. `Unread` also where its bytes aren't UTF-8.
pub fn plain_text(alloc: Global, word: &str) -> Result<String, RowFault> {
    let bytes = plain_bytes(alloc, word)?;
    match std::str::from_utf8(bytes.as_slice()) {
        Ok(text) => Ok(String::from_str(alloc, text)?),
        Err(_) => Err(RowFault::Unread),
    }
}

fn push_shown(out: &mut String, byte: u8) -> Result<(), AllocError> {
    match byte {
        b'\n' => out.push_str("\\n"),
        b'\r' => out.push_str("\\r"),
        b'\t' => out.push_str("\\t"),
        b'\\' => out.push_str("\\\\"),
        b' '..=b'~' => out.push(byte as char),
        _ => write!(out, "\\x{byte:02x}"),
    }
}

/// Bytes as they are written in a row; each that isn't printable ASCII is escaped.
pub fn shown(alloc: Global, bytes: &[u8]) -> Result<String, AllocError> {
    let mut out = String::new(alloc);
    for byte in bytes {
        push_shown(&mut out, *byte)?;
    }
    Ok(out)
}

/// Bytes as a word of a row: `''` where there is none, and in single quotes where one is a blank.
pub fn shown_word(alloc: Global, bytes: &[u8]) -> Result<String, AllocError> {
    let text = shown(alloc, bytes)?;
    if text.is_empty() || text.as_str().contains(' ') {
        format!(in alloc; "'{text}'")
    } else {
        Ok(text)
    }
}
