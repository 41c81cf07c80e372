//! Bytes as they stand in the table: `\n` is a newline, `\x03` the byte 3.
use std::alloc::{AllocError, Global};

fn digit(byte: u8) -> Option<u8> {
    match byte {
        b'0'..=b'9' => Some(byte - b'0'),
        b'a'..=b'f' => Some(byte - b'a' + 10),
        _ => None,
    }
}

fn byte_of(high: u8, low: u8) -> Option<u8> {
    Some((digit(high)? << 4) | digit(low)?)
}

/// The bytes that a text of the table means.
pub fn meant(alloc: Global, text: &str) -> Result<Vec<u8>, AllocError> {
    let mut bytes = Vec::new(alloc);
    let mut rest = text.as_bytes();
    for _ in 0..text.len() {
        match rest {
            [b'\\', b'n', after @ ..] => {
                bytes.push(b'\n')?;
                rest = after;
            }
            [b'\\', b'x', high, low, after @ ..] => {
                bytes.push(byte_of(*high, *low).unwrap_or(b'?'))?;
                rest = after;
            }
            [byte, after @ ..] => {
                bytes.push(*byte)?;
                rest = after;
            }
            [] => return Ok(bytes),
        }
    }
    Ok(bytes)
}

/// Bytes as the table shows them.
pub fn shown(alloc: Global, bytes: &[u8]) -> Result<String, AllocError> {
    let mut text = String::new(alloc);
    for byte in bytes {
        match *byte {
            b'\n' => text.push_str("\\n")?,
            b' '..=b'~' => text.push(char::from(*byte))?,
            byte => text.push_str(format!(in alloc; "\\x{byte:02x}")?.as_str())?,
        }
    }
    Ok(text)
}
