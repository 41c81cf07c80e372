//! Paths as strings.
ghost use Rattle.std.specs.Prelude.{◌≡◌, ◌≤◌, ◌<◌, bytes_eq, length, option_map, slice_index, take, IfOk, IfSome};
ghost use Rattle.tame_names.specs.Paths as spec;

use crate::errors::NoMemory;
use crate::pieces::without_end;
use crate::texts::Text;
use memchr::memrchr;
use std::alloc::Global;

fn begins_with_slash(path: &str) -> bool
    ensures { result ≡ spec.begins_with_slash path.now }
{
    match path.as_bytes() {
        [first, ..] => *first == b'/',
        [] => false,
    }
}

fn ends_with_slash(path: &str) -> bool
    ensures { result ≡ spec.ends_with_slash path.now }
{
    let bytes = path.as_bytes();
    !bytes.is_empty() && bytes[bytes.len() - 1] == b'/'
}

/// Whether two paths are the same, apart from slashes at their ends.
pub fn is_same_path(one: &str, other: &str) -> bool
    ensures { result ≡ bytes_eq (spec.plain_path one.now) (spec.plain_path other.now) }
{
    match (one.as_bytes(), other.as_bytes()) {
        ([], []) => true,
        ([first, rest @ ..], [second, others @ ..]) => {
            *first == *second && without_end(rest, b'/') == without_end(others, b'/')
        }
        _ => false,
    }
}

/// A path below a folder: the path itself if the folder is empty or the path begins with `/`, else
/// both, with a `/` between them if the folder ends with none.
pub fn join(alloc: Global, folder: &str, path: &str) -> Result<Text, NoMemory>
    ensures { IfOk result (λ whole. whole ≡ spec.join folder.now path.now) }
{
    if folder.is_empty() || begins_with_slash(path) {
        return Text::of(alloc, path);
    }
    let mut whole = String::from_str(alloc, folder)?;
    if !ends_with_slash(folder) {
        whole.push('/')?;
    }
    whole.push_str(path)?;
    Ok(Text::from_string(whole))
}

/// How many bytes a path has without the slashes at its end.
fn plain_len(path: &[u8]) -> usize
    ensures plain { take result path.now ≡ spec.plain_path path.now }
    ensures within { result ≤ length path.now }
    ensures slash { result < length path.now → slice_index path.now result ≡ 47 }
{
    match path {
        [] => 0,
        [_, rest @ ..] => 1 + without_end(rest, b'/').len(),
    }
}

/// The path without the slashes at its end, except `/` itself.
pub fn plain_path(path: &str) -> &str
    ensures { result.now ≡ spec.plain_path path.now }
{
    let len = plain_len(path.as_bytes());
    &path[..len]
}

/// The text before the last slash, and the text after it.
fn cut_at_last_slash(path: &str) -> Option<(&str, &str)>
    ensures { option_map (λ p. (p.0.now, p.1.now)) result ≡ spec.cut_at_last 47 path.now }
{
    match memrchr(b'/', path.as_bytes()) {
        Some(at) => Some((&path[..at], &path[at + 1..])),
        None => None,
    }
}

/// The folder that a path is in, if the path is `/` or has no slash at its end.
fn parent_of_plain(path: &str) -> Option<&str>
    ensures { option_map (λ folder. folder.now) result ≡ spec.parent_of_plain path.now }
{
    if path.is_empty() || path == "/" {
        return None;
    }
    match cut_at_last_slash(path) {
        None => Some(""),
        Some((front, _)) => Some(if front.is_empty() { "/" } else { front }),
    }
}

/// The folder that a path is in: the text before the last `/`, `/` for `/x`, and the empty text for
/// `x`. None for the empty path and for `/`. Slashes at the end don't count. It is shorter than the
/// path.
pub fn parent(path: &str) -> Option<&str>
    ensures folder { option_map (λ folder. folder.now) result ≡ spec.parent path.now }
    ensures shorter { IfSome result (λ folder. length folder.now < length path.now) }
{
    parent_of_plain(plain_path(path))
}

/// The name of a path in its folder: the text after the last `/`. Slashes at the end don't count.
pub fn file_name(path: &str) -> &str
    ensures { result.now ≡ spec.file_name path.now }
{
    let path = plain_path(path);
    match cut_at_last_slash(path) {
        None => path,
        Some((_, name)) => name,
    }
}
