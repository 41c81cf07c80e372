//! Version and flag of a line in one pass over its bytes.
ghost use Rattle.std.specs.Prelude.{◌≡◌, ◌<◌, ◌≤◌, length, true, Some, IfSome, option_map, option_and_then};
ghost use Rattle.serde_json.specs.Data.{Data};
ghost use Rattle.serde_json.specs.Read.{read};
ghost use Rattle.tame_records.specs.VersionFlags.{with_version_key, version_key_fits};
ghost use Rattle.tame_records.specs.Quick.{ValueAt, seen_of};
ghost use Rattle.tame_records.specs.Record.{version_flag, record_of, record_of_data, unless_float};

use crate::keys::{VersionKey, version_key};
use crate::quick_lists::{dependencies_end, lists_end};
use crate::quick_texts::{byte_at, plain_text};
use crate::quick_values::{
    digest_end, flag_end, plain_value_end, small_end, text_or_null_end, text_value_end,
};
use tame_names::utf8_text;

/// What was seen of a version.
#[derive(Clone, Copy)]
struct VersionSeen<'a> {
    name: bool,
    version: Option<&'a [u8]>,
    deps: bool,
    checksum: bool,
    features: bool,
    yanked: bool,
}

/// The value of a member of a version; notes what was seen.
fn member_end<'a>(
    bytes: &'a [u8],
    at: usize,
    key: VersionKey,
    seen: &mut VersionSeen<'a>,
) -> Option<usize>
    ensures value { IfSome result (λ e. (d : Data) × ValueAt 3 bytes.now at d e
        × (version_key_fits key d ≡ true)
        × (seen_of seen.new ≡ with_version_key key d (seen_of seen.old))) }
    ensures within { IfSome result (λ e. (at < e) × (e ≤ length bytes.now)) }
{
    match key {
        VersionKey::Name => {
            seen.name = true;
            text_value_end(bytes, at)
        }
        VersionKey::Version => {
            let (text, end) = plain_text(bytes, at)?;
            seen.version = Some(text);
            Some(end)
        }
        VersionKey::Deps => {
            seen.deps = true;
            dependencies_end(bytes, at)
        }
        VersionKey::Checksum => {
            seen.checksum = true;
            digest_end(bytes, at)
        }
        VersionKey::Features => {
            seen.features = true;
            lists_end(bytes, at)
        }
        VersionKey::Features2 => lists_end(bytes, at),
        VersionKey::Yanked => {
            let (flag, end) = flag_end(bytes, at)?;
            seen.yanked = flag;
            Some(end)
        }
        VersionKey::Text => text_or_null_end(bytes, at),
        VersionKey::Number => small_end(bytes, at),
        VersionKey::Other => plain_value_end(bytes, at),
    }
}

/// Version and flag by the members from the first byte on.
fn quick_members(bytes: &[u8]) -> Option<(&[u8], bool)>
    ensures { IfSome result (λ h. option_map version_flag
        (option_and_then record_of_data (option_and_then unless_float (read bytes.now)))
        ≡ Some (record { version = h.0.now; yanked = h.1 })) }
{
    if byte_at(bytes, 0) != b'{' {
        return None;
    }
    let mut seen = VersionSeen {
        name: false,
        version: None,
        deps: false,
        checksum: false,
        features: false,
        yanked: false,
    };
    let mut from = 1;
    'members: loop {
        let (name, key) = plain_text(bytes, from)?;
        if byte_at(bytes, key) != b':' {
            return None;
        }
        let end = member_end(bytes, key + 1, version_key(name), &mut seen)?;
        match byte_at(bytes, end) {
            b',' => {
                from = end + 1;
            }
            b'}' => {
                if !(seen.name && seen.deps && seen.checksum && seen.features) {
                    return None;
                }
                if end + 1 != bytes.len() {
                    return None;
                }
                return match seen.version {
                    Some(version) => Some((version, seen.yanked)),
                    None => None,
                };
            }
            _ => return None,
        }
    }
}

/// Version and flag of the record that a line is, if it has the form that indices write: no
/// blanks; no escapes but those of quotes and backslashes, and none in the version, in digests and
/// in the keys of a version and of its dependencies; no number but 1 and 2; under other keys than a
/// version's only strings, flags and null. It doesn't promise which lines it reads: nothing is no
/// answer, and a line of another form may be a record too.
pub fn quick_version_flag(line: &[u8]) -> Option<(&str, bool)>
    ensures { IfSome result (λ h. option_map version_flag (record_of line.now)
        ≡ Some (record { version = h.0.now; yanked = h.1 })) }
{
    let text = utf8_text(line)?;
    let (version, yanked) = quick_members(text.as_bytes())?;
    Some((utf8_text(version)?, yanked))
}
