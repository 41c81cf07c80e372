//! What the versions of a crate share.
use row_fixtures::{Row, RowFault, body_of};
use std::alloc::Global;
use tame_names::split;
use tame_records::{IndexVersion, KeptParts};

/// Reads the lines of a body, each of which shares what one before it has, and answers how many
/// there are.
fn share_lines(alloc: Global, kept: &mut KeptParts, body: &[u8]) -> Result<u64, RowFault> {
    let mut count: u64 = 0;
    for line in split(body, b'\n') {
        let Ok(mut version) = IndexVersion::read_line(alloc, line) else {
            return Err(RowFault::Unread);
        };
        kept.share(&mut version)?;
        count = count.saturating_add(1);
    }
    Ok(count)
}

/// `shared TIMES BODY`: the lines of a body, read so many times over: how many they are, and how
/// many dependency lists and maps of features they have to keep.
pub fn shared(alloc: Global, mut words: Row<'_>) -> Result<String, RowFault> {
    let times = words.number()?;
    let body = body_of(alloc, words.word())?;
    let mut kept = KeptParts::new(alloc);
    let mut count: u64 = 0;
    for _ in 0..times {
        count = count.saturating_add(share_lines(alloc, &mut kept, body.as_slice())?);
    }
    let (lists, maps) = (kept.dependency_lists(), kept.feature_maps());
    Ok(format!(in alloc; "{count} lines, {lists} dependency lists, {maps} maps of features")?)
}
