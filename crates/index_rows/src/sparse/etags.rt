//! The memory of entity tags.
use row_fixtures::{RevisionWord, Row, RowFault, asked, disk_failing, owned_text, refused};
use std::alloc::Global;
use tame_names::{FileLock, KrateName};
use tame_sparse::{EtagCache, Response, SparseIndex};

/// `tag NAME`: the entity tag that a request for a name has.
pub fn tag_for(
    alloc: Global,
    index: &SparseIndex,
    tags: &EtagCache,
    mut words: Row<'_>,
) -> Result<String, RowFault> {
    let name = words.name(alloc)?;
    let lock = FileLock::unlocked();
    let mut disk = disk_failing(alloc, Vec::new(alloc));
    match asked(
        alloc,
        tags.make_remote_request(alloc, index, name, &lock, &mut disk),
    ) {
        Ok(request) => owned_text(alloc, &request.named),
        Err(fault) => Err(fault),
    }
}

/// What an answer without a body is taken as.
fn taken(
    alloc: Global,
    index: &SparseIndex,
    tags: &mut EtagCache,
    name: KrateName<'_>,
    response: Response<'_>,
) -> Result<&'static str, RowFault> {
    let lock = FileLock::unlocked();
    let mut disk = disk_failing(alloc, Vec::new(alloc));
    match tags.parse_remote_response(alloc, index, name, response, true, &lock, &mut disk) {
        Ok(entry) => Ok(if entry.is_some() {
            "something"
        } else {
            "nothing"
        }),
        Err(error) => Err(refused(alloc, &error)),
    }
}

/// `see STATUS REVISION NAME`: what an answer without a body is taken as.
pub fn see(
    alloc: Global,
    index: &SparseIndex,
    tags: &mut EtagCache,
    mut words: Row<'_>,
) -> Result<String, RowFault> {
    let status = words.status()?;
    let revision = RevisionWord::of(alloc, words.word())?;
    let response = Response {
        status_code: status,
        revision: revision.http(),
        body: b"",
    };
    let taken = taken(alloc, index, tags, words.name(alloc)?, response)?;
    Ok(String::from_str(alloc, taken)?)
}
