//! Rows of requests, of what becomes of answers, and of the memory of entity tags: each line of
//! the input is a case, and its answer is a line of the output.
mod answers;
mod etags;
mod git;
mod naming;
mod requests;
mod stage;

use row_fixtures::{Row, RowFault};
pub use stage::Stage;
use std::alloc::Global;

/// The answer of a row.
pub fn answer(alloc: Global, stage: &mut Stage, row: Row<'_>) -> Result<String, RowFault> {
    let mut words = row;
    match words.word() {
        "take" => answers::take(alloc, &stage.index, words),
        "disk" => stage.lay_disk(alloc, words),
        "name" => naming::named(alloc, &stage.index, &mut stage.disk),
        "give" => answers::give(alloc, &stage.index, &mut stage.disk, words),
        "sent" => answers::sent(alloc, words),
        "edge" => naming::edge(alloc, &stage.index, words),
        "kept" => naming::kept(alloc, &stage.index, words),
        "file" => naming::file(alloc, &stage.index, words),
        "tag" => etags::tag_for(alloc, &stage.index, &stage.tags, words),
        "see" => etags::see(alloc, &stage.index, &mut stage.tags, words),
        "git" => stage.lay_git(alloc, words),
        "head" => git::head(alloc, &mut stage.git, words),
        "store" => git::store(alloc, &stage.git, &mut stage.disk, words),
        "front" => git::front(alloc, &stage.git, &mut stage.disk, words),
        "git-url" => git::of_url(alloc, words),
        "ask" => requests::ask(alloc, &stage.index, words),
        "carry" => requests::carry(alloc, &stage.index, words),
        "send" => requests::send(alloc, words),
        "place" => requests::place(alloc, &stage.index, words),
        "sparse" => requests::sparse(alloc, words),
        "files" => stage.lay_files(alloc, words),
        "config" => requests::config(alloc, &mut stage.files),
        "laws" => requests::laws(alloc),
        _ => Err(RowFault::Unread),
    }
}
