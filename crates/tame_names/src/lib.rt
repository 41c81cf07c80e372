//! Crate names with their path in an index, strings and lists that contracts see as lists, and the
//! traits through which the product reaches files and their locks (`Files`), bytes that come in
//! (`Source`) and output (`Sink`).
//!
//! Promises: a name is accepted exactly by its rule, and its path is a function of it; what a call
//! on a host answers is a function of what the host has, and so is what a call that writes leaves;
//! after a fault of a sink, it holds a part of the piece from the front. Depends on `memchr` and
//! `thiserror`, and on no crate here.
//!
//! ```ignore
//! // crates/uses/src/indexes.rt: path_in_index
//! let name = KrateName::crates_io(name)?;
//! Ok(name.relative_path(alloc, None)?)
//! ```
#![tactic(auto)]

mod conversions;
mod errors;
mod host;
mod laws;
mod lists;
mod locks;
mod memory_changes;
mod memory_files;
mod memory_locks;
mod memory_nodes;
mod memory_sink;
mod memory_source;
mod memory_stating;
mod memory_variables;
mod names;
mod output;
mod paths;
mod pieces;
mod reserved;
mod sources;
mod texts;

pub use errors::{
    CacheError, Error, FileLockError, HttpError, InvalidJsonLines, InvalidKrateName, InvalidUrl,
    InvalidUrlError, IoKind, LocalRegistryError, LockError, NoMemory, ReservedNameKind,
};
pub use host::{
    EnvValue, FailedCall, FileCall, FileFault, Files, Listed, LockCall, LockOpenFault, LockStep,
    LockTakeFault, OpenedLock, PathKind, ReadAnswer,
};
pub use laws::names_by_their_rules;
pub use lists::Items;
pub use locks::{FileLock, LockState};
pub use memory_files::MemFiles;
pub use memory_locks::LockAnswer;
pub use memory_nodes::{MemFile, MemNode};
pub use memory_sink::MemSink;
pub use memory_source::MemSource;
pub use memory_variables::MemVariable;
pub use names::KrateName;
pub use output::{Sink, SinkFault, put_counted, put_piece};
pub use paths::{file_name, is_same_path, join, parent, plain_path};
pub use pieces::{SplitIter, split, without_end};
pub use sources::{Source, SourceFault};
pub use texts::{Text, utf8_text};
