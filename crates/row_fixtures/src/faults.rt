//! Why a row has no answer, and errors that are the answer.
use crate::rows::is_remark;
use std::alloc::{AllocError, AllocFailed, Global};
use tame_names::{Error, NoMemory};

/// Why a row has no answer, or the text of the error that is its answer. The error itself isn't
/// kept: each call behind which a fault may go up would be proved for each of its variants.
#[derive(Drop)]
pub enum RowFault {
    /// Memory ran out.
    NoMemory,
    /// The row isn't written as its command is.
    Unread,
    /// What was asked for was refused: this text of the error is the answer.
    Refused(String),
}

/// An error as the fault of which it is the answer.
pub fn refused(alloc: Global, error: &Error) -> RowFault {
    match format!(in alloc; "{error:?}") {
        Ok(text) => RowFault::Refused(text),
        Err(_) => RowFault::NoMemory,
    }
}

/// What a call gave; its error is the answer.
pub fn asked<T: Drop>(alloc: Global, given: Result<T, Error>) -> Result<T, RowFault> {
    match given {
        Ok(value) => Ok(value),
        Err(error) => Err(refused(alloc, &error)),
    }
}

impl From<NoMemory> for RowFault {
    fn from(_error: NoMemory) -> RowFault {
        RowFault::NoMemory
    }
}

impl From<AllocError> for RowFault {
    fn from(_error: AllocError) -> RowFault {
        RowFault::NoMemory
    }
}

impl<T: Drop> From<AllocFailed<T>> for RowFault {
    fn from(_error: AllocFailed<T>) -> RowFault {
        RowFault::NoMemory
    }
}

/// An answer as a text, whether it is an error or not; any other fault with a mark.
pub fn told(alloc: Global, answer: Result<String, RowFault>) -> Result<String, AllocError> {
    match answer {
        Ok(text) | Err(RowFault::Refused(text)) => Ok(text),
        Err(RowFault::NoMemory) => String::from_str(alloc, "no answer: NoMemory"),
        Err(RowFault::Unread) => String::from_str(alloc, "no answer: Unread"),
    }
}

/// The line that answers a line with a row that has this answer: a remark answers itself.
pub fn answered(
    alloc: Global,
    line: &str,
    answer: Result<String, RowFault>,
) -> Result<String, AllocError> {
    if is_remark(line) {
        return String::from_str(alloc, line);
    }
    told(alloc, answer)
}
