//! Why a source is no case.

use std::alloc::{AllocError, AllocFailed};
use thiserror::Error;

/// What is wrong with a line of a head, or with all that is said of a case.
#[derive(Debug, Drop, Error)]
pub enum CaseFault {
    #[error("{0} is no key of a case; the keys are exit, end, console, fault, input, limit and instructions")]
    UnknownKey(String),
    #[error("{0} has to stand behind # and one blank, as # {0}: ..")]
    Misplaced(&'static str),
    #[error("{0} stands behind the head, which ends at its first line without #")]
    Behind(&'static str),
    #[error("{0} is given twice")]
    Twice(&'static str),
    #[error("an exit is a decimal number from 0 to 255")]
    NoStatus,
    #[error("{0} is a decimal number below 2^64, also as 500k, 10M or 1G")]
    NoAmount(&'static str),
    #[error("a repeated text is not taken here; \\x7b is a brace")]
    Repeated,
    #[error("a case is one source")]
    SeveralSources,
    #[error("{0} and {1} cannot both come")]
    Both(&'static str, &'static str),
    #[error("nothing says what must come: no exit, end, console or fault")]
    Nothing,
}

/// Why there is no case.
#[derive(Debug, Drop, Error)]
pub enum CaseError {
    /// What is wrong, and the number of the line, from 1, where one is.
    #[error("{1}")]
    Wrong(Option<u64>, CaseFault),
    #[error("out of memory")]
    Memory,
}

impl From<AllocError> for CaseError {
    fn from(_: AllocError) -> Self {
        CaseError::Memory
    }
}

impl<T: Drop> From<AllocFailed<T>> for CaseError {
    fn from(_: AllocFailed<T>) -> Self {
        CaseError::Memory
    }
}
