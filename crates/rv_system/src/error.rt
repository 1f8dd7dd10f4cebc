//! Why a job was not done.

use std::alloc::{AllocError, AllocFailed};
use thiserror::Error;

/// Why a job was not done.
#[derive(Debug, Drop, Error)]
pub enum JobError {
    /// The line that says it.
    #[error("{0}")]
    Line(String),
    /// Whoever reads standard output wants no more of it.
    #[error("standard output is closed")]
    Closed,
    #[error("out of memory")]
    Memory,
}

impl From<AllocError> for JobError {
    fn from(_: AllocError) -> Self {
        JobError::Memory
    }
}

impl<T: Drop> From<AllocFailed<T>> for JobError {
    fn from(_: AllocFailed<T>) -> Self {
        JobError::Memory
    }
}
