//! Why the program does not do what its words ask for.

use clap::error::ErrorKind;
use rv_system::JobError;
use std::alloc::{AllocError, AllocFailed};
use thiserror::Error;

/// Why a job was not done.
#[derive(Debug, Drop, Error)]
pub enum CliError {
    /// The words are none that the program takes, or ask for help.
    #[error("{0}")]
    Usage(clap::Error),
    /// A word is no text.
    #[error("a word of the command line is not text")]
    NotText,
    /// The line that says it.
    #[error("{0}")]
    Line(String),
    /// Whoever reads standard output wants no more of it.
    #[error("standard output is closed")]
    Closed,
    #[error("out of memory")]
    Memory,
}

impl From<clap::Error> for CliError {
    fn from(error: clap::Error) -> Self {
        if matches!(error.kind(), ErrorKind::OutOfMemory) {
            CliError::Memory
        } else {
            CliError::Usage(error)
        }
    }
}

impl From<JobError> for CliError {
    fn from(error: JobError) -> Self {
        match error {
            JobError::Line(line) => CliError::Line(line),
            JobError::Closed => CliError::Closed,
            JobError::Memory => CliError::Memory,
        }
    }
}

impl From<AllocError> for CliError {
    fn from(_: AllocError) -> Self {
        CliError::Memory
    }
}

impl<T: Drop> From<AllocFailed<T>> for CliError {
    fn from(_: AllocFailed<T>) -> Self {
        CliError::Memory
    }
}
