//! Why there is no answer.

use rv_chain::{Fault, FileFault};
use rv_machine::RunFault;
use rv_system::ReadFault;
use std::alloc::{AllocError, AllocFailed};
use std::io;
use thiserror::Error;

/// Why there is no answer.
#[derive(Debug, Drop, Error)]
pub(crate) enum Failed {
    /// What is asked for is no call, or has a fault; or a stream failed.
    #[error("no answer")]
    NoAnswer,
    #[error("out of memory")]
    Memory,
}

impl From<AllocError> for Failed {
    fn from(_: AllocError) -> Self {
        Failed::Memory
    }
}

impl<T: Drop> From<AllocFailed<T>> for Failed {
    fn from(_: AllocFailed<T>) -> Self {
        Failed::Memory
    }
}

impl From<Fault> for Failed {
    fn from(fault: Fault) -> Self {
        match fault {
            Fault::Memory => Failed::Memory,
            _ => Failed::NoAnswer,
        }
    }
}

impl From<FileFault> for Failed {
    fn from(fault: FileFault) -> Self {
        match fault {
            FileFault::OutOfMemory => Failed::Memory,
            _ => Failed::NoAnswer,
        }
    }
}

impl From<RunFault> for Failed {
    fn from(fault: RunFault) -> Self {
        match fault {
            RunFault::OutOfMemory => Failed::Memory,
            _ => Failed::NoAnswer,
        }
    }
}

impl From<ReadFault> for Failed {
    fn from(fault: ReadFault) -> Self {
        match fault {
            ReadFault::Memory => Failed::Memory,
            ReadFault::Failed => Failed::NoAnswer,
        }
    }
}

impl From<io::Error> for Failed {
    fn from(_: io::Error) -> Self {
        Failed::NoAnswer
    }
}
