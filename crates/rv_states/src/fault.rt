//! Why a run cannot go on.

use rv_machine::{RunFault, WatchFault};
use std::alloc::AllocError;
use thiserror::Error;

/// Why a run cannot go on; where it stands is not known from then on.
#[derive(Clone, Copy, Debug, Drop, Error)]
pub enum ReplayFault {
    /// The input, or what the guest writes, was lost.
    #[error("a stream failed")]
    Stream,
    #[error("out of memory")]
    Memory,
}

impl From<AllocError> for ReplayFault {
    fn from(_: AllocError) -> Self {
        ReplayFault::Memory
    }
}

impl From<WatchFault> for ReplayFault {
    fn from(fault: WatchFault) -> Self {
        match fault {
            WatchFault::Run(RunFault::OutOfMemory) => ReplayFault::Memory,
            _ => ReplayFault::Stream,
        }
    }
}
