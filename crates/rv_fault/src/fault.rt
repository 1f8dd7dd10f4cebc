//! Why a build or a run is refused.

ghost use Rattle.std.specs.Prelude.{◌≡◌};

use crate::file_fault::FileFault;
use crate::link_fault::LinkFault;
use crate::source_fault::SourceFault;
use std::alloc::{AllocError, AllocFailed};
use thiserror::Error;

/// Why a build or a run was refused; files count from 1.
#[derive(Debug, Drop, Error)]
pub enum Fault {
    #[error("a fault in source {0}")]
    Source(u32, SourceFault),
    #[error("a fault in file {0}")]
    File(u32, FileFault),
    #[error("the program cannot be linked")]
    Link(LinkFault),
    #[error("out of memory")]
    Memory,
}

impl From<LinkFault> for Fault {
    ghost use Rattle.rv_fault.specs.Fault.{of_link};

    ghost from_gives = { λ fault e. e ≡ of_link fault };

    /// The linker's fault; want of memory is nobody's.
    fn from(fault: LinkFault) -> Self {
        match fault {
            LinkFault::OutOfMemory => Fault::Memory,
            fault => Fault::Link(fault),
        }
    }
}

impl From<AllocError> for Fault {
    ghost use Rattle.rv_fault.specs.declared.fault.Fault.TheVariants.{Memory};

    ghost from_gives = { λ _ fault. fault ≡ Memory };

    fn from(_: AllocError) -> Self {
        Fault::Memory
    }
}

impl<T: Drop> From<AllocFailed<T>> for Fault {
    ghost use Rattle.rv_fault.specs.declared.fault.Fault.TheVariants.{Memory};

    ghost from_gives = { λ _ fault. fault ≡ Memory };

    fn from(_: AllocFailed<T>) -> Self {
        Fault::Memory
    }
}
