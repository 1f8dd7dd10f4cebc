//! Why a file is not read as an archive.

ghost use Rattle.std.specs.Prelude.{◌≡◌};
ghost use Rattle.rv_archive.specs.declared.fault.ReadFault.TheVariants.{Refused, OutOfMemory};

use rv_archive_laws::ArchiveFault;
use std::alloc::{AllocError, AllocFailed};
use thiserror::Error;

/// Why a file is not read as an archive.
#[derive(Clone, Copy, Debug, Drop, Error)]
pub enum ReadFault {
    /// It is none that can be linked, or it is damaged.
    #[error("{0}")]
    Refused(ArchiveFault),
    /// Memory ran out.
    #[error("out of memory")]
    OutOfMemory,
}

impl From<ArchiveFault> for ReadFault {
    ghost from_gives = { λ fault made. made ≡ Refused fault };

    fn from(fault: ArchiveFault) -> Self {
        ReadFault::Refused(fault)
    }
}

impl From<AllocError> for ReadFault {
    ghost from_gives = { λ _ made. made ≡ OutOfMemory };

    fn from(_: AllocError) -> Self {
        ReadFault::OutOfMemory
    }
}

impl<T: Drop> From<AllocFailed<T>> for ReadFault {
    ghost from_gives = { λ _ made. made ≡ OutOfMemory };

    fn from(_: AllocFailed<T>) -> Self {
        ReadFault::OutOfMemory
    }
}
