//! Why a file has no firmware.

ghost use Rattle.std.specs.Prelude.{◌≡◌};
ghost use Rattle.rv_firmware.specs.declared.fault.FirmwareFault.TheVariants.{File, Memory};

use rv_fault::FileFault;
use std::alloc::{AllocError, AllocFailed};
use thiserror::Error;

/// Why no firmware is made of a file.
#[derive(Clone, Copy, Debug, Drop, Error)]
pub enum FirmwareFault {
    /// It is no executable, or it is damaged.
    #[error("{0}")]
    File(FileFault),
    /// An address has over 32 bits, which the formats do not write.
    #[error("an address has over 32 bits")]
    Address,
    /// Memory ran out.
    #[error("out of memory")]
    Memory,
}

impl From<FileFault> for FirmwareFault {
    ghost from_gives = { λ fault made. made ≡ File fault };

    fn from(fault: FileFault) -> Self {
        FirmwareFault::File(fault)
    }
}

impl From<AllocError> for FirmwareFault {
    ghost from_gives = { λ _ made. made ≡ Memory };

    fn from(_: AllocError) -> Self {
        FirmwareFault::Memory
    }
}

impl<T: Drop> From<AllocFailed<T>> for FirmwareFault {
    ghost from_gives = { λ _ made. made ≡ Memory };

    fn from(_: AllocFailed<T>) -> Self {
        FirmwareFault::Memory
    }
}
