//! Why an executable gets no debug information.

ghost use Rattle.std.specs.Prelude.{◌≡◌};

use std::alloc::AllocError;
use thiserror::Error;

/// Why an executable gets no debug information.
#[derive(Clone, Copy, Debug, Drop, Error)]
pub enum DebugFault {
    /// The text of its map is no map's.
    #[error("its map is none")]
    NoMap,
    /// Nothing can stand behind it, or it has not the bytes of its map's regions.
    #[error("it is not the executable of its map")]
    OtherExecutable,
    /// The rows of its map are not in the order of the files.
    #[error("the rows of its map are not in the order of the files")]
    RowsOutOfOrder,
    /// It has 4 GiB or more, or a number of what would be added needs more than 32 bits.
    #[error("a part of the file would have 4 GiB or more")]
    TooLong,
    #[error("out of memory")]
    OutOfMemory,
}

impl From<AllocError> for DebugFault {
    ghost use Rattle.rv_debug.specs.declared.fault.DebugFault.TheVariants.{OutOfMemory};

    ghost from_gives = { λ _ fault. fault ≡ OutOfMemory };

    fn from(_: AllocError) -> Self {
        DebugFault::OutOfMemory
    }
}
