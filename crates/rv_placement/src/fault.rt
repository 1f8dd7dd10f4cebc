//! Why sections cannot be placed.

ghost use Rattle.std.specs.Prelude.{◌≡◌};

use rv_fault::LinkFault;
use std::alloc::AllocError;
use thiserror::Error;

/// Why sections cannot be placed.
#[derive(Clone, Copy, Debug, Drop, Error)]
pub enum PlacementFault {
    /// They pass the end of memory, or need too much of it.
    #[error("the sections need too much memory")]
    TooLarge,
    #[error("out of memory")]
    OutOfMemory,
}

impl From<AllocError> for PlacementFault {
    ghost use Rattle.rv_placement.specs.declared.fault.PlacementFault.TheVariants.{OutOfMemory};

    ghost from_gives = { λ _ e. e ≡ OutOfMemory };

    fn from(_: AllocError) -> Self {
        PlacementFault::OutOfMemory
    }
}

impl From<PlacementFault> for LinkFault {
    ghost use Rattle.rv_placement.specs.Fault.{of_placement};

    ghost from_gives = { λ fault e. e ≡ of_placement fault };

    fn from(fault: PlacementFault) -> Self {
        match fault {
            PlacementFault::TooLarge => LinkFault::ImageTooLarge,
            PlacementFault::OutOfMemory => LinkFault::OutOfMemory,
        }
    }
}
