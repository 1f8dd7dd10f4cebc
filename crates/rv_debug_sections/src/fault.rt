//! Why an executable gets no debug sections of objects.

ghost use Rattle.std.specs.Prelude.{◌≡◌};

use std::alloc::AllocError;
use thiserror::Error;

/// Why an executable gets no debug sections of objects.
#[derive(Clone, Copy, Debug, PartialEq, Eq, Drop, Error)]
pub enum CarryFault {
    /// The file behind which they are to stand has no section headers with names.
    #[error("it has no section headers")]
    NoSections,
    /// An object's file is none, or a debug section of it has no such place.
    #[error("a debug section of an object is damaged")]
    Damaged,
    /// A debug section of an object is compressed (`SHF_COMPRESSED`).
    #[error("a debug section of an object is compressed")]
    Compressed,
    /// A relocation of a debug section is of no kind that data has, or leaves the section, or means no symbol.
    #[error("a relocation of a debug section cannot be applied")]
    BadRelocation,
    /// A section would have 4 GiB or more, or there would be too many.
    #[error("a part of the file would have 4 GiB or more")]
    TooLong,
    #[error("out of memory")]
    OutOfMemory,
}

impl From<AllocError> for CarryFault {
    ghost use Rattle.rv_debug_sections.specs.declared.fault.CarryFault.TheVariants.{OutOfMemory};

    ghost from_gives = { λ _ fault. fault ≡ OutOfMemory };

    fn from(_: AllocError) -> Self {
        CarryFault::OutOfMemory
    }
}
