//! Why objects cannot be linked.

ghost use Rattle.std.specs.Prelude.{◌≡◌};
ghost use Rattle.rv_fault.specs.LinkFault.{link_fault_number, link_fault_name};

use std::alloc::{AllocError, AllocFailed};
use thiserror::Error;

/// Why objects cannot be linked.
#[derive(Debug, PartialEq, Eq, Drop, Error)]
pub enum LinkFault {
    /// A field cannot hold its value.
    #[error("a field cannot hold its value")]
    Overflow,
    /// A jump would go to an odd address.
    #[error("a jump to an odd address")]
    OddTarget,
    /// The low part of a distance has no high part, or an addend of its own.
    #[error("the low part of a distance has no high part")]
    DanglingPcrel,
    /// An alignment has no room for the padding that it needs.
    #[error("an alignment has no room for its padding")]
    AlignmentShort,
    /// A reference to this name, which nobody defines.
    #[error("a name without a definition")]
    Undefined(Vec<u8>),
    /// A second definition of this name for all files.
    #[error("a second global definition of a name")]
    Duplicate(Vec<u8>),
    /// No global `_start` stands at an even place of a text section.
    #[error("no entry")]
    EntryMissing,
    /// The memory that the program needs is too large, or meets the stack.
    #[error("the program needs too much memory")]
    ImageTooLarge,
    /// The text start is no multiple of 4096 below 3FF00000h.
    #[error("the text cannot start there")]
    BadTextStart,
    /// There are more files than can be linked.
    #[error("too many files")]
    TooManyFiles,
    #[error("out of memory")]
    OutOfMemory,
}

impl LinkFault {
    /// Its number as messages show it; `None` for want of memory.
    pub fn number(&self) -> Option<u8>
        ensures { result ≡ link_fault_number self.now }
    {
        match self {
            LinkFault::Overflow => Some(1),
            LinkFault::OddTarget => Some(2),
            LinkFault::DanglingPcrel => Some(3),
            LinkFault::AlignmentShort => Some(4),
            LinkFault::Undefined(_) => Some(5),
            LinkFault::Duplicate(_) => Some(6),
            LinkFault::EntryMissing => Some(7),
            LinkFault::ImageTooLarge => Some(8),
            LinkFault::BadTextStart => Some(9),
            LinkFault::TooManyFiles => Some(10),
            LinkFault::OutOfMemory => None,
        }
    }

    /// Its name as messages show it.
    pub fn name(&self) -> &'static str
        ensures { result.now ≡ link_fault_name self.now }
    {
        match self {
            LinkFault::Overflow => "Overflow",
            LinkFault::OddTarget => "OddTarget",
            LinkFault::DanglingPcrel => "DanglingPcrel",
            LinkFault::AlignmentShort => "AlignmentShort",
            LinkFault::Undefined(_) => "Undefined",
            LinkFault::Duplicate(_) => "Duplicate",
            LinkFault::EntryMissing => "EntryMissing",
            LinkFault::ImageTooLarge => "ImageTooLarge",
            LinkFault::BadTextStart => "BadTextStart",
            LinkFault::TooManyFiles => "TooManyFiles",
            LinkFault::OutOfMemory => "out of memory",
        }
    }
}

impl From<AllocError> for LinkFault {
    ghost use Rattle.rv_fault.specs.declared.link_fault.LinkFault.TheVariants.{OutOfMemory};

    ghost from_gives = { λ _ fault. fault ≡ OutOfMemory };

    fn from(_: AllocError) -> Self {
        LinkFault::OutOfMemory
    }
}

impl<T: Drop> From<AllocFailed<T>> for LinkFault {
    ghost use Rattle.rv_fault.specs.declared.link_fault.LinkFault.TheVariants.{OutOfMemory};

    ghost from_gives = { λ _ fault. fault ≡ OutOfMemory };

    fn from(_: AllocFailed<T>) -> Self {
        LinkFault::OutOfMemory
    }
}
