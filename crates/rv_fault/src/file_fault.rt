//! Why a file is refused.

ghost use Rattle.std.specs.Prelude.{◌≡◌};
ghost use Rattle.rv_fault.specs.declared.file_fault.FileFault.TheVariants.{OutOfMemory};
ghost use Rattle.rv_fault.specs.FileFault.{file_fault_number, file_fault_name};

use std::alloc::{AllocError, AllocFailed};
use thiserror::Error;

/// Why a file is no object, or no executable, of this machine. The faults are looked for in the order
/// of the parts of a file, and the first is answered.
#[derive(Clone, Copy, Debug, PartialEq, Eq, Drop, Error)]
pub enum FileFault {
    /// The file ends before its header, a table or contents do.
    #[error("the file ends before its header, a table or contents do")]
    Truncated,
    /// It does not begin with 7Fh `ELF`.
    #[error("it does not begin with 7Fh ELF")]
    BadMagic,
    /// It is not of 64-bit class, little-endian, in version 1.
    #[error("it is not 64-bit, little-endian and of version 1")]
    WrongClass,
    /// It is for another machine, or for a float ABI or the smaller register file.
    #[error("it is for another machine, or for a float ABI or the smaller register file")]
    WrongMachine,
    /// A table, or a number in one, cannot be used.
    #[error("a table, or a number in one, cannot be used")]
    BadTable,
    /// A name has no end, or is none that a map can show.
    #[error("a name has no end, or is none that a map can show")]
    BadString,
    /// A section or symbol is named that there is not.
    #[error("a section or symbol is named that there is not")]
    BadIndex,
    /// Two segments, or one and the stack, share an address.
    #[error("two segments, or one and the stack, share an address")]
    Overlap,
    /// A relocation of this number.
    #[error("a relocation of number {0} is not supported")]
    UnsupportedRelocation(u32),
    /// A loaded section of this type, or a group.
    #[error("a section of type {0} is not supported")]
    UnsupportedSection(u32),
    /// The file is no executable.
    #[error("the file is no executable")]
    NotExecutable,
    /// It wants dynamic linking.
    #[error("it wants dynamic linking")]
    Dynamic,
    /// Its segments have more than 256 MiB.
    #[error("its segments have more than 256 MiB")]
    MemoryLimit,
    /// The file is no object.
    #[error("the file is no object")]
    NotObject,
    /// Memory ran out.
    #[error("out of memory")]
    OutOfMemory,
}

impl FileFault {
    /// Its number as messages show it, 1 to 14; `None` for want of memory.
    pub fn number(&self) -> Option<u32>
        ensures { result ≡ file_fault_number self.now }
    {
        Some(match self {
            FileFault::Truncated => 1,
            FileFault::BadMagic => 2,
            FileFault::WrongClass => 3,
            FileFault::WrongMachine => 4,
            FileFault::BadTable => 5,
            FileFault::BadString => 6,
            FileFault::BadIndex => 7,
            FileFault::Overlap => 8,
            FileFault::UnsupportedRelocation(_) => 9,
            FileFault::UnsupportedSection(_) => 10,
            FileFault::NotExecutable => 11,
            FileFault::Dynamic => 12,
            FileFault::MemoryLimit => 13,
            FileFault::NotObject => 14,
            FileFault::OutOfMemory => return None,
        })
    }

    /// Its name as messages show it.
    pub fn name(&self) -> &'static str
        ensures { result.now ≡ file_fault_name self.now }
    {
        match self {
            FileFault::Truncated => "Truncated",
            FileFault::BadMagic => "BadMagic",
            FileFault::WrongClass => "WrongClass",
            FileFault::WrongMachine => "WrongMachine",
            FileFault::BadTable => "BadTable",
            FileFault::BadString => "BadString",
            FileFault::BadIndex => "BadIndex",
            FileFault::Overlap => "Overlap",
            FileFault::UnsupportedRelocation(_) => "UnsupportedRelocation",
            FileFault::UnsupportedSection(_) => "UnsupportedSection",
            FileFault::NotExecutable => "NotExecutable",
            FileFault::Dynamic => "Dynamic",
            FileFault::MemoryLimit => "MemoryLimit",
            FileFault::NotObject => "NotObject",
            FileFault::OutOfMemory => "out of memory",
        }
    }
}

impl From<AllocError> for FileFault {
    ghost from_gives = { λ _ fault. fault ≡ OutOfMemory };

    fn from(_: AllocError) -> Self {
        FileFault::OutOfMemory
    }
}

impl<T: Drop> From<AllocFailed<T>> for FileFault {
    ghost from_gives = { λ _ fault. fault ≡ OutOfMemory };

    fn from(_: AllocFailed<T>) -> Self {
        FileFault::OutOfMemory
    }
}
