//! Why the objects of files are not known.

ghost use Rattle.std.specs.Prelude.{◌≡◌};
ghost use Rattle.rv_inputs.specs.declared.fault.InputFault.TheVariants.{OutOfMemory};

use crate::taken::TakenObject;
use rv_archive_laws::ArchiveFault;
use rv_fault::FileFault;
use std::alloc::{AllocError, AllocFailed};

/// Why the objects that a link takes of files are not known.
#[derive(Drop)]
pub enum InputFault<'a> {
    /// The file of this number, from 1, is no archive that can be linked.
    Archive(usize, ArchiveFault),
    /// An object that is taken cannot be read.
    Object(TakenObject<'a>, FileFault),
    /// Memory ran out.
    OutOfMemory,
}

impl<'a> From<AllocError> for InputFault<'a> {
    ghost from_gives = { λ _ made. made ≡ OutOfMemory };

    fn from(_: AllocError) -> Self {
        InputFault::OutOfMemory
    }
}

impl<'a, T: Drop> From<AllocFailed<T>> for InputFault<'a> {
    ghost from_gives = { λ _ made. made ≡ OutOfMemory };

    fn from(_: AllocFailed<T>) -> Self {
        InputFault::OutOfMemory
    }
}
