//! Why names have no meaning.

ghost use Rattle.std.specs.Prelude.{◌≡◌};

use std::alloc::{AllocError, AllocFailed};
use thiserror::Error;

/// Why the names of objects can't be resolved.
#[derive(Clone, Copy, Debug, Drop, Error)]
pub enum ResolveFault<'o> {
    /// A name has a second global definition.
    #[error("a second global definition of a name")]
    Duplicate(&'o [u8]),
    #[error("out of memory")]
    OutOfMemory,
}

impl<'o> From<AllocError> for ResolveFault<'o> {
    ghost use Rattle.rv_names.specs.declared.fault.ResolveFault.TheVariants.{OutOfMemory};

    ghost from_gives = { λ _ e. e ≡ OutOfMemory };

    fn from(_: AllocError) -> Self {
        ResolveFault::OutOfMemory
    }
}

impl<'o, T: Drop> From<AllocFailed<T>> for ResolveFault<'o> {
    ghost use Rattle.rv_names.specs.declared.fault.ResolveFault.TheVariants.{OutOfMemory};

    ghost from_gives = { λ _ e. e ≡ OutOfMemory };

    fn from(_: AllocFailed<T>) -> Self {
        ResolveFault::OutOfMemory
    }
}
