//! Why an event has no line.

ghost use Rattle.std.specs.Prelude.{◌≡◌};
ghost use Rattle.rv_event_text.specs.declared.fault.LineFault.TheVariants.{OutOfMemory};

use rv_machine::ShowFault;
use std::alloc::AllocError;
use thiserror::Error;

/// Why an event has no line. No event of a run is refused but for want of memory, as long as the memory shows every byte that a
/// program may write.
#[derive(Clone, Copy, Debug, Drop, Error)]
pub enum LineFault {
    #[error("out of memory")]
    OutOfMemory,
    /// Its instruction has no word, or what it reads or stores has more than eight bytes.
    #[error("not an event of a machine")]
    NoMachine,
    /// A byte that a call moved may not be read, and lies in no piece of memory.
    #[error("a byte that cannot be read")]
    Unread,
}

impl From<AllocError> for LineFault {
    ghost from_gives = { λ _ fault. fault ≡ OutOfMemory };

    fn from(_: AllocError) -> Self {
        LineFault::OutOfMemory
    }
}

impl From<LineFault> for ShowFault {
    fn from(fault: LineFault) -> Self {
        match fault {
            LineFault::OutOfMemory => ShowFault::OutOfMemory,
            LineFault::NoMachine | LineFault::Unread => ShowFault::Unwritten,
        }
    }
}
