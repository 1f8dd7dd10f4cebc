//! What may be wrong, and at which statement.

use rv_isa::Reg;
use rv_statement::Width;
use std::alloc::AllocError;

/// The most warnings of a source that are looked for.
const MOST_WARNINGS: usize = 20;

/// What may be wrong.
#[derive(Clone, Copy, Drop)]
pub(crate) enum Doubt {
    /// An `ecall` by a number that no call has.
    UnknownCall(u64),
    /// A read or a write, by its number, of another file than there is.
    WrongFile(u64, u64),
    /// An `ecall` before which nothing sets a7.
    NoNumber,
    /// A call in a function that returns by ra, which is not saved.
    LostReturn,
    /// A write to a register that belongs to the caller, in a function that does not save it.
    LostRegister(Reg),
    /// A store that saves a register, which is then changed and not loaded on some way to a return.
    NotLoaded(Reg),
    /// A return where sp is so far below where the function found it.
    StackShifted(u64),
    /// A call where sp is no multiple of 16.
    StackOff,
    /// A number in data that has no room there.
    Cut(Width, u64),
    /// A section with bytes that no program has.
    Unloaded,
    /// A value that an object has only for debuggers.
    Lost,
    /// An access at this address, which is no multiple of so many bytes.
    Misaligned(u64, u64),
    /// The last instruction of its section, after which the run goes on.
    RunsOff,
    /// An instruction from which the run goes on into a function that is called.
    FallsInto,
}

/// A warning: what may be wrong, and the index of its statement, from 0.
#[derive(Clone, Copy, Drop)]
pub(crate) struct Warning {
    pub doubt: Doubt,
    pub index: usize,
}

/// Adds a warning, where there are not too many.
pub(crate) fn put(found: &mut Vec<Warning>, doubt: Doubt, index: usize) -> Result<(), AllocError> {
    if MOST_WARNINGS <= found.len() {
        return Ok(());
    }
    found.push(Warning { doubt, index })?;
    Ok(())
}
