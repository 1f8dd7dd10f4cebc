//! How the machine of a watched run is run: at once, or step by step where more has to be known before each.
//!
//! A machine goes on where it stopped, so a run of steps one by one is the run of all of them.

use rv_guests::{GuestInput, GuestOutput, Guests};
use rv_isa::Reg;
use rv_job::{Asked, Until};
use rv_machine::{End, WatchFault, Watched, Watcher};
use rv_memory::Paged;
use rv_system::JobError;
use rv_trace::{Ending, Places};
use std::alloc::{AllocError, Global};

/// The number of the register a0, in which a call has its descriptor.
const A0: u32 = 10;
/// The descriptor of errors.
const ERRORS: u64 = 2;

/// How a guest is run.
#[derive(Clone, Copy, Drop)]
pub(crate) struct Guest {
    input: GuestInput,
    /// The address before whose instruction the run ends.
    until: Option<u64>,
    /// Whether what is written to the descriptor of errors goes to standard error.
    parts_errors: bool,
}

impl Guest {
    /// As the words ask for it.
    pub(crate) fn of(
        alloc: Global,
        asked: &Asked<'_>,
        places: &Places<'_>,
    ) -> Result<Self, JobError> {
        Ok(Guest {
            input: if asked.has_input() {
                GuestInput::Empty
            } else {
                GuestInput::Standard
            },
            until: address_of(alloc, asked, places)?,
            parts_errors: asked.parts_errors,
        })
    }

    /// Runs a machine, at most `limit` instructions.
    pub(crate) fn watch<S: Guests, T: Watcher<Paged>>(
        &self,
        system: &mut S,
        machine: &mut Watched<Paged>,
        watcher: &mut T,
        limit: u64,
    ) -> Result<Ending, WatchFault> {
        if self.until.is_none() && !self.parts_errors {
            let output = GuestOutput::Standard;
            let end = system.watch(machine, self.input, output, watcher, limit)?;
            return Ok(Ending::By(end));
        }
        for _ in 0..limit {
            if self.until == Some(machine.pc()) {
                return Ok(Ending::Reached);
            }
            let output = self.output(machine);
            match system.watch(machine, self.input, output, watcher, 1)? {
                End::Limit => {}
                end => return Ok(Ending::By(end)),
            }
        }
        if self.until == Some(machine.pc()) {
            return Ok(Ending::Reached);
        }
        Ok(Ending::By(End::Limit))
    }

    /// Where the next instruction writes, if it is a call that does.
    fn output(&self, machine: &Watched<Paged>) -> GuestOutput {
        if self.parts_errors && machine.register(Reg::from_low_bits(A0)) == ERRORS {
            return GuestOutput::Errors;
        }
        GuestOutput::Standard
    }
}

/// The address before whose instruction the run is to end.
fn address_of(
    alloc: Global,
    asked: &Asked<'_>,
    places: &Places<'_>,
) -> Result<Option<u64>, JobError> {
    match asked.until {
        None => Ok(None),
        Some(Until::Address(address)) => Ok(Some(address)),
        Some(Until::Symbol(name)) => match places.address_of(name.as_bytes()) {
            Some(address) => Ok(Some(address)),
            None => Err(no_symbol(alloc, asked.file, name)?),
        },
    }
}

/// The line of a program that has no such symbol.
fn no_symbol(alloc: Global, file: &str, name: &str) -> Result<JobError, AllocError> {
    Ok(JobError::Line(format!(in alloc; "{file}: no symbol {name}")?))
}
