//! The state of a machine after some instructions.
//!
//! The machine of `rv_machine` is a function of an executable and an input, so a count of instructions names a state.

ghost use Rattle.rv_library.specs.GivenRuns.{AreRegisters, GivesState, IsShown, IsStateGiven};

use crate::answers::{Answer, give_bytes};
use crate::ends::{Ended, end_of};
use crate::running::give_stop;
use crate::runs::{Reached, Stop, run_to};
use crate::window::{put_memory, put_rights};
use rv_isa::Reg;
use rv_machine::Watched;
use rv_memory::Paged;
use std::alloc::Global;

/// The hart of a machine: `struct rv_state`.
#[repr(C)]
#[derive(Drop)]
pub struct State {
    /// The values of x0 to x31.
    pub registers: [u64; 32],
    /// The address of the next instruction.
    pub pc: u64,
    /// How many steps the machine has made, with the one that ended the run.
    pub count: u64,
}

/// Runs an executable and shows the machine that is left: `rv_state` of `include/rv.h`.
#[unsafe(no_mangle)]
pub extern "C" fn rv_state(
    alloc: Global,
    executable: &[u8],
    input: &[u8],
    steps: u64,
    address: u64,
    memory: &mut [u8],
    rights: &mut [u8],
    console: &mut [u8],
    state: &mut State,
    end: &mut Ended,
    answer: &mut Answer,
) -> u32
    // the state of the run of the definitions after these steps, and how it is given
    ensures { GivesState executable.now input.now steps address result
        memory.old memory.new rights.old rights.new console.old console.new
        state.new end.new answer.new }
{
    let found = run_to(alloc, executable, input, steps, console.len());
    give_state(
        alloc, found, address, memory, rights, console, state, end, answer,
    )
}

/// Gives the state that a run has reached, or why it was stopped; the status.
fn give_state(
    alloc: Global,
    found: Result<Reached, Stop>,
    address: u64,
    memory: &mut [u8],
    rights: &mut [u8],
    console: &mut [u8],
    state: &mut State,
    end: &mut Ended,
    answer: &mut Answer,
) -> u32
    ensures { IsStateGiven found address result
        memory.old memory.new rights.old rights.new console.old console.new
        state.new end.new answer.new }
{
    match found {
        Ok(reached) => {
            show(&reached, address, memory, rights, state, end);
            give_bytes(reached.console.as_slice(), console, answer)
        }
        Err(stop) => give_stop(alloc, stop, console, answer),
    }
}

/// Shows a machine.
pub(crate) fn show(
    reached: &Reached,
    address: u64,
    memory: &mut [u8],
    rights: &mut [u8],
    state: &mut State,
    end: &mut Ended,
)
    ensures { IsShown reached.now address memory.old memory.new rights.old rights.new state.new end.new }
{
    *state = State {
        registers: registers_of(&reached.machine),
        pc: reached.machine.pc(),
        count: reached.count,
    };
    *end = end_of(reached.end);
    put_memory(reached.machine.memory(), address, memory);
    put_rights(reached.machine.memory(), address, rights);
}

/// The values of x0 to x31.
fn registers_of(machine: &Watched<Paged>) -> [u64; 32]
    ensures { AreRegisters result machine.now.hart.registers }
{
    let mut values = [0; 32];
    for number in 0..32u32 {
        values[number as usize] = machine.register(Reg::from_low_bits(number));
    }
    values
}
