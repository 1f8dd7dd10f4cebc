//! Runs that go on from a kept state.
//!
//! A debugger asks for state after state of one run. From the start each would cost all steps before it, so a call gives the
//! state that it reaches as bytes, and the next one begins there. The bytes are the caller's, and nothing in them is believed:
//! `state_in` of `rv_states` says for any bytes which state they are, if any.

ghost use Rattle.std.specs.Prelude.{◌≡◌, ◌≤◌, ℕ, List, [], false, length, drop, IfOk, IfErr};
ghost use Rattle.rv_image.specs.Views.{image_of};
ghost use Rattle.rv_image_laws.specs.Memory.{mem_of};
ghost use Rattle.rv_machine.specs.Hart.{hart_of};
ghost use Rattle.rv_memory.specs.HeldPages.{held_pages};
ghost use Rattle.rv_states.specs.Keeps.{Keeps};
ghost use Rattle.rv_library.specs.Ran.{IsStop};
ghost use Rattle.rv_library.specs.Resumed.{GivesResumed, IsResumed, IsResumedFrom, IsResumptionGiven};

use crate::answers::{Answer, UNFIT, give_both, told};
use crate::ends::Ended;
use crate::running::give_stop;
use crate::runs::{KEPT, Reached, Stop, image_in, run_on};
use crate::states::{State, show};
use rv_image::Image;
use rv_memory::copied_image;
use rv_states::{Resumed, keeping_goes_on, resume, runs_keep, snapshot, snapshots_keep};
use std::alloc::Global;

/// What a run from a kept state has reached, and that state as bytes.
#[derive(Drop)]
pub(crate) struct Resumption {
    pub reached: Reached,
    pub kept: Vec<u8>,
}

/// Goes on from a kept state, and shows and keeps the state that is reached: `rv_resume` of `include/rv.h`.
#[unsafe(no_mangle)]
pub extern "C" fn rv_resume(
    alloc: Global,
    executable: &[u8],
    input: &[u8],
    from: &[u8],
    steps: u64,
    address: u64,
    memory: &mut [u8],
    rights: &mut [u8],
    console: &mut [u8],
    kept: &mut [u8],
    state: &mut State,
    end: &mut Ended,
    answer: &mut Answer,
) -> u32
    // the state of the run of the definitions that many steps behind the one that is given
    ensures { GivesResumed executable.now input.now from.now steps address result
        memory.old memory.new rights.old rights.new console.old console.new kept.old kept.new
        state.new end.new answer.new }
{
    let found = resumed(alloc, executable, input, from, steps, console.len());
    give_resumption(
        alloc, found, address, memory, rights, console, kept, state, end, answer,
    )
}

/// Goes on from a kept state of an executable's run; nothing where the bytes are none, or the state that is reached cannot
/// be kept.
fn resumed(
    alloc: Global,
    file: &[u8],
    input: &[u8],
    from: &[u8],
    steps: u64,
    room: usize,
) -> Result<Option<Resumption>, Stop>
    ensures { IsResumed file.now input.now from.now steps result }
{
    let image = image_in(alloc, file)?;
    let again = copied_image(alloc, &image)?;
    snapshots_keep();
    match resume(alloc, image, from, input)? {
        Some(state) => resumed_from(alloc, &again, state, input, steps, room.max(KEPT)),
        None => Ok(None),
    }
}

/// Goes on from a state of an image's run.
fn resumed_from(
    alloc: Global,
    image: &Image,
    state: Resumed,
    input: &[u8],
    steps: u64,
    most: usize,
) -> Result<Option<Resumption>, Stop>
    requires kept { Keeps (mem_of (image_of image.now)) (held_pages state.machine.memory) }
    requires taken { state.taken ≤ length input.now }
    requires going { state.machine.intake.ended ≡ false }
    ensures resumed { IfOk result (IsResumedFrom (image_of image.now) input.now
        (hart_of state.machine.hart (drop state.taken input.now) [])
        (held_pages state.machine.memory) steps) }
    ensures refused { (file : List ℕ) → IfErr result (IsStop file) }
{
    runs_keep();
    keeping_goes_on();
    let Resumed { machine, taken } = state;
    let reached = run_on(alloc, machine, input.split_at(taken).1, steps, most)?;
    match snapshot(alloc, image, &reached.machine, taken + reached.taken)? {
        Some(kept) => Ok(Some(Resumption { reached, kept })),
        None => Ok(None),
    }
}

/// Gives what was reached, or why nothing was; the status.
fn give_resumption(
    alloc: Global,
    found: Result<Option<Resumption>, Stop>,
    address: u64,
    memory: &mut [u8],
    rights: &mut [u8],
    console: &mut [u8],
    kept: &mut [u8],
    state: &mut State,
    end: &mut Ended,
    answer: &mut Answer,
) -> u32
    ensures { IsResumptionGiven found address result
        memory.old memory.new rights.old rights.new console.old console.new kept.old kept.new
        state.new end.new answer.new }
{
    match found {
        Ok(Some(resumption)) => {
            show(&resumption.reached, address, memory, rights, state, end);
            give_both(
                resumption.reached.console.as_slice(),
                resumption.kept.as_slice(),
                console,
                kept,
                answer,
            )
        }
        Ok(None) => {
            *answer = told(0, 0);
            UNFIT
        }
        Err(stop) => give_stop(alloc, stop, console, answer),
    }
}
