//! From an executable to the end of its run.

ghost use Rattle.rv_library.specs.GivenRuns.{GivesRun, IsOutcomeGiven, IsStopGiven};

use crate::answers::{Answer, TOO_LONG, UNKNOWN, give_bytes, refuse, told};
use crate::ends::{Ended, end_of};
use crate::runs::{Counted, Stop, ran};
use std::alloc::Global;

/// Runs an executable: `rv_run` of `include/rv.h`.
#[unsafe(no_mangle)]
pub extern "C" fn rv_run(
    alloc: Global,
    executable: &[u8],
    input: &[u8],
    limit: u64,
    console: &mut [u8],
    end: &mut Ended,
    count: &mut u64,
    answer: &mut Answer,
) -> u32
    // the outcome of the run, as `run_exec` promises it, with its length, and how it is given
    ensures { GivesRun executable.now input.now limit result console.old console.new end.new count.new answer.new }
{
    let found = ran(alloc, executable, input, limit, console.len());
    give_outcome(alloc, found, console, end, count, answer)
}

/// Gives the outcome of a run, or why it was stopped; the status.
fn give_outcome(
    alloc: Global,
    found: Result<Counted, Stop>,
    console: &mut [u8],
    end: &mut Ended,
    count: &mut u64,
    answer: &mut Answer,
) -> u32
    ensures { IsOutcomeGiven found result console.old console.new end.new count.new answer.new }
{
    match found {
        Ok(counted) => {
            *end = end_of(counted.outcome.end);
            *count = counted.count;
            give_bytes(counted.outcome.console.as_slice(), console, answer)
        }
        Err(stop) => give_stop(alloc, stop, console, answer),
    }
}

/// Gives why a run was stopped; the status.
pub(crate) fn give_stop(alloc: Global, stop: Stop, console: &mut [u8], answer: &mut Answer) -> u32
    ensures { IsStopGiven stop result console.old console.new answer.new }
{
    match stop {
        Stop::Refused(fault) => refuse(alloc, &fault, console, answer),
        Stop::TooLong => {
            *answer = told(0, 0);
            TOO_LONG
        }
        Stop::Unknown => {
            *answer = told(0, 0);
            UNKNOWN
        }
    }
}
