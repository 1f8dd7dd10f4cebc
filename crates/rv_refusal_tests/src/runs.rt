//! Calls that run an executable.

use crate::error::Failed;
use crate::given::Given;
use crate::library::{executable, image_in, machine, outcome, step};
use crate::marks::{mark, marked};
use crate::shown::show_run;
use rv_chain::End;
use rv_machine::{Io, Machine, RunFault, run_io};
use rv_memory::Paged;
use std::alloc::Global;

/// The most instructions of a run.
const LIMIT: u64 = 100_000;
/// The most bytes that a guest writes.
const CONSOLE_LIMIT: usize = 4096;

/// Runs the executable's file.
pub(crate) fn run_file(rt: &HostRuntime, given: &Given<'_>) -> Result<(), Failed> {
    let alloc = rt.alloc();
    let exe = executable(alloc, given)?;
    let ran = marked(rt, || outcome(alloc, exe.as_slice(), given.input, LIMIT))?;
    show_run(rt, ran.end, ran.console.as_slice())
}

/// Runs the executable over streams that are the same before and after a refusal.
pub(crate) fn run_over_streams(rt: &HostRuntime, given: &Given<'_>) -> Result<(), Failed> {
    let alloc: Global = rt.alloc();
    let exe = executable(alloc, given)?;
    let image = image_in(alloc, exe.as_slice())?;
    let mut input = given.input;
    let mut console = Vec::with_capacity(alloc, CONSOLE_LIMIT)?;
    let mut reader = Io::new(&mut input);
    let mut writer = Io::new(&mut console);
    mark(rt, b"begin\n")?;
    let mut answer = run_io(alloc, image, &mut reader, &mut writer, LIMIT);
    if matches!(answer, Err(RunFault::OutOfMemory)) {
        mark(rt, b"memory\n")?;
        let image = image_in(alloc, exe.as_slice())?;
        answer = run_io(alloc, image, &mut reader, &mut writer, LIMIT);
    }
    mark(rt, b"answer\n")?;
    let left = input.len();
    println!(rt; "{left} bytes of input left")?;
    show_run(rt, answer?, console.as_slice())
}

/// Steps a machine to its end; a step that is refused is made again.
pub(crate) fn step_machine(rt: &HostRuntime, given: &Given<'_>) -> Result<(), Failed> {
    let alloc: Global = rt.alloc();
    let exe = executable(alloc, given)?;
    let mut machine = machine(alloc, exe.as_slice(), given.input)?;
    let end = marked(rt, || stepped(&mut machine))?;
    show_run(rt, end, machine.console())
}

/// Steps a machine until it ends.
fn stepped(machine: &mut Machine<Paged>) -> Result<End, Failed> {
    for _ in 0..LIMIT {
        if let Some(end) = step(machine)? {
            return Ok(end);
        }
    }
    Ok(End::Limit)
}
