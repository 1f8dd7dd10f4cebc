//! The answer of one call.

use crate::call::{Call, CallError, GivenSource, Program};
use crate::given::{Given, Held, value_of};
use crate::members::{put_end, put_end_line, put_faults, put_text};
use rv_chain::{build_exe_on, build_on};
use rv_guests::{KeptFault, run_counted, run_kept, status_of};
use rv_image::Image;
use rv_job::default_options;
use rv_json::number;
use rv_machine::Outcome;
use rv_system::{JobError, System, fault_line, image_in};
use serde_json::{Map, Value, put};
use std::alloc::{AllocError, Global};

/// The status of a call that is refused.
const REFUSED: u8 = 1;
/// The status of a line that asks for nothing.
const USAGE: u8 = 2;

/// The answer of a line; `limit` stands for what it does not say.
pub(crate) fn answer<S: System>(
    system: &mut S,
    line: &[u8],
    limit: u64,
) -> Result<Value, AllocError> {
    let mut members = Map::new(system.alloc());
    put_answer(system, line, limit, &mut members)?;
    Ok(Value::Object(members))
}

/// Adds what answers a line, its status last.
fn put_answer<S: System>(
    system: &mut S,
    line: &[u8],
    limit: u64,
    members: &mut Map<String, Value>,
) -> Result<(), AllocError> {
    let alloc: Global = system.alloc();
    match Value::from_slice(alloc, line) {
        Ok(value) => put_answer_of(system, &value, limit, members),
        Err(error) if error.is_memory() => put_refusal(alloc, members, "out of memory", REFUSED),
        Err(_) => put_fault(alloc, members, &CallError::NotJson),
    }
}

/// Adds what answers a value.
fn put_answer_of<S: System>(
    system: &mut S,
    value: &Value,
    limit: u64,
    members: &mut Map<String, Value>,
) -> Result<(), AllocError> {
    let alloc: Global = system.alloc();
    let Some(object) = value.as_object() else {
        return put_fault(alloc, members, &CallError::NoObject);
    };
    if let Some(id) = value.get("id") {
        put(members, alloc, "id", id.clone()?)?;
    }
    match Call::of(alloc, object, limit) {
        Ok(call) => put_called(system, &call, members),
        Err(error) => put_fault(alloc, members, &error),
    }
}

/// Adds what answers a call.
fn put_called<S: System>(
    system: &mut S,
    call: &Call<'_>,
    members: &mut Map<String, Value>,
) -> Result<(), AllocError> {
    let alloc: Global = system.alloc();
    match answer_call(system, call, members) {
        Ok(status) => put_status(alloc, members, status),
        Err(JobError::Line(line)) => put_refusal(alloc, members, line.as_str(), REFUSED),
        Err(JobError::Memory) => put_refusal(alloc, members, "out of memory", REFUSED),
        Err(JobError::Closed) => put_refusal(alloc, members, "standard output is closed", REFUSED),
    }
}

/// Adds why a line asks for nothing.
fn put_fault(
    alloc: Global,
    members: &mut Map<String, Value>,
    error: &CallError,
) -> Result<(), AllocError> {
    let status = match error {
        CallError::Memory => REFUSED,
        _ => USAGE,
    };
    let line = format!(in alloc; "{error}")?;
    put_refusal(alloc, members, line.as_str(), status)
}

/// Adds the line with which a call is refused.
fn put_refusal(
    alloc: Global,
    members: &mut Map<String, Value>,
    line: &str,
    status: u8,
) -> Result<(), AllocError> {
    put_text(alloc, members, "error", line)?;
    put_status(alloc, members, status)
}

/// Adds the status.
fn put_status(
    alloc: Global,
    members: &mut Map<String, Value>,
    status: u8,
) -> Result<(), AllocError> {
    put(members, alloc, "status", Value::from(u64::from(status)))
}

/// Builds and runs what a call is of, and adds what it wants; the status.
fn answer_call<S: System>(
    system: &mut S,
    call: &Call<'_>,
    members: &mut Map<String, Value>,
) -> Result<u8, JobError> {
    match &call.program {
        Program::Sources(sources) => answer_sources(system, call, sources.as_slice(), members),
        Program::Executable(given) => {
            let exe = given.held(system)?;
            let name = if let Given::File(name) = given {
                *name
            } else {
                "executable"
            };
            answer_executable(system, call, name, exe.as_slice(), members)
        }
    }
}

/// Builds sources, and runs what they come to where something of the run is wanted; the status.
fn answer_sources<S: System>(
    system: &mut S,
    call: &Call<'_>,
    sources: &[GivenSource<'_>],
    members: &mut Map<String, Value>,
) -> Result<u8, JobError> {
    let alloc: Global = system.alloc();
    let held = held_texts(system, sources)?;
    let texts = lent(alloc, held.as_slice())?;
    let owned = names_of(alloc, sources)?;
    let names = borrowed_names(alloc, owned.as_slice())?;
    if call.wants.faults {
        put_faults(
            alloc,
            members,
            names.as_slice(),
            texts.as_slice(),
            default_options(),
        )?;
    }
    let exe = executable(alloc, call, names.as_slice(), texts.as_slice(), members)?;
    let name = names.first().copied().unwrap_or("");
    answer_executable(system, call, name, exe.as_slice(), members)
}

/// What sources build; their map is added where it is wanted.
fn executable(
    alloc: Global,
    call: &Call<'_>,
    names: &[&str],
    texts: &[&[u8]],
    members: &mut Map<String, Value>,
) -> Result<Vec<u8>, JobError> {
    if call.wants.map {
        return executable_and_map(alloc, names, texts, members);
    }
    match build_exe_on(alloc, texts, default_options()) {
        Ok(exe) => Ok(exe),
        Err(fault) => Err(fault_line(alloc, &fault, names)?),
    }
}

/// What sources build, whose map is added.
fn executable_and_map(
    alloc: Global,
    names: &[&str],
    texts: &[&[u8]],
    members: &mut Map<String, Value>,
) -> Result<Vec<u8>, JobError> {
    match build_on(alloc, texts, default_options()) {
        Ok(built) => {
            let map = value_of(alloc, built.map.as_slice())?;
            put(members, alloc, "map", map)?;
            Ok(built.exe)
        }
        Err(fault) => Err(fault_line(alloc, &fault, names)?),
    }
}

/// The bytes of sources.
fn held_texts<'v, S: System>(
    system: &mut S,
    sources: &[GivenSource<'v>],
) -> Result<Vec<Held<'v>>, JobError> {
    let mut held = Vec::new(system.alloc());
    for source in sources {
        held.push(source.text.held(system)?)?;
    }
    Ok(held)
}

/// The bytes that are held, borrowed.
fn lent<'a, 'v>(alloc: Global, held: &'a [Held<'v>]) -> Result<Vec<&'a [u8]>, AllocError> {
    let mut texts: Vec<&'a [u8]> = Vec::new(alloc);
    for text in held {
        texts.push(text.as_slice())?;
    }
    Ok(texts)
}

/// The same names, borrowed.
fn borrowed_names<'a>(alloc: Global, owned: &'a [String]) -> Result<Vec<&'a str>, AllocError> {
    let mut names: Vec<&'a str> = Vec::new(alloc);
    for name in owned {
        names.push(name.as_str())?;
    }
    Ok(names)
}

/// The names of sources: those that the call gives, those of files, else `1.s`, `2.s` ..
fn names_of(alloc: Global, sources: &[GivenSource<'_>]) -> Result<Vec<String>, AllocError> {
    let mut names = Vec::new(alloc);
    for (index, source) in sources.iter().enumerate() {
        names.push(name_of(alloc, source, index.saturating_add(1))?)?;
    }
    Ok(names)
}

/// The name of a source by its number, from 1.
fn name_of(alloc: Global, source: &GivenSource<'_>, number: usize) -> Result<String, AllocError> {
    match (source.name, source.text) {
        (Some(name), _) | (None, Given::File(name)) => String::from_str(alloc, name),
        _ => format!(in alloc; "{number}.s"),
    }
}

/// Loads an executable, runs it where something of the run is wanted, and adds that; the status.
fn answer_executable<S: System>(
    system: &mut S,
    call: &Call<'_>,
    name: &str,
    exe: &[u8],
    members: &mut Map<String, Value>,
) -> Result<u8, JobError> {
    let alloc: Global = system.alloc();
    let image = image_in(alloc, name, exe)?;
    if !call.wants.runs() {
        return Ok(0);
    }
    let input = call.input.held(system)?;
    let outcome = run(alloc, call, image, input.as_slice(), members)?;
    put_outcome(alloc, call, &outcome, members)
}

/// Runs an image; how many instructions it executed is added where that is wanted.
fn run(
    alloc: Global,
    call: &Call<'_>,
    image: Image,
    input: &[u8],
    members: &mut Map<String, Value>,
) -> Result<Outcome, JobError> {
    if call.wants.count {
        return run_and_count(alloc, image, input, call.limit, members);
    }
    match run_kept(alloc, image, input, call.limit) {
        Ok(outcome) => Ok(outcome),
        Err(fault) => Err(kept_line(alloc, fault)?),
    }
}

/// Runs an image, whose count of instructions is added.
fn run_and_count(
    alloc: Global,
    image: Image,
    input: &[u8],
    limit: u64,
    members: &mut Map<String, Value>,
) -> Result<Outcome, JobError> {
    match run_counted(alloc, image, input, limit) {
        Ok((outcome, count)) => {
            put(members, alloc, "count", number(alloc, count)?)?;
            Ok(outcome)
        }
        Err(fault) => Err(kept_line(alloc, fault)?),
    }
}

/// The line of a run that came to no end.
fn kept_line(alloc: Global, fault: KeptFault) -> Result<JobError, AllocError> {
    match fault {
        KeptFault::ConsoleLimit => Ok(JobError::Line(format!(in alloc; "{fault}")?)),
        KeptFault::Memory => Ok(JobError::Memory),
    }
}

/// Adds what is wanted of a run; the status.
fn put_outcome(
    alloc: Global,
    call: &Call<'_>,
    outcome: &Outcome,
    members: &mut Map<String, Value>,
) -> Result<u8, JobError> {
    if call.wants.console {
        let console = value_of(alloc, outcome.console.as_slice())?;
        put(members, alloc, "console", console)?;
    }
    if call.wants.end {
        put_end(alloc, members, &outcome.end)?;
    }
    put_end_line(alloc, members, &outcome.end)?;
    Ok(status_of(&outcome.end))
}
