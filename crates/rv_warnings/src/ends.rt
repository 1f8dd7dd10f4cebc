//! Code from which a run goes on where nothing, or another function, stands.

use crate::calls::goes_on;
use crate::effect::{Flow, flow_of, is_instruction, name_in};
use crate::facts::Facts;
use crate::registers::Registers;
use crate::warning::{Doubt, Warning, put};
use rv_statement::{Statement, StatementKind};
use std::alloc::{AllocError, Global};

/// The latest instruction of a section.
#[derive(Clone, Copy, Drop)]
struct Latest<'a> {
    index: usize,
    /// A run goes on behind it.
    goes_on: bool,
    /// The name that it calls.
    callee: Option<&'a [u8]>,
}

/// Adds the instructions from which a run goes on into a function that is called, and the last ones of their sections from
/// which it goes on.
pub(crate) fn put_ends<'a>(
    alloc: Global,
    facts: &Facts<'a>,
    room: &mut Statement<'a>,
    found: &mut Vec<Warning>,
) -> Result<(), AllocError> {
    let none: Option<Latest<'a>> = None;
    let mut latest = vec![in alloc; none; facts.unit.sections().len()]?;
    pass_all(facts, room, latest.as_mut_slice(), found)?;
    put_last(latest.as_slice(), found)
}

/// Adds the last instructions of sections from which a run goes on.
fn put_last(latest: &[Option<Latest<'_>>], found: &mut Vec<Warning>) -> Result<(), AllocError> {
    for last in latest {
        if let Some(last) = last
            && last.goes_on
        {
            put(found, Doubt::RunsOff, last.index)?;
        }
    }
    Ok(())
}

/// Looks at all statements; afterwards the latest instruction of each section is its last.
fn pass_all<'a>(
    facts: &Facts<'a>,
    room: &mut Statement<'a>,
    latest: &mut [Option<Latest<'a>>],
    found: &mut Vec<Warning>,
) -> Result<(), AllocError> {
    let mut registers = Registers::unknown();
    // the index of a call behind which its own function stands, where that is not known to return
    let mut waiting: Option<usize> = None;
    let statements = facts.unit.statements();
    for index in 0..statements.len() {
        let kind = &statements.read(index, room).kind;
        if let Some(section) = facts.section(index)
            && facts.is_code(section)
            && let Some(last) = latest.get_mut(section as usize)
        {
            waiting = put_fall(facts, &registers, kind, last, waiting, found)?;
            pass(&registers, kind, index, last);
        }
        registers.pass(facts, kind);
    }
    Ok(())
}

/// Adds what goes on into a function, where a statement shows that; the call that still waits.
fn put_fall<'a>(
    facts: &Facts<'a>,
    registers: &Registers,
    kind: &StatementKind<'a>,
    last: &mut Option<Latest<'a>>,
    waiting: Option<usize>,
    found: &mut Vec<Warning>,
) -> Result<Option<usize>, AllocError> {
    match kind {
        StatementKind::Label(name) if facts.begins_function(name, false) => {
            let before = *last;
            *last = None;
            put_entered(facts, name, before, found)
        }
        _ => put_returned(registers, kind, waiting, found),
    }
}

/// Adds the call that waits where its function returns; the call that still waits.
fn put_returned(
    registers: &Registers,
    kind: &StatementKind<'_>,
    waiting: Option<usize>,
    found: &mut Vec<Warning>,
) -> Result<Option<usize>, AllocError> {
    let Some(call) = waiting else {
        return Ok(None);
    };
    match flow_of(kind) {
        Flow::Return => {
            put(found, Doubt::FallsInto, call)?;
            Ok(None)
        }
        // the function may be the one that ends the run
        Flow::Environment if !goes_on(registers) => Ok(None),
        _ => Ok(waiting),
    }
}

/// Adds the latest instruction where a run goes on from it into the function of a name; the call that waits there.
fn put_entered<'a>(
    facts: &Facts<'a>,
    name: &'a [u8],
    latest: Option<Latest<'a>>,
    found: &mut Vec<Warning>,
) -> Result<Option<usize>, AllocError> {
    match latest {
        Some(latest) if latest.callee == Some(name) => Ok(Some(latest.index)),
        Some(latest) if latest.goes_on && facts.is_called(name) => {
            put(found, Doubt::FallsInto, latest.index)?;
            Ok(None)
        }
        _ => Ok(None),
    }
}

/// Notes an instruction as the latest of its section.
fn pass<'a>(
    registers: &Registers,
    kind: &StatementKind<'a>,
    index: usize,
    last: &mut Option<Latest<'a>>,
) {
    if !is_instruction(kind) {
        return;
    }
    let flow = flow_of(kind);
    let is_call = matches!(flow, Flow::Call);
    let goes_on = match flow {
        Flow::Next => true,
        Flow::Environment => goes_on(registers),
        _ => false,
    };
    *last = Some(Latest {
        index,
        goes_on,
        callee: if is_call { name_in(kind) } else { None },
    });
}
