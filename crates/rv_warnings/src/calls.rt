//! Calls of the environment that there are not, where their numbers are known.

use crate::effect::{Flow, flow_of};
use crate::facts::Facts;
use crate::registers::{Held, Registers};
use crate::warning::{Doubt, Warning, put};
use rv_isa::Reg;
use rv_statement::Statement;
use std::alloc::AllocError;

/// The calls: a read, a write, and the exit.
const READ: u64 = 63;

const WRITE: u64 = 64;

const EXIT: u64 = 93;

/// Adds the calls by a number, or of a file, that there is not; and the first whose number nothing sets. `sets_number` says
/// whether some source of the program sets one.
pub(crate) fn put_calls<'a>(
    facts: &Facts<'a>,
    sets_number: bool,
    room: &mut Statement<'a>,
    found: &mut Vec<Warning>,
) -> Result<(), AllocError> {
    let mut registers = Registers::unknown();
    let mut is_told = false;
    let statements = facts.unit.statements();
    for index in 0..statements.len() {
        let statement = statements.read(index, room);
        if matches!(flow_of(&statement.kind), Flow::Environment)
            && let Some(doubt) = doubt_of_call(&registers, sets_number)
        {
            is_told = put_call(found, doubt, index, is_told)?;
        }
        registers.pass(facts, &statement.kind);
    }
    Ok(())
}

/// Adds a doubt of a call, that nothing sets its number only once; whether that was said.
fn put_call(
    found: &mut Vec<Warning>,
    doubt: Doubt,
    index: usize,
    is_told: bool,
) -> Result<bool, AllocError> {
    let is_unset = matches!(&doubt, Doubt::NoNumber);
    if is_told && is_unset {
        return Ok(true);
    }
    put(found, doubt, index)?;
    Ok(is_told || is_unset)
}

/// What may be wrong with a call where the registers hold this.
fn doubt_of_call(registers: &Registers, sets_number: bool) -> Option<Doubt> {
    let call = Reg::from_low_bits(17);
    if !sets_number || matches!(registers.held(call), Held::Start) {
        return Some(Doubt::NoNumber);
    }
    match registers.number(call)? {
        EXIT => None,
        READ => doubt_of_file(registers, READ, 0, 0),
        WRITE => doubt_of_file(registers, WRITE, 1, 2),
        number => Some(Doubt::UnknownCall(number)),
    }
}

/// That the file of a call by this number, where it is known, is none from one to another.
fn doubt_of_file(registers: &Registers, number: u64, first: u64, last: u64) -> Option<Doubt> {
    let file = registers.number(Reg::from_low_bits(10))?;
    if first <= file && file <= last {
        return None;
    }
    Some(Doubt::WrongFile(number, file))
}

/// Whether a call where the registers hold this ends the run.
pub(crate) fn is_exit(registers: &Registers) -> bool {
    registers.number(Reg::from_low_bits(17)) == Some(EXIT)
}

/// Whether a run goes on behind a call where the registers hold this.
pub(crate) fn goes_on(registers: &Registers) -> bool {
    match registers.number(Reg::from_low_bits(17)) {
        Some(number) => number == READ || number == WRITE,
        None => false,
    }
}
