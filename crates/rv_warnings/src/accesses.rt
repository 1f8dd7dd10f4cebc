//! Loads and stores off a multiple of their width, where the register of their address holds what is known.

use crate::effect::is_zero;
use crate::facts::Facts;
use crate::registers::{Held, Registers};
use rv_isa::Reg;
use rv_statement::{Operation, Plain, Statement, StatementKind};
use std::alloc::{AllocError, Global};

/// An access whose address is known but for that of a label.
#[derive(Clone, Copy, Drop)]
pub(crate) struct KnownAccess {
    /// The index of its statement.
    pub index: usize,
    /// Where its bytes begin.
    pub held: Held,
    pub width: u64,
}

/// The loads and stores of several bytes at addresses that are known.
pub(crate) fn known_accesses<'a>(
    alloc: Global,
    facts: &Facts<'a>,
    room: &mut Statement<'a>,
) -> Result<Vec<KnownAccess>, AllocError> {
    let mut accesses = Vec::new(alloc);
    put_accesses(facts, room, &mut accesses)?;
    Ok(accesses)
}

fn put_accesses<'a>(
    facts: &Facts<'a>,
    room: &mut Statement<'a>,
    accesses: &mut Vec<KnownAccess>,
) -> Result<(), AllocError> {
    let mut registers = Registers::unknown();
    let statements = facts.unit.statements();
    for index in 0..statements.len() {
        let statement = statements.read(index, room);
        if let Some((width, held)) = access_of(facts, &registers, &statement.kind) {
            accesses.push(KnownAccess { index, held, width })?;
        }
        registers.pass(facts, &statement.kind);
    }
    Ok(())
}

/// The width of a load or a store of several bytes, and where they begin, where that is known.
fn access_of<'a>(
    facts: &Facts<'a>,
    registers: &Registers,
    kind: &StatementKind<'a>,
) -> Option<(u64, Held)> {
    let (width, base, offset) = operands_of(facts, kind)?;
    if width == 1 || is_zero(base) {
        return None;
    }
    match registers.held(base) {
        Held::Number(number) => Some((width, Held::Number(number.wrapping_add(offset)))),
        Held::Place(label, distance) => {
            Some((width, Held::Place(label, distance.wrapping_add(offset))))
        }
        _ => None,
    }
}

/// The width of a load or a store, the register of its address, and the offset from that, where it is known.
fn operands_of<'a>(facts: &Facts<'a>, kind: &StatementKind<'a>) -> Option<(u64, Reg, u64)> {
    match kind {
        StatementKind::Plain(plain) => {
            let (width, base) = plain_access(*plain)?;
            Some((width, base, 0))
        }
        StatementKind::With(operation, expression) => {
            let (width, base) = access_with(*operation)?;
            Some((width, base, facts.number(expression)?))
        }
        _ => None,
    }
}

fn plain_access(plain: Plain) -> Option<(u64, Reg)> {
    match plain {
        Plain::Load(operation, _, base) => Some((operation.width(), base)),
        Plain::Store(operation, _, base) => Some((operation.width(), base)),
        _ => None,
    }
}

fn access_with(operation: Operation) -> Option<(u64, Reg)> {
    match operation {
        Operation::Load(operation, _, base) => Some((operation.width(), base)),
        Operation::Store(operation, _, base) => Some((operation.width(), base)),
        _ => None,
    }
}
