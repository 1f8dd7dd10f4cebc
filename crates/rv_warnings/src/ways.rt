//! The ways from statements to a return, and which registers are loaded on all of them.
//!
//! A call comes back, unless a label stands behind it: what is called there may not, and compilers let another block begin there.
//! A jump to the address in a register leads nowhere that is known, and a call of the environment goes on unless it is the exit.

use crate::calls::is_exit;
use crate::effect::{Flow, flow_of, is_instruction, is_load, name_in, reference_in, written_by};
use crate::facts::Facts;
use crate::registers::Registers;
use rv_isa::Reg;
use rv_statement::{Statement, StatementKind};
use std::alloc::{AllocError, Global};
use std::collections::HashMap;

/// The index of no statement.
const NOWHERE: u32 = u32::MAX;
/// Every register.
const ALL: u32 = u32::MAX;
/// A turn follows the ways of one more loop inside another.
const MOST_TURNS: usize = 64;

/// Where a run goes from a statement.
#[derive(Clone, Copy, Drop)]
struct Step {
    /// The index of the next statement, where a run goes on to that.
    next: u32,
    /// The index of the label to which it may jump.
    target: u32,
    /// The register that it loads, at the bit of its number.
    loaded: u32,
    returns: bool,
}

/// What stands behind a place of a section.
#[derive(Clone, Copy, Drop)]
struct Behind {
    next: u32,
    is_label: bool,
}

/// The ways from the statements of a source to a return.
#[derive(Drop)]
pub(crate) struct Ways {
    steps: Vec<Step>,
    /// Of each statement the registers for which a way leads from it to a return that does not load them.
    open: Vec<u32>,
}

impl Ways {
    /// Those of a source.
    pub(crate) fn of<'a>(
        alloc: Global,
        facts: &Facts<'a>,
        room: &mut Statement<'a>,
    ) -> Result<Ways, AllocError> {
        let mut steps = Vec::new(alloc);
        put_steps(alloc, facts, room, &mut steps)?;
        link_steps(alloc, facts, room, steps.as_mut_slice())?;
        let mut open = vec![in alloc; 0u32; steps.len()]?;
        for _ in 0..MOST_TURNS {
            if !follow(steps.as_slice(), open.as_mut_slice()) {
                break;
            }
        }
        Ok(Ways { steps, open })
    }

    /// Whether a way leads from behind a statement to a return that does not load a register.
    pub(crate) fn lose(&self, index: usize, register: Reg) -> bool {
        let behind = match self.steps.get(index) {
            Some(step) => open_behind(step, self.open.as_slice()),
            None => 0,
        };
        behind & bit(register) != 0
    }
}

/// The bit of a register.
pub(crate) fn bit(register: Reg) -> u32 {
    1u32.wrapping_shl(u32::from(register.number()))
}

/// An index as a step has it.
fn number_of(index: usize) -> u32 {
    u32::try_from(index).unwrap_or(NOWHERE)
}

/// Adds where a run goes from each statement, but for the next ones and the labels ahead that have numbers.
fn put_steps<'a>(
    alloc: Global,
    facts: &Facts<'a>,
    room: &mut Statement<'a>,
    steps: &mut Vec<Step>,
) -> Result<(), AllocError> {
    let mut registers = Registers::unknown();
    let mut numbered: HashMap<&'a [u8], u32> = HashMap::new(alloc);
    let statements = facts.unit.statements();
    for index in 0..statements.len() {
        let kind = &statements.read(index, room).kind;
        if let StatementKind::Numbered(digits) = kind {
            numbered.insert(*digits, number_of(index))?;
        }
        let mut step = step_of(facts, &registers, kind);
        if let Some(digits) = reference_in(kind, false) {
            step.target = numbered.get(&digits).copied().unwrap_or(NOWHERE);
        }
        steps.push(step)?;
        registers.pass(facts, kind);
    }
    Ok(())
}

/// Where a run goes from a statement; of the next one only whether it goes there.
fn step_of<'a>(facts: &Facts<'a>, registers: &Registers, kind: &StatementKind<'a>) -> Step {
    let flow = flow_of(kind);
    let goes_on = match flow {
        Flow::Next | Flow::Branch | Flow::Call => true,
        Flow::Environment => !is_exit(registers),
        _ => false,
    };
    Step {
        next: if goes_on { 0 } else { NOWHERE },
        target: match flow {
            Flow::Branch | Flow::Jump => target_of(facts, kind),
            _ => NOWHERE,
        },
        loaded: loaded_by(kind),
        returns: matches!(flow, Flow::Return),
    }
}

/// The index of the label to which a statement may jump by its name.
fn target_of<'a>(facts: &Facts<'a>, kind: &StatementKind<'a>) -> u32 {
    let Some(name) = name_in(kind) else {
        return NOWHERE;
    };
    match facts.label(name) {
        Some(index) => number_of(index),
        None => NOWHERE,
    }
}

/// The register that a statement loads, at the bit of its number.
fn loaded_by(kind: &StatementKind<'_>) -> u32 {
    match written_by(kind) {
        Some(register) if is_load(kind) => bit(register),
        _ => 0,
    }
}

/// Joins each step to the next one of its section and to the label ahead that has a number.
fn link_steps<'a>(
    alloc: Global,
    facts: &Facts<'a>,
    room: &mut Statement<'a>,
    steps: &mut [Step],
) -> Result<(), AllocError> {
    let mut behind = behind_all(alloc, facts)?;
    let mut numbered: HashMap<&'a [u8], u32> = HashMap::new(alloc);
    let statements = facts.unit.statements();
    for index in (0..statements.len()).rev() {
        let kind = &statements.read(index, room).kind;
        if let StatementKind::Numbered(digits) = kind {
            numbered.insert(*digits, number_of(index))?;
        }
        if let Some(step) = steps.get_mut(index) {
            if let Some(digits) = reference_in(kind, true) {
                step.target = numbered.get(&digits).copied().unwrap_or(NOWHERE);
            }
            link_next(facts, kind, index, step, behind.as_mut_slice());
        }
    }
    Ok(())
}

/// What stands behind the end of each section.
fn behind_all(alloc: Global, facts: &Facts<'_>) -> Result<Vec<Behind>, AllocError> {
    let mut behind = Vec::new(alloc);
    for _ in facts.unit.sections() {
        behind.push(Behind {
            next: NOWHERE,
            is_label: true,
        })?;
    }
    Ok(behind)
}

/// Joins a step to the next one of its section.
fn link_next<'a>(
    facts: &Facts<'a>,
    kind: &StatementKind<'a>,
    index: usize,
    step: &mut Step,
    behind: &mut [Behind],
) {
    let Some(section) = facts.section(index) else {
        return;
    };
    let Some(last) = behind.get_mut(section as usize) else {
        return;
    };
    if step.next != NOWHERE {
        let may_end = last.is_label && matches!(flow_of(kind), Flow::Call);
        step.next = if may_end { NOWHERE } else { last.next };
    }
    last.next = number_of(index);
    last.is_label = match kind {
        StatementKind::Label(_) | StatementKind::Numbered(_) => true,
        _ => last.is_label && !is_instruction(kind),
    };
}

/// Follows the ways by one statement and more; whether that finds new ones.
fn follow(steps: &[Step], open: &mut [u32]) -> bool {
    let mut changed = false;
    for index in (0..steps.len()).rev() {
        if let Some(step) = steps.get(index) {
            changed = set(open, index, open_at(step, open)) || changed;
        }
    }
    changed
}

/// Puts a number into its place; whether that changes it.
fn set(open: &mut [u32], index: usize, value: u32) -> bool {
    match open.get_mut(index) {
        Some(place) => {
            let changed = *place != value;
            *place = value;
            changed
        }
        None => false,
    }
}

/// The registers for which a way leads from a statement to a return that does not load them.
fn open_at(step: &Step, open: &[u32]) -> u32 {
    let behind = if step.returns {
        ALL
    } else {
        open_behind(step, open)
    };
    behind & !step.loaded
}

/// The same from behind the statement.
fn open_behind(step: &Step, open: &[u32]) -> u32 {
    open_of(open, step.next) | open_of(open, step.target)
}

/// The same from the statement of an index.
fn open_of(open: &[u32], index: u32) -> u32 {
    open.get(index as usize).copied().unwrap_or(0)
}
