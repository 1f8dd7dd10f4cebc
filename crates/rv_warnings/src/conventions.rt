//! What a function owes its caller: ra, s0 to s11 and sp as they were, and at its own calls a stack pointer of 16 (psABI,
//! "Integer Calling Convention").
//!
//! A function goes from its label to the next one in its section. It owes that only where it returns, and not where a run
//! begins; a register is saved where it is stored at sp or loaded from there, or kept elsewhere before it is written, and one
//! that is stored is to be loaded on each way from a change to a return. What loads sp itself goes on with another stack, as
//! `longjmp` does, and owes nothing.

use crate::calls::is_exit;
use crate::effect::{Flow, flow_of, is_instruction, is_load, kept_by, operation_of, written_by};
use crate::facts::Facts;
use crate::registers::Registers;
use crate::warning::{Doubt, Warning, put};
use crate::ways::{Ways, bit};
use rv_isa::{ImmediateOperation, Reg};
use rv_statement::{Operation, Plain, Statement, StatementKind};
use std::alloc::{AllocError, Global};

/// A function as far as it was looked at.
#[derive(Drop)]
struct Function {
    section: u32,
    /// It has a caller.
    owes: bool,
    returns: bool,
    /// It saves what it has to by a call, as GCC does by `-msave-restore`.
    saves_by_call: bool,
    /// It goes on with another stack.
    switches_stack: bool,
    /// The registers that are saved, each at the bit of its number.
    saved: u32,
    /// The registers that are lost, and the statement that loses each.
    lost: Vec<(Reg, usize)>,
    /// The registers that were stored on the stack, and where last.
    stored: Vec<(Reg, usize)>,
    /// Those of them that were changed and are not loaded again, and where they were stored.
    unloaded: Vec<(Reg, usize)>,
    /// The returns where sp is so far below where it was at the beginning.
    shifted: Vec<(u64, usize)>,
    /// The latest instruction was a call.
    is_after_call: bool,
    /// How far sp is from where it was at the beginning, where that is known, modulo 2^64.
    moved: Option<u64>,
    /// No instruction leads to the next statement.
    is_cut_off: bool,
}

impl Function {
    fn new(alloc: Global, section: u32) -> Self {
        Function {
            section,
            owes: true,
            returns: false,
            saves_by_call: false,
            switches_stack: false,
            saved: 0,
            lost: Vec::new(alloc),
            stored: Vec::new(alloc),
            unloaded: Vec::new(alloc),
            shifted: Vec::new(alloc),
            is_after_call: false,
            moved: Some(0),
            is_cut_off: true,
        }
    }

    /// Begins another one.
    fn begin(&mut self, section: u32, owes: bool) {
        self.section = section;
        self.owes = owes;
        self.returns = false;
        self.saves_by_call = false;
        self.switches_stack = false;
        self.saved = 0;
        self.lost.clear();
        self.stored.clear();
        self.unloaded.clear();
        self.shifted.clear();
        self.is_after_call = false;
        self.moved = Some(0);
        self.is_cut_off = true;
    }

    /// Passes a label. A call before it may be of what does not return, and then nothing is known of sp.
    fn end_block(&mut self) {
        if self.is_after_call {
            self.moved = None;
        }
        self.is_after_call = false;
    }

    /// Adds what it loses, where it returns.
    fn finish(&self, found: &mut Vec<Warning>) -> Result<(), AllocError> {
        if !self.owes || !self.returns || self.saves_by_call || self.switches_stack {
            return Ok(());
        }
        self.put_lost(found)?;
        self.put_unloaded(found)?;
        self.put_shifted(found)
    }

    /// Adds the registers that it loses and does not save.
    fn put_lost(&self, found: &mut Vec<Warning>) -> Result<(), AllocError> {
        for (register, index) in &self.lost {
            if !self.has_saved(*register) {
                put(found, doubt_of(*register), *index)?;
            }
        }
        Ok(())
    }

    /// Adds the registers that it does not load again.
    fn put_unloaded(&self, found: &mut Vec<Warning>) -> Result<(), AllocError> {
        for (register, index) in &self.unloaded {
            put(found, Doubt::NotLoaded(*register), *index)?;
        }
        Ok(())
    }

    /// Adds its returns where sp is not where it was.
    fn put_shifted(&self, found: &mut Vec<Warning>) -> Result<(), AllocError> {
        for (distance, index) in &self.shifted {
            put(found, Doubt::StackShifted(*distance), *index)?;
        }
        Ok(())
    }

    /// Whether a register is saved.
    fn has_saved(&self, register: Reg) -> bool {
        self.saved & bit(register) != 0
    }

    /// Looks at an instruction.
    fn pass<'a>(
        &mut self,
        facts: &Facts<'a>,
        ways: &Ways,
        kind: &StatementKind<'a>,
        index: usize,
    ) -> Result<(), AllocError> {
        self.save(kind, index)?;
        if let Some(register) = written_by(kind) {
            if is_owed(register) && ways.lose(index, register) {
                self.write(register, is_load(kind), index)?;
            }
            self.move_stack(facts, register, kind);
        }
        self.go(kind, index)
    }

    /// Notes where sp is, if that is the register that an instruction writes.
    fn move_stack<'a>(&mut self, facts: &Facts<'a>, register: Reg, kind: &StatementKind<'a>) {
        if register.number() == Reg::SP.number() {
            self.moved = moved_by(facts, self.moved, kind);
            self.switches_stack = self.switches_stack || is_load(kind);
        }
    }

    /// Notes a register that an instruction saves, or loads as it was saved.
    fn save(&mut self, kind: &StatementKind<'_>, index: usize) -> Result<(), AllocError> {
        let is_at_stack = is_at_stack(kind);
        if let Some(register) = written_by(kind)
            && is_at_stack
        {
            self.saved |= bit(register);
        }
        match kept_by(kind) {
            Some(register) if is_at_stack || !has(self.lost.as_slice(), register) => {
                self.keep(register, is_at_stack, index)
            }
            _ => Ok(()),
        }
    }

    /// Notes a register that is kept, on the stack or elsewhere.
    fn keep(&mut self, register: Reg, is_at_stack: bool, index: usize) -> Result<(), AllocError> {
        self.saved |= bit(register);
        if is_at_stack && is_owed(register) && !has(self.stored.as_slice(), register) {
            self.stored.push((register, index))?;
        }
        Ok(())
    }

    /// Notes a register that is written, where the caller wants it again and it comes to a return so. By a load it may be as it
    /// was.
    fn write(&mut self, register: Reg, is_load: bool, index: usize) -> Result<(), AllocError> {
        if let Some(stored) = place_of(self.stored.as_slice(), register) {
            if !is_load && !has(self.unloaded.as_slice(), register) {
                self.unloaded.push((register, stored))?;
            }
        } else if !self.has_saved(register) && !has(self.lost.as_slice(), register) {
            self.lost.push((register, index))?;
        }
        Ok(())
    }

    /// Goes where an instruction goes.
    fn go(&mut self, kind: &StatementKind<'_>, index: usize) -> Result<(), AllocError> {
        let flow = flow_of(kind);
        let moved = self.moved;
        self.is_cut_off = matches!(flow, Flow::Jump | Flow::Return | Flow::Break);
        if self.is_cut_off {
            self.moved = None;
        }
        self.is_after_call = matches!(flow, Flow::Call);
        self.saves_by_call = self.saves_by_call || is_call_by_t0(kind);
        if !matches!(flow, Flow::Return) {
            return Ok(());
        }
        self.returns = true;
        self.put_shift(moved, index)
    }

    /// Notes a return where sp, so far from where it was, is below that; it is above where the function goes on with the
    /// frame of another part.
    fn put_shift(&mut self, moved: Option<u64>, index: usize) -> Result<(), AllocError> {
        if let Some(moved) = moved
            && moved.cast_signed() < 0
        {
            self.shifted.push((moved.wrapping_neg(), index))?;
        }
        Ok(())
    }
}

/// Whether one of some registers is this.
fn has(registers: &[(Reg, usize)], register: Reg) -> bool {
    place_of(registers, register).is_some()
}

/// The place of a register among some.
fn place_of(registers: &[(Reg, usize)], register: Reg) -> Option<usize> {
    for (other, index) in registers {
        if other.number() == register.number() {
            return Some(*index);
        }
    }
    None
}

/// Adds the registers that functions lose, and the calls where sp is no multiple of 16.
pub(crate) fn put_conventions<'a>(
    alloc: Global,
    facts: &Facts<'a>,
    room: &mut Statement<'a>,
    found: &mut Vec<Warning>,
) -> Result<(), AllocError> {
    let ways = Ways::of(alloc, facts, room)?;
    let mut function = Function::new(alloc, 0);
    let mut registers = Registers::unknown();
    let statements = facts.unit.statements();
    for index in 0..statements.len() {
        let statement = statements.read(index, room);
        if let Some(section) = code_section(facts, index) {
            put_passed(
                facts,
                &ways,
                &statement.kind,
                (index, section),
                &mut function,
                found,
            )?;
            function.is_cut_off = function.is_cut_off || exits(&registers, &statement.kind);
        }
        registers.pass(facts, &statement.kind);
    }
    function.finish(found)
}

/// The section of a statement, where that has code.
fn code_section(facts: &Facts<'_>, index: usize) -> Option<u32> {
    let section = facts.section(index)?;
    if facts.is_code(section) {
        Some(section)
    } else {
        None
    }
}

/// Looks at a statement, by its index and section, and adds what the function before it loses where it begins one.
fn put_passed<'a>(
    facts: &Facts<'a>,
    ways: &Ways,
    kind: &StatementKind<'a>,
    at: (usize, u32),
    function: &mut Function,
    found: &mut Vec<Warning>,
) -> Result<(), AllocError> {
    let (index, section) = at;
    if matches!(kind, StatementKind::Label(_) | StatementKind::Numbered(_)) {
        function.end_block();
    }
    if section != function.section || begins(facts, kind, function.is_cut_off) {
        function.finish(found)?;
        function.begin(section, !is_entry(facts, kind));
    }
    if !is_instruction(kind) {
        return Ok(());
    }
    put_off(kind, function.moved, index, found)?;
    function.pass(facts, ways, kind, index)
}

/// Adds a call where sp, so far from where it was, is no multiple of 16.
fn put_off(
    kind: &StatementKind<'_>,
    moved: Option<u64>,
    index: usize,
    found: &mut Vec<Warning>,
) -> Result<(), AllocError> {
    if is_call_off(kind, moved) {
        return put(found, Doubt::StackOff, index);
    }
    Ok(())
}

/// Whether a run begins at a statement.
fn is_entry(facts: &Facts<'_>, kind: &StatementKind<'_>) -> bool {
    match kind {
        StatementKind::Label(name) => facts.is_entry(name),
        _ => false,
    }
}

/// Whether a statement is the call that ends a run.
fn exits(registers: &Registers, kind: &StatementKind<'_>) -> bool {
    matches!(flow_of(kind), Flow::Environment) && is_exit(registers)
}

/// Whether a statement is the label of a function.
fn begins(facts: &Facts<'_>, kind: &StatementKind<'_>, is_cut_off: bool) -> bool {
    match kind {
        StatementKind::Label(name) => facts.begins_function(name, is_cut_off),
        _ => false,
    }
}

/// Whether a statement is a call where sp, so far from where it was, is no multiple of 16.
fn is_call_off(kind: &StatementKind<'_>, moved: Option<u64>) -> bool {
    match moved {
        Some(moved) => moved % 16 != 0 && matches!(flow_of(kind), Flow::Call),
        None => false,
    }
}

/// How far sp is from where it was after an instruction that writes it.
fn moved_by<'a>(facts: &Facts<'a>, moved: Option<u64>, kind: &StatementKind<'a>) -> Option<u64> {
    let StatementKind::With(operation, expression) = kind else {
        return None;
    };
    if !is_stack_sum(*operation) {
        return None;
    }
    Some(moved?.wrapping_add(facts.number(expression)?))
}

/// Whether an operation adds a number to sp.
fn is_stack_sum(operation: Operation) -> bool {
    match operation {
        Operation::Immediate(operation, _, from) => {
            matches!(operation, ImmediateOperation::Addi) && from.number() == Reg::SP.number()
        }
        _ => false,
    }
}

/// Whether a statement is a call that leaves its way back in t0, as those of what saves registers do.
fn is_call_by_t0(kind: &StatementKind<'_>) -> bool {
    match operation_of(kind) {
        Some(operation) => links_by_t0(operation),
        None => false,
    }
}

/// Whether an operation is a call that leaves its way back in t0.
fn links_by_t0(operation: Operation) -> bool {
    match operation {
        Operation::Call(link) => link.number() == 5,
        _ => false,
    }
}

/// Whether a statement is a load or a store at sp.
fn is_at_stack(kind: &StatementKind<'_>) -> bool {
    let base = match kind {
        StatementKind::Plain(plain) => plain_base(*plain),
        _ => base_of(operation_of(kind)),
    };
    match base {
        Some(base) => base.number() == Reg::SP.number(),
        None => false,
    }
}

/// The base of a load or a store without an offset.
fn plain_base(plain: Plain) -> Option<Reg> {
    match plain {
        Plain::Load(_, _, base) => Some(base),
        Plain::Store(_, _, base) => Some(base),
        Plain::Parcel(_, _, second) => Some(second),
        _ => None,
    }
}

/// The base of a load or a store with an offset.
fn base_of(operation: Option<Operation>) -> Option<Reg> {
    match operation? {
        Operation::Load(_, _, base) => Some(base),
        Operation::Store(_, _, base) => Some(base),
        Operation::Parcel(_, _, second) => Some(second),
        _ => None,
    }
}

/// Whether a caller wants a register as it was: ra, and s0 to s11.
fn is_owed(register: Reg) -> bool {
    matches!(register.number(), 1 | 8 | 9 | 18..=27)
}

/// What may be wrong with a write to a register.
fn doubt_of(register: Reg) -> Doubt {
    if register.number() == Reg::RA.number() {
        Doubt::LostReturn
    } else {
        Doubt::LostRegister(register)
    }
}
