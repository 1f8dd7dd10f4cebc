//! What registers hold, as far as it is known along statements without a label between.

use crate::effect::{Flow, flow_of, is_zero, written_by};
use crate::facts::Facts;
use rv_expression::Expr;
use rv_isa::{ImmediateOperation, Reg, RegisterOperation};
use rv_statement::{Operation, Plain, StatementKind, UnaryOperation};

/// What a register holds.
#[derive(Clone, Copy, Drop)]
pub(crate) enum Held {
    Unknown,
    /// The 0 with which a run begins.
    Start,
    Number(u64),
    /// The address of the label at this index, and so many bytes more.
    Place(usize, u64),
}

/// What the registers hold.
#[derive(Clone, Copy, Drop)]
pub(crate) struct Registers {
    held: [Held; 32],
}

impl Registers {
    /// Nothing is known.
    pub(crate) fn unknown() -> Self {
        Registers {
            held: [Held::Unknown; 32],
        }
    }

    /// Those of a run that begins.
    fn at_start() -> Self {
        let mut registers = Registers {
            held: [Held::Start; 32],
        };
        registers.set(Reg::SP, Held::Unknown);
        registers
    }

    /// What a register holds.
    pub(crate) fn held(&self, register: Reg) -> Held {
        if is_zero(register) {
            return Held::Number(0);
        }
        self.held[(register.number() % 32) as usize]
    }

    /// The number that a register holds.
    pub(crate) fn number(&self, register: Reg) -> Option<u64> {
        match self.held(register) {
            Held::Start => Some(0),
            Held::Number(number) => Some(number),
            _ => None,
        }
    }

    fn set(&mut self, register: Reg, held: Held) {
        self.held[(register.number() % 32) as usize] = held;
    }

    /// What they hold after a statement.
    pub(crate) fn pass<'a>(&mut self, facts: &Facts<'a>, kind: &StatementKind<'a>) {
        match kind {
            StatementKind::Label(name) => {
                *self = if facts.is_entry(name) {
                    Registers::at_start()
                } else {
                    Registers::unknown()
                };
            }
            StatementKind::Numbered(_) => *self = Registers::unknown(),
            _ => self.pass_instruction(facts, kind),
        }
    }

    /// What they hold after an instruction.
    fn pass_instruction<'a>(&mut self, facts: &Facts<'a>, kind: &StatementKind<'a>) {
        match flow_of(kind) {
            Flow::Next | Flow::Branch => {}
            Flow::Environment => {
                self.set(Reg::from_low_bits(10), Held::Unknown);
                return;
            }
            _ => {
                *self = Registers::unknown();
                return;
            }
        }
        if let Some(register) = written_by(kind) {
            let held = self.result(facts, kind);
            self.set(register, held);
        }
    }

    /// What an instruction gives the register that it writes.
    fn result<'a>(&self, facts: &Facts<'a>, kind: &StatementKind<'a>) -> Held {
        match kind {
            StatementKind::Plain(plain) => self.result_of_plain(*plain),
            StatementKind::With(operation, expression) => {
                self.result_with(facts, *operation, expression)
            }
            _ => Held::Unknown,
        }
    }

    fn result_of_plain(&self, plain: Plain) -> Held {
        match plain {
            Plain::Unary(operation, _, from) => self.result_of_unary(operation, from),
            _ => Held::Unknown,
        }
    }

    fn result_of_unary(&self, operation: UnaryOperation, from: Reg) -> Held {
        match operation {
            UnaryOperation::Mv => self.sum(from, Some(0)),
            _ => Held::Unknown,
        }
    }

    fn result_with<'a>(
        &self,
        facts: &Facts<'a>,
        operation: Operation,
        expression: &Expr<'a>,
    ) -> Held {
        match operation {
            Operation::Li(_) => match facts.number(expression) {
                Some(number) => Held::Number(number),
                None => Held::Unknown,
            },
            Operation::La(_) => place_of(facts, expression),
            Operation::Immediate(operation, _, from) => {
                self.result_of_immediate(operation, from, facts.number(expression))
            }
            Operation::Registers(operation, _, from) => {
                self.result_of_registers(operation, from, facts.number(expression))
            }
            _ => Held::Unknown,
        }
    }

    fn result_of_immediate(
        &self,
        operation: ImmediateOperation,
        from: Reg,
        number: Option<u64>,
    ) -> Held {
        match operation {
            ImmediateOperation::Addi => self.sum(from, number),
            _ => Held::Unknown,
        }
    }

    fn result_of_registers(
        &self,
        operation: RegisterOperation,
        from: Reg,
        number: Option<u64>,
    ) -> Held {
        match operation {
            RegisterOperation::Add => self.sum(from, number),
            _ => Held::Unknown,
        }
    }

    /// What a register holds and a number, as a sum.
    fn sum(&self, from: Reg, number: Option<u64>) -> Held {
        let Some(added) = number else {
            return Held::Unknown;
        };
        match self.held(from) {
            Held::Unknown => Held::Unknown,
            Held::Start => Held::Number(added),
            Held::Number(number) => Held::Number(number.wrapping_add(added)),
            Held::Place(label, distance) => Held::Place(label, distance.wrapping_add(added)),
        }
    }
}

/// The place that an expression names.
fn place_of<'a>(facts: &Facts<'a>, expression: &Expr<'a>) -> Held {
    let Expr::Name(name) = expression else {
        return Held::Unknown;
    };
    match facts.label(name) {
        Some(label) => Held::Place(label, 0),
        None => Held::Unknown,
    }
}
