//! What a statement does: where a run goes from it, and which registers it writes and keeps.

use rv_expression::Expr;
use rv_isa::{AtomicOperation, Reg};
use rv_parcel::ParcelOperation;
use rv_statement::{Operation, Plain, StatementKind, UnaryOperation};

/// Where a run goes from a statement.
#[derive(Clone, Copy, Drop)]
pub(crate) enum Flow {
    /// To the next one.
    Next,
    /// To the next one, or to a label.
    Branch,
    /// To a label or an address, and not back.
    Jump,
    /// To a function, and back.
    Call,
    /// To the address in ra.
    Return,
    /// To the next one, unless the environment ends the run.
    Environment,
    /// Nowhere: the run ends.
    Break,
}

/// Where a run goes from a statement.
pub(crate) fn flow_of(kind: &StatementKind<'_>) -> Flow {
    match kind {
        StatementKind::Plain(plain) => flow_of_plain(*plain),
        StatementKind::With(operation, _) => flow_of_operation(*operation),
        StatementKind::WithFunction(operation, _, _) => flow_of_operation(*operation),
        _ => Flow::Next,
    }
}

fn flow_of_plain(plain: Plain) -> Flow {
    match plain {
        Plain::Jalr(link, to) => flow_of_jump(link, to),
        Plain::JalrLinked(_) => Flow::Call,
        Plain::Jr(to) => flow_of_jump(Reg::ZERO, to),
        Plain::Ret => Flow::Return,
        Plain::Ecall => Flow::Environment,
        Plain::Ebreak => Flow::Break,
        Plain::Parcel(operation, first, _) => flow_of_parcel(operation, first),
        _ => Flow::Next,
    }
}

fn flow_of_operation(operation: Operation) -> Flow {
    match operation {
        Operation::Branch(..) | Operation::ZeroBranch(..) | Operation::SwappedBranch(..) => {
            Flow::Branch
        }
        Operation::Jal(link) | Operation::Call(link) => {
            if is_zero(link) {
                Flow::Jump
            } else {
                Flow::Call
            }
        }
        Operation::JalLinked | Operation::CallLinked | Operation::JalrLinked(_) => Flow::Call,
        Operation::Jalr(link, to) | Operation::JalrThen(link, to) => flow_of_jump(link, to),
        Operation::J | Operation::Tail | Operation::Jump(_) => Flow::Jump,
        Operation::Jr(to) => flow_of_jump(Reg::ZERO, to),
        Operation::Parcel(operation, first, _) => flow_of_parcel(operation, first),
        _ => Flow::Next,
    }
}

fn flow_of_parcel(operation: ParcelOperation, first: Reg) -> Flow {
    match operation {
        ParcelOperation::J => Flow::Jump,
        ParcelOperation::Beqz | ParcelOperation::Bnez => Flow::Branch,
        ParcelOperation::Jr => flow_of_jump(Reg::ZERO, first),
        ParcelOperation::Jalr => Flow::Call,
        ParcelOperation::Ebreak => Flow::Break,
        _ => Flow::Next,
    }
}

/// Where a jump to the address in a register goes that leaves its own in another.
fn flow_of_jump(link: Reg, to: Reg) -> Flow {
    if !is_zero(link) {
        Flow::Call
    } else if to.number() == Reg::RA.number() {
        Flow::Return
    } else {
        Flow::Jump
    }
}

pub(crate) fn is_zero(register: Reg) -> bool {
    register.number() == 0
}

/// Whether a statement is an instruction.
pub(crate) fn is_instruction(kind: &StatementKind<'_>) -> bool {
    matches!(
        kind,
        StatementKind::Plain(_) | StatementKind::With(..) | StatementKind::WithFunction(..)
    )
}

/// The operation of an instruction that has an expression.
pub(crate) fn operation_of(kind: &StatementKind<'_>) -> Option<Operation> {
    match kind {
        StatementKind::With(operation, _) => Some(*operation),
        StatementKind::WithFunction(operation, _, _) => Some(*operation),
        _ => None,
    }
}

/// The name that an instruction's expression is.
pub(crate) fn name_in<'a>(kind: &StatementKind<'a>) -> Option<&'a [u8]> {
    match kind {
        StatementKind::With(_, expression) => name_of(expression),
        _ => None,
    }
}

/// The digits of the label with a number to which an instruction goes, ahead of it or before it.
pub(crate) fn reference_in<'a>(kind: &StatementKind<'a>, ahead: bool) -> Option<&'a [u8]> {
    match kind {
        StatementKind::With(_, expression) => digits_in(expression, ahead),
        _ => None,
    }
}

fn digits_in<'a>(expression: &Expr<'a>, ahead: bool) -> Option<&'a [u8]> {
    match expression {
        Expr::Reference(reference) if reference.is_forward() == ahead => Some(reference.digits()),
        _ => None,
    }
}

fn name_of<'a>(expression: &Expr<'a>) -> Option<&'a [u8]> {
    match expression {
        Expr::Name(name) => Some(*name),
        _ => None,
    }
}

/// The register that a statement writes; of a call of a function that of the way back.
pub(crate) fn written_by(kind: &StatementKind<'_>) -> Option<Reg> {
    match kind {
        StatementKind::Plain(plain) => written_by_plain(*plain),
        StatementKind::With(operation, _) => written_by_operation(*operation),
        StatementKind::WithFunction(operation, _, _) => written_by_operation(*operation),
        _ => None,
    }
}

fn written_by_plain(plain: Plain) -> Option<Reg> {
    match plain {
        Plain::Registers(_, rd, _, _) => Some(rd),
        Plain::Load(_, rd, _) => Some(rd),
        Plain::Jalr(rd, _) => Some(rd),
        Plain::JalrLinked(_) => Some(Reg::RA),
        Plain::LoadReserved(_, rd, _) => Some(rd),
        Plain::Atomic(_, _, rd, _, _) => Some(rd),
        Plain::Unary(_, rd, _) => Some(rd),
        Plain::Compare(_, rd, _, _) => Some(rd),
        Plain::Parcel(operation, first, _) => written_by_parcel(operation, first),
        _ => None,
    }
}

fn written_by_operation(operation: Operation) -> Option<Reg> {
    match operation {
        Operation::Registers(_, rd, _) => Some(rd),
        Operation::Immediate(_, rd, _) => Some(rd),
        Operation::Shift(_, rd, _) => Some(rd),
        Operation::Upper(_, rd) => Some(rd),
        Operation::Load(_, rd, _) => Some(rd),
        Operation::Jalr(rd, _) | Operation::JalrThen(rd, _) | Operation::Jal(rd) => Some(rd),
        Operation::JalrLinked(_) | Operation::JalLinked | Operation::CallLinked => Some(Reg::RA),
        Operation::LoadSymbol(_, rd) => Some(rd),
        Operation::StoreSymbol(_, _, scratch) => Some(scratch),
        Operation::La(rd) | Operation::Li(rd) | Operation::Call(rd) | Operation::Jump(rd) => {
            Some(rd)
        }
        Operation::Tail => Some(Reg::T1),
        Operation::Parcel(operation, first, _) => written_by_parcel(operation, first),
        _ => None,
    }
}

fn written_by_parcel(operation: ParcelOperation, first: Reg) -> Option<Reg> {
    match operation {
        ParcelOperation::Jalr => Some(Reg::RA),
        ParcelOperation::Sw
        | ParcelOperation::Sd
        | ParcelOperation::Swsp
        | ParcelOperation::Sdsp
        | ParcelOperation::Nop
        | ParcelOperation::J
        | ParcelOperation::Jr
        | ParcelOperation::Beqz
        | ParcelOperation::Bnez
        | ParcelOperation::Ebreak => None,
        _ => Some(first),
    }
}

/// The register whose value a statement keeps elsewhere: it stores it, or moves it to another.
pub(crate) fn kept_by(kind: &StatementKind<'_>) -> Option<Reg> {
    match kind {
        StatementKind::Plain(plain) => kept_by_plain(*plain),
        _ => kept_by_operation(operation_of(kind)?),
    }
}

fn kept_by_plain(plain: Plain) -> Option<Reg> {
    match plain {
        Plain::Store(_, from, _) => Some(from),
        Plain::Atomic(operation, _, _, from, _) => kept_by_atomic(operation, from),
        Plain::Unary(operation, _, from) => kept_by_unary(operation, from),
        Plain::Parcel(operation, first, second) => kept_by_parcel(operation, first, second),
        _ => None,
    }
}

fn kept_by_atomic(operation: AtomicOperation, from: Reg) -> Option<Reg> {
    match operation {
        AtomicOperation::Amoswap => Some(from),
        _ => None,
    }
}

fn kept_by_unary(operation: UnaryOperation, from: Reg) -> Option<Reg> {
    match operation {
        UnaryOperation::Mv => Some(from),
        _ => None,
    }
}

fn kept_by_operation(operation: Operation) -> Option<Reg> {
    match operation {
        Operation::Store(_, from, _) => Some(from),
        Operation::StoreSymbol(_, from, _) => Some(from),
        Operation::Immediate(_, _, from) => Some(from),
        Operation::Parcel(operation, first, second) => kept_by_parcel(operation, first, second),
        _ => None,
    }
}

fn kept_by_parcel(operation: ParcelOperation, first: Reg, second: Reg) -> Option<Reg> {
    match operation {
        ParcelOperation::Sw | ParcelOperation::Sd | ParcelOperation::Swsp | ParcelOperation::Sdsp =>
            Some(first),
        ParcelOperation::Mv => Some(second),
        _ => None,
    }
}

/// Whether a statement is a load.
pub(crate) fn is_load(kind: &StatementKind<'_>) -> bool {
    match kind {
        StatementKind::Plain(plain) => is_plain_load(*plain),
        _ => match operation_of(kind) {
            Some(operation) => is_load_of(operation),
            None => false,
        },
    }
}

fn is_plain_load(plain: Plain) -> bool {
    match plain {
        Plain::Load(..) => true,
        Plain::Parcel(operation, _, _) => is_load_by_parcel(operation),
        _ => false,
    }
}

fn is_load_of(operation: Operation) -> bool {
    match operation {
        Operation::Load(..) | Operation::LoadSymbol(..) => true,
        Operation::Parcel(operation, _, _) => is_load_by_parcel(operation),
        _ => false,
    }
}

fn is_load_by_parcel(operation: ParcelOperation) -> bool {
    matches!(
        operation,
        ParcelOperation::Lw | ParcelOperation::Ld | ParcelOperation::Lwsp | ParcelOperation::Ldsp
    )
}
