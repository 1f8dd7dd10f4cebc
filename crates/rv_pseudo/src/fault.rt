//! The faults of a statement of code, by what its expression is worth.
//!
//! A statement with several faults has the lowest of their codes. So each function answers at most one code, and where
//! two faults can meet (`beside_scratch`) it takes the lower.

ghost use Rattle.std.specs.Prelude.{◌≡◌, ◌==◌, ℕ, not, List, ◌++◌};
ghost use Rattle.rv_expression_laws.specs.Codes as codes;
ghost use Rattle.rv_expression_laws.specs.Codes.{scratch_register};
ghost use Rattle.rv_fault.specs.SourceFault.{source_fault_number, IsLowest};
ghost use Rattle.rv_parse_laws.specs.Syntax as syntax;
ghost use Rattle.rv_pseudo_laws.specs.InstructionFaults as table;
ghost use Rattle.rv_pseudo_laws.specs.Valid as range;
ghost use Rattle.rv_pseudo.specs.Faults as is;

use crate::bare::is_x0;
use crate::li::is_short;
use crate::number::{lower_part, upper_part};
use crate::target::takes_target;
use crate::template::Worth;
use rv_fault::SourceCode;
use rv_isa::{Reg, RegisterOperation, ShiftOperation};
use rv_parcel::{OperandShape, ParcelOperation};
use rv_statement::Operation;
use rv_statement_laws::Function;

// ---- ranges

/// Whether a shift can have this amount.
fn is_amount(operation: ShiftOperation, number: i64) -> bool
    ensures { result ≡ range.is_amount operation number }
{
    0 <= number && number < i64::from(operation.limit())
}

/// Whether a number has 20 bits.
fn is_upper_20(number: i64) -> bool
    ensures { result ≡ range.is_upper_20 number }
{
    0 <= number && number < 1 << 20
}

/// Whether a number is in the range of the form with a constant of an operation on registers.
fn form_takes(operation: RegisterOperation, number: i64) -> bool
    ensures { result ≡ range.form_takes (syntax.with_constant operation) number }
{
    match operation {
        RegisterOperation::Add
        | RegisterOperation::Slt
        | RegisterOperation::Sltu
        | RegisterOperation::Xor
        | RegisterOperation::Or
        | RegisterOperation::And
        | RegisterOperation::Addw => is_short(number),
        RegisterOperation::Sll => is_amount(ShiftOperation::Slli, number),
        RegisterOperation::Srl => is_amount(ShiftOperation::Srli, number),
        RegisterOperation::Sra => is_amount(ShiftOperation::Srai, number),
        RegisterOperation::Sllw => is_amount(ShiftOperation::Slliw, number),
        RegisterOperation::Srlw => is_amount(ShiftOperation::Srliw, number),
        RegisterOperation::Sraw => is_amount(ShiftOperation::Sraiw, number),
        _ => false,
    }
}

/// Whether a number is in the range of an operation's.
fn takes(operation: Operation, number: i64) -> bool
    ensures { result ≡ range.takes (is.mnemonic_of operation) number }
{
    match operation {
        Operation::Registers(operation, _, _) => form_takes(operation, number),
        Operation::Shift(operation, _, _) => is_amount(operation, number),
        Operation::Upper(_, _) => is_upper_20(number),
        Operation::Li(_) => true,
        Operation::Parcel(operation, ..) => operation.takes(number),
        _ => is_short(number),
    }
}

// ---- fields

/// Whether an operation on registers has a form with an amount in place of the last.
fn has_amount(operation: RegisterOperation) -> bool
    ensures { result ≡ not (table.is_signed_12 (syntax.with_constant operation)) }
{
    matches!(
        operation,
        RegisterOperation::Sll
            | RegisterOperation::Srl
            | RegisterOperation::Sra
            | RegisterOperation::Sllw
            | RegisterOperation::Srlw
            | RegisterOperation::Sraw
    )
}

/// Whether an operation's number may be the low part of an address.
fn takes_address(operation: Operation) -> bool
    ensures { result ≡ table.takes_address (is.mnemonic_of operation) }
{
    match operation {
        Operation::Registers(operation, ..) => !has_amount(operation),
        Operation::Shift(..) | Operation::Li(_) | Operation::Parcel(..) => false,
        _ => true,
    }
}

/// Whether an operation on registers has a form with a constant.
fn has_constant(operation: RegisterOperation) -> bool
    ensures { result ≡ is.is_constant_form (syntax.with_constant operation) }
{
    match operation {
        RegisterOperation::Add
        | RegisterOperation::Slt
        | RegisterOperation::Sltu
        | RegisterOperation::Xor
        | RegisterOperation::Or
        | RegisterOperation::And
        | RegisterOperation::Addw => true,
        _ => has_amount(operation),
    }
}

/// Whether the field takes the upper part of a value.
fn is_upper(operation: Operation) -> bool
    ensures { result ≡ is.is_upper operation }
{
    matches!(operation, Operation::Upper(..))
}

/// Whether a parcel takes these registers, and a number beside them.
fn takes_number_beside(operation: ParcelOperation, a: Reg, b: Reg) -> bool
    ensures { result ≡ is.takes_number_beside operation a b }
{
    matches!(
        operation.shape(),
        OperandShape::Number | OperandShape::Address
    ) && operation.takes_registers(a, b)
}

/// Whether a parcel takes these registers, and an operand beside them.
fn takes_operand(operation: ParcelOperation, a: Reg, b: Reg) -> bool
    ensures { result ≡ is.takes_operand operation a b }
{
    match operation.shape() {
        OperandShape::Registers => false,
        OperandShape::Number | OperandShape::Address | OperandShape::Target => {
            operation.takes_registers(a, b)
        }
    }
}

/// Whether the field takes the low part of a value.
fn is_lower(operation: Operation) -> bool
    ensures { result ≡ is.is_lower operation }
{
    match operation {
        Operation::Registers(operation, _, _) => has_constant(operation),
        Operation::Immediate(..)
        | Operation::Shift(..)
        | Operation::Load(..)
        | Operation::Store(..)
        | Operation::StoreSymbol(..)
        | Operation::Jalr(..)
        | Operation::JalrThen(..)
        | Operation::JalrLinked(_)
        | Operation::Jr(_)
        | Operation::Li(_) => true,
        Operation::Parcel(operation, a, b) => takes_number_beside(operation, a, b),
        _ => false,
    }
}

/// Whether an operation takes an expression.
fn is_written(operation: Operation) -> bool
    ensures { result ≡ is.is_written operation }
{
    match operation {
        Operation::Parcel(operation, a, b) => takes_operand(operation, a, b),
        _ => true,
    }
}

/// Whether there is a row for an operand without faults.
pub(crate) fn is_placed(operation: &Operation, function: Option<Function>) -> bool
    ensures { result ≡ is.is_placed operation.now function }
{
    match function {
        None => is_written(*operation),
        Some(Function::Hi) => is_upper(*operation),
        Some(Function::Lo) => is_lower(*operation),
        Some(Function::PcrelHi) => is_upper(*operation),
        Some(Function::PcrelLo) => is_lower(*operation),
    }
}

// ---- scratch registers

/// Whether two registers are one.
fn is_same(a: Reg, b: Reg) -> bool
    ensures { result ≡ (a == b) }
{
    a.number() == b.number()
}

/// Whether a register on the way to a symbol cannot be used: x0 holds no address, and a store still needs its own.
fn is_bad_scratch(operation: Operation) -> bool
    ensures { result ≡ is.is_bad_scratch operation }
{
    match operation {
        Operation::LoadSymbol(_, rd) => is_x0(rd),
        Operation::StoreSymbol(_, rs2, rt) => is_x0(rt) || is_same(rt, rs2),
        Operation::Call(rd) => is_x0(rd),
        Operation::Jump(rt) => is_x0(rt),
        _ => false,
    }
}

/// The fault of a statement that also has that of a scratch register, if it has: the lower one.
#[tactic(auto, using(crate::proofs::LowestLemmas::first_lowest))]
fn beside_scratch(is_bad: bool, fault: Option<SourceCode>) -> Option<SourceCode>
    ensures { (cs : List ℕ) → IsLowest fault cs
        → IsLowest result (codes.faulty_if is_bad scratch_register ++ cs) }
{
    if !is_bad {
        return fault;
    }
    match fault {
        Some(code) => Some(if code.number() < 10 {
            code
        } else {
            SourceCode::ScratchRegister
        }),
        None => Some(SourceCode::ScratchRegister),
    }
}

// ---- by what an expression is worth

/// The code, where it is a fault.
fn faulty_if(test: bool, code: SourceCode) -> Option<SourceCode>
    ensures { IsLowest result (codes.faulty_if test (source_fault_number code)) }
{
    if test { Some(code) } else { None }
}

/// The fault of a number that has to be a constant in its range.
fn number_fault(operation: Operation, worth: Worth) -> Option<SourceCode>
    ensures { IsLowest result (table.number_faults (is.mnemonic_of operation) (is.worth_of worth)) }
{
    match worth {
        Worth::Number(number) => {
            faulty_if(!takes(operation, number), SourceCode::ImmediateRange)
        }
        Worth::Address(_) => Some(SourceCode::NotConstant),
        Worth::Wrong(code) => Some(code),
    }
}

/// The fault of a target.
fn target_fault(worth: Worth) -> Option<SourceCode>
    ensures { IsLowest result (table.target_faults (is.worth_of worth)) }
{
    match worth {
        Worth::Number(_) => Some(SourceCode::ImmediateRange),
        Worth::Address(_) => None,
        Worth::Wrong(code) => Some(code),
    }
}

/// The fault of what has its upper part taken.
fn upper_fault(worth: Worth) -> Option<SourceCode>
    ensures { IsLowest result (table.upper_faults (is.worth_of worth)) }
{
    match worth {
        Worth::Number(number) => {
            faulty_if(!is_upper_20(upper_part(number)), SourceCode::ImmediateRange)
        }
        Worth::Address(_) => None,
        Worth::Wrong(code) => Some(code),
    }
}

/// The fault of what has its low part taken, as an operation's number.
fn low_fault(operation: Operation, worth: Worth) -> Option<SourceCode>
    ensures { IsLowest result (table.low_faults (is.mnemonic_of operation) (is.worth_of worth)) }
{
    match worth {
        Worth::Number(number) => faulty_if(
            !takes(operation, lower_part(number)),
            SourceCode::ImmediateRange,
        ),
        Worth::Address(_) => faulty_if(!takes_address(operation), SourceCode::NotConstant),
        Worth::Wrong(code) => Some(code),
    }
}

/// Whether it is a label of the source.
fn is_labelled(worth: Worth) -> bool
    ensures { result ≡ table.is_labelled (is.worth_of worth) }
{
    match worth {
        Worth::Number(_) => false,
        Worth::Address(labelled) => labelled,
        Worth::Wrong(_) => false,
    }
}

/// The fault of what names where the upper part of a distance stands, whose low part is an operation's number.
fn distance_fault(operation: Operation, worth: Worth) -> Option<SourceCode>
    ensures { IsLowest result
        (table.distance_faults (is.mnemonic_of operation) (is.worth_of worth)) }
{
    if !is_labelled(worth) {
        return Some(SourceCode::UndefinedLocal);
    }
    faulty_if(!takes_address(operation), SourceCode::NotConstant)
}

// ---- operands

/// The fault of an operation with an expression.
fn value_fault(operation: Operation, worth: Worth) -> Option<SourceCode>
    ensures { IsLowest result (is.value_faults operation (is.worth_of worth)) }
{
    if takes_target(&operation) {
        beside_scratch(is_bad_scratch(operation), target_fault(worth))
    } else {
        number_fault(operation, worth)
    }
}

/// The fault of an operation with an operand, the one with the lowest number.
pub(crate) fn operand_fault(
    operation: &Operation,
    function: Option<Function>,
    worth: Worth,
) -> Option<SourceCode>
    ensures { IsLowest result (is.faults_of operation.now function (is.worth_of worth)) }
{
    match function {
        None => value_fault(*operation, worth),
        Some(Function::Hi) => upper_fault(worth),
        Some(Function::Lo) => low_fault(*operation, worth),
        Some(Function::PcrelHi) => target_fault(worth),
        Some(Function::PcrelLo) => distance_fault(*operation, worth),
    }
}
