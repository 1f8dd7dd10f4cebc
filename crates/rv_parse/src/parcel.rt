//! The operands of the mnemonics of parcels, up to the statement's end.

ghost use Rattle.std.specs.Prelude.{◌≡◌, ◌∷◌};
ghost use Rattle.rv_parcel.specs.Mnemonics.{register_sets, shape_of};
ghost use Rattle.rv_parcel.specs.declared.parcel.OperandShape.TheVariants.{Registers, Number, Address, Target};
ghost use Rattle.rv_statement_laws.specs.declared.mnemonic.Mnemonic.TheVariants.{Parcel};
ghost use Rattle.rv_statement_laws.specs.Statement.{Instruction, Register};
ghost use Rattle.rv_statement.specs.View.{parcel_registers, statement_kind};
ghost use Rattle.rv_lexer.specs.Cursor.{remaining, Answers};
ghost use Rattle.rv_parse_laws.specs.Syntax.{An_address_by, last, registers_alone};
ghost use Rattle.rv_parse_laws.specs.Parsing.{operands_at, seen_as};
ghost use Rattle.rv_parse.specs.Left.{Gives, GivesInstruction, ReadsInstruction};
ghost use Rattle.rv_parse.specs.Slots.{sets_in, own, leading_at, leading_of};

use crate::operands::{self, given, with};
use crate::{slot, value};
use rv_expression::{Cursor, ReadError, SyntaxError};
use rv_isa::Reg;
use rv_parcel::{OperandShape, ParcelOperation, RegisterSet};
use rv_parse_words::Role;
use rv_parse_words::fault::Slot;
use rv_statement::{Operation, Plain, StatementKind};
use std::alloc::Global;

/// A register of the set and a comma; x0 where there is no set.
fn leading(cursor: &mut Cursor<'_>, set: Option<RegisterSet>) -> Result<Reg, SyntaxError>
    ensures { Gives (λ r. (own set r, remaining cursor.new)) result
        (leading_at set (remaining cursor.old)) }
{
    match set {
        Some(set) => {
            let register = slot::register_of(cursor, set)?;
            slot::comma(cursor, Slot::Register(set))?;
            Ok(register)
        }
        None => Ok(Reg::ZERO),
    }
}

/// The last register, of the set, and the end; x0 where there is no set.
#[tactic(auto, unfolding(rv_parse_laws::specs::Parsing::operands_at))]
fn last(cursor: &mut Cursor<'_>, set: Option<RegisterSet>) -> Result<Reg, SyntaxError>
    ensures { Gives (λ r. (own set r, remaining cursor.new)) result
        (operands_at (registers_alone (sets_in set)) (remaining cursor.old)) }
{
    match set {
        Some(set) => {
            let register = slot::register_of(cursor, set)?;
            slot::end(cursor, Slot::Register(set))?;
            Ok(register)
        }
        None => {
            operands::none(cursor)?;
            Ok(Reg::ZERO)
        }
    }
}

/// The registers of a mnemonic, each with a comma behind it.
fn registers_before(
    cursor: &mut Cursor<'_>,
    operation: ParcelOperation,
) -> Result<(Reg, Reg), SyntaxError>
    ensures { Gives (λ r. (parcel_registers operation r.0 r.1, remaining cursor.new)) result
        (leading_of (register_sets operation) (remaining cursor.old)) }
{
    let first = leading(cursor, operation.first())?;
    let second = leading(cursor, operation.second())?;
    Ok((first, second))
}

/// The registers of a mnemonic, with commas between, up to the end.
fn registers_alone(
    cursor: &mut Cursor<'_>,
    operation: ParcelOperation,
) -> Result<(Reg, Reg), SyntaxError>
    ensures { Gives (λ r. (parcel_registers operation r.0 r.1, remaining cursor.new)) result
        (operands_at (registers_alone (register_sets operation)) (remaining cursor.old)) }
{
    match operation.second() {
        Some(set) => {
            let first = leading(cursor, operation.first())?;
            let second = last(cursor, Some(set))?;
            Ok((first, second))
        }
        None => {
            let only = last(cursor, operation.first())?;
            Ok((only, Reg::ZERO))
        }
    }
}

/// Registers alone: `rd, rs2`, `rs1`, or nothing.
fn registers<'a>(
    cursor: &mut Cursor<'a>,
    operation: ParcelOperation,
) -> Result<StatementKind<'a>, SyntaxError>
    requires { shape_of operation ≡ Registers }
    ensures { GivesInstruction (Parcel operation) cursor.old cursor.new result }
{
    let (first, second) = registers_alone(cursor, operation)?;
    Ok(StatementKind::Plain(Plain::Parcel(operation, first, second)))
}

/// A number after the registers: `rd, number`.
fn number<'a>(
    alloc: Global,
    cursor: &mut Cursor<'a>,
    operation: ParcelOperation,
) -> Result<StatementKind<'a>, ReadError>
    requires { shape_of operation ≡ Number }
    ensures { ReadsInstruction (Parcel operation) cursor.old cursor.new result }
{
    let (first, second) = registers_before(cursor, operation)?;
    let number = operands::one_argument(alloc, cursor, Role::Operand)?;
    Ok(given(Operation::Parcel(operation, first, second), number))
}

/// An address, after a register and a comma: `offset(rs1)` or `(rs1)`.
#[tactic(auto, using(crate::proofs::ParcelsLemmas::two_registers), unfolding(rv_parse_laws::specs::Parsing::operands_at))]
fn address<'a>(
    alloc: Global,
    cursor: &mut Cursor<'a>,
    operation: ParcelOperation,
    first: Reg,
    set: RegisterSet,
) -> Result<StatementKind<'a>, ReadError>
    requires { shape_of operation ≡ Address }
    ensures { Answers (λ k. (statement_kind k, remaining cursor.new)) result
        (seen_as (λ os. Instruction (Parcel operation) (Register first ∷ os))
        (operands_at (last (An_address_by set)) (remaining cursor.old))) }
{
    if slot::begins_base(cursor) {
        let base = slot::base(cursor, set)?;
        slot::end(cursor, Slot::Address(set))?;
        return Ok(StatementKind::Plain(Plain::Parcel(operation, first, base)));
    }
    let offset = value::value_or_function(alloc, cursor, Role::Operand)?;
    let base = slot::base(cursor, set)?;
    slot::end(cursor, Slot::Address(set))?;
    Ok(given(Operation::Parcel(operation, first, base), offset))
}

/// A register and an address by another: `rd, offset(rs1)` or `rd, (rs1)`. A mnemonic with an address has both.
fn access<'a>(
    alloc: Global,
    cursor: &mut Cursor<'a>,
    operation: ParcelOperation,
) -> Result<StatementKind<'a>, ReadError>
    requires { shape_of operation ≡ Address }
    ensures { ReadsInstruction (Parcel operation) cursor.old cursor.new result }
{
    let set = operation.second().unwrap();
    let first = leading(cursor, operation.first())?;
    address(alloc, cursor, operation, first, set)
}

/// A target after the registers: `rs1, target` or `target`.
fn target<'a>(
    alloc: Global,
    cursor: &mut Cursor<'a>,
    operation: ParcelOperation,
) -> Result<StatementKind<'a>, ReadError>
    requires { shape_of operation ≡ Target }
    ensures { ReadsInstruction (Parcel operation) cursor.old cursor.new result }
{
    let (first, second) = registers_before(cursor, operation)?;
    let target = operands::one_value(alloc, cursor, Role::Target)?;
    Ok(with(Operation::Parcel(operation, first, second), target))
}

/// The operands of a parcel's mnemonic.
pub fn parcel<'a>(
    alloc: Global,
    cursor: &mut Cursor<'a>,
    operation: ParcelOperation,
) -> Result<StatementKind<'a>, ReadError>
    ensures { ReadsInstruction (Parcel operation) cursor.old cursor.new result }
{
    match operation.shape() {
        OperandShape::Registers => Ok(registers(cursor, operation)?),
        OperandShape::Number => number(alloc, cursor, operation),
        OperandShape::Address => access(alloc, cursor, operation),
        OperandShape::Target => target(alloc, cursor, operation),
    }
}
