//! The operands of instructions, up to the statement's end.

ghost use Rattle.std.specs.Prelude.{◌≡◌, false};
ghost use Rattle.rv_statement_laws.specs.declared.mnemonic.Mnemonic.TheVariants.{Registers};
ghost use Rattle.rv_parse_laws.specs.Syntax.{upper_role, targets};
ghost use Rattle.rv_parse_laws.specs.Parsing.{operands_at};
ghost use Rattle.rv_parse.specs.Left.{ReadsInstruction};

use crate::operands::{self, given, with};
use crate::parcel::parcel;
use crate::{access, jump, slot};
use rv_expression::{Cursor, ReadError};
use rv_isa::{RegisterOperation, UpperOperation};
use rv_parse_words::Role;
use rv_parse_words::fault::Slot;
use rv_parse_words::words::has_constant;
use rv_statement::{Operation, Plain, StatementKind};
use rv_statement_laws::Mnemonic;
use std::alloc::Global;

/// `rd, rs1, rs2`, or a constant in place of `rs2`.
#[tactic(auto, unfolding(rv_parse_laws::specs::Parsing::operands_at))]
fn registers<'a>(
    alloc: Global,
    cursor: &mut Cursor<'a>,
    operation: RegisterOperation,
) -> Result<StatementKind<'a>, ReadError>
    ensures { ReadsInstruction (Registers operation) cursor.old cursor.new result }
{
    let rd = slot::register(cursor)?;
    slot::comma(cursor, Slot::ANY_REGISTER)?;
    let rs1 = slot::register(cursor)?;
    slot::comma(cursor, Slot::ANY_REGISTER)?;
    if has_constant(operation) && !slot::begins_register(cursor) {
        let value = operands::one_argument(alloc, cursor, Role::Source)?;
        return Ok(given(Operation::Registers(operation, rd, rs1), value));
    }
    let rs2 = operands::last_register(cursor)?;
    Ok(StatementKind::Plain(Plain::Registers(operation, rd, rs1, rs2)))
}

/// Where the operand of `lui` or of `auipc` stands.
fn upper_role(operation: UpperOperation) -> Role
    ensures role { result ≡ upper_role operation }
    ensures value { targets result ≡ false }
{
    match operation {
        UpperOperation::Lui => Role::Upper,
        UpperOperation::Auipc => Role::PcrelUpper,
    }
}

/// The operands of a mnemonic, up to the statement's end.
pub fn instruction<'a>(
    alloc: Global,
    cursor: &mut Cursor<'a>,
    mnemonic: Mnemonic,
) -> Result<StatementKind<'a>, ReadError>
    ensures { ReadsInstruction mnemonic cursor.old cursor.new result }
{
    match mnemonic {
        Mnemonic::Registers(operation) => registers(alloc, cursor, operation),
        Mnemonic::Immediate(operation) => {
            let (rd, rs1, value) = operands::registers_and_argument(alloc, cursor, Role::Operand)?;
            Ok(given(Operation::Immediate(operation, rd, rs1), value))
        }
        Mnemonic::Shift(operation) => {
            let (rd, rs1, amount) = operands::registers_and_argument(alloc, cursor, Role::Operand)?;
            Ok(given(Operation::Shift(operation, rd, rs1), amount))
        }
        Mnemonic::Upper(operation) => {
            let role = upper_role(operation);
            let (rd, value) = operands::register_and_argument(alloc, cursor, role)?;
            Ok(given(Operation::Upper(operation, rd), value))
        }
        Mnemonic::Load(operation) => access::load(alloc, cursor, operation),
        Mnemonic::Store(operation) => access::store(alloc, cursor, operation),
        Mnemonic::Branch(operation) => {
            let (rs1, rs2, target) = operands::registers_and_value(alloc, cursor, Role::Target)?;
            Ok(with(Operation::Branch(operation, rs1, rs2), target))
        }
        Mnemonic::Jal => jump::jal(alloc, cursor),
        Mnemonic::Jalr => jump::jalr(alloc, cursor),
        Mnemonic::LoadReserved(form) => Ok(access::load_reserved(cursor, form)?),
        Mnemonic::Atomic(operation, form) => Ok(access::atomic(cursor, operation, form)?),
        Mnemonic::Fence => Ok(access::fence(cursor)?),
        Mnemonic::FenceTso => {
            operands::none(cursor)?;
            Ok(StatementKind::Plain(Plain::FenceTso))
        }
        Mnemonic::Ecall => {
            operands::none(cursor)?;
            Ok(StatementKind::Plain(Plain::Ecall))
        }
        Mnemonic::Ebreak => {
            operands::none(cursor)?;
            Ok(StatementKind::Plain(Plain::Ebreak))
        }
        Mnemonic::Nop => {
            operands::none(cursor)?;
            Ok(StatementKind::Plain(Plain::Nop))
        }
        Mnemonic::Unary(operation) => {
            let (rd, rs) = operands::two_registers(cursor)?;
            Ok(StatementKind::Plain(Plain::Unary(operation, rd, rs)))
        }
        Mnemonic::Compare(operation) => {
            let (rd, rs1, rs2) = operands::three_registers(cursor)?;
            Ok(StatementKind::Plain(Plain::Compare(operation, rd, rs1, rs2)))
        }
        Mnemonic::ZeroBranch(operation) => {
            let (rs, target) = operands::register_and_value(alloc, cursor, Role::Target)?;
            Ok(with(Operation::ZeroBranch(operation, rs), target))
        }
        Mnemonic::SwappedBranch(operation) => {
            let (rs1, rs2, target) = operands::registers_and_value(alloc, cursor, Role::Target)?;
            Ok(with(Operation::SwappedBranch(operation, rs1, rs2), target))
        }
        Mnemonic::J => {
            let target = operands::one_value(alloc, cursor, Role::Target)?;
            Ok(with(Operation::J, target))
        }
        Mnemonic::Jr => jump::jr(alloc, cursor),
        Mnemonic::Ret => {
            operands::none(cursor)?;
            Ok(StatementKind::Plain(Plain::Ret))
        }
        Mnemonic::La => {
            let (rd, target) = operands::register_and_value(alloc, cursor, Role::Target)?;
            Ok(with(Operation::La(rd), target))
        }
        Mnemonic::Li => {
            let (rd, value) = operands::register_and_argument(alloc, cursor, Role::Operand)?;
            Ok(given(Operation::Li(rd), value))
        }
        Mnemonic::Call => jump::call(alloc, cursor),
        Mnemonic::Tail => {
            let target = operands::one_value(alloc, cursor, Role::Target)?;
            Ok(with(Operation::Tail, target))
        }
        Mnemonic::Jump => jump::jump(alloc, cursor),
        Mnemonic::Parcel(operation) => parcel(alloc, cursor, operation),
    }
}
