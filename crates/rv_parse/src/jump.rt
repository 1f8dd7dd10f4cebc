//! The operands of jumps and calls, up to the statement's end.

ghost use Rattle.std.specs.Prelude.{◌∷◌};
ghost use Rattle.rv_statement_laws.specs.declared.mnemonic.Mnemonic.TheVariants.{Jal, Jalr, Jr, Call, Jump};
ghost use Rattle.rv_statement_laws.specs.Statement.{Instruction, Register};
ghost use Rattle.rv_statement.specs.View.{statement_kind};
ghost use Rattle.rv_parse_laws.specs.Syntax.{jump_target};
ghost use Rattle.rv_parse_laws.specs.Parsing.{operands_at, seen_as};
ghost use Rattle.rv_lexer.specs.Cursor.{remaining, Answers};
ghost use Rattle.rv_parse.specs.Left.{ReadsInstruction};

use crate::operands::{self, given, with};
use crate::{slot, value};
use rv_expression::{Cursor, ReadError};
use rv_isa::Reg;
use rv_parcel::RegisterSet;
use rv_parse_words::Role;
use rv_parse_words::fault::Slot;
use rv_statement::{Operation, Plain, StatementKind};
use std::alloc::Global;

/// The operands of `jal`: a target, or a link register and a target.
#[tactic(auto, unfolding(rv_parse_laws::specs::Parsing::operands_at))]
pub fn jal<'a>(alloc: Global, cursor: &mut Cursor<'a>) -> Result<StatementKind<'a>, ReadError>
    ensures { ReadsInstruction Jal cursor.old cursor.new result }
{
    if slot::begins_register(cursor) {
        let (rd, target) = operands::register_and_value(alloc, cursor, Role::Target)?;
        return Ok(with(Operation::Jal(rd), target));
    }
    let target = operands::one_value(alloc, cursor, Role::Target)?;
    Ok(with(Operation::JalLinked, target))
}

/// The operands of `call`: a target, or a link register and a target.
#[tactic(auto, unfolding(rv_parse_laws::specs::Parsing::operands_at))]
pub fn call<'a>(alloc: Global, cursor: &mut Cursor<'a>) -> Result<StatementKind<'a>, ReadError>
    ensures { ReadsInstruction Call cursor.old cursor.new result }
{
    if slot::begins_register(cursor) {
        let rd = slot::register(cursor)?;
        slot::comma(cursor, Slot::ANY_REGISTER)?;
        let target = value::callee(alloc, cursor)?;
        slot::end(cursor, Slot::Callee)?;
        return Ok(with(Operation::Call(rd), target));
    }
    let target = value::callee(alloc, cursor)?;
    slot::end(cursor, Slot::Callee)?;
    Ok(with(Operation::CallLinked, target))
}

/// The operands of `jump`: a target and a register.
#[tactic(auto, unfolding(rv_parse_laws::specs::Parsing::operands_at))]
pub fn jump<'a>(alloc: Global, cursor: &mut Cursor<'a>) -> Result<StatementKind<'a>, ReadError>
    ensures { ReadsInstruction Jump cursor.old cursor.new result }
{
    let target = value::value(alloc, cursor, Role::Target)?;
    slot::comma(cursor, Slot::Value(Role::Target))?;
    let rt = slot::register(cursor)?;
    slot::end(cursor, Slot::ANY_REGISTER)?;
    Ok(with(Operation::Jump(rt), target))
}

/// The operands of `jr`: a register, or an address.
#[tactic(auto, unfolding(rv_parse_laws::specs::Parsing::operands_at))]
pub fn jr<'a>(alloc: Global, cursor: &mut Cursor<'a>) -> Result<StatementKind<'a>, ReadError>
    ensures { ReadsInstruction Jr cursor.old cursor.new result }
{
    if slot::begins_register(cursor) {
        let rs = slot::register(cursor)?;
        slot::end(cursor, Slot::ANY_REGISTER)?;
        return Ok(StatementKind::Plain(Plain::Jr(rs)));
    }
    if slot::begins_base(cursor) {
        let rs = slot::base(cursor, RegisterSet::Any)?;
        slot::end(cursor, Slot::ANY_ADDRESS)?;
        return Ok(StatementKind::Plain(Plain::Jr(rs)));
    }
    let offset = value::value_or_function(alloc, cursor, Role::Operand)?;
    let rs = slot::base(cursor, RegisterSet::Any)?;
    slot::end(cursor, Slot::ANY_ADDRESS)?;
    Ok(given(Operation::Jr(rs), offset))
}

/// The operands of `jalr`: an address, or the link register and its target.
#[tactic(auto, unfolding(rv_parse_laws::specs::Parsing::operands_at))]
pub fn jalr<'a>(alloc: Global, cursor: &mut Cursor<'a>) -> Result<StatementKind<'a>, ReadError>
    ensures { ReadsInstruction Jalr cursor.old cursor.new result }
{
    if !slot::begins_register(cursor) {
        if slot::begins_base(cursor) {
            let rs1 = slot::base(cursor, RegisterSet::Any)?;
            slot::end(cursor, Slot::ANY_ADDRESS)?;
            return Ok(StatementKind::Plain(Plain::JalrLinked(rs1)));
        }
        let offset = value::value_or_function(alloc, cursor, Role::Operand)?;
        let rs1 = slot::base(cursor, RegisterSet::Any)?;
        slot::end(cursor, Slot::ANY_ADDRESS)?;
        return Ok(given(Operation::JalrLinked(rs1), offset));
    }
    let first = slot::register(cursor)?;
    if slot::begins_comma(cursor) {
        slot::comma(cursor, Slot::ANY_REGISTER)?;
        return jump_target(alloc, cursor, first);
    }
    slot::end(cursor, Slot::ANY_REGISTER)?;
    Ok(StatementKind::Plain(Plain::JalrLinked(first)))
}

/// The target of a `jalr` after its link register and the comma.
#[tactic(auto, unfolding(rv_parse_laws::specs::Parsing::operands_at))]
fn jump_target<'a>(
    alloc: Global,
    cursor: &mut Cursor<'a>,
    rd: Reg,
) -> Result<StatementKind<'a>, ReadError>
    ensures { Answers (λ k. (statement_kind k, remaining cursor.new)) result
        (seen_as (Instruction Jalr)
        (seen_as (λ os. Register rd ∷ os)
        (seen_as (λ os. os) (operands_at jump_target (remaining cursor.old))))) }
{
    if !slot::begins_register(cursor) {
        if slot::begins_base(cursor) {
            let rs1 = slot::base(cursor, RegisterSet::Any)?;
            slot::end(cursor, Slot::ANY_ADDRESS)?;
            return Ok(StatementKind::Plain(Plain::Jalr(rd, rs1)));
        }
        let offset = value::value_or_function(alloc, cursor, Role::Operand)?;
        let rs1 = slot::base(cursor, RegisterSet::Any)?;
        slot::end(cursor, Slot::ANY_ADDRESS)?;
        return Ok(given(Operation::Jalr(rd, rs1), offset));
    }
    let rs1 = slot::register(cursor)?;
    if slot::begins_comma(cursor) {
        slot::comma(cursor, Slot::ANY_REGISTER)?;
        let value = value::value_or_function(alloc, cursor, Role::Operand)?;
        slot::end(cursor, Slot::Value(Role::Operand))?;
        return Ok(given(Operation::JalrThen(rd, rs1), value));
    }
    slot::end(cursor, Slot::ANY_REGISTER)?;
    Ok(StatementKind::Plain(Plain::Jalr(rd, rs1)))
}
