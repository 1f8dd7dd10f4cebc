//! The operands of loads, stores, atomics and fences, up to the statement's end.

ghost use Rattle.std.specs.Prelude.{◌∷◌, []};
ghost use Rattle.rv_statement_laws.specs.declared.mnemonic.Mnemonic.TheVariants.{Load, Store, LoadReserved, Atomic, Fence};
ghost use Rattle.rv_statement_laws.specs.Statement.{Instruction, Register};
ghost use Rattle.rv_statement.specs.View.{statement_kind};
ghost use Rattle.rv_parse_laws.specs.Syntax.{A_register, A_target, A_comma, Stops, Takes, last, closed, atomic_address};
ghost use Rattle.rv_parse.specs.Slots.{location_at, placed_at};
ghost use Rattle.rv_parse.specs.View.{location_of};
ghost use Rattle.rv_parse_laws.specs.Parsing.{operands_at, seen_as};
ghost use Rattle.rv_lexer.specs.Cursor.{remaining, Answers};
ghost use Rattle.rv_parse.specs.Left.{Gives, GivesInstruction, ReadsInstruction};

use crate::operands::{given, with};
use crate::value::Argument;
use crate::{slot, value};
use rv_expression::{Cursor, Expr, ReadError, SourceCode, SyntaxError};
use rv_isa::{AtomicForm, AtomicOperation, LoadOperation, Reg, StoreOperation};
use rv_parcel::RegisterSet;
use rv_parse_words::Role;
use rv_parse_words::fault::Slot;
use rv_statement::{Operation, Plain, StatementKind};
use std::alloc::Global;

/// What a load reads and a store writes.
#[derive(Drop)]
pub enum Location<'a> {
    /// `(rs)`
    Register(Reg),
    /// `offset(rs)`
    Offset(Argument<'a>, Reg),
    /// A symbol in place of an address.
    Target(Expr<'a>),
}

/// The address that a register and what stands before its parentheses give, or a target.
#[tactic(auto, using(crate::proofs::LocatedLemmas::number_err, crate::proofs::LocatedLemmas::target_ok), unfolding(rv_lexer::specs::Cursor::remaining))]
fn located<'a>(alloc: Global, cursor: &mut Cursor<'a>) -> Result<Location<'a>, ReadError>
    ensures { Answers (λ l. (location_of l, remaining cursor.new)) result
        (location_at (remaining cursor.old)) }
{
    if slot::begins_base(cursor) {
        let rs = slot::base(cursor, RegisterSet::Any)?;
        return Ok(Location::Register(rs));
    }
    let first = cursor.next;
    let offset = value::value_or_function(alloc, cursor, Role::Operand)?;
    if !offset.is_target(cursor) {
        let rs = slot::base(cursor, RegisterSet::Any)?;
        return Ok(Location::Offset(offset, rs));
    }
    if offset.expression.is_number() {
        return Err(ReadError::At(SyntaxError::at(first, SourceCode::UnsupportedHere)));
    }
    Ok(Location::Target(offset.expression))
}

/// The operands of a load after its register: an address or a target.
#[tactic(auto, unfolding(rv_parse_laws::specs::Parsing::operands_at))]
fn loaded<'a>(
    alloc: Global,
    cursor: &mut Cursor<'a>,
    operation: LoadOperation,
    rd: Reg,
) -> Result<StatementKind<'a>, ReadError>
    ensures { Answers (λ k. (statement_kind k, remaining cursor.new)) result
        (seen_as (λ os. Instruction (Load operation) (Register rd ∷ os))
        (placed_at (Stops A_target) (remaining cursor.old))) }
{
    match located(alloc, cursor)? {
        Location::Register(rs1) => {
            slot::end(cursor, Slot::ANY_ADDRESS)?;
            Ok(StatementKind::Plain(Plain::Load(operation, rd, rs1)))
        }
        Location::Offset(offset, rs1) => {
            slot::end(cursor, Slot::ANY_ADDRESS)?;
            Ok(given(Operation::Load(operation, rd, rs1), offset))
        }
        Location::Target(target) => {
            slot::end(cursor, Slot::Value(Role::Target))?;
            Ok(with(Operation::LoadSymbol(operation, rd), target))
        }
    }
}

/// `rd, offset(rs1)` or `rd, target`
#[tactic(auto, unfolding(rv_parse_laws::specs::Parsing::operands_at))]
pub fn load<'a>(
    alloc: Global,
    cursor: &mut Cursor<'a>,
    operation: LoadOperation,
) -> Result<StatementKind<'a>, ReadError>
    ensures { ReadsInstruction (Load operation) cursor.old cursor.new result }
{
    let rd = slot::register(cursor)?;
    slot::comma(cursor, Slot::ANY_REGISTER)?;
    loaded(alloc, cursor, operation, rd)
}

/// The operands of a store after its register: an address, or a target and a register on the way.
#[tactic(auto, unfolding(rv_parse_laws::specs::Parsing::operands_at))]
fn stored<'a>(
    alloc: Global,
    cursor: &mut Cursor<'a>,
    operation: StoreOperation,
    rs2: Reg,
) -> Result<StatementKind<'a>, ReadError>
    ensures { Answers (λ k. (statement_kind k, remaining cursor.new)) result
        (seen_as (λ os. Instruction (Store operation) (Register rs2 ∷ os))
        (placed_at (Takes (A_comma A_target) (last A_register)) (remaining cursor.old))) }
{
    match located(alloc, cursor)? {
        Location::Register(rs1) => {
            slot::end(cursor, Slot::ANY_ADDRESS)?;
            Ok(StatementKind::Plain(Plain::Store(operation, rs2, rs1)))
        }
        Location::Offset(offset, rs1) => {
            slot::end(cursor, Slot::ANY_ADDRESS)?;
            Ok(given(Operation::Store(operation, rs2, rs1), offset))
        }
        Location::Target(target) => {
            slot::comma(cursor, Slot::Value(Role::Target))?;
            let rt = slot::register(cursor)?;
            slot::end(cursor, Slot::ANY_REGISTER)?;
            Ok(with(Operation::StoreSymbol(operation, rs2, rt), target))
        }
    }
}

/// `rs2, offset(rs1)` or `rs2, target, rt`
#[tactic(auto, unfolding(rv_parse_laws::specs::Parsing::operands_at))]
pub fn store<'a>(
    alloc: Global,
    cursor: &mut Cursor<'a>,
    operation: StoreOperation,
) -> Result<StatementKind<'a>, ReadError>
    ensures { ReadsInstruction (Store operation) cursor.old cursor.new result }
{
    let rs2 = slot::register(cursor)?;
    slot::comma(cursor, Slot::ANY_REGISTER)?;
    stored(alloc, cursor, operation, rs2)
}

/// A register in parentheses, after the opening one.
#[tactic(auto, unfolding(rv_parse_laws::specs::Parsing::operands_at))]
fn closed(cursor: &mut Cursor<'_>) -> Result<Reg, SyntaxError>
    ensures { Gives (λ r. (Register r ∷ [], remaining cursor.new)) result
        (operands_at closed (remaining cursor.old)) }
{
    let base = slot::register(cursor)?;
    slot::closing(cursor)?;
    slot::end(cursor, Slot::ANY_REGISTER)?;
    Ok(base)
}

/// The address of an atomic.
#[tactic(auto, unfolding(rv_parse_laws::specs::Parsing::operands_at))]
fn atomic_address(cursor: &mut Cursor<'_>) -> Result<Reg, SyntaxError>
    ensures { Gives (λ r. (Register r ∷ [], remaining cursor.new)) result
        (operands_at atomic_address (remaining cursor.old)) }
{
    if slot::begins_opening(cursor) {
        slot::opening(cursor, Slot::ANY_REGISTER)?;
        return closed(cursor);
    }
    slot::zero(cursor)?;
    slot::opening(cursor, Slot::Zero)?;
    closed(cursor)
}

/// `rd, (rs1)`
#[tactic(auto, unfolding(rv_parse_laws::specs::Parsing::operands_at))]
pub fn load_reserved<'a>(
    cursor: &mut Cursor<'a>,
    form: AtomicForm,
) -> Result<StatementKind<'a>, SyntaxError>
    ensures { GivesInstruction (LoadReserved form) cursor.old cursor.new result }
{
    let rd = slot::register(cursor)?;
    slot::comma(cursor, Slot::ANY_REGISTER)?;
    let rs1 = atomic_address(cursor)?;
    Ok(StatementKind::Plain(Plain::LoadReserved(form, rd, rs1)))
}

/// `rd, rs2, (rs1)`
#[tactic(auto, unfolding(rv_parse_laws::specs::Parsing::operands_at))]
pub fn atomic<'a>(
    cursor: &mut Cursor<'a>,
    operation: AtomicOperation,
    form: AtomicForm,
) -> Result<StatementKind<'a>, SyntaxError>
    ensures { GivesInstruction (Atomic operation form) cursor.old cursor.new result }
{
    let rd = slot::register(cursor)?;
    slot::comma(cursor, Slot::ANY_REGISTER)?;
    let rs2 = slot::register(cursor)?;
    slot::comma(cursor, Slot::ANY_REGISTER)?;
    let rs1 = atomic_address(cursor)?;
    Ok(StatementKind::Plain(Plain::Atomic(operation, form, rd, rs2, rs1)))
}

/// The operands of `fence`: none, or two sets of accesses.
#[tactic(auto, unfolding(rv_parse_laws::specs::Parsing::operands_at))]
pub fn fence<'a>(cursor: &mut Cursor<'a>) -> Result<StatementKind<'a>, SyntaxError>
    ensures { GivesInstruction Fence cursor.old cursor.new result }
{
    if slot::begins_accesses(cursor) {
        let before = slot::accesses(cursor)?;
        slot::comma(cursor, Slot::Accesses)?;
        let after = slot::accesses(cursor)?;
        slot::end(cursor, Slot::Accesses)?;
        return Ok(StatementKind::Plain(Plain::FenceBetween(before, after)));
    }
    slot::end(cursor, Slot::ANY_REGISTER)?;
    Ok(StatementKind::Plain(Plain::Fence))
}
