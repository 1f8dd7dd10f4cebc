//! What sizes of branches see of a source: each statement with its section, its forms and its target, or with the bytes
//! that it has.
//!
//! Source: GNU as, "RISC-V-Directives"; RISC-V Unprivileged ISA 20191213, chapters 2.5 and 16.

ghost use Rattle.std.specs.Prelude.{◌≡◌, ◌+◌, ℕ, true, None, IfOk, IfSome};
ghost use Rattle.rv_statement.specs.View.{plain_of, statement_kind};
ghost use Rattle.rv_unit.specs.Unit.{said};
ghost use Rattle.rv_instruction.specs.Code.{near_forms_of};
ghost use Rattle.rv_instruction.specs.Scoped.{values_at, faults_at, AtNext};
ghost use Rattle.rv_draft.specs.Contents as code;
ghost use Rattle.rv_draft.specs.Measure as laws;
ghost use Rattle.rv_draft.specs.Measure.{HasLength, HasLengthWith, HasOneLength, IsSeenAs, IsMeasured};

use crate::beside::beside;
use crate::extents::extent_at;
use crate::widths::{bytes_of, width};
use rv_instruction::{code as code_of, item, near_forms, one_code};
use rv_size_laws::Item;
use rv_sizes::Items;
use rv_statement::{Operation, Plain, Statement, StatementKind};
use rv_unit::{Scope, SectionOffset, Unit};
use std::alloc::{AllocError, Global};

/// Whether a statement without an expression may be two instructions.
fn is_unary(statement: &Plain) -> bool
    ensures { result ≡ laws.is_unary statement.now }
{
    matches!(statement, Plain::Unary(..))
}

/// Whether a statement without an expression names a parcel.
fn is_bare_parcel(statement: &Plain) -> bool
    ensures { result ≡ laws.is_bare_parcel statement.now }
{
    matches!(statement, Plain::Parcel(..))
}

/// Whether an operation with an expression names a parcel.
fn is_parcel(operation: &Operation) -> bool
    ensures { result ≡ laws.is_parcel operation.now }
{
    matches!(operation, Operation::Parcel(..))
}

/// Whether an operation with an expression is one instruction, which may have a form of two bytes.
fn is_word(operation: &Operation) -> bool
    ensures { result ≡ laws.is_word operation.now }
{
    matches!(
        operation,
        Operation::Registers(..)
            | Operation::Immediate(..)
            | Operation::Shift(..)
            | Operation::Upper(..)
            | Operation::Load(..)
            | Operation::Store(..)
            | Operation::Jalr(..)
            | Operation::JalrThen(..)
            | Operation::JalrLinked(_)
            | Operation::Jr(_)
    )
}

/// Whether an operation is a jump that may write where it came from, which no form of two bytes does.
fn is_jal(operation: &Operation) -> bool
    ensures { result ≡ laws.is_jal operation.now }
{
    matches!(operation, Operation::Jal(_) | Operation::JalLinked)
}

/// Whether the operands of an operation tell how many instructions it is.
fn is_longer(operation: &Operation) -> bool
    ensures { result ≡ laws.is_longer operation.now }
{
    matches!(
        operation,
        Operation::La(_) | Operation::Li(_) | Operation::LoadSymbol(..) | Operation::StoreSymbol(..)
    )
}

/// The bytes of a statement without an expression, where its words alone tell them.
fn plain_length(statement: &Plain, compressed: bool) -> Option<u8>
    ensures { IfSome result (λ n. HasOneLength compressed (plain_of statement.now) n) }
{
    if is_bare_parcel(statement) {
        return Some(2);
    }
    if compressed {
        return None;
    }
    if is_unary(statement) {
        return None;
    }
    Some(4)
}

/// The bytes of an operation of one instruction that may have a form of two bytes, where its words
/// alone tell them.
fn word_length(operation: &Operation, compressed: bool) -> Option<u8>
    requires { laws.is_word operation.now ≡ true }
    ensures { IfSome result (λ n. HasLengthWith operation.now compressed n) }
{
    if compressed {
        return None;
    }
    Some(4)
}

/// The bytes of an operation with an expression, where its words alone tell them; of branches, jumps
/// and calls their forms do.
fn operation_length(operation: &Operation, compressed: bool) -> Option<u8>
    ensures { IfSome result (λ n. HasLengthWith operation.now compressed n) }
{
    if is_word(operation) {
        return word_length(operation, compressed);
    }
    if is_jal(operation) {
        return Some(4);
    }
    if is_longer(operation) {
        return None;
    }
    if is_parcel(operation) {
        return Some(2);
    }
    Some(0)
}

/// Whether a statement is an instruction.
fn is_instruction(kind: &StatementKind<'_>) -> bool
    ensures { result ≡ code.is_instruction kind.now }
{
    matches!(
        kind,
        StatementKind::Plain(_) | StatementKind::With(..) | StatementKind::WithFunction(..)
    )
}

/// The bytes of a statement as code, where its words alone tell them. They do not matter where it has
/// forms of several lengths, or is faulty: its fault comes first.
fn told_length(kind: &StatementKind<'_>, compressed: bool) -> Option<u8>
    ensures { IfSome result (λ n. HasOneLength compressed (statement_kind kind.now) n) }
{
    if !is_instruction(kind) {
        return Some(0);
    }
    match kind {
        StatementKind::Plain(statement) => plain_length(statement, compressed),
        StatementKind::With(operation, _) => operation_length(operation, compressed),
        StatementKind::WithFunction(operation, ..) => operation_length(operation, compressed),
        _ => None,
    }
}

/// How many bytes the instruction that is next has as code, where it has no forms of several lengths
/// and no fault. Such a one is not asked for a length.
fn listed_length<'a>(
    statement: &Statement<'a>,
    scope: &Scope<'_, 'a>,
    place: SectionOffset,
    compressed: bool,
) -> u8
    requires { near_forms_of compressed (statement_kind (statement.now).kind) ≡ None }
    ensures { AtNext scope.now (λ index. (padding : ℕ)
        → HasLength (values_at scope.now index place) compressed
        (faults_at scope.now index place (statement_kind (statement.now).kind)) padding
        (statement_kind (statement.now).kind) (padding + result)) }
{
    match code_of(statement, scope, place, compressed, 4) {
        Ok(found) => bytes_of(found.as_slice()),
        Err(_) => 0,
    }
}

/// How many bytes the instruction that is next has as code, where it has no forms of several lengths
/// and no fault.
fn made_length<'a>(
    statement: &Statement<'a>,
    scope: &Scope<'_, 'a>,
    place: SectionOffset,
    compressed: bool,
) -> u8
    ensures { AtNext scope.now (λ index. (padding : ℕ)
        → HasLength (values_at scope.now index place) compressed
        (faults_at scope.now index place (statement_kind (statement.now).kind)) padding
        (statement_kind (statement.now).kind) (padding + result)) }
{
    if let Some(encoded) = one_code(statement, scope, place, compressed) {
        return width(encoded);
    }
    match near_forms(&statement.kind, compressed) {
        None => listed_length(statement, scope, place, compressed),
        Some(_) => 0,
    }
}

/// How many bytes the instruction that is next has as code, where it has no forms of several lengths
/// and no fault, and another statement none. The code is made where its words do not tell them.
fn code_length<'a>(
    statement: &Statement<'a>,
    scope: &Scope<'_, 'a>,
    place: SectionOffset,
    compressed: bool,
) -> u8
    ensures { AtNext scope.now (λ index. (padding : ℕ)
        → HasLength (values_at scope.now index place) compressed
        (faults_at scope.now index place (statement_kind (statement.now).kind)) padding
        (statement_kind (statement.now).kind) (padding + result)) }
{
    match told_length(&statement.kind, compressed) {
        Some(bytes) => bytes,
        None => made_length(statement, scope, place, compressed),
    }
}

/// What sizes see of the statement that is next.
fn seen<'a>(
    statement: &Statement<'a>,
    scope: &Scope<'_, 'a>,
    places: &[SectionOffset],
    place: SectionOffset,
    executable: bool,
    compressed: bool,
) -> Item
    ensures { AtNext scope.now (λ index. IsSeenAs scope.now index places.now place executable
        compressed (statement_kind (statement.now).kind) result) }
{
    let bytes = code_length(statement, scope, place, compressed);
    let beside = beside(statement, scope, place, executable);
    item(
        statement,
        scope,
        places,
        place,
        compressed,
        beside + u32::from(bytes),
    )
}

/// What sizes see of a source, whose statements are read into the room.
pub(crate) fn measured<'a>(
    alloc: Global,
    unit: &Unit<'a>,
    room: &mut Statement<'a>,
) -> Result<Items, AllocError>
    ensures { IfOk result (λ items. IsMeasured (said unit.now) items) }
{
    let mut scope = Scope::new(unit);
    let statements = unit.statements();
    let places = unit.places();
    let extents = unit.sections();
    let mut items = Items::with_capacity(alloc, statements.len())?;
    for index in 0..statements.len() {
        let place = places[index];
        let extent = extent_at(extents, place.section);
        let compressed = unit.options_at(index).rvc();
        let executable = extent.section.executable;
        let statement = statements.read(index, room);
        items.push(seen(statement, &scope, places, place, executable, compressed))?;
        scope.pass();
    }
    Ok(items)
}
