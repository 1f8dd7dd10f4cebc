//! The bytes of a statement that are no code of instructions: the padding of an alignment in code, as much as the least one
//! may ever need, and data.
//!
//! Source: RISC-V ELF psABI, "Linker Relaxation", R_RISCV_ALIGN; GNU as, "Pseudo Ops".

ghost use Rattle.std.specs.Prelude.{◌≡◌, ◌≤◌, ◌^◌};
ghost use Rattle.rv_statement.specs.View.{statement_kind};
ghost use Rattle.rv_expression.specs.Eval.{IsOutcome};
ghost use Rattle.rv_expression_laws.specs.Values as values;
ghost use Rattle.rv_unit_laws.specs.Tables as tables;
ghost use Rattle.rv_unit_laws.specs.Tables.{or_none};
ghost use Rattle.rv_source_laws.specs.Sizes as sizes;
ghost use Rattle.rv_instruction.specs.Scoped.{values_at, AtNext};
ghost use Rattle.rv_draft.specs.Contents as laws;

use rv_expression::{SourceFault, Value};
use rv_statement::{Statement, StatementKind};
use rv_unit::{
    LONGEST_SECTION, Scope, SectionOffset, byte_alignment, padding, power_alignment, strings_size,
    values_size,
};

/// The padding of an alignment in code, one up to 4096: room for the least padding wherever the
/// code comes to stand, and none up to 2.
fn code_padding(alignment: Option<u32>) -> u32
    ensures is { or_none alignment ≤ 4096 → result ≡ sizes.code_padding alignment }
    ensures low { result ≤ 65535 }
{
    match alignment {
        Some(alignment) => alignment.saturating_sub(2).min(0xffff),
        None => 0,
    }
}

/// The bytes of the padding of the statement that is next: of an alignment in a section of code.
pub(crate) fn statement_padding<'a>(
    statement: &Statement<'a>,
    scope: &Scope<'_, 'a>,
    place: SectionOffset,
    executable: bool,
) -> u32
    ensures is { AtNext scope.now (λ index. result
        ≡ laws.statement_padding executable (values_at scope.now index place)
        (statement_kind (statement.now).kind)) }
    ensures low { result ≤ 65535 }
{
    if !executable {
        return 0;
    }
    match &statement.kind {
        StatementKind::AlignsToPower(power) => {
            code_padding(power_alignment(scope.value(place, power, 0)))
        }
        StatementKind::AlignsToBytes(bytes) => {
            code_padding(byte_alignment(scope.value(place, bytes, 0)))
        }
        _ => 0,
    }
}

/// The bytes that a value counts; none where it is no size.
fn counted(value: Result<Value<'_>, SourceFault>) -> u64
    ensures { (v : values.Value) → IsOutcome value.entry 0 v
        → result ≡ or_none (tables.counted v) }
{
    match value {
        Ok(Value::Constant(count)) => if count < 1 << 63 { count } else { 0 },
        Ok(Value::Symbolic(..)) => 0,
        Ok(Value::Difference(..)) => 0,
        Err(_) => 0,
    }
}

/// The bytes at an offset of data where they do not pass the longest section, else none.
fn within(offset: u32, bytes: u64) -> u32
    ensures is { result ≡ tables.within offset bytes }
    ensures low { result ≤ 2 ^ 28 }
{
    match u64::from(offset).checked_add(bytes) {
        Some(end) => if end <= LONGEST_SECTION {
            bytes as u32
        } else {
            0
        },
        None => 0,
    }
}

/// The bytes of data of the statement that is next, with the padding of an alignment there.
fn data_of<'a>(statement: &Statement<'a>, scope: &Scope<'_, 'a>, place: SectionOffset) -> u32
    ensures is { AtNext scope.now (λ index. result
        ≡ laws.data_of (values_at scope.now index place) place.offset
        (statement_kind (statement.now).kind)) }
    ensures low { result ≤ 2 ^ 28 }
{
    let offset = place.offset;
    match &statement.kind {
        StatementKind::Value(width, _) => within(offset, values_size(*width, 1)),
        StatementKind::Values(width, values) => within(offset, values_size(*width, values.len())),
        StatementKind::Ascii(strings) => within(offset, strings_size(false, strings)),
        StatementKind::Asciz(strings) => within(offset, strings_size(true, strings)),
        StatementKind::Zeros(count) => within(offset, counted(scope.value(place, count, 0))),
        StatementKind::AlignsToPower(power) => {
            let alignment = power_alignment(scope.value(place, power, 0));
            within(offset, padding(alignment, offset))
        }
        StatementKind::AlignsToBytes(bytes) => {
            let alignment = byte_alignment(scope.value(place, bytes, 0));
            within(offset, padding(alignment, offset))
        }
        _ => 0,
    }
}

/// The bytes of the statement that is next that are no code of an instruction: of padding in a section of code, else of data.
pub(crate) fn beside<'a>(
    statement: &Statement<'a>,
    scope: &Scope<'_, 'a>,
    place: SectionOffset,
    executable: bool,
) -> u32
    ensures is { AtNext scope.now (λ index. result
        ≡ laws.beside_of executable (values_at scope.now index place) place.offset
        (statement_kind (statement.now).kind)) }
    ensures low { result ≤ 2 ^ 28 }
{
    if executable {
        return statement_padding(statement, scope, place, true);
    }
    data_of(statement, scope, place)
}
