//! The fields of code that stay open: which symbol each takes, and what is added.
//!
//! Source: RISC-V ELF psABI, "Relocations", "PC-Relative Addresses"; GNU as, "RISC-V-Modifiers".

ghost use Rattle.std.specs.Prelude.{◌≡◌, ◌+◌, None, option_map, true};
ghost use Rattle.rv_isa.specs.declared.kind.Kind.{Kind as SpecKind};
ghost use Rattle.rv_isa.specs.Kinds as kinds;
ghost use Rattle.rv_expression_laws.specs.Values as values;
ghost use Rattle.rv_statement_laws.specs.Statement.{Expression};
ghost use Rattle.rv_statement.specs.View.{statement_kind};
ghost use Rattle.rv_pseudo.specs.Templates.{statement_with};
ghost use Rattle.rv_unit_laws.specs.Tables.{tables, definition};
ghost use Rattle.rv_unit.specs.Faults.{ForValue};
ghost use Rattle.rv_unit.specs.Unit.{said, definition_of};
ghost use Rattle.rv_assemble_laws.specs.CodeFields as fields;
ghost use Rattle.rv_instruction.specs.Opened as laws;
ghost use Rattle.rv_instruction.specs.Scoped.{values_at, AtNext};

use crate::near::addend;
use crate::worth::Outcome;
use rv_expression::{Symbol, Value};
use rv_isa::Kind;
use rv_pseudo::takes_target;
use rv_statement::{Operation, Statement, StatementKind};
use rv_statement_laws::Function;
use rv_unit::{Definition, Scope, SectionOffset};

/// What an open field takes: a symbol as the statement of an ordinal names it, and what is added.
#[derive(Clone, Copy, Drop)]
pub struct Reference<'a> {
    /// The ordinal of the statement, from 1.
    pub ordinal: u32,
    /// The symbol.
    pub symbol: Symbol<'a>,
    /// What is added.
    pub addend: i64,
}

/// Whether the code of an operation with an expression leaves no field open: that is a number, and
/// no target.
#[tactic(auto, using(crate::proofs::FreeRowsLemmas::operand_free))]
fn takes_number(operation: &Operation) -> bool
    ensures { result ≡ true
        → (e : Expression) → laws.LeavesNone (statement_with operation.now None e) }
{
    !takes_target(operation)
}

/// Whether the code of a statement leaves no field open, as its words alone tell.
pub fn is_closed(kind: &StatementKind<'_>) -> bool
    ensures { result ≡ true → laws.LeavesNone (statement_kind kind.now) }
{
    match kind {
        StatementKind::Plain(_) => true,
        StatementKind::With(operation, _) => takes_number(operation),
        StatementKind::Label(_) => true,
        StatementKind::Numbered(_) => true,
        _ => false,
    }
}

/// Whether a field takes the low part of a distance.
fn is_low_part(kind: &Kind) -> bool
    ensures { result ≡ kinds.is_low_part kind.now }
{
    matches!(kind, Kind::PcrelLo12I | Kind::PcrelLo12S)
}

/// The address of a symbol with the constant beside it.
fn to_symbol<'a>(ordinal: u32, value: &Outcome<'a>) -> Option<Reference<'a>>
    ensures { (k : SpecKind) → ForValue value.now (λ v.
        laws.opens_of k result ≡ fields.symbol_field k ordinal v) }
{
    match value {
        Ok(Value::Symbolic(symbol, plus)) => Some(Reference {
            ordinal,
            symbol: *symbol,
            addend: addend(*plus),
        }),
        _ => None,
    }
}

/// The low part of the distance that the statement of an ordinal has the upper part of.
fn to_low<'a>(ordinal: u32, plus: u64) -> Option<Reference<'a>>
    ensures { (k : SpecKind) → laws.opens_of k result ≡ fields.low_field k ordinal plus }
{
    Some(Reference {
        ordinal,
        symbol: Symbol::Here,
        addend: addend(plus),
    })
}

/// The same at a definition, if there is one.
fn to_low_at<'a>(definition: Option<Definition>, plus: u64) -> Option<Reference<'a>>
    ensures { (k : SpecKind) → laws.opens_of k result
        ≡ fields.low_field_at k (option_map definition_of definition) plus }
{
    match definition {
        Some(definition) => to_low(definition.ordinal, plus),
        None => None,
    }
}

/// The same at the label that the value of the statement that is next names.
fn to_label<'a>(scope: &Scope<'_, 'a>, value: &Outcome<'a>) -> Option<Reference<'a>>
    ensures { (k : SpecKind) → AtNext scope.now (λ index. ForValue value.now (λ v.
        laws.opens_of k result
        ≡ fields.label_field (tables (said (scope.now).unit.now)) k (index + 1) v)) }
{
    match value {
        Ok(Value::Symbolic(symbol, plus)) => to_low_at(scope.definition(*symbol), *plus),
        _ => None,
    }
}

/// What a field takes with a function of a value, in the statement of an ordinal, which is next.
fn to_function<'a>(
    scope: &Scope<'_, 'a>,
    ordinal: u32,
    function: Function,
    value: &Outcome<'a>,
) -> Option<Reference<'a>>
    ensures { (k : SpecKind) → AtNext scope.now (λ index. ordinal ≡ index + 1
        → ForValue value.now (λ v. laws.opens_of k result
        ≡ laws.function_field (tables (said (scope.now).unit.now)) k ordinal function v)) }
{
    match function {
        Function::Hi => to_symbol(ordinal, value),
        Function::Lo => to_symbol(ordinal, value),
        Function::PcrelHi => to_symbol(ordinal, value),
        Function::PcrelLo => to_label(scope, value),
    }
}

/// What a field of a kind takes with an expression, in the statement of an ordinal.
fn to_value<'a>(
    is_target: bool,
    ordinal: u32,
    kind: Kind,
    value: &Outcome<'a>,
) -> Option<Reference<'a>>
    ensures { ForValue value.now (λ v.
        laws.opens_of kind result ≡ laws.value_field is_target kind ordinal v) }
{
    if is_target && is_low_part(&kind) {
        to_low(ordinal, 0)
    } else {
        to_symbol(ordinal, value)
    }
}

/// What the open field of this kind takes, in the code of the statement of an ordinal, which is
/// next and stands at the place.
pub fn open_field<'a>(
    statement: &Statement<'a>,
    scope: &Scope<'_, 'a>,
    place: SectionOffset,
    ordinal: u32,
    kind: Kind,
) -> Option<Reference<'a>>
    ensures { AtNext scope.now (λ index. ordinal ≡ index + 1 → laws.opens_of kind result
        ≡ laws.fields_of (tables (said (scope.now).unit.now)) (values_at scope.now index place)
        ordinal (statement_kind (statement.now).kind) kind) }
{
    match &statement.kind {
        StatementKind::With(operation, expression) => {
            let value = scope.value(place, expression, statement.line);
            to_value(takes_target(operation), ordinal, kind, &value)
        }
        StatementKind::WithFunction(_, function, expression) => {
            let value = scope.value(place, expression, statement.line);
            to_function(scope, ordinal, *function, &value)
        }
        _ => None,
    }
}
