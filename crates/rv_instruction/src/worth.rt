//! What a value is worth to an instruction.

ghost use Rattle.std.specs.Prelude.{◌≡◌, ℕ, ◌+◌, is_some};
ghost use Rattle.rv_isa_laws.specs.Arithmetic.{signed};
ghost use Rattle.rv_expression.specs.Nodes.{symbol_of};
ghost use Rattle.rv_unit_laws.specs.Tables.{tables, definition};
ghost use Rattle.rv_unit.specs.Faults.{ForValue};
ghost use Rattle.rv_unit.specs.Unit.{said, IsFilled, IsScope};
ghost use Rattle.rv_pseudo.specs.Faults.{worth_of};
ghost use Rattle.rv_instruction.specs.Code as laws;
ghost use Rattle.rv_instruction.specs.Scoped.{labels_at};

use rv_expression::{SourceCode, SourceFault, Symbol, Value};
use rv_pseudo::Worth;
use rv_statement_laws::Function;
use rv_unit::Scope;

/// What an expression stands for, or its fault.
pub(crate) type Outcome<'a> = Result<Value<'a>, SourceFault>;

/// A number with its sign.
pub(crate) fn signed(number: u64) -> i64
    ensures { result ≡ signed 64 number }
{
    number.cast_signed()
}

/// Whether a symbol of the next statement stands somewhere in its source.
#[tactic(auto, using(rv_list_laws::proofs::OptionsLemmas::is_some_by_map))]
fn is_defined<'a>(scope: &Scope<'_, 'a>, symbol: Symbol<'a>) -> bool
    ensures { (index : ℕ) → IsFilled (scope.now).unit.now → IsScope scope.now index
        → result ≡ is_some
        (definition (tables (said (scope.now).unit.now)) (index + 1) (symbol_of symbol.entry)) }
{
    scope.definition(symbol).is_some()
}

/// Whether a symbol of the next statement is a label of its source.
fn is_label<'a>(scope: &Scope<'_, 'a>, symbol: Symbol<'a>) -> bool
    ensures { (index : ℕ) → IsFilled (scope.now).unit.now → IsScope scope.now index
        → result ≡ labels_at scope.now index (symbol_of symbol.entry) }
{
    match symbol {
        Symbol::Name(name) => scope.is_label(name),
        Symbol::Here => false,
        Symbol::Reference(reference) => is_defined(scope, Symbol::Reference(reference)),
    }
}

/// Whether a function asks whether a symbol is a label.
fn asks_label(function: Option<Function>) -> bool
    ensures { result ≡ laws.asks_label function }
{
    matches!(function, Some(Function::PcrelLo))
}

/// What a value in the next statement is worth to an instruction, with a function of it or alone.
pub(crate) fn worth<'a>(
    scope: &Scope<'_, 'a>,
    function: Option<Function>,
    value: &Outcome<'a>,
) -> Worth
    ensures { (index : ℕ) → IsFilled (scope.now).unit.now → IsScope scope.now index
        → ForValue value.now (λ v.
        worth_of result ≡ laws.worth_for function (labels_at scope.now index) v) }
{
    match value {
        Ok(Value::Constant(number)) => Worth::Number(signed(*number)),
        Ok(Value::Symbolic(symbol, _)) => {
            Worth::Address(asks_label(function) && is_label(scope, *symbol))
        }
        Ok(Value::Difference(..)) => Worth::Wrong(SourceCode::NotConstant),
        Err(SourceFault::At { code, .. }) => Worth::Wrong(*code),
        Err(SourceFault::OutOfMemory) => Worth::Wrong(SourceCode::NotConstant),
    }
}
