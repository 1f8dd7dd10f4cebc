//! The code of a statement.
//!
//! There are two ways to ask: `code` gives a list of parts, and `one_code` the one instruction that most statements
//! are. The second makes no list, so that a large source is assembled faster.

ghost use Rattle.std.specs.Prelude.{◌≡◌, ◌≤◌, ℕ, Bool, Ok, None, length, IfOk, IfSome};
ghost use Rattle.rv_isa.specs.Ranges.{IsValid};
ghost use Rattle.rv_expression_laws.specs.Expression.{Primary};
ghost use Rattle.rv_expression_laws.specs.Values as values;
ghost use Rattle.rv_expression.specs.Eval.{IsOutcome};
ghost use Rattle.rv_expression.specs.Expr.{tree_of_expr};
ghost use Rattle.rv_statement_laws.specs.Statement.{Expression, Statement as Said};
ghost use Rattle.rv_statement.specs.View.{plain_of, statement_of};
ghost use Rattle.rv_unit.specs.Unit.{IsFilled, IsScope};
ghost use Rattle.rv_pseudo.specs.Templates.{statement_with};
ghost use Rattle.rv_instruction.specs.Code as laws;
ghost use Rattle.rv_instruction.specs.Code.{encoded_instructions, Codes, AreCodable, IsExpanded, IsConstant, IsOneOf, MayHave};
ghost use Rattle.rv_instruction.specs.Scoped.{values_at, labels_at, named_at, AtNext};

use crate::encoded::{Code, Encoded, encode_all, in_least_form, in_named_form, one_part};
use crate::known::{bare_one, operation_in_range, plain, with_one};
use crate::named::{named_form, names_parcel};
use crate::worth::{Outcome, worth};
use arrayvec::ArrayVec;
use rv_expression::{Expr, SourceCode, SourceFault, Value};
use rv_isa::Inst;
use rv_pseudo::{Manner, Templates, takes_target, with_operand};
use rv_statement::{Operation, Plain, Statement, StatementKind};
use rv_statement_laws::Function;
use rv_unit::{Scope, SectionOffset};

/// The number of an expression that has to be a constant, by its value; else its fault at a line.
pub fn constant(value: Result<Value<'_>, SourceFault>, line: u32) -> Result<u64, SourceFault>
    ensures { (v : values.Value) → IsOutcome value.entry line v → IsConstant v line result }
{
    match value? {
        Value::Constant(number) => Ok(number),
        Value::Symbolic(..) | Value::Difference(..) => Err(SourceFault::At {
            code: SourceCode::NotConstant,
            line,
        }),
    }
}

/// The instructions of an operation with an operand of this value at a line, or the lowest code of
/// its faults: of whatever statement says so.
fn with_value<'a>(
    scope: &Scope<'_, 'a>,
    operation: Operation,
    function: Option<Function>,
    value: &Outcome<'a>,
    compressed: bool,
    bytes: u8,
    line: u32,
) -> Result<Templates, SourceFault>
    ensures codable { (e : Expression)
        → MayHave compressed (statement_with operation function e) bytes
        → IfOk result (λ t. AreCodable t.items) }
    ensures built { (index : ℕ) (s : Said) (v : Expression → values.Value) (x : Expression)
        → IsFilled (scope.now).unit.now → IsScope scope.now index
        → IsOutcome value.now line (v x) → s.kind ≡ statement_with operation function x
        → s.line ≡ line → IsExpanded compressed bytes v (labels_at scope.now index) s result }
{
    operation_in_range(&operation);
    let told = worth(scope, function, value);
    let manner = Manner {
        worth: told,
        bytes,
        rvc: compressed,
    };
    match with_operand(operation, function, manner) {
        Ok(templates) => Ok(templates),
        Err(code) => Err(SourceFault::At { code, line }),
    }
}

/// The instructions of a statement without an expression at a line, or the code of its fault.
fn bare(statement: Plain, compressed: bool, line: u32) -> Result<Templates, SourceFault>
    ensures codable { IfOk result (λ t. AreCodable t.items) }
    ensures built { (s : Said) (bytes : ℕ) (v : Expression → values.Value) (l : Primary → Bool)
        → s.kind ≡ plain_of statement → s.line ≡ line → IsExpanded compressed bytes v l s result }
{
    match plain(statement, compressed) {
        Ok(templates) => Ok(templates),
        Err(code) => Err(SourceFault::At { code, line }),
    }
}

/// The instructions of the statement that is next, none where it is no instruction, or the lowest
/// code of its faults as code; a branch or a jump has so many bytes.
fn expanded<'a>(
    statement: &Statement<'a>,
    scope: &Scope<'_, 'a>,
    place: SectionOffset,
    compressed: bool,
    bytes: u8,
) -> Result<Templates, SourceFault>
    ensures codable { MayHave compressed (statement_of statement.now).kind bytes
        → IfOk result (λ t. AreCodable t.items) }
    ensures built { (index : ℕ) → IsFilled (scope.now).unit.now → IsScope scope.now index
        → IsExpanded compressed bytes (values_at scope.now index place)
        (labels_at scope.now index) (statement_of statement.now) result }
{
    let line = statement.line;
    match &statement.kind {
        StatementKind::Plain(statement) => bare(*statement, compressed, line),
        StatementKind::With(operation, expression) => {
            let value = scope.value(place, expression, line);
            with_value(scope, *operation, None, &value, compressed, bytes, line)
        }
        StatementKind::WithFunction(operation, function, expression) => {
            let value = scope.value(place, expression, line);
            let function = Some(*function);
            with_value(scope, *operation, function, &value, compressed, bytes, line)
        }
        _ => Ok(ArrayVec::new()),
    }
}

/// The code of the statement that is next, none where it is no instruction, where compressed code is
/// on or off. A branch or a jump that may be near has `bytes` bytes; no other is asked.
///
/// # Errors
///
/// At the statement's line the lowest code of its faults as code; E9 where nothing else is wrong
/// with a part of an address in a field that takes none. Never want of memory.
pub fn code<'a>(
    statement: &Statement<'a>,
    scope: &Scope<'_, 'a>,
    place: SectionOffset,
    compressed: bool,
    bytes: u8,
) -> Result<Code, SourceFault>
    requires { MayHave compressed (statement_of statement.now).kind bytes }
    ensures few { IfOk result (λ c. length c.items ≤ 8) }
    ensures codes { (index : ℕ) → IsFilled (scope.now).unit.now → IsScope scope.now index
        → Codes compressed bytes (values_at scope.now index place)
        (labels_at scope.now index) (statement_of statement.now) result }
{
    if let Some(encoded) = named_one(statement, scope, place) {
        return Ok(one_part(encoded));
    }
    match expanded(statement, scope, place, compressed, bytes) {
        Ok(templates) => Ok(encode_all(templates, compressed)),
        Err(fault) => Err(fault),
    }
}

// ---- one instruction

/// The one instruction of an operation with an expression in the statement that is next, at a line;
/// none where it is faulty, has a target, or may have several.
fn operand_one<'a>(
    operation: &Operation,
    expression: &Expr<'a>,
    scope: &Scope<'_, 'a>,
    place: SectionOffset,
    line: u32,
) -> Option<Inst>
    ensures valid { IfSome result (λ i. IsValid i) }
    ensures one { IfSome result (λ i. (index : ℕ) → IsFilled (scope.now).unit.now
        → IsScope scope.now index
        → IsOneOf operation.now (values_at scope.now index place (tree_of_expr expression.now)) i) }
{
    if takes_target(operation) {
        return None;
    }
    let value = scope.value(place, expression, line);
    with_one(operation, &value)
}

/// The one instruction of the statement that is next; none where it is faulty, or may have several
/// or none.
fn expanded_one<'a>(
    statement: &Statement<'a>,
    scope: &Scope<'_, 'a>,
    place: SectionOffset,
    compressed: bool,
) -> Option<Inst>
    ensures valid { IfSome result (λ i. IsValid i) }
    ensures built { IfSome result (λ i. (index : ℕ) → IsFilled (scope.now).unit.now
        → IsScope scope.now index → (bytes : ℕ)
        → IsExpanded compressed bytes (values_at scope.now index place)
        (labels_at scope.now index) (statement_of statement.now) (Ok (laws.alone i))) }
{
    match &statement.kind {
        StatementKind::Plain(statement) => bare_one(statement, compressed),
        StatementKind::With(operation, expression) => {
            operand_one(operation, expression, scope, place, statement.line)
        }
        _ => None,
    }
}

/// The parcel of the form that the statement that is next names, if it names one.
fn named_one<'a>(
    statement: &Statement<'a>,
    scope: &Scope<'_, 'a>,
    place: SectionOffset,
) -> Option<Encoded>
    ensures unnamed { result ≡ None → AtNext scope.now (λ index.
        named_at scope.now index place (statement_of statement.now).kind ≡ None) }
    ensures one { IfSome result (λ e. encoded_instructions e ≡ 1) }
    ensures codes { IfSome result (λ e. AtNext scope.now (λ index. (rvc : Bool) (bytes : ℕ)
        → Codes rvc bytes (values_at scope.now index place) (labels_at scope.now index)
        (statement_of statement.now) (Ok (laws.alone_coded e)))) }
{
    match named_form(statement, scope, place) {
        Some(form) => Some(in_named_form(form)),
        None => None,
    }
}

/// The code of the statement that is next, where it is one instruction and leaves no field open, as
/// most are; `code` gives the same, and that of others.
pub fn one_code<'a>(
    statement: &Statement<'a>,
    scope: &Scope<'_, 'a>,
    place: SectionOffset,
    compressed: bool,
) -> Option<Encoded>
    ensures one { IfSome result (λ e. encoded_instructions e ≡ 1) }
    ensures codes { IfSome result (λ e. (index : ℕ) → IsFilled (scope.now).unit.now
        → IsScope scope.now index → (bytes : ℕ)
        → MayHave compressed (statement_of statement.now).kind bytes
        → Codes compressed bytes (values_at scope.now index place) (labels_at scope.now index)
        (statement_of statement.now) (Ok (laws.alone_coded e))) }
{
    if names_parcel(&statement.kind) {
        return named_one(statement, scope, place);
    }
    match expanded_one(statement, scope, place, compressed) {
        Some(inst) => Some(in_least_form(inst, compressed)),
        None => None,
    }
}
