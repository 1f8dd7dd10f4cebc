//! The instructions of a statement, with their operands in range.

ghost use Rattle.std.specs.Prelude.{◌≡◌, ◌∷◌, [], Bool, Ok, IfOk, IfSome};
ghost use Rattle.rv_isa.specs.Ranges.{IsValid};
ghost use Rattle.rv_isa_laws.specs.Arithmetic.{signed};
ghost use Rattle.rv_expression_laws.specs.Values as values;
ghost use Rattle.rv_expression.specs.Eval.{value_told};
ghost use Rattle.rv_statement_laws.specs.Statement.{Operand};
ghost use Rattle.rv_statement.specs.View.{plain_of, with_operand};
ghost use Rattle.rv_pseudo_laws.specs.Code.{Constants};
ghost use Rattle.rv_pseudo_laws.specs.Valid.{IsOperandOf};
ghost use Rattle.rv_pseudo.specs.Faults.{mnemonic_of};
ghost use Rattle.rv_pseudo.specs.Templates.{AnswersBare, IsOne, plain as one_plain};
ghost use Rattle.rv_unit.specs.Faults.{ForValue};
ghost use Rattle.rv_instruction.specs.Code as laws;
ghost use Rattle.rv_instruction.specs.Code.{AreInRange, AreCodable, IsOneOf};

use crate::worth::{Outcome, signed};
use rv_expression::{SourceCode, Value};
use rv_isa::Inst;
use rv_pseudo::{Template, Templates, single, single_bare, without_operand};
use rv_statement::{Operation, Plain};

/// The registers of a statement without an expression are x0 to x31.
fn plain_registers(statement: Plain)
    ensures { (v : Constants) → AreInRange v (plain_of statement) }
{}

/// The registers of an operation are x0 to x31.
fn operation_registers(operation: Operation)
    ensures { (v : Constants) (o : Operand) → IsOperandOf v (mnemonic_of operation) o
        → AreInRange v (with_operand operation o) }
{}

/// The same of a statement that is lent, as a caller that uses it again has to give it.
fn plain_in_range(statement: &Plain)
    ensures { (v : Constants) → AreInRange v (plain_of statement.now) }
{
    plain_registers(*statement);
}

/// The same of an operation that is lent.
pub(crate) fn operation_in_range(operation: &Operation)
    ensures { (v : Constants) (o : Operand) → IsOperandOf v (mnemonic_of operation.now) o
        → AreInRange v (with_operand operation.now o) }
{
    operation_registers(*operation);
}

/// The instructions of a statement without an expression, or the code of its fault.
pub(crate) fn plain(statement: Plain, compressed: bool) -> Result<Templates, SourceCode>
    ensures codable { IfOk result (λ t. AreCodable t.items) }
    ensures is { AnswersBare compressed (plain_of statement) result }
{
    plain_in_range(&statement);
    without_operand(statement, compressed)
}

/// The one instruction of a statement without an expression; none where it may have two, or names a
/// parcel.
fn plain_one(statement: &Plain) -> Option<Inst>
    ensures valid { IfSome result (λ i. IsValid i) }
    ensures is { IfSome result (λ i. (rvc : Bool)
        → AnswersBare rvc (plain_of statement.now) (Ok (laws.alone i))) }
{
    plain_in_range(statement);
    single_bare(statement)
}

/// The instruction of a template, where no operand is open.
fn closed_one(template: &Template) -> Option<Inst>
    ensures { IfSome result (λ i. template.now ≡ one_plain i) }
{
    match template.reloc {
        None => Some(template.inst),
        Some(_) => None,
    }
}

/// The instruction of templates, where they are one without an open operand.
fn lone(templates: &[Template]) -> Option<Inst>
    ensures { IfSome result (λ i. templates.now ≡ one_plain i ∷ []) }
{
    if templates.len() != 1 {
        return None;
    }
    closed_one(&templates[0])
}

/// The one instruction of a statement without an expression, where compressed code is on or off; none where it has two, or
/// a fault.
pub(crate) fn bare_one(statement: &Plain, compressed: bool) -> Option<Inst>
    ensures valid { IfSome result (λ i. IsValid i) }
    ensures is { IfSome result
        (λ i. AnswersBare compressed (plain_of statement.now) (Ok (laws.alone i))) }
{
    if let Some(inst) = plain_one(statement) {
        return Some(inst);
    }
    match plain(*statement, compressed) {
        Ok(templates) => lone(templates.as_slice()),
        Err(_) => None,
    }
}

/// The one instruction of an operation with a constant; none where that is faulty, or it may have several.
fn constant_one(operation: &Operation, number: u64) -> Option<Inst>
    ensures valid { IfSome result (λ i. IsValid i) }
    ensures is { IfSome result (λ i. IsOne operation.now (signed 64 number) i) }
{
    operation_in_range(operation);
    single(operation, signed(number))
}

/// The one instruction of an operation with this value; none where that is faulty, or it may have
/// several.
fn value_one(operation: &Operation, value: &Value<'_>) -> Option<Inst>
    ensures valid { IfSome result (λ i. IsValid i) }
    ensures is { IfSome result (λ i. (v : values.Value) → value_told value.now v
        → IsOneOf operation.now v i) }
{
    match value {
        Value::Constant(number) => constant_one(operation, *number),
        _ => None,
    }
}

/// The one instruction of an operation with an expression of this value; none where that is faulty,
/// or it may have several.
pub(crate) fn with_one(operation: &Operation, value: &Outcome<'_>) -> Option<Inst>
    ensures valid { IfSome result (λ i. IsValid i) }
    ensures is { IfSome result (λ i. ForValue value.now (λ v. IsOneOf operation.now v i)) }
{
    match value {
        Ok(value) => value_one(operation, value),
        Err(_) => None,
    }
}
