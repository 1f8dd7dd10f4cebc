//! The templates of any statement of code.
//!
//! `Manner.worth` is of the expression before `%hi` or `%lo`, so whoever sizes or writes a statement evaluates its
//! expression and does nothing else.

ghost use Rattle.std.specs.Prelude.{◌≡◌, Some, [], IfSome, true};
ghost use Rattle.rv_statement_laws.specs.Statement.{Expression};
ghost use Rattle.rv_statement.specs.View.{statement_kind};
ghost use Rattle.rv_pseudo.specs.Faults as faults;
ghost use Rattle.rv_pseudo.specs.Templates as is;
ghost use Rattle.rv_pseudo.specs.Templates.{Answers, IsExpansion};

use crate::bare::without_operand;
use crate::fault::{is_placed, operand_fault};
use crate::number::{number, numbered, numbered_one, relocation};
use crate::target::{takes_target, targeted};
use crate::template::{Form, Manner, Templates, Worth, constant, manner_of};
use arrayvec::ArrayVec;
use rv_fault::{SourceCode, SourceFault};
use rv_isa::Inst;
use rv_statement::{Operation, Statement, StatementKind};
use rv_statement_laws::Function;

/// Whether a statement is a store at a number from a register.
fn is_store(operation: &Operation) -> bool
    ensures { result ≡ is.is_store operation.now }
{
    matches!(operation, Operation::Store(..))
}

/// With a part of a value a store to a symbol is one at a number from a register.
fn with_part(operation: Operation) -> Operation
    ensures { result ≡ faults.with_part operation }
{
    match operation {
        Operation::StoreSymbol(operation, rs2, rt) => Operation::Store(operation, rs2, rt),
        _ => operation,
    }
}

/// The operation by which an operand is known.
fn known_as(operation: Operation, function: Option<Function>) -> Operation
    ensures { result ≡ faults.known_as operation function }
{
    match function {
        None => operation,
        Some(_) => with_part(operation),
    }
}

/// The templates of a statement with an operand that has no fault, and a row.
fn operation_templates(
    operation: Operation,
    function: Option<Function>,
    manner: Manner,
) -> Templates
    requires sound { faults.faults_of operation function (faults.worth_of manner.worth) ≡ [] }
    requires placed { faults.is_placed operation function ≡ true }
    ensures { (e : Expression) →
        is.form_templates manner (is.statement_with operation function e) ≡ Some result.items }
{
    let known = known_as(operation, function);
    if takes_target(&known) {
        return targeted(manner.bytes, known);
    }
    let value = constant(manner.worth);
    let number = number(function, value);
    let reloc = relocation(function, value, is_store(&known));
    numbered(known, number, reloc)
}

/// The templates of a statement with an operand that has no fault, or that it has no row.
fn else_unplaced(
    operation: Operation,
    function: Option<Function>,
    manner: Manner,
) -> Result<Templates, SourceCode>
    requires { faults.faults_of operation function (faults.worth_of manner.worth) ≡ [] }
    ensures { (e : Expression) →
        Answers (is.faults_by manner (is.statement_with operation function e))
        (is.form_templates manner (is.statement_with operation function e)) result }
{
    if is_placed(&operation, function) {
        Ok(operation_templates(operation, function, manner))
    } else {
        Err(SourceCode::UnsupportedHere)
    }
}

/// The templates of a statement with an operand, or the lowest code of its faults.
pub fn with_operand(
    operation: Operation,
    function: Option<Function>,
    manner: Manner,
) -> Result<Templates, SourceCode>
    ensures { (e : Expression) →
        Answers (is.faults_by manner (is.statement_with operation function e))
        (is.form_templates manner (is.statement_with operation function e)) result }
{
    match operand_fault(&operation, function, manner.worth) {
        Some(code) => Err(code),
        None => else_unplaced(operation, function, manner),
    }
}

/// The one instruction of an operation with a constant; none where it is faulty, may have several, or is a parcel, of
/// which one has to know the form.
pub fn single(operation: &Operation, number: i64) -> Option<Inst>
    ensures { IfSome result (λ i. is.IsOne operation.now number i) }
{
    if takes_target(operation) {
        return None;
    }
    match operand_fault(operation, None, Worth::Number(number)) {
        Some(_) => None,
        None => numbered_one(operation, number),
    }
}

/// The templates of what a statement says, or the lowest code of its faults.
fn expanded(kind: &StatementKind<'_>, manner: Manner) -> Result<Templates, SourceCode>
    ensures { Answers (is.faults_by manner (statement_kind kind.now))
        (is.form_templates manner (statement_kind kind.now)) result }
{
    match kind {
        StatementKind::Plain(statement) => without_operand(*statement, manner.rvc),
        StatementKind::With(operation, _) => with_operand(*operation, None, manner),
        StatementKind::WithFunction(operation, function, _) => {
            with_operand(*operation, Some(*function), manner)
        }
        _ => Ok(ArrayVec::new()),
    }
}

/// The templates of a statement, or at its line the lowest code of its faults.
fn expanded_at(statement: &Statement<'_>, manner: Manner) -> Result<Templates, SourceFault>
    ensures { IsExpansion (is.faults_by manner (statement_kind (statement.now).kind))
        (is.form_templates manner (statement_kind (statement.now).kind)) (statement.now).line
        result }
{
    match expanded(&statement.kind, manner) {
        Ok(templates) => Ok(templates),
        Err(code) => Err(SourceFault::At {
            code,
            line: statement.line,
        }),
    }
}

/// The base instructions that stand for an instruction or a pseudo-instruction in a form, with the relocations of its open
/// operands; none for a label or a directive. A call has eight bytes, whatever its form.
///
/// # Errors
///
/// At the statement's line the fault with the lowest number: E10 for a scratch register that is x0 or the one that is
/// stored; E13 for an address where a constant has to stand; E14 for a constant out of its range, or in place of a target.
/// Where nothing else is wrong, E9 for a part of a value in a field that takes none, and for a parcel with registers or an
/// operand that it does not take. Never want of memory. A form has no fault of an expression, because whoever evaluates the
/// expression reports that.
pub fn expansion(statement: &Statement<'_>, form: Form) -> Result<Templates, SourceFault>
    ensures { IsExpansion
        (is.faults_by (is.manner_of form) (statement_kind (statement.now).kind))
        (is.form_templates (is.manner_of form) (statement_kind (statement.now).kind))
        (statement.now).line result }
{
    expanded_at(statement, manner_of(form))
}
