//! Statements that name a parcel, by a `c.` mnemonic.
//!
//! Such a statement is one parcel, whatever else stands for its instruction. So whoever writes it asks which form it
//! names; its template is the instruction that the form stands for. A jump and a branch name no form: their targets are
//! open, as those of `j` and `beqz`.

ghost use Rattle.std.specs.Prelude.{◌≡◌, ℕ, Bool, true, IfSome, Option};
ghost use Rattle.rv_isa.specs.declared.kind.Kind.{Kind as SpecKind};
ghost use Rattle.rv_parcel.specs.Mnemonics.{shape_of};
ghost use Rattle.rv_parcel.specs.Parcel.{IsLine};
ghost use Rattle.rv_statement_laws.specs.declared.mnemonic.Mnemonic.TheVariants as mnemonics;
ghost use Rattle.rv_statement.specs.declared.statement.Operation.TheVariants as operations;
ghost use Rattle.rv_statement.specs.declared.statement.Plain.TheVariants as plains;
ghost use Rattle.rv_statement_laws.specs.Statement.{Expression, Target};
ghost use Rattle.rv_statement.specs.View.{parcel_registers, plain_of, statement_kind, with_operand};
ghost use Rattle.rv_pseudo_laws.specs.Code as row;
ghost use Rattle.rv_pseudo.specs.Faults as faults;
ghost use Rattle.rv_pseudo.specs.Templates as is;

use crate::number::lower_part;
use crate::target::{branch, jump};
use crate::template::{Manner, Templates, Worth, constant, one, plain};
use arrayvec::ArrayVec;
use rv_compress::expanded;
use rv_fault::SourceCode;
use rv_isa::{BranchOperation, Reg};
use rv_parcel::{Compressed, OperandShape, ParcelOperation};
use rv_statement::{Operation, Plain, StatementKind};
use rv_statement_laws::Function;

// ---- forms

/// The form that a mnemonic is with registers alone, if it is one.
fn form_bare(operation: ParcelOperation, a: Reg, b: Reg) -> Option<Compressed>
    ensures is { (v : row.Constants) → row.named_form v (mnemonics.Parcel operation)
        (parcel_registers operation a b) ≡ result }
    ensures line { IfSome result IsLine }
{
    match operation.shape() {
        OperandShape::Registers | OperandShape::Address => operation.form(a, b, 0),
        OperandShape::Number | OperandShape::Target => None,
    }
}

/// The form that a mnemonic is with a number, if it is one.
fn form_beside(operation: ParcelOperation, a: Reg, b: Reg, number: i64) -> Option<Compressed>
    ensures is { result ≡ is.form_beside operation a b number }
    ensures line { IfSome result IsLine }
{
    match operation.shape() {
        OperandShape::Number | OperandShape::Address => operation.form(a, b, number),
        OperandShape::Registers | OperandShape::Target => None,
    }
}

/// The number of an operand, by its function and what its expression is worth.
fn number_told(function: Option<Function>, worth: Worth) -> Option<i64>
    ensures { (e : Expression) → result
        ≡ row.constant_number (λ t. faults.constant_in (faults.worth_of worth))
        (is.number_operand function e) }
{
    let Some(value) = constant(worth) else {
        return None;
    };
    match function {
        None => Some(value),
        Some(Function::Lo) => Some(lower_part(value)),
        Some(Function::Hi) | Some(Function::PcrelHi) | Some(Function::PcrelLo) => None,
    }
}

/// The form of a parcel that a statement without an expression names.
pub fn named_bare(statement: Plain) -> Option<Compressed>
    ensures is { (v : row.Constants) → is.named_of v (plain_of statement) ≡ result }
    ensures line { IfSome result IsLine }
{
    match statement {
        Plain::Parcel(operation, a, b) => form_bare(operation, a, b),
        _ => None,
    }
}

/// The form that a mnemonic is with an operand, if it is one.
fn form_told(operation: ParcelOperation, a: Reg, b: Reg, number: Option<i64>) -> Option<Compressed>
    ensures is { result ≡ is.form_told operation a b number }
    ensures line { IfSome result IsLine }
{
    match number {
        Some(number) => form_beside(operation, a, b, number),
        None => None,
    }
}

/// The form of a parcel that an operation with an operand names, by what its expression is worth.
pub fn named_with(
    operation: Operation,
    function: Option<Function>,
    worth: Worth,
) -> Option<Compressed>
    ensures is { (e : Expression) → is.named_of (λ t. faults.constant_in (faults.worth_of worth))
        (is.statement_with operation function e) ≡ result }
    ensures line { IfSome result IsLine }
{
    match operation {
        Operation::Parcel(operation, a, b) => {
            form_told(operation, a, b, number_told(function, worth))
        }
        _ => None,
    }
}

/// The form of a parcel that a statement names.
pub fn named(kind: &StatementKind<'_>, manner: Manner) -> Option<Compressed>
    ensures is { result ≡ is.named_of (is.constants_of manner) (statement_kind kind.now) }
    ensures line { IfSome result IsLine }
{
    match kind {
        StatementKind::Plain(statement) => named_bare(*statement),
        StatementKind::With(operation, _) => named_with(*operation, None, manner.worth),
        StatementKind::WithFunction(operation, function, _) => {
            named_with(*operation, Some(*function), manner.worth)
        }
        _ => None,
    }
}

// ---- templates

/// The template of a parcel without an expression, or that there is no row.
pub(crate) fn without_number(
    operation: ParcelOperation,
    a: Reg,
    b: Reg,
) -> Result<Templates, SourceCode>
    ensures { (rvc : Bool) → is.AnswersBare rvc (plain_of (plains.Parcel operation a b)) result }
{
    match form_bare(operation, a, b) {
        Some(form) => Ok(one(plain(expanded(form)))),
        None => Err(SourceCode::UnsupportedHere),
    }
}

/// The template of a parcel with a number.
pub(crate) fn with_number(operation: ParcelOperation, a: Reg, b: Reg, number: i64) -> Templates
    ensures { (reloc : Option SpecKind) →
        is.AreNumbered (operations.Parcel operation a b) number reloc result.items }
{
    match form_beside(operation, a, b, number) {
        Some(form) => one(plain(expanded(form))),
        None => ArrayVec::new(),
    }
}

/// The template of a parcel with a target that is open.
pub(crate) fn with_target(operation: ParcelOperation, a: Reg) -> Templates
    requires { faults.is_target (shape_of operation) ≡ true }
    ensures { (b : ℕ) (rvc : Bool) (bytes : ℕ) (e : Expression) →
        faults.takes_registers operation a b ≡ true →
        is.AreTemplates rvc bytes (with_operand (operations.Parcel operation a b) (Target e))
        result.items }
{
    match operation {
        ParcelOperation::J => jump(2, Reg::ZERO),
        ParcelOperation::Beqz => branch(2, BranchOperation::Beq, a, Reg::ZERO),
        ParcelOperation::Bnez => branch(2, BranchOperation::Bne, a, Reg::ZERO),
        _ => ArrayVec::new(),
    }
}
