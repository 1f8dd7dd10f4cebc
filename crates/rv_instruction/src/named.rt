//! A statement that names a parcel by a `c.` mnemonic: the form that it names is its code, compressed code or not.
//!
//! Source: RISC-V Unprivileged ISA 20191213, chapter 16.

ghost use Rattle.std.specs.Prelude.{◌≡◌, IfSome};
ghost use Rattle.rv_parcel.specs.Parcel.{IsLine};
ghost use Rattle.rv_expression.specs.Expr.{tree_of_expr};
ghost use Rattle.rv_statement.specs.View.{statement_kind};
ghost use Rattle.rv_pseudo.specs.Faults.{worth_of, constant_in};
ghost use Rattle.rv_source_laws.specs.Compressed as laws;
ghost use Rattle.rv_source_laws.specs.Lines.{form_in};
ghost use Rattle.rv_assemble_laws.specs.Coded.{constants};
ghost use Rattle.rv_instruction.specs.Scoped.{values_at, named_at, AtNext};

use crate::worth::worth;
use rv_expression::Expr;
use rv_parcel::Compressed;
use rv_pseudo::{Manner, Worth, named};
use rv_statement::{Operation, Plain, Statement, StatementKind};
use rv_unit::{Scope, SectionOffset};

/// Whether a statement names a parcel.
pub(crate) fn names_parcel(kind: &StatementKind<'_>) -> bool
    ensures { result ≡ laws.names_parcel (statement_kind kind.now) }
{
    matches!(
        kind,
        StatementKind::Plain(Plain::Parcel(..))
            | StatementKind::With(Operation::Parcel(..), _)
            | StatementKind::WithFunction(Operation::Parcel(..), _, _)
    )
}

/// What an expression of the statement that is next, at a line, is worth as a number.
fn number_worth<'a>(
    expression: &Expr<'a>,
    scope: &Scope<'_, 'a>,
    place: SectionOffset,
    line: u32,
) -> Worth
    ensures { AtNext scope.now (λ index. constant_in (worth_of result)
        ≡ constants (values_at scope.now index place) (tree_of_expr expression.now)) }
{
    let value = scope.value(place, expression, line);
    worth(scope, None, &value)
}

/// What the expression of the statement that is next is worth; where it has none, 0.
fn expression_worth<'a>(
    statement: &Statement<'a>,
    scope: &Scope<'_, 'a>,
    place: SectionOffset,
) -> Worth
    ensures { AtNext scope.now (λ index.
        named_at scope.now index place (statement_kind (statement.now).kind)
        ≡ form_in (λ e. constant_in (worth_of result)) (statement_kind (statement.now).kind)) }
{
    match &statement.kind {
        StatementKind::With(_, expression) => {
            number_worth(expression, scope, place, statement.line)
        }
        StatementKind::WithFunction(_, _, expression) => {
            number_worth(expression, scope, place, statement.line)
        }
        _ => Worth::Number(0),
    }
}

/// The form of a parcel that the statement that is next names, if it names one.
pub(crate) fn named_form<'a>(
    statement: &Statement<'a>,
    scope: &Scope<'_, 'a>,
    place: SectionOffset,
) -> Option<Compressed>
    ensures line { IfSome result (λ form. IsLine form) }
    ensures is { AtNext scope.now (λ index.
        result ≡ named_at scope.now index place (statement_kind (statement.now).kind)) }
{
    if !names_parcel(&statement.kind) {
        return None;
    }
    let manner = Manner {
        worth: expression_worth(statement, scope, place),
        bytes: 2,
        rvc: false,
    };
    named(&statement.kind, manner)
}
