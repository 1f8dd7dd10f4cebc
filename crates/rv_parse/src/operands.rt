//! Operands in shapes that several mnemonics share, up to the statement's end.

ghost use Rattle.std.specs.Prelude.{◌≡◌, ◌∷◌, [], false};
ghost use Rattle.rv_lexer.specs.Cursor.{remaining, Answers};
ghost use Rattle.rv_expression.specs.Expr.{tree_of_expr};
ghost use Rattle.rv_statement_laws.specs.Statement.{Register, Value};
ghost use Rattle.rv_statement.specs.View.{statement_kind, with_expression, with_operand, operand_in};
ghost use Rattle.rv_expression_laws.specs.Expression.{Tree};
ghost use Rattle.rv_parse_laws.specs.Faults.{may_call};
ghost use Rattle.rv_parse.specs.View.{operand_of};
ghost use Rattle.rv_parse_laws.specs.Syntax.{A_register, A_value, Stops, and_then, last, valued, targets};
ghost use Rattle.rv_parse_laws.specs.Parsing.{operands_at};
ghost use Rattle.rv_parse.specs.Left.{Gives};

use crate::slot;
use crate::value::{self, Argument};
use rv_expression::{Cursor, Expr, ReadError, SyntaxError};
use rv_isa::Reg;
use rv_parse_words::Role;
use rv_parse_words::fault::Slot;
use rv_statement::{Operation, StatementKind};
use std::alloc::Global;

/// An instruction with its expression.
pub fn with<'a>(operation: Operation, expression: Expr<'a>) -> StatementKind<'a>
    ensures { statement_kind result ≡ with_expression operation (tree_of_expr expression.entry) }
{
    StatementKind::With(operation, expression)
}

/// None: the statement's end.
#[tactic(auto, unfolding(rv_parse_laws::specs::Parsing::operands_at))]
pub fn none(cursor: &Cursor<'_>) -> Result<(), SyntaxError>
    ensures { Gives (λ _. ([], remaining cursor.now)) result
        (operands_at (Stops A_register) (remaining cursor.now)) }
{
    slot::end(cursor, Slot::ANY_REGISTER)
}

/// The last register.
#[tactic(auto, unfolding(rv_parse_laws::specs::Parsing::operands_at))]
pub fn last_register(cursor: &mut Cursor<'_>) -> Result<Reg, SyntaxError>
    ensures { Gives (λ r. (Register r ∷ [], remaining cursor.new)) result
        (operands_at (last A_register) (remaining cursor.old)) }
{
    let register = slot::register(cursor)?;
    slot::end(cursor, Slot::ANY_REGISTER)?;
    Ok(register)
}

/// `rd, rs`
#[tactic(auto, unfolding(rv_parse_laws::specs::Parsing::operands_at))]
pub fn two_registers(cursor: &mut Cursor<'_>) -> Result<(Reg, Reg), SyntaxError>
    ensures { Gives (λ r. (Register r.0 ∷ Register r.1 ∷ [], remaining cursor.new)) result
        (operands_at (and_then A_register (last A_register)) (remaining cursor.old)) }
{
    let rd = slot::register(cursor)?;
    slot::comma(cursor, Slot::ANY_REGISTER)?;
    Ok((rd, last_register(cursor)?))
}

/// `rd, rs1, rs2`
#[tactic(auto, unfolding(rv_parse_laws::specs::Parsing::operands_at))]
pub fn three_registers(cursor: &mut Cursor<'_>) -> Result<(Reg, Reg, Reg), SyntaxError>
    ensures { Gives
        (λ r. (Register r.0 ∷ Register r.1 ∷ Register r.2 ∷ [], remaining cursor.new)) result
        (operands_at (and_then A_register (and_then A_register (last A_register)))
        (remaining cursor.old)) }
{
    let rd = slot::register(cursor)?;
    slot::comma(cursor, Slot::ANY_REGISTER)?;
    let (rs1, rs2) = two_registers(cursor)?;
    Ok((rd, rs1, rs2))
}

/// An instruction with a value that is no target.
pub fn given<'a>(operation: Operation, argument: Argument<'a>) -> StatementKind<'a>
    requires { (e : Tree) → operand_in operation e ≡ Value e }
    ensures { statement_kind result ≡ with_operand operation (operand_of argument.entry) }
{
    match argument.function {
        Some(function) => StatementKind::WithFunction(operation, function, argument.expression),
        None => StatementKind::With(operation, argument.expression),
    }
}

/// A value alone.
#[tactic(auto, unfolding(rv_parse_laws::specs::Parsing::operands_at))]
pub fn one_argument<'a>(
    alloc: Global,
    cursor: &mut Cursor<'a>,
    role: Role,
) -> Result<Argument<'a>, ReadError>
    requires { targets role ≡ false }
    ensures { Answers (λ a. (operand_of a ∷ [], remaining cursor.new)) result
        (operands_at (last (A_value role)) (remaining cursor.old)) }
{
    let value = value::value_or_function(alloc, cursor, role)?;
    slot::end(cursor, Slot::Value(role))?;
    Ok(value)
}

/// A register and a value.
#[tactic(auto, unfolding(rv_parse_laws::specs::Parsing::operands_at))]
pub fn register_and_argument<'a>(
    alloc: Global,
    cursor: &mut Cursor<'a>,
    role: Role,
) -> Result<(Reg, Argument<'a>), ReadError>
    requires { targets role ≡ false }
    ensures { Answers (λ r. (Register r.0 ∷ operand_of r.1 ∷ [], remaining cursor.new)) result
        (operands_at (and_then A_register (last (A_value role))) (remaining cursor.old)) }
{
    let register = slot::register(cursor)?;
    slot::comma(cursor, Slot::ANY_REGISTER)?;
    Ok((register, one_argument(alloc, cursor, role)?))
}

/// Two registers and a value.
#[tactic(auto, unfolding(rv_parse_laws::specs::Parsing::operands_at))]
pub fn registers_and_argument<'a>(
    alloc: Global,
    cursor: &mut Cursor<'a>,
    role: Role,
) -> Result<(Reg, Reg, Argument<'a>), ReadError>
    requires { targets role ≡ false }
    ensures { Answers
        (λ r. (Register r.0 ∷ Register r.1 ∷ operand_of r.2 ∷ [], remaining cursor.new)) result
        (operands_at (and_then A_register (and_then A_register (last (A_value role))))
        (remaining cursor.old)) }
{
    let first = slot::register(cursor)?;
    slot::comma(cursor, Slot::ANY_REGISTER)?;
    let (second, value) = register_and_argument(alloc, cursor, role)?;
    Ok((first, second, value))
}

/// An expression alone.
#[tactic(auto, unfolding(rv_parse_laws::specs::Parsing::operands_at))]
pub fn one_value<'a>(
    alloc: Global,
    cursor: &mut Cursor<'a>,
    role: Role,
) -> Result<Expr<'a>, ReadError>
    requires { may_call role ≡ false }
    ensures { Answers (λ e. (valued role (tree_of_expr e) ∷ [], remaining cursor.new)) result
        (operands_at (last (A_value role)) (remaining cursor.old)) }
{
    let value = value::value(alloc, cursor, role)?;
    slot::end(cursor, Slot::Value(role))?;
    Ok(value)
}

/// A register and an expression.
#[tactic(auto, unfolding(rv_parse_laws::specs::Parsing::operands_at))]
pub fn register_and_value<'a>(
    alloc: Global,
    cursor: &mut Cursor<'a>,
    role: Role,
) -> Result<(Reg, Expr<'a>), ReadError>
    requires { may_call role ≡ false }
    ensures { Answers
        (λ r. (Register r.0 ∷ valued role (tree_of_expr r.1) ∷ [], remaining cursor.new)) result
        (operands_at (and_then A_register (last (A_value role))) (remaining cursor.old)) }
{
    let register = slot::register(cursor)?;
    slot::comma(cursor, Slot::ANY_REGISTER)?;
    Ok((register, one_value(alloc, cursor, role)?))
}

/// Two registers and an expression.
#[tactic(auto, unfolding(rv_parse_laws::specs::Parsing::operands_at))]
pub fn registers_and_value<'a>(
    alloc: Global,
    cursor: &mut Cursor<'a>,
    role: Role,
) -> Result<(Reg, Reg, Expr<'a>), ReadError>
    requires { may_call role ≡ false }
    ensures { Answers
        (λ r. (Register r.0 ∷ Register r.1 ∷ valued role (tree_of_expr r.2) ∷ [], remaining cursor.new))
        result
        (operands_at (and_then A_register (and_then A_register (last (A_value role))))
        (remaining cursor.old)) }
{
    let first = slot::register(cursor)?;
    slot::comma(cursor, Slot::ANY_REGISTER)?;
    let (second, value) = register_and_value(alloc, cursor, role)?;
    Ok((first, second, value))
}
