//! The expressions of a statement, and functions of them, at the front of a cursor's tokens.

ghost use Rattle.std.specs.Prelude.{◌≡◌, ◌∷◌, [], false, None, IfOk};
ghost use Rattle.rv_lexer.specs.Cursor.{remaining, syntax_error_of, Answers};
ghost use Rattle.rv_expression.specs.Expr.{tree_of_expr};
ghost use Rattle.rv_statement_laws.specs.declared.pseudo.Function.TheVariants.{PcrelHi};
ghost use Rattle.rv_statement_laws.specs.Statement.{Applied, Target};
ghost use Rattle.rv_parse_laws.specs.Faults.{may_call, wrong_function};
ghost use Rattle.rv_lexer.specs.Token.{token_of};
ghost use Rattle.rv_parse.specs.View.{operand_of, TellsNumbers};
ghost use Rattle.rv_parse_laws.specs.Syntax.{A_callee, is_refused_by, targets, valued};
ghost use Rattle.rv_parse_laws.specs.Parsing.{operand_at, value_at, value_operand_at, label_at, plt_at, argument_at, target_behind, enclosed_at, called_at, applied_at};
ghost use Rattle.rv_parse.specs.Left.{Gives};

use crate::slot;
use rv_expression::{Cursor, Expr, ReadError, SourceCode, SyntaxError, Token};
use rv_parse_words::fault::{self, Slot};
use rv_parse_words::{Role, kinds};
use rv_statement_laws::Function;
use std::alloc::Global;

/// An expression.
#[tactic(auto, using(crate::proofs::TargetsLemmas::read_numbers))]
fn expression<'a>(alloc: Global, cursor: &mut Cursor<'a>) -> Result<Expr<'a>, ReadError>
    ensures read { Answers (λ e. (tree_of_expr e, remaining cursor.new)) result
        (value_at (remaining cursor.old)) }
    ensures number { IfOk result (λ e. TellsNumbers e) }
{
    rv_expression::expression(alloc, cursor)
}

/// An expression where no function of one may stand; a number alone as a target is refused at its first token.
#[tactic(auto, unfolding(rv_lexer::specs::Cursor::remaining))]
pub fn value<'a>(alloc: Global, cursor: &mut Cursor<'a>, role: Role) -> Result<Expr<'a>, ReadError>
    requires { may_call role ≡ false }
    ensures { Answers (λ e. (valued role (tree_of_expr e), remaining cursor.new)) result
        (value_operand_at role (remaining cursor.old)) }
{
    let first = cursor.next;
    let value = expression(alloc, cursor)?;
    if fault::targets(role) && value.is_number() {
        return Err(ReadError::At(SyntaxError::at(first, SourceCode::UnsupportedHere)));
    }
    Ok(value)
}

/// A symbol, `@` and `plt`.
fn linked<'a>(cursor: &mut Cursor<'a>) -> Result<Expr<'a>, SyntaxError>
    ensures { Gives (λ e. (Target (tree_of_expr e) ∷ [], remaining cursor.new)) result
        (plt_at (remaining cursor.old)) }
{
    let symbol = label(cursor)?;
    slot::at_sign(cursor)?;
    slot::plt(cursor)?;
    Ok(symbol)
}

/// What a call calls: a target, or a symbol and `@plt`.
pub fn callee<'a>(alloc: Global, cursor: &mut Cursor<'a>) -> Result<Expr<'a>, ReadError>
    ensures { Answers (λ e. (Target (tree_of_expr e) ∷ [], remaining cursor.new)) result
        (operand_at A_callee (remaining cursor.old)) }
{
    if slot::begins_plt(cursor) {
        return Ok(linked(cursor)?);
    }
    value(alloc, cursor, Role::Target)
}

/// A value of an instruction: an expression, or a function of one.
#[derive(Drop)]
pub struct Argument<'a> {
    pub function: Option<Function>,
    pub expression: Expr<'a>,
}

impl Argument<'_> {
    /// It is a target: no function, and no `(` comes next.
    pub fn is_target(&self, cursor: &Cursor<'_>) -> bool
        ensures { result ≡ target_behind (operand_of self.now) (remaining cursor.now) }
    {
        match self.function {
            Some(_) => false,
            None => !slot::begins_opening(cursor),
        }
    }
}

/// A label.
#[tactic(auto, using(crate::proofs::TokensLemmas::label_no_last), unfolding(rv_lexer::specs::Cursor::remaining))]
fn label<'a>(cursor: &mut Cursor<'a>) -> Result<Expr<'a>, SyntaxError>
    ensures { Gives (λ e. (tree_of_expr e, remaining cursor.new)) result (label_at (remaining cursor.old)) }
{
    match kinds::label_named(cursor.next.kind) {
        Some(label) => {
            cursor.advance();
            Ok(label)
        }
        None => Err(cursor.wrong(fault::at_symbol(cursor.next.kind))),
    }
}

/// The argument of a function: a label, or an expression.
fn argument_of<'a>(
    alloc: Global,
    cursor: &mut Cursor<'a>,
    function: Function,
) -> Result<Expr<'a>, ReadError>
    ensures read { Answers (λ e. (tree_of_expr e, remaining cursor.new)) result
        (argument_at function (remaining cursor.old)) }
    ensures number { IfOk result (λ e. function ≡ PcrelHi → TellsNumbers e) }
{
    match function {
        Function::PcrelLo => Ok(label(cursor)?),
        Function::PcrelHi => expression(alloc, cursor),
        Function::Hi => expression(alloc, cursor),
        Function::Lo => expression(alloc, cursor),
    }
}

/// An argument in parentheses.
fn enclosed<'a>(
    alloc: Global,
    cursor: &mut Cursor<'a>,
    function: Function,
) -> Result<Expr<'a>, ReadError>
    ensures read { Answers (λ e. (tree_of_expr e, remaining cursor.new)) result
        (enclosed_at function (remaining cursor.old)) }
    ensures number { IfOk result (λ e. function ≡ PcrelHi → TellsNumbers e) }
{
    slot::opening(cursor, Slot::ANY_REGISTER)?;
    let argument = argument_of(alloc, cursor, function)?;
    slot::closing(cursor)?;
    Ok(argument)
}

/// A function of a value that is spelled right, and is refused: `%pcrel_hi` of a number alone.
fn is_refused(function: Function, argument: &Expr<'_>) -> bool
    requires { function ≡ PcrelHi → TellsNumbers argument.now }
    ensures { result ≡ is_refused_by function (tree_of_expr argument.now) }
{
    match function {
        Function::PcrelHi => argument.is_number(),
        Function::PcrelLo | Function::Hi | Function::Lo => false,
    }
}

/// What is after the word of a function; what is refused is so at the `%`.
fn called<'a>(
    alloc: Global,
    cursor: &mut Cursor<'a>,
    function: Function,
    percent: Token<'a>,
) -> Result<Expr<'a>, ReadError>
    ensures { Answers (λ e. (Applied function (tree_of_expr e), remaining cursor.new)) result
        (called_at function (token_of percent.entry) (remaining cursor.old)) }
{
    let argument = enclosed(alloc, cursor, function)?;
    if is_refused(function, &argument) {
        return Err(ReadError::At(SyntaxError::at(percent, SourceCode::UnsupportedHere)));
    }
    Ok(argument)
}

/// A word that is no function that may stand after this `%`.
#[tactic(auto, unfolding(rv_lexer::specs::Cursor::remaining))]
fn wrong_function(cursor: &Cursor<'_>, percent: Token<'_>) -> SyntaxError
    ensures { syntax_error_of result
        ≡ wrong_function (token_of percent.entry) (token_of cursor.now.next) }
{
    if kinds::is_name(cursor.next.kind) {
        SyntaxError::at(percent, SourceCode::BadOperands)
    } else {
        cursor.wrong(fault::at_other(cursor.next.kind))
    }
}

/// A function of an expression, after its `%`.
#[tactic(auto, using(crate::proofs::TokensLemmas::function_no_last), unfolding(rv_lexer::specs::Cursor::remaining))]
fn applied<'a>(
    alloc: Global,
    cursor: &mut Cursor<'a>,
    role: Role,
    percent: Token<'a>,
) -> Result<Argument<'a>, ReadError>
    ensures read { Answers (λ a. (operand_of a, remaining cursor.new)) result
        (applied_at role (token_of percent.entry) (remaining cursor.old)) }
    ensures function { IfOk result (λ a. (a.function ≡ None) → ⊥) }
{
    match kinds::function_in(role, cursor.next.kind) {
        Some(function) => {
            cursor.advance();
            let expression = called(alloc, cursor, function, percent)?;
            Ok(Argument {
                function: Some(function),
                expression,
            })
        }
        None => Err(ReadError::At(wrong_function(cursor, percent))),
    }
}

/// An expression, or a function of one, of an instruction that goes nowhere by it.
#[tactic(auto, using(crate::proofs::TokensLemmas::percent_no_last), unfolding(rv_lexer::specs::Cursor::remaining))]
pub fn value_or_function<'a>(
    alloc: Global,
    cursor: &mut Cursor<'a>,
    role: Role,
) -> Result<Argument<'a>, ReadError>
    requires { targets role ≡ false }
    ensures read { Answers (λ a. (operand_of a, remaining cursor.new)) result
        (value_operand_at role (remaining cursor.old)) }
    ensures number { IfOk result (λ a. a.function ≡ None → TellsNumbers a.expression) }
{
    let first = cursor.next;
    if fault::may_call(role) && kinds::is_percent(first.kind) {
        cursor.advance();
        return applied(alloc, cursor, role, first);
    }
    let expression = expression(alloc, cursor)?;
    Ok(Argument {
        function: None,
        expression,
    })
}
