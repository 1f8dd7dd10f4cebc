//! An expression by its first tokens: most have no operator, or one that a number or a symbol follows.
//!
//! These are read here without the loop and its stack.

ghost use Rattle.std.specs.Prelude.{◌≡◌, [], ◌∷◌, IfOk, IfErr};
ghost use Rattle.rv_expression_laws.specs.Expression.{Primary_node, Literal, follows};
ghost use Rattle.rv_expression_laws.specs.ExpressionAt.{Wants};
ghost use Rattle.rv_expression_laws.specs.declared.operator.UnaryOperator.TheVariants.{Negate};
ghost use Rattle.rv_expression_laws.specs.declared.operator.Frame.TheVariants.{Prefix, Infix};
ghost use Rattle.rv_lexer.specs.Cursor.{remaining};
ghost use Rattle.rv_lexer.specs.Token.{kind_of};
ghost use Rattle.rv_isa.specs.Registers.{is_register};
ghost use Rattle.rv_expression.specs.Nodes.{symbol_of, node_of, nodes_of};
ghost use Rattle.rv_expression.specs.Expr.{stack_of, ends_operand, after_operand, after_negative, after_pair, after_two, Reached, ReadOn, IsAtNext};

use crate::expr::Expr;
use crate::node::{Node, Nodes, Symbol};
use crate::pair::{Pair, SymbolPair};
use crate::reading::{Begin, Follow, Stage, begins, follows, read_on};
use rv_expression_laws::{BinaryOperator, Frame, UnaryOperator};
use rv_lexer::{Cursor, ReadError, TokenKind};
use std::alloc::{AllocError, Global};

/// An operator that waits for its operand.
#[tactic(auto, using(crate::proofs::ExprsLemmas::stack_push, crate::proofs::ExprsLemmas::stack_none))]
fn waiting(alloc: Global, frame: Frame) -> Result<Vec<Frame>, AllocError>
    ensures { IfOk result (λ frames. stack_of frames.items ≡ frame ∷ []) }
{
    let mut frames = Vec::new(alloc);
    frames.push(frame)?;
    Ok(frames)
}

/// One node.
fn one<'a>(alloc: Global, node: Node<'a>) -> Nodes<'a>
    ensures { nodes_of result ≡ node_of node.entry ∷ [] }
{
    Nodes {
        first: node,
        rest: Vec::new(alloc),
    }
}

/// Whether no expression goes on with a token, where no parenthesis is open.
#[inline(always)]
fn ends(kind: TokenKind<'_>) -> bool
    ensures { result ≡ ends_operand (follows (kind_of kind.entry)) }
{
    matches!(follows(kind), Follow::Nothing | Follow::Closing)
}

/// The expression that begins with a number.
#[inline(always)]
#[tactic(auto, using(crate::proofs::ExprsLemmas::stack_none))]
pub(crate) fn after_number<'a>(
    alloc: Global,
    cursor: &mut Cursor<'a>,
    number: u64,
) -> Result<Expr<'a>, ReadError>
    requires { Reached is_register (after_operand (Literal number)) (remaining cursor.old) }
    ensures reads { ReadOn is_register
        (after_operand (Literal number)) cursor.old cursor.new result }
    ensures next { IfErr result (λ e. IsAtNext e cursor.new) }
{
    if ends(cursor.next.kind) {
        return Ok(Expr::Number(number));
    }
    let nodes = one(alloc, Node::Number(number));
    read_on(alloc, cursor, Vec::new(alloc), Stage::Has(nodes))
}

/// The expression that begins with `-` and a number.
#[inline(always)]
fn after_negative<'a>(
    alloc: Global,
    cursor: &mut Cursor<'a>,
    number: u64,
) -> Result<Expr<'a>, ReadError>
    requires { Reached is_register (after_negative number) (remaining cursor.old) }
    ensures reads { ReadOn is_register (after_negative number) cursor.old cursor.new result }
    ensures next { IfErr result (λ e. IsAtNext e cursor.new) }
{
    if ends(cursor.next.kind) {
        return Ok(Expr::Negative(number));
    }
    let frames = waiting(alloc, Frame::Prefix(UnaryOperator::Negate))?;
    let nodes = one(alloc, Node::Number(number));
    read_on(alloc, cursor, frames, Stage::Has(nodes))
}

/// The expression that begins with `-`.
pub(crate) fn after_minus<'a>(alloc: Global, cursor: &mut Cursor<'a>) -> Result<Expr<'a>, ReadError>
    requires { Reached is_register (Wants (Prefix Negate ∷ []) []) (remaining cursor.old) }
    ensures reads { ReadOn is_register
        (Wants (Prefix Negate ∷ []) []) cursor.old cursor.new result }
    ensures next { IfErr result (λ e. IsAtNext e cursor.new) }
{
    if let TokenKind::Number(_, number) = cursor.next.kind {
        cursor.advance();
        return after_negative(alloc, cursor, number);
    }
    let frames = waiting(alloc, Frame::Prefix(UnaryOperator::Negate))?;
    read_on(alloc, cursor, frames, Stage::Wants(None))
}

/// The expression that begins with a symbol, an operator and a number.
#[inline(always)]
fn after_pair<'a>(
    alloc: Global,
    cursor: &mut Cursor<'a>,
    pair: Pair<'a>,
) -> Result<Expr<'a>, ReadError>
    requires { Reached is_register (after_pair pair) (remaining cursor.old) }
    ensures reads { ReadOn is_register (after_pair pair.entry) cursor.old cursor.new result }
    ensures next { IfErr result (λ e. IsAtNext e cursor.new) }
{
    if ends(cursor.next.kind) {
        return Ok(Expr::of_pair(alloc, pair)?);
    }
    let frames = waiting(alloc, Frame::Infix(pair.operator))?;
    let mut nodes = one(alloc, Node::Symbol(pair.symbol));
    nodes.push(Node::Number(pair.number))?;
    read_on(alloc, cursor, frames, Stage::Has(nodes))
}

/// The expression that begins with a symbol, an operator and another symbol.
fn after_two<'a>(
    alloc: Global,
    cursor: &mut Cursor<'a>,
    pair: SymbolPair<'a>,
) -> Result<Expr<'a>, ReadError>
    requires { Reached is_register (after_two pair) (remaining cursor.old) }
    ensures reads { ReadOn is_register (after_two pair.entry) cursor.old cursor.new result }
    ensures next { IfErr result (λ e. IsAtNext e cursor.new) }
{
    if ends(cursor.next.kind) {
        return Ok(Expr::of_two(alloc, pair)?);
    }
    let frames = waiting(alloc, Frame::Infix(pair.operator))?;
    let mut nodes = one(alloc, Node::Symbol(pair.left));
    nodes.push(Node::Symbol(pair.right))?;
    read_on(alloc, cursor, frames, Stage::Has(nodes))
}

/// The expression that begins with a symbol and an operator.
fn after_operator<'a>(
    alloc: Global,
    cursor: &mut Cursor<'a>,
    symbol: Symbol<'a>,
    operator: BinaryOperator,
) -> Result<Expr<'a>, ReadError>
    requires { Reached is_register
        (Wants (Infix operator ∷ []) (Primary_node (symbol_of symbol) ∷ [])) (remaining cursor.old) }
    ensures reads { ReadOn is_register
        (Wants (Infix operator ∷ [])
        (Primary_node (symbol_of symbol.entry) ∷ [])) cursor.old cursor.new result }
    ensures next { IfErr result (λ e. IsAtNext e cursor.new) }
{
    match begins(cursor.next.kind) {
        Begin::Number(number) => {
            cursor.advance();
            let pair = Pair {
                symbol,
                operator,
                number,
            };
            after_pair(alloc, cursor, pair)
        }
        Begin::Symbol(other) => {
            cursor.advance();
            let pair = SymbolPair {
                left: symbol,
                operator,
                right: other,
            };
            after_two(alloc, cursor, pair)
        }
        _ => {
            let frames = waiting(alloc, Frame::Infix(operator))?;
            let nodes = one(alloc, Node::Symbol(symbol));
            read_on(alloc, cursor, frames, Stage::Wants(Some(nodes)))
        }
    }
}

/// The expression that begins with a symbol.
#[inline(always)]
#[tactic(auto, using(crate::proofs::ExprsLemmas::stack_none))]
pub(crate) fn after_symbol<'a>(
    alloc: Global,
    cursor: &mut Cursor<'a>,
    symbol: Symbol<'a>,
) -> Result<Expr<'a>, ReadError>
    requires { Reached is_register (after_operand (symbol_of symbol)) (remaining cursor.old) }
    ensures reads { ReadOn is_register
        (after_operand (symbol_of symbol.entry)) cursor.old cursor.new result }
    ensures next { IfErr result (λ e. IsAtNext e cursor.new) }
{
    if ends(cursor.next.kind) {
        return Ok(Expr::of_symbol(symbol));
    }
    match follows(cursor.next.kind) {
        Follow::Operator(operator) => {
            cursor.advance();
            after_operator(alloc, cursor, symbol, operator)
        }
        _ => {
            let nodes = one(alloc, Node::Symbol(symbol));
            read_on(alloc, cursor, Vec::new(alloc), Stage::Has(nodes))
        }
    }
}
