//! How expressions are read.
//!
//! What waits for an operand, parentheses and operators, stands on a stack of its own and not in calls: so the nesting
//! is counted and its limit is one test, and no source can use up the stack of the program. Nodes are put out in
//! postfix form, which the evaluation goes over once. Each step looks at one token, so the first token that no step
//! takes is the fault.

ghost use Rattle.std.specs.Prelude.{◌≡◌, ℕ, Bool, List, [], ◌∷◌, ◌++◌, IfOk, IfErr};
ghost use Rattle.rv_expression_laws.specs.Expression.{Tree, ReadsTree, postfix, begins, follows, level_of, named_operand, punct_begins};
ghost use Rattle.rv_expression_laws.specs.ExpressionAt as reading;
ghost use Rattle.rv_expression_laws.specs.ExpressionFault.{unclosed};
ghost use Rattle.rv_expression_laws.specs.Lexing.{Token};
ghost use Rattle.rv_expression_laws.specs.declared.operator.Frame.TheVariants.{Infix};
ghost use Rattle.rv_fault.specs.SourceFault.{source_fault_number};
ghost use Rattle.rv_lexer.specs.Token.{kind_of};
ghost use Rattle.rv_lexer.specs.Left.{tokens_left};
ghost use Rattle.rv_lexer.specs.Cursor.{remaining, Answers};
ghost use Rattle.rv_isa.specs.Registers.{is_register};
ghost use Rattle.rv_expression.specs.Nodes.{node_of, nodes_of, some_nodes};
ghost use Rattle.rv_expression.specs.Expr.{begin_of, follow_of, stack_of, stage_of, Steps, Reached, ReadOn, IsAtNext, expr_of, NamesFault, NoReading};

use crate::expr::Expr;
use crate::front::{after_minus, after_number, after_symbol};
use crate::node::{Node, Nodes, Symbol};
use rv_expression_laws::{BinaryOperator, Frame, Punct, UnaryOperator};
use rv_fault::{SourceCode, SourceFault};
use rv_isa::reg_named;
use rv_lexer::{Cursor, LONGEST_NAME, Lexer, ReadError, TokenKind};
use std::alloc::{AllocError, AllocFailed, Global};

/// The most parentheses and operators of one operand in one another.
const DEEPEST: usize = 64;

/// What is read so far, after what waits for an operand.
#[derive(Drop)]
pub(crate) enum Stage<'a> {
    /// An operand comes next.
    Wants(Option<Nodes<'a>>),
    /// An operand came last.
    Has(Nodes<'a>),
}

/// What a token makes of a stage.
#[derive(Drop)]
pub(crate) enum Step<'a> {
    /// The token is taken.
    Goes(Stage<'a>),
    /// The expression ends before the token.
    Ends(Nodes<'a>),
}

/// Why a token is not taken.
#[derive(Drop)]
pub(crate) enum Stop {
    Fault(SourceCode),
    OutOfMemory,
}

impl From<AllocError> for Stop {
    ghost use Rattle.rv_expression.specs.declared.reading.Stop.TheVariants.{OutOfMemory};

    ghost from_gives = { λ _ e. e ≡ OutOfMemory };

    fn from(_error: AllocError) -> Self {
        Stop::OutOfMemory
    }
}

impl<T: Drop> From<AllocFailed<T>> for Stop {
    ghost use Rattle.rv_expression.specs.declared.reading.Stop.TheVariants.{OutOfMemory};

    ghost from_gives = { λ _ e. e ≡ OutOfMemory };

    fn from(_error: AllocFailed<T>) -> Self {
        Stop::OutOfMemory
    }
}

/// What a token is where an operand is wanted.
#[derive(Clone, Copy, Drop)]
pub(crate) enum Begin<'a> {
    Number(u64),
    Symbol(Symbol<'a>),
    Prefix(UnaryOperator),
    Opening,
    NoOperand(SourceCode),
}

/// What a token is after an operand.
#[derive(Clone, Copy, Drop)]
pub(crate) enum Follow {
    Operator(BinaryOperator),
    Closing,
    Comparison,
    Nothing,
}

/// Whether the name spells a register.
fn is_register(name: &[u8]) -> bool
    ensures { result ≡ is_register name.now }
{
    reg_named(name).is_some()
}

/// What a name is where an operand is wanted.
fn named_operand(name: &[u8]) -> Begin<'_>
    ensures { begin_of result ≡ named_operand is_register name.now }
{
    if is_register(name) {
        Begin::NoOperand(SourceCode::BadOperands)
    } else if name == b".".as_slice() {
        Begin::Symbol(Symbol::Here)
    } else if name.len() <= LONGEST_NAME {
        Begin::Symbol(Symbol::Name(name))
    } else {
        Begin::NoOperand(SourceCode::Limit)
    }
}

/// What punctuation is where an operand is wanted.
fn punct_begins<'a>(punct: Punct) -> Begin<'a>
    ensures { begin_of result ≡ punct_begins punct }
{
    match punct {
        Punct::Minus => Begin::Prefix(UnaryOperator::Negate),
        Punct::Tilde => Begin::Prefix(UnaryOperator::Complement),
        Punct::Plus => Begin::Prefix(UnaryOperator::Keep),
        Punct::Open => Begin::Opening,
        Punct::DoubleSlash => Begin::NoOperand(SourceCode::UnsupportedHere),
        _ => Begin::NoOperand(SourceCode::BadOperands),
    }
}

/// What a token is where an operand is wanted.
#[inline(always)]
pub(crate) fn begins(kind: TokenKind<'_>) -> Begin<'_>
    ensures { begin_of result ≡ begins is_register (kind_of kind.entry) }
{
    match kind {
        TokenKind::Number(_, number) => Begin::Number(number),
        TokenKind::Character(byte) => Begin::Number(u64::from(byte)),
        TokenKind::Name(name) => named_operand(name),
        TokenKind::Reference(reference) => Begin::Symbol(Symbol::Reference(reference)),
        TokenKind::Punct(punct) => punct_begins(punct),
        TokenKind::Text(_) => Begin::NoOperand(SourceCode::UnsupportedHere),
        TokenKind::BadByte => Begin::NoOperand(SourceCode::BadByte),
        TokenKind::BadToken | TokenKind::BadWord(_) => Begin::NoOperand(SourceCode::BadToken),
        TokenKind::Newline | TokenKind::End => Begin::NoOperand(SourceCode::BadOperands),
    }
}

/// What a token is after an operand.
#[inline(always)]
pub(crate) fn follows(kind: TokenKind<'_>) -> Follow
    ensures { follow_of result ≡ follows (kind_of kind.entry) }
{
    let TokenKind::Punct(punct) = kind else {
        return Follow::Nothing;
    };
    match punct {
        Punct::Star => Follow::Operator(BinaryOperator::Multiply),
        Punct::Slash => Follow::Operator(BinaryOperator::Divide),
        Punct::Percent => Follow::Operator(BinaryOperator::Remainder),
        Punct::ShiftLeft => Follow::Operator(BinaryOperator::ShiftLeft),
        Punct::ShiftRight => Follow::Operator(BinaryOperator::ShiftRight),
        Punct::Bar => Follow::Operator(BinaryOperator::Or),
        Punct::Ampersand => Follow::Operator(BinaryOperator::And),
        Punct::Caret => Follow::Operator(BinaryOperator::ExclusiveOr),
        Punct::Plus => Follow::Operator(BinaryOperator::Add),
        Punct::Minus => Follow::Operator(BinaryOperator::Subtract),
        Punct::Close => Follow::Closing,
        Punct::Equal
        | Punct::NotEqual
        | Punct::LessGreater
        | Punct::Less
        | Punct::Greater
        | Punct::LessEqual
        | Punct::GreaterEqual => Follow::Comparison,
        _ => Follow::Nothing,
    }
}

/// The code of a token that stands where an open parenthesis wants its other.
fn unclosed(kind: TokenKind<'_>) -> SourceCode
    ensures { source_fault_number result ≡ unclosed (kind_of kind.entry) }
{
    match kind {
        TokenKind::BadByte => SourceCode::BadByte,
        TokenKind::BadToken | TokenKind::BadWord(_) => SourceCode::BadToken,
        TokenKind::Punct(Punct::DoubleSlash) => SourceCode::UnsupportedHere,
        _ => SourceCode::BadOperands,
    }
}

/// How tight an operator binds.
fn level_of(operator: BinaryOperator) -> u8
    ensures { result ≡ level_of operator }
{
    match operator {
        BinaryOperator::Multiply
        | BinaryOperator::Divide
        | BinaryOperator::Remainder
        | BinaryOperator::ShiftLeft
        | BinaryOperator::ShiftRight => 2,
        BinaryOperator::Or | BinaryOperator::And | BinaryOperator::ExclusiveOr => 1,
        BinaryOperator::Add | BinaryOperator::Subtract => 0,
    }
}

/// Whether an operator takes the operand after it before an operator of this level does.
fn binds(level: u8, frame: Frame) -> bool
    ensures { result ≡ reading.binds level frame }
{
    match frame {
        Frame::Parenthesis => false,
        Frame::Prefix(_) => true,
        Frame::Infix(operator) => level <= level_of(operator),
    }
}

/// A parenthesis, or an operator of one operand.
fn nests(frame: Frame) -> bool
    ensures { result ≡ reading.nests frame }
{
    !matches!(frame, Frame::Infix(_))
}

/// How many parentheses and operators of one operand are open.
#[tactic(auto, using(crate::proofs::ExprsLemmas::depth_count))]
fn depth(frames: &[Frame]) -> usize
    ensures { result ≡ reading.depth (stack_of frames.now) }
{
    frames.iter().filter(|frame| nests(**frame)).count()
}

/// The operators that take the operand after them before one of this level does.
#[tactic(auto, using(crate::proofs::ExprsLemmas::stack_push, crate::proofs::ExprsLemmas::stack_none))]
fn settle<'a>(frames: &mut Vec<Frame>, nodes: &mut Nodes<'a>, level: u8) -> Result<(), AllocError>
    ensures { IfOk result
        (λ _. reading.settle level (stack_of frames.old.items) (nodes_of nodes.old)
        ≡ (stack_of frames.new.items, nodes_of nodes.new)) }
{
    while let Some(frame) = frames.pop() {
        if !binds(level, frame) {
            frames.push(frame)?;
            return Ok(());
        }
        nodes.settle(frame)?;
    }
    Ok(())
}

/// One level deeper, up to the limit.
#[tactic(auto, using(crate::proofs::ExprsLemmas::stack_push))]
fn deeper<'a>(
    frames: &mut Vec<Frame>,
    frame: Frame,
    nodes: Option<Nodes<'a>>,
) -> Result<Step<'a>, Stop>
    ensures { Steps frames.new.items result
        (reading.deeper frame (stack_of frames.old.items) (some_nodes nodes.entry)) }
{
    if depth(frames) < DEEPEST {
        frames.push(frame)?;
        Ok(Step::Goes(Stage::Wants(nodes)))
    } else {
        Err(Stop::Fault(SourceCode::NestingTooDeep))
    }
}

/// An operand after the nodes so far.
fn operand<'a>(
    alloc: Global,
    nodes: Option<Nodes<'a>>,
    node: Node<'a>,
) -> Result<Nodes<'a>, AllocError>
    ensures { IfOk result (λ e. nodes_of e ≡ some_nodes nodes.entry ++ node_of node.entry ∷ []) }
{
    match nodes {
        None => Ok(Nodes {
            first: node,
            rest: Vec::new(alloc),
        }),
        Some(mut nodes) => {
            nodes.push(node)?;
            Ok(nodes)
        }
    }
}

/// A token where an operand is wanted.
fn wants<'a>(
    alloc: Global,
    frames: &mut Vec<Frame>,
    nodes: Option<Nodes<'a>>,
    kind: TokenKind<'a>,
) -> Result<Step<'a>, Stop>
    ensures { Steps frames.new.items result
        (reading.step_wants (stack_of frames.old.items) (some_nodes nodes.entry)
        (begins is_register (kind_of kind.entry))) }
{
    match begins(kind) {
        Begin::Number(number) => {
            let nodes = operand(alloc, nodes, Node::Number(number))?;
            Ok(Step::Goes(Stage::Has(nodes)))
        }
        Begin::Symbol(symbol) => {
            let nodes = operand(alloc, nodes, Node::Symbol(symbol))?;
            Ok(Step::Goes(Stage::Has(nodes)))
        }
        Begin::Prefix(operator) => deeper(frames, Frame::Prefix(operator), nodes),
        Begin::Opening => deeper(frames, Frame::Parenthesis, nodes),
        Begin::NoOperand(code) => Err(Stop::Fault(code)),
    }
}

/// A `)`, where all that binds has its operand.
#[tactic(auto, using(crate::proofs::ExprsLemmas::stack_push, crate::proofs::ExprsLemmas::stack_none))]
fn close<'a>(frames: &mut Vec<Frame>, nodes: Nodes<'a>) -> Result<Step<'a>, Stop>
    ensures { Steps frames.new.items result
        (reading.close (stack_of frames.old.items) (nodes_of nodes.entry)) }
{
    match frames.pop() {
        Some(_) => Ok(Step::Goes(Stage::Has(nodes))),
        None => Ok(Step::Ends(nodes)),
    }
}

/// A token that no expression goes on with, where all that binds has its operand; `code` is its fault in a parenthesis.
#[tactic(auto, using(crate::proofs::ExprsLemmas::end_none, crate::proofs::ExprsLemmas::end_open))]
fn end<'a>(frames: &[Frame], nodes: Nodes<'a>, code: SourceCode) -> Result<Step<'a>, Stop>
    ensures { Steps frames.now result
        (reading.end (source_fault_number code) (stack_of frames.now) (nodes_of nodes.entry)) }
{
    if frames.is_empty() {
        Ok(Step::Ends(nodes))
    } else {
        Err(Stop::Fault(code))
    }
}

/// An operator after an operand.
#[tactic(auto, using(crate::proofs::ExprsLemmas::stack_push))]
fn operator<'a>(
    frames: &mut Vec<Frame>,
    nodes: Nodes<'a>,
    operator: BinaryOperator,
) -> Result<Step<'a>, Stop>
    ensures { let s = reading.settle (level_of operator) (stack_of frames.old.items)
        (nodes_of nodes.entry) in
        Steps frames.new.items result (reading.Goes (reading.Wants (Infix operator ∷ s.0) s.1)) }
{
    let mut nodes = nodes;
    settle(frames, &mut nodes, level_of(operator))?;
    frames.push(Frame::Infix(operator))?;
    Ok(Step::Goes(Stage::Wants(Some(nodes))))
}

/// A token after an operand.
fn has<'a>(frames: &mut Vec<Frame>, nodes: Nodes<'a>, kind: TokenKind<'a>) -> Result<Step<'a>, Stop>
    ensures { Steps frames.new.items result
        (reading.step_has (kind_of kind.entry) (stack_of frames.old.items) (nodes_of nodes.entry)
        (follows (kind_of kind.entry))) }
{
    let mut nodes = nodes;
    match follows(kind) {
        Follow::Operator(infix) => operator(frames, nodes, infix),
        Follow::Closing => {
            settle(frames, &mut nodes, 0)?;
            close(frames, nodes)
        }
        Follow::Comparison => Err(Stop::Fault(SourceCode::UnsupportedHere)),
        Follow::Nothing => {
            settle(frames, &mut nodes, 0)?;
            end(frames, nodes, unclosed(kind))
        }
    }
}

/// What the next token makes of a stage.
fn taken<'a>(
    alloc: Global,
    frames: &mut Vec<Frame>,
    stage: Stage<'a>,
    kind: TokenKind<'a>,
) -> Result<Step<'a>, Stop>
    ensures { Steps frames.new.items result
        (reading.step is_register (stage_of frames.old.items stage.entry) (kind_of kind.entry)) }
{
    match stage {
        Stage::Wants(nodes) => wants(alloc, frames, nodes, kind),
        Stage::Has(nodes) => has(frames, nodes, kind),
    }
}

/// Reads on from a stage: what is read of the expression at the front of a cursor's tokens.
#[inline(never)]
pub(crate) fn read_on<'a>(
    alloc: Global,
    cursor: &mut Cursor<'a>,
    frames: Vec<Frame>,
    stage: Stage<'a>,
) -> Result<Expr<'a>, ReadError>
    requires { Reached is_register (stage_of frames.items stage) (remaining cursor.old) }
    ensures reads { ReadOn is_register
        (stage_of frames.items stage.entry) cursor.old cursor.new result }
    ensures next { IfErr result (λ e. IsAtNext e cursor.new) }
{
    let mut frames = frames;
    let mut stage = stage;
    'tokens: loop {
        match taken(alloc, &mut frames, stage, cursor.next.kind) {
            Ok(Step::Goes(next)) => {
                stage = next;
                cursor.advance();
            }
            Ok(Step::Ends(nodes)) => return Ok(Expr::new(alloc, nodes)?),
            Err(Stop::Fault(code)) => return Err(ReadError::At(cursor.wrong(code))),
            Err(Stop::OutOfMemory) => return Err(ReadError::OutOfMemory),
        }
    }
}

/// The expression at the front of a cursor's tokens; a name that spells a register is no operand. An error names the first
/// token that is wrong, and leaves the cursor before that token; where memory runs out, the cursor has passed some of the
/// expression's tokens.
#[tactic(auto, using(crate::proofs::ExprsLemmas::stack_none), unfolding(rv_expression_laws::specs::ExpressionAt::expression_at))]
pub fn expression<'a>(alloc: Global, cursor: &mut Cursor<'a>) -> Result<Expr<'a>, ReadError>
    ensures reads { Answers (λ e. (expr_of e, remaining cursor.new)) result
        (reading.expression_at is_register (remaining cursor.old)) }
    ensures next { IfErr result (λ e. IsAtNext e cursor.new) }
{
    match begins(cursor.next.kind) {
        Begin::Number(number) => {
            cursor.advance();
            after_number(alloc, cursor, number)
        }
        Begin::Symbol(symbol) => {
            cursor.advance();
            after_symbol(alloc, cursor, symbol)
        }
        Begin::Prefix(UnaryOperator::Negate) => {
            cursor.advance();
            after_minus(alloc, cursor)
        }
        _ => read_on(alloc, cursor, Vec::new(alloc), Stage::Wants(None)),
    }
}

/// The expression at the front of a lexer's tokens, which then has the tokens after it. A fault has the line of the
/// first token with which no expression goes on, and leaves the lexer as it was: of a parenthesis that is not closed,
/// the line of the token that stands where its other is wanted.
pub fn parse_expr<'a>(alloc: Global, lexer: &mut Lexer<'a>) -> Result<Expr<'a>, SourceFault>
    ensures reads { IfOk result
        (λ e. (tree : Tree)
        × ReadsTree is_register (tokens_left lexer.old) tree (tokens_left lexer.new)
        × (expr_of e ≡ postfix tree)) }
    ensures only { IfOk result
        (λ e. (tree : Tree) (rest : List Token) →
        ReadsTree is_register (tokens_left lexer.old) tree rest → (expr_of e ≡ postfix tree)
        × (tokens_left lexer.new ≡ rest)) }
    ensures refuses { IfErr result
        (λ e. NamesFault e (reading.expression_at is_register (tokens_left lexer.old))) }
    ensures unread { IfErr result (λ e. NoReading e is_register (tokens_left lexer.old)) }
    ensures stays { IfErr result (λ _. tokens_left lexer.new ≡ tokens_left lexer.old) }
{
    let mut cursor = Cursor::new(*lexer);
    match expression(alloc, &mut cursor) {
        Ok(expr) => {
            *lexer = cursor.lexer();
            Ok(expr)
        }
        Err(ReadError::At(wrong)) => Err(SourceFault::At {
            code: wrong.code,
            line: wrong.line,
        }),
        Err(ReadError::OutOfMemory) => Err(SourceFault::OutOfMemory),
    }
}
