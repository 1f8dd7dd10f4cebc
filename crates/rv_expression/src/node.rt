//! Expressions as the code holds them: nodes in postfix form.

ghost use Rattle.std.specs.Prelude.{◌≡◌, [], ◌∷◌, ◌++◌, map, not, IfOk};
ghost use Rattle.rv_expression_laws.specs.ExpressionAt as reading;
ghost use Rattle.rv_expression.specs.Nodes.{node_of, nodes_of, is_number_node, are_numbers};

use rv_expression_laws::{BinaryOperator, Frame, UnaryOperator};
use rv_lexer::NumericReference;
use std::alloc::AllocError;

/// What an expression may refer to. Texts are parts of the source.
#[derive(Clone, Copy, Drop)]
pub enum Symbol<'a> {
    /// A name.
    Name(&'a [u8]),
    /// `.`, the address of the statement.
    Here,
    /// `1b` or `1f`.
    Reference(NumericReference<'a>),
}

impl<'a> Symbol<'a> {
    ghost use Rattle.rv_expression.specs.Nodes.{symbol_of, spelling_of};

    /// The symbol as it is written: a name, `.`, or the digits and the letter of a reference.
    pub fn spelling(self) -> &'a [u8]
        ensures { result.now ≡ spelling_of (symbol_of self.entry) }
    {
        match self {
            Symbol::Name(name) => name,
            Symbol::Here => b".",
            Symbol::Reference(reference) => reference.word(),
        }
    }
}

/// A part of an expression in postfix form.
#[derive(Clone, Copy, Drop)]
pub enum Node<'a> {
    /// A number or a character.
    Number(u64),
    /// A name, `.` or a reference.
    Symbol(Symbol<'a>),
    /// An operator on the operand before it.
    Unary(UnaryOperator),
    /// An operator on the two operands before it.
    Binary(BinaryOperator),
}

/// The nodes of an expression, or of the front of one; the first is an operand.
#[derive(Drop)]
pub(crate) struct Nodes<'a> {
    pub(crate) first: Node<'a>,
    pub(crate) rest: Vec<Node<'a>>,
}

impl Node<'_> {
    /// A name, `.` or a reference.
    fn is_symbol(self) -> bool
        ensures { result ≡ not (is_number_node (node_of self.entry)) }
    {
        matches!(self, Node::Symbol(_))
    }
}

/// None of the nodes is a symbol.
fn are_numbers(nodes: &[Node<'_>]) -> bool
    ensures { result ≡ are_numbers (map node_of nodes.now) }
{
    nodes.iter().all(|node| !node.is_symbol())
}

impl<'a> Nodes<'a> {
    /// None of them is a symbol.
    pub(crate) fn are_numbers(&self) -> bool
        ensures { result ≡ are_numbers (nodes_of self.now) }
    {
        !self.first.is_symbol() && are_numbers(self.rest.as_slice())
    }

    /// One more node.
    #[tactic(auto, using(crate::proofs::ExprsLemmas::nodes_push))]
    pub(crate) fn push(&mut self, node: Node<'a>) -> Result<(), AllocError>
        ensures { IfOk result
            (λ _. nodes_of self.new ≡ nodes_of self.old ++ node_of node.entry ∷ []) }
    {
        self.rest.push(node)?;
        Ok(())
    }

    /// The operator that waited for an operand has it.
    pub(crate) fn settle(&mut self, frame: Frame) -> Result<(), AllocError>
        ensures { IfOk result
            (λ _. nodes_of self.new ≡ nodes_of self.old ++ reading.node_of frame) }
    {
        match frame {
            Frame::Parenthesis => Ok(()),
            Frame::Prefix(operator) => self.push(Node::Unary(operator)),
            Frame::Infix(operator) => self.push(Node::Binary(operator)),
        }
    }
}
