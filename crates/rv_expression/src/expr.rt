//! Expressions that were read.
//!
//! An expression has 24 bytes at most, so that a statement has 40. A number, its negative, a symbol, and a name with an
//! operator and a number below 2^32 take no heap; every other operator on a symbol and a number, or on two symbols,
//! takes one block, and every other expression two.

ghost use Rattle.std.specs.Prelude.{◌≡◌, true, [], ◌∷◌, IfOk};
ghost use Rattle.rv_expression_laws.specs.Expression.{Primary_node};
ghost use Rattle.rv_expression_laws.specs.Values.{nodes_fit};
ghost use Rattle.rv_expression.specs.Nodes.{symbol_of, nodes_of, are_numbers};
ghost use Rattle.rv_expression.specs.Expr.{expr_of, pair_nodes, two_nodes};

use crate::compound::Compound;
use crate::node::{Node, Nodes, Symbol};
use crate::pair::{Pair, SymbolPair};
use rv_expression_laws::BinaryOperator;
use rv_lexer::NumericReference;
use std::alloc::{AllocError, Global};

/// An expression that was read. Texts are parts of the source; a number, its negative, a symbol alone
/// and most of a name, an operator and a number take no heap.
#[derive(Drop)]
pub enum Expr<'a> {
    /// A number or a character.
    Number(u64),
    /// A name.
    Name(&'a [u8]),
    /// `.`, the address of the statement.
    Here,
    /// `1b` or `1f`.
    Reference(NumericReference<'a>),
    /// `-` and a number.
    Negative(u64),
    /// A name, an operator and a number below 2^32.
    NamePair(BinaryOperator, u32, &'a [u8]),
    /// Another symbol, an operator and a number, or a larger number.
    Pair(Box<Pair<'a>>),
    /// Two symbols and the operator on them.
    SymbolPair(Box<SymbolPair<'a>>),
    /// Another expression with operators.
    Compound(Box<Compound<'a>>),
}

const _: () = prove!(size_of::<Expr<'static>>() <= 24);

impl<'a> Expr<'a> {
    /// A symbol alone.
    pub(crate) fn of_symbol(symbol: Symbol<'a>) -> Self
        ensures { expr_of result ≡ Primary_node (symbol_of symbol.entry) ∷ [] }
    {
        match symbol {
            Symbol::Name(name) => Expr::Name(name),
            Symbol::Here => Expr::Here,
            Symbol::Reference(reference) => Expr::Reference(reference),
        }
    }

    /// A number, or operators on numbers alone: without a name, a reference and `.`.
    pub fn is_number(&self) -> bool
        ensures { result ≡ are_numbers (expr_of self.now) }
    {
        match self {
            Expr::Number(_) | Expr::Negative(_) => true,
            Expr::Name(_) | Expr::Here | Expr::Reference(_) => false,
            Expr::NamePair(..) | Expr::Pair(_) | Expr::SymbolPair(_) => false,
            Expr::Compound(compound) => compound.nodes.are_numbers(),
        }
    }

    /// A symbol, an operator and a number.
    pub(crate) fn of_pair(alloc: Global, pair: Pair<'a>) -> Result<Self, AllocError>
        ensures { IfOk result (λ e. expr_of e ≡ pair_nodes pair.entry) }
    {
        match pair.symbol {
            Symbol::Name(name) if pair.number < 1 << 32 => {
                Ok(Expr::NamePair(pair.operator, pair.number as u32, name))
            }
            _ => Ok(Expr::Pair(Box::new(alloc, pair)?)),
        }
    }

    /// Two symbols and the operator on them.
    pub(crate) fn of_two(alloc: Global, pair: SymbolPair<'a>) -> Result<Self, AllocError>
        ensures { IfOk result (λ e. expr_of e ≡ two_nodes pair.entry) }
    {
        Ok(Expr::SymbolPair(Box::new(alloc, pair)?))
    }

    /// The expression of these nodes.
    pub(crate) fn new(alloc: Global, nodes: Nodes<'a>) -> Result<Self, AllocError>
        requires { nodes_fit (nodes_of nodes) 0 ≡ true }
        ensures { IfOk result (λ e. expr_of e ≡ nodes_of nodes.entry) }
    {
        if nodes.rest.is_empty() {
            match nodes.first {
                Node::Number(number) => return Ok(Expr::Number(number)),
                Node::Symbol(symbol) => return Ok(Expr::of_symbol(symbol)),
                Node::Unary(_) | Node::Binary(_) => (),
            }
        }
        let compound = Box::new(alloc, Compound { nodes })?;
        Ok(Expr::Compound(compound))
    }
}
