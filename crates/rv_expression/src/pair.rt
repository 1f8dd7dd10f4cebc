//! The most frequent expressions with an operator.

use crate::node::Symbol;
use rv_expression_laws::BinaryOperator;

/// A symbol, an operator and a number, as `name + 4`.
#[derive(Clone, Copy, Drop)]
pub struct Pair<'a> {
    pub(crate) symbol: Symbol<'a>,
    pub(crate) operator: BinaryOperator,
    pub(crate) number: u64,
}

/// Two symbols and the operator on them, as `end - start`.
#[derive(Clone, Copy, Drop)]
pub struct SymbolPair<'a> {
    pub(crate) left: Symbol<'a>,
    pub(crate) operator: BinaryOperator,
    pub(crate) right: Symbol<'a>,
}
