//! Expressions with operators.

ghost use Rattle.std.specs.Prelude.{◌≡◌, true};
ghost use Rattle.rv_expression_laws.specs.Values.{nodes_fit};
ghost use Rattle.rv_expression.specs.Nodes.{nodes_of};

use crate::node::Nodes;

/// An expression with operators, in postfix form.
#[derive(Drop)]
pub struct Compound<'a> {
    pub(crate) nodes: Nodes<'a>,
    ghost fits: { nodes_fit (nodes_of nodes) 0 ≡ true },
}
