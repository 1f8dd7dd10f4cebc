//! The operators of expressions.

/// An operator before its operand.
#[derive(Clone, Copy, Drop)]
pub enum UnaryOperator {
    /// `-`
    Negate,
    /// `~`
    Complement,
    /// `+`
    Keep,
}

/// An operator between its operands.
#[derive(Clone, Copy, Drop)]
pub enum BinaryOperator {
    /// `*`
    Multiply,
    /// `/`
    Divide,
    /// `%`
    Remainder,
    /// `<<`
    ShiftLeft,
    /// `>>`
    ShiftRight,
    /// `|`
    Or,
    /// `&`
    And,
    /// `^`
    ExclusiveOr,
    /// `+`
    Add,
    /// `-`
    Subtract,
}

/// What stands before an operand that is still to come.
#[derive(Clone, Copy, Drop)]
pub enum Frame {
    /// An open parenthesis.
    Parenthesis,
    /// An operator of one operand.
    Prefix(UnaryOperator),
    /// An operator whose left operand stands before it.
    Infix(BinaryOperator),
}
