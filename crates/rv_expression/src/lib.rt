//! Expressions: read from tokens, and evaluated.
//!
//! Takes the tokens of `rv_lexer` and the names of registers of `rv_isa`. Gives an `Expr`, whose names are parts of the source,
//! and its `Value`: a number, or symbols that stay open. What reads expressions reads tokens too, so the lexer's items
//! stand here as well.
//!
//! Its main contracts are `parse_expr`, clauses `reads` and `only` (what it reads is the one expression at the front of
//! the tokens) and `refuses` (a fault is that of the first token with which no expression goes on), and `eval`: the
//! outcome is the value that the definitions give the expression's tree; `symbolic_value` is the same by symbols in place of
//! words, which may also mean nothing. It knows nothing of statements or sections.
//!
//! ```text
//! let mut lexer = Lexer::new(b"4 * (end - start)");
//! let expr = parse_expr(alloc, &mut lexer)?;
//! let names = |word| match word { b"end" => Meaning::InSection(0, 9), _ => Meaning::InSection(0, 4) };
//! let value = eval(&expr, 1, &names)?;    // Value::Constant(20)
//! ```
//!
//! Source: RISC-V Assembly Programmer's Manual; GNU as, "Expressions".
#![tactic(auto)]

mod compound;
mod evaluation;
mod expr;
mod front;
mod node;
mod pair;
mod reading;

pub use compound::Compound;
pub use evaluation::{Meaning, SymbolMeaning, Value, eval, symbolic_value};
pub use expr::Expr;
pub use node::{Node, Symbol};
pub use pair::{Pair, SymbolPair};
pub use reading::{expression, parse_expr};
pub use rv_expression_laws::{BinaryOperator, UnaryOperator};
pub use rv_fault::{SourceCode, SourceFault};
pub use rv_lexer::{
    Cursor, LONGEST_NAME, Lexer, NumericReference, Punct, ReadError, SyntaxError, Token, TokenKind,
    append_string, string_contains, string_size,
};
