//! The words of a source: its bytes cut into lexemes, its lexemes read as tokens, its tokens read as expressions, and
//! their values. Definitions and their laws; nothing here runs.
//!
//! Takes nothing. Gives the codes of faults (`specs/Codes`), the lexemes of a source and how each is spelled
//! (`specs/{Cut, Bytes, Strings, Grammar}`), its tokens and where they stand (`{Lexing, Spans}`), expressions and how
//! tokens spell them (`Expression`), the first token with which none goes on (`ExpressionFault`), their values (`Values`),
//! a section's name (`Joined`), and the functions that find each (`Front`, `ExpressionAt`).
//!
//! Its main laws: a source has exactly one list of tokens (`one_list`, `some_list`), and outside their spans stand
//! blanks and comments alone (`spans`); what is read as an expression is one, and the only one (`expression_is`,
//! `expression_found`); a reading names the first token with which no expression goes on (`wrong_token`). It knows
//! nothing of mnemonics, directives, registers or sections.
//!
//! ```text
//! bytes    "lw a0, 4(sp)"
//! lexemes  Name "lw", Space, Name "a0", Punctuation Comma, Space, Number "4" 4, Punctuation Open, ..
//! tokens   the same without spaces and comments, each with its offsets and its line
//! tree     of "4 + 2 * k": Binary Add (Leaf (Literal 4)) (Binary Multiply ..)
//! postfix  4, 2, k, Multiply, Add
//! ```
//!
//! Source: RISC-V Assembly Programmer's Manual; GNU as, "Syntax" and "RISC-V Dependent Features".
#![tactic(auto)]

mod class;
mod laws;
mod operator;
mod punct;

pub use class::Class;
pub use laws::{
    bare_value, expression_end, expression_found, expression_is, joined_name, nodes_value,
    one_lexeme, one_list, postfix_fits, postfix_tree, postfix_value, some_list, spans,
    taken_begins, wrong_token,
};
pub use operator::{BinaryOperator, Frame, UnaryOperator};
pub use punct::Punct;
