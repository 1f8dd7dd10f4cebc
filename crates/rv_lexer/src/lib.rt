//! The lexer: a source's bytes become tokens, one after the other, borrowed from it.
//!
//! Takes the bytes of a source. Gives a `Lexer` (the tokens that are left, and an iterator over them) and a `Cursor` (the
//! same with the next token in hand), the bytes of strings, the codes of faults and where a wrong token's fault stands.
//!
//! Its main contract is `Lexer::token`, clause `first`: the tokens left before a call are the token that it gives and the
//! tokens left after it; and a source has exactly one list of tokens (`rv_expression_laws::{one_list, some_list}`).
//! It knows nothing of expressions, mnemonics or directives.
//!
//! ```text
//! let mut lexer = Lexer::new(b"li a0, 7");
//! let first = lexer.token();              // Name(b"li"), at bytes 0 to 2 of line 1
//! let mut cursor = Cursor::new(lexer);    // its next token is Name(b"a0")
//! cursor.advance();                       // and now Punct(Punct::Comma)
//! let error = cursor.wrong(SourceCode::BadOperands);
//! ```
//!
//! Source: RISC-V Assembly Programmer's Manual; GNU as, "Syntax" and "RISC-V Dependent Features".
#![tactic(auto)]

mod class;
mod cursor;
mod lexeme;
mod lexer;
mod reference;
mod strings;
mod syntax_error;
mod token;
mod word;

pub use cursor::Cursor;
pub use lexer::Lexer;
pub use reference::NumericReference;
pub use rv_expression_laws::Punct;
pub use rv_fault::{SourceCode, SourceFault};
pub use strings::{append_string, string_contains, string_size};
pub use syntax_error::{LONGEST_NAME, ReadError, SyntaxError};
pub use token::{Token, TokenKind};
