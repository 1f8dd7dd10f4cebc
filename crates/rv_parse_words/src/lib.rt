//! The words of statements: a token as a register, a mnemonic, a directive or punctuation, and the code of a wrong one.
//!
//! Takes one token's kind or one name. Gives what it is (`kinds`, `words`) or the code of its fault where it stands
//! (`fault`).
//! Main contract: each function gives the value of the definition of its name in `rv_parse_laws`: `words::beginning_with`
//! that of `beginning`, the word's mnemonic or directive.
//! Must not know a second token: what may follow is said by the crate above.
//!
//! ```text
//! match kinds::begins(token.kind) {
//!     Beginning::Instruction(mnemonic) => ..,
//!     Beginning::Directive(word) => ..,
//!     Beginning::Nothing => Err(SyntaxError::at(token, fault::at_start(token.kind))),
//! ```
//!
//! Source: RISC-V Unprivileged ISA 20191213, chapters 16 and 24; RISC-V Assembly Programmer's Manual; GNU as, "Pseudo Ops".
#![tactic(auto)]

pub mod fault;
pub mod kinds;
pub mod words;

pub use rv_parse_laws::{Beginning, Role};
