//! What the directives `.type` and `.size` of a source say of names.
//!
//! The language ignores both, so the parser keeps neither; debuggers want them. It takes the bytes of a source and gives what the
//! directives say, each by its name ([`marks`]), as rv_debug_laws defines it (`specs/Marks`): by the tokens of its statement,
//! with the ordinal of a statement whose place is meant by `.`.
//!
//! It knows neither symbols nor where statements stand, and refuses nothing: what is no such directive says nothing.
//!
//! ```text
//! let marks = marks(alloc, b"f: ret\n.type f, @function\n.size f, .-f\n")?;
//! // f: Typed(Function); f: Sized(UpTo(4))
//! ```
//!
//! Source: GNU as, "Statements", ".type", ".size".
#![tactic(auto)]

mod directive;
mod source;
mod tokens;

pub use rv_debug_laws::{Mark, Said, SaidSize, SymbolType};
pub use source::marks;
