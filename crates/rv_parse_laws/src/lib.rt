//! What it is to read a source: words, the syntax of statements, the first fault; and the laws of that reading.
//!
//! Takes bytes and gives statements, as relations: `Reads bytes statements` of `specs/Reading`, `Refuses bytes fault` of
//! `specs/Refusals`.
//! Main contracts: `one_reading`, `one_fault` and `not_both`: bytes have at most one reading or first fault, never both; and
//! `names_agree`: the words of base instructions are their names in `rv_isa`, one to one.
//! Of code there are `Role` and `Beginning` alone, which definitions and code share.
//! Must not know how the code goes over tokens, or what a statement means.
//!
//! ```text
//! specs/Words     the words that begin statements      specs/Reading   Reads: for this, read no more
//! specs/Names     the words of base instructions
//! specs/Syntax    operands in slots, statements        specs/Faults    the code of a token in a slot
//! specs/Opening   openings of sections                 specs/Wrong     the wrong token of a statement
//! specs/Content   what is refused for what it says     specs/Refusals  Refuses: read this last
//! specs/Parsing   the reading as a function on tokens, a tool of proofs
//! ```
//!
//! Source: RISC-V Assembly Programmer's Manual; GNU as, "Statements" and "Pseudo Ops".
#![tactic(auto)]

mod beginning;
mod laws;
mod role;

pub use beginning::Beginning;
pub use laws::{names_agree, not_both, one_fault, one_reading};
pub use role::Role;
