//! Statements of a source: its tokens read as labels, instructions and directives.
//!
//! Takes the bytes of one source. Gives its statements in order, each with its line, or the first fault.
//! Main contract: `parse`, and `parse_compact`, which gives the same statements (`lists_agree`) in less memory: in `reads` the bytes are read as these statements (`Reads`), in `refuses` the fault is the first
//! one of the bytes, with its line (`Refuses`), unless memory ran out. [`parse_placed`] also tells the byte of the fault, or
//! where each statement begins (`BeginIn`).
//! Must not know what a statement means, what a symbol's value is, or where a section lies.
//!
//! ```text
//! match parse(alloc, source) {
//!     Ok(statements) => statements.len(),
//!     Err(SourceFault::At { code, line }) => code.number() and line name the first fault
//!     Err(SourceFault::OutOfMemory) => ..
//! ```
//!
//! Source: RISC-V Assembly Programmer's Manual; GNU as, "Statements", "Pseudo Ops" and "RISC-V Dependent Features".
#![tactic(auto)]

mod access;
mod directive;
mod instruction;
mod jump;
mod list;
mod opening;
mod operands;
mod parcel;
mod slot;
mod source;
mod statement;
mod value;

pub use list::PlacedStatements;
pub use rv_expression::{ReadError, SourceCode, SourceFault, SyntaxError};
pub use rv_statement::Statement;
pub use source::{lists_agree, parse, parse_compact, parse_placed};
