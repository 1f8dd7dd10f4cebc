//! Assembling: the object of a source.
//!
//! It takes the bytes of one source. It gives an [`rv_object_types::Object`]: sections with their bytes and their open fields as
//! relocations, symbols and rows; or the first fault of the source. The object lends the names of the source.
//! Main contract: [`assemble`]: in `object` the object is that of the statements that the bytes read as (`IsObjectOf`), in
//! `refuses` the fault is the first one of the source (`IsFirstFault`), unless memory ran out.
//! [`first_fault`] also says where that stands: at a byte, or in which statement, and where this begins (`IsPlaced`).
//! It must not know addresses, other sources, or how objects are written to files.
//!
//! ```text
//! match assemble(alloc, source) {
//!     Ok(object) => object.sections.len(),
//!     Err(SourceFault::At { code, line }) => code.number() and line name the first fault
//!     Err(SourceFault::OutOfMemory) => ..
//! }
//! ```
//!
//! Source: System V gABI, "Sections", "Symbol Table", "Relocation"; RISC-V ELF psABI, "Relocations"; GNU as, "Symbols",
//! "Pseudo Ops".
#![tactic(auto)]

mod indices;
mod object;
mod placed;
mod relocations;
mod rows;
mod sections;
mod source;
mod symbols;

pub use placed::{Culprit, PlacedFault, first_fault};
pub use rv_expression::{SourceCode, SourceFault};
pub use rv_object_types::Object;
pub use source::assemble;
