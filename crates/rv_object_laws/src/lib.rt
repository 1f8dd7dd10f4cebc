//! What an object is, as plain data: what the assembler makes of a source, and what the linker takes.
//!
//! It gives sections, symbols, relocations and rows ([`Object`]), who may name a symbol ([`Bindings`]), the instructions of
//! paddings ([`Padding`]), and what every object keeps, whoever made it ([`Valid`], and [`Whole`] of all of it): what a reader
//! of files tests.
//!
//! [`Row`], [`Binding`] and [`Definition`] are types that definitions and code share. It knows neither files nor addresses, nor
//! what becomes of objects (`rv_link_laws`).
//!
//! Nothing here runs.
//!
//! ```text
//! Undefined, Absolute n, InSection index offset, Skipped n        what a symbol is
//! ```
//!
//! [`Bindings`]: ../specs/Bindings.antt
//! [`Object`]: ../specs/Object.antt
//! [`Padding`]: ../specs/Padding.antt
//! [`Valid`]: ../specs/Valid.antt
//! [`Whole`]: ../specs/Whole.antt
//!
//! Source: System V gABI, "Sections", "Symbol Table", "Relocation"; RISC-V ELF psABI, "Relocations".
#![tactic(auto)]

mod row;
mod symbol;

pub use row::Row;
pub use symbol::{Binding, Definition};
