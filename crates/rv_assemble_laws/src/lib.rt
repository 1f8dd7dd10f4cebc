//! What assembling is: when an object is that of a source.
//!
//! It takes the statements of a source with their tables (`rv_unit_laws`, `rv_source_laws`) and objects
//! (`rv_object_laws`), all as plain data. It gives the definition `IsObjectOf statements object` (`specs/IsObjectOf`):
//! sections with their flags, alignment and bytes, with zeros in open fields (`Templates`, `LaidStatements`),
//! relocations, symbols (`Symbols`) and rows.
//!
//! Nothing here runs, and nothing here knows of addresses.
//!
//! Source: System V gABI, "Sections", "Symbol Table", "Relocation"; RISC-V ELF psABI, "Relocations"; GNU as, "Symbols",
//! "Pseudo Ops".
#![tactic(auto)]

mod law;

pub use law::{
    names_are_shown, sections_are_named, statements_are_small, statements_fill_sections,
};
