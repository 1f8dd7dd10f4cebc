//! What linking is: when a program is that of a list of objects, and why objects have none.
//!
//! It takes objects (`rv_object_laws`), the values and fields of relocations (`rv_reloc_laws`) and a linked program
//! (`rv_image_laws`), all as plain data. It gives the definition `IsLinkOf objects ground linked` (`specs/IsLinkOf`)
//! over objects alone, whoever made them: where their sections start (`Inputs`), which bytes are dropped (`Moves`),
//! what names mean across files (`Names`), and the bytes of a section with its relocations applied (`Values`).
//!
//! Objects without a program have the first fault of their link: `HasNoProgram objects ground relax gc fault` (`Refusals`), by
//! where their sections stand (`Layout`) and the first field that does not take its value (`Untaken`).
//!
//! With `--gc-sections` objects are linked without the sections to which nothing leads from the entry's (`Collects`). What is
//! left of them is objects again (`Without`), that keep what every object keeps (`Whole`): [`what_is_left`], [`names_stay`] and
//! [`nothing_dangles`] say what stays as it was.
//!
//! Nothing here runs, and nothing here knows of statements.
//!
//! Source: System V gABI, "Sections", "Symbol Table", "Relocation"; RISC-V ELF psABI, "Relocations", "Linker Relaxation"; GNU ld.
#![tactic(auto)]

mod bounds;
mod law;

pub use bounds::Ground;
pub use law::{
    names_stay, nothing_begins, nothing_dangles, nothing_moves, one_collection, rows_in_order_stay,
    sites_of_whole_objects, text_starts, what_is_left, without_nothing,
};
