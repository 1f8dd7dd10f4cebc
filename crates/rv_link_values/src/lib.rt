//! What the relocations of placed objects are worth.
//!
//! It takes what is left of objects with what their names mean (`rv_addresses`), and where their sections stand (`rv_placement`),
//! and gives the [`Values`] of their relocations: that of the psABI's calculation (`rv_reloc`), and for
//! the low part of a distance that of the high part to which its symbol points.
//!
//! Main contract: `Values::value` answers the value that `rv_link_laws` defines (`specs/Values`, `value`), or refuses exactly a
//! low part that has no high part, or an addend (`IsDangling`). It must not know whether a field takes its value, what bytes
//! become, nor statements.
//!
//! ```text
//! let values = Values::of(alloc, &resolution, &placement)?;                // finds the high parts, once
//! let section = &resolution.objects[0].sections[0];
//! let relocation = section.relocation(&section.whole.relocations[0]);
//! let value = values.value(FileIndex(0), SectionIndex(0), &relocation)?;     // Err(Dangling), if it has none
//! rv_reloc::patch(&mut field, relocation.kind, value)?;
//! ```
//!
//! Source: RISC-V ELF psABI, "Relocations", "PC-Relative Symbol Addresses"; gABI, "Relocation".
#![tactic(auto)]

mod fault;
mod high;
mod values;

pub use fault::ValueFault;
pub use values::Values;
