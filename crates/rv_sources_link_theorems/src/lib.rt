//! What joins assembling and linking.
//!
//! It takes what an object of a source is (`rv_assemble_laws`) and what linking objects is (`rv_link_laws`), and gives the
//! law that the objects of sources, linked so, are the linked program of the sources; and two files on which the checker
//! computes both definitions. Nothing here runs.
//!
//! Source: System V gABI, "Sections", "Symbol Table", "Relocation"; RISC-V ELF psABI, "Relocations".
#![tactic(auto)]

mod law;
mod worked;

pub use law::{linked_objects_are_flagged, objects_of_sources_link, sources_are_collected_alike};
pub use worked::{two_files_are_objects, two_files_link};
