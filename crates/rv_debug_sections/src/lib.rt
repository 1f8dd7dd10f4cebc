//! Puts the sections of objects that no program loads, as debug sections, behind an executable.
//!
//! It takes the file of an executable with section headers, such as rv_debug gives, and the files of the objects that were
//! linked, each with the addresses that its symbols have in the program. It gives the same executable with the sections of
//! these objects that no program loads, as the debug sections that compilers make: debuggers so know the lines, types and
//! variables of other languages, and how frames stand on the stack. Left out is what GNU's linkers leave out, and code.
//!
//! Main contract: [`with_sections_of`] answers just `IsCarriedFile` of rv_debug_laws. The sections of one name are merged in
//! the order of the objects, behind that of the executable, whose offsets so hold; relocations are applied, each to the
//! address of its symbol, or to its place in a merged section; a field that means code which was dropped gets the number
//! that says so. The executable stands in front to the byte, but for the fields of its header
//! that lead to the section headers, and is loaded as the same image. [`has_carried_sections`], [`has_line_table`] and
//! [`carried_references`] tell what an object brings, and [`symbol_section`] and [`symbol_records`] its symbols as they stand. Nothing here knows DWARF: contents are bytes with relocations.
//!
//! ```text
//! let objects = [Carried { file: &object, addresses: &addresses }];
//! let file = with_sections_of(alloc, &exe, &objects)?;
//! ```
//!
//! Source: System V gABI, "Sections", "String Table", "Symbol Table", "Relocation"; RISC-V ELF psABI, "Relocations"; DWARF
//! Debugging Information Format, version 5, 7.4 and appendix B.
#![tactic(auto)]

mod carried;
mod fault;
mod fill;
mod headers;
mod merged;
mod named;
mod names;
mod part;
mod records;
mod references;
mod said;
mod source;
mod writing;

pub use fault::CarryFault;
pub use named::symbol_section;
pub use records::symbol_records;
pub use references::carried_references;
pub use rv_debug_laws::Carried;
pub use said::{has_carried_sections, has_line_table};
pub use writing::with_sections_of;
