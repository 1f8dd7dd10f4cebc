//! That a source has one object, or one fault, and that objects have one program, or one reason to be refused.
//!
//! It takes what an object of statements is (`rv_assemble_laws`) and what the file of an object is (`rv_object_file_laws`), and
//! gives four laws of any object of a source, whatever assembles it: it is the only one, it is as small as a linker asks, its
//! source is not refused for a section of code that is too long, and it has a file. A fifth says that statements without an
//! object are refused for one fault.
//!
//! And it takes what a program of objects is and why objects have none (`rv_link_laws`), and gives the laws that neither leaves a
//! choice: collection and relaxation leave one list of objects, two programs of the same objects are equal, no objects are both
//! linked and refused, and two faults for which they are refused are the same one. Want of memory is no reason that objects
//! have. Nothing here runs.
//!
//! Source: System V gABI, "Sections", "Symbol Table", "Relocation"; RISC-V ELF psABI, "Relocations"; RISC-V Unprivileged ISA
//! 20191213, chapter 16.
#![tactic(auto)]

mod link_law;
mod object_law;

pub use link_law::{objects_keep_it, one_program, refused_for_one_reason, refused_has_no_program};
pub use object_law::{
    objects_are_not_too_long, objects_are_small, objects_have_files, one_object_of_statements,
    statements_have_one_fault,
};
