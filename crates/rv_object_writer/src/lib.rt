//! Writes objects: an [`rv_object_types::Object`] as an ELF file.
//!
//! Main contract: what `write` gives is the file of the object (`file_of` of rv_object_file_laws). It refuses nothing but
//! want of memory; a number too large for its field loses its upper bytes there. Where the fields of a file can hold what
//! the object has (`HasFile`), the file has no fault (`first_fault`) and is a file of this object (`ObjectOf`).
//! It knows no source and no addresses.
//!
//! ```text
//! let file = rv_object_writer::write(alloc, &object)?;
//! fs::write(&rt, "hello.o", &file)?;
//! ```
//!
//! Source: System V gABI, "ELF Header", "Sections", "String Table", "Symbol Table", "Relocation".
#![tactic(auto)]

mod names;
mod piece;
mod pieces;
mod strings;
mod tables;
mod writing;

pub use writing::write;
