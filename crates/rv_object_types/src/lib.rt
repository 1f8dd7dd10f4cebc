//! Objects: what the assembler makes of a source, and what the linker takes.
//!
//! It gives the types [`Object`], [`Section`], [`Symbol`], [`Relocation`] and [`Row`], and in `specs/View` what an
//! object stands for as plain data (`rv_object_laws`), of which the contracts of the assembler and the linker speak.
//! What a reader of files tests, each value of these types keeps (`rv_object_laws/specs/Valid`): powers of two as
//! alignments, fields inside their sections, indices below counts.
//!
//! Padding in code is written and counted here, as the assembler and the linker both do it, and sections tell whether they go to
//! the text ([`Section::is_text`]) and at which multiple they begin ([`Section::begins_at`]).
//!
//! The linker knows files, sections and symbols by their indices ([`FileIndex`], [`SectionIndex`], [`SymbolIndex`]), and where
//! something stands by its [`Place`].
//!
//! It knows neither statements nor addresses.
//!
//! ```text
//! let text = Section { name: b".text", loaded: true, executable: true, writable: false, contents, alignment: 2, relocations };
//! let object = Object { sections, symbols, rows, rvc: false };
//! ```
//!
//! Source: System V gABI, "Sections", "Symbol Table", "Relocation"; RISC-V ELF psABI, "Relocations".
#![tactic(auto)]

mod alignment;
mod contents;
mod law;
mod object;
mod padding;
mod place;
mod relocation;
mod section;
mod symbol;

pub use contents::Contents;
pub use law::objects_are_whole;
pub use object::Object;
pub use padding::{operations, put_no_operations};
pub use place::{FileIndex, Place, SectionIndex, SymbolIndex};
pub use relocation::Relocation;
pub use rv_object_laws::{Binding, Definition, Row};
pub use section::Section;
pub use symbol::Symbol;
