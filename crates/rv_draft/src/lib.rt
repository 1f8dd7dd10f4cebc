//! The statements of a source: how large they are, where they stand, and what their sections hold.
//!
//! It takes a source with its tables (`rv_unit`). A [`Layout`] has the bytes of each statement: of a branch or a jump
//! the least that reach, of other code the bytes of its instructions or of its padding, of data what it says. A
//! [`Draft`] has an `Item` for each statement, the bytes and the size of each section, with zeros in the fields that
//! the linker fills in, and an [`OpenField`] for each of these; or it is the first fault of a statement as code.
//!
//! The main contracts: clause `least` of [`Layout::of`] says that the sizes are the least family of `rv_source_laws`
//! (`Sizes`), clause `sizes` what all other statements have; calls count 8, and an alignment in code the padding that
//! it may ever need. Clause `draft` of `Draft::of` is `IsDraft` (`specs/Draft`), over the statements with their places,
//! sizes and templates as `rv_assemble_laws` defines them for an object; its clause `refuses` names the fault.
//!
//! Sizes of branches depend on one another, and on nothing but the bytes of the rest. So statements become abstract
//! ones here, of which `rv_sizes` finds the least sizes: it need not know what statements say.
//!
//! It knows neither symbol tables nor addresses, and no object.
//!
//! ```text
//! let unit = Unit::of(alloc, statements)?;
//! let layout = Layout::of(alloc, &unit)?;
//! let bytes = layout.size(0);
//! let draft = Draft::of(alloc, &unit)?;
//! let text = draft.sections[0].as_slice();
//! ```
//!
//! Source: System V gABI, "Sections", "Relocation"; RISC-V ELF psABI, "Relocations"; GNU as, "Pseudo Ops",
//! "RISC-V-Directives"; RISC-V Unprivileged ISA 20191213, chapters 2.5 and 16.
#![tactic(auto)]

mod beside;
mod code;
mod compressed;
mod data;
mod draft;
mod extents;
mod field;
mod fields;
mod item;
mod items;
mod layout;
mod lone;
mod measure;
mod widths;

pub use draft::Draft;
pub use field::OpenField;
pub use layout::Layout;
