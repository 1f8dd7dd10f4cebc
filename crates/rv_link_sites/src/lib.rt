//! The sites of objects: the calls that may be shortened, the alignments, and the starts of sections of text.
//!
//! It takes objects (`rv_object_types`) and what their names mean (`rv_names`). It gives the sites of their text, by which calls
//! are shortened: all sections of text stand in one line, as long as they are before anything is taken out.
//!
//! Main contract: [`sites`] gives `sites_of` the objects (`rv_link_laws`, specs/CallSites), in which each offset is at most
//! 9 * 2^123. It must not know addresses, nor which calls come to be shortened.
//!
//! ```text
//! let names = Names::of(alloc, &objects)?;
//! let sites = sites(alloc, &objects, &names)?;
//! ```
//!
//! Each section's relocations are sorted once, where they do not stand in order, and gone over once; each object's symbols
//! are sorted once.
//!
//! Source: RISC-V ELF psABI, "Linker Relaxation".
#![tactic(auto)]

mod between;
mod changes;
mod entries;
mod law;
mod line;
mod order;
mod text;
mod walk;
mod words;

pub use law::sites_make_a_text;
pub use walk::sites;
pub use words::link_register;
