//! Linking: the program that a list of objects becomes.
//!
//! It takes objects (`rv_object_types`), whoever made them, and the address at which their text starts, and gives a linked program
//! (`rv_image`): the bytes of its regions with each relocation applied, and its map. Nothing here knows of statements.
//!
//! Main contract: [`link`] answers only a program that `IsProgramOf` the objects (`rv_link_laws`): the link of what collection
//! and relaxation leave of them, where these are on. First, names get their meaning, once (`rv_names`). Then sections are dropped
//! to which nothing leads from the entry (`rv_collect`): the passes behind get objects without them. Then the plan is made
//! (`rv_relax`): which calls may become short (`rv_link_sites`), which do, and what is kept of each padding. No size changes after
//! that. All later passes ask the plan: whether paddings have room, places (`rv_placement`), values (`rv_link_values`), fields
//! (`rv_reloc`). The objects are lent: each byte moves once, from its object into the program. [`link_on`] links on any
//! [`Ground`]: where the text begins, and where the program ends or before; [`link`] does below the stack. [`link_exe_on`] gives
//! the same program without the names and the rows of its map, for an executable alone: they cost more than all else.
//!
//! [`symbol_extents_on`] tells where such a link puts each symbol of each object, and how many bytes are left of it, without making a
//! byte: for debuggers, who ask for symbols that no map shows.
//!
//! The faults come in the order of the passes. With collection a missing entry comes before a name without a meaning, by itself:
//! [`a_missing_entry_comes_first`].
//!
//! ```text
//! let options = LinkOptions { text_start: 0x1_0000, relax: true, gc: false };
//! let linked = link(alloc, objects.as_slice(), options)?;
//! let first = linked.entry();
//! let file = write_exec(alloc, &linked)?;
//! let fault = link(alloc, &[], options);                      // Err(EntryMissing)
//! let extents = symbol_extents_on(alloc, objects.as_slice(), sizes.as_slice(), options.grounded())?;
//! let extent = extents[0][1];                                 // Some(SymbolExtent { address: 0x1_0000, size: 12 })
//! ```
//!
//! Source: System V gABI, "Sections", "Symbol Table", "Relocation"; RISC-V ELF psABI, "Relocations", "Linker Relaxation"; GNU ld.
#![tactic(auto)]

mod extents;
mod fields;
mod fixed;
mod ground;
mod law;
mod options;
mod passes;
mod programs;
mod regions;
mod relaxation;
mod with_map;

pub use extents::symbol_extents_on;
pub use ground::{ground_of, usual};
pub use law::a_missing_entry_comes_first;
pub use options::{GroundOptions, LinkOptions};
pub use passes::{MOST_FILES, within_limits};
pub use programs::{link, link_exe_on, link_on};
pub use rv_addresses::SymbolExtent;
pub use rv_fault::LinkFault;
pub use rv_image::Linked;
pub use rv_link_laws::Ground;
