//! The plan of a text: what the linker keeps of calls and of paddings, and where bytes come to stand.
//!
//! A call has eight bytes, and a shorter form where its target is near (R_RISCV_RELAX). Which calls are shortened is decided
//! for a whole text at once, over the sites of its text and with every padding in full (`rv_call_sizes`). Where relaxation is
//! off each call keeps its eight bytes.
//!
//! An alignment in code (R_RISCV_ALIGN) brings as much padding as it can ever need. With these sizes each keeps the least that
//! aligns its end, written anew as instructions without effect; the rest goes, and all that stands behind it moves. A section
//! begins at a multiple of all its alignments, so its paddings are the same wherever it stands: they are found before it has
//! an address.
//!
//! Main contract: `Plan::of` gives the plan of what relaxation leaves of objects (`Relaxes`, `rv_link_laws`), in which the
//! paddings of each section are its `moves`, or `AlignmentShort` where one lacks bytes. A plan takes objects with the sites of
//! their text ([`TextLine`]) and has no byte of it. It lends the objects, less what is cut of their calls (`rv_shorten`), and
//! what is kept of the paddings of each of their sections ([`SectionPaddings`]): new offsets, the bytes that are kept, which
//! go straight to where they are wanted, and the instructions that go. By number it tells how long each call and each
//! alignment is, and where an offset of the text is.
//!
//! Offsets of a text have 128 bits, since each of its sections may have 2^64 - 1 bytes.
//!
//! Names it only hands on, to find the sites. It must not know symbols, values of relocations, how sizes of calls are found, or
//! where sections come to stand.
//!
//! ```text
//! let placed = Placed::of(alloc, &objects, &names)?;          // the sites by rv_link_sites
//! let plan = Plan::of(alloc, &placed, true)?;
//! let bytes = plan.call_size(0) + plan.pad(0);
//! let offset = plan.new_offset(offset);
//!
//! let section = &plan.objects[0].sections[0];
//! let paddings = &plan.paddings[0][0];
//! let offset = paddings.new_offset(section.relocation(relocation).place);
//! paddings.put_kept(&mut text, section.bytes())?;
//! ```
//!
//! Source: RISC-V ELF psABI, "Linker Relaxation", function call relaxation and R_RISCV_ALIGN.
#![tactic(auto)]

mod alignments;
mod bytes;
mod law;
mod losses;
mod paddings;
mod pieces;
mod plan;
mod section_paddings;
mod text_line;
mod told;

pub use law::{one_alignment, two_alignments};
pub use plan::Plan;
pub use section_paddings::SectionPaddings;
pub use text_line::TextLine;
