//! Objects with their calls shortened.
//!
//! It takes objects, the sites of their text (`rv_link_laws/specs/CallSites`) and what a family keeps of each, and gives the
//! objects that are left (`rv_link_laws/specs/Shortened`): a call of which fewer than 8 bytes are kept is `jal`, or `c.j`
//! where 2 are, with an empty field that the link fills in.
//!
//! The objects are lent, and nothing of them is copied: [`ShortObject`] and [`ShortSection`] tell what becomes of a relocation,
//! a symbol or a row when they are asked, and [`LeftBytes`] gives the bytes that are left, from the front. So a byte moves once,
//! when the link takes it into its program. What is cut of a section is a table by old offset, each row a
//! [`Piece`], and an offset is looked up in it by halves. `rv_relax` has such tables of paddings.
//!
//! It must not know how the family is found, nor addresses.
//!
//! ```text
//! let left = shorten(alloc, &objects, &sites, &kept)?;
//! let place = left[0].sections[0].relocation(&relocation).place;
//! left[0].sections[0].bytes().put_all(&mut out)?;
//! ```
//!
//! Source: RISC-V ELF psABI, "Linker Relaxation"; Unprivileged ISA, "Unconditional Jumps" and "C.J".
#![tactic(auto)]

mod bytes;
mod cut;
mod lent;
mod object;
mod objects;
mod offsets;
mod piece;
mod pieces;
mod relocations;
mod section;
mod sites;

pub use bytes::LeftBytes;
pub use lent::whole;
pub use object::ShortObject;
pub use objects::shorten;
pub use piece::Piece;
pub use pieces::{count_before, dropped_before};
pub use section::ShortSection;
