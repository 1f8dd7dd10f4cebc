//! Guest memory: bytes with rights, as a hart reads and writes them.
//!
//! It takes an image and gives a memory, [`Flat`] or [`Paged`], and the trait [`Memory`] by which a hart sees it. A
//! `Flat` keeps each segment as one piece and looks at one after the other; a `Paged` has a list of pages of 4096 bytes by
//! ascending numbers, each with a segment that has bytes of it, and a look-up is a binary search.
//!
//! Main contract: the clauses of the trait tie every call to `mem`, the memory as data: `load` answers the little-endian
//! number that stands there, `store` changes exactly its bytes, and `try_load` and `try_store` do so exactly where
//! every byte has the right. Right after `new` the memory is that of the image (`mem_of`). It must not know
//! instructions, harts or how a run ends.
//!
//! ```text
//! let mut memory = Flat::new(alloc, image)?;
//! if memory.may(address, 8, Right::Read) { let number = memory.load(address, 8); }
//! let stored = memory.try_store(address, 4, value);      // false where a byte lacks the right
//! append_bytes(&memory, address, count, &mut out)?;
//! put_bytes(&mut memory, address, bytes);
//! ```
//!
//! Source: RISC-V Unprivileged ISA 20191213, sections 1.4 and 2.6; System V gABI, segment flags.
#![tactic(auto)]

mod copies;
mod flat;
mod memory;
mod page;
mod paged;
mod pieces;
mod ranges;
mod stretch;

pub use copies::copied_image;
pub use flat::Flat;
pub use memory::{Memory, Right};
pub use paged::Paged;
pub use ranges::{append_bytes, put_bytes};
