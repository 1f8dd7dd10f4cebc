//! Where the sections of objects stand in memory.
//!
//! It takes the plan of objects (`rv_relax`), in which each padding has room, and the address at which the text begins, and
//! gives the [`Placement`]: where each section starts, what the plan keeps of it, the regions, and the gaps of the text.
//!
//! Main contracts: of `Placement::of`, that the sections of all files stand as `rv_link_laws` says (`IsLayout`, of
//! `layout_of`), or that these are too large for memory wherever they stand so (`IsTooLarge`; by `sections_stand` they stand so
//! somewhere); of `rows` and `address`, that they are those of the definitions at these starts. It must not know symbols, values
//! of relocations, nor statements.
//!
//! ```text
//! let placement = Placement::of(alloc, &plan, 0x10000)?;
//! let first = &placement.files[0][0];                         // PlacedSection { start: 0x10000, .. }
//! let address = placement.address(&objects, place);           // Some(0x10008), where no byte before it is dropped
//! let rows = placement.rows(alloc, &objects)?;
//! ```
//!
//! Source: gABI, "Sections"; GNU ld, "SECTIONS Command"; this project's layout.
#![tactic(auto)]

mod alignment;
mod destination;
mod fault;
mod law;
mod placement;
mod regions;
mod rows;
mod text;

pub use fault::PlacementFault;
pub use law::sections_stand;
pub use placement::{PlacedSection, Placement};
