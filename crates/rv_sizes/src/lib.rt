//! The least sizes of branches, found by passes over the statements.
//!
//! It takes statements as their sizes go by them (`Item`: a section, forms, a target in that section; `Items`, all of them in
//! little memory), and gives the bytes of each and the number of passes. The main contract is that of `Family::least`: the
//! sizes are the least with which each form below a statement's largest reaches (`rv_size_laws`, `IsLeastGood`), and the
//! passes are at most twice the branches and one. Passes go forwards and backwards in turn, each over all statements once.
//!
//! It must not know what statements say, nor objects, nor addresses.
//!
//! ```text
//! let mut items = Items::with_capacity(alloc, count)?;
//! items.push(item)?;
//! let family = Family::least(alloc, &items, sections)?;
//! let bytes = family.size(4);
//! ```
//!
//! Source: ISA manual, "Control Transfer Instructions"; GNU as, "RISC-V-Directives".
#![tactic(auto)]

mod items;
mod passes;
mod reach;
mod sizes;

pub use items::Items;
pub use sizes::Family;
