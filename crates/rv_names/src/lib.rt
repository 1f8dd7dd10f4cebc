//! What names mean across objects: the symbol that defines each name for all files.
//!
//! It takes objects and gives [`Names`], the table of the definitions that names mean and of what each symbol means:
//! [`Names::of`] refuses a name that has two global definitions, and looks each symbol's name up once, in the order of names.
//! It names a definition by its file and its symbol there ([`Exported`]), so it holds for what collection and relaxation leave of
//! the objects too (`proofs/AlikeLemmas`). [`Names::place_of`] tells where in the objects that stands which a symbol means
//! (`rv_link_laws/specs/Names`, `symbol_place`), and [`Names::entry_place`] where a run begins.
//!
//! A name means its global definition, and the first weak one where it has none; a weak symbol's own place does not come before
//! these, so it may mean another's.
//!
//! It knows neither bytes, values of relocations, addresses, nor what becomes of sections.
//!
//! ```text
//! let names = Names::of(alloc, &objects)?;
//! let exported = names.named(b"main");     // Some(Exported { file: FileIndex(0), symbol: SymbolIndex(3) })
//! let place = names.entry_place(&objects);
//! ```
//!
//! Source: System V gABI, "Symbol Table" (STB_GLOBAL, STB_WEAK); GNU ld, "Symbols".
#![tactic(auto)]

mod definitions;
mod fault;
mod meanings;
mod names;
mod places;
mod symbol;

pub use definitions::Exported;
pub use fault::ResolveFault;
pub use names::Names;
pub use places::placed;
pub use symbol::{is_defined, is_sure, is_weak};
