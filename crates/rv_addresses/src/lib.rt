//! What the symbols of what is left of objects mean, and their addresses.
//!
//! It takes what relaxation leaves of objects (`rv_shorten`), what their names mean (`rv_names`), and where their sections stand
//! (`rv_placement`). It gives the [`Resolution`] of the objects. Before sections have addresses, [`Resolution::undefined`] finds
//! the first reference without a meaning, and [`Resolution::has_entry`] tells whether a run can begin. Afterwards
//! [`Resolution::entry`] tells where, and [`Resolution::globals`] lists the names of a map. The main contract is that of
//! [`Resolution::address`]: the address of a symbol is the one that `rv_link_laws` defines (`specs/Names`, `symbol_address`).
//! [`Resolution::extents`] gives those of all symbols, and how many bytes are left of each: up to the address of the place that was
//! so many bytes behind it in its object (`specs/Extents`).
//!
//! A weak symbol whose name no object defines, nor the linker, is 0; one that means a definition without an address has none.
//!
//! It knows neither bytes, values of relocations, nor how a section's place is found.
//!
//! ```text
//! let resolution = Resolution { objects: &left, names: &names };
//! if let Some(name) = resolution.undefined() { .. }
//! let placement = Placement::of(alloc, &plan, 0x10000)?;
//! let globals = resolution.globals(alloc, &placement)?;
//! let address = resolution.address(&placement, file, index);
//! let extents = resolution.extents(alloc, &placement, &sizes)?;
//! ```
//!
//! Source: System V gABI, "Symbol Table" (STB_GLOBAL, STB_WEAK); GNU ld, "Symbols".
#![tactic(auto)]

mod addresses;
mod extents;
mod globals;
mod resolution;
mod undefined;

pub use extents::SymbolExtent;
pub use resolution::Resolution;
