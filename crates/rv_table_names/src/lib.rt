//! The names of a link, for debuggers, by the symbol tables of the objects' files, whoever made these.
//!
//! It takes the symbols of each object, the records that its file has of them, and where the link put each ([`Tabled`]), and gives
//! the names of the linked program ([`table_names`]) as `specs/Tables` defines them: the labels of each object that have an
//! address, and the globals of the map, each with the type that the table of its definition says and with as many of its bytes
//! as the link left. [`symbol_sizes`] gives the sizes that the linker is asked for.
//!
//! Where the sources are known, rv_labels gives the same by their statements and directives. It knows neither how files are read
//! nor how addresses come about.
//!
//! ```text
//! let records = symbol_records(alloc, file)?;
//! let sizes = [symbol_sizes(alloc, records.as_slice())?];
//! let extents = symbol_extents_on(alloc, &objects, &sizes, options)?;
//! let object = Tabled { symbols, records: records.as_slice(), extents: extents[0].as_slice() };
//! let names = table_names(alloc, &[object], map.globals.as_slice())?;
//! ```
//!
//! Source: System V gABI, "Symbol Table"; GNU as, "Symbol Names".
#![tactic(auto)]

mod asked;
mod link;
mod names;
mod sizes;
mod tabled;
mod types;

pub use link::table_names;
pub use rv_addresses::SymbolExtent;
pub use rv_elf_laws::Symbol as SymbolRecord;
pub use rv_labels::{Global, KnownName, Names};
pub use rv_object_types::Symbol;
pub use sizes::symbol_sizes;
pub use tabled::Tabled;
pub use types::type_number;
