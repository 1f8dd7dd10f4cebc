//! The symbols of a source's object, in their order, and for each use of a symbol its index.
//!
//! It takes a source's unit (`rv_unit`), where each statement stands in its section, and the symbols that relocations
//! name. It gives the symbols as an object has them (`rv_object_types`), those of the file alone, then those that it defines for
//! other files, then those that it leaves undefined, and a number for each use. The symbols lend the names of the source. The
//! main contract is that of [`symbols`]: these are the symbols that `rv_assemble_laws` defines (`specs/Symbols`), and each
//! number stands for its use.
//!
//! It knows no bytes, no kind of relocation and no address.
//!
//! ```text
//! let uses = [SymbolUse { ordinal: 2, symbol: Symbol::Name(b"loop") }];
//! let table = symbols(alloc, &unit, &items, &uses)?;
//! let symbol = &table.symbols[table.numbers[0] as usize];
//! ```
//!
//! Source: System V gABI, "Symbol Table"; GNU as, "Symbols".
#![tactic(auto)]

mod numbers;
mod own;
mod settings;
mod source;
mod symbol_use;
mod table;
mod undefined;
mod uses;

pub use symbol_use::SymbolUse;
pub use table::{SymbolTable, symbols};
