//! The names of a link, for debuggers: what its objects name for themselves alone, and what its map names, with the addresses
//! of the map, and with the types and the sizes that directives say.
//!
//! It takes the rows and the globals of a map and the objects of its link, each with what the directives `.type` and `.size` of
//! its source say ([`Described`]), and gives the names ([`names_of`]) as rv_debug_laws defines them (`specs/Labels`). A label
//! is a statement, so its object has a row at its place, and the map has the address of the row of that file and ordinal: the
//! linker is not asked. A size is that of the link: where calls were cut, it is smaller than in the object. Names that begin with
//! `.L` are left out, as is what has no address: labels of sections that were dropped, and of objects without rows, which other
//! tools made.
//!
//! What serves to name symbols otherwise than by rows is public too: which symbols are asked for ([`is_asked`]), what directives say
//! of a name ([`said_names`]), the last statement in front of another ([`last_before`]), and the globals of a map by names of
//! objects ([`known_globals`]).
//!
//! It knows neither files nor how addresses come about.
//!
//! ```text
//! let names = names_of(alloc, map.rows.as_slice(), map.globals.as_slice(), &objects)?;
//! ```
//!
//! Source: System V gABI, "Symbol Table"; GNU as, "Symbol Names", ".type", ".size".
#![tactic(auto)]

mod described;
mod ends;
mod globals;
mod known;
mod link;
mod names;
mod objects;
mod ordinals;
mod places;
mod said;
mod spans;

pub use described::Described;
pub use ends::{are_ordered, last_before};
pub use globals::known_globals;
pub use known::{KnownName, Names};
pub use link::names_of;
pub use names::is_asked;
pub use rv_debug_laws::{Mark, NameSaid, Said, SaidSize, SymbolType};
pub use rv_map::{Global, Row};
pub use rv_object_types::Object;
pub use said::{said_names, said_of};
