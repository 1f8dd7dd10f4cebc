//! The map of an executable: where its regions, globals and statements stand, which sections collection dropped, and
//! the map's text.
//!
//! It takes a [`Map`] and gives its text, and takes a text and gives the map of which it is one, or none. Each map
//! has one text and each text one map: a number has one spelling, and lines stand in one order.
//!
//! Main contract: `read`, whose clauses `found` and `only` say that it gives a map just where the bytes are that
//! map's text. `write` gives that text (`text`), and its map is one that a text can show (`readable`).
//! It does not know how a map comes about: neither sources nor files.
//!
//! ```text
//! let map = read(alloc, text)?.ok_or("no map")?;
//! let start = map.entry;
//! let row = map.row_at(start);
//! let again = write(alloc, &map)?;
//! // again.as_slice() == text
//! ```
#![tactic(auto)]

mod digits;
mod law;
mod lookup;
mod map;
mod numeral;
mod reading;
mod writing;

pub use digits::{put_hexadecimal, put_padded, write_hexadecimal};
pub use law::{one_map, reread};
pub use map::{Global, Map};
pub use reading::read;
pub use rv_map_laws::{Region, Row, SectionId};
pub use writing::write;
