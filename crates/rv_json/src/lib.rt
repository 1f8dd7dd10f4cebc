//! Numbers and texts as the objects of JSON have them that the program writes.
//!
//! It takes numbers, names and texts and gives values of `serde_json`, and the line of a value.
//!
//! Main contract: [`number`] gives a number as such up to 2^53, and else its decimal digits as a text (`specs/Values`), so that
//! no reader rounds it. It does not know what an object is about.
//!
//! ```text
//! let found = json!(in alloc; { "address": number(alloc, address)?, "name": name(alloc, symbol)? })?;
//! put_line(alloc, &mut text, &found)?;
//! ```
//!
//! Source: RFC 8259, sections 6 and 8.1.
#![tactic(auto)]

mod values;

pub use values::{name, number, number_or_null, put_line, text_or_null};
