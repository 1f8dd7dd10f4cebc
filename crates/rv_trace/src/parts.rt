//! Lines, put together of their parts.
//!
//! Each part that is added may find no memory, which is a way out of the function that adds it. So a line's parts are a
//! list, which one function adds.

use crate::columns::{
    put, put_blanks, put_decimal, put_fixed, put_name, put_near, put_right, put_small,
};
use crate::places::Near;
use rv_map::put_hexadecimal;
use std::alloc::AllocError;

/// What stands in a line.
#[derive(Clone, Copy, Drop)]
pub(crate) enum Part<'a> {
    Text(&'a str),
    Name(&'a [u8]),
    /// Bytes in a column of this width, and a blank.
    Column(&'a [u8], usize),
    Decimal(u64),
    /// A number in decimal, at the right of a column of this width.
    Right(u64, usize),
    /// A number in hexadecimal, as `0x1f`.
    Hexadecimal(u64),
    /// A number in hexadecimal, two digits for each of so many bytes.
    Fixed(u64, u64),
    /// A number in decimal after a blank, where it is small.
    Small(u64),
    /// A symbol and how far behind it an address is, as `f+0x4`.
    Near(Near<'a>),
    /// The same after a blank, where a symbol is known.
    Symbol(Option<Near<'a>>),
}

/// Adds parts, one after another.
pub(crate) fn put_parts(text: &mut Vec<u8>, parts: &[Part<'_>]) -> Result<(), AllocError> {
    for part in parts {
        put_part(text, *part)?;
    }
    Ok(())
}

/// Adds a part.
fn put_part(text: &mut Vec<u8>, part: Part<'_>) -> Result<(), AllocError> {
    match part {
        Part::Text(added) => put(text, added),
        Part::Name(name) => put_name(text, name),
        Part::Column(name, width) => {
            put_name(text, name)?;
            put_blanks(text, width.saturating_sub(name.len()).saturating_add(1))
        }
        Part::Decimal(number) => put_decimal(text, number),
        Part::Right(number, width) => put_right(text, number, width),
        Part::Hexadecimal(number) => {
            put(text, "0x")?;
            put_hexadecimal(text, number)
        }
        Part::Fixed(number, bytes) => put_fixed(text, number, bytes),
        Part::Small(number) => put_small(text, number),
        Part::Near(near) => put_near(text, Some(near)),
        Part::Symbol(None) => Ok(()),
        Part::Symbol(near) => {
            text.push(b' ')?;
            put_near(text, near)
        }
    }
}
