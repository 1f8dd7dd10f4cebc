//! Rows, as lists of their columns.
//!
//! Each column that is added may find no memory, which is a way out of the function that adds it. So a row's columns are a
//! list, which one function adds.

use itoa::Buffer;
use rv_map::put_padded;
use std::alloc::AllocError;

/// The digits of a byte's halves.
const DIGITS: [u8; 16] = *b"0123456789ABCDEF";

/// What stands in a row.
#[derive(Clone, Copy, Drop)]
pub(crate) enum Column<'a> {
    Text(&'a [u8]),
    Blanks(usize),
    /// A number in decimal with blanks before it, up to a width.
    Right(u64, usize),
    /// An address in so many digits, one at least.
    Address(u64, usize),
    /// Bytes in hexadecimal, two digits a byte.
    Bytes(&'a [u8]),
}

/// Adds columns, from left to right.
pub(crate) fn put_columns(text: &mut Vec<u8>, columns: &[Column<'_>]) -> Result<(), AllocError> {
    for column in columns {
        put_column(text, *column)?;
    }
    Ok(())
}

/// Adds a column.
fn put_column(text: &mut Vec<u8>, column: Column<'_>) -> Result<(), AllocError> {
    match column {
        Column::Text(part) => put(text, part),
        Column::Blanks(count) => put_blanks(text, count),
        Column::Right(number, width) => put_right(text, number, width),
        Column::Address(address, digits) => put_padded(text, address, digits.max(1)),
        Column::Bytes(bytes) => put_bytes(text, bytes),
    }
}

/// Adds a part.
fn put(text: &mut Vec<u8>, part: &[u8]) -> Result<(), AllocError> {
    text.extend_from_slice(part)?;
    Ok(())
}

/// Adds so many blanks.
fn put_blanks(text: &mut Vec<u8>, count: usize) -> Result<(), AllocError> {
    for _ in 0..count {
        text.push(b' ')?;
    }
    Ok(())
}

/// Adds a number in decimal with blanks before it, up to a width.
fn put_right(text: &mut Vec<u8>, number: u64, width: usize) -> Result<(), AllocError> {
    let mut buffer = Buffer::new();
    let digits = buffer.format(number).as_bytes();
    put_blanks(text, width.saturating_sub(digits.len()))?;
    put(text, digits)
}

/// Adds bytes in hexadecimal, two digits a byte.
fn put_bytes(text: &mut Vec<u8>, bytes: &[u8]) -> Result<(), AllocError> {
    for byte in bytes {
        text.push(DIGITS[(*byte / 16) as usize])?;
        text.push(DIGITS[(*byte % 16) as usize])?;
    }
    Ok(())
}
