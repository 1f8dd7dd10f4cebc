//! Lines, as lists of what stands in them from left to right.
//!
//! A text is bytes and no `String`, since names of files, sections and symbols are any bytes.

use itoa::Buffer;
use rv_map::put_padded;
use std::alloc::AllocError;

/// What stands in a line. Where a column has two values, the other is its least width.
#[derive(Clone, Copy, Drop)]
pub(crate) enum Column<'a> {
    Text(&'a [u8]),
    /// Bytes with blanks after them.
    Left(&'a [u8], usize),
    /// A name with blanks after it; control characters stand as `^A`.
    Name(&'a [u8], usize),
    /// A number in decimal with blanks before it.
    Decimal(u64, usize),
    /// A number in decimal with its sign.
    Signed(i32),
    /// A number in hexadecimal with blanks before it.
    Hexadecimal(u64, usize),
    /// A number in hexadecimal with zeros before it.
    Padded(u64, usize),
}

/// Adds columns.
pub(crate) fn put_columns(text: &mut Vec<u8>, columns: &[Column<'_>]) -> Result<(), AllocError> {
    for column in columns {
        put_column(text, column)?;
    }
    Ok(())
}

fn put_column(text: &mut Vec<u8>, column: &Column<'_>) -> Result<(), AllocError> {
    match *column {
        Column::Text(bytes) => put(text, bytes),
        Column::Left(bytes, width) => put_left(text, bytes, width),
        Column::Name(name, width) => put_name(text, name, width),
        Column::Decimal(number, width) => put_decimal(text, number, width),
        Column::Signed(number) => put_signed(text, number),
        Column::Hexadecimal(number, width) => put_hexadecimal(text, number, width),
        Column::Padded(number, width) => put_padded(text, number, width.max(1)),
    }
}

/// Adds bytes.
pub(crate) fn put(text: &mut Vec<u8>, bytes: &[u8]) -> Result<(), AllocError> {
    text.extend_from_slice(bytes)?;
    Ok(())
}

fn put_blanks(text: &mut Vec<u8>, count: usize) -> Result<(), AllocError> {
    for _ in 0..count {
        text.push(b' ')?;
    }
    Ok(())
}

fn put_left(text: &mut Vec<u8>, bytes: &[u8], width: usize) -> Result<(), AllocError> {
    put(text, bytes)?;
    put_blanks(text, width.saturating_sub(bytes.len()))
}

fn put_name(text: &mut Vec<u8>, name: &[u8], width: usize) -> Result<(), AllocError> {
    for byte in name {
        if *byte < b' ' || *byte == 0x7F {
            put(text, &[b'^', byte ^ 0x40])?;
        } else {
            text.push(*byte)?;
        }
    }
    put_blanks(text, width.saturating_sub(name.len()))
}

fn put_signed(text: &mut Vec<u8>, number: i32) -> Result<(), AllocError> {
    put(text, if number < 0 { b"-" } else { b"" })?;
    put_decimal(text, u64::from(number.unsigned_abs()), 0)
}

fn put_decimal(text: &mut Vec<u8>, number: u64, width: usize) -> Result<(), AllocError> {
    let mut buffer = Buffer::new();
    let digits = buffer.format(number).as_bytes();
    put_blanks(text, width.saturating_sub(digits.len()))?;
    put(text, digits)
}

fn put_hexadecimal(text: &mut Vec<u8>, number: u64, width: usize) -> Result<(), AllocError> {
    let digits = 16u32.saturating_sub(number.leading_zeros() / 4).max(1);
    put_blanks(text, width.saturating_sub(digits as usize))?;
    put_padded(text, number, 1)
}
