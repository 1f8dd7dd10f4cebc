//! Columns of fixed width, so that two texts can be compared line by line.

use itoa::Buffer;
use std::alloc::AllocError;

/// Blanks, which are added many at once.
const BLANKS: [u8; 64] = [b' '; 64];
/// What is less, or as much below 0, is shown in decimal too.
const SMALL: u64 = 65_536;
/// The room of such a number, as ` -65535`.
pub(crate) const DECIMAL: usize = 7;

/// Adds a text.
pub(crate) fn put(text: &mut Vec<u8>, added: &str) -> Result<(), AllocError> {
    text.extend_from_slice(added.as_bytes())?;
    Ok(())
}

/// Adds a name.
pub(crate) fn put_name(text: &mut Vec<u8>, name: &[u8]) -> Result<(), AllocError> {
    text.extend_from_slice(name)?;
    Ok(())
}

/// Adds a number of `bytes` bytes, at most eight, in hexadecimal, two digits a byte.
pub(crate) fn put_fixed(text: &mut Vec<u8>, number: u64, bytes: u64) -> Result<(), AllocError> {
    let digits = digits_of(number);
    let shown = (bytes.min(8) * 2) as usize;
    text.extend_from_slice(&digits[16 - shown..])?;
    Ok(())
}

/// Writes the digits of a number in hexadecimal over what stands at an offset.
#[inline]
pub(crate) fn set_fixed(text: &mut [u8], start: usize, number: u64) {
    if let Some(rest) = text.get_mut(start..) {
        if let Some(place) = rest.first_chunk_mut::<16>() {
            *place = digits_of(number);
        }
    }
}

/// Writes so many of the last digits of a number in hexadecimal over what stands at an offset.
pub(crate) fn set_low_digits(text: &mut [u8], start: usize, count: usize, number: u64) {
    let digits = digits_of(number);
    if let Some(places) = text.get_mut(start..start.saturating_add(count)) {
        for (place, digit) in places.iter_mut().rev().zip(digits.iter().rev()) {
            *place = *digit;
        }
    }
}

/// The digits of a number in hexadecimal, all sixteen. A line of a trace has three such numbers; `rv_map` writes digits one by
/// one, which takes twice as long for so many.
#[inline]
fn digits_of(number: u64) -> [u8; 16] {
    let [a, b, c, d, e, f, g, h] = eight_digits(number >> 32);
    let [i, j, k, l, m, n, o, p] = eight_digits(number & 0xFFFF_FFFF);
    [a, b, c, d, e, f, g, h, i, j, k, l, m, n, o, p]
}

/// The digits of a number of 32 bits in hexadecimal, all at once: each gets a byte of its own.
#[inline]
fn eight_digits(number: u64) -> [u8; 8] {
    let fours = (number | number << 16) & 0x0000_FFFF_0000_FFFF;
    let twos = (fours | fours << 8) & 0x00FF_00FF_00FF_00FF;
    let digits = (twos | twos << 4) & 0x0F0F_0F0F_0F0F_0F0F;
    // a digit is a letter where adding 6 carries beyond its four bits
    let letters = (digits.wrapping_add(0x0606_0606_0606_0606) >> 4) & 0x0101_0101_0101_0101;
    let figures = digits.wrapping_add(0x3030_3030_3030_3030);
    let gap = u64::from(b'a' - b'9' - 1);
    figures
        .wrapping_add(letters.wrapping_mul(gap))
        .to_be_bytes()
}

/// Adds a number in decimal.
pub(crate) fn put_decimal(text: &mut Vec<u8>, number: u64) -> Result<(), AllocError> {
    text.extend_from_slice(Buffer::new().format(number).as_bytes())?;
    Ok(())
}

/// A number in decimal after a blank, and blanks up to the end of its room, where it is small; 0 is plain as it stands.
#[inline]
fn decimal_of(value: u64) -> Option<[u8; DECIMAL]> {
    let negated = value.wrapping_neg();
    if value == 0 || SMALL <= value && SMALL <= negated {
        return None;
    }
    if value < SMALL {
        return Some(in_room(b" ", value));
    }
    Some(in_room(b" -", negated))
}

/// What stands before a number, its digits in decimal, and blanks.
fn in_room(sign: &[u8], number: u64) -> [u8; DECIMAL] {
    let mut room = [b' '; DECIMAL];
    let mut buffer = Buffer::new();
    let digits = buffer.format(number).as_bytes();
    for (place, byte) in room.iter_mut().zip(sign.iter().chain(digits)) {
        *place = *byte;
    }
    room
}

/// Adds a number in decimal, after a blank, where it is small.
pub(crate) fn put_small(text: &mut Vec<u8>, value: u64) -> Result<(), AllocError> {
    if let Some(decimal) = decimal_of(value) {
        text.extend_from_slice(decimal.trim_ascii_end())?;
    }
    Ok(())
}

/// Writes a number that is small in decimal over what stands at an offset; false where that has no room for it.
#[inline]
pub(crate) fn set_small(text: &mut [u8], start: usize, value: u64) -> bool {
    let Some(decimal) = decimal_of(value) else {
        return true;
    };
    let Some(rest) = text.get_mut(start..) else {
        return false;
    };
    let Some(room) = rest.first_chunk_mut::<DECIMAL>() else {
        return false;
    };
    *room = decimal;
    true
}

/// Adds a number in decimal, at the right of a column of this width.
pub(crate) fn put_right(text: &mut Vec<u8>, number: u64, width: usize) -> Result<(), AllocError> {
    let mut buffer = Buffer::new();
    let digits = buffer.format(number).as_bytes();
    put_blanks(text, width.saturating_sub(digits.len()))?;
    text.extend_from_slice(digits)?;
    Ok(())
}

/// Adds blanks.
pub(crate) fn put_blanks(text: &mut Vec<u8>, count: usize) -> Result<(), AllocError> {
    for _ in 0..count / 64 {
        text.extend_from_slice(&BLANKS)?;
    }
    text.extend_from_slice(&BLANKS[..count % 64])?;
    Ok(())
}

/// Fills a column that began at an offset of the text, to this width and one blank more.
pub(crate) fn fill_column(
    text: &mut Vec<u8>,
    start: usize,
    width: usize,
) -> Result<(), AllocError> {
    let used = text.len().saturating_sub(start);
    put_blanks(text, width.saturating_sub(used).saturating_add(1))
}

/// Adds a symbol and how far behind it an address is, as `f+0x4`; nothing where no symbol is known.
pub(crate) fn put_near(
    text: &mut Vec<u8>,
    near: Option<crate::places::Near<'_>>,
) -> Result<(), AllocError> {
    let Some(near) = near else {
        return Ok(());
    };
    put_name(text, near.name)?;
    if near.distance == 0 {
        return Ok(());
    }
    put(text, "+0x")?;
    rv_map::put_hexadecimal(text, near.distance)
}
