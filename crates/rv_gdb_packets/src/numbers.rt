//! Numbers in hexadecimal, as packets have them.

ghost use Rattle.std.specs.Prelude.{
  ◌≡◌,
  ◌+◌,
  ◌^◌,
  ◌<◌,
  ◌≤◌,
  ◌==◌,
  ◌++◌,
  if◌then◌else◌,
  IfSome,
  OnOk,
  Some,
  None,
  length,
  drop,
};
ghost use Rattle.rv_gdb_packets.specs.Numbers.{number_on};
ghost use Rattle.rv_gdb_packets.specs.Digits.{byte_digits, digits, value_digits};

use crate::digits::{digit_of, glyph_of};
use std::alloc::{AllocError, Global};

/// A number that stands in a packet.
#[derive(Clone, Copy, Drop)]
pub struct Number {
    pub value: u64,
    /// The index of the byte behind its last digit.
    pub end: usize,
}

/// The number of digits that were read, if there are any.
fn number_of(value: u64, start: usize, count: usize) -> Option<Number>
    requires { start + count < 2 ^ 64 }
    ensures { result ≡ (if count == 0 then None
        else Some (record { value = value; «end» = start + count })) }
{
    if count == 0 {
        return None;
    }
    Some(Number {
        value,
        end: start + count,
    })
}

/// The number whose digits stand from an index on, one digit at least; none where it is 2^64 or more.
pub fn number_at(bytes: &[u8], start: usize) -> Option<Number>
    ensures value { IfSome result (λ number. number.value ≡ number_on 0 (drop start bytes.now)) }
    ensures within { IfSome result (λ number. number.end ≤ length bytes.now) }
{
    let start = start.min(bytes.len());
    let digits = bytes.split_at(start).1;
    let mut value: u64 = 0;
    for (count, byte) in digits.iter().enumerate() {
        match digit_of(*byte) {
            None => return number_of(value, start, count),
            Some(digit) => {
                if value >= 1 << 60 {
                    return None;
                }
                value = value * 16 + u64::from(digit);
            }
        }
    }
    number_of(value, start, digits.len())
}

/// The number that stands behind a letter at an index.
pub fn number_behind(bytes: &[u8], at: usize, letter: u8) -> Option<Number>
    ensures { IfSome result (λ number. number.end ≤ length bytes.now) }
{
    if at < bytes.len() && bytes[at] == letter {
        return number_at(bytes, at + 1);
    }
    None
}

/// The bytes that pairs of digits spell, all of them.
pub fn bytes_of(alloc: Global, digits: &[u8]) -> Result<Option<Vec<u8>>, AllocError> {
    let mut bytes = Vec::new(alloc);
    let mut high = None;
    for digit in digits {
        let Some(value) = digit_of(*digit) else {
            return Ok(None);
        };
        match high {
            None => high = Some(value),
            Some(first) => {
                bytes.push(first << 4 | value)?;
                high = None;
            }
        }
    }
    match high {
        None => Ok(Some(bytes)),
        Some(_) => Ok(None),
    }
}

/// Adds the two digits of a byte.
pub fn put_byte(text: &mut Vec<u8>, byte: u8) -> Result<(), AllocError>
    ensures { OnOk result (text.new.items ≡ text.old.items ++ byte_digits byte) }
{
    text.push(glyph_of(byte / 16))?;
    text.push(glyph_of(byte % 16))?;
    Ok(())
}

/// Adds the digits of bytes.
pub fn put_bytes(text: &mut Vec<u8>, bytes: &[u8]) -> Result<(), AllocError>
    ensures { OnOk result (text.new.items ≡ text.old.items ++ digits bytes.now) }
{
    for byte in bytes {
        put_byte(text, *byte)?;
    }
    Ok(())
}

/// Adds the digits of the eight bytes of a value, the lowest first, as the target has them.
pub fn put_value(text: &mut Vec<u8>, value: u64) -> Result<(), AllocError>
    ensures { OnOk result (text.new.items ≡ text.old.items ++ value_digits value) }
{
    put_bytes(text, &value.to_le_bytes())
}

/// Adds a number, the highest digit first.
pub fn put_number(text: &mut Vec<u8>, number: u64) -> Result<(), AllocError> {
    let mut begun = false;
    for place in 0..16u32 {
        let digit = (number >> (60 - 4 * place) & 15) as u8;
        begun = begun || digit != 0 || place == 15;
        if begun {
            text.push(glyph_of(digit))?;
        }
    }
    Ok(())
}
