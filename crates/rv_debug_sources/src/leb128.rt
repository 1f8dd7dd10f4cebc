//! Numbers of seven bits a byte, the low ones first, as operands of `.byte`.
//!
//! Source: DWARF 5, 7.6 "Variable Length Data".

ghost use Rattle.std.specs.Prelude.{◌≡◌, ◌+◌, ◌<◌, ◌++◌, codes, OnOk};
ghost use Rattle.rv_debug_sources.specs.Leb128 as laws;

use std::alloc::AllocError;

/// The most bytes of a number of 64 bits.
const MOST_BYTES: u32 = 10;

/// Adds the statement of an unsigned number's bytes.
pub(crate) fn put_unsigned_bytes(text: &mut Vec<u8>, number: u64) -> Result<(), AllocError>
    ensures { OnOk result (text.new.items
        ≡ text.old.items ++ (codes ".byte " ++ laws.unsigned_text 10 number)) }
{
    text.extend_from_slice(b".byte ")?;
    Ok(put_unsigned(text, number)?)
}

/// Adds the statement of a signed number's bytes.
pub(crate) fn put_signed_bytes(
    text: &mut Vec<u8>,
    negative: bool,
    size: u64,
) -> Result<(), AllocError>
    ensures { OnOk result (text.new.items
        ≡ text.old.items ++ (codes ".byte " ++ laws.signed_text 10 negative size)) }
{
    text.extend_from_slice(b".byte ")?;
    Ok(put_signed(text, negative, size)?)
}

/// Adds an unsigned number.
pub(crate) fn put_unsigned(text: &mut Vec<u8>, number: u64) -> Result<(), AllocError>
    ensures { OnOk result (text.new.items ≡ text.old.items ++ laws.unsigned_text 10 number) }
{
    let mut rest = number;
    let mut most = MOST_BYTES;
    while most > 0 {
        if rest < 128 {
            put_byte(text, rest as u8)?;
            return Ok(());
        }
        put_part(text, (rest % 128) as u8 + 128)?;
        rest /= 128;
        most -= 1;
    }
    Ok(())
}

/// Adds a signed number: a size, or, if it is negative, the number that much below -1.
pub(crate) fn put_signed(text: &mut Vec<u8>, negative: bool, size: u64) -> Result<(), AllocError>
    ensures { OnOk result (text.new.items ≡ text.old.items ++ laws.signed_text 10 negative size) }
{
    let mut rest = size;
    let mut most = MOST_BYTES;
    while most > 0 {
        if rest < 64 {
            put_last(text, negative, rest as u8)?;
            return Ok(());
        }
        put_next(text, negative, (rest % 128) as u8)?;
        rest /= 128;
        most -= 1;
    }
    Ok(())
}

/// Adds the last byte of a signed number, by seven bits of its size.
fn put_last(text: &mut Vec<u8>, negative: bool, size: u8) -> Result<(), AllocError>
    requires { size < 128 }
    ensures { OnOk result (text.new.items
        ≡ text.old.items ++ laws.byte_text (laws.seven_bits negative size)) }
{
    Ok(put_byte(text, seven_bits(negative, size))?)
}

/// Adds another byte of a signed number, by seven bits of its size.
fn put_next(text: &mut Vec<u8>, negative: bool, size: u8) -> Result<(), AllocError>
    requires { size < 128 }
    ensures { OnOk result (text.new.items
        ≡ text.old.items ++ laws.part_text (laws.seven_bits negative size + 128)) }
{
    Ok(put_part(text, seven_bits(negative, size) + 128)?)
}

/// Seven bits of a signed number, by those of its size.
fn seven_bits(negative: bool, size: u8) -> u8
    requires { size < 128 }
    ensures is { result ≡ laws.seven_bits negative size }
    ensures seven { result < 128 }
{
    if negative { 127 - size } else { size }
}

/// Adds a byte.
pub(crate) fn put_byte(text: &mut Vec<u8>, byte: u8) -> Result<(), AllocError>
    ensures { OnOk result (text.new.items ≡ text.old.items ++ laws.byte_text byte) }
{
    text.extend_from_slice(&[b'0', b'x', digit(byte / 16), digit(byte % 16)])
}

/// Adds a byte and a comma.
pub(crate) fn put_part(text: &mut Vec<u8>, byte: u8) -> Result<(), AllocError>
    ensures { OnOk result (text.new.items ≡ text.old.items ++ laws.part_text byte) }
{
    text.extend_from_slice(&[b'0', b'x', digit(byte / 16), digit(byte % 16), b','])
}

/// A hexadecimal digit.
pub(crate) fn digit(number: u8) -> u8
    requires { number < 16 }
    ensures { result ≡ laws.digit number }
{
    if number < 10 {
        b'0' + number
    } else {
        b'a' - 10 + number
    }
}
