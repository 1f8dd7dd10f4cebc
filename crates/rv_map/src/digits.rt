//! Numbers in hexadecimal, added to a text.

ghost use Rattle.std.specs.Prelude.{◌≡◌, ◌<◌, ◌++◌, OnOk, drop, replicate, false};
ghost use Rattle.std.specs.Fmt.{digit_glyph};
ghost use Rattle.rv_map_laws.specs.Text.{hexadecimal, padded};

use std::alloc::AllocError;

/// The most digits that a number has.
const DIGITS: usize = 16;

/// The digits, in lower case.
static GLYPHS: [u8; 16] = *b"0123456789abcdef";

/// Adds a number in hexadecimal, in lower case and without zeros in front.
pub fn put_hexadecimal(text: &mut Vec<u8>, number: u64) -> Result<(), AllocError>
    ensures { OnOk result (text.new.items ≡ text.old.items ++ hexadecimal number) }
{
    let mut digits = [0; DIGITS];
    let start = write_hexadecimal(&mut digits, number);
    text.extend_from_slice(&digits[start..])?;
    Ok(())
}

/// Adds a number in hexadecimal, in lower case, with zeros in front where it has fewer digits than `width`.
pub fn put_padded(text: &mut Vec<u8>, number: u64, width: usize) -> Result<(), AllocError>
    ensures { OnOk result (text.new.items ≡ text.old.items ++ padded width number) }
{
    let mut digits = [0; DIGITS];
    let start = write_hexadecimal(&mut digits, number);
    put_zeros(text, width.saturating_sub(DIGITS - start))?;
    text.extend_from_slice(&digits[start..])?;
    Ok(())
}

/// Adds zeros.
fn put_zeros(text: &mut Vec<u8>, count: usize) -> Result<(), AllocError>
    ensures { OnOk result (text.new.items ≡ text.old.items ++ replicate count 48) }
{
    for _ in 0..count {
        text.push(b'0')?;
    }
    Ok(())
}

/// Writes a number's digits in hexadecimal, in lower case, at the end of the array, and gives the index of the first.
pub fn write_hexadecimal(digits: &mut [u8; DIGITS], number: u64) -> usize
    ensures fits { result < 16 }
    ensures written { drop result digits.new ≡ hexadecimal number }
{
    let mut start = DIGITS - 1;
    let mut rest = number;
    while rest >= 16 {
        digits[start] = digit(rest % 16);
        rest /= 16;
        start -= 1;
    }
    digits[start] = digit(rest);
    start
}

/// The hexadecimal digit of a number below 16.
fn digit(number: u64) -> u8
    requires { number < 16 }
    ensures { result ≡ digit_glyph false number }
{
    GLYPHS[number as usize]
}
