//! Texts, and numbers in hexadecimal of a fixed width, added to a text.

ghost use Rattle.std.specs.Prelude.{◌≡◌, ◌-◌, ◌<◌, ◌≤◌, ◌++◌, OnOk, drop, false};
ghost use Rattle.std.specs.Fmt.{digit_glyph};
ghost use Rattle.rv_event_text_laws.specs.EventLine.{hex_digits};

use std::alloc::AllocError;

/// The most digits of a number.
const DIGITS: usize = 16;

/// Adds a text.
#[inline]
pub(crate) fn put(text: &mut Vec<u8>, added: &str) -> Result<(), AllocError>
    ensures { OnOk result (text.new.items ≡ text.old.items ++ added.now) }
{
    text.extend_from_slice(added.as_bytes())?;
    Ok(())
}

/// Adds so many of the last digits of a number, in lower case.
#[inline]
pub(crate) fn put_digits(text: &mut Vec<u8>, count: usize, number: u64) -> Result<(), AllocError>
    requires { count ≤ 16 }
    ensures { OnOk result (text.new.items ≡ text.old.items ++ hex_digits count number) }
{
    let mut digits = [0; DIGITS];
    let start = write_digits(&mut digits, count, number);
    text.extend_from_slice(&digits[start..])?;
    Ok(())
}

/// Writes so many of the last digits of a number at the end of the array, and gives the index of the first.
#[inline]
fn write_digits(digits: &mut [u8; DIGITS], count: usize, number: u64) -> usize
    requires { count ≤ 16 }
    ensures first { result ≡ 16 - count }
    ensures written { drop result digits.new ≡ hex_digits count number }
{
    let mut rest = number;
    for k in 0..count {
        digits[DIGITS - 1 - k] = glyph(rest % 16);
        rest /= 16;
    }
    DIGITS - count
}

/// The digit of a number below 16, in lower case.
#[inline]
fn glyph(number: u64) -> u8
    requires { number < 16 }
    ensures { result ≡ digit_glyph false number }
{
    let number = number as u8;
    if number < 10 {
        b'0' + number
    } else {
        b'a' - 10 + number
    }
}
