//! Numbers of seven bits a byte, the low ones first.
//!
//! Source: DWARF 5, 7.6 "Variable Length Data".

ghost use Rattle.std.specs.Prelude.{◌≡◌, ◌<◌, OnOk};
ghost use Rattle.rv_debug.specs.Writing.{AppendsUnsigned, AppendsSigned, signed, bits};

use std::alloc::AllocError;

/// Adds an unsigned number.
pub(crate) fn put_unsigned(out: &mut Vec<u8>, number: u64) -> Result<(), AllocError>
    ensures { OnOk result (AppendsUnsigned out.old.items out.new.items number) }
{
    let mut rest = number;
    while rest >= 128 {
        out.push((rest % 128) as u8 + 128)?;
        rest /= 128;
    }
    Ok(out.push(rest as u8)?)
}

/// Adds a signed number: a size, or, if it is negative, the number that much below -1.
pub(crate) fn put_signed(out: &mut Vec<u8>, negative: bool, size: u64) -> Result<(), AllocError>
    ensures { OnOk result (AppendsSigned out.old.items out.new.items (signed negative size)) }
{
    let mut rest = size;
    while rest >= 64 {
        out.push(low_bits(negative, (rest % 128) as u8) + 128)?;
        rest /= 128;
    }
    Ok(out.push(low_bits(negative, rest as u8))?)
}

/// Seven bits of a signed number, by those of its size.
fn low_bits(negative: bool, size: u8) -> u8
    requires { size < 128 }
    ensures is { result ≡ bits negative size }
    ensures seven { result < 128 }
{
    if negative { 127 - size } else { size }
}
