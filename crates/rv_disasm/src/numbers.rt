//! Numbers after a byte, added to a text.

ghost use Rattle.std.specs.Prelude.{◌≡◌, ◌++◌, ◌∷◌, OnOk, decimal};
ghost use Rattle.std.specs.Fmt.{signed_decimal};
ghost use Rattle.rv_listing_laws.specs.Instruction.{distant};
ghost use Rattle.rv_listing_laws.specs.Numbers.{prefixed};

use itoa::Buffer;
use rv_map::put_hexadecimal;
use std::alloc::AllocError;

/// Adds a number in decimal, after a byte.
pub(crate) fn put_decimal(text: &mut Vec<u8>, before: u8, number: u64) -> Result<(), AllocError>
    ensures { OnOk result (text.new.items ≡ text.old.items ++ before ∷ decimal number) }
{
    text.push(before)?;
    text.extend_from_slice(Buffer::new().format(number).as_bytes())?;
    Ok(())
}

/// Adds a number with its sign in decimal, after a byte.
pub(crate) fn put_signed(text: &mut Vec<u8>, before: u8, number: i32) -> Result<(), AllocError>
    ensures { OnOk result (text.new.items ≡ text.old.items ++ before ∷ signed_decimal number) }
{
    text.push(before)?;
    text.extend_from_slice(Buffer::new().format(number).as_bytes())?;
    Ok(())
}

/// Adds `0x` and a number in hexadecimal, after a byte.
pub(crate) fn put_prefixed(text: &mut Vec<u8>, before: u8, number: u64) -> Result<(), AllocError>
    ensures { OnOk result (text.new.items ≡ text.old.items ++ before ∷ prefixed number) }
{
    text.push(before)?;
    text.extend_from_slice(b"0x")?;
    put_hexadecimal(text, number)?;
    Ok(())
}

/// Adds how far a target is from its instruction, after a byte.
pub(crate) fn put_distance(text: &mut Vec<u8>, before: u8, offset: i32) -> Result<(), AllocError>
    ensures { OnOk result (text.new.items ≡ text.old.items ++ before ∷ distant offset) }
{
    text.push(before)?;
    text.push(b'.')?;
    let sign = if offset < 0 { b'-' } else { b'+' };
    put_decimal(text, sign, u64::from(offset.unsigned_abs()))?;
    Ok(())
}
