//! Names as messages show them.

ghost use Rattle.std.specs.Prelude.{◌≡◌, ◌++◌, IfOk, OnOk, string_bytes};
ghost use Rattle.rv_system.specs.Messages.{escape_of, shown_byte, shown_name};

use std::alloc::{AllocError, Global};

/// A name in a line of a message: a byte that a map does not show stands as its number, as `\x1b`.
pub fn shown_name(alloc: Global, name: &[u8]) -> Result<String, AllocError>
    ensures { IfOk result (λ shown. string_bytes shown ≡ shown_name name.now) }
{
    let mut shown = String::new(alloc);
    for byte in name {
        put_byte(alloc, &mut shown, *byte)?;
    }
    Ok(shown)
}

/// Adds a byte of a name.
fn put_byte(alloc: Global, shown: &mut String, byte: u8) -> Result<(), AllocError>
    ensures { OnOk result (string_bytes shown.new ≡ string_bytes shown.old ++ shown_byte byte) }
{
    if b'!' <= byte && byte <= b'~' {
        return shown.push(char::from(byte));
    }
    put_number(alloc, shown, byte)
}

/// Adds a byte as its number.
fn put_number(alloc: Global, shown: &mut String, byte: u8) -> Result<(), AllocError>
    ensures { OnOk result (string_bytes shown.new ≡ string_bytes shown.old ++ escape_of byte) }
{
    let number = hex::encode(alloc, [byte])?;
    shown.push_str("\\x")?;
    shown.push_str(number.as_str())
}
