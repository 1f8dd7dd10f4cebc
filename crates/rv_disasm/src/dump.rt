//! Dumps of bytes.

ghost use Rattle.std.specs.Prelude.{◌≡◌, ◌≤◌, ◌++◌, OnOk, IfOk, length};
ghost use Rattle.hex.specs.Hex.{encode_lower};
ghost use Rattle.rv_disasm.specs.Dump.{dump_line, dump_of};

use hex::encode_to_slice;
use rv_map::put_padded;
use std::alloc::{AllocError, Global};

/// How many bytes stand on a line.
const LINE: usize = 16;

/// The bytes in hexadecimal, 16 a line, each line with the offset of its first byte in front.
pub fn hex_dump(alloc: Global, bytes: &[u8]) -> Result<Vec<u8>, AllocError>
    ensures { IfOk result (λ text. text.items ≡ dump_of bytes.now) }
{
    let mut text = Vec::new(alloc);
    let mut offset = 0;
    while offset < bytes.len() {
        let rest = &bytes[offset..];
        put_line(&mut text, offset as u64, &rest[..LINE.min(rest.len())])?;
        offset += LINE;
    }
    Ok(text)
}

/// Adds the line of at most 16 bytes.
fn put_line(text: &mut Vec<u8>, offset: u64, bytes: &[u8]) -> Result<(), AllocError>
    requires { length bytes.now ≤ 16 }
    ensures { OnOk result (text.new.items ≡ text.old.items ++ dump_line offset bytes.now) }
{
    put_padded(text, offset, 8)?;
    text.extend_from_slice(b": ")?;
    put_bytes(text, bytes)?;
    text.push(b'\n')?;
    Ok(())
}

/// Adds two digits a byte.
fn put_bytes(text: &mut Vec<u8>, bytes: &[u8]) -> Result<(), AllocError>
    requires { length bytes.now ≤ 16 }
    ensures { OnOk result (text.new.items ≡ text.old.items ++ encode_lower bytes.now) }
{
    let mut digits = [0; 2 * LINE];
    let written = &mut digits[..2 * bytes.len()];
    match encode_to_slice(bytes, written) {
        Ok(()) => Ok(text.extend_from_slice(written)?),
        // There are just as many digits as fit.
        Err(_) => Ok(()),
    }
}
