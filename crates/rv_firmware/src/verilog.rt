//! What Verilog's `$readmemh` reads, for a memory of bytes.

ghost use Rattle.std.specs.Prelude.{◌≡◌, ◌++◌, map, flat_map, [], ◌∷◌, OnOk, IfOk};
ghost use Rattle.hex.specs.Hex.{encode_upper as upper};
ghost use Rattle.rv_firmware.specs.Blocks.{block_of};
ghost use Rattle.rv_firmware.specs.FirmwareOf.{firmware_of};
ghost use Rattle.rv_firmware.specs.MemoryText.{IsMemoryText, memory_line};

use crate::block::Block;
use crate::firmware::Firmware;
use hex::encode_upper;
use std::alloc::{AllocError, Global};

/// The firmware as a text for `$readmemh`: lines of an address and at most 16 bytes.
pub fn memory_text(alloc: Global, firmware: &Firmware<'_>) -> Result<Vec<u8>, AllocError>
    ensures { IfOk result (λ text. IsMemoryText (firmware_of firmware.now) text.items) }
{
    let lines = firmware.lines(alloc)?;
    let mut text = Vec::new(alloc);
    put_lines(alloc, &mut text, lines.as_slice())?;
    Ok(text)
}

/// Adds lines.
fn put_lines(alloc: Global, text: &mut Vec<u8>, lines: &[Block<'_>]) -> Result<(), AllocError>
    ensures { OnOk result (text.new.items
        ≡ text.old.items ++ flat_map memory_line (map block_of lines.now)) }
{
    for line in lines {
        put_line(alloc, text, *line)?;
    }
    Ok(())
}

/// Adds a line.
fn put_line(alloc: Global, text: &mut Vec<u8>, line: Block<'_>) -> Result<(), AllocError>
    ensures { OnOk result (text.new.items ≡ text.old.items ++ memory_line (block_of line.entry)) }
{
    text.push(b'@')?;
    text.extend_from_slice(encode_upper(alloc, line.address.to_be_bytes())?.as_bytes())?;
    put_words(alloc, text, line.bytes)?;
    Ok(text.push(b'\n')?)
}

/// Adds bytes, each after a blank.
fn put_words(alloc: Global, text: &mut Vec<u8>, bytes: &[u8]) -> Result<(), AllocError>
    ensures { OnOk result (text.new.items
        ≡ text.old.items ++ flat_map (λ byte. 32 ∷ upper (byte ∷ [])) bytes.now) }
{
    for byte in bytes {
        text.push(b' ')?;
        text.extend_from_slice(encode_upper(alloc, [*byte])?.as_bytes())?;
    }
    Ok(())
}
