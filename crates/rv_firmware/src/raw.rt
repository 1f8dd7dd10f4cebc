//! Raw binaries: bytes side by side, with a byte of the caller's in the gaps.

ghost use Rattle.std.specs.Prelude.{◌≡◌, ◌+◌, ◌-◌, ◌≤◌, ◌<◌, length, IfOk};
ghost use Rattle.rv_firmware.specs.Blocks.{block_of};
ghost use Rattle.rv_firmware.specs.Binary.{binary_of, first_address, end_address, with_block};
ghost use Rattle.rv_firmware.specs.FirmwareOf.{firmware_of};

use crate::block::Block;
use crate::firmware::Firmware;
use std::alloc::{AllocError, Global};

/// All bytes from the lowest address to the highest; `fill` where the firmware has none.
pub fn binary(alloc: Global, firmware: &Firmware<'_>, fill: u8) -> Result<Vec<u8>, AllocError>
    ensures { IfOk result (λ bytes.
        bytes.items ≡ binary_of fill (firmware_of firmware.now).blocks) }
{
    let first = firmware.first_address();
    let size = firmware.end_address().saturating_sub(u64::from(first));
    let mut bytes = vec![in alloc; fill; size as usize]?;
    for block in &firmware.blocks {
        put_block(&mut bytes, first, *block);
    }
    Ok(bytes)
}

/// Puts the bytes of a block in their place.
fn put_block(bytes: &mut Vec<u8>, first: u32, block: Block<'_>)
    requires after { first ≤ block.address }
    requires within { block.address + length block.bytes.now ≤ first + length bytes.old.items }
    ensures { bytes.new.items ≡ with_block first bytes.old.items (block_of block.entry) }
{
    let at = (block.address - first) as usize;
    bytes[at..at + block.bytes.len()].copy_from_slice(block.bytes);
}
