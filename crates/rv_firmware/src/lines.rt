//! The lines of a text: the bytes of blocks, cut where an address is a multiple of 16.

ghost use Rattle.std.specs.Prelude.{◌≡◌, ◌+◌, ◌^◌, ◌<◌, ◌≤◌, ◌++◌, true, length, take, drop, map, [], ◌∷◌, IfOk, OnOk};
ghost use Rattle.std.specs.List.{list_all};
ghost use Rattle.rv_firmware.specs.Binary.{first_address, end_address};
ghost use Rattle.rv_firmware.specs.Blocks.{block_of, cells_of, is_line};
ghost use Rattle.rv_firmware.specs.FirmwareOf.{firmware_of};

use crate::block::Block;
use crate::firmware::Firmware;
use std::alloc::{AllocError, Global};

/// The most bytes of a line of text: the lines of a block begin at multiples of it.
pub(crate) const LINE: u32 = 16;

impl<'a> Firmware<'a> {
    /// The lowest address; without any bytes, the last that there is.
    pub fn first_address(&self) -> u32
        ensures { result ≡ first_address (firmware_of self.now).blocks }
    {
        let mut first = u32::MAX;
        for block in &self.blocks {
            first = first.min(block.address);
        }
        first
    }

    /// The address after the highest; 0 where there are no bytes.
    pub fn end_address(&self) -> u64
        ensures value { result ≡ end_address (firmware_of self.now).blocks }
        ensures fits { result ≤ 2 ^ 32 }
    {
        let mut end = 0u64;
        for block in &self.blocks {
            end = end.max(u64::from(block.address) + block.bytes.len() as u64);
        }
        end
    }

    /// The same bytes in the same order, as blocks that each fit on a line.
    pub fn lines(&self, alloc: Global) -> Result<Vec<Block<'a>>, AllocError>
        ensures lines { IfOk result (λ lines. list_all is_line (map block_of lines.items) ≡ true) }
        ensures cells { IfOk result (λ lines.
            cells_of (map block_of lines.items) ≡ cells_of (firmware_of self.now).blocks) }
    {
        let mut lines = Vec::new(alloc);
        for block in &self.blocks {
            put_lines(&mut lines, *block)?;
        }
        Ok(lines)
    }
}

/// Adds the lines of a block.
fn put_lines<'a>(lines: &mut Vec<Block<'a>>, block: Block<'a>) -> Result<(), AllocError>
    ensures lines { OnOk result (list_all is_line (map block_of lines.old.items) ≡ true →
        list_all is_line (map block_of lines.new.items) ≡ true) }
    ensures cells { OnOk result (cells_of (map block_of lines.new.items)
        ≡ cells_of (map block_of lines.old.items) ++ cells_of (block_of block.entry ∷ [])) }
{
    let mut at = 0;
    while at < block.bytes.len() {
        let next = line(block, at);
        at += next.bytes.len();
        lines.push(next)?;
    }
    Ok(())
}

/// The line of a block from the byte at `at` on.
fn line(block: Block<'_>, at: usize) -> Block<'_>
    requires { at < length block.bytes.now }
    ensures address { result.address ≡ block.entry.address + at }
    ensures bytes { result.bytes.now
        ≡ take (length result.bytes.now) (drop at block.entry.bytes.now) }
    ensures some { 0 < length result.bytes.now }
    ensures within { at + length result.bytes.now ≤ length block.entry.bytes.now }
    ensures line { is_line (block_of result) ≡ true }
{
    let address = (u64::from(block.address) + at as u64) as u32;
    let room = (LINE - address % LINE) as usize;
    let count = room.min(block.bytes.len() - at);
    Block {
        address,
        bytes: &block.bytes[at..at + count],
    }
}
