//! What of a machine's memory is not as in its image, piece by piece.
//!
//! An area is cut into chunks, and a chunk that is as in the image is no piece. A chunk that differs is one as a whole: where
//! it differs is not looked for.

ghost use Rattle.std.specs.Prelude.{
  ◌≡◌,
  ℕ,
  ◌+◌,
  ◌-◌,
  ◌*◌,
  ◌^◌,
  ◌≤◌,
  ◌<◌,
  ◌++◌,
  [],
  true,
  length,
  slice_index,
  OnOk,
};
ghost use Rattle.rv_isa_laws.specs.Memory.{Mem, bytes_at, may, Read as ToRead, Write as ToWrite};
ghost use Rattle.byteorder.specs.Endian.{little_bytes};
ghost use Rattle.rv_memory.specs.HeldPages.{held_pages};

use byteorder::{ByteOrder, LittleEndian};
use rv_memory::{Memory, Paged, append_bytes};
use std::alloc::{AllocError, Global};

/// How many bytes a piece has at most.
const CHUNK_BYTES: usize = 4096;

/// Pieces of memory, one after the other.
#[derive(Drop)]
pub struct Pieces {
    pub count: u64,
    pub bytes: Vec<u8>,
    /// Each has its address and its length at least.
    pub ghost within: { 16 * count ≤ length bytes.items },
}

impl Pieces {
    ghost use Rattle.rv_states.specs.Pieces.{Add};

    /// None.
    pub fn new(alloc: Global) -> Self
        ensures count { result.count ≡ 0 }
        ensures bytes { result.bytes.items ≡ [] }
    {
        Pieces {
            count: 0,
            bytes: Vec::new(alloc),
        }
    }

    /// Adds what differs of an area, where the image has these bytes.
    pub fn add_area(&mut self, memory: &Paged, address: u64, bytes: &[u8]) -> Result<(), AllocError>
        requires reads { may (held_pages memory.now) address (length bytes.now) ToRead ≡ true }
        requires writes { may (held_pages memory.now) address (length bytes.now) ToWrite ≡ true }
        requires ends { address + length bytes.now ≤ 2 ^ 64 }
        ensures { OnOk result ((image : Mem) →
            bytes_at image address (length bytes.now) ≡ bytes.now →
            Add self.old self.new image (held_pages memory.now) address (length bytes.now)) }
    {
        let mut from = 0;
        while from < bytes.len() {
            let count = (bytes.len() - from).min(CHUNK_BYTES);
            self.add_chunk(memory, address + from as u64, &bytes[from..from + count])?;
            from += count;
        }
        Ok(())
    }

    /// Adds what differs of an area, where the image has zeros.
    pub fn add_zeros(&mut self, memory: &Paged, start: u64, end: u64) -> Result<(), AllocError>
        requires order { start ≤ end }
        requires reads { may (held_pages memory.now) start (end - start) ToRead ≡ true }
        requires writes { may (held_pages memory.now) start (end - start) ToWrite ≡ true }
        ensures { OnOk result ((image : Mem) →
            ((x : ℕ) → start ≤ x → x < end → image.byte x ≡ 0) →
            Add self.old self.new image (held_pages memory.now) start (end - start)) }
    {
        let zeros = zeros();
        self.add_zeros_by(memory, start, end, &zeros)
    }

    /// The same in chunks of these zeros.
    fn add_zeros_by(
        &mut self,
        memory: &Paged,
        start: u64,
        end: u64,
        zeros: &[u8],
    ) -> Result<(), AllocError>
        requires order { start ≤ end }
        requires some { 0 < length zeros.now }
        requires zeros { (k : ℕ) → slice_index zeros.now k ≡ 0 }
        requires reads { may (held_pages memory.now) start (end - start) ToRead ≡ true }
        requires writes { may (held_pages memory.now) start (end - start) ToWrite ≡ true }
        ensures { OnOk result ((image : Mem) →
            ((x : ℕ) → start ≤ x → x < end → image.byte x ≡ 0) →
            Add self.old self.new image (held_pages memory.now) start (end - start)) }
    {
        let mut address = start;
        while address < end {
            let count = (end - address).min(zeros.len() as u64);
            self.add_chunk(memory, address, zeros.split_at(count as usize).0)?;
            address += count;
        }
        Ok(())
    }

    /// Adds a chunk, unless it is as in the image, where it has these bytes.
    fn add_chunk(&mut self, memory: &Paged, address: u64, bytes: &[u8]) -> Result<(), AllocError>
        requires reads { may (held_pages memory.now) address (length bytes.now) ToRead ≡ true }
        requires writes { may (held_pages memory.now) address (length bytes.now) ToWrite ≡ true }
        requires ends { address + length bytes.now ≤ 2 ^ 64 }
        ensures { OnOk result ((image : Mem) →
            bytes_at image address (length bytes.now) ≡ bytes.now →
            Add self.old self.new image (held_pages memory.now) address (length bytes.now)) }
    {
        if has_bytes(memory, address, bytes) {
            return Ok(());
        }
        self.add(memory, address, bytes.len() as u64)
    }

    /// Adds a piece.
    fn add(&mut self, memory: &Paged, address: u64, count: u64) -> Result<(), AllocError>
        requires reads { may (held_pages memory.now) address count ToRead ≡ true }
        requires writes { may (held_pages memory.now) address count ToWrite ≡ true }
        requires ends { address + count ≤ 2 ^ 64 }
        ensures { OnOk result ((image : Mem) →
            Add self.old self.new image (held_pages memory.now) address count) }
    {
        let head = numbers_of_piece(address, count);
        self.bytes.extend_from_slice(&head)?;
        append_bytes(memory, address, count, &mut self.bytes)?;
        self.count += 1;
        Ok(())
    }
}

/// A chunk of zeros.
fn zeros() -> [u8; CHUNK_BYTES]
    ensures { (k : ℕ) → slice_index result k ≡ 0 }
{
    [0; CHUNK_BYTES]
}

/// Address and length of a piece.
fn numbers_of_piece(address: u64, count: u64) -> [u8; 16]
    ensures { result ≡ little_bytes 8 address ++ little_bytes 8 count }
{
    let mut head = [0; 16];
    LittleEndian::write_u64_into(&[address, count], &mut head);
    head
}

/// Whether memory surely has these bytes from an address on.
fn has_bytes(memory: &Paged, address: u64, bytes: &[u8]) -> bool
    ensures { result ≡ true →
        bytes_at (held_pages memory.now) address (length bytes.now) ≡ bytes.now }
{
    let piece = memory.piece(address);
    if piece.len() < bytes.len() {
        return false;
    }
    piece.split_at(bytes.len()).0 == bytes
}
