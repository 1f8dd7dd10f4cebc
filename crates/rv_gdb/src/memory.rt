//! Memory as a debugger sees it: all that exists, whatever may be done with it.

ghost use Rattle.std.specs.Prelude.{◌≡◌, ◌++◌, ◌%◌, ◌^◌, [], IfOk, IfSome};
ghost use Rattle.rv_isa_laws.specs.Memory.{bytes_at};
ghost use Rattle.rv_memory.specs.HeldPages.{held_pages};
ghost use Rattle.rv_gdb_packets.specs.Digits.{digits};

use rv_gdb_packets::{Range, put_byte};
use rv_memory::{Memory, Paged};
use std::alloc::{AllocError, Global};

/// The most bytes that a packet asks for: its answer has two digits for each.
pub const READ_LIMIT: u64 = 4096;

/// Bytes that are to stand in memory from an address on in place of those that are there.
#[derive(Drop)]
pub struct Write {
    pub address: u64,
    pub bytes: Vec<u8>,
}

/// The byte at an address, if there is one.
pub fn byte_at(memory: &Paged, address: u64) -> Option<u8>
    ensures { IfSome result (λ byte. byte ≡ (held_pages memory.now).byte (address % 2 ^ 64)) }
{
    match memory.piece(address) {
        [byte, ..] => Some(*byte),
        [] => None,
    }
}

/// A byte at an address, or the latest that is to stand there.
fn overwritten(byte: u8, writes: &[Write], address: u64) -> u8
    ensures { writes.now ≡ [] → result ≡ byte }
{
    let mut latest = byte;
    for write in writes {
        let offset = address.wrapping_sub(write.address);
        if offset < write.bytes.len() as u64 {
            latest = write.bytes[offset as usize];
        }
    }
    latest
}

/// The byte that is to stand at an address, if one does.
fn written_at(memory: &Paged, writes: &[Write], address: u64) -> Option<u8>
    ensures { IfSome result (λ byte. writes.now ≡ [] →
        byte ≡ (held_pages memory.now).byte (address % 2 ^ 64)) }
{
    match byte_at(memory, address) {
        Some(byte) => Some(overwritten(byte, writes, address)),
        None => None,
    }
}

/// Adds the digits of bytes, up to the first that does not exist; how many there are.
pub fn put_memory(
    text: &mut Vec<u8>,
    memory: &Paged,
    writes: &[Write],
    range: Range,
) -> Result<u64, AllocError>
    ensures { IfOk result (λ count. writes.now ≡ [] → text.new.items
        ≡ text.old.items ++ digits (bytes_at (held_pages memory.now) range.address count)) }
{
    let most = range.length.min(READ_LIMIT);
    for index in 0..most {
        match written_at(memory, writes, range.address.wrapping_add(index)) {
            Some(byte) => put_byte(text, byte)?,
            None => return Ok(index),
        }
    }
    Ok(most)
}

/// Whether all of these bytes can stand in memory, and whether they are to stand there already.
pub fn stand_in(memory: &Paged, writes: &[Write], from: u64, bytes: &[u8]) -> Option<bool> {
    let mut same = true;
    let mut address = from;
    for byte in bytes {
        same = written_at(memory, writes, address)? == *byte && same;
        address = address.wrapping_add(1);
    }
    Some(same)
}

/// Puts bytes that are to stand in memory into a copy of the memory from an address on.
fn put_write(copy: &mut [u8], start: u64, write: &Write) {
    let mut offset = write.address.wrapping_sub(start);
    for byte in &write.bytes {
        if offset < copy.len() as u64 {
            copy[offset as usize] = *byte;
        }
        offset = offset.wrapping_add(1);
    }
}

/// Adds the bytes of a range, of which each that does not exist is 0.
fn put_bytes_of(copy: &mut Vec<u8>, memory: &Paged, range: Range) -> Result<(), AllocError> {
    let mut done = 0;
    for _ in 0..range.length {
        if done >= range.length {
            break;
        }
        let piece = memory.piece(range.address.wrapping_add(done));
        let count = (range.length - done).min(piece.len() as u64);
        if count == 0 {
            copy.push(0)?;
            done += 1;
        } else {
            copy.extend_from_slice(piece.split_at(count as usize).0)?;
            done += count;
        }
    }
    Ok(())
}

/// The bytes of a range, with those that are to stand there.
pub fn copy_of(
    alloc: Global,
    memory: &Paged,
    writes: &[Write],
    range: Range,
) -> Result<Vec<u8>, AllocError> {
    let mut copy = Vec::new(alloc);
    put_bytes_of(&mut copy, memory, range)?;
    for write in writes {
        put_write(copy.as_mut_slice(), range.address, write);
    }
    Ok(copy)
}
