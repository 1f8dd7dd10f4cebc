//! The bytes that a call of the environment moved, where they stand in memory.

use rv_machine::Span;
use rv_memory::{Memory, Right};
use sha2::{Digest, Sha256};
use std::alloc::AllocError;

/// Adds bytes of memory to a text.
pub(crate) fn put_span<M: Memory>(
    text: &mut Vec<u8>,
    memory: &M,
    span: Span,
) -> Result<(), AllocError> {
    for k in 0..span.count {
        text.push(byte_at(memory, span.address.wrapping_add(k)))?;
    }
    Ok(())
}

/// Adds bytes of memory to what is hashed.
pub(crate) fn add_span<M: Memory>(hasher: &mut Sha256, memory: &M, span: Span) {
    for k in 0..span.count {
        let byte = [byte_at(memory, span.address.wrapping_add(k))];
        hasher.update(byte.as_slice());
    }
}

/// The byte at an address; one that may be written, but not be read, stands in its piece.
fn byte_at<M: Memory>(memory: &M, address: u64) -> u8 {
    match memory.try_load(address, 1, Right::Read) {
        Some(byte) => (byte % 256) as u8,
        None => memory.piece(address).first().copied().unwrap_or(0),
    }
}
