//! The digest of a memory, by which two runs can be compared.
//!
//! It is SHA-256 of the pages of 4096 bytes that have a byte other than 0, by ascending addresses: of each its address in
//! 8 bytes, the lowest first, and then its bytes. What lies outside of all segments and of the stack is 0, and so is a byte
//! that may be neither read nor executed. So it depends neither on where segments begin and end nor on how much of a stack
//! was used, and another program computes it from a replay of a trace.
//!
//! Source: FIPS 180-4.

use crate::report::Segments;
use rv_memory::{Memory, Right};
use sha2::{Digest, Sha256};
use std::alloc::{AllocError, Global};

/// The bytes of a page.
const PAGE: u64 = 4096;

/// The digest of a memory that has these segments.
pub(crate) fn memory_digest<M: Memory>(
    alloc: Global,
    memory: &M,
    segments: &Segments,
) -> Result<[u8; 32], AllocError> {
    let mut hasher = Sha256::new();
    let mut bytes = Vec::new(alloc);
    let mut next: u64 = 0;
    for (start, end) in &segments.ordered(alloc)? {
        let after = end.div_ceil(PAGE);
        add_pages(
            &mut hasher,
            memory,
            &mut bytes,
            (next.max(start / PAGE), after),
        )?;
        next = next.max(after);
    }
    Ok(hasher.finalize())
}

/// Adds the pages from one number on and below another.
fn add_pages<M: Memory>(
    hasher: &mut Sha256,
    memory: &M,
    bytes: &mut Vec<u8>,
    numbers: (u64, u64),
) -> Result<(), AllocError> {
    for number in numbers.0..numbers.1 {
        let address = number.wrapping_mul(PAGE);
        bytes.clear();
        if put_page(bytes, memory, address)? {
            hasher.update(address.to_le_bytes());
            hasher.update(bytes.as_slice());
        }
    }
    Ok(())
}

/// Adds the bytes of the page at an address; whether one is other than 0.
fn put_page<M: Memory>(bytes: &mut Vec<u8>, memory: &M, address: u64) -> Result<bool, AllocError> {
    let mut seen = 0;
    for k in 0..PAGE / 8 {
        let word = word_at(memory, address.wrapping_add(k.wrapping_mul(8)));
        seen |= word;
        bytes.extend_from_slice(&word.to_le_bytes())?;
    }
    Ok(seen != 0)
}

/// The little-endian number of the 8 bytes at an address.
fn word_at<M: Memory>(memory: &M, address: u64) -> u64 {
    let read = memory.try_load(address, 8, Right::Read);
    match read.or(memory.try_load(address, 8, Right::Execute)) {
        Some(word) => word,
        None => word_of_bytes(memory, address),
    }
}

/// The same, byte by byte.
fn word_of_bytes<M: Memory>(memory: &M, address: u64) -> u64 {
    let mut word: u64 = 0;
    for k in (0..8u64).rev() {
        word = word.wrapping_mul(256) | byte_at(memory, address.wrapping_add(k));
    }
    word
}

/// The byte at an address; 0 where it may be neither read nor executed.
fn byte_at<M: Memory>(memory: &M, address: u64) -> u64 {
    let read = memory.try_load(address, 1, Right::Read);
    match read.or(memory.try_load(address, 1, Right::Execute)) {
        Some(byte) => byte,
        None => 0,
    }
}
