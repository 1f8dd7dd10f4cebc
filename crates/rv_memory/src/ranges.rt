//! Bytes moved into a memory, and out of it.

ghost use Rattle.std.specs.Prelude.{◌≡◌, ◌++◌, length, true, MatchResult};
ghost use Rattle.rv_isa_laws.specs.Memory.{
  may,
  bytes_at,
  with_bytes,
  Read as ToRead,
  Write as ToWrite,
};

use crate::memory::Memory;
use std::alloc::AllocError;

/// Puts bytes into memory, from an address on.
pub fn put_bytes<M: Memory>(memory: &mut M, address: u64, bytes: &[u8])
    requires { may (M.mem memory.old) address (length bytes.now) ToWrite ≡ true }
    ensures { M.mem memory.new ≡ with_bytes (M.mem memory.old) address bytes.now }
{
    if memory.put_piece(address, bytes) {
        return;
    }
    for (k, byte) in bytes.iter().enumerate() {
        memory.store(address.wrapping_add(k as u64), 1, u64::from(*byte));
    }
}

/// Appends `count` bytes from an address on. Where memory runs out, `out` is as before.
pub fn append_bytes<M: Memory>(
    memory: &M,
    address: u64,
    count: u64,
    out: &mut Vec<u8>,
) -> Result<(), AllocError>
    requires { may (M.mem memory.now) address count ToRead ≡ true }
    ensures { MatchResult result
        (λ _. out.new.items ≡ out.old.items ++ bytes_at (M.mem memory.now) address count)
        (λ _. out.new.items ≡ out.old.items) }
{
    let piece = memory.piece(address);
    if count <= piece.len() as u64 {
        out.extend_from_slice(piece.split_at(count as usize).0)?;
        return Ok(());
    }
    out.reserve(count as usize)?;
    for k in 0..count {
        let byte = memory.load(address.wrapping_add(k), 1) as u8;
        out.push_reserved(byte);
    }
    Ok(())
}
