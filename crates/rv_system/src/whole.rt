//! Readers, read to their end.

ghost use Rattle.std.specs.Prelude.{◌≤◌, ◌<◌, length, IfOk};
ghost use Rattle.std.specs.Io.KnownBytes.{Consumes, IsAtEnd};

use std::alloc::{AllocError, AllocFailed, Global};
use std::io::Read;
use thiserror::Error;

/// The most bytes of one read: each comes into the same memory, which costs less than memory that nobody has touched.
const PIECE: usize = 1 << 16;

/// Why bytes were not read.
#[derive(Debug, Drop, Error)]
pub enum ReadFault {
    /// The system refused, or there are too many.
    #[error("cannot read")]
    Failed,
    #[error("out of memory")]
    Memory,
}

impl From<AllocError> for ReadFault {
    fn from(_: AllocError) -> Self {
        ReadFault::Memory
    }
}

impl<T: Drop> From<AllocFailed<T>> for ReadFault {
    fn from(_: AllocFailed<T>) -> Self {
        ReadFault::Memory
    }
}

/// What a reader gives to its end, in pieces; `Failed` beyond the limit.
pub fn read_whole<R: Read>(
    alloc: Global,
    reader: &mut R,
    limit: usize,
) -> Result<Vec<u8>, ReadFault>
    ensures within { IfOk result (λ all. length all.items ≤ limit) }
    ensures bytes { IfOk result (λ all.
        Consumes (R.remaining reader.old) (R.remaining reader.new) all.items) }
    ensures end { IfOk result (λ _. IsAtEnd (R.remaining reader.new)) }
{
    read_sized(alloc, reader, 0, limit)
}

/// The same of a reader that is said to have this many bytes, as a file is, for which there is room from the start. It may
/// have fewer or more; no size is 0.
pub fn read_sized<R: Read>(
    alloc: Global,
    reader: &mut R,
    size: usize,
    limit: usize,
) -> Result<Vec<u8>, ReadFault>
    ensures within { IfOk result (λ all. length all.items ≤ limit) }
    ensures bytes { IfOk result (λ all.
        Consumes (R.remaining reader.old) (R.remaining reader.new) all.items) }
    ensures end { IfOk result (λ _. IsAtEnd (R.remaining reader.new)) }
{
    let mut all = Vec::with_capacity(alloc, size.min(limit))?;
    let mut piece = vec![in alloc; 0u8; piece_size(size)]?;
    for _ in 0..u64::MAX {
        let Ok(count) = reader.read(piece.as_mut_slice()) else {
            return Err(ReadFault::Failed);
        };
        if count == 0 {
            return Ok(all);
        }
        if count > limit || all.len() > limit - count {
            return Err(ReadFault::Failed);
        }
        all.extend_from_slice(&piece[..count])?;
    }
    Err(ReadFault::Failed)
}

/// The bytes of one read of what is said to have so many: a small file comes by one read, and its piece is no larger.
fn piece_size(size: usize) -> usize
    ensures { 0 < result }
{
    if size == 0 || size >= PIECE {
        return PIECE;
    }
    size + 1
}
