//! The bytes of statements in an image.

use rv_image::{Image, Segment};
use rv_map_laws::Row;
use std::alloc::AllocError;

/// Adds the bytes of statements one after the other, up to so many in all; answers the address of the first.
pub(crate) fn collect(
    bytes: &mut Vec<u8>,
    image: &Image,
    rows: &[Row],
    most: usize,
) -> Result<Option<u64>, AllocError> {
    let mut first = None;
    for row in rows {
        if row.bytes != 0 {
            if first.is_none() {
                first = Some(row.address);
            }
            let held = bytes_of(&image.segments, row);
            let left = most.saturating_sub(bytes.len());
            bytes.extend_from_slice(held.get(..left).unwrap_or(held))?;
        }
    }
    Ok(first)
}

/// The bytes of a statement, as far as a segment has them.
fn bytes_of<'a>(segments: &'a [Segment], row: &Row) -> &'a [u8] {
    for segment in segments {
        if segment.address <= row.address {
            let bytes = part(&segment.bytes, row.address - segment.address, row.bytes);
            if !bytes.is_empty() {
                return bytes;
            }
        }
    }
    &[]
}

/// So many bytes from an offset on, as far as there are any.
fn part(bytes: &[u8], start: u64, count: u64) -> &[u8] {
    let start = usize::try_from(start).unwrap_or(usize::MAX);
    let count = usize::try_from(count).unwrap_or(usize::MAX);
    let rest = bytes.get(start..).unwrap_or(&[]);
    rest.get(..count).unwrap_or(rest)
}
