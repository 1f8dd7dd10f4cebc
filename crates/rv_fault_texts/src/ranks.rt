//! The statement of a line by how many stand before it there.

use crate::excerpt::Place;
use crate::tokens::{is_end, span, tokens_of_line, unlabelled};
use std::alloc::{AllocError, Global};

/// Where the statement of a line stands, without its labels, before which so many labels and statements stand there.
pub fn statement_in_line(
    alloc: Global,
    source: &[u8],
    line: u32,
    rank: usize,
) -> Result<Option<Place>, AllocError> {
    let tokens = tokens_of_line(alloc, source, line)?;
    let mut passed = 0usize;
    for group in tokens.as_slice().split(is_end) {
        let statement = unlabelled(group);
        passed = passed.saturating_add(group.len().saturating_sub(statement.len()) / 2);
        if !statement.is_empty() {
            if passed == rank {
                return Ok(span(statement));
            }
            passed = passed.saturating_add(1);
        }
    }
    Ok(None)
}
