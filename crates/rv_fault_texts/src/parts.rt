//! Sentences, put together of their parts.
//!
//! Each part that is added may find no memory, which is a way out of the function that adds it. So a sentence's parts are
//! a list, which one function adds.

use crate::excerpt::put_bytes;
use std::alloc::AllocError;

/// What stands in a sentence.
#[derive(Clone, Copy, Drop)]
pub(crate) enum Part<'a> {
    Words(&'a str),
    /// Bytes of a source, as they are shown.
    Shown(&'a [u8]),
}

/// Adds parts, one after another.
pub(crate) fn put_parts(text: &mut String, parts: &[Part<'_>]) -> Result<(), AllocError> {
    for part in parts {
        put_part(text, *part)?;
    }
    Ok(())
}

/// Adds a part.
fn put_part(text: &mut String, part: Part<'_>) -> Result<(), AllocError> {
    match part {
        Part::Words(words) => text.push_str(words),
        Part::Shown(bytes) => put_bytes(text, bytes),
    }
}
