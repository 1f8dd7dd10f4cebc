//! A line of a source with carets below a part of it.

use crate::tokens::is_line_feed;
use std::alloc::{AllocError, Global};

/// The most bytes of a line that are shown.
const WIDTH: usize = 120;
/// How many bytes stand before the carets where a line is too long to be shown whole.
const BEFORE: usize = 40;
/// What stands in front of both lines.
const MARGIN: &str = "    ";

/// Bytes of a source, from an offset to another.
#[derive(Clone, Copy, Drop)]
pub struct Place {
    pub start: usize,
    pub stop: usize,
}

/// Adds a file and a line of it, as `a.s:4:`.
pub(crate) fn put_file_and_line(
    alloc: Global,
    text: &mut String,
    file: &str,
    line: u32,
) -> Result<(), AllocError> {
    let added = format!(in alloc; "{file}:{line}:")?;
    text.push_str(added.as_str())
}

/// Adds a line, from 1, with carets below a part of it. A byte that is not printed is shown as `?`, a tab as a blank.
pub(crate) fn put_excerpt(
    text: &mut String,
    source: &[u8],
    line: u32,
    place: Place,
) -> Result<(), AllocError> {
    let mut offset = 0usize;
    let mut number = 0u32;
    for bytes in source.split(is_line_feed) {
        number = number.saturating_add(1);
        if number == line {
            let start = place.start.saturating_sub(offset);
            let stop = place.stop.saturating_sub(offset);
            return put_line(text, bytes, start, stop);
        }
        offset = offset.saturating_add(bytes.len()).saturating_add(1);
    }
    Ok(())
}

/// Adds a line and the carets below its bytes from `start` to `stop`.
fn put_line(text: &mut String, bytes: &[u8], start: usize, stop: usize) -> Result<(), AllocError> {
    let stop = stop.min(bytes.len());
    let skipped = if WIDTH < stop {
        start.saturating_sub(BEFORE)
    } else {
        0
    };
    text.push_str(MARGIN)?;
    for byte in bytes.iter().skip(skipped).take(WIDTH) {
        text.push(shown(*byte))?;
    }
    text.push_str("\n")?;
    text.push_str(MARGIN)?;
    put_many(text, " ", start.saturating_sub(skipped))?;
    put_many(text, "^", stop.saturating_sub(start).clamp(1, WIDTH))?;
    text.push_str("\n")
}

/// Adds a text many times.
fn put_many(text: &mut String, what: &str, count: usize) -> Result<(), AllocError> {
    for _ in 0..count {
        text.push_str(what)?;
    }
    Ok(())
}

/// Adds bytes as they are shown, at most forty.
pub fn put_bytes(text: &mut String, bytes: &[u8]) -> Result<(), AllocError> {
    for byte in bytes.iter().take(BEFORE) {
        text.push(shown(*byte))?;
    }
    if BEFORE < bytes.len() {
        text.push_str("..")?;
    }
    Ok(())
}

/// A byte as it is shown.
fn shown(byte: u8) -> char {
    if byte == b'\t' || byte == b'\r' {
        return ' ';
    }
    if b' ' <= byte && byte <= b'~' {
        char::from(byte)
    } else {
        '?'
    }
}
