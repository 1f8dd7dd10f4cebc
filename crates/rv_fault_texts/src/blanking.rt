//! A source whose faulty statement is blanked, so that the next fault shows.
//!
//! All other bytes stay, and so do all lines. Labels stay, so that no reference to them becomes a fault; and an assignment
//! of a value that cannot be is one of 0.

use crate::excerpt::Place;
use crate::names::{is_assignment, is_macro, is_section};
use crate::place::FaultPlace;
use crate::tokens::{LineToken, all_tokens, is_end, is_line_feed, part, span, text_of, unlabelled};
use memchr::{memchr, memchr2};
use rv_fault::SourceCode;
use std::alloc::{AllocError, Global};

/// Blanks the statement of a fault; whether that changes a byte.
pub fn blank(draft: &mut [u8], code: SourceCode, place: &FaultPlace) -> bool {
    let stop = place.statement.stop;
    let statement = part(draft, place.statement.start, stop);
    match value_of_assignment(statement, code) {
        Some(offset) => {
            let start = place.statement.start.saturating_add(offset);
            put_zero(draft, Place { start, stop });
            true
        }
        None => blank_bytes(draft, cut_of(place)),
    }
}

/// Puts a 0 in the place of a value.
fn put_zero(draft: &mut [u8], value: Place) {
    blank_bytes(draft, value);
    if let Some(last) = draft.get_mut(value.stop.saturating_sub(1)) {
        *last = b'0';
    }
}

/// Where the value of an assignment begins that is at fault for its value.
fn value_of_assignment(statement: &[u8], code: SourceCode) -> Option<usize> {
    if !is_fault_of_value(code) {
        return None;
    }
    let mnemonic = memchr2(b' ', b'\t', statement)?;
    if !is_assignment(part(statement, 0, mnemonic)) {
        return None;
    }
    let comma = memchr(b',', statement)?;
    Some(comma.saturating_add(1))
}

/// Whether a fault of this code is one of a value, and not of a text.
fn is_fault_of_value(code: SourceCode) -> bool {
    matches!(
        code,
        SourceCode::DivisionByZero
            | SourceCode::ShiftTooLarge
            | SourceCode::NotConstant
            | SourceCode::ImmediateRange
    )
}

/// What is blanked: the statement, with its labels where one of them is wrong.
fn cut_of(place: &FaultPlace) -> Place {
    let in_labels = place.shown.start < place.statement.start;
    let start = if in_labels {
        place.whole.start
    } else {
        place.statement.start
    };
    Place {
        start,
        stop: place.statement.stop.max(place.shown.stop),
    }
}

/// Blanks bytes up to a line feed; whether that changes one.
fn blank_bytes(draft: &mut [u8], place: Place) -> bool {
    let mut changed = false;
    let count = place.stop.saturating_sub(place.start);
    for byte in draft.iter_mut().skip(place.start).take(count) {
        if *byte == b'\n' {
            break;
        }
        if *byte != b' ' {
            *byte = b' ';
            changed = true;
        }
    }
    changed
}

/// Whether a statement begins a macro, or lines that are repeated for each of some words, and their end comes after it.
pub fn is_of_macro(draft: &[u8], place: &FaultPlace) -> bool {
    let rest = part(draft, place.statement.start, draft.len());
    match end_of(first_word(rest)) {
        Some(end) => rest.split(is_line_feed).any(|line| first_word(line) == end),
        None => false,
    }
}

/// The directive that ends what another begins, whose lines have words that stand for others.
fn end_of(word: &[u8]) -> Option<&'static [u8]> {
    if is_macro(word) {
        Some(b".endm")
    } else if word.starts_with(b".irp") {
        Some(b".endr")
    } else {
        None
    }
}

/// The first word of a line.
fn first_word(line: &[u8]) -> &[u8] {
    let text = line.trim_ascii_start();
    match text.iter().position(|byte| matches!(
        *byte,
        b' ' | b'\t' | b'\r' | b'\n' | b',' | b'#' | b';'
    )) {
        Some(end) => part(text, 0, end),
        None => text,
    }
}

/// A source without such lines, and without those that use a macro of them.
pub fn without_macro(
    alloc: Global,
    draft: &[u8],
    place: &FaultPlace,
) -> Result<Vec<u8>, AllocError> {
    let start = place.statement.start;
    let mut out = part(draft, 0, start).to_vec(alloc)?;
    put_without_macro(&mut out, part(draft, start, draft.len()))?;
    Ok(out)
}

/// Adds lines of which the first begins a macro, and blanks for that and the lines that use it.
fn put_without_macro(out: &mut Vec<u8>, lines: &[u8]) -> Result<(), AllocError> {
    let begin = first_word(lines);
    let end = end_of(begin).unwrap_or(begin);
    let words = part(lines, begin.len(), lines.len());
    let name = if is_macro(begin) {
        first_word(words)
    } else {
        begin
    };
    let mut is_inside = true;
    for line in lines.split(is_line_feed) {
        let first = first_word(line);
        put_or_blank(out, line, is_inside || first == name)?;
        is_inside = is_inside && first != end;
    }
    Ok(())
}

/// Adds a line, or blanks for it.
fn put_or_blank(out: &mut Vec<u8>, line: &[u8], is_blank: bool) -> Result<(), AllocError> {
    if is_blank {
        put_blanks(out, line)?;
    } else {
        out.extend_from_slice(line)?;
    }
    out.push(b'\n')?;
    Ok(())
}

/// Adds a blank for each byte, and each line feed.
fn put_blanks(out: &mut Vec<u8>, bytes: &[u8]) -> Result<(), AllocError> {
    for byte in bytes {
        let shown = if *byte == b'\n' { b'\n' } else { b' ' };
        out.push(shown)?;
    }
    Ok(())
}

/// A source without the statements from a line on, up to the next section, that are directives or instructions as one is.
pub fn without_sort(
    alloc: Global,
    draft: &[u8],
    line: u32,
    place: &FaultPlace,
) -> Result<Vec<u8>, AllocError> {
    let is_directive = directs(draft, place);
    let tokens = all_tokens(alloc, draft)?;
    let mut out = Vec::new(alloc);
    put_without_sort(&mut out, draft, tokens.as_slice(), line, is_directive)?;
    Ok(out)
}

/// Whether a statement is a directive.
pub fn directs(source: &[u8], place: &FaultPlace) -> bool {
    part(source, place.statement.start, source.len()).starts_with(b".")
}

/// Adds a source with these tokens, and blanks for the statements from a line on that are directives, or none.
fn put_without_sort(
    out: &mut Vec<u8>,
    draft: &[u8],
    tokens: &[LineToken],
    line: u32,
    is_directive: bool,
) -> Result<(), AllocError> {
    let mut is_over = false;
    for group in tokens.split(is_end) {
        let statement = unlabelled(group);
        is_over = is_over || ends_sort(draft, statement, line);
        if !is_over && is_of_sort(draft, statement, line, is_directive) {
            put_without(out, draft, statement)?;
        }
    }
    let done = out.len();
    out.extend_from_slice(part(draft, done, draft.len()))?;
    Ok(())
}

/// Whether a statement after a line goes to a section.
fn ends_sort(draft: &[u8], statement: &[LineToken], line: u32) -> bool {
    match statement.first() {
        Some(first) => line < first.line && is_section(text_of(draft, first)),
        None => false,
    }
}

/// Whether a statement from a line on is a directive, or none.
fn is_of_sort(draft: &[u8], statement: &[LineToken], line: u32, is_directive: bool) -> bool {
    match statement.first() {
        Some(first) => line <= first.line
            && text_of(draft, first).starts_with(b".") == is_directive,
        None => false,
    }
}

/// Adds a source up to a statement, and blanks for it.
fn put_without(out: &mut Vec<u8>, draft: &[u8], statement: &[LineToken]) -> Result<(), AllocError> {
    let Some(place) = span(statement) else {
        return Ok(());
    };
    let done = out.len();
    out.extend_from_slice(part(draft, done, place.start))?;
    put_blanks(out, part(draft, place.start, place.stop))
}
