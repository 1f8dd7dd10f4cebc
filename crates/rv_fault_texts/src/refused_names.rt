//! Names whose definition was refused: a later fault of a statement that refers to one only follows from that.

use crate::names::{is_assignment, is_definer};
use crate::place::FaultPlace;
use crate::tokens::{LineToken, Sort, all_tokens, is_label, part, text_of, unlabelled};
use rv_fault::SourceCode;
use std::alloc::{AllocError, Global};

/// Adds the names that a refused statement of a source would define; a draft of that has the same statement there.
pub fn put_refused_names<'a>(
    alloc: Global,
    source: &'a [u8],
    place: &FaultPlace,
    names: &mut Vec<&'a [u8]>,
) -> Result<(), AllocError> {
    let text: &'a [u8] = part(source, place.whole.start, place.statement.stop);
    let tokens = all_tokens(alloc, text)?;
    let statement = unlabelled(tokens.as_slice());
    if let Some(name) = name_refused(text, statement) {
        names.push(name)?;
    }
    if place.shown.start < place.statement.start {
        put_labels(text, tokens.as_slice(), names)?;
    }
    Ok(())
}

/// The name that a statement would define: `.set NAME`, `.comm NAME` or `NAME = `.
fn name_refused<'a>(text: &'a [u8], statement: &[LineToken]) -> Option<&'a [u8]> {
    let [first, second, ..] = statement else {
        return None;
    };
    if is_definer(text_of(text, first)) {
        return Some(text_of(text, second));
    }
    let sign = text_of(text, second);
    if sign.starts_with(b"=") {
        Some(text_of(text, first))
    } else {
        None
    }
}

/// Adds the labels of a statement that goes whole.
fn put_labels<'a>(
    text: &'a [u8],
    tokens: &[LineToken],
    names: &mut Vec<&'a [u8]>,
) -> Result<(), AllocError> {
    let mut before: Option<LineToken> = None;
    for token in tokens {
        match before {
            Some(name) if is_label(&name, token) => names.push(text_of(text, &name))?,
            _ => {}
        }
        before = Some(*token);
    }
    Ok(())
}

/// Whether a fault of a statement only follows from the want of a name: it is one of a value, and the statement refers to the name.
pub fn follows_from(
    alloc: Global,
    source: &[u8],
    code: SourceCode,
    place: &FaultPlace,
    names: &[&[u8]],
) -> Result<bool, AllocError> {
    if names.is_empty() || !is_of_value(code) {
        return Ok(false);
    }
    let text = part(source, place.statement.start, place.statement.stop);
    let tokens = all_tokens(alloc, text)?;
    Ok(refers_to(text, tokens.as_slice(), names))
}

/// Whether a statement refers to one of some names; a name that it gives a value is none to which it refers.
fn refers_to(text: &[u8], statement: &[LineToken], names: &[&[u8]]) -> bool {
    let own = match statement.first() {
        Some(first) if is_assignment(text_of(text, first)) => 2,
        _ => 1,
    };
    for token in statement.iter().skip(own) {
        if token.sort == Sort::Name && is_among(names, text_of(text, token)) {
            return true;
        }
    }
    false
}

/// Whether a name is one of some.
fn is_among(names: &[&[u8]], name: &[u8]) -> bool {
    for other in names {
        if *other == name {
            return true;
        }
    }
    false
}

/// Whether a fault of this code may come from the value of a name.
fn is_of_value(code: SourceCode) -> bool {
    matches!(
        code,
        SourceCode::DivisionByZero
            | SourceCode::ShiftTooLarge
            | SourceCode::UndefinedLocal
            | SourceCode::NotConstant
            | SourceCode::ImmediateRange
    )
}
