//! Where the tokens of a source define a name, refer to it or make it global.

use crate::names::{is_assignment, is_globalizer, is_section, is_silent};
use crate::tokens::{LineToken, Sort, all_tokens, is_end, is_label, text_of, unlabelled};
use std::alloc::{AllocError, Global};

/// The token that defines a name, as a label or by `.set`.
pub(crate) fn definition_of(source: &[u8], tokens: &[LineToken], name: &[u8]) -> Option<LineToken> {
    for group in tokens.split(is_end) {
        let found = definition_in(source, group, name);
        if found.is_some() {
            return found;
        }
    }
    None
}

/// The token of a statement that defines a name.
fn definition_in(source: &[u8], group: &[LineToken], name: &[u8]) -> Option<LineToken> {
    let mut left = group;
    for _ in 0..group.len() {
        let [first, second, rest @ ..] = left else {
            return None;
        };
        if !is_label(first, second) {
            let assigns = is_assignment(text_of(source, first)) && text_of(source, second) == name;
            return if assigns { Some(*second) } else { None };
        }
        if text_of(source, first) == name {
            return Some(*first);
        }
        left = rest;
    }
    None
}

/// The token of a statement that refers to a name.
pub(crate) fn reference_in(
    source: &[u8],
    statement: &[LineToken],
    name: &[u8],
) -> Option<LineToken> {
    let (mnemonic, operands) = statement.split_first()?;
    if is_silent(text_of(source, mnemonic)) {
        return None;
    }
    for token in operands {
        if token.sort == Sort::Name && text_of(source, token) == name {
            return Some(*token);
        }
    }
    None
}

/// Whether a source makes a name global or weak.
pub(crate) fn is_made_global(source: &[u8], tokens: &[LineToken], name: &[u8]) -> bool {
    for group in tokens.split(is_end) {
        if makes_global(source, unlabelled(group), name) {
            return true;
        }
    }
    false
}

/// Whether a statement makes a name global.
fn makes_global(source: &[u8], statement: &[LineToken], name: &[u8]) -> bool {
    let Some((mnemonic, operands)) = statement.split_first() else {
        return false;
    };
    if !is_globalizer(text_of(source, mnemonic)) {
        return false;
    }
    for token in operands {
        if text_of(source, token) == name {
            return true;
        }
    }
    false
}

/// The last line before another at which a source goes to a section, else 0.
pub fn section_before(alloc: Global, source: &[u8], line: u32) -> Result<u32, AllocError> {
    let tokens = all_tokens(alloc, source)?;
    let mut section = 0u32;
    for group in tokens.as_slice().split(is_end) {
        if let Some(mnemonic) = unlabelled(group).first()
            && mnemonic.line < line
            && is_section(text_of(source, mnemonic))
        {
            section = mnemonic.line;
        }
    }
    Ok(section)
}
