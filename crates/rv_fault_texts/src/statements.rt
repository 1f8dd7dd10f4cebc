//! The tokens of one statement of a source, and the symbol to which it refers.

use crate::names::{is_operator, is_register};
use crate::tokens::{LineToken, Sort, text_of, tokens_at};
use rv_parse::{ReadError, parse_placed};
use std::alloc::{AllocError, Global};

/// The token by which the statement of an ordinal, from 1, refers to a symbol: that of this name if there is one, else the
/// first; of a lower part of a distance its operator.
pub fn symbol_at(
    alloc: Global,
    source: &[u8],
    ordinal: u32,
    name: &[u8],
    is_lower: bool,
) -> Result<Option<LineToken>, AllocError> {
    let parsed = match parse_placed(alloc, source) {
        Ok(parsed) => parsed,
        Err(ReadError::At(_)) => return Ok(None),
        Err(ReadError::OutOfMemory) => return Err(AllocError),
    };
    let index = (ordinal as usize).saturating_sub(1);
    match (parsed.offsets.get(index), parsed.statements.get(index)) {
        (Some(offset), Some(statement)) => {
            let tokens = tokens_at(alloc, source, *offset, statement.line)?;
            Ok(symbol_in(source, tokens.as_slice(), name, is_lower))
        }
        _ => Ok(None),
    }
}

/// The token by which a statement refers to a symbol.
fn symbol_in(
    source: &[u8],
    statement: &[LineToken],
    name: &[u8],
    is_lower: bool,
) -> Option<LineToken> {
    let (_, operands) = statement.split_first()?;
    let mut first = None;
    for token in operands {
        let text = text_of(source, token);
        if !is_lower && token.sort == Sort::Name && text == name {
            return Some(*token);
        }
        if first.is_none() && is_symbol(token, text, is_lower) {
            first = Some(*token);
        }
    }
    first
}

/// Whether a token of an operand may stand for a symbol, or is the operator of a lower part.
fn is_symbol(token: &LineToken, text: &[u8], is_lower: bool) -> bool {
    if is_lower {
        return text == b"pcrel_lo".as_slice();
    }
    let is_name = token.sort == Sort::Name && !is_register(text) && !is_operator(text);
    is_name || token.sort == Sort::Reference
}
