//! Where a fault stands: its statement, and in it the token or the operand, where they are known.
//!
//! The parser's faults have a byte, at which the wrong token stands. Later faults have the byte at which their statement
//! begins; of its operands the one is shown that can have a fault of this code, or the whole statement if several can.

use crate::excerpt::Place;
use crate::expected::expected_at;
use crate::names::{is_access, is_assignment};
use crate::occurrences::definition_of;
use crate::operands::operand_at_fault;
use crate::tokens::{
    LineToken, Sort, all_tokens, is_end, is_label, place, span, text_of, tokens_at, tokens_of_line,
    unlabelled,
};
use rv_fault::SourceCode;
use std::alloc::{AllocError, Global};

/// What may stand in the place of a wrong token, where it is one phrase.
#[derive(Clone, Copy, Drop)]
pub enum Expected {
    Unknown,
    Register,
    OtherRegister,
    /// A register that the short forms know.
    ShortRegister,
    RegisterOrNumber,
    NumberOrName,
    Name,
    /// The letters of `fence`.
    Letters,
    /// `sp`.
    Stack,
    Comma,
    Parenthesis,
}

/// Where a fault stands.
#[derive(Clone, Copy, Drop)]
pub struct FaultPlace {
    /// The statement, with the labels before it if the parser refuses it.
    pub whole: Place,
    /// The statement after its labels, or a label.
    pub statement: Place,
    /// What the carets show: the token or operand, else the statement.
    pub shown: Place,
    /// The end of the statement is what is wrong.
    pub ends: bool,
    /// What is shown is a token or an operand of the statement.
    pub known: bool,
    /// What is shown has no name in it.
    pub is_number: bool,
    /// What may stand in the place of what is shown.
    pub expected: Expected,
    /// The line of the first definition of a name that is shown, else 0.
    pub first_line: u32,
}

/// The place of a fault of the parser at a byte of a line; none where the line has no token.
pub fn place_at_byte(
    alloc: Global,
    source: &[u8],
    code: SourceCode,
    line: u32,
    offset: usize,
) -> Result<Option<FaultPlace>, AllocError> {
    let line_tokens = tokens_of_line(alloc, source, line)?;
    let tokens = line_tokens.as_slice();
    let group = group_at(tokens, offset);
    let Some(whole) = span(group) else {
        return Ok(None);
    };
    let statement = span(unlabelled(group)).unwrap_or(whole);
    let stop = offset.saturating_add(1);
    let byte = FaultPlace {
        whole,
        statement,
        shown: Place {
            start: offset,
            stop,
        },
        ends: false,
        known: false,
        is_number: false,
        expected: Expected::Unknown,
        first_line: 0,
    };
    match wrong_token(source, tokens, group, code, offset) {
        // a limit is passed at a byte, in a token or not
        Some(wrong) if code != SourceCode::Limit => {
            Ok(Some(place_of_token(source, group, wrong, code, byte)))
        }
        _ => Ok(Some(byte)),
    }
}

/// The token of a line that the parser refuses at a byte. What is left out of the language is shown, and not the end
/// behind it.
fn wrong_token(
    source: &[u8],
    tokens: &[LineToken],
    group: &[LineToken],
    code: SourceCode,
    offset: usize,
) -> Option<LineToken> {
    let index = tokens.iter().position(|token| token.start == offset)?;
    let found = tokens.get(index)?;
    let next = tokens.get(index.saturating_add(1));
    if code == SourceCode::UnsupportedHere {
        if is_end(found) {
            return tokens.get(index.saturating_sub(1)).copied();
        }
        if let Some(behind) = next
            && behind.sort != Sort::End
            && is_offset(source, group, found)
        {
            return Some(*behind);
        }
    }
    Some(with_name(source, found, next))
}

/// Whether a token is a number that a load or a store takes with a register in parentheses behind it.
fn is_offset(source: &[u8], group: &[LineToken], token: &LineToken) -> bool {
    match unlabelled(group).first() {
        Some(mnemonic) => token.sort == Sort::Number && is_access(text_of(source, mnemonic)),
        None => false,
    }
}

/// A token, with the name behind it where it begins the word of an assembler function, as `%lo`.
fn with_name(source: &[u8], token: &LineToken, next: Option<&LineToken>) -> LineToken {
    match next {
        Some(name)
            if name.sort == Sort::Name
                && name.start == token.stop
                && text_of(source, token) == b"%".as_slice() => {
            LineToken {
                sort: Sort::Other,
                stop: name.stop,
                ..*token
            }
        }
        _ => *token,
    }
}

/// The place of a wrong token of a statement, which has that of its first byte.
fn place_of_token(
    source: &[u8],
    group: &[LineToken],
    wrong: LineToken,
    code: SourceCode,
    byte: FaultPlace,
) -> FaultPlace {
    let ends = wrong.sort == Sort::End;
    let shown = match wrong.sort {
        Sort::End => Place {
            start: byte.whole.stop,
            stop: wrong.stop,
        },
        Sort::BadByte => byte.shown,
        _ => place(&wrong),
    };
    let is_of_form = matches!(code, SourceCode::BadOperands | SourceCode::UnsupportedHere);
    let expected = if is_of_form && !ends {
        expected_at(source, unlabelled(group), &wrong)
    } else {
        Expected::Unknown
    };
    FaultPlace {
        shown,
        ends,
        known: true,
        expected,
        ..byte
    }
}

/// The last statement of a line that begins at an offset or before.
fn group_at(tokens: &[LineToken], offset: usize) -> &[LineToken] {
    let mut found = tokens;
    for group in tokens.split(is_end) {
        match group.first() {
            Some(first) if first.start <= offset => found = group,
            _ => {}
        }
    }
    found
}

/// The place of a later fault, of the statement that begins at an offset in a line.
pub fn place_in_statement(
    alloc: Global,
    source: &[u8],
    code: SourceCode,
    line: u32,
    offset: usize,
) -> Result<Option<FaultPlace>, AllocError> {
    let found = tokens_at(alloc, source, offset, line)?;
    let statement = found.as_slice();
    let Some(whole) = span(statement) else {
        return Ok(None);
    };
    let all = if needs_all(code) {
        all_tokens(alloc, source)?
    } else {
        Vec::new(alloc)
    };
    let name = name_defined(source, statement, code);
    let shown = match &name {
        Some(name) => Some(place(name)),
        None => operand_at_fault(source, all.as_slice(), statement, code),
    };
    let first_line = match &name {
        Some(name) => first_line_of(source, all.as_slice(), name),
        None => 0,
    };
    let shown_or_all = shown.unwrap_or(whole);
    Ok(Some(FaultPlace {
        whole,
        statement: whole,
        shown: shown_or_all,
        ends: false,
        known: shown.is_some(),
        is_number: !has_name(statement, shown_or_all),
        expected: Expected::Unknown,
        first_line,
    }))
}

/// Whether the place of a fault of this code depends on other statements.
fn needs_all(code: SourceCode) -> bool {
    matches!(
        code,
        SourceCode::DuplicateLabel | SourceCode::UndefinedLocal
    )
}

/// The name that a statement defines, where that is at fault.
fn name_defined(source: &[u8], statement: &[LineToken], code: SourceCode) -> Option<LineToken> {
    let [first, second, ..] = statement else {
        return None;
    };
    if code != SourceCode::DuplicateLabel {
        return None;
    }
    if is_label(first, second) {
        return Some(*first);
    }
    if is_assignment(text_of(source, first)) {
        return Some(*second);
    }
    None
}

/// The line of the first definition of a name, else 0.
fn first_line_of(source: &[u8], all: &[LineToken], name: &LineToken) -> u32 {
    match definition_of(source, all, text_of(source, name)) {
        Some(first) if first.start < name.start => first.line,
        _ => 0,
    }
}

/// Whether a part of a statement has a name in it.
fn has_name(statement: &[LineToken], shown: Place) -> bool {
    statement.iter().any(|token| {
        shown.start <= token.start
            && token.stop <= shown.stop
            && matches!(token.sort, Sort::Name | Sort::Reference)
    })
}
