//! The tokens of a source, of some of its lines or of a statement, as what is said of them needs them.

ghost use Rattle.std.specs.Prelude.{◌<◌};

use crate::excerpt::Place;
use rv_lexer::{Lexer, Punct, Token, TokenKind};
use std::alloc::{AllocError, Global};

/// Sources from this size on are not looked into: places fit 32 bits.
const TOO_LARGE: usize = 1 << 31;

/// What a token is, as far as that matters here.
#[derive(Clone, Copy, Drop)]
pub enum Sort {
    Name,
    Number,
    /// `1b` or `1f`.
    Reference,
    /// A word that begins with a digit and is no number: a numeric label alone.
    BadWord,
    Comma,
    Colon,
    Open,
    Close,
    Plus,
    Minus,
    /// `/` or `%`.
    Divide,
    /// `<<` or `>>`.
    Shift,
    Other,
    /// What ends a statement: a line feed, a semicolon or the end of the source.
    End,
    /// A byte that no source has.
    BadByte,
    /// What begins no token.
    BadToken,
}

/// A token: what it is, and its bytes in the source.
#[derive(Clone, Copy, Drop)]
pub struct LineToken {
    pub sort: Sort,
    /// The offset of its first byte.
    pub start: usize,
    /// The offset after its last byte.
    pub stop: usize,
    /// The line of its first byte, from 1.
    pub line: u32,
    /// The value of a number, else 0.
    pub value: u64,
}

impl LineToken {
    /// A token of a text that begins at an offset of the source, behind so many lines.
    fn of(token: &Token<'_>, offset: usize, lines: u32) -> LineToken {
        LineToken {
            sort: sort_of(token.kind),
            start: offset.saturating_add(token.start as usize),
            stop: offset.saturating_add(token.stop as usize),
            line: lines.saturating_add(token.line),
            value: value_of(token.kind),
        }
    }
}

/// The bytes between two offsets, where there are such.
pub fn part(bytes: &[u8], start: usize, stop: usize) -> &[u8] {
    if start <= stop && stop <= bytes.len() {
        &bytes[start..stop]
    } else {
        &bytes[..0]
    }
}

/// The bytes of a token.
pub(crate) fn text_of<'a>(source: &'a [u8], token: &LineToken) -> &'a [u8] {
    part(source, token.start, token.stop)
}

/// The tokens of a line, from 1; none of a line that there is not.
pub(crate) fn tokens_of_line(
    alloc: Global,
    source: &[u8],
    line: u32,
) -> Result<Vec<LineToken>, AllocError> {
    tokens_of_lines(alloc, source, line, line)
}

/// All tokens of a source.
pub(crate) fn all_tokens(alloc: Global, source: &[u8]) -> Result<Vec<LineToken>, AllocError> {
    tokens_of_lines(alloc, source, 0, u32::MAX)
}

/// The tokens of lines from one to another.
fn tokens_of_lines(
    alloc: Global,
    source: &[u8],
    first: u32,
    last: u32,
) -> Result<Vec<LineToken>, AllocError> {
    let mut tokens = Vec::new(alloc);
    if TOO_LARGE <= source.len() {
        return Ok(tokens);
    }
    let mut lexer = Lexer::new(source);
    for _ in 0..=source.len() {
        let token = lexer.token();
        if last < token.line {
            break;
        }
        if first <= token.line {
            tokens.push(LineToken::of(&token, 0, 0))?;
        }
        if is_last(token.kind) {
            break;
        }
    }
    Ok(tokens)
}

/// The tokens of the label or of the statement that begins at an offset in a line, without its end.
pub(crate) fn tokens_at(
    alloc: Global,
    source: &[u8],
    offset: usize,
    line: u32,
) -> Result<Vec<LineToken>, AllocError> {
    let mut tokens = Vec::new(alloc);
    let text = part(source, offset, source.len());
    if TOO_LARGE <= text.len() {
        return Ok(tokens);
    }
    let mut lexer = Lexer::new(text);
    for _ in 0..=text.len() {
        let token = LineToken::of(&lexer.token(), offset, line.saturating_sub(1));
        if ends(token.sort) {
            break;
        }
        tokens.push(token)?;
        if token.sort == Sort::Colon {
            break;
        }
    }
    Ok(tokens)
}

/// Whether no token of a statement is of this sort, nor comes after one.
fn ends(sort: Sort) -> bool {
    matches!(sort, Sort::End | Sort::BadByte | Sort::BadToken)
}

/// The value of a number, else 0.
fn value_of(kind: TokenKind<'_>) -> u64 {
    match kind {
        TokenKind::Number(_, value) => value,
        _ => 0,
    }
}

/// The bytes of a token as a place.
pub(crate) fn place(token: &LineToken) -> Place {
    Place {
        start: token.start,
        stop: token.stop,
    }
}

/// From the first of some tokens to the last.
pub(crate) fn span(tokens: &[LineToken]) -> Option<Place> {
    let first = tokens.first()?;
    let last = tokens.last()?;
    Some(Place {
        start: first.start,
        stop: last.stop,
    })
}

/// Whether no token comes after one of this kind.
pub(crate) fn is_last(kind: TokenKind<'_>) -> bool {
    match kind {
        TokenKind::End => true,
        TokenKind::BadByte => true,
        TokenKind::BadToken => true,
        _ => false,
    }
}

/// What a token of this kind is here.
pub(crate) fn sort_of(kind: TokenKind<'_>) -> Sort {
    match kind {
        TokenKind::Newline => Sort::End,
        TokenKind::End => Sort::End,
        TokenKind::Punct(punct) => sort_of_punct(punct),
        TokenKind::Name(_) => Sort::Name,
        TokenKind::Number(_, _) => Sort::Number,
        TokenKind::Reference(_) => Sort::Reference,
        TokenKind::BadWord(_) => Sort::BadWord,
        TokenKind::Text(_) => Sort::Other,
        TokenKind::Character(_) => Sort::Number,
        TokenKind::BadByte => Sort::BadByte,
        TokenKind::BadToken => Sort::BadToken,
    }
}

/// What punctuation is here.
fn sort_of_punct(punct: Punct) -> Sort {
    match punct {
        Punct::Comma => Sort::Comma,
        Punct::Colon => Sort::Colon,
        Punct::Semicolon => Sort::End,
        Punct::Open => Sort::Open,
        Punct::Close => Sort::Close,
        Punct::Plus => Sort::Plus,
        Punct::Minus => Sort::Minus,
        Punct::Slash => Sort::Divide,
        Punct::Percent => Sort::Divide,
        Punct::ShiftLeft => Sort::Shift,
        Punct::ShiftRight => Sort::Shift,
        _ => Sort::Other,
    }
}

/// Whether a byte ends a line.
pub(crate) fn is_line_feed(byte: &u8) -> bool {
    *byte == b'\n'
}

/// Whether a token ends a statement.
pub(crate) fn is_end(token: &LineToken) -> bool {
    token.sort == Sort::End
}

/// The tokens of a statement after its labels.
pub(crate) fn unlabelled(tokens: &[LineToken]) -> &[LineToken] {
    let mut left = tokens;
    for _ in 0..tokens.len() {
        let [first, second, rest @ ..] = left else {
            return left;
        };
        if !is_label(first, second) {
            return left;
        }
        left = rest;
    }
    left
}

/// Whether two tokens that follow each other are a label.
pub(crate) fn is_label(first: &LineToken, second: &LineToken) -> bool {
    if second.sort != Sort::Colon {
        return false;
    }
    matches!(first.sort, Sort::Name | Sort::Number | Sort::BadWord)
}
