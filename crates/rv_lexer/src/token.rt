//! Tokens: what they are, and where.

use crate::reference::NumericReference;
use rv_expression_laws::Punct;

/// What a token is. Texts are parts of the source.
#[derive(Clone, Copy, Drop)]
pub enum TokenKind<'a> {
    /// A line feed, which ends its line and its statement.
    Newline,
    /// Punctuation or an operator.
    Punct(Punct),
    /// A mnemonic, a register, a directive or a symbol; `.` alone too.
    Name(&'a [u8]),
    /// A number as it is written, and its value.
    Number(&'a [u8], u64),
    /// `1b` or `1f`.
    Reference(NumericReference<'a>),
    /// Another word that begins with a digit, as `08` or a number of 2^64 or more: good as a numeric label alone.
    BadWord(&'a [u8]),
    /// What a string has between its quotes, escapes as they are written.
    Text(&'a [u8]),
    /// A character's byte.
    Character(u8),
    /// The last token: a byte that stands in strings and comments alone, and all after it.
    BadByte,
    /// The last token: one that the language does not have, as an unclosed string, and all after it.
    BadToken,
    /// The last token: the source's end.
    End,
}

/// A token, and where it stands in the source.
#[derive(Clone, Copy, Drop)]
pub struct Token<'a> {
    /// What it is.
    pub kind: TokenKind<'a>,
    /// The offset of its first byte in the source, in bytes from 0.
    pub start: u32,
    /// The offset of the byte after its last, in bytes.
    pub stop: u32,
    /// The line of its first byte, from 1.
    pub line: u32,
}
