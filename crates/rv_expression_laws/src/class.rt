//! The classes of bytes.

use crate::punct::Punct;

/// What a byte begins, where a lexeme of a source may begin.
#[derive(Clone, Copy, Drop)]
pub enum Class {
    /// A letter, `_`, `.` or `$`: begins a name.
    Letter,
    /// Begins a number, a numeric reference or a numeric label.
    Digit,
    /// A blank, a tab or a carriage return.
    Blank,
    /// A line feed.
    LineEnd,
    /// Punctuation of one byte that begins no other.
    Single(Punct),
    /// `#`
    HashByte,
    /// `/`
    SlashByte,
    /// `"`
    QuoteByte,
    /// `'`
    ApostropheByte,
    /// `<`
    LessByte,
    /// `>`
    GreaterByte,
    /// `=`
    EqualByte,
    /// `!`
    BangByte,
    /// A printable byte that begins nothing.
    Odd,
    /// A byte that stands in strings and comments alone.
    Foreign,
}
