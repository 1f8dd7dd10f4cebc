//! The classes of bytes.

ghost use Rattle.std.specs.Prelude.{◌≡◌};
ghost use Rattle.rv_expression_laws.specs.Bytes.{class, is_word, digit};
ghost use Rattle.rv_lexer.specs.Lexeme.{is_blank};

use rv_expression_laws::{Class, Punct};

/// For each byte `1` where names and numbers go on with it.
static WORD_BYTES: [u8; 256] = *b"\
    00000000000000000000000000000000\
    00001000000000101111111111000000\
    01111111111111111111111111100001\
    01111111111111111111111111100000\
    00000000000000000000000000000000\
    00000000000000000000000000000000\
    00000000000000000000000000000000\
    00000000000000000000000000000000";

/// For each byte `1` where it is a blank.
static BLANK_BYTES: [u8; 256] = *b"\
    00000000010001000000000000000000\
    10000000000000000000000000000000\
    00000000000000000000000000000000\
    00000000000000000000000000000000\
    00000000000000000000000000000000\
    00000000000000000000000000000000\
    00000000000000000000000000000000\
    00000000000000000000000000000000";

/// What a byte begins.
#[inline(always)]
#[tactic(auto, unfolding(rv_expression_laws::specs::Bytes::class))]
pub(crate) fn class(byte: u8) -> Class
    ensures { result ≡ class byte }
{
    if is_word(byte) {
        return if matches!(byte, b'0'..=b'9') {
            Class::Digit
        } else {
            Class::Letter
        };
    }
    match byte {
        b' ' | b'\t' | b'\r' => Class::Blank,
        b'\n' => Class::LineEnd,
        b',' => Class::Single(Punct::Comma),
        b'(' => Class::Single(Punct::Open),
        b')' => Class::Single(Punct::Close),
        b':' => Class::Single(Punct::Colon),
        b'#' => Class::HashByte,
        b';' => Class::Single(Punct::Semicolon),
        b'+' => Class::Single(Punct::Plus),
        b'-' => Class::Single(Punct::Minus),
        b'*' => Class::Single(Punct::Star),
        b'%' => Class::Single(Punct::Percent),
        b'|' => Class::Single(Punct::Bar),
        b'&' => Class::Single(Punct::Ampersand),
        b'^' => Class::Single(Punct::Caret),
        b'~' => Class::Single(Punct::Tilde),
        b'@' => Class::Single(Punct::At),
        b'/' => Class::SlashByte,
        b'"' => Class::QuoteByte,
        b'\'' => Class::ApostropheByte,
        b'<' => Class::LessByte,
        b'>' => Class::GreaterByte,
        b'=' => Class::EqualByte,
        b'!' => Class::BangByte,
        b' '..=b'~' => Class::Odd,
        _ => Class::Foreign,
    }
}

/// Whether the byte is a blank, a tab or a carriage return.
#[inline(always)]
pub(crate) fn is_blank(byte: u8) -> bool
    ensures { result ≡ is_blank byte }
{
    BLANK_BYTES[usize::from(byte)] == b'1'
}

/// Whether names and numbers go on with the byte.
#[inline(always)]
pub(crate) fn is_word(byte: u8) -> bool
    ensures { result ≡ is_word byte }
{
    WORD_BYTES[usize::from(byte)] == b'1'
}

/// The value of a digit in the bases up to 16, and 16 for every other byte.
#[tactic(auto, unfolding(rv_expression_laws::specs::Bytes::digit))]
pub(crate) fn digit(byte: u8) -> u8
    ensures { result ≡ digit byte }
{
    match byte {
        b'0'..=b'9' => byte - b'0',
        b'a'..=b'f' => byte - b'a' + 10,
        b'A'..=b'F' => byte - b'A' + 10,
        _ => 16,
    }
}
