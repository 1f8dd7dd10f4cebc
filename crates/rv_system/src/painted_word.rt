//! Where a word of a listing ends.
//!
//! Each byte belongs to one word; what is no name, number, comment or text in quotes is a word of its own.

ghost use Rattle.std.specs.Prelude.{◌<◌, ◌≤◌, length};

use memchr::memchr;

/// The length of the word at the front of a text.
pub(crate) fn word_length(text: &[u8]) -> usize
    requires { 0 < length text.now }
    ensures some { 0 < result }
    ensures within { result ≤ length text.now }
{
    let length = match text {
        [b'#', ..] => line_length(text),
        [b'"', rest @ ..] => 1 + quoted_length(rest),
        [b'<', rest @ ..] => 1 + bracketed_length(rest),
        [b'-', b'0'..=b'9', ..] => 1 + name_length(&text[1..]),
        [b' ', ..] => blank_length(text),
        _ => name_length(text),
    };
    length.max(1)
}

/// How many bytes come before the end of the line.
fn line_length(text: &[u8]) -> usize
    ensures { result ≤ length text.now }
{
    memchr(b'\n', text).unwrap_or(text.len())
}

/// How many blanks are at the front.
fn blank_length(text: &[u8]) -> usize
    ensures { result ≤ length text.now }
{
    text.iter()
        .position(|byte| *byte != b' ')
        .unwrap_or(text.len())
}

/// How many bytes of a name or a number are at the front.
fn name_length(text: &[u8]) -> usize
    ensures { result ≤ length text.now }
{
    text.iter()
        .position(|byte| !is_in_name(*byte))
        .unwrap_or(text.len())
}

/// How many bytes of a text, behind its first quote, there are up to the last quote or the end of the line.
fn quoted_length(text: &[u8]) -> usize
    ensures { result ≤ length text.now }
{
    let mut is_escaped = false;
    for (at, byte) in text.iter().enumerate() {
        match *byte {
            b'\n' => return at,
            b'"' if !is_escaped => return at + 1,
            byte => is_escaped = byte == b'\\' && !is_escaped,
        }
    }
    text.len()
}

/// How many bytes of `name>` or `name+offset>` are at the front; 0 where it has no such end.
fn bracketed_length(text: &[u8]) -> usize
    ensures { result ≤ length text.now }
{
    let end = text
        .iter()
        .position(|byte| !is_in_name(*byte) && *byte != b'+')
        .unwrap_or(text.len());
    if end > 0 && end < text.len() && text[end] == b'>' {
        end + 1
    } else {
        0
    }
}

/// Whether a byte may be in a name or a number.
fn is_in_name(byte: u8) -> bool {
    byte.is_ascii_alphanumeric() || matches!(byte, b'_' | b'.' | b'$')
}
