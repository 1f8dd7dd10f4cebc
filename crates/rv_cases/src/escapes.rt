//! Texts of a head, which have the escapes of C.

ghost use Rattle.std.specs.Prelude.{◌≤◌};

use std::alloc::{AllocError, Global};

/// The digits of an escape.
const DIGITS: [char; 16] = [
    '0', '1', '2', '3', '4', '5', '6', '7', '8', '9', 'a', 'b', 'c', 'd', 'e', 'f',
];

/// The bytes that a text of a head stands for: `\n`, `\t`, `\r`, `\0`, `\\` and `\x` with two digits are escapes, and any
/// other character behind a backslash is itself.
pub(crate) fn unescaped(alloc: Global, text: &[u8]) -> Result<Vec<u8>, AllocError> {
    let mut bytes = Vec::new(alloc);
    let mut left = text;
    for _ in 0..text.len() {
        let Some((byte, rest)) = first_byte(left) else {
            break;
        };
        bytes.push(byte)?;
        left = rest;
    }
    Ok(bytes)
}

/// The first byte that a text stands for, and the rest of the text.
fn first_byte(text: &[u8]) -> Option<(u8, &[u8])> {
    match text {
        [b'\\', b'x', high, low, rest @ ..]
            if high.is_ascii_hexdigit() && low.is_ascii_hexdigit() => {
            Some((16 * digit(*high) + digit(*low), rest))
        }
        [b'\\', letter, rest @ ..] => Some((named(*letter), rest)),
        [byte, rest @ ..] => Some((*byte, rest)),
        [] => None,
    }
}

/// The value of a hexadecimal digit; 0 of any other character.
fn digit(letter: u8) -> u8
    ensures { result ≤ 15 }
{
    match letter {
        b'0'..=b'9' => letter - b'0',
        b'a'..=b'f' => letter - b'a' + 10,
        b'A'..=b'F' => letter - b'A' + 10,
        _ => 0,
    }
}

/// The byte that a letter behind a backslash stands for.
fn named(letter: u8) -> u8 {
    match letter {
        b'n' => b'\n',
        b't' => b'\t',
        b'r' => b'\r',
        b'0' => 0,
        _ => letter,
    }
}

/// Bytes as a head would write them: what is not printed has an escape.
pub fn shown(alloc: Global, bytes: &[u8]) -> Result<String, AllocError> {
    let mut text = String::new(alloc);
    for byte in bytes {
        match *byte {
            b'\n' => text.push_str("\\n")?,
            b'\t' => text.push_str("\\t")?,
            b'\r' => text.push_str("\\r")?,
            b'\\' => text.push_str("\\\\")?,
            b' '..=b'~' => text.push(char::from(*byte))?,
            _ => put_number(&mut text, *byte)?,
        }
    }
    Ok(text)
}

/// Adds the escape of a byte by its number.
fn put_number(text: &mut String, byte: u8) -> Result<(), AllocError> {
    text.push_str("\\x")?;
    text.push(DIGITS[(byte / 16) as usize])?;
    text.push(DIGITS[(byte % 16) as usize])
}
