//! Strings and characters.
//!
//! Most bytes of a string stand for themselves, so those up to the next escape are found by `memchr` and taken at once.

ghost use Rattle.std.specs.Prelude.{◌≡◌, ℕ, List, ◌==◌, ◌+◌, ◌%◌, ◌<◌, ◌≤◌, None, false, length, take, drop, option_map, if◌then◌else◌, OnOk, OnErr, ◌++◌};
ghost use Rattle.std.specs.List.{prefix_len, list_any};
ghost use Rattle.rv_expression_laws.specs.Cut.{cut};
ghost use Rattle.rv_expression_laws.specs.Bytes.{is_digit};
ghost use Rattle.rv_expression_laws.specs.Strings.{byte_of, named, is_plain, is_character};
ghost use Rattle.rv_expression_laws.specs.Grammar as grammar;
ghost use Rattle.rv_expression_laws.specs.Front.{has_first, number_by, escape_at, atom_at, closed_string, character_at};
ghost use Rattle.rv_lexer.specs.Token.{string_bytes};

use crate::word::{is_digit, number_by};
use memchr::{memchr, memchr3};
use std::alloc::AllocError;

/// The byte that a letter after a backslash stands for.
fn named(letter: u8) -> Option<u8>
    ensures { result ≡ named letter }
{
    match letter {
        b'b' => Some(8),
        b'f' => Some(12),
        b'n' => Some(b'\n'),
        b'r' => Some(b'\r'),
        b't' => Some(b'\t'),
        b'\\' | b'"' | b'\'' => Some(letter),
        _ => None,
    }
}

/// Whether the byte stands in a string as it is.
fn is_plain(byte: u8) -> bool
    ensures { result ≡ is_plain byte }
{
    !matches!(byte, b'"' | b'\\' | b'\n')
}

/// Whether the byte stands between apostrophes as it is.
fn is_character(byte: u8) -> bool
    ensures { result ≡ is_character byte }
{
    matches!(byte, b' '..=b'~' | b'\t') && !matches!(byte, b'\'' | b'\\')
}

/// How many digits of the base are at the front, of two bytes at most.
fn up_to_two(base: u8, bytes: &[u8]) -> usize
    ensures count { result ≡ prefix_len (is_digit base) (take 2 bytes.now) }
    ensures within { result ≤ length bytes.now }
{
    bytes
        .iter()
        .take(2)
        .take_while(|byte| is_digit(base, **byte))
        .count()
}

/// The byte of an octal escape, and its length with the backslash.
fn octal(digits: &[u8]) -> Option<(u8, usize)>
    requires { length digits.now < 4 }
    ensures { result ≡ option_map (λ n. (n % 256, length digits.now + 1)) (number_by 8 digits.now) }
{
    let number = number_by(8, digits)?;
    Some(((number % 256) as u8, digits.len() + 1))
}

/// The byte of a hexadecimal escape, and its length with the backslash and the `x`.
fn hexadecimal(digits: &[u8]) -> Option<(u8, usize)>
    requires { length digits.now < 4 }
    ensures { result
        ≡ (if length digits.now == 0 then None
        else option_map (λ n. (n % 256, length digits.now + 2)) (number_by 16 digits.now)) }
{
    if digits.is_empty() {
        return None;
    }
    let number = number_by(16, digits)?;
    Some(((number % 256) as u8, digits.len() + 2))
}

/// Whether the bytes begin with this one.
pub(crate) fn begins(byte: u8, bytes: &[u8]) -> bool
    ensures { result ≡ has_first byte bytes.now }
{
    match bytes {
        [] => false,
        [first, ..] => *first == byte,
    }
}

/// The byte of an escape after its backslash, and its length with it.
#[tactic(auto, unfolding(rv_expression_laws::specs::Front::escape_at))]
fn escape_at(bytes: &[u8]) -> Option<(u8, usize)>
    ensures { result ≡ option_map (λ f. (byte_of f.0, f.1)) (escape_at bytes.now) }
{
    if bytes.is_empty() {
        return None;
    }
    let first = bytes[0];
    let (_, rest) = bytes.split_at(1);
    if is_digit(8, first) {
        let more = up_to_two(8, rest);
        let (digits, _) = bytes.split_at(more + 1);
        return octal(digits);
    }
    if first == b'x' {
        let count = up_to_two(16, rest);
        let (digits, _) = rest.split_at(count);
        return hexadecimal(digits);
    }
    match named(first) {
        Some(byte) => Some((byte, 2)),
        None => None,
    }
}

/// What stands for one byte of a string: the byte, and the length.
#[tactic(auto, unfolding(rv_expression_laws::specs::Front::atom_at))]
fn atom_at(bytes: &[u8]) -> Option<(u8, usize)>
    ensures { result ≡ option_map (λ f. (byte_of f.0, f.1)) (atom_at bytes.now) }
{
    match bytes {
        [] => None,
        [b'\\', rest @ ..] => escape_at(rest),
        [byte, ..] => if is_plain(*byte) {
            Some((*byte, 1))
        } else {
            None
        },
    }
}

/// How many bytes at the front stand in a string as they are.
fn plain_length(bytes: &[u8]) -> usize
    ensures count { result ≡ prefix_len is_plain bytes.now }
    ensures within { result ≤ length bytes.now }
{
    match memchr3(b'"', b'\\', b'\n', bytes) {
        Some(length) => length,
        None => bytes.len(),
    }
}

/// What is behind the bytes at the front that stand in a string as they are.
fn behind_plain(bytes: &[u8]) -> &[u8]
    ensures behind { result.now ≡ drop (prefix_len is_plain bytes.now) bytes.now }
    ensures within { length result.now ≤ length bytes.now }
{
    let (_, behind) = bytes.split_at(plain_length(bytes));
    behind
}

/// The length of a string's inside, where a quote closes it.
pub(crate) fn string_length(bytes: &[u8]) -> Option<usize>
    ensures { option_map (λ n. (grammar.Text (string_bytes (take n bytes.now)), n + 2)) result
        ≡ closed_string (cut atom_at bytes.now) }
{
    let mut rest = behind_plain(bytes);
    while let Some((_, length)) = atom_at(rest) {
        let (_, after) = rest.split_at(length);
        rest = behind_plain(after);
    }
    if begins(b'"', rest) {
        Some(bytes.len() - rest.len())
    } else {
        None
    }
}

/// Appends the bytes that a string has, an escape and what follows it at a time; an error leaves the first of them appended.
fn append_each(text: &[u8], bytes: &mut Vec<u8>) -> Result<(), AllocError>
    ensures ok { OnOk result (bytes.new.items ≡ bytes.old.items ++ string_bytes text.now) }
    ensures err { OnErr result ((first more : List ℕ)
        × (bytes.new.items ≡ bytes.old.items ++ first) × (string_bytes text.now ≡ first ++ more)) }
{
    let mut rest = text;
    while let Some((byte, length)) = atom_at(rest) {
        bytes.push(byte)?;
        let (_, after) = rest.split_at(length);
        let (plain, behind) = after.split_at(plain_length(after));
        bytes.extend_from_slice(plain)?;
        rest = behind;
    }
    Ok(())
}

/// Appends the bytes that a string has, by what stands between its quotes; an error leaves the first of them appended.
pub fn append_string(text: &[u8], bytes: &mut Vec<u8>) -> Result<(), AllocError>
    ensures ok { OnOk result (bytes.new.items ≡ bytes.old.items ++ string_bytes text.now) }
    ensures err { OnErr result ((first more : List ℕ)
        × (bytes.new.items ≡ bytes.old.items ++ first) × (string_bytes text.now ≡ first ++ more)) }
{
    let (plain, behind) = text.split_at(plain_length(text));
    bytes.extend_from_slice(plain)?;
    append_each(behind, bytes)?;
    Ok(())
}

/// Whether a byte is among others.
#[tactic(auto, using(crate::proofs::PlainBytesLemmas::found_any))]
fn has_byte(bytes: &[u8], wanted: u8) -> bool
    ensures { result ≡ list_any (λ byte. byte == wanted) bytes.now }
{
    memchr(wanted, bytes).is_some()
}

/// Whether a string has the byte, by what stands between its quotes.
pub fn string_contains(text: &[u8], wanted: u8) -> bool
    ensures { result ≡ list_any (λ byte. byte == wanted) (string_bytes text.now) }
{
    let (plain, behind) = text.split_at(plain_length(text));
    if has_byte(plain, wanted) {
        return true;
    }
    let mut rest = behind;
    while let Some((byte, length)) = atom_at(rest) {
        if byte == wanted {
            return true;
        }
        let (_, after) = rest.split_at(length);
        let (plain, behind) = after.split_at(plain_length(after));
        if has_byte(plain, wanted) {
            return true;
        }
        rest = behind;
    }
    false
}

/// How many bytes a string has, by what stands between its quotes.
pub fn string_size(text: &[u8]) -> usize
    ensures { result ≡ length (string_bytes text.now) }
{
    let plain = plain_length(text);
    let (_, behind) = text.split_at(plain);
    let mut rest = behind;
    let mut size = plain;
    while let Some((_, length)) = atom_at(rest) {
        let (_, after) = rest.split_at(length);
        let plain = plain_length(after);
        let (_, behind) = after.split_at(plain);
        rest = behind;
        size += 1 + plain;
    }
    size
}

/// A character that stands for itself, after its apostrophe: its byte, and its length with both.
fn plain_character(bytes: &[u8]) -> Option<(u8, usize)>
    requires { has_first 92 bytes.now ≡ false }
    ensures { option_map (λ r. (grammar.Character r.0, r.1)) result ≡ character_at bytes.now }
{
    match bytes {
        [] => None,
        [byte, rest @ ..] => {
            if is_character(*byte) && begins(b'\'', rest) {
                Some((*byte, 3))
            } else {
                None
            }
        }
    }
}

/// A character after its apostrophe: its byte, and its length with both.
pub(crate) fn character_at(bytes: &[u8]) -> Option<(u8, usize)>
    ensures { option_map (λ r. (grammar.Character r.0, r.1)) result ≡ character_at bytes.now }
{
    if !begins(b'\\', bytes) {
        return plain_character(bytes);
    }
    match atom_at(bytes) {
        Some((byte, length)) => {
            let (_, after) = bytes.split_at(length);
            if begins(b'\'', after) {
                Some((byte, length + 2))
            } else {
                None
            }
        }
        None => None,
    }
}
