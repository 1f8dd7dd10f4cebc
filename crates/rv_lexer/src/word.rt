//! Words: names, numbers and references to numeric labels.

ghost use Rattle.std.specs.Prelude.{◌≡◌, ◌<◌};
ghost use Rattle.std.specs.List.{prefix_len};
ghost use Rattle.rv_expression_laws.specs.Bytes.{is_word, is_digit};
ghost use Rattle.rv_expression_laws.specs.Front.{number_by, after_zero, word_number, reference_in, digits_kind};
ghost use Rattle.rv_lexer.specs.Token.{kind_of};

use crate::class::{digit, is_word};
use crate::reference::NumericReference;
use crate::token::TokenKind;

/// How many bytes at the front a word goes on with.
pub(crate) fn word_length(bytes: &[u8]) -> usize
    ensures { result ≡ prefix_len is_word bytes.now }
{
    bytes.iter().take_while(|byte| is_word(**byte)).count()
}

/// Whether the byte is a digit in the base, up to 16.
pub(crate) fn is_digit(base: u8, byte: u8) -> bool
    ensures { result ≡ is_digit base byte }
{
    digit(byte) < base
}

/// The number that digits spell, where they are digits of the base and it fits 64 bits.
pub(crate) fn number_by(base: u8, digits: &[u8]) -> Option<u64>
    requires { 1 < base }
    ensures { result ≡ number_by base digits.now }
{
    let mut number: u64 = 0;
    for byte in digits {
        let digit = digit(*byte);
        if digit >= base {
            return None;
        }
        number = number
            .checked_mul(u64::from(base))?
            .checked_add(u64::from(digit))?;
    }
    Some(number)
}

/// The number that a word writes after its leading `0`.
#[tactic(auto, using(crate::proofs::NumbersLemmas::short_zero, crate::proofs::NumbersLemmas::long_zero))]
fn after_zero(rest: &[u8]) -> Option<u64>
    ensures { result ≡ after_zero rest.now }
{
    if rest.len() < 2 {
        return number_by(8, rest);
    }
    match rest[0] {
        b'x' => number_by(16, &rest[1..]),
        b'b' => number_by(2, &rest[1..]),
        _ => number_by(8, rest),
    }
}

/// The number that a word writes.
#[tactic(auto, unfolding(rv_expression_laws::specs::Front::word_number))]
fn number_in(word: &[u8]) -> Option<u64>
    ensures { result ≡ word_number word.now }
{
    match word {
        [] => None,
        [b'0', rest @ ..] => after_zero(rest),
        _ => number_by(10, word),
    }
}

/// What a word is that begins with a digit. In line, so that a number is written where its token stands.
#[inline(always)]
pub(crate) fn digits_kind(word: &[u8]) -> TokenKind<'_>
    ensures { kind_of result ≡ digits_kind word.now (reference_in word.now) }
{
    if let Some(reference) = NumericReference::new(word) {
        return TokenKind::Reference(reference);
    }
    match number_in(word) {
        Some(number) => TokenKind::Number(word, number),
        None => TokenKind::BadWord(word),
    }
}
