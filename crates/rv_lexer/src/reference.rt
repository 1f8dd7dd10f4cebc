//! References to numeric labels.

ghost use Rattle.std.specs.Prelude.{◌≡◌, ◌==◌, ◌||◌, ◌&&◌, true, is_some, IfSome};
ghost use Rattle.std.specs.List.{list_all};
ghost use Rattle.rv_expression_laws.specs.Bytes.{is_digit};
ghost use Rattle.rv_expression_laws.specs.Front.{reference_in};

use crate::word::is_digit;

/// A reference to a numeric label, as `1b` and `01f`.
#[derive(Clone, Copy, Drop)]
pub struct NumericReference<'a> {
    /// The word as it is written.
    word: &'a [u8],
    ghost refers: { is_some (reference_in word.now) ≡ true },
}

impl<'a> NumericReference<'a> {
    ghost use Rattle.rv_lexer.specs.Reference.{digits_in, is_ahead};

    /// A word, where it refers to a numeric label.
    pub fn new(word: &'a [u8]) -> Option<Self>
        ensures is { is_some result ≡ is_some (reference_in word.now) }
        ensures word { IfSome result (λ r. r.word.now ≡ word.now) }
    {
        if refers(word) {
            Some(NumericReference { word })
        } else {
            None
        }
    }

    /// The word as it is written: the digits, and `b` or `f`.
    pub fn word(self) -> &'a [u8]
        ensures { result.now ≡ self.entry.word.now }
    {
        self.word
    }

    /// The digits.
    pub fn digits(self) -> &'a [u8]
        ensures { result.now ≡ digits_in self.entry.word.now }
    {
        match self.word {
            [digits @ .., _] => digits,
            [] => self.word,
        }
    }

    /// Whether the label comes after.
    pub fn is_forward(self) -> bool
        ensures { result ≡ is_ahead self.entry.word.now }
    {
        match self.word {
            [.., letter] => *letter == b'f',
            [] => false,
        }
    }
}

/// Whether the byte is the letter of a direction.
fn is_direction(byte: u8) -> bool
    ensures { result ≡ (byte == 102) || (byte == 98) }
{
    matches!(byte, b'f' | b'b')
}

/// Whether all bytes are decimal digits.
fn are_decimals(bytes: &[u8]) -> bool
    ensures { result ≡ list_all (is_digit 10) bytes.now }
{
    bytes.iter().all(|byte| is_digit(10, *byte))
}

/// Whether the word refers to a numeric label.
fn refers(word: &[u8]) -> bool
    ensures { result ≡ is_some (reference_in word.now) }
{
    match word {
        [digits @ .., letter] => is_direction(*letter) && are_decimals(digits),
        [] => false,
    }
}
