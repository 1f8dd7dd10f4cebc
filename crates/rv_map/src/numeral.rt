//! The numbers in a map's text, read.

ghost use Rattle.std.specs.Prelude.{◌≡◌, ◌++◌, ◌∷◌, ◌<◌, false, true, MatchOption, IfSome};
ghost use Rattle.std.specs.Char.{digit_value};
ghost use Rattle.std.specs.Fmt.{digits};
ghost use Rattle.rv_map_laws.specs.Limits.{IsNumber};
ghost use Rattle.rv_map.specs.Numeral.{IsBase, begins_numeral, is_digit, number_of};
ghost use Rattle.rv_map.specs.Reading.{Gives, cut_at, number_at};

use memchr::memchr;

/// The number that stands before the first such byte, and what stands after it.
#[tactic(auto, unfolding(crate::specs::Reading::number_at))]
pub(crate) fn number_before(base: u64, end: u8, bytes: &[u8]) -> Option<(u64, &[u8])>
    requires { IsBase base }
    ensures exact { Gives (λ found. (found.0, found.1.now)) result (number_at base end bytes.now) }
    ensures found { IfSome result
        (λ found. bytes.now ≡ digits base false found.0 ++ end ∷ found.1.now) }
    ensures fits { IfSome result (λ found. IsNumber found.0) }
{
    let (field, rest) = cut(end, bytes)?;
    let number = number_of(base, field)?;
    Some((number, rest))
}

/// What stands before the first such byte, and what stands after it.
pub(crate) fn cut(end: u8, bytes: &[u8]) -> Option<(&[u8], &[u8])>
    ensures exact { Gives (λ found. (found.0.now, found.1.now)) result (cut_at end bytes.now) }
    ensures found { IfSome result (λ found. bytes.now ≡ found.0.now ++ end ∷ found.1.now) }
{
    let at = memchr(end, bytes)?;
    Some((&bytes[..at], &bytes[at + 1..]))
}

/// The number below 2^64 that is written so: digits without leading zeros.
fn number_of(base: u64, field: &[u8]) -> Option<u64>
    requires { IsBase base }
    ensures exact { result ≡ number_of base field.now }
    ensures found { IfSome result (λ number. field.now ≡ digits base false number) }
    ensures fits { IfSome result IsNumber }
{
    if !begins_numeral(field) {
        return None;
    }
    let mut number: u64 = 0;
    for byte in field {
        let digit = digit_of(base, *byte)?;
        number = number.checked_mul(base)?.checked_add(digit)?;
    }
    Some(number)
}

/// Whether there is a byte, and no zero before others.
fn begins_numeral(field: &[u8]) -> bool
    ensures { result ≡ begins_numeral field.now }
{
    match field {
        [] => false,
        [first, rest @ ..] => rest.is_empty() || *first != b'0',
    }
}

/// The value of a digit.
fn digit_of(base: u64, byte: u8) -> Option<u64>
    requires { IsBase base }
    ensures { MatchOption result (is_digit base byte ≡ false)
        (λ digit. (is_digit base byte ≡ true) × (digit ≡ digit_value byte)) }
{
    let digit = match byte {
        b'0'..=b'9' => byte - b'0',
        b'a'..=b'f' => byte - b'a' + 10,
        _ => return None,
    };
    if u64::from(digit) < base {
        Some(u64::from(digit))
    } else {
        None
    }
}
