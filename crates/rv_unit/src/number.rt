//! Numbers by their digits, of any length.
//!
//! The hash mixes the decimal digits (FNV-1a). A remainder would make `1:`, `1000000008:`, .. collide: 20,000 such
//! labels took 11 seconds.

ghost use Rattle.std.specs.Prelude.{◌≡◌, ◌==◌, ◌+◌, ◌-◌, ◌*◌, ◌≤◌, ◌<◌, None, length, IfSome};
ghost use Rattle.std.specs.Cmp.Rules.{comparing};
ghost use Rattle.std.specs.Hash as fed;
ghost use Rattle.std.proofs.Common.{ap, rules};
ghost use Rattle.std.proofs.lemmas.Bool.{eqb-true};
ghost use Rattle.rv_expression_laws.specs.Bytes.{digits_value, digit};
ghost use Rattle.rv_unit.specs.Mixed.{HasNoZeroInFront, basis, mix, mix_digit};

use indexmap::Equivalent;
use std::hash::{Hash, Hasher};

/// Where the mixing of digits begins, and what each step multiplies by: those of the hash FNV-1a.
const BASIS: u64 = 0xcbf2_9ce4_8422_2325;

const PRIME: u64 = 0x100_0000_01b3;

/// A number by its digits; two are equal that spell the same number.
#[derive(Clone, Copy, Drop)]
pub(crate) struct Number<'a> {
    pub(crate) digits: &'a [u8],
}

/// The value of a digit `0` to `9`, `a` to `f`, `A` to `F`; 16 for every other byte.
#[tactic(auto, unfolding(rv_expression_laws::specs::Bytes::digit))]
fn digit(byte: u8) -> u8
    ensures value { result ≡ digit byte }
    ensures below { result ≤ 16 }
{
    match byte {
        b'0'..=b'9' => byte - b'0',
        b'a'..=b'f' => byte - b'a' + 10,
        b'A'..=b'F' => byte - b'A' + 10,
        _ => 16,
    }
}

/// The digits after a zero in front.
fn behind_zero(digits: &[u8]) -> Option<&[u8]>
    ensures found { IfSome result
        (λ rest. (digits_value 10 rest.now ≡ digits_value 10 digits.now)
        × (length rest.now < length digits.now)) }
    ensures missing { result ≡ None → HasNoZeroInFront digits.now }
{
    match digits {
        [] => None,
        [first, rest @ ..] => { if digit(*first) == 0 { Some(rest) } else { None } }
    }
}

/// The digits without the zeros in front.
fn trimmed(digits: &[u8]) -> &[u8]
    ensures value { digits_value 10 result.now ≡ digits_value 10 digits.now }
    ensures some { HasNoZeroInFront result.now }
{
    let mut left = digits;
    while let Some(rest) = behind_zero(left) {
        left = rest;
    }
    left
}

/// The digits without the last, and its value; without any 0.
fn cut_last(digits: &[u8]) -> (&[u8], u8)
    ensures some { HasNoZeroInFront digits.now → HasNoZeroInFront result.0.now }
    ensures value { digits_value 10 digits.now ≡ 10 * digits_value 10 result.0.now + result.1 }
    ensures below { result.1 ≤ 16 }
    ensures shorter { length result.0.now ≡ length digits.now - 1 }
{
    match digits {
        [] => (&[], 0),
        [rest @ .., last] => (rest, digit(*last)),
    }
}

/// Whether digits spell the same number.
pub(crate) fn same_number(first: &[u8], second: &[u8]) -> bool
    ensures { result ≡ (digits_value 10 first.now == digits_value 10 second.now) }
{
    let mut left = first;
    let mut right = second;
    let mut left_carry = 0;
    let mut right_carry = 0;
    while !left.is_empty() || !right.is_empty() {
        let (left_rest, left_digit) = cut_last(left);
        let (right_rest, right_digit) = cut_last(right);
        left_carry += left_digit;
        right_carry += right_digit;
        if left_carry % 10 != right_carry % 10 {
            return false;
        }
        left = left_rest;
        right = right_rest;
        left_carry /= 10;
        right_carry /= 10;
    }
    left_carry == right_carry
}

/// A digit more, mixed in.
fn with_digit(number: u64, digit: u8) -> u64
    ensures { result ≡ mix_digit number digit }
{
    (number ^ u64::from(digit)).wrapping_mul(PRIME)
}

/// The decimal digits of the number that digits spell, from the last on, mixed into one number.
fn mixed(digits: &[u8]) -> u64
    ensures { result ≡ mix (digits_value 10 digits.now) basis }
{
    let mut rest = trimmed(digits);
    let mut carry = 0;
    let mut number = BASIS;
    while !rest.is_empty() {
        let (front, last) = cut_last(rest);
        carry += last;
        number = with_digit(number, carry % 10);
        carry /= 10;
        rest = front;
    }
    if carry == 0 {
        number
    } else {
        with_digit(number, carry)
    }
}

impl PartialEq for Number<'_> {
    ghost eq = { λ a b. digits_value 10 a.digits.now == digits_value 10 b.digits.now };

    ghost laws = { Prim.search (comparing, rules) };

    fn eq(&self, other: &Number<'_>) -> bool {
        same_number(self.digits, other.digits)
    }
}

impl Eq for Number<'_> {
    ghost laws = { Prim.search (comparing, rules) };
}

impl Hash for Number<'_> {
    ghost hash_input = { λ n. fed.u64 (mix (digits_value 10 n.digits.now) basis) };

    ghost respects_eq = { λ a b same. ap (λ n. fed.u64 (mix n basis))
        (eqb-true (digits_value 10 a.digits.now) (digits_value 10 b.digits.now) same) };

    fn hash<H: Hasher>(&self, state: &mut H) {
        state.write_u64(mixed(self.digits));
    }
}

impl<'k> Equivalent<Number<'k>> for Number<'_> {
    ghost equivalent = { λ q k. digits_value 10 q.digits.now == digits_value 10 k.digits.now };

    ghost respects_hash = { λ q k same. ap (λ n. fed.u64 (mix n basis))
        (eqb-true (digits_value 10 q.digits.now) (digits_value 10 k.digits.now) same) };

    ghost respects_eq = { λ q x y same. ap (λ n. n == digits_value 10 y.digits.now)
        (eqb-true (digits_value 10 q.digits.now) (digits_value 10 x.digits.now) same) };

    fn equivalent(&self, key: &Number<'k>) -> bool {
        same_number(self.digits, key.digits)
    }
}
