//! Numbers of seven bits a byte, the low ones first.
//!
//! A number is looked for in ten bytes, so that none costs much: 64 bits need no more.
//!
//! Source: DWARF 5, 7.6 "Variable Length Data".

ghost use Rattle.std.specs.Prelude.{◌≡◌, ◌≤◌, Some, IfSome, length};
ghost use Rattle.rv_debug_laws.specs.Leb128.{unsigned_at, signed_at};

/// The most bytes behind the first in which a number is looked for.
const MOST: u32 = 9;

/// The unsigned number at the front of some bytes, and how many of them it takes.
pub(crate) fn unsigned_in(bytes: &[u8]) -> Option<(u64, usize)>
    ensures number { IfSome result (λ found. unsigned_at bytes.now ≡ Some found) }
    ensures inside { IfSome result (λ found. found.1 ≤ length bytes.now) }
{
    unsigned_within(bytes, MOST)
}

/// The signed number at the front of some bytes, and how many of them it takes.
pub(crate) fn signed_in(bytes: &[u8]) -> Option<(i64, usize)>
    ensures number { IfSome result (λ found. signed_at bytes.now ≡ Some found) }
    ensures inside { IfSome result (λ found. found.1 ≤ length bytes.now) }
{
    signed_within(bytes, MOST)
}

/// An unsigned number with at most so many bytes behind the first.
fn unsigned_within(bytes: &[u8], most: u32) -> Option<(u64, usize)>
    ensures number { IfSome result (λ found. unsigned_at bytes.now ≡ Some found) }
    ensures inside { IfSome result (λ found. found.1 ≤ length bytes.now) }
{
    let (first, rest) = bytes.split_first()?;
    if *first < 128 {
        return Some((u64::from(*first), 1));
    }
    let fewer = most.checked_sub(1)?;
    let (high, taken) = unsigned_within(rest, fewer)?;
    let number = high.checked_mul(128)?.checked_add(u64::from(*first - 128))?;
    Some((number, taken + 1))
}

/// A signed number with at most so many bytes behind the first.
fn signed_within(bytes: &[u8], most: u32) -> Option<(i64, usize)>
    ensures number { IfSome result (λ found. signed_at bytes.now ≡ Some found) }
    ensures inside { IfSome result (λ found. found.1 ≤ length bytes.now) }
{
    let (first, rest) = bytes.split_first()?;
    if *first < 64 {
        return Some((i64::from(*first), 1));
    }
    if *first < 128 {
        return Some((i64::from(*first) - 128, 1));
    }
    let fewer = most.checked_sub(1)?;
    let (high, taken) = signed_within(rest, fewer)?;
    let number = high.checked_mul(128)?.checked_add(i64::from(*first - 128))?;
    Some((number, taken + 1))
}
