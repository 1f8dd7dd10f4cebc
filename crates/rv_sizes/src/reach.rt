//! Which size a statement takes at a distance.
//!
//! A form reaches where the constant and the distance with it are both in its range, since the relocation moves with its
//! symbol. Ranges are even, so an odd constant reaches by no form.

ghost use Rattle.std.specs.Prelude.{◌≡◌, ◌↔◌, ◌^◌, ◌≤◌, pos, ◌≤ℤ◌, neg_ℤ, IsTrue};
ghost use Rattle.rv_size_laws.specs.Offsets.{IsImmediate, Reaches};
ghost use Rattle.rv_size_laws.specs.Branches.{Offers, half, largest, smallest};
ghost use Rattle.rv_sizes.specs.Passes.{IsJudged};

use rv_size_laws::{Forms, Item};

/// The smallest size that the forms have, in bytes.
pub(crate) fn smallest_size(forms: Forms) -> u32
    ensures { result ≡ smallest forms }
{
    match forms {
        Forms::Settled(bytes) => bytes,
        Forms::CompressedBranch | Forms::CompressedJump => 2,
        Forms::Branch => 4,
    }
}

/// The largest size that the forms have, in bytes.
fn largest_size(forms: Forms) -> u32
    ensures { result ≡ largest forms }
{
    match forms {
        Forms::Settled(bytes) => bytes,
        Forms::CompressedBranch | Forms::Branch => 8,
        Forms::CompressedJump => 4,
    }
}

/// How far back the form of a size reaches, in bytes.
fn reach_back(forms: Forms, size: u32) -> u32
    ensures value { result ≡ half forms size }
    ensures small { result ≤ 2 ^ 12 }
{
    match (forms, size) {
        (Forms::CompressedJump, _) => 1 << 11,
        (Forms::CompressedBranch, 2) => 1 << 8,
        _ => 1 << 12,
    }
}

/// Whether a jump that reaches so far back can have a number as its immediate.
fn is_immediate(back: u32, number: i64) -> bool
    ensures { IsTrue result ↔ IsImmediate back number }
{
    let back = i64::from(back);
    number % 2 == 0 && -back <= number && number < back
}

/// Whether a jump that reaches so far back reaches a target at a distance with a constant added.
fn reaches(back: u32, addend: i64, distance: i64) -> bool
    requires low { neg_ℤ (pos (2 ^ 62)) ≤ℤ distance }
    requires high { distance ≤ℤ pos (2 ^ 62) }
    requires small { back ≤ 2 ^ 12 }
    ensures { IsTrue result ↔ Reaches back addend distance }
{
    is_immediate(back, addend) && is_immediate(back, distance + addend)
}

/// The size that a statement takes at a distance: its own, or the double where a form below the largest does not reach.
pub(crate) fn judged_size(item: Item, size: u32, distance: i64) -> u32
    requires offered { Offers item.forms size }
    requires low { neg_ℤ (pos (2 ^ 62)) ≤ℤ distance }
    requires high { distance ≤ℤ pos (2 ^ 62) }
    ensures { IsJudged item distance size result }
{
    if size >= largest_size(item.forms) {
        return size;
    }
    if reaches(reach_back(item.forms, size), item.addend, distance) {
        return size;
    }
    2 * size
}
