//! The offers that may be due, by their numbers.

ghost use Rattle.std.specs.Prelude.{◌≡◌, ◌≤◌, ℕ, true, false, MatchOption, IfSome, IfNone};
ghost use Rattle.std.specs.BTreeSet.{contains};
ghost use Rattle.std.specs.Ordering.{nat_cmp};
ghost use Rattle.rv_inputs.specs.Least.{HasNone, IsLeast, IsFirstIn};

use std::collections::BTreeSet;

/// The least number in the first stretch that has one. A stretch begins with its first number and ends before its second.
pub(crate) fn first_in(pending: &BTreeSet<usize>, stretches: &[(usize, usize)]) -> Option<usize>
    ensures { IsFirstIn pending.now stretches.now result }
{
    match stretches {
        [] => None,
        [(from, to), behind @ ..] => match least(pending, *from, *to) {
            Some(found) => Some(found),
            None => first_in(pending, behind),
        },
    }
}

/// The least number from one up to another.
fn least(pending: &BTreeSet<usize>, from: usize, to: usize) -> Option<usize>
    ensures { MatchOption result (HasNone pending.now from to) (IsLeast pending.now from to) }
{
    let first = from_on(pending, from)?;
    if first < to { Some(first) } else { None }
}

/// The least number from one on.
fn from_on(pending: &BTreeSet<usize>, from: usize) -> Option<usize>
    ensures none { IfNone result ((q : ℕ) → from ≤ q → contains nat_cmp pending.now q ≡ false) }
    ensures low { IfSome result (λ k. from ≤ k) }
    ensures member { IfSome result (λ k. contains nat_cmp pending.now k ≡ true) }
    ensures least { IfSome result (λ k. (q : ℕ) → from ≤ q
        → contains nat_cmp pending.now q ≡ true → k ≤ q) }
{
    match pending.range(from..).next() {
        Some(first) => Some(*first),
        None => None,
    }
}
