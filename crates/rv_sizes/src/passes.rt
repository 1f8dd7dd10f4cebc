//! Passes over the statements, forwards and backwards, that widen what does not reach.
//!
//! One table tells where each statement stands in its section: those that a pass has left behind by their starts, those
//! ahead of it by what is left from them on (`specs/Passes`). Both are exact while sizes change in between, so a pass
//! forwards sees what the statements before it have become, and one backwards what those after it have.

ghost use Rattle.std.specs.Prelude.{◌≡◌, ℕ, ◌+◌, ◌*◌, ◌^◌, ◌<◌, ◌≤◌, ◌≤ℤ◌, pos, neg_ℤ, ◌-ℤ◌, not, length, slice_index, if◌then◌else◌};
ghost use Rattle.rv_size_laws.specs.Tables.{forwards_away, backwards_away};
ghost use Rattle.rv_size_laws.specs.Branches.{IsFamily, IsGood, IsLeastGood, Widenings, branches, smallest_sizes};
ghost use Rattle.rv_sizes.specs.Passes.{AreRests, AreStarts, IsInput, IsTable, IsVisit};

use crate::items::Items;
use crate::reach::judged_size;

/// What lies between two places, in bytes.
fn between(from: u64, to: u64) -> i64
    requires from { from ≤ 2 ^ 62 }
    requires to { to ≤ 2 ^ 62 }
    ensures { result ≡ pos to -ℤ pos from }
{
    to as i64 - from as i64
}

/// From statement `i`, which begins at `start`, to its target, in a pass forwards.
fn distance_forwards(target: usize, i: usize, start: u64, stands: &[u64]) -> i64
    requires target { target < length stands.now }
    requires here { i < length stands.now }
    requires start { start ≤ 2 ^ 62 }
    requires own { slice_index stands.now i ≤ 2 ^ 62 }
    requires there { slice_index stands.now target ≤ 2 ^ 62 }
    ensures value { result ≡ forwards_away stands.now start i target }
    ensures low { neg_ℤ (pos (2 ^ 62)) ≤ℤ result }
    ensures high { result ≤ℤ pos (2 ^ 62) }
{
    if target < i {
        return between(start, stands[target]);
    }
    between(stands[target], stands[i])
}

/// From statement `i`, from which on `left` is left, to its target, in a pass backwards.
fn distance_backwards(target: usize, i: usize, left: u64, stands: &[u64]) -> i64
    requires target { target < length stands.now }
    requires here { i < length stands.now }
    requires left { left ≤ 2 ^ 62 }
    requires own { slice_index stands.now i ≤ 2 ^ 62 }
    requires there { slice_index stands.now target ≤ 2 ^ 62 }
    ensures value { result ≡ backwards_away stands.now left i target }
    ensures low { neg_ℤ (pos (2 ^ 62)) ≤ℤ result }
    ensures high { result ≤ℤ pos (2 ^ 62) }
{
    if i < target {
        return between(stands[target], left);
    }
    between(stands[i], stands[target])
}

/// Looks at statement `i` in a pass forwards, and tells whether it was widened.
fn visit_forwards(
    items: &Items,
    i: usize,
    sizes: &mut [u32],
    stands: &mut [u64],
    ends: &mut [u64],
) -> bool
    requires input { IsInput items.now (length ends.old) }
    requires within { i < length items.now }
    requires table { IsTable items.now i sizes.old stands.old }
    requires starts { AreStarts items.now i sizes.old ends.old }
    ensures visit { IsVisit items.now i sizes.old sizes.new result }
    ensures table { IsTable items.now (i + 1) sizes.new stands.new }
    ensures starts { AreStarts items.now (i + 1) sizes.new ends.new }
{
    let item = items.get(i);
    let section = item.section as usize;
    let start = ends[section];
    let size = sizes[i];
    let wider = judged_size(
        item,
        size,
        distance_forwards(item.target as usize, i, start, stands),
    );
    sizes[i] = wider;
    stands[i] = start;
    ends[section] = start + u64::from(wider);
    size < wider
}

/// Looks at statement `i` in a pass backwards, and tells whether it was widened.
fn visit_backwards(
    items: &Items,
    i: usize,
    sizes: &mut [u32],
    stands: &mut [u64],
    ends: &mut [u64],
) -> bool
    requires input { IsInput items.now (length ends.old) }
    requires within { i < length items.now }
    requires table { IsTable items.now (i + 1) sizes.old stands.old }
    requires rests { AreRests items.now (i + 1) sizes.old ends.old }
    ensures visit { IsVisit items.now i sizes.old sizes.new result }
    ensures table { IsTable items.now i sizes.new stands.new }
    ensures rests { AreRests items.now i sizes.new ends.new }
{
    let item = items.get(i);
    let section = item.section as usize;
    let after = ends[section];
    let size = sizes[i];
    let left = after + u64::from(size);
    let wider = judged_size(
        item,
        size,
        distance_backwards(item.target as usize, i, left, stands),
    );
    sizes[i] = wider;
    stands[i] = after + u64::from(wider);
    ends[section] = after + u64::from(wider);
    size < wider
}

/// Forgets what the sections' table told.
fn clear(ends: &mut [u64])
    ensures length { length ends.new ≡ length ends.old }
    ensures cleared { (s : ℕ) → slice_index ends.new s ≡ 0 }
{
    ends.fill(0);
}

/// Fills the table with what is left from each statement on.
fn place_from_end(items: &Items, sizes: &[u32], stands: &mut [u64], ends: &mut [u64])
    requires input { IsInput items.now (length ends.old) }
    requires family { IsFamily items.now sizes.now }
    requires same_length { length stands.old ≡ length items.now }
    ensures table { IsTable items.now 0 sizes.now stands.new }
{
    clear(ends);
    let mut i = items.len();
    while i > 0 {
        i -= 1;
        let section = items.get(i).section as usize;
        let left = ends[section] + u64::from(sizes[i]);
        stands[i] = left;
        ends[section] = left;
    }
}

/// Goes over the statements from the first to the last, widens those that do not reach, and tells how many it widened.
fn widen_forwards(items: &Items, sizes: &mut [u32], stands: &mut [u64], ends: &mut [u64]) -> usize
    requires input { IsInput items.now (length ends.old) }
    requires table { IsTable items.now 0 sizes.old stands.old }
    ensures widenings { Widenings items.now sizes.old sizes.new result }
    ensures settled { result ≡ 0 → IsGood items.now sizes.new }
    ensures table { IsTable items.now (length items.now) sizes.new stands.new }
{
    clear(ends);
    let mut widened = 0;
    for i in 0..items.len() {
        if visit_forwards(items, i, sizes, stands, ends) {
            widened += 1;
        }
    }
    widened
}

/// Goes over the statements from the last to the first, widens those that do not reach, and tells how many it widened.
fn widen_backwards(items: &Items, sizes: &mut [u32], stands: &mut [u64], ends: &mut [u64]) -> usize
    requires input { IsInput items.now (length ends.old) }
    requires table { IsTable items.now (length items.now) sizes.old stands.old }
    ensures widenings { Widenings items.now sizes.old sizes.new result }
    ensures settled { result ≡ 0 → IsGood items.now sizes.new }
    ensures table { IsTable items.now 0 sizes.new stands.new }
{
    clear(ends);
    let mut widened = 0;
    let mut i = items.len();
    while i > 0 {
        i -= 1;
        if visit_backwards(items, i, sizes, stands, ends) {
            widened += 1;
        }
    }
    widened
}

/// Goes over the statements in one direction, widens those that do not reach, and tells how many it widened.
fn widen(
    items: &Items,
    forwards: bool,
    sizes: &mut [u32],
    stands: &mut [u64],
    ends: &mut [u64],
) -> usize
    requires input { IsInput items.now (length ends.old) }
    requires table { IsTable items.now (if forwards then 0 else length items.now) sizes.old stands.old }
    ensures widenings { Widenings items.now sizes.old sizes.new result }
    ensures settled { result ≡ 0 → IsGood items.now sizes.new }
    ensures table { IsTable items.now (if not forwards then 0 else length items.now) sizes.new stands.new }
{
    if forwards {
        return widen_forwards(items, sizes, stands, ends);
    }
    widen_backwards(items, sizes, stands, ends)
}

/// Widens in passes, forwards and backwards in turn, until one finds nothing to widen, and tells how many there were.
pub(crate) fn settle(
    items: &Items,
    sizes: &mut [u32],
    stands: &mut [u64],
    ends: &mut [u64],
) -> usize
    requires input { IsInput items.now (length ends.old) }
    requires smallest { sizes.old ≡ smallest_sizes items.now }
    requires same_length { length stands.old ≡ length items.now }
    ensures least { IsLeastGood items.now sizes.new }
    ensures few { result ≤ 2 * branches items.now + 1 }
{
    place_from_end(items, sizes, stands, ends);
    let mut rounds = 0;
    let mut forwards = true;
    'rounds: loop {
        rounds += 1;
        if widen(items, forwards, sizes, stands, ends) == 0 {
            return rounds;
        }
        forwards = !forwards;
    }
}
