//! Passes over the sites of a text, forwards and backwards, that shorten each call which has a shorter form that reaches.
//!
//! One table tells how much of the text is dropped: for the sites that a pass has left behind the bytes before each, for
//! those ahead of it the bytes from each on (`specs/Passes`). Both are exact while sizes change in between, so a pass
//! forwards sees what the calls before a site have become, and one backwards what those after it have.

ghost use Rattle.std.specs.Prelude.{◌≡◌, ℕ, ◌+◌, ◌-◌, ◌*◌, ◌^◌, ◌<◌, ◌≤◌, ◌≤ℤ◌, pos, neg_ℤ, ◌-ℤ◌, not, length, slice_index, if◌then◌else◌, IsTrue, IfOk, OnOk};
ghost use Rattle.rv_size_laws.specs.Offsets.{offset, rest};
ghost use Rattle.rv_size_laws.specs.Tables.{forwards_away, backwards_away};
ghost use Rattle.rv_size_laws.specs.Calls.{IsClosed, IsFamily, IsGreatestClosed, Shortenings, calls, whole_sizes};
ghost use Rattle.rv_call_sizes.specs.Passes.{AreTargets, CannotShrink, HasForm, IsInput, IsTable, IsTurn, IsVisit, drops};

use crate::chase::shorten_one_by_one;
use crate::places::dropped_bytes;
use crate::reach::judged_size;
use rv_size_laws::{Call, Site, SiteKind};
use std::alloc::{AllocError, Global};

/// How many passes there are before calls are looked at one by one. Most texts are settled by then.
const PASSES_ALONE: usize = 4;

/// What lies between two places, in bytes.
pub(crate) fn between(from: u128, to: u128) -> i128
    requires from { from ≤ 9 * 2 ^ 123 }
    requires to { to ≤ 9 * 2 ^ 123 }
    ensures { result ≡ pos to -ℤ pos from }
{
    to as i128 - from as i128
}

/// Whether no form of a call is shorter than this size.
pub(crate) fn is_shortest(call: &Call, size: u32) -> bool
    requires { HasForm call.now size }
    ensures { IsTrue result → CannotShrink call.now size }
{
    if size == 2 {
        return true;
    }
    size == 4 && !call.compressed
}

/// What is left of a distance from site `i`, before which `before` is dropped, in a pass forwards.
fn distance_forwards(far: i128, target: usize, i: usize, before: u128, stands: &[u128]) -> i128
    requires low { neg_ℤ (pos (9 * 2 ^ 123)) ≤ℤ far }
    requires high { far ≤ℤ pos (9 * 2 ^ 123) }
    requires target { target < length stands.now }
    requires here { i < length stands.now }
    requires before { before ≤ 27 * 2 ^ 121 }
    requires own { slice_index stands.now i ≤ 27 * 2 ^ 121 }
    requires there { slice_index stands.now target ≤ 27 * 2 ^ 121 }
    ensures value { result ≡ far -ℤ forwards_away stands.now before i target }
    ensures low { neg_ℤ (pos (63 * 2 ^ 121)) ≤ℤ result }
    ensures high { result ≤ℤ pos (63 * 2 ^ 121) }
{
    if target < i {
        return far - between(before, stands[target]);
    }
    far - between(stands[target], stands[i])
}

/// What is left of a distance from site `i`, from which on `left` is dropped, in a pass backwards.
fn distance_backwards(far: i128, target: usize, i: usize, left: u128, stands: &[u128]) -> i128
    requires low { neg_ℤ (pos (9 * 2 ^ 123)) ≤ℤ far }
    requires high { far ≤ℤ pos (9 * 2 ^ 123) }
    requires target { target < length stands.now }
    requires here { i < length stands.now }
    requires left { left ≤ 27 * 2 ^ 121 }
    requires own { slice_index stands.now i ≤ 27 * 2 ^ 121 }
    requires there { slice_index stands.now target ≤ 27 * 2 ^ 121 }
    ensures value { result ≡ far -ℤ backwards_away stands.now left i target }
    ensures low { neg_ℤ (pos (63 * 2 ^ 121)) ≤ℤ result }
    ensures high { result ≤ℤ pos (63 * 2 ^ 121) }
{
    if i < target {
        return far - between(stands[target], left);
    }
    far - between(stands[i], stands[target])
}

/// The size that site `i` takes in a pass forwards.
fn size_forwards(
    sites: &[Site],
    targets: &[usize],
    i: usize,
    before: u128,
    kept: &[u32],
    stands: &[u128],
) -> u32
    requires input { IsInput sites.now }
    requires targets { AreTargets sites.now targets.now }
    requires within { i < length sites.now }
    requires table { IsTable sites.now i kept.now stands.now }
    requires before { before ≡ offset (drops sites.now kept.now) i }
    ensures { IsTurn sites.now kept.now i result }
{
    let size = kept[i];
    match sites[i].kind {
        SiteKind::Padding(_) => size,
        SiteKind::Call(call) => {
            if is_shortest(&call, size) {
                return size;
            }
            let far = between(sites[i].offset, call.target);
            let distance = distance_forwards(far, targets[i], i, before, stands);
            judged_size(&call, size, distance)
        }
    }
}

/// The size that site `i` takes in a pass backwards.
fn size_backwards(
    sites: &[Site],
    targets: &[usize],
    i: usize,
    left: u128,
    kept: &[u32],
    stands: &[u128],
) -> u32
    requires input { IsInput sites.now }
    requires targets { AreTargets sites.now targets.now }
    requires within { i < length sites.now }
    requires table { IsTable sites.now (i + 1) kept.now stands.now }
    requires left { left ≡ rest (drops sites.now kept.now) i }
    ensures { IsTurn sites.now kept.now i result }
{
    let size = kept[i];
    match sites[i].kind {
        SiteKind::Padding(_) => size,
        SiteKind::Call(call) => {
            if is_shortest(&call, size) {
                return size;
            }
            let far = between(sites[i].offset, call.target);
            let distance = distance_backwards(far, targets[i], i, left, stands);
            judged_size(&call, size, distance)
        }
    }
}

/// Looks at site `i` in a pass forwards, and tells whether it was shortened.
fn visit_forwards(
    sites: &[Site],
    targets: &[usize],
    i: usize,
    before: &mut u128,
    kept: &mut [u32],
    stands: &mut [u128],
) -> bool
    requires input { IsInput sites.now }
    requires targets { AreTargets sites.now targets.now }
    requires within { i < length sites.now }
    requires table { IsTable sites.now i kept.old stands.old }
    requires before { before.old ≡ offset (drops sites.now kept.old) i }
    ensures visit { IsVisit sites.now i kept.old kept.new result }
    ensures table { IsTable sites.now (i + 1) kept.new stands.new }
    ensures before { before.new ≡ offset (drops sites.now kept.new) (i + 1) }
{
    let size = kept[i];
    let start = *before;
    let shorter = size_forwards(sites, targets, i, start, kept, stands);
    kept[i] = shorter;
    stands[i] = start;
    *before = start + u128::from(dropped_bytes(&sites[i].kind, shorter));
    shorter < size
}

/// Looks at site `i` in a pass backwards, and tells whether it was shortened.
fn visit_backwards(
    sites: &[Site],
    targets: &[usize],
    i: usize,
    after: &mut u128,
    kept: &mut [u32],
    stands: &mut [u128],
) -> bool
    requires input { IsInput sites.now }
    requires targets { AreTargets sites.now targets.now }
    requires within { i < length sites.now }
    requires table { IsTable sites.now (i + 1) kept.old stands.old }
    requires after { after.old ≡ rest (drops sites.now kept.old) (i + 1) }
    ensures visit { IsVisit sites.now i kept.old kept.new result }
    ensures table { IsTable sites.now i kept.new stands.new }
    ensures after { after.new ≡ rest (drops sites.now kept.new) i }
{
    let size = kept[i];
    let behind = *after;
    let left = behind + u128::from(dropped_bytes(&sites[i].kind, size));
    let shorter = size_backwards(sites, targets, i, left, kept, stands);
    let now = behind + u128::from(dropped_bytes(&sites[i].kind, shorter));
    kept[i] = shorter;
    stands[i] = now;
    *after = now;
    shorter < size
}

/// Goes over the sites from the first to the last, shortens the calls that may be shorter, and tells how many it shortened.
fn shorten_forwards(
    sites: &[Site],
    targets: &[usize],
    kept: &mut [u32],
    stands: &mut [u128],
) -> usize
    requires input { IsInput sites.now }
    requires targets { AreTargets sites.now targets.now }
    requires table { IsTable sites.now 0 kept.old stands.old }
    ensures shortenings { Shortenings sites.now kept.old kept.new result }
    ensures settled { result ≡ 0 → IsClosed sites.now kept.new }
    ensures table { IsTable sites.now (length sites.now) kept.new stands.new }
{
    let mut shortened = 0;
    let mut before = 0;
    for i in 0..sites.len() {
        if visit_forwards(sites, targets, i, &mut before, kept, stands) {
            shortened += 1;
        }
    }
    shortened
}

/// Goes over the sites from the last to the first, shortens the calls that may be shorter, and tells how many it shortened.
fn shorten_backwards(
    sites: &[Site],
    targets: &[usize],
    kept: &mut [u32],
    stands: &mut [u128],
) -> usize
    requires input { IsInput sites.now }
    requires targets { AreTargets sites.now targets.now }
    requires table { IsTable sites.now (length sites.now) kept.old stands.old }
    ensures shortenings { Shortenings sites.now kept.old kept.new result }
    ensures settled { result ≡ 0 → IsClosed sites.now kept.new }
    ensures table { IsTable sites.now 0 kept.new stands.new }
{
    let mut shortened = 0;
    let mut after = 0;
    let mut i = sites.len();
    while i > 0 {
        i -= 1;
        if visit_backwards(sites, targets, i, &mut after, kept, stands) {
            shortened += 1;
        }
    }
    shortened
}

/// Goes over the sites in one direction, shortens the calls that may be shorter, and tells how many it shortened.
fn shorten(
    sites: &[Site],
    targets: &[usize],
    forwards: bool,
    kept: &mut [u32],
    stands: &mut [u128],
) -> usize
    requires input { IsInput sites.now }
    requires targets { AreTargets sites.now targets.now }
    requires table { IsTable sites.now (if forwards then 0 else length sites.now) kept.old stands.old }
    ensures shortenings { Shortenings sites.now kept.old kept.new result }
    ensures settled { result ≡ 0 → IsClosed sites.now kept.new }
    ensures table { IsTable sites.now (if not forwards then 0 else length sites.now) kept.new stands.new }
{
    if forwards {
        return shorten_forwards(sites, targets, kept, stands);
    }
    shorten_backwards(sites, targets, kept, stands)
}

/// Puts into the table what is dropped from each site on.
fn fill(sites: &[Site], kept: &[u32], stands: &mut [u128])
    requires input { IsInput sites.now }
    requires family { IsFamily sites.now kept.now }
    requires same_length { length stands.old ≡ length sites.now + 1 }
    ensures { IsTable sites.now 0 kept.now stands.new }
{
    let mut after = 0;
    let mut i = sites.len();
    stands[i] = after;
    while i > 0 {
        i -= 1;
        after += u128::from(dropped_bytes(&sites[i].kind, kept[i]));
        stands[i] = after;
    }
}

/// Shortens in passes, forwards and backwards in turn, until one finds nothing to shorten, and tells how many there were.
/// At first the sites are whole, and nothing is dropped. Where the first passes don't settle all, as each only shortens what waited
/// for the one before, what is left is [chased](shorten_one_by_one) before the next.
pub(crate) fn settle(
    alloc: Global,
    sites: &[Site],
    targets: &[usize],
    kept: &mut [u32],
    stands: &mut [u128],
) -> Result<usize, AllocError>
    requires input { IsInput sites.now }
    requires targets { AreTargets sites.now targets.now }
    requires many { length sites.now < 2 ^ 63 }
    requires whole { kept.old ≡ whole_sizes sites.now }
    requires same_length { length stands.old ≡ length sites.now + 1 }
    requires none { (j : ℕ) → slice_index stands.old j ≡ 0 }
    ensures greatest { OnOk result (IsGreatestClosed sites.now kept.new) }
    ensures few { IfOk result (λ rounds. rounds ≤ 2 * calls sites.now + 1) }
{
    let mut rounds = 0;
    let mut forwards = true;
    'rounds: loop {
        rounds += 1;
        if shorten(sites, targets, forwards, kept, stands) == 0 {
            return Ok(rounds);
        }
        forwards = !forwards;
        if rounds >= PASSES_ALONE {
            shorten_one_by_one(alloc, sites, targets, kept)?;
            fill(sites, kept, stands);
            forwards = true;
        }
    }
}
