//! Shortens calls one by one, in the order in which they can be.
//!
//! Where a call can only be short once another one is, and that one stands wherever it likes, passes over the text shorten one
//! call each, so many calls take as many passes. Here each call waits until enough of the text is dropped for it (`agenda`), and
//! what lies between it and its target is read from sums (`sums`). That no call is left which might be shorter is for the next pass to
//! say: it judges each.

ghost use Rattle.std.specs.Prelude.{◌≡◌, ℕ, ◌*◌, ◌^◌, ◌<◌, ◌≤◌, ◌≤ℤ◌, pos, neg_ℤ, ◌-ℤ◌, length, slice_index, IfOk, OnOk};
ghost use Rattle.rv_size_laws.specs.Calls.{Shortenings, IsFamily};
ghost use Rattle.rv_size_laws.specs.Offsets as offsets;
ghost use Rattle.rv_call_sizes.specs.Passes.{AreTargets, IsInput, IsTurn, IsVisit, drops};
ghost use Rattle.rv_call_sizes.specs.Sums.{AreTripleSums};

use crate::agenda::Agenda;
use crate::passes::{between, is_shortest};
use crate::places::is_call;
use crate::reach::{judged_size, lacking};
use crate::sums::DropSums;
use rv_size_laws::{Site, SiteKind};
use std::alloc::{AllocError, Global};

/// How often each site is looked at, on average, before the next pass: it would be a text made for that.
const MOST_LOOKS: usize = 64;

/// Shortens calls of a text in the order in which they can be, until all wait for others.
pub(crate) fn shorten_one_by_one(
    alloc: Global,
    sites: &[Site],
    targets: &[usize],
    kept: &mut [u32],
) -> Result<(), AllocError>
    requires input { IsInput sites.now }
    requires targets { AreTargets sites.now targets.now }
    requires family { IsFamily sites.now kept.old }
    ensures shortenings { OnOk result ((n : ℕ) × Shortenings sites.now kept.old kept.new n) }
    ensures family { OnOk result (IsFamily sites.now kept.new) }
{
    let mut sums = DropSums::of(alloc, sites, kept)?;
    let mut agenda = agenda_of(alloc, sites)?;
    let mut dropped: usize = 0;
    for _ in 0..sites.len().saturating_mul(MOST_LOOKS) {
        let Some(i) = agenda.take(dropped) else {
            break;
        };
        let size = kept[i];
        let due = if visit(sites, targets, i, &mut sums, kept) {
            dropped = dropped.saturating_add((size.saturating_sub(kept[i]) / 2) as usize);
            dropped
        } else {
            let bytes = lacks(sites, targets, i, &sums, kept);
            dropped.saturating_add(bytes.div_ceil(2))
        };
        agenda.put(i, due);
    }
    Ok(())
}

/// All calls, which wait for nothing.
fn agenda_of(alloc: Global, sites: &[Site]) -> Result<Agenda, AllocError>
    ensures { IfOk result (λ agenda. length agenda.next.items ≡ length sites.now) }
{
    let mut agenda = Agenda::new(alloc, sites.len())?;
    for i in 0..sites.len() {
        if is_call(&sites[i].kind) {
            agenda.put(i, 0);
        }
    }
    Ok(agenda)
}

/// Looks at site `i`, shortens it where it is a call of which a shorter form reaches, and tells whether it was shortened.
fn visit(sites: &[Site], targets: &[usize], i: usize, sums: &mut DropSums, kept: &mut [u32]) -> bool
    requires input { IsInput sites.now }
    requires targets { AreTargets sites.now targets.now }
    requires family { IsFamily sites.now kept.old }
    requires within { i < length sites.now }
    requires sums { AreTripleSums (drops sites.now kept.old)
        (sums.old).ones.items (sums.old).twos.items (sums.old).threes.items }
    ensures visit { IsVisit sites.now i kept.old kept.new result }
    ensures family { IsFamily sites.now kept.new }
    ensures sums { AreTripleSums (drops sites.now kept.new)
        (sums.new).ones.items (sums.new).twos.items (sums.new).threes.items }
{
    let size = kept[i];
    let shorter = size_by_sums(sites, targets, i, sums, kept);
    sums.add(sites, kept, i, size - shorter);
    kept[i] = shorter;
    shorter < size
}

/// The size that site `i` takes.
fn size_by_sums(sites: &[Site], targets: &[usize], i: usize, sums: &DropSums, kept: &[u32]) -> u32
    requires input { IsInput sites.now }
    requires targets { AreTargets sites.now targets.now }
    requires family { IsFamily sites.now kept.now }
    requires within { i < length sites.now }
    requires sums { AreTripleSums (drops sites.now kept.now)
        (sums.now).ones.items (sums.now).twos.items (sums.now).threes.items }
    ensures turn { IsTurn sites.now kept.now i result }
    ensures less { result ≤ slice_index kept.now i }
{
    let size = kept[i];
    match sites[i].kind {
        SiteKind::Padding(_) => size,
        SiteKind::Call(call) => {
            if is_shortest(&call, size) {
                return size;
            }
            let far = between(sites[i].offset, call.target);
            let distance = distance_by_sums(far, sites, kept, sums, i, targets[i]);
            judged_size(&call, size, distance)
        }
    }
}

/// How many bytes more have to be dropped before site `i` can be shorter: more than there are, where it never can.
fn lacks(sites: &[Site], targets: &[usize], i: usize, sums: &DropSums, kept: &[u32]) -> usize
    requires input { IsInput sites.now }
    requires targets { AreTargets sites.now targets.now }
    requires family { IsFamily sites.now kept.now }
    requires within { i < length sites.now }
    requires sums { AreTripleSums (drops sites.now kept.now)
        (sums.now).ones.items (sums.now).twos.items (sums.now).threes.items }
{
    let size = kept[i];
    match sites[i].kind {
        SiteKind::Padding(_) => usize::MAX,
        SiteKind::Call(call) => {
            if is_shortest(&call, size) {
                return usize::MAX;
            }
            let far = between(sites[i].offset, call.target);
            let distance = distance_by_sums(far, sites, kept, sums, i, targets[i]);
            lacking(&call, size, distance)
        }
    }
}

/// What is left of a distance from site `i` to the site of a target.
fn distance_by_sums(
    far: i128,
    sites: &[Site],
    kept: &[u32],
    sums: &DropSums,
    i: usize,
    target: usize,
) -> i128
    requires low { neg_ℤ (pos (9 * 2 ^ 123)) ≤ℤ far }
    requires high { far ≤ℤ pos (9 * 2 ^ 123) }
    requires input { IsInput sites.now }
    requires family { IsFamily sites.now kept.now }
    requires sums { AreTripleSums (drops sites.now kept.now)
        (sums.now).ones.items (sums.now).twos.items (sums.now).threes.items }
    requires here { i ≤ length sites.now }
    requires target { target ≤ length sites.now }
    ensures value { result ≡ far -ℤ offsets.distance (drops sites.now kept.now) i target }
    ensures low { neg_ℤ (pos (63 * 2 ^ 121)) ≤ℤ result }
    ensures high { result ≤ℤ pos (63 * 2 ^ 121) }
{
    let before = sums.before(sites, kept, i);
    let there = sums.before(sites, kept, target);
    far - between(before, there)
}
