//! Which size a call takes at a distance.

ghost use Rattle.std.specs.Prelude.{◌↔◌, ◌*◌, ◌^◌, ◌<◌, ◌≤◌, pos, ◌≤ℤ◌, neg_ℤ, IsTrue};
ghost use Rattle.rv_size_laws.specs.Offsets.{IsImmediate, Reaches};
ghost use Rattle.rv_call_sizes.specs.Passes.{HasForm, IsJudged, MayTake};

use rv_size_laws::Call;

/// Whether a jump that reaches so far back can have a number as its immediate.
fn is_immediate(back: u32, number: i128) -> bool
    ensures { IsTrue result ↔ IsImmediate back number }
{
    let back = i128::from(back);
    number % 2 == 0 && -back <= number && number < back
}

/// Whether a jump that reaches so far back reaches a target at a distance with a constant added.
fn reaches(back: u32, addend: i64, distance: i128) -> bool
    requires low { neg_ℤ (pos (63 * 2 ^ 121)) ≤ℤ distance }
    requires high { distance ≤ℤ pos (63 * 2 ^ 121) }
    requires small { back ≤ 2 ^ 20 }
    ensures { IsTrue result ↔ Reaches back addend distance }
{
    let addend = i128::from(addend);
    is_immediate(back, addend) && is_immediate(back, distance + addend)
}

/// Whether `jal` is shorter than a call of this size, and reaches.
fn may_be_jal(call: &Call, size: u32, distance: i128) -> bool
    requires low { neg_ℤ (pos (63 * 2 ^ 121)) ≤ℤ distance }
    requires high { distance ≤ℤ pos (63 * 2 ^ 121) }
    ensures { IsTrue result ↔ MayTake call.now distance size 4 }
{
    size > 4 && reaches(1 << 20, call.addend, distance)
}

/// Whether `c.j` may stand for a call, is shorter than it is at this size, and reaches.
fn may_be_c_j(call: &Call, size: u32, distance: i128) -> bool
    requires low { neg_ℤ (pos (63 * 2 ^ 121)) ≤ℤ distance }
    requires high { distance ≤ℤ pos (63 * 2 ^ 121) }
    ensures { IsTrue result ↔ MayTake call.now distance size 2 }
{
    size > 2 && call.compressed && reaches(1 << 11, call.addend, distance)
}

/// The size that a call takes at a distance: the shortest form that reaches, or its own.
pub(crate) fn judged_size(call: &Call, size: u32, distance: i128) -> u32
    requires offered { HasForm call.now size }
    requires low { neg_ℤ (pos (63 * 2 ^ 121)) ≤ℤ distance }
    requires high { distance ≤ℤ pos (63 * 2 ^ 121) }
    ensures { IsJudged call.now distance size result }
{
    if may_be_c_j(call, size, distance) {
        return 2;
    }
    if may_be_jal(call, size, distance) {
        return 4;
    }
    size
}

/// How many bytes more have to be dropped between a call and its target before its next shorter form can reach, at least 1.
/// A call with a constant that is no immediate waits in vain.
pub(crate) fn lacking(call: &Call, size: u32, distance: i128) -> usize {
    let reach = if size > 4 { 1 << 20 } else { 1 << 11 };
    let reached = distance.saturating_add(i128::from(call.addend));
    let past = reached
        .saturating_sub(reach - 2)
        .max((-reach).saturating_sub(reached));
    usize::try_from(past).unwrap_or(usize::MAX).max(1)
}
