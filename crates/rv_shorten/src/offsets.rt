//! Offsets before and after calls are cut short.
//!
//! Rows may overlap, so what each loses is the difference of two running sums, found by halves.

ghost use Rattle.std.specs.Prelude.{◌≡◌, true, map};
ghost use Rattle.rv_link_laws.specs.Moves.{lost as lost_of, new_offset as offset_of};
ghost use Rattle.rv_shorten.specs.Cut.{are_in_order, move_of};

use crate::cut::Cut;
use crate::pieces::{count_before, dropped_before};

/// The offset that is left of an old one.
pub(crate) fn new_offset(cuts: &[Cut], old: u64) -> u64
    requires { are_in_order 0 0 cuts.now ≡ true }
    ensures { result ≡ offset_of (map move_of cuts.now) old }
{
    old - dropped_before(cuts, old)
}

/// The instructions that the cuts within a range of bytes lose: one each.
pub(crate) fn lost(cuts: &[Cut], offset: u64, bytes: u32) -> u64
    requires { are_in_order 0 0 cuts.now ≡ true }
    ensures { result ≡ lost_of (map move_of cuts.now) offset bytes }
{
    let stop = offset.saturating_add(u64::from(bytes));
    let before = count_before(cuts, offset);
    // a call has 8 bytes: to end by the stop it begins before the last 7 of them
    let ended = count_before(cuts, stop.saturating_sub(7));
    ended.saturating_sub(before) as u64
}
