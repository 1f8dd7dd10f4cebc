//! Instructions that the paddings of a section lose.
//!
//! Rows may overlap, so what each loses is the difference of two running sums, found by halves. Counted one by one,
//! 160,000 overlapping rows took 34 seconds.

ghost use Rattle.std.specs.Prelude.{◌≡◌, ◌-◌, ◌≤◌, true, length, map, IfOk};
ghost use Rattle.rv_object_laws.specs.Padding.{operations_in};
ghost use Rattle.rv_link_laws.specs.Moves.{lost as lost_of};
ghost use Rattle.rv_relax.specs.Paddings.{are_in_order, lost_sums, move_of, sum_of_first};

use crate::pieces::count_ended;
use rv_object_types::operations;
use rv_shorten::{Piece, count_before};
use std::alloc::{AllocError, Global};

/// The instructions that a padding loses of which so many bytes are left.
fn loses(full: u32, left: u32) -> u64
    ensures { result ≡ operations_in full - operations_in left }
{
    u64::from(operations(full).saturating_sub(operations(left)))
}

/// Of each padding, the instructions that it and those before it lose.
pub(crate) fn sums(alloc: Global, paddings: &[Piece<()>]) -> Result<Vec<u64>, AllocError>
    requires { are_in_order 0 0 paddings.now ≡ true }
    ensures { IfOk result (λ sums. sums.items ≡ lost_sums 0 paddings.now) }
{
    let mut sums = Vec::with_capacity(alloc, paddings.len())?;
    let mut lost = 0;
    for padding in paddings {
        lost += loses(padding.full, padding.left);
        sums.push(lost)?;
    }
    Ok(sums)
}

/// The instructions that so many paddings lose, from the first on.
fn lost_by(sums: &[u64], count: usize) -> u64
    requires { count ≤ length sums.now }
    ensures { result ≡ sum_of_first count sums.now }
{
    match count.checked_sub(1) {
        Some(last) => sums[last],
        None => 0,
    }
}

/// The instructions that the paddings within a range of bytes lose.
pub(crate) fn lost(paddings: &[Piece<()>], sums: &[u64], offset: u64, bytes: u32) -> u64
    requires order { are_in_order 0 0 paddings.now ≡ true }
    requires sums { sums.now ≡ lost_sums 0 paddings.now }
    ensures { result ≡ lost_of (map move_of paddings.now) offset bytes }
{
    let stop = offset.saturating_add(u64::from(bytes));
    let before = lost_by(sums, count_before(paddings, offset));
    let all = lost_by(sums, count_ended(paddings, stop));
    all.saturating_sub(before)
}
