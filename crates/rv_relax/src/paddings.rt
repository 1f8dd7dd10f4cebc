//! What is kept of each padding of a section.

ghost use Rattle.std.specs.Prelude.{◌≡◌, true, map, reverse, IfOk};
ghost use Rattle.rv_object_types.specs.Parts.{relocation_of};
ghost use Rattle.rv_link_laws.specs.Moves.{plan};
ghost use Rattle.rv_cut_laws.specs.Alignments.{are_alignments};
ghost use Rattle.rv_relax.specs.Paddings.{are_in_order, move_of};

use crate::alignments::least_padding;
use rv_object_types::Relocation;
use rv_shorten::Piece;
use std::alloc::{AllocError, Global};

/// What is kept of the paddings in a section that starts at a multiple of its alignments, which stand from the last to the first.
pub(crate) fn paddings(
    alloc: Global,
    alignments: &[Relocation],
) -> Result<Vec<Piece<()>>, AllocError>
    requires { are_alignments 0 (reverse (map relocation_of alignments.now)) ≡ true }
    ensures moves { IfOk result (λ v. map move_of v.items
        ≡ plan 0 0 (reverse (map relocation_of alignments.now))) }
    ensures order { IfOk result (λ v. are_in_order 0 0 v.items ≡ true) }
{
    let mut paddings = Vec::new(alloc);
    let (mut gone, mut dropped) = (0, 0);
    let mut rest = alignments.len();
    while rest > 0 {
        rest -= 1;
        let alignment = &alignments[rest];
        let full = alignment.full_padding() as u32;
        let stands = alignment.place - gone;
        let least = least_padding(alignment.asked_alignment() as u32, stands);
        let left = least - least % 2;
        paddings.push(Piece {
            place: alignment.place,
            gone: dropped,
            full,
            left,
            detail: (),
        })?;
        gone += u64::from(full.saturating_sub(least));
        dropped += u64::from(full.saturating_sub(left));
    }
    Ok(paddings)
}
