//! Which paddings end by an offset, what is left of one, and whether they have room.

ghost use Rattle.std.specs.Prelude.{◌≡◌, ◌+◌, ◌≤◌, ◌<◌, true, nat_le, length, map};
ghost use Rattle.std.specs.List.{list_all};
ghost use Rattle.std.specs.List.Sorted.{IsPartitionPoint};
ghost use Rattle.rv_shorten.specs.Pieces.{are_pieces};
ghost use Rattle.rv_relax.specs.Kept.{pad_at};
ghost use Rattle.rv_relax.specs.Paddings.{are_in_order, move_of};

use rv_shorten::{Piece, count_before};

/// How many pieces end at an offset or before it.
pub(crate) fn count_ended(pieces: &[Piece<()>], offset: u64) -> usize
    requires { are_pieces 0 0 pieces.now ≡ true }
    ensures bound { result ≤ length pieces.now }
    ensures point { IsPartitionPoint (λ p. p.place + p.full ≤ offset)
        (λ p. offset < p.place + p.full) pieces.now result }
{
    pieces.partition_point(
        |piece: &Piece<()>| -> bool
            ensures { result ≡ nat_le ((piece.now).place + (piece.now).full) offset }
        { piece.ends_by(offset) },
    )
}

/// Whether each piece is as long as what is needed of it.
pub(crate) fn have_room(pieces: &[Piece<()>]) -> bool
    ensures { result ≡ list_all (λ p. nat_le p.left p.full) pieces.now }
{
    pieces.iter().all(|piece| piece.left <= piece.full)
}

/// The bytes that are left of the piece at a place; 0 where none stands.
pub(crate) fn left_at(pieces: &[Piece<()>], place: u64) -> u32
    requires { are_in_order 0 0 pieces.now ≡ true }
    ensures { result ≡ pad_at (map move_of pieces.now) place }
{
    let index = count_before(pieces, place);
    if index == pieces.len() || pieces[index].place != place {
        return 0;
    }
    pieces[index].left
}
