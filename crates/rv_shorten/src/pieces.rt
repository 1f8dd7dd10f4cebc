//! Where an offset lies among the parts of a text that lose bytes, and what of them is dropped before it.

ghost use Rattle.std.specs.Prelude.{◌≡◌, ◌≤◌, ◌<◌, true, nat_lt, length};
ghost use Rattle.std.specs.List.Sorted.{IsPartitionPoint};
ghost use Rattle.rv_shorten.specs.Pieces.{are_pieces, pieces_dropped};

use crate::piece::Piece;

/// How many pieces begin before an offset.
pub fn count_before<T: Drop>(pieces: &[Piece<T>], offset: u64) -> usize
    requires { are_pieces 0 0 pieces.now ≡ true }
    ensures bound { result ≤ length pieces.now }
    ensures point { IsPartitionPoint (λ p. p.place < offset) (λ p. offset ≤ p.place)
        pieces.now result }
{
    pieces.partition_point(
        |piece: &Piece<T>| -> bool
            ensures { result ≡ nat_lt (piece.now).place offset }
        { piece.place < offset },
    )
}

/// The bytes before an offset that are dropped.
pub fn dropped_before<T: Drop>(pieces: &[Piece<T>], offset: u64) -> u64
    requires { are_pieces 0 0 pieces.now ≡ true }
    ensures value { result ≡ pieces_dropped pieces.now offset }
    ensures within { result ≤ offset }
{
    match count_before(pieces, offset).checked_sub(1) {
        Some(last) => pieces[last].all_dropped_before(offset),
        None => 0,
    }
}
