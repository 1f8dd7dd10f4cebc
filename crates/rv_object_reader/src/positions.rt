//! Where bytes stand in a table: positions in order, and the first of them from an offset on.
//!
//! A table of strings is searched once for the bytes that end a name or that no map shows, because reading each name to its
//! end would take 10^12 steps for a million names that end in one long string.

ghost use Rattle.std.specs.Prelude.{◌≡◌, ◌<◌, ◌≤◌, ℕ, Bool, List, nat_lt, length, slice_index};
ghost use Rattle.std.specs.List.Sorted.{IsNonDecreasing, IsPartitionPoint};
ghost use Rattle.memchr.specs.Find.{IsFirst, Passes, places};

/// Of the positions of all bytes that pass a test, in order, the first at an offset or after it.
pub(crate) fn first_from(positions: &[usize], offset: usize) -> Option<usize>
    ensures { (test : ℕ → Bool) (bytes : List ℕ) → positions.now ≡ places test bytes
        → IsFirst (Passes test bytes) offset (length bytes) result }
{
    let before = count_before(positions, offset);
    if before < positions.len() {
        return Some(position(positions, before));
    }
    None
}

/// The position of an index.
fn position(positions: &[usize], index: usize) -> usize
    requires { index < length positions.now }
    ensures { result ≡ slice_index positions.now index }
{
    positions[index]
}

/// How many of positions in order stand before an offset.
fn count_before(positions: &[usize], offset: usize) -> usize
    ensures bound { result ≤ length positions.now }
    ensures point { IsNonDecreasing positions.now
        → IsPartitionPoint (λ p. p < offset) (λ p. offset ≤ p) positions.now result }
{
    positions.partition_point(
        |position: &usize| -> bool
            ensures { result ≡ nat_lt position.now offset }
        { *position < offset },
    )
}
