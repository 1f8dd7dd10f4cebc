//! Relocations in the order of their places.

ghost use Rattle.std.specs.Prelude.{IfOk};
ghost use Rattle.std.specs.Bool.{OnTrue};
ghost use Rattle.std.specs.Ordering.{nat_cmp};
ghost use Rattle.std.specs.List.Sorted.{IsNonDecreasingBy, IsPermutation, IsStableByKey};

use rv_object_types::Relocation;
use std::alloc::{AllocError, Global};

/// Whether relocations stand in the order of their places.
fn are_ordered(relocations: &[Relocation]) -> bool
    ensures { OnTrue result (IsNonDecreasingBy (λ r. r.place) relocations.now) }
{
    relocations.is_sorted_by_key(|relocation| relocation.place)
}

/// Relocations in the order of their places; those at one place stay in theirs.
pub(crate) fn by_place(
    alloc: Global,
    relocations: &[Relocation],
) -> Result<Vec<Relocation>, AllocError>
    ensures same { IfOk result (λ sorted. IsPermutation relocations.now sorted.items) }
    ensures rise { IfOk result (λ sorted. IsNonDecreasingBy (λ r. r.place) sorted.items) }
    ensures stable { IfOk result
        (λ sorted. IsStableByKey (λ r. r.place) nat_cmp relocations.now sorted.items) }
{
    let mut sorted = Vec::from_slice(alloc, relocations)?;
    if are_ordered(relocations) {
        return Ok(sorted);
    }
    sorted.sort_by_key(|relocation| relocation.place)?;
    Ok(sorted)
}
