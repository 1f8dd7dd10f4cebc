//! The index of each field's symbol.

ghost use Rattle.std.specs.Prelude.{◌≡◌, ◌<◌, IfOk, drop, map};
ghost use Rattle.rv_draft.specs.Draft.{field_of};
ghost use Rattle.rv_assemble.specs.Making.{index_of, next_of, indices_of};

use rv_draft::OpenField;
use std::alloc::{AllocError, Global};

/// The index of a field's symbol, which is the next of all numbers; none where it has no symbol.
fn number(field: &OpenField<'_>, numbers: &[u32], next: usize) -> Option<u32>
    ensures { result ≡ index_of (field_of field.now).symbol (drop next numbers.now) }
{
    if field.symbol.is_none() {
        return None;
    }
    numbers.get(next).copied()
}

/// The number that is next after a field.
fn following(field: &OpenField<'_>, next: usize, count: usize) -> usize
    requires { next < count }
    ensures { result ≡ next_of (field_of field.now).symbol next }
{
    if field.symbol.is_none() {
        return next;
    }
    next + 1
}

/// The index of each field's symbol, where those that have one have these numbers in their order.
pub(crate) fn indices(
    alloc: Global,
    fields: &[OpenField<'_>],
    numbers: &[u32],
) -> Result<Vec<Option<u32>>, AllocError>
    ensures { IfOk result (λ indices. indices.items
        ≡ indices_of (map field_of fields.now) numbers.now) }
{
    let mut indices = Vec::with_capacity(alloc, fields.len())?;
    let mut next = 0;
    for index in 0..fields.len() {
        indices.push(number(&fields[index], numbers, next))?;
        next = following(&fields[index], next, fields.len());
    }
    Ok(indices)
}
