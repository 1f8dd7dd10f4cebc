//! The order of the rows in a listing.
//!
//! A map that was read may have several rows of one statement, so the order is sorted and stable, in the words of the
//! sort's contract. That it leaves one listing is the law `one_listing`.

ghost use Rattle.std.specs.Prelude.{IfOk};
ghost use Rattle.rv_listing_laws.specs.Order.{IsInOrder};

use rv_map_laws::Row;
use std::alloc::{AllocError, Global};

/// The rows by address, then by file and ordinal.
pub(crate) fn in_order(alloc: Global, rows: &[Row]) -> Result<Vec<Row>, AllocError>
    ensures { IfOk result (λ ordered. IsInOrder rows.now ordered.items) }
{
    let mut ordered = Vec::from_slice(alloc, rows)?;
    ordered.sort_by_key(|row| (row.address, row.file, row.ordinal))?;
    Ok(ordered)
}
