//! The last statements in front of others, by the rows of an object.
//!
//! The rows of a source stand in the order of its statements, so those in front of one are found by halves, and the last of
//! a section among them is mostly the last of all.

ghost use Rattle.std.specs.Prelude.{◌≡◌, ◌≤◌, nat_lt, true, false, length};
ghost use Rattle.std.specs.List.Sorted.{IsNonDecreasingBy, IsPartitionPoint};
ghost use Rattle.rv_debug_laws.specs.Labels as laws;
ghost use Rattle.rv_labels.specs.Indices.{ordinal_of};

use rv_object_types::Row;

/// Whether the rows stand in the order of their ordinals.
pub fn are_ordered(rows: &[Row]) -> bool
    ensures { result ≡ true → IsNonDecreasingBy ordinal_of rows.now }
{
    rows.is_sorted_by_key(|row| row.ordinal)
}

/// The last statement of a section in front of the one of this ordinal, among rows that are known to be ordered or not.
pub fn last_before(rows: &[Row], are_ordered: bool, section: u32, ordinal: u32) -> Option<Row>
    ensures { (are_ordered ≡ true → IsNonDecreasingBy ordinal_of rows.now)
        → result ≡ laws.last_before section ordinal rows.now }
{
    if !are_ordered {
        return found_before(rows, section, ordinal);
    }
    let (front, _) = rows.split_at(count_before(rows, ordinal));
    found_before(front, section, ordinal)
}

/// How many rows of ordered ones have a smaller ordinal.
fn count_before(rows: &[Row], ordinal: u32) -> usize
    ensures bound { result ≤ length rows.now }
    ensures point { IsNonDecreasingBy ordinal_of rows.now
        → IsPartitionPoint (λ row. nat_lt row.ordinal ordinal ≡ true)
        (λ row. nat_lt row.ordinal ordinal ≡ false) rows.now result }
{
    rows.partition_point(
        |row: &Row| -> bool
            ensures { result ≡ nat_lt row.now.ordinal ordinal }
        { row.ordinal < ordinal },
    )
}

/// The last statement of a section in front of the one of this ordinal, looked for from the last row on.
fn found_before(rows: &[Row], section: u32, ordinal: u32) -> Option<Row>
    ensures { result ≡ laws.last_before section ordinal rows.now }
{
    let mut count = rows.len();
    while count > 0 {
        count -= 1;
        let row = rows[count];
        if row.section == section && row.ordinal < ordinal {
            return Some(row);
        }
    }
    None
}
