//! Assignments by their names.

ghost use Rattle.std.specs.Prelude.{◌≡◌, ◌++◌, ◌≤◌, ◌<◌, ℕ, false, List, [], ◌∷◌, nat_lt, length, reverse, if◌then◌else◌, OnOk};
ghost use Rattle.std.specs.List.{find};
ghost use Rattle.std.specs.List.Sorted.{IsNonDecreasingBy, IsPartitionPoint};
ghost use Rattle.std.specs.Str.{bytes_eq};
ghost use Rattle.rv_unit.specs.declared.tables.Assignment.{Assignment as AssignmentOf};
ghost use Rattle.rv_unit.specs.Tables.{assignments_at};

use crate::tables::Assignment;
use indexmap::IndexMap;
use std::alloc::{AllocError, Global};

/// Takes the assignments of a name out.
fn assignments_of<'a>(
    alloc: Global,
    by_name: &mut IndexMap<&'a [u8], Vec<Assignment<'a>>>,
    name: &'a [u8],
) -> Vec<Assignment<'a>>
    ensures items { result.items ≡ assignments_at by_name.old name.now }
    ensures others { (other : List ℕ) → bytes_eq name.now other ≡ false →
        assignments_at by_name.new other ≡ assignments_at by_name.old other }
{
    match by_name.swap_remove(&name) {
        Some(assignments) => assignments,
        None => Vec::new(alloc),
    }
}

/// Adds an assignment after those of its name.
pub(crate) fn add_assigned<'a>(
    alloc: Global,
    by_name: &mut IndexMap<&'a [u8], Vec<Assignment<'a>>>,
    assigned: Assignment<'a>,
) -> Result<(), AllocError>
    ensures { OnOk result ((name : List ℕ) → assignments_at by_name.new name
        ≡ (if bytes_eq (assigned.entry).name.now name
        then assignments_at by_name.old name ++ assigned.entry ∷ []
        else assignments_at by_name.old name)) }
{
    let mut assignments = assignments_of(alloc, by_name, assigned.name);
    assignments.push(assigned)?;
    by_name.insert(assigned.name, assignments)?;
    Ok(())
}

/// How many of assignments, in their order, stand before an ordinal.
fn count_before(assignments: &[Assignment<'_>], ordinal: u32) -> usize
    ensures bound { result ≤ length assignments.now }
    ensures point { IsNonDecreasingBy (λ (s : AssignmentOf). s.ordinal) assignments.now →
        IsPartitionPoint (λ (s : AssignmentOf). s.ordinal < ordinal)
        (λ (s : AssignmentOf). ordinal ≤ s.ordinal) assignments.now result }
{
    assignments.partition_point(
        |assignment: &Assignment<'_>| -> bool
            ensures { result ≡ nat_lt (assignment.now).ordinal ordinal }
        { assignment.ordinal < ordinal },
    )
}

/// The latest of assignments, in their order, that stands before an ordinal.
pub(crate) fn latest_before<'a>(
    assignments: &[Assignment<'a>],
    ordinal: u32,
) -> Option<Assignment<'a>>
    ensures { IsNonDecreasingBy (λ (s : AssignmentOf). s.ordinal) assignments.now →
        result ≡ find (λ (s : AssignmentOf). nat_lt s.ordinal ordinal) (reverse assignments.now) }
{
    match count_before(assignments, ordinal).checked_sub(1) {
        Some(last) => assignments.get(last).copied(),
        None => None,
    }
}
