//! How often the instructions at an address were executed.
//!
//! The rows are sorted by address once, so that those of each are found by a binary search.

ghost use Rattle.std.specs.Prelude.{◌≡◌, ◌<◌, ◌≤◌, ◌^◌, ℕ, Bool, true, false, nat_lt, nat_le, List, length, IfOk};
ghost use Rattle.std.specs.List.Sorted.{IsNonDecreasingBy, IsPartitionPoint};
ghost use Rattle.rv_isa.specs.declared.instruction.Inst.{Inst};
ghost use Rattle.rv_event_laws.specs.Event.{Event};
ghost use Rattle.rv_counts.specs.declared.rows.CountedInstruction.{CountedInstruction as Row};
ghost use Rattle.rv_counts.specs.Counted.{executions};
ghost use Rattle.rv_counts.specs.Rows.{AreCounted, sum_of};
ghost use Rattle.rv_counts.specs.Sums.{at_address, executed_in, pc_of};

use crate::rows::CountedInstruction;
use std::alloc::{AllocError, Global};

/// The instructions of a run by their addresses.
#[derive(Drop)]
pub struct ByAddress {
    rows: Vec<CountedInstruction>,
    ghost rise: { IsNonDecreasingBy pc_of rows.items },
}

/// How often an address's instructions among rows were executed.
fn executed_at(rows: &[CountedInstruction], address: u64) -> u64
    ensures { result ≡ executed_in rows.now (at_address address) }
{
    let mut sum: u64 = 0;
    for row in rows {
        if row.pc == address {
            sum = sum.saturating_add(row.count);
        }
    }
    sum
}

/// How many rows stand before an address.
fn count_before(rows: &[CountedInstruction], address: u64) -> usize
    ensures bound { result ≤ length rows.now }
    ensures point { IsNonDecreasingBy pc_of rows.now
        → IsPartitionPoint (λ row. nat_lt row.pc address ≡ true)
        (λ row. nat_lt row.pc address ≡ false) rows.now result }
{
    rows.partition_point(
        |row: &CountedInstruction| -> bool
            ensures { result ≡ nat_lt row.now.pc address }
        { row.pc < address },
    )
}

/// How many rows stand before an address or at it.
fn count_up_to(rows: &[CountedInstruction], address: u64) -> usize
    ensures bound { result ≤ length rows.now }
    ensures point { IsNonDecreasingBy pc_of rows.now
        → IsPartitionPoint (λ row. nat_le row.pc address ≡ true)
        (λ row. nat_le row.pc address ≡ false) rows.now result }
{
    rows.partition_point(
        |row: &CountedInstruction| -> bool
            ensures { result ≡ nat_le row.now.pc address }
        { row.pc <= address },
    )
}

impl ByAddress {
    /// Those of rows.
    pub(crate) fn of(alloc: Global, rows: &[CountedInstruction]) -> Result<Self, AllocError>
        ensures { IfOk result (λ b. (test : ℕ → Inst → Bool) (count : Row → ℕ)
            → sum_of test count b.rows.items ≡ sum_of test count rows.now) }
    {
        let mut rows = Vec::from_slice(alloc, rows)?;
        rows.sort_by_key(|row| row.pc)?;
        Ok(ByAddress { rows })
    }

    /// How often the instructions at an address were executed.
    pub fn executions(&self, address: u64) -> u64
        ensures { (seen : List Event) → length seen < 2 ^ 64 → AreCounted self.now.rows.items seen
            → result ≡ executions (at_address address) seen }
    {
        executed_at(self.at(address), address)
    }

    /// The rows of an address.
    fn at(&self, address: u64) -> &[CountedInstruction]
        ensures { (count : Row → ℕ)
            → sum_of (at_address address) count result.now
            ≡ sum_of (at_address address) count self.now.rows.items }
    {
        let rows = self.rows.as_slice();
        let (_, rest) = rows.split_at(count_before(rows, address));
        let (at, _) = rest.split_at(count_up_to(rest, address));
        at
    }
}
