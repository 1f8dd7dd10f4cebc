//! How often the instructions at each address were called.

ghost use Rattle.std.specs.Prelude.{◌≡◌, ◌+◌, ◌<◌, ℕ, All, IfOk};
ghost use Rattle.rv_counts.specs.Rows.{counted_if, sum_of};
ghost use Rattle.rv_counts.specs.Sums.{at_address, calls_at};

use crate::rows::CountedInstruction;
use std::alloc::{AllocError, Global};

/// An address and how often an instruction there was called.
#[derive(Clone, Copy, Drop)]
pub struct CallCount {
    pub address: u64,
    pub count: u64,
}

/// Lists a row that was called.
fn list_row(list: &mut Vec<CallCount>, row: &CountedInstruction) -> Result<(), AllocError>
    ensures counted { IfOk result (λ _. (address : ℕ) → calls_at address list.new.items
        ≡ calls_at address list.old.items
        + counted_if (at_address address) (λ r. r.calls) row.now) }
    ensures some { IfOk result (λ _. All (λ t. 0 < t.count) list.old.items
        → All (λ t. 0 < t.count) list.new.items) }
{
    if row.calls == 0 {
        return Ok(());
    }
    list.push(CallCount {
        address: row.pc,
        count: row.calls,
    })?;
    Ok(())
}

/// The addresses of rows that were called.
pub(crate) fn calls_of(
    alloc: Global,
    rows: &[CountedInstruction],
) -> Result<Vec<CallCount>, AllocError>
    ensures { IfOk result (λ list. ((address : ℕ) → calls_at address list.items
        ≡ sum_of (at_address address) (λ row. row.calls) rows.now)
        × All (λ t. 0 < t.count) list.items) }
{
    let mut called = Vec::new(alloc);
    for row in rows {
        list_row(&mut called, row)?;
    }
    Ok(called)
}
