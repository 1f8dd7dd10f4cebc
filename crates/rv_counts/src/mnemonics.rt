//! How often the instructions of each mnemonic were executed.

ghost use Rattle.std.specs.Prelude.{
  ◌≡◌,
  ◌+◌,
  ℕ,
  nat_lt,
  List,
  true,
  All,
  count_by,
  max,
  bytes_eq,
  IfOk,
  if◌then◌else◌,
};
ghost use Rattle.std.specs.List.{list_any};
ghost use Rattle.rv_counts.specs.Totals.{one_if};
ghost use Rattle.rv_counts.specs.Rows.{capped, counted_if};
ghost use Rattle.rv_counts.specs.Sums.{AreExecuted, executed_in, counts_mnemonic, of_mnemonic};

use crate::rows::CountedInstruction;
use rv_isa::mnemonic;
use std::alloc::{AllocError, Global};

/// A mnemonic and how often its instructions were executed.
#[derive(Clone, Copy, Drop)]
pub struct MnemonicCount {
    pub name: &'static str,
    pub count: u64,
}

/// How often the instructions of a mnemonic were executed.
fn executed_as(rows: &[CountedInstruction], name: &str) -> u64
    ensures { result ≡ executed_in rows.now (of_mnemonic name.now) }
{
    let mut sum: u64 = 0;
    for row in rows {
        if mnemonic(row.inst) == name {
            sum = sum.saturating_add(row.count);
        }
    }
    sum
}

/// Whether a mnemonic is listed.
fn is_listed(list: &[MnemonicCount], name: &str) -> bool
    ensures { result ≡ list_any (counts_mnemonic name.now) list.now }
{
    list.iter().any(
        |listed: &MnemonicCount| -> bool
            ensures { result ≡ counts_mnemonic name.entry.now listed.now }
        { listed.name == name },
    )
}

/// Lists a mnemonic of rows that is not listed yet.
fn list(
    list: &mut Vec<MnemonicCount>,
    rows: &[CountedInstruction],
    name: &'static str,
) -> Result<(), AllocError>
    ensures once { IfOk result (λ _. (key : List ℕ) → count_by (counts_mnemonic key) list.new.items
        ≡ (if bytes_eq name.now key then max 1 (count_by (counts_mnemonic key) list.old.items)
        else count_by (counts_mnemonic key) list.old.items)) }
    ensures counted { IfOk result (λ _. (key : List ℕ)
        → All (λ t. counts_mnemonic key t ≡ true → t.count ≡ executed_in rows.now (of_mnemonic key)) list.old.items
        → All (λ t. counts_mnemonic key t ≡ true → t.count ≡ executed_in rows.now (of_mnemonic key)) list.new.items) }
{
    if !is_listed(list.as_slice(), name) {
        let count = executed_as(rows, name);
        list.push(MnemonicCount { name, count })?;
    }
    Ok(())
}

/// Lists the mnemonic of a row that was executed.
fn list_row(
    executed: &mut Vec<MnemonicCount>,
    rows: &[CountedInstruction],
    row: &CountedInstruction,
) -> Result<(), AllocError>
    ensures once { IfOk result (λ _. (key : List ℕ) (sum : ℕ)
        → count_by (counts_mnemonic key) executed.old.items ≡ one_if (nat_lt 0 (capped sum))
        → count_by (counts_mnemonic key) executed.new.items
        ≡ one_if (nat_lt 0 (capped (sum + counted_if (of_mnemonic key) (λ r. r.count) row.now)))) }
    ensures counted { IfOk result (λ _. (key : List ℕ)
        → All (λ t. counts_mnemonic key t ≡ true → t.count ≡ executed_in rows.now (of_mnemonic key)) executed.old.items
        → All (λ t. counts_mnemonic key t ≡ true → t.count ≡ executed_in rows.now (of_mnemonic key)) executed.new.items) }
{
    if row.count == 0 {
        return Ok(());
    }
    list(executed, rows, mnemonic(row.inst))
}

/// The mnemonics of rows that were executed.
pub(crate) fn mnemonics_of(
    alloc: Global,
    rows: &[CountedInstruction],
) -> Result<Vec<MnemonicCount>, AllocError>
    ensures { IfOk result (λ list. AreExecuted (executed_in rows.now) list.items) }
{
    let mut executed = Vec::new(alloc);
    for row in rows {
        list_row(&mut executed, rows, row)?;
    }
    Ok(executed)
}
