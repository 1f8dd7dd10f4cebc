//! The branches of a run, taken and not taken.

ghost use Rattle.std.specs.Prelude.{◌≡◌, ◌-◌};
ghost use Rattle.rv_isa.specs.Operations.{format_of};
ghost use Rattle.rv_counts.specs.Rows.{branches_in, is_branch as is_branch_by};

use crate::rows::CountedInstruction;
use rv_isa::{Format, Inst};

/// How many branches were executed, and how many of them taken.
#[derive(Clone, Copy, Drop)]
pub struct Branches {
    pub executed: u64,
    pub taken: u64,
}

impl Branches {
    /// How many of them were not taken.
    pub fn untaken(&self) -> u64
        ensures { result ≡ self.now.executed - self.now.taken }
    {
        self.executed.saturating_sub(self.taken)
    }
}

/// Whether an instruction is a branch.
fn is_branch(inst: Inst) -> bool
    ensures { result ≡ is_branch_by (format_of inst) }
{
    matches!(inst.format(), Format::Branch(_, _))
}

/// Those of all rows.
pub(crate) fn branches_of(rows: &[CountedInstruction]) -> Branches
    ensures { result ≡ branches_in rows.now }
{
    let mut executed: u64 = 0;
    let mut taken: u64 = 0;
    for row in rows {
        if is_branch(row.inst) {
            executed = executed.saturating_add(row.count);
            taken = taken.saturating_add(row.taken);
        }
    }
    Branches { executed, taken }
}
