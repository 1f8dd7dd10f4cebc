//! The instructions that a run comes to, and how often each did what.
//!
//! A row is of an instruction at an address: code that changes itself has a row for each that stood there, so that counts
//! stay exact. It may have two of one instruction, where others stood there between; what is said is of their sums.

ghost use Rattle.std.specs.Prelude.{◌≡◌, ◌++◌, ◌∷◌, true, length, [], Some, IfOk, IfSome};
ghost use Rattle.rv_machine.specs.declared.fetch.Fetched.TheVariants.{Got, NoInstruction, NoRight};
ghost use Rattle.rv_counts.specs.Kinds.{more};
ghost use Rattle.rv_counts.specs.Totals.{one_if as number_if};
ghost use Rattle.rv_counts.specs.Rows.{no_row, with_done, AreSpelled, IsDoneAt, IsFoundAt, IsWithin};

use crate::code_index::CodeIndex;
use rv_image::Image;
use rv_isa::Inst;
use rv_machine::{Fetched, spelled};
use std::alloc::{AllocError, Global};

/// An instruction at an address.
#[derive(Clone, Copy, Drop)]
pub struct CountedInstruction {
    pub pc: u64,
    /// The bits of its word or its parcel.
    pub bits: u32,
    /// What they spell, and its length in bytes.
    pub inst: Inst,
    pub bytes: u64,
    /// How often it was executed.
    pub count: u64,
    /// How often it branched, of a branch.
    pub taken: u64,
    /// How often it was called.
    pub calls: u64,
}

/// What a step did at its instruction.
#[derive(Clone, Copy, Drop)]
pub(crate) struct Done {
    pub executed: bool,
    pub taken: bool,
    pub called: bool,
}

/// What stands at an address, and the index of its row, if it is an instruction.
#[derive(Clone, Copy, Drop)]
pub(crate) struct Found {
    pub fetched: Fetched,
    pub index: usize,
}

/// The rows, and where those of each address stand.
#[derive(Drop)]
pub(crate) struct Rows {
    rows: Vec<CountedInstruction>,
    index: CodeIndex,
}

impl Found {
    /// Bits that may not be executed.
    fn no_right() -> Self
        ensures { result ≡ record { fetched = NoRight; index = 0 } }
    {
        Found {
            fetched: Fetched::NoRight,
            index: 0,
        }
    }

    /// Bits that spell no instruction.
    fn no_instruction() -> Self
        ensures { result ≡ record { fetched = NoInstruction; index = 0 } }
    {
        Found {
            fetched: Fetched::NoInstruction,
            index: 0,
        }
    }
}

#[inline]
fn one_more_if(count: u64, holds: bool) -> u64
    ensures { result ≡ more count (number_if holds) }
{
    count.saturating_add(u64::from(holds))
}

impl CountedInstruction {
    /// Of which nothing is counted yet.
    fn new(pc: u64, bits: u32, inst: Inst, bytes: u64) -> Self
        ensures { result ≡ no_row pc bits inst bytes }
    {
        CountedInstruction {
            pc,
            bits,
            inst,
            bytes,
            count: 0,
            taken: 0,
            calls: 0,
        }
    }

    /// With what a step did.
    #[inline]
    fn with(self, done: Done) -> Self
        ensures { result ≡ with_done self done }
    {
        CountedInstruction {
            pc: self.pc,
            bits: self.bits,
            inst: self.inst,
            bytes: self.bytes,
            count: one_more_if(self.count, done.executed),
            taken: one_more_if(self.taken, done.taken),
            calls: one_more_if(self.calls, done.called),
        }
    }
}

impl Rows {
    /// None yet of an image's code.
    pub(crate) fn new(alloc: Global, image: &Image) -> Result<Self, AllocError>
        ensures { IfOk result (λ r. r.rows.items ≡ []) }
    {
        let index = CodeIndex::new(alloc, image)?;
        Ok(Rows {
            rows: Vec::new(alloc),
            index,
        })
    }

    /// All rows, in the order in which the run came to them.
    pub(crate) fn all(&self) -> &[CountedInstruction]
        ensures { result.now ≡ self.now.rows.items }
    {
        self.rows.as_slice()
    }

    /// What stands at an address, if there is a row of these bits.
    #[inline(always)]
    fn known(&self, pc: u64, bits: u32) -> Option<Found>
        ensures within { IfSome result (λ found. IsWithin self.now.rows.items found.index found.fetched) }
        ensures placed { IfSome result (λ found. AreSpelled self.now.rows.items →
            IsFoundAt self.now.rows.items self.now.rows.items pc (Some bits) found) }
    {
        let index = self.index.get(pc)?;
        if index >= self.rows.len() {
            return None;
        }
        let row = &self.rows[index];
        if !is_row_of(row, pc, bits) {
            return None;
        }
        Some(Found {
            fetched: fetched_in(row),
            index,
        })
    }

    /// What stands at an address, by its bits, and its row, which is made where there is none.
    #[inline(always)]
    pub(crate) fn find(&mut self, pc: u64, bits: Option<u32>) -> Result<Found, AllocError>
        ensures within { IfOk result (λ found. IsWithin self.new.rows.items found.index found.fetched) }
        ensures placed { IfOk result (λ found. AreSpelled self.old.rows.items →
            IsFoundAt self.old.rows.items self.new.rows.items pc bits found) }
    {
        let Some(bits) = bits else {
            return Ok(Found::no_right());
        };
        match self.known(pc, bits) {
            Some(found) => Ok(found),
            None => self.add(pc, bits),
        }
    }

    /// Adds the row of these bits, if they spell an instruction.
    #[inline(never)]
    fn add(&mut self, pc: u64, bits: u32) -> Result<Found, AllocError>
        ensures within { IfOk result (λ found. IsWithin self.new.rows.items found.index found.fetched) }
        ensures placed { IfOk result (λ found. AreSpelled self.old.rows.items →
            IsFoundAt self.old.rows.items self.new.rows.items pc (Some bits) found) }
    {
        match spelled(Some(bits)) {
            Fetched::Got(inst, bytes) => self.push(pc, bits, &inst, bytes),
            Fetched::NoRight => Ok(Found::no_right()),
            Fetched::NoInstruction => Ok(Found::no_instruction()),
        }
    }

    /// Adds the row of an instruction that these bits spell.
    fn push(&mut self, pc: u64, bits: u32, inst: &Inst, bytes: u64) -> Result<Found, AllocError>
        ensures { IfOk result (λ found.
            (found ≡ record { fetched = Got inst.now bytes; index = length self.old.rows.items })
            × (self.new.rows.items ≡ self.old.rows.items ++ (no_row pc bits inst.now bytes ∷ []))) }
    {
        let index = self.rows.len();
        self.rows
            .push(CountedInstruction::new(pc, bits, *inst, bytes))?;
        self.index.set(pc, index);
        Ok(Found {
            fetched: Fetched::Got(*inst, bytes),
            index,
        })
    }

    /// Counts what a step did at what was found.
    #[inline]
    pub(crate) fn count(&mut self, found: &Found, done: Done)
        requires { IsWithin self.old.rows.items found.now.index found.now.fetched }
        ensures { IsDoneAt self.old.rows.items self.new.rows.items found.now.index found.now.fetched done }
    {
        match found.fetched {
            Fetched::Got(_, _) => self.rows[found.index] = self.rows[found.index].with(done),
            Fetched::NoRight | Fetched::NoInstruction => {}
        }
    }
}

/// The instruction of a row.
#[inline(always)]
fn fetched_in(row: &CountedInstruction) -> Fetched
    ensures { result ≡ Got row.now.inst row.now.bytes }
{
    Fetched::Got(row.inst, row.bytes)
}

/// Whether a row is of these bits at an address.
#[inline(always)]
fn is_row_of(row: &CountedInstruction, pc: u64, bits: u32) -> bool
    ensures { result ≡ true → (row.now.pc ≡ pc) × (row.now.bits ≡ bits) }
{
    row.pc == pc && row.bits == bits
}
