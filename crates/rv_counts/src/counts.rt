//! How often each instruction of a run was executed.
//!
//! All that is counted is summed over the events of the run; the machine is not looked at. What an instruction's operands
//! were, the events before it tell ([`ToldRegisters`]).

ghost use Rattle.std.specs.Prelude.{◌≡◌, ◌&&◌, ◌<◌, ◌^◌, [], List, length, IfOk};
ghost use Rattle.rv_isa_laws.specs.Memory.{Mem};
ghost use Rattle.rv_machine.specs.Fetch.{fetched_of};
ghost use Rattle.rv_machine.specs.declared.hart.Hart.{Hart as AHart};
ghost use Rattle.rv_machine.specs.Seen.{event_by, set_of};
ghost use Rattle.rv_event_laws.specs.Event.{Event, sets};
ghost use Rattle.rv_counts.specs.Counted.{branches_taken, executions, has_executed, times_called};
ghost use Rattle.rv_counts.specs.Depth.{deepest_of};
ghost use Rattle.rv_counts.specs.Rows.{AreCounted, HasCounted, at_branch};
ghost use Rattle.rv_counts.specs.Sums.{AreCalled, AreExecuted};

use crate::addresses::ByAddress;
use crate::branches::{Branches, branches_of};
use crate::calls::{CallCount, calls_of};
use crate::depth::Depth;
use crate::jumps::turn_at;
use crate::mnemonics::{MnemonicCount, mnemonics_of};
use crate::registers::ToldRegisters;
use crate::rows::{CountedInstruction, Done, Rows};
use crate::totals::{Totals, is_executed};
use rv_event_laws::Setting;
use rv_image::Image;
use rv_isa::Reg;
use rv_machine::{Fetched, Hart, Look, ShowFault, Step, Watched, Watcher, destination_of};
use rv_memory::Memory;
use std::alloc::{AllocError, Global};

/// How often each instruction was executed. The instruction that ends a run counts where the run ends by it: by an exit or
/// a breakpoint, but not by an access that failed.
#[derive(Drop)]
pub struct Counts {
    rows: Rows,
    /// The sums over the events.
    totals: Totals,
    registers: ToldRegisters,
    /// Whether the latest instruction was a call.
    called: bool,
    /// How deep the stack went.
    depth: Depth,
}

impl Counts {
    /// Nothing counted yet of an image's run.
    pub fn new(alloc: Global, image: &Image) -> Result<Self, AllocError>
        ensures { IfOk result (λ c. HasCounted c.totals c.rows.rows.items c.registers.values c.called c.depth []) }
    {
        Ok(Counts {
            rows: Rows::new(alloc, image)?,
            totals: Totals::nothing(),
            registers: ToldRegisters::new(),
            called: false,
            depth: Depth::of(image),
        })
    }

    /// The instructions, in the order in which the run came to them.
    pub fn instructions(&self) -> &[CountedInstruction]
        ensures { result.now ≡ self.now.rows.rows.items }
    {
        self.rows.all()
    }

    /// The sums over the events.
    pub fn totals(&self) -> Totals
        ensures { result ≡ self.now.totals }
    {
        self.totals
    }

    /// The branches.
    pub fn branches(&self) -> Branches
        ensures { (seen : List Event) → length seen < 2 ^ 64
            → HasCounted self.now.totals self.now.rows.rows.items self.now.registers.values
            self.now.called self.now.depth seen
            → (result.executed ≡ executions at_branch seen)
            × (result.taken ≡ branches_taken at_branch seen) }
    {
        branches_of(self.rows.all())
    }

    /// The mnemonics of the instructions that were executed, each with how often.
    pub fn mnemonics(&self, alloc: Global) -> Result<Vec<MnemonicCount>, AllocError>
        ensures { IfOk result (λ list. (seen : List Event) → length seen < 2 ^ 64
            → HasCounted self.now.totals self.now.rows.rows.items self.now.registers.values
            self.now.called self.now.depth seen
            → AreExecuted (λ test. executions test seen) list.items) }
    {
        mnemonics_of(alloc, self.rows.all())
    }

    /// The addresses that were called, each with how often.
    pub fn calls(&self, alloc: Global) -> Result<Vec<CallCount>, AllocError>
        ensures { IfOk result (λ list. (seen : List Event) → length seen < 2 ^ 64
            → HasCounted self.now.totals self.now.rows.rows.items self.now.registers.values
            self.now.called self.now.depth seen
            → AreCalled (λ test. times_called test seen) list.items) }
    {
        calls_of(alloc, self.rows.all())
    }

    /// The instructions by their addresses.
    pub fn by_address(&self, alloc: Global) -> Result<ByAddress, AllocError>
        ensures { IfOk result (λ by. (seen : List Event) → length seen < 2 ^ 64
            → HasCounted self.now.totals self.now.rows.rows.items self.now.registers.values
            self.now.called self.now.depth seen
            → AreCounted by.rows.items seen) }
    {
        ByAddress::of(alloc, self.rows.all())
    }

    /// How many bytes the stack had at most.
    pub fn deepest(&self) -> u64
        ensures { (seen : List Event)
            → HasCounted self.now.totals self.now.rows.rows.items self.now.registers.values
            self.now.called self.now.depth seen
            → result ≡ deepest_of self.now.depth.first self.now.depth.last seen }
    {
        self.depth.deepest()
    }
}

/// What a step's instruction did; `branches` says whether it is a branch that is taken.
#[inline]
fn done_by(step: &Step, fetched: &Fetched, branches: bool, called: bool) -> Done
    ensures { (hart : AHart) (m : Mem) → let e = event_by (fetched_of fetched.now) step.now hart m in
        result ≡ record {
          executed = has_executed e;
          taken = has_executed e && branches;
          called = called;
        } }
{
    let executed = is_executed(step, fetched);
    Done {
        executed,
        taken: executed && branches,
        called,
    }
}

/// The register that a step set, with its value.
#[inline]
fn set_by(step: &Step, fetched: &Fetched, hart: &Hart) -> Option<Setting>
    ensures { result ≡ set_of step.now.end (sets (fetched_of fetched.now)) hart.now }
{
    match *fetched {
        Fetched::Got(inst, _) => step.set_in(destination_of(inst), hart),
        Fetched::NoRight | Fetched::NoInstruction => None,
    }
}

impl<M: Memory> Watcher<M> for Counts {
    ghost has_seen = { λ c seen.
        HasCounted c.totals c.rows.rows.items c.registers.values c.called c.depth seen };

    #[inline]
    fn before(&mut self, _: &Look, _: &Watched<M>) -> Result<(), ShowFault> {
        Ok(())
    }

    #[inline(always)]
    fn after(&mut self, step: &Step, machine: &Watched<M>) -> Result<(), ShowFault> {
        let found = self.rows.find(step.pc(), step.bits())?;
        let turn = turn_at(&found.fetched, &self.registers);
        let done = done_by(step, &found.fetched, turn.taken, self.called);
        self.rows.count(&found, done);
        self.totals.count(step, &found.fetched);
        self.registers
            .set(set_by(step, &found.fetched, machine.hart()));
        self.called = turn.calling;
        self.depth.note(turn.begun, self.registers.get(Reg::SP));
        Ok(())
    }
}
