//! States of a run that are kept, so that it goes back to them without running from the start.
//!
//! A state is kept after each so many instructions. Where there are as many as may be, every second one is dropped, and
//! from then on they come half as often: so the way from the state before is a small part of the run, however long it is.
//!
//! Each is a copy of all memory of the program, so there are no more than have 64 MiB of it in sum.

ghost use Rattle.std.specs.Prelude.{◌≡◌, ◌≤◌, ◌<◌, ◌-◌, ◌++◌, ℕ, List, true, [], ◌∷◌, IfSome, is_ok, if◌then◌else◌, length};
ghost use Rattle.std.specs.List.{All};
ghost use Rattle.rv_isa_laws.specs.Memory.{Mem};
ghost use Rattle.rv_states.specs.Kept.{IsOfRun, AreOfSameRuns, CanBeKept, state_size};

use rv_image::{Image, STACK_BYTES};
use rv_machine::Watched;
use rv_memory::Paged;
use std::alloc::{AllocError, Global};

/// How many bytes kept states have at most: few beside what a debugger takes, and enough for all states of small programs.
const BYTES: u64 = 0x400_0000;

/// How many states are kept at most: at 16 or more on the way, the way from the one before is a sixteenth of the run.
const STATES: u64 = 32;

/// How many instructions come at first between two states: some hundredths of a second, in which a copy is nothing.
const FIRST_GAP: u64 = 0x10_0000;

/// A state of a run.
#[derive(Drop)]
pub struct Kept {
    /// How many instructions come before it.
    pub count: u64,
    /// How many bytes of the input have been read, and how many were written.
    pub taken: usize,
    pub written: u64,
    pub machine: Watched<Paged>,
}

/// States of one run by ascending counts.
#[derive(Drop)]
pub struct KeptStates {
    states: Vec<Kept>,
    /// How many there may be.
    most: usize,
    /// How many instructions come between two.
    gap: u64,
    /// After so many instructions the next is to be kept.
    due: u64,
    pub ghost within: { length states.items ≤ most },
    pub ghost apart: { 0 < gap },
}

/// How many bytes a state of an image's run has.
fn size_of(image: &Image) -> u64
    ensures { result ≡ state_size image.now }
{
    let mut bytes = STACK_BYTES as u64;
    for segment in &image.segments {
        bytes += segment.bytes.len() as u64;
    }
    bytes
}

/// How many states of an image's run are kept at most.
fn most_of(image: &Image) -> usize
    ensures { CanBeKept result image.now }
{
    (BYTES / size_of(image)).min(STATES) as usize
}

impl KeptStates {
    /// None yet, of an image's run.
    pub fn new(alloc: Global, image: &Image) -> Self
        ensures none { result.states.items ≡ [] }
        ensures few { CanBeKept result.most image.now }
    {
        KeptStates {
            states: Vec::new(alloc),
            most: most_of(image),
            gap: FIRST_GAP,
            due: FIRST_GAP,
        }
    }

    /// How many instructions after a state the next is to be kept.
    pub fn due_in(&self, count: u64) -> u64
        ensures { result ≡ self.now.due - count }
    {
        self.due.saturating_sub(count)
    }

    /// Has the next be kept after a state, which is kept or the first.
    fn set_due(&mut self, count: u64)
        ensures states { self.new.states.items ≡ self.old.states.items }
        ensures most { self.new.most ≡ self.old.most }
    {
        self.due = count.saturating_add(self.gap - count % self.gap);
    }

    /// Drops the states between those that come after each so many instructions.
    fn thin(&mut self)
        ensures states { AreOfSameRuns self.old.states.items self.new.states.items }
        ensures most { self.new.most ≡ self.old.most }
    {
        let gap = self.gap;
        self.states
            .retain(|kept| kept.count.checked_rem(gap) == Some(0));
    }

    /// Does so where there are as many states as may be.
    fn thin_if_full(&mut self)
        ensures states { AreOfSameRuns self.old.states.items self.new.states.items }
        ensures most { self.new.most ≡ self.old.most }
    {
        if self.states.len() >= self.most {
            self.thin();
        }
    }

    /// Drops every second state where there are still as many as may be; from then on they come half as often.
    fn halve_if_full(&mut self)
        ensures states { AreOfSameRuns self.old.states.items self.new.states.items }
        ensures most { self.new.most ≡ self.old.most }
    {
        if self.states.len() >= self.most {
            self.gap = self.gap.saturating_mul(2);
            self.thin();
        }
    }

    /// Makes room for a state where there is none, and has the next be kept after it.
    pub fn make_room(&mut self, count: u64)
        ensures states { AreOfSameRuns self.old.states.items self.new.states.items }
        ensures most { self.new.most ≡ self.old.most }
    {
        self.thin_if_full();
        self.halve_if_full();
        self.set_due(count);
    }

    /// Whether there is room for a state after so many instructions, and none such is kept.
    pub fn takes(&self, count: u64) -> bool
        ensures { result ≡ true → length self.now.states.items < self.now.most }
    {
        self.states.len() < self.most && self.latest_below(u64::MAX) < count
    }

    /// Keeps a state.
    pub fn push(&mut self, kept: Kept) -> Result<(), AllocError>
        requires { length self.old.states.items < self.old.most }
        ensures states { self.new.states.items ≡ (if is_ok result then self.old.states.items
            ++ kept ∷ [] else self.old.states.items) }
        ensures most { self.new.most ≡ self.old.most }
    {
        self.states.push(kept)?;
        Ok(())
    }

    /// The latest state after no more instructions than these; those after more are dropped.
    pub fn take_before(&mut self, count: u64) -> Option<Kept>
        ensures below { IfSome result (λ kept. kept.count ≤ count) }
        ensures states { AreOfSameRuns self.old.states.items self.new.states.items }
        ensures most { self.new.most ≡ self.old.most }
        ensures found { (m : Mem) (entry : ℕ) (input : List ℕ) →
            All (IsOfRun m entry input) self.old.states.items
            → IfSome result (λ kept. IsOfRun m entry input kept) }
    {
        while let Some(kept) = self.states.pop() {
            if kept.count <= count {
                return Some(kept);
            }
        }
        self.set_due(0);
        None
    }

    /// How many instructions come before the latest state that fewer than these come before; 0 where none is kept.
    pub fn latest_below(&self, count: u64) -> u64
        ensures below { 0 < count → result < count }
        ensures latest { All (λ kept. kept.count < count → kept.count ≤ result)
            self.now.states.items }
    {
        let mut latest = 0;
        for kept in &self.states {
            if kept.count < count {
                latest = kept.count.max(latest);
            }
        }
        latest
    }
}
