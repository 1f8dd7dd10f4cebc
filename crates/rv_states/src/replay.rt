//! A run, somewhere on its way.

ghost use Rattle.std.specs.Prelude.{◌≡◌, ◌≤◌, ◌<◌, ◌+◌, ◌-◌, ◌^◌, ℕ, OnOk, IfOk, MatchOption, None, true, false, length, drop};
ghost use Rattle.std.specs.List.{All};
ghost use Rattle.rv_image.specs.Views.{image_of};
ghost use Rattle.rv_image_laws.specs.Memory.{mem_of};
ghost use Rattle.rv_memory.specs.HeldPages.{held_pages};
ghost use Rattle.rv_states.specs.Kept.{IsOfRun, CanBeKept};
ghost use Rattle.rv_states.specs.Replayed.{IsStateAt, IsStill};

use crate::copied::machine_again;
use crate::fault::ReplayFault;
use crate::kept::{Kept, KeptStates};
use crate::running::{machine_of, run_on};
use crate::written::Written;
use rv_image::Image;
use rv_machine::{End, Watched};
use rv_memory::Paged;
use std::alloc::{AllocError, Global};

/// How many instructions are run again at most for a step back after another: a thousandth of a second.
const SHORT: u64 = 0x4000;

/// A run of an image with an input, somewhere on its way.
#[derive(Drop)]
pub struct Replay {
    image: Image,
    input: Vec<u8>,
    /// How many bytes of the input have been read.
    taken: usize,
    machine: Watched<Paged>,
    written: Written,
    /// How many instructions were begun; the last of them ended the run, if it has ended.
    count: u64,
    end: Option<End>,
    /// States on the way to where it stands.
    kept: KeptStates,
    /// Whether a stream has failed: then it is not known where the run stands.
    lost: bool,
    pub ghost within: { taken ≤ length input.items },
    /// The machine is in the state after that count of instructions, and where the run has ended after any number more.
    pub ghost replayed: { lost ≡ false → (more : ℕ) → IsStill end more →
        ∥ IsStateAt (mem_of (image_of image)) image.entry input.items (count + more) machine.hart
        (held_pages machine.memory) machine.intake.ended (drop taken input.items) ∥₁ },
    pub ghost kept_states: { ∥ All (IsOfRun (mem_of (image_of image)) image.entry input.items)
        kept.states.items ∥₁ },
    /// There are no more of them than there is room for.
    pub ghost few: { CanBeKept kept.most image },
}

impl Replay {
    ghost use Rattle.rv_states.specs.States.{IsReplayed, IsAfter};

    /// Before the first instruction of an image, with an input.
    pub fn new(alloc: Global, image: Image, input: Vec<u8>) -> Result<Self, AllocError>
        ensures image { IfOk result (λ replay. replay.image ≡ image) }
        ensures input { IfOk result (λ replay. replay.input ≡ input) }
        ensures count { IfOk result (λ replay. replay.count ≡ 0) }
        ensures end { IfOk result (λ replay. replay.end ≡ None) }
        ensures lost { IfOk result (λ replay. replay.lost ≡ false) }
    {
        let machine = machine_of(alloc, &image)?;
        let kept = KeptStates::new(alloc, &image);
        Ok(Replay {
            kept,
            image,
            input,
            taken: 0,
            machine,
            written: Written::new(alloc),
            count: 0,
            end: None,
            lost: false,
        })
    }

    /// Has the run stand before its first instruction again.
    fn restart(&mut self, alloc: Global) -> Result<(), AllocError>
        ensures image { self.new.image ≡ self.old.image }
        ensures input { self.new.input ≡ self.old.input }
        ensures count { OnOk result (self.new.count ≡ 0) }
        ensures end { OnOk result (self.new.end ≡ None) }
        ensures lost { OnOk result (self.new.lost ≡ false) }
    {
        let machine = machine_of(alloc, &self.image)?;
        self.machine = machine;
        self.taken = 0;
        self.written.rewind(0);
        self.count = 0;
        self.end = None;
        self.lost = false;
        Ok(())
    }

    /// Makes room for the state where it stands; whether it can be kept: there is room, the run goes on, and it is not kept.
    fn make_room(&mut self) -> bool
        ensures image { self.new.image ≡ self.old.image }
        ensures input { self.new.input ≡ self.old.input }
        ensures lost { self.new.lost ≡ self.old.lost }
        ensures count { self.new.count ≡ self.old.count }
        ensures end { self.new.end ≡ self.old.end }
        ensures known { result ≡ true → self.new.lost ≡ false }
        ensures room { result ≡ true → length self.new.kept.states.items < self.new.kept.most }
    {
        if self.lost || self.end.is_some() {
            return false;
        }
        self.kept.make_room(self.count);
        self.kept.takes(self.count)
    }

    /// Keeps the state where it stands, if it can be kept.
    fn keep(&mut self) -> Result<(), AllocError>
        ensures image { self.new.image ≡ self.old.image }
        ensures input { self.new.input ≡ self.old.input }
        ensures lost { self.new.lost ≡ self.old.lost }
        ensures count { self.new.count ≡ self.old.count }
        ensures end { self.new.end ≡ self.old.end }
    {
        if !self.make_room() {
            return Ok(());
        }
        let alloc = *self.input.allocator();
        let machine = machine_again(alloc, &self.machine)?;
        self.kept.push(Kept {
            count: self.count,
            taken: self.taken,
            written: self.written.position(),
            machine,
        })
    }

    /// Has the run stand at a state of it that was kept.
    fn restore(&mut self, kept: Kept)
        requires { ∥ IsOfRun (mem_of (image_of self.old.image)) self.old.image.entry
            self.old.input.items kept ∥₁ }
        ensures image { self.new.image ≡ self.old.image }
        ensures input { self.new.input ≡ self.old.input }
        ensures lost { self.new.lost ≡ false }
        ensures count { self.new.count ≡ kept.count }
    {
        let Kept {
            count,
            taken,
            written,
            machine,
        } = kept;
        self.machine = machine;
        self.taken = taken;
        self.written.rewind(written);
        self.count = count;
        self.end = None;
        self.lost = false;
    }

    /// Goes on by so many instructions, or to the end; no more than 2^64 - 1 in all. On the way states are kept.
    pub fn advance(&mut self, count: u64) -> Result<(), ReplayFault>
        ensures image { self.new.image ≡ self.old.image }
        ensures input { self.new.input ≡ self.old.input }
        ensures lost { OnOk result (self.new.lost ≡ self.old.lost) }
        ensures most { OnOk result (self.new.count ≤ self.old.count + count) }
        ensures count { OnOk result (self.old.count + count < 2 ^ 64 → self.new.end ≡ None →
            self.new.count ≡ self.old.count + count) }
    {
        let mut left = count;
        while left > 0 && self.end.is_none() {
            let part = left.min(self.kept.due_in(self.count).max(1));
            self.run(part)?;
            left -= part;
            if self.kept.due_in(self.count) == 0 {
                self.keep()?;
            }
        }
        Ok(())
    }

    /// Goes on in the same way, and keeps nothing.
    fn run(&mut self, count: u64) -> Result<(), ReplayFault>
        ensures image { self.new.image ≡ self.old.image }
        ensures input { self.new.input ≡ self.old.input }
        ensures lost { OnOk result (self.new.lost ≡ self.old.lost) }
        ensures most { OnOk result (self.new.count ≤ self.old.count + count) }
        ensures count { OnOk result (self.old.count + count < 2 ^ 64 → self.new.end ≡ None →
            self.new.count ≡ self.old.count + count) }
    {
        if self.end.is_some() {
            return Ok(());
        }
        let count = count.min(u64::MAX - self.count);
        let rest = self.input.as_slice().split_at(self.taken).1;
        let whole = rest.len();
        let ran = run_on(&mut self.machine, rest, &mut self.written, count);
        match ran {
            Ok(ran) => {
                self.taken += whole - ran.left;
                self.count += ran.steps;
                self.end = ran.end;
                Ok(())
            }
            Err(fault) => {
                self.lost = true;
                self.written.check()?;
                Err(fault.into())
            }
        }
    }

    /// Goes to where the state after so many instructions is, or lies ahead.
    fn go_before(&mut self, alloc: Global, count: u64) -> Result<(), AllocError>
        ensures image { self.new.image ≡ self.old.image }
        ensures input { self.new.input ≡ self.old.input }
        ensures lost { OnOk result (self.new.lost ≡ false) }
        ensures most { OnOk result (self.new.count ≤ count) }
    {
        if self.count <= count && !self.lost {
            return Ok(());
        }
        match self.kept.take_before(count) {
            Some(kept) => {
                self.restore(kept);
                self.keep()
            }
            None => self.restart(alloc),
        }
    }

    /// Goes on to a little before the state after so many instructions, if that is far, and keeps the state there: further
    /// steps back are short.
    fn approach(&mut self, count: u64) -> Result<(), ReplayFault>
        requires { self.old.count ≤ count }
        ensures image { self.new.image ≡ self.old.image }
        ensures input { self.new.input ≡ self.old.input }
        ensures lost { OnOk result (self.new.lost ≡ self.old.lost) }
        ensures most { OnOk result (self.new.count ≤ count) }
    {
        let far = count - self.count;
        if far > SHORT {
            self.advance(far - SHORT)?;
            self.keep()?;
        }
        Ok(())
    }

    /// Goes to the state after so many instructions; where the run ends before, to its end, which is that state too.
    pub fn go_to(&mut self, alloc: Global, count: u64) -> Result<(), ReplayFault>
        ensures image { self.new.image ≡ self.old.image }
        ensures input { self.new.input ≡ self.old.input }
        ensures lost { OnOk result (self.new.lost ≡ false) }
        ensures most { OnOk result (self.new.count ≤ count) }
        ensures count { OnOk result (self.new.end ≡ None → self.new.count ≡ count) }
        ensures state { OnOk result (∥ IsAfter self.new count ∥₁) }
    {
        self.go_before(alloc, count)?;
        self.approach(count)?;
        self.advance(count - self.count)?;
        Ok(())
    }

    /// How many instructions come before the latest state before one that was kept, or before the first; from there the way
    /// to it is short.
    pub fn kept_before(&self, count: u64) -> u64
        ensures below { 0 < count → result < count }
        ensures latest { All (λ kept. kept.count < count → kept.count ≤ result)
            self.now.kept.states.items }
    {
        self.kept.latest_below(count)
    }

    /// How many instructions were completed.
    pub fn count(&self) -> u64
        ensures { MatchOption self.now.end (result ≡ self.now.count)
            (λ _. result ≡ self.now.count - 1) }
    {
        match self.end {
            Some(_) => self.count.saturating_sub(1),
            None => self.count,
        }
    }

    /// How the run has ended, if it has.
    pub fn end(&self) -> Option<End>
        ensures { result ≡ self.now.end }
    {
        self.end
    }

    /// The machine.
    pub fn machine(&self) -> &Watched<Paged>
        ensures machine { result.now ≡ self.now.machine }
        ensures state { self.now.lost ≡ false → ∥ IsReplayed self.now ∥₁ }
    {
        &self.machine
    }

    /// What runs.
    pub fn image(&self) -> &Image
        ensures { result.now ≡ self.now.image }
    {
        &self.image
    }

    /// What is left of the input.
    pub fn input_left(&self) -> &[u8] {
        self.input.as_slice().split_at(self.taken).1
    }

    /// How many bytes the guest has written that nobody has taken.
    pub fn waiting(&self) -> usize {
        self.written.waiting()
    }

    /// What the guest has written for the first time since the latest call.
    pub fn take_written(&mut self, alloc: Global) -> Vec<u8>
        ensures machine { self.new.machine ≡ self.old.machine }
        ensures count { self.new.count ≡ self.old.count }
        ensures end { self.new.end ≡ self.old.end }
        ensures lost { self.new.lost ≡ self.old.lost }
        ensures image { self.new.image ≡ self.old.image }
        ensures input { self.new.input ≡ self.old.input }
    {
        self.written.take(alloc)
    }
}
