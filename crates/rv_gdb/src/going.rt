//! A program that goes on or back until something stops it.

ghost use Rattle.std.specs.Prelude.{◌≡◌};

use crate::reach::next_reach;
use crate::session::Session;
use crate::stop::Stop;
use rv_gdb_packets::{Met, Motion};
use rv_states::ReplayFault;

/// How a program goes.
#[derive(Clone, Copy, Drop)]
pub enum Going {
    /// It stands.
    Stands,
    /// On.
    On,
    /// On from a state before, to see where it would have stopped last on its way there.
    Back(Search),
}

/// A search for the latest state before one where the program stops on its way back. It looks at a part of the way after
/// the other, the last part first; each begins where a state was kept.
#[derive(Clone, Copy, Drop)]
pub struct Search {
    /// How many instructions come before the state that it goes back from.
    from: u64,
    /// How many come before the first state of the part that is looked at, and before the one after its last.
    start: u64,
    end: u64,
    /// How many come before the latest state that was found, and what is met there.
    found: Option<(u64, Met)>,
}

impl Session {
    /// Goes on by an instruction; why the program stands then, if not for that alone.
    fn step(&mut self) -> Result<Option<Stop>, ReplayFault>
        ensures { self.new.draft ≡ self.old.draft }
    {
        if let Some(end) = self.replay.end() {
            return Ok(Some(Stop::Ended(end)));
        }
        if self.count() >= self.limit {
            return Ok(Some(Stop::Limit));
        }
        self.replay.advance(1)?;
        if let Some(end) = self.replay.end() {
            return Ok(Some(Stop::Ended(end)));
        }
        Ok(self.points.at(self.replay.machine().pc()).map(Stop::At))
    }

    /// The point at bytes that the next instruction reaches.
    fn watched(&self) -> Option<Met> {
        if !self.points.watch() || self.replay.end().is_some() {
            return None;
        }
        let input_left = self.replay.input_left().len() as u64;
        self.points
            .met_by(&next_reach(self.replay.machine(), input_left))
    }

    /// Begins to go; why the program stands at once, if it does.
    pub(crate) fn begin(&mut self, motion: Motion) -> Result<Option<Stop>, ReplayFault>
        ensures { self.new.draft ≡ self.old.draft }
    {
        match motion {
            Motion::Continue => {
                self.going = Going::On;
                Ok(None)
            }
            Motion::Step => Ok(Some(self.step_on()?)),
            Motion::StepBack => Ok(Some(self.step_back()?)),
            Motion::ContinueBack => {
                self.begin_search()?;
                Ok(None)
            }
        }
    }

    /// Goes on by an instruction, unless that reaches a point at bytes; why the program stands then.
    fn step_on(&mut self) -> Result<Stop, ReplayFault>
        ensures { self.new.draft ≡ self.old.draft }
    {
        if let Some(met) = self.watched() {
            return Ok(Stop::At(met));
        }
        match self.step()? {
            Some(stop) => Ok(stop),
            None => Ok(Stop::Done),
        }
    }

    /// Goes back by an instruction, unless that has reached a point at bytes; why the program stands then.
    fn step_back(&mut self) -> Result<Stop, ReplayFault>
        ensures { self.new.draft ≡ self.old.draft }
    {
        let count = self.replay.count();
        if count <= self.origin {
            return Ok(Stop::Start);
        }
        self.replay.go_to(self.alloc, count - 1)?;
        if let Some(met) = self.watched() {
            self.replay.go_to(self.alloc, count)?;
            return Ok(Stop::At(met));
        }
        Ok(Stop::Done)
    }

    /// Goes to where the last part of the way begins, to look from there where the program would stop on its way back.
    fn begin_search(&mut self) -> Result<(), ReplayFault>
        ensures { self.new.draft ≡ self.old.draft }
    {
        let from = self.replay.count();
        self.search_before(from, from)
    }

    /// Goes to where the part of the way before a state begins, and has it looked at next.
    fn search_before(&mut self, from: u64, end: u64) -> Result<(), ReplayFault>
        ensures { self.new.draft ≡ self.old.draft }
    {
        let start = self.replay.kept_before(end).max(self.origin);
        self.replay.go_to(self.alloc, start)?;
        self.going = Going::Back(Search {
            from,
            start,
            end,
            found: None,
        });
        Ok(())
    }

    /// Goes on by so many instructions at most, or until what was written fills a packet; why the program stands, if it
    /// does.
    pub(crate) fn run_on(&mut self, steps: u64) -> Result<Option<Stop>, ReplayFault>
        ensures { self.new.draft ≡ self.old.draft }
    {
        for _ in 0..steps {
            if let Some(met) = self.watched() {
                return Ok(Some(Stop::At(met)));
            }
            if let Some(stop) = self.step()? {
                return Ok(Some(stop));
            }
            if self.replay.waiting() >= CONSOLE_PIECE {
                return Ok(None);
            }
        }
        Ok(None)
    }

    /// Looks on by so many instructions; why the program stands, if the search is at its end.
    pub(crate) fn search_on(
        &mut self,
        search: Search,
        steps: u64,
    ) -> Result<Option<Stop>, ReplayFault>
        ensures { self.new.draft ≡ self.old.draft }
    {
        let mut search = search;
        for _ in 0..steps {
            let count = self.replay.count();
            if count >= search.end {
                return self.end_part(search);
            }
            if let Some(met) = self.points.at(self.replay.machine().pc()) {
                search.found = Some((count, met));
            }
            if let Some(met) = self.watched() {
                search.found = Some((count.saturating_add(1), met));
            }
            self.replay.advance(1)?;
        }
        self.going = Going::Back(search);
        Ok(None)
    }

    /// Goes to what was found in a part of the way, or to the part before, or to the start where none is before; why the
    /// program stands, if the search is at its end.
    fn end_part(&mut self, search: Search) -> Result<Option<Stop>, ReplayFault>
        ensures { self.new.draft ≡ self.old.draft }
    {
        if let Some((count, met)) = search.found {
            self.replay.go_to(self.alloc, count)?;
            return Ok(Some(Stop::At(met)));
        }
        if search.start <= self.origin {
            self.replay.go_to(self.alloc, self.origin)?;
            return Ok(Some(Stop::Start));
        }
        self.search_before(search.from, search.start)?;
        Ok(None)
    }

    /// Stops what goes; a search ends where it went back from.
    pub(crate) fn stop_going(&mut self) -> Result<(), ReplayFault>
        ensures { self.new.draft ≡ self.old.draft }
    {
        if let Going::Back(search) = self.going {
            self.replay.go_to(self.alloc, search.from)?;
        }
        self.going = Going::Stands;
        Ok(())
    }
}

/// How many bytes of the console are kept back at most while a program goes.
const CONSOLE_PIECE: usize = 4096;
