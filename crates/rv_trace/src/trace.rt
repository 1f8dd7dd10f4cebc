//! The instructions of a run, a line each.
//!
//! What the lines of an instruction have in common is made once ([`Patterns`]), so that a line costs a copy and a few digits. Lines
//! are kept until there are many, or a call of the environment comes, so that they stand in order with what the guest
//! writes.

ghost use Rattle.std.specs.Prelude.{◌≡◌, ⊤};
ghost use Rattle.rv_trace.specs.Shown.{is_full};

use crate::columns::{
    DECIMAL, fill_column, put_fixed, put_small, set_fixed, set_low_digits, set_small,
};
use crate::counter::{Counter, DIGITS};
use crate::moved::put_span;
use crate::parts::Part::{Fixed, Text};
use crate::parts::put_parts;
use crate::pattern::{BEFORE_SOURCE, Effects, Patterns};
use crate::places::Places;
use crate::visited::VisitedInstructions;
use rv_event_laws::Setting;
use rv_image::Image;
use rv_machine::{Look, ShowFault, Span, Step, Watched, Watcher};
use rv_memory::Memory;
use std::alloc::{AllocError, Global};
use std::io::Write;

/// The bytes of lines that are kept at most before they are written.
const KEPT: usize = 1 << 15;

/// Writes a line for each instruction from one on.
#[derive(Drop)]
pub struct Trace<'a, L: Write> {
    places: &'a Places<'a>,
    lines: &'a mut L,
    instructions: VisitedInstructions,
    patterns: Patterns,
    kept: Vec<u8>,
    /// The instruction that is executed and gets a line.
    open: Option<usize>,
    /// The number of the first instruction that has a line, from 1.
    first: u64,
    /// How many instructions have begun.
    count: Counter,
}

impl<'a, L: Write> Trace<'a, L> {
    /// A trace of an image's run, from its `first` instruction on, counted from 1.
    pub fn new(
        alloc: Global,
        image: &Image,
        places: &'a Places<'a>,
        lines: &'a mut L,
        first: u64,
    ) -> Result<Self, AllocError> {
        Ok(Trace {
            places,
            lines,
            instructions: VisitedInstructions::new(alloc, image)?,
            patterns: Patterns::new(alloc),
            kept: Vec::new(alloc),
            open: None,
            first,
            count: Counter::new(),
        })
    }

    /// Adds the line of an instruction that was not executed to its end, and writes what is kept.
    pub fn finish(&mut self) -> Result<(), ShowFault> {
        if let Some(visited) = self.open {
            self.open = None;
            self.put_bare(visited)?;
        }
        self.write_kept()
    }

    /// Writes the lines that are kept.
    fn write_kept(&mut self) -> Result<(), ShowFault> {
        let written = self.lines.write_all(self.kept.as_slice());
        self.kept.clear();
        match written {
            Ok(()) => Ok(()),
            Err(_) => Err(ShowFault::Unwritten),
        }
    }

    /// Notes the instruction that is executed next.
    #[inline]
    fn begin(&mut self, index: usize) -> Result<(), ShowFault> {
        if index >= self.patterns.len() {
            if let Some(visited) = self.instructions.all().get(index) {
                self.patterns.add(self.places, visited)?;
            }
        }
        let Some(pattern) = self.patterns.get(index) else {
            return Ok(());
        };
        let is_ecall = pattern.is_ecall;
        self.open = Some(index);
        if is_ecall {
            return self.write_kept();
        }
        Ok(())
    }

    /// Adds a line without effects.
    fn put_bare(&mut self, visited: usize) -> Result<(), AllocError> {
        let Some(pattern) = self.patterns.get(visited) else {
            return Ok(());
        };
        let text = self.patterns.bare(pattern);
        let start = put_numbered(&mut self.kept, &self.count, text)?;
        put_rest(&mut self.kept, start, self.patterns.rest(pattern))
    }

    /// Adds the line of an instruction that was executed: the text of its step.
    fn put_step<M: Memory>(
        &mut self,
        visited: usize,
        step: &Step,
        machine: &Watched<M>,
    ) -> Result<(), AllocError> {
        let Some(pattern) = self.patterns.get(visited) else {
            return Ok(());
        };
        let text = self.patterns.line(pattern);
        let start = put_numbered(&mut self.kept, &self.count, text)?;
        let effects = &pattern.effects;
        let Some(line) = self.kept.as_mut_slice().get_mut(start..) else {
            return Ok(());
        };
        let set = step.set_in(effects.register, machine.hart());
        let has_decimal = fill_decimal(line, effects, &set);
        let is_full = fill(line, effects, &set, step);
        if is_full && has_decimal && step.taken().count == 0 {
            return Ok(());
        }
        let offset = effects.no_access;
        self.kept.truncate(start.saturating_add(offset));
        put_told(
            &mut self.kept,
            (start, offset),
            &set,
            step.taken(),
            machine.memory(),
        )?;
        put_rest(&mut self.kept, start, self.patterns.rest(pattern))
    }
}

/// Writes into a line the value of its register in decimal, if it is small; false where that has no room, at the line's end.
#[inline]
fn fill_decimal(line: &mut [u8], effects: &Effects, set: &Option<Setting>) -> bool {
    let Some(setting) = set else {
        return true;
    };
    set_small(line, effects.value.saturating_add(16), setting.value)
}

/// Writes into a line what its step tells; whether that fills the line. It does not where nothing was accessed, as by an `sc`
/// that failed.
fn fill(line: &mut [u8], effects: &Effects, set: &Option<Setting>, step: &Step) -> bool
    ensures { result ≡ is_full effects.now.access step.now }
{
    if let Some(setting) = set {
        set_fixed(line, effects.value, setting.value);
    }
    let Some(access) = &effects.access else {
        return true;
    };
    let Some(told) = access.told_by(step) else {
        return false;
    };
    set_fixed(line, effects.address, told.address);
    if access.stores() {
        set_low_digits(line, effects.stored, access.digits(), told.number);
    }
    true
}

/// Adds what a step tells behind the value of its register, which ends in the line at an offset: the value in decimal, and
/// the input that a call took.
fn put_told<M: Memory>(
    text: &mut Vec<u8>,
    place: (usize, usize),
    set: &Option<Setting>,
    taken: Span,
    memory: &M,
) -> Result<(), AllocError> {
    if let Some(setting) = set {
        put_small(text, setting.value)?;
    }
    if taken.count == 0 {
        return Ok(());
    }
    fill_column(text, place.0, place.1.saturating_add(DECIMAL))?;
    put_taken(text, taken, memory)
}

/// Adds where the input that a call took stands, and its bytes in their order.
#[inline(never)]
fn put_taken<M: Memory>(text: &mut Vec<u8>, taken: Span, memory: &M) -> Result<(), AllocError> {
    put_parts(text, &[Text("["), Fixed(taken.address, 8), Text("] <-")])?;
    put_bytes(text, taken, memory)
}

/// Adds the bytes of memory in hexadecimal, a blank before each.
pub(crate) fn put_bytes<M: Memory>(
    text: &mut Vec<u8>,
    span: Span,
    memory: &M,
) -> Result<(), AllocError> {
    let mut bytes = Vec::new(*text.allocator());
    put_span(&mut bytes, memory, span)?;
    for byte in &bytes {
        text.push(b' ')?;
        put_fixed(text, u64::from(*byte), 1)?;
    }
    Ok(())
}

/// Adds a text that begins with blanks for the number of its line, and the number; where the text begins.
fn put_numbered(text: &mut Vec<u8>, count: &Counter, line: &[u8]) -> Result<usize, AllocError> {
    for digit in count.over() {
        text.push(*digit)?;
    }
    let start = text.len();
    text.extend_from_slice(line)?;
    if let Some(added) = text.as_mut_slice().get_mut(start..) {
        if let Some(column) = added.first_chunk_mut::<DIGITS>() {
            *column = count.digits();
        }
    }
    Ok(start)
}

/// Adds the source, if there is one, and the line feed to a line that began at an offset.
fn put_rest(text: &mut Vec<u8>, start: usize, rest: &[u8]) -> Result<(), AllocError> {
    if rest.len() > 1 {
        fill_column(text, start, BEFORE_SOURCE)?;
    }
    text.extend_from_slice(rest)?;
    Ok(())
}

impl<M: Memory, L: Write> Watcher<M> for Trace<'_, L> {
    // what the lines say of the events is tested
    ghost has_seen = { λ _ _. ⊤ };

    #[inline]
    fn before(&mut self, look: &Look, _: &Watched<M>) -> Result<(), ShowFault> {
        self.count.advance();
        if self.count.number() < self.first {
            return Ok(());
        }
        let Some(bits) = look.bits else {
            return Ok(());
        };
        match self.instructions.find(look.pc, bits)? {
            Some(index) => self.begin(index),
            None => Ok(()),
        }
    }

    #[inline]
    fn after(&mut self, step: &Step, machine: &Watched<M>) -> Result<(), ShowFault> {
        // the line of an instruction that ended the run is the last
        if step.end().is_some() {
            return Ok(());
        }
        let Some(visited) = self.open else {
            return Ok(());
        };
        self.open = None;
        self.put_step(visited, step, machine)?;
        if self.kept.len() >= KEPT {
            return self.write_kept();
        }
        Ok(())
    }
}
