//! A watcher that writes the line of each event.
//!
//! Lines are kept until there are many. What the watcher has seen is said of a writer that had nothing before and whose bytes are
//! known, as a `Vec`: of a file or a terminal no contract can say what it has.

ghost use Rattle.std.specs.Prelude.{◌≡◌, [], Some, List, OnOk};
ghost use Rattle.rv_event_laws.specs.Event.{Event};
ghost use Rattle.rv_event_text.specs.Written.{HasLines};

use crate::line::put_event;
use rv_machine::{Look, ShowFault, Step, Watched, Watcher};
use rv_memory::Memory;
use std::alloc::Global;
use std::io::Write;

/// The bytes of lines that are kept at most before they are written.
const KEPT: usize = 1 << 15;

/// Writes the line of each event of a run.
#[derive(Drop)]
pub struct EventLines<L: Write> {
    lines: L,
    kept: Vec<u8>,
}

impl<L: Write> EventLines<L> {
    /// Of a run that has not begun.
    pub fn new(alloc: Global, lines: L) -> Self
        ensures lines { result.lines ≡ lines }
        ensures none_seen { L.contents lines ≡ Some []
            → HasLines (L.contents result.lines) result.kept.items [] }
    {
        EventLines {
            lines,
            kept: Vec::new(alloc),
        }
    }

    /// Writes the lines that are kept.
    pub fn finish(&mut self) -> Result<(), ShowFault>
        ensures none_kept { OnOk result (self.new.kept.items ≡ []) }
        ensures seen { OnOk result ((told : List Event) →
            HasLines (L.contents self.old.lines) self.old.kept.items told
            → HasLines (L.contents self.new.lines) self.new.kept.items told) }
    {
        let written = self.lines.write_all(self.kept.as_slice());
        match written {
            Ok(()) => {
                self.kept.clear();
                Ok(())
            }
            Err(_) => Err(ShowFault::Unwritten),
        }
    }

    /// Writes the lines that are kept, if they are many.
    fn write_many(&mut self) -> Result<(), ShowFault>
        ensures { OnOk result ((told : List Event) →
            HasLines (L.contents self.old.lines) self.old.kept.items told
            → HasLines (L.contents self.new.lines) self.new.kept.items told) }
    {
        if self.kept.len() >= KEPT {
            return self.finish();
        }
        Ok(())
    }

    /// The writer, without the lines that are kept.
    pub fn into_writer(self) -> L
        ensures { result ≡ self.lines }
    {
        let EventLines { lines, .. } = self;
        lines
    }
}

impl<M: Memory, L: Write> Watcher<M> for EventLines<L> {
    ghost has_seen = { λ lines told. HasLines (L.contents lines.lines) lines.kept.items told };

    #[inline]
    fn before(&mut self, _: &Look, _: &Watched<M>) -> Result<(), ShowFault> {
        Ok(())
    }

    #[inline]
    fn after(&mut self, step: &Step, machine: &Watched<M>) -> Result<(), ShowFault> {
        let event = step.event(machine.hart());
        put_event(&mut self.kept, &event, machine.memory())?;
        self.write_many()
    }
}
