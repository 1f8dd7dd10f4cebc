//! A whole run with its lines.

ghost use Rattle.std.specs.Prelude.{◌≡◌, ℕ, List, [], ◌++◌, Some, false, IfOk};
ghost use Rattle.rv_isa_laws.specs.Reader.{Reader};
ghost use Rattle.rv_isa_laws.specs.Run.{run};
ghost use Rattle.rv_isa_laws.specs.Word.{Spells};
ghost use Rattle.rv_parcel.specs.Parcel.{StandsFor};
ghost use Rattle.rv_event_laws.specs.Event.{events};
ghost use Rattle.rv_machine.specs.End.{law_end};
ghost use Rattle.rv_memory.specs.HeldPages.{held_pages};
ghost use Rattle.rv_machine.specs.Hart.{hart_of};
ghost use Rattle.rv_machine.specs.Streams.{MayFollow};
ghost use Rattle.rv_machine.specs.StreamSteps.{input_left, HasRead};
ghost use Rattle.rv_event_text_laws.specs.EventLine.{lines_of};

use crate::lines::EventLines;
use rv_machine::{End, GuestIn, GuestOut, WatchFault, Watched, run_watched};
use rv_memory::Paged;
use std::alloc::Global;
use std::io::Write;

/// Runs a machine, at most `limit` instructions, and writes the line of each event; how the run ended, and the writer.
pub fn run_with_lines<R: GuestIn, W: GuestOut, L: Write + Drop>(
    alloc: Global,
    machine: &mut Watched<Paged>,
    reader: &mut R,
    writer: &mut W,
    lines: L,
    limit: u64,
) -> Result<(End, L), WatchFault>
    // Where the writer of lines had nothing, it has the lines of the run from the machine's hart and memory for what was
    // read and, unless a take gave nothing, for every input that begins with it.
    ensures { L.contents lines ≡ Some [] → IfOk result (λ ended.
        let before = input_left machine.old.intake.ended (R.ends reader.old) (R.remaining reader.old) in
        let after = input_left machine.new.intake.ended (R.ends reader.new) (R.remaining reader.new) in
        (read : List ℕ) × HasRead before after read
        × ((r : Reader Spells StandsFor) (rest : List ℕ) →
        MayFollow (machine.new.intake.ended ≡ false) rest →
        let start = hart_of machine.old.hart (read ++ rest) [] in
        ((run r limit start (held_pages machine.old.memory)).«end» ≡ law_end ended.0)
        × (L.contents ended.1 ≡ Some (lines_of (events r limit start (held_pages machine.old.memory)))))) }
{
    let mut told = EventLines::new(alloc, lines);
    let end = run_watched(machine, reader, writer, &mut told, limit)?;
    match told.finish() {
        Ok(()) => Ok((end, told.into_writer())),
        Err(fault) => Err(WatchFault::Watcher(fault)),
    }
}
