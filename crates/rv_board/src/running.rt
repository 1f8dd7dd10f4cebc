//! Runs of machines on the board.
//!
//! A machine runs by its quick path, which knows no device, until memory refuses an instruction. A device may answer that
//! one; then the machine runs on behind it.

ghost use Rattle.std.specs.Prelude.{◌≡◌, ℕ, List, [], ◌++◌, false, true, map, IsErrOf};
ghost use Rattle.std.specs.Io.KnownBytes.{Consumes, Appends};
ghost use Rattle.rv_parcel.specs.Parcel.{StandsFor};
ghost use Rattle.rv_isa_laws.specs.Word.{Spells};
ghost use Rattle.rv_isa_laws.specs.Reader.{Reader};
ghost use Rattle.rv_image.specs.SegmentView.{segment_of};
ghost use Rattle.rv_image.specs.Views.{image_of};
ghost use Rattle.rv_machine.specs.Hart.{hart_of};
ghost use Rattle.rv_memory.specs.HeldPages.{held_pages};
ghost use Rattle.rv_machine.specs.Streams.{MayFollow, Accords, FailsBy};
ghost use Rattle.rv_machine.specs.StreamSteps.{input_left, HasRead};
ghost use Rattle.rv_machine.specs.declared.running.RunFault.TheVariants.{OutOfMemory};
ghost use Rattle.rv_board_laws.specs.Device.{run_on};
ghost use Rattle.rv_board_laws.specs.Virt.{virt, virt_run, board_start, ram_start, lie_in_ram};

use crate::answering::{Answer, ask_device};
use crate::ram::{RAM_START, with_ram};
use rv_image::Image;
use rv_machine::{End, GuestIn, GuestOut, Hart, Parts, Registers, RunFault, Watched, run_machine};
use rv_memory::Paged;
use std::alloc::Global;

/// A hart at its start.
fn hart_at_start() -> Hart
    ensures { (input : List ℕ) → hart_of result input [] ≡ board_start input }
{
    Hart {
        registers: Registers::of([0; 32]),
        pc: RAM_START,
        reservation: None,
    }
}

/// Runs a machine with the devices of the board, at most `limit` instructions.
pub(crate) fn run_over<R: GuestIn, W: GuestOut>(
    machine: &mut Watched<Paged>,
    reader: &mut R,
    writer: &mut W,
    limit: u64,
) -> Result<End, RunFault>
    // What was read and written, and the run with devices from the machine's hart and memory for what was read and,
    // unless a take gave nothing, for every input that begins with it.
    ensures runs { let before = input_left machine.old.intake.ended (R.ends reader.old) (R.remaining reader.old) in
        let after = input_left machine.new.intake.ended (R.ends reader.new) (R.remaining reader.new) in
        (read written : List ℕ) × HasRead before after read
        × Appends (W.written writer.old) (W.written writer.new) written
        × ((r : Reader Spells StandsFor) (rest : List ℕ) →
        MayFollow (machine.new.intake.ended ≡ false) rest →
        Accords result written
        (run_on virt r limit (hart_of machine.old.hart (read ++ rest) []) (held_pages machine.old.memory))) }
    ensures failed { FailsBy result (R.in_failed reader.old) (W.out_failed writer.old)
        (R.in_failed reader.new) (W.out_failed writer.new) }
    ensures memory { IsErrOf result OutOfMemory → ⊥ }
{
    let mut remaining = limit;
    while remaining > 0 {
        let ran = match run_machine(machine, reader, writer, remaining) {
            Ok(ran) => ran,
            Err(fault) => return Err(fault),
        };
        if let End::Limit = ran.end {
            return Ok(End::Limit);
        }
        match ask_device(machine, reader, writer) {
            Ok(Answer::Went) => {}
            Ok(Answer::Ended(end)) => return Ok(end),
            Ok(Answer::Refused) => return Ok(ran.end),
            Err(fault) => return Err(fault),
        }
        remaining -= ran.count;
    }
    Ok(End::Limit)
}

/// Runs an image on the board `virt`, at most `limit` instructions. Input is taken when the guest asks for it, and what it
/// writes is put before its next instruction.
pub fn run_virt<R: GuestIn, W: GuestOut>(
    alloc: Global,
    image: Image,
    reader: &mut R,
    writer: &mut W,
    limit: u64,
) -> Result<End, RunFault>
    requires lie { lie_in_ram ram_start (map segment_of image.segments.items) ≡ true }
    requires reader { R.in_failed reader.old ≡ false }
    requires writer { W.out_failed writer.old ≡ false }
    // What was read and written, and the run on the board for what was read and, unless a take gave nothing, for every
    // input that begins with it.
    ensures runs { (read written : List ℕ)
        × Consumes (R.remaining reader.old) (R.remaining reader.new) read
        × Appends (W.written writer.old) (W.written writer.new) written
        × ((r : Reader Spells StandsFor) (rest : List ℕ) →
        MayFollow (R.ends reader.new ≡ R.ends reader.old) rest →
        Accords result written (virt_run r (image_of image) (read ++ rest) limit)) }
    // The reader has failed exactly at InputFault, the writer exactly at OutputFault.
    ensures failed { FailsBy result false false (R.in_failed reader.new) (W.out_failed writer.new) }
    ensures memory { IsErrOf result OutOfMemory → (reader.new ≡ reader.old) × (writer.new ≡ writer.old) }
{
    let board = with_ram(alloc, image)?;
    let memory = Paged::new(alloc, board)?;
    let mut machine = Watched::from_parts(Parts {
        hart: hart_at_start(),
        memory,
        input_ended: false,
    });
    run_over(&mut machine, reader, writer, limit)
}
