//! Runs that are looked at between their steps.
//!
//! A watched run does the steps of `run_io` one at a time, and tells its watcher what stands at each step's address and the
//! event of each step. A watcher only looks: it cannot change hart or memory, so what it shows is of the run itself. It is
//! lent a [`Step`] that stands for the event, so that what it does not ask of it costs it nothing. The machine is left in
//! the run's last state.

ghost use Rattle.std.specs.Prelude.{◌≡◌, ℕ, List, [], ◌++◌, ◌∷◌, false, IfOk};
ghost use Rattle.std.specs.Io.KnownBytes.{Appends};
ghost use Rattle.rv_isa_laws.specs.Word.{Spells};
ghost use Rattle.rv_parcel.specs.Parcel.{StandsFor};
ghost use Rattle.rv_isa_laws.specs.Hart.{start};
ghost use Rattle.rv_isa_laws.specs.Reader.{Reader};
ghost use Rattle.rv_isa_laws.specs.Run.{Fetched, fetch};
ghost use Rattle.rv_machine.specs.Fetch.{spelled_at, code_at};
ghost use Rattle.rv_memory.specs.HeldPages.{held_pages};
ghost use Rattle.rv_machine.specs.Hart.{hart_of};
ghost use Rattle.rv_machine.specs.Registers.{register_value};
ghost use Rattle.rv_machine.specs.Streams.{MayFollow};
ghost use Rattle.rv_event_laws.specs.Event.{Event};
ghost use Rattle.rv_machine.specs.Seen.{event_by};
ghost use Rattle.rv_machine.specs.Watching.{Shows, Unfailed, FailsIn};
ghost use Rattle.rv_machine.specs.StreamSteps.{input_left, HasRead};

use crate::end::End;
use crate::event::{Accesses, Moved, Step};
use crate::fetch::{Look, look_at};
use crate::hart::Hart;
use crate::running::{Intake, RunFault};
use crate::streams::{GuestIn, GuestOut};
use crate::telling::step_told;
use rv_isa::Reg;
use rv_memory::{Memory, Paged};
use std::alloc::{AllocError, AllocFailed};
use thiserror::Error;

/// Why a watcher cannot show what it is told.
#[derive(Clone, Copy, Debug, Drop, Error)]
pub enum ShowFault {
    #[error("cannot write")]
    Unwritten,
    #[error("out of memory")]
    OutOfMemory,
}

impl From<AllocError> for ShowFault {
    fn from(_: AllocError) -> Self {
        ShowFault::OutOfMemory
    }
}

impl<T: Drop> From<AllocFailed<T>> for ShowFault {
    fn from(_: AllocFailed<T>) -> Self {
        ShowFault::OutOfMemory
    }
}

/// Why a watched run came to no end.
#[derive(Clone, Copy, Debug, Drop, Error)]
pub enum WatchFault {
    /// A stream of the guest failed.
    #[error("a stream failed")]
    Run(RunFault),
    /// The watcher failed.
    #[error("the watcher failed")]
    Watcher(ShowFault),
}

/// A hart over a memory that can be looked at between its steps. Its calls use streams.
#[derive(Drop)]
pub struct Watched<M: Memory> {
    pub(crate) hart: Hart,
    pub(crate) memory: M,
    pub(crate) intake: Intake,
}

/// What a machine is made of between two steps.
#[derive(Drop)]
pub struct Parts<M: Memory> {
    pub hart: Hart,
    pub memory: M,
    /// Whether a take of the input has given nothing: then none takes more.
    pub input_ended: bool,
}

/// Who is told what each step of a machine did, and looks at the machine before and after it.
pub trait Watcher<M: Memory> {
    /// That the watcher shows exactly these events, in its own words.
    ghost has_seen: { Self → List Event → Type 0 };

    /// Is told what stands at the address of the next instruction, and looks at the machine before its step.
    fn before(&mut self, look: &Look, machine: &Watched<M>) -> Result<(), ShowFault>
        requires pc { look.now.pc ≡ machine.now.hart.pc }
        requires bits { look.now.bits ≡ code_at (M.mem machine.now.memory) machine.now.hart.pc }
        requires fetched { (reader : Reader Spells StandsFor) → spelled_at reader look.now.bits
            ≡ fetch reader (M.mem machine.now.memory) machine.now.hart.pc }
        ensures kept { IfOk result
            (λ _. (past : List Event) → has_seen self.old past → has_seen self.new past) };

    /// Is told what a step did, and looks at the machine after it. The step's event is of what its bits spell.
    fn after(&mut self, step: &Step, machine: &Watched<M>) -> Result<(), ShowFault>
        ensures told { IfOk result (λ _. (fetched : Fetched) →
            ((reader : Reader Spells StandsFor) → spelled_at reader step.now.look.bits ≡ fetched) →
            (past : List Event) → has_seen self.old past
            → has_seen self.new
            (past ++ (event_by fetched step.now machine.now.hart (M.mem machine.now.memory) ∷ []))) };
}

impl<M: Memory> Watched<M> {
    /// A machine before its first step: registers 0 but sp, at an entry.
    pub fn new(memory: M, entry: u64) -> Self
        ensures hart { (input : List ℕ) → hart_of result.hart input [] ≡ start entry input }
        ensures memory { M.mem result.memory ≡ M.mem memory }
        ensures ended { result.intake.ended ≡ false }
    {
        Watched::from_parts(Parts {
            hart: Hart::new(entry),
            memory,
            input_ended: false,
        })
    }

    /// A machine in the state that its parts say.
    pub fn from_parts(parts: Parts<M>) -> Self
        ensures hart { result.hart ≡ parts.hart }
        ensures memory { M.mem result.memory ≡ M.mem parts.memory }
        ensures ended { result.intake.ended ≡ parts.input_ended }
    {
        let Parts {
            hart,
            memory,
            input_ended,
        } = parts;
        Watched {
            hart,
            memory,
            intake: Intake {
                ended: input_ended,
                buffer: [0; 4096],
            },
        }
    }

    /// Registers, pc and reservation.
    #[inline]
    pub fn hart(&self) -> &Hart
        ensures { result.now ≡ self.now.hart }
    {
        &self.hart
    }

    /// Whether a take of the input has given nothing.
    #[inline]
    pub fn input_ended(&self) -> bool
        ensures { result ≡ self.now.intake.ended }
    {
        self.intake.ended
    }

    /// The address of the next instruction.
    #[inline]
    pub fn pc(&self) -> u64
        ensures { result ≡ self.now.hart.pc }
    {
        self.hart.pc
    }

    /// The value of a register.
    #[inline]
    pub fn register(&self, register: Reg) -> u64
        ensures { result ≡ register_value self.now.hart.registers register }
    {
        self.hart.registers.get(register)
    }

    /// The memory.
    #[inline]
    pub fn memory(&self) -> &M
        ensures { result.now ≡ self.now.memory }
    {
        &self.memory
    }
}

/// Runs a machine, at most `limit` instructions, and tells a watcher the event of each step. Its memory is one of pages, as
/// that of `run_machine` is.
pub fn run_watched<R: GuestIn, W: GuestOut, T: Watcher<Paged>>(
    machine: &mut Watched<Paged>,
    reader: &mut R,
    writer: &mut W,
    watcher: &mut T,
    limit: u64,
) -> Result<End, WatchFault>
    // What was read, written and told, and the run from the machine's hart and memory for what was read and, unless a
    // take gave nothing, for every input that begins with it: it comes to this end, leaves this hart and this memory,
    // and has exactly the events that were told. Where a stream failed or the watcher stopped it, the beginning was
    // written and told; a watcher that stopped it left what some of the steps leave.
    ensures runs { let before = input_left machine.old.intake.ended (R.ends reader.old)
        (R.remaining reader.old) in
        let after = input_left machine.new.intake.ended (R.ends reader.new) (R.remaining reader.new) in
        (read written : List ℕ) × (told : List Event) × HasRead before after read
        × Appends (W.written writer.old) (W.written writer.new) written
        × Unfailed result
        ((past : List Event) → T.has_seen watcher.old past → T.has_seen watcher.new (past ++ told))
        × ((r : Reader Spells StandsFor) (rest : List ℕ) →
        MayFollow (machine.new.intake.ended ≡ false) rest →
        Shows result written told (hart_of machine.new.hart rest written, held_pages machine.new.memory)
        r limit (hart_of machine.old.hart (read ++ rest) []) (held_pages machine.old.memory)) }
    // The reader has failed exactly at InputFault, the writer exactly at OutputFault.
    ensures failed { FailsIn result (R.in_failed reader.old) (W.out_failed writer.old)
        (R.in_failed reader.new) (W.out_failed writer.new) }
{
    let mut remaining = limit;
    while remaining > 0 {
        let look = look_at(&machine.hart, &machine.memory);
        match watcher.before(&look, machine) {
            Ok(()) => {}
            Err(fault) => return Err(WatchFault::Watcher(fault)),
        }
        let mut accesses = Accesses::NONE;
        let mut moved = Moved::NONE;
        match step_told(
            look.bits,
            &mut accesses,
            &mut moved,
            &mut machine.hart,
            &mut machine.memory,
            &mut machine.intake,
            reader,
            writer,
        ) {
            Ok(None) => {
                remaining -= 1;
                let step = Step::went_on(look, accesses, moved);
                match watcher.after(&step, machine) {
                    Ok(()) => {}
                    Err(fault) => return Err(WatchFault::Watcher(fault)),
                }
            }
            Ok(Some(end)) => {
                let step = Step::ended(look, end);
                return match watcher.after(&step, machine) {
                    Ok(()) => Ok(end),
                    Err(fault) => Err(WatchFault::Watcher(fault)),
                };
            }
            Err(fault) => return Err(WatchFault::Run(fault)),
        }
    }
    Ok(End::Limit)
}
