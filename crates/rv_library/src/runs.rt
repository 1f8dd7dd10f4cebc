//! Runs over an input at hand and a console that is kept.
//!
//! A guest that writes without end would take all memory of the process, so a console is kept up to a limit; but all that
//! the caller has room for is kept.

ghost use Rattle.std.specs.Prelude.{◌≡◌, ◌≤◌, ℕ, false, List, [], length, IfOk, IfErr};
ghost use Rattle.rv_isa_laws.specs.Word.{Spells};
ghost use Rattle.rv_parcel.specs.Parcel.{StandsFor};
ghost use Rattle.rv_isa_laws.specs.Reader.{Reader};
ghost use Rattle.rv_isa_laws.specs.Run.{machine_run};
ghost use Rattle.rv_isa_laws.specs.Hart.{start};
ghost use Rattle.rv_machine.specs.Counts.{run_length};
ghost use Rattle.rv_image.specs.Views.{image_of};
ghost use Rattle.rv_image_laws.specs.Memory.{mem_of};
ghost use Rattle.rv_machine.specs.Outcome.{outcome_of};
ghost use Rattle.rv_memory.specs.HeldPages.{held_pages};
ghost use Rattle.rv_machine.specs.Hart.{hart_of};
ghost use Rattle.rv_library.specs.Ran.{
  IsImageIn,
  IsRan,
  IsReached,
  IsReachedFrom,
  IsReachedOn,
  IsStop,
};

use crate::streams::{Console, Input};
use rv_fault::Fault;
use rv_image::{FileFault, Image, load};
use rv_machine::{
    End, Look, Outcome, RunFault, ShowFault, Step, WatchFault, Watched, Watcher, run_counted,
    run_watched,
};
use rv_memory::{Memory, Paged};
use std::alloc::{AllocError, Global};

/// The bytes of a console that are kept where the caller has room for fewer: 64 MiB.
pub(crate) const KEPT: usize = 1 << 26;

/// Why a run came to nothing.
#[derive(Drop)]
pub(crate) enum Stop {
    /// The file is refused, or memory ran out.
    Refused(Fault),
    /// The guest has written more than is kept.
    TooLong,
    /// What was taken of the input is not known.
    Unknown,
}

impl From<AllocError> for Stop {
    ghost use Rattle.rv_fault.specs.declared.fault.Fault.TheVariants.{Memory};
    ghost use Rattle.rv_library.specs.declared.runs.Stop.TheVariants.{Refused};

    ghost from_gives = { λ _ stop. stop ≡ Refused Memory };

    fn from(_: AllocError) -> Self {
        Stop::Refused(Fault::Memory)
    }
}

/// What a run has come to, and how many instructions it took.
#[derive(Drop)]
pub(crate) struct Counted {
    pub outcome: Outcome,
    pub count: u64,
}

/// The machine that a run has left, what the guest has written, and how the run ended.
#[derive(Drop)]
pub(crate) struct Reached {
    pub machine: Watched<Paged>,
    /// How many bytes of its input were taken.
    pub taken: usize,
    pub console: Vec<u8>,
    pub end: End,
    /// How many steps there were.
    pub count: u64,
}

/// Counts the steps of a run.
#[derive(Drop)]
struct Steps {
    count: u64,
}

impl<M: Memory> Watcher<M> for Steps {
    ghost use Rattle.std.specs.Prelude.{◌≡◌, ◌-◌, ◌^◌, min, length};

    ghost has_seen = { λ steps seen. steps.count ≡ min (length seen) (2 ^ 64 - 1) };

    #[inline]
    fn before(&mut self, _: &Look, _: &Watched<M>) -> Result<(), ShowFault> {
        Ok(())
    }

    #[inline]
    fn after(&mut self, _: &Step, _: &Watched<M>) -> Result<(), ShowFault> {
        self.count = self.count.saturating_add(1);
        Ok(())
    }
}

/// The image of an executable.
pub(crate) fn image_in(alloc: Global, file: &[u8]) -> Result<Image, Stop>
    ensures image { IfOk result (λ image. IsImageIn file.now (image_of image)) }
    ensures refused { IfErr result (IsStop file.now) }
{
    match load(alloc, file) {
        Ok(image) => Ok(image),
        Err(FileFault::OutOfMemory) => Err(Stop::Refused(Fault::Memory)),
        Err(fault) => Err(Stop::Refused(Fault::File(1, fault))),
    }
}

/// Why a run was stopped whose console could not be written for the reason that is given, if for one but its length.
fn stop_of(fault: RunFault, refused: Option<AllocError>) -> Stop
    ensures { (file : List ℕ) → IsStop file result }
{
    match fault {
        RunFault::OutOfMemory => Stop::Refused(Fault::Memory),
        RunFault::InputFault => Stop::Unknown,
        RunFault::OutputFault => match refused {
            Some(error) => Stop::from(error),
            None => Stop::TooLong,
        },
    }
}

/// Runs an image with an input, at most `limit` instructions; no more bytes of its console are kept than `most`.
fn ran_image(
    alloc: Global,
    image: Image,
    input: &[u8],
    limit: u64,
    most: usize,
) -> Result<Counted, Stop>
    ensures runs { IfOk result (λ c. (reader : Reader Spells StandsFor) → outcome_of c.outcome
        ≡ machine_run reader (mem_of (image_of image)) image.entry input.now limit) }
    ensures count { IfOk result (λ c. (reader : Reader Spells StandsFor) → c.count
        ≡ run_length reader limit (start image.entry input.now) (mem_of (image_of image))) }
    ensures refused { (file : List ℕ) → IfErr result (IsStop file) }
{
    let mut reader = Input::new(input);
    let mut console = Console::new(alloc, most);
    match run_counted(alloc, image, &mut reader, &mut console, limit) {
        Ok(ran) => {
            if !reader.is_whole() {
                return Err(Stop::Unknown);
            }
            Ok(Counted {
                outcome: Outcome {
                    console: console.bytes,
                    end: ran.end,
                },
                count: ran.count,
            })
        }
        Err(fault) => Err(stop_of(fault, console.refused)),
    }
}

/// Runs an executable with an input, at most `limit` instructions, for a caller who has room for so many bytes of its
/// console.
pub(crate) fn ran(
    alloc: Global,
    file: &[u8],
    input: &[u8],
    limit: u64,
    room: usize,
) -> Result<Counted, Stop>
    ensures { IsRan file.now input.now limit result }
{
    let image = image_in(alloc, file)?;
    ran_image(alloc, image, input, limit, room.max(KEPT))
}

/// Runs a machine on, at most `steps` instructions, with an input of which it has taken nothing. No more bytes of its
/// console are kept than `most`.
pub(crate) fn run_on(
    alloc: Global,
    machine: Watched<Paged>,
    input: &[u8],
    steps: u64,
    most: usize,
) -> Result<Reached, Stop>
    requires { machine.intake.ended ≡ false }
    ensures taken { IfOk result (λ r. r.taken ≤ length input.now) }
    ensures reached { IfOk result
        (IsReachedOn (hart_of machine.hart input.now []) (held_pages machine.memory)
        input.now steps) }
    ensures refused { (file : List ℕ) → IfErr result (IsStop file) }
{
    let mut machine = machine;
    let mut reader = Input::new(input);
    let mut console = Console::new(alloc, most);
    let mut counted = Steps { count: 0 };
    match run_watched(&mut machine, &mut reader, &mut console, &mut counted, steps) {
        Ok(end) => {
            if !reader.is_whole() {
                return Err(Stop::Unknown);
            }
            Ok(Reached {
                machine,
                taken: input.len().saturating_sub(reader.left.len()),
                console: console.bytes,
                end,
                count: counted.count,
            })
        }
        Err(WatchFault::Run(fault)) => Err(stop_of(fault, console.refused)),
        // this watcher never fails
        Err(WatchFault::Watcher(_)) => Err(Stop::Unknown),
    }
}

/// Runs an image as [`ran_image`], and gives the machine that the run leaves.
fn reached_from(
    alloc: Global,
    image: Image,
    input: &[u8],
    steps: u64,
    most: usize,
) -> Result<Reached, Stop>
    ensures reached { IfOk result (IsReachedFrom (image_of image) input.now steps) }
    ensures refused { (file : List ℕ) → IfErr result (IsStop file) }
{
    let entry = image.entry;
    let machine = Watched::new(Paged::new(alloc, image)?, entry);
    run_on(alloc, machine, input, steps, most)
}

/// The machine that an executable's run leaves after at most so many instructions.
pub(crate) fn run_to(
    alloc: Global,
    file: &[u8],
    input: &[u8],
    steps: u64,
    room: usize,
) -> Result<Reached, Stop>
    ensures { IsReached file.now input.now steps result }
{
    let image = image_in(alloc, file)?;
    reached_from(alloc, image, input, steps, room.max(KEPT))
}
