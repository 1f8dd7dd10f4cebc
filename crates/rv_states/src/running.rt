//! A machine that goes on by so many instructions.

ghost use Rattle.std.specs.Prelude.{◌≡◌, ◌≤◌, ◌+◌, ◌-◌, ℕ, true, false, List, [], None, IfOk, drop, length};
ghost use Rattle.rv_isa_laws.specs.Hart.{start};
ghost use Rattle.rv_isa_laws.specs.Memory.{Mem};
ghost use Rattle.rv_image.specs.Views.{image_of};
ghost use Rattle.rv_image_laws.specs.Memory.{mem_of};
ghost use Rattle.rv_memory.specs.HeldPages.{held_pages};
ghost use Rattle.rv_machine.specs.Hart.{hart_of};
ghost use Rattle.rv_states.specs.Replayed.{IsStateAt, IsStill, is_limit as is_limit_by};

use crate::given::Given;
use crate::steps::Steps;
use crate::written::Written;
use rv_image::Image;
use rv_machine::{End, WatchFault, Watched, run_watched};
use rv_memory::{Paged, copied_image};
use std::alloc::{AllocError, Global};

/// What came of going on.
#[derive(Clone, Copy, Drop)]
pub struct Ran {
    /// How the run ended, if it did.
    pub end: Option<End>,
    /// How many instructions were begun.
    pub steps: u64,
    /// How many bytes of the input are left.
    pub left: usize,
}

/// Whether an end is that at the limit.
fn is_limit(end: &End) -> bool
    ensures { result ≡ is_limit_by end.now }
{
    matches!(*end, End::Limit)
}

/// What came of a run to an end with so many instructions, counted modulo 2^64, of so many at most.
fn ran_by(end: End, counted: u64, count: u64, left: usize) -> Ran
    ensures left { result.left ≡ left }
    ensures most { result.steps ≤ count }
    ensures whole { result.end ≡ None → result.steps ≡ count }
    ensures limit { is_limit_by end ≡ true → (more : ℕ) → IsStill result.end more → result.steps + more ≡ count }
    ensures over { is_limit_by end ≡ false → counted ≤ count → result.steps ≡ counted }
{
    if is_limit(&end) {
        return Ran {
            end: None,
            steps: count,
            left,
        };
    }
    Ran {
        end: Some(end),
        steps: counted.min(count),
        left,
    }
}

/// The machine of an image before its first step.
pub fn machine_of(alloc: Global, image: &Image) -> Result<Watched<Paged>, AllocError>
    ensures hart { IfOk result (λ machine. (input : List ℕ) →
        hart_of machine.hart input [] ≡ start image.now.entry input) }
    ensures memory { IfOk result (λ machine. held_pages machine.memory ≡ mem_of (image_of image.now)) }
    ensures ended { IfOk result (λ machine. machine.intake.ended ≡ false) }
{
    let memory = Paged::new(alloc, copied_image(alloc, image)?)?;
    Ok(Watched::new(memory, image.entry))
}

/// Goes on by so many instructions, or to the end, with what is left of the input.
pub fn run_on(
    machine: &mut Watched<Paged>,
    rest: &[u8],
    written: &mut Written,
    count: u64,
) -> Result<Ran, WatchFault>
    ensures state { IfOk result (λ ran. (m : Mem) (entry : ℕ) (input : List ℕ) (n more : ℕ) →
        IsStill ran.end more →
        IsStateAt m entry input n machine.old.hart (held_pages machine.old.memory)
        machine.old.intake.ended rest.now →
        IsStateAt m entry input (n + ran.steps + more) machine.new.hart (held_pages machine.new.memory)
        machine.new.intake.ended (drop (length rest.now - ran.left) rest.now)) }
    ensures steps { IfOk result (λ ran. ran.steps ≤ count) }
    ensures whole { IfOk result (λ ran. ran.end ≡ None → ran.steps ≡ count) }
    ensures left { IfOk result (λ ran. ran.left ≤ length rest.now) }
{
    let mut given = Given::new(rest);
    let mut steps = Steps { count: 0 };
    let end = run_watched(machine, &mut given, written, &mut steps, count)?;
    Ok(ran_by(end, steps.count, count, given.left()))
}
