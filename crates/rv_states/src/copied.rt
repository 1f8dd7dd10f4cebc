//! Machines a second time.

ghost use Rattle.std.specs.Prelude.{◌≡◌, IfOk};
ghost use Rattle.rv_memory.specs.HeldPages.{held_pages};

use rv_machine::{Parts, Watched};
use rv_memory::Paged;
use std::alloc::{AllocError, Global};

/// The same machine.
pub fn machine_again(alloc: Global, machine: &Watched<Paged>) -> Result<Watched<Paged>, AllocError>
    ensures hart { IfOk result (λ copy. copy.hart ≡ machine.now.hart) }
    ensures memory { IfOk result (λ copy. held_pages copy.memory ≡ held_pages machine.now.memory) }
    ensures ended { IfOk result (λ copy. copy.intake.ended ≡ machine.now.intake.ended) }
{
    let memory = machine.memory().copied(alloc)?;
    Ok(Watched::from_parts(Parts {
        hart: machine.hart().copied(),
        memory,
        input_ended: machine.input_ended(),
    }))
}
