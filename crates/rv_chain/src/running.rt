//! From an executable to the end of its run.

ghost use Rattle.std.specs.Prelude.{IfErr, IfOk};
ghost use Rattle.rv_isa_laws.specs.Word.{Spells};
ghost use Rattle.rv_parcel.specs.Parcel.{StandsFor};
ghost use Rattle.rv_isa_laws.specs.Reader.{Reader};
ghost use Rattle.rv_machine.specs.Outcome.{outcome_of};
ghost use Rattle.rv_chain_laws.specs.Running.{RunsFile, RefusesFile};

use rv_fault::Fault;
use rv_image::{FileFault, load};
use rv_machine::{Outcome, run};
use std::alloc::Global;

/// Loads an executable and runs it with an input, for `limit` instructions at most. A refused file is file 1.
pub fn run_exec(alloc: Global, file: &[u8], input: &[u8], limit: u64) -> Result<Outcome, Fault>
    ensures runs { (reader : Reader Spells StandsFor)
        → IfOk result (λ o. RunsFile reader file.now input.now limit (outcome_of o)) }
    ensures refuses { IfErr result (RefusesFile file.now) }
{
    let image = match load(alloc, file) {
        Ok(image) => image,
        Err(FileFault::OutOfMemory) => return Err(Fault::Memory),
        Err(fault) => return Err(Fault::File(1, fault)),
    };
    let outcome = run(alloc, image, input, limit)?;
    Ok(outcome)
}
