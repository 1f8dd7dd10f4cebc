//! From a source to its object.

ghost use Rattle.rv_library.specs.Made.{GivesAssembly, IsAssembly};

use crate::answers::{Answer, Made, give};
use rv_chain::assemble_object;
use rv_fault::Fault;
use std::alloc::Global;

/// Assembles a source: `rv_as` of `include/rv.h`.
#[unsafe(no_mangle)]
pub extern "C" fn rv_as(alloc: Global, source: &[u8], object: &mut [u8], answer: &mut Answer) -> u32
    // what is made, as `assemble_object` promises it, and how it is given
    ensures { GivesAssembly source.now result object.old object.new answer.new }
{
    let made = made_of_source(alloc, source);
    give(alloc, made, object, &mut [], answer)
}

/// The object of a source.
fn made_of_source(alloc: Global, source: &[u8]) -> Result<Option<Made>, Fault>
    ensures { IsAssembly source.now result }
{
    match assemble_object(alloc, source) {
        Ok(first) => Ok(Some(Made {
            first,
            second: Vec::new(alloc),
        })),
        Err(fault) => Err(fault),
    }
}
