//! From a source to the file of its object.

ghost use Rattle.std.specs.Prelude.{IfOk, IfErr};
ghost use Rattle.rv_chain_laws.specs.Objects.{IsObjectFile};
ghost use Rattle.rv_chain.specs.Refusals.{IsRefusedAt};

use crate::building::object;
use rv_fault::Fault;
use rv_object_writer::write;
use std::alloc::Global;

/// Assembles a source: the bytes of its object's file. A refused source is file 1.
pub fn assemble_object(alloc: Global, source: &[u8]) -> Result<Vec<u8>, Fault>
    ensures object { IfOk result (λ file. IsObjectFile source.now file.items) }
    ensures refuses { IfErr result (IsRefusedAt 1 source.now) }
{
    let object = object(alloc, 0, source)?;
    Ok(write(alloc, &object)?)
}
