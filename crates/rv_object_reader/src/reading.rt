//! From a file to its object.

ghost use Rattle.std.specs.Prelude.{◌≡◌, ◌⊎◌, None, Some, IfOk, IfErr};
ghost use Rattle.rv_fault.specs.declared.file_fault.FileFault.TheVariants.{OutOfMemory};
ghost use Rattle.rv_object_types.specs.View.{object_of};
ghost use Rattle.rv_object_file_laws.specs.FirstFault.{first_fault};
ghost use Rattle.rv_object_file_laws.specs.ObjectOf.{ObjectOf};

use crate::checking::check;
use crate::parts::is_compressed;
use crate::relocations::relocations;
use crate::rows::rows;
use crate::sections::sections;
use crate::symbols::symbols;
use rv_fault::FileFault;
use rv_object_types::Object;
use std::alloc::Global;

/// The object of a file, or the first of the file's faults.
pub fn read<'a>(alloc: Global, file: &'a [u8]) -> Result<Object<'a>, FileFault>
    ensures object { IfOk result
        (λ object. (first_fault file.now ≡ None) × ObjectOf file.now (object_of object)) }
    ensures refuses { IfErr result
        (λ fault. (fault ≡ OutOfMemory) ⊎ (first_fault file.now ≡ Some fault)) }
{
    let checked = check(alloc, file)?;
    let relocations = relocations(alloc, &checked)?;
    let sections = sections(alloc, &checked, relocations)?;
    let symbols = symbols(alloc, &checked)?;
    let rows = rows(alloc, &checked)?;
    Ok(Object {
        sections,
        symbols,
        rows,
        rvc: is_compressed(&checked.view),
    })
}
